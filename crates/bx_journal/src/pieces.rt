//! Reading a device in pieces.

ghost use Rattle.std.specs.Prelude.{◌≡◌, ◌+◌, ◌<◌, [], Ok, MatchOption, OnOk, OnErr, IsTrue};
ghost use Rattle.std.specs.Io.KnownBytes.{IsAtEnd};
ghost use Rattle.bx_devices.specs.Watching.{device_of, is_faulted};
ghost use Rattle.bx_journal.specs.Taking.{Takes, IsOctet};
ghost use Rattle.bx_journal.specs.Held.{HoldsNothing, TakesHeld};

use bx_devices::Watched;
use std::io::Read;
use std::marker::Model;

/// How many octets a piece has at most.
const PIECE: usize = 8_192;

/// A read failed.
#[derive(Clone, Copy)]
pub struct CannotRead;

/// A piece that was read, of which some octets are taken.
#[derive(Drop)]
pub struct Pieces {
    buffer: [u8; PIECE],
    at: usize,
    len: usize,
    taken: u64,
}

impl Model for Pieces {
    ghost use Rattle.std.specs.Prelude.{◌≤◌, drop, take};
    ghost use Rattle.bx_journal.specs.Held.{Held};

    ghost Value = { Held };

    ghost view = { λ p. record { octets = drop p.at (take p.len p.buffer); taken = p.taken } };

    ghost invariant = { λ p. (p.at ≤ p.len) × (p.len ≤ 8192) };
}

impl Pieces {
    /// Nothing is read yet.
    pub(crate) fn new() -> Pieces
        ensures { result ≡ record { octets = []; taken = 0 } }
    {
        Pieces {
            buffer: [0; PIECE],
            at: 0,
            len: 0,
            taken: 0,
        }
    }

    /// How many octets were taken.
    pub(crate) fn taken(&self) -> u64
        ensures { result ≡ self.now.taken }
    {
        self.taken
    }

    /// Takes the next octet that is held.
    fn take(&mut self) -> Option<u8>
        requires { self.old.taken < 18446744073709551615 }
        ensures { MatchOption result (HoldsNothing self.old self.new) (λ octet. TakesHeld octet self.old self.new) }
    {
        if self.at == self.len {
            return None;
        }
        let octet = self.buffer[self.at];
        self.at += 1;
        self.taken += 1;
        Some(octet)
    }

    /// Reads the next piece. It has no octets at the end alone.
    fn refill<R: Read>(&mut self, device: &mut Watched<R>) -> Result<(), CannotRead>
        requires { self.old.octets ≡ [] }
        ensures takes { Takes (R.remaining (device_of device.old)) (R.remaining (device_of device.new)) self.old self.new [] }
        ensures over { OnOk result (self.new.octets ≡ [] → IsAtEnd (R.remaining (device_of device.new))) }
        ensures faulted { OnErr result (IsTrue (is_faulted device.new)) }
        ensures none { OnErr result (self.new.octets ≡ []) }
        ensures unfaulted { OnOk result (is_faulted device.new ≡ is_faulted device.old) }
    {
        self.at = 0;
        self.len = 0;
        match device.read(&mut self.buffer) {
            Ok(n) => {
                self.len = n;
                Ok(())
            }
            Err(_) => Err(CannotRead),
        }
    }

    /// Takes the next octet, and reads the next piece for it where none is held.
    pub(crate) fn next_octet<R: Read>(
        &mut self,
        device: &mut Watched<R>,
    ) -> Result<Option<u8>, CannotRead>
        requires { self.old.taken < 18446744073709551615 }
        ensures octet { IsOctet (is_faulted device.new) (R.remaining (device_of device.old)) (R.remaining (device_of device.new)) self.old self.new result }
        ensures unfaulted { OnOk result (is_faulted device.new ≡ is_faulted device.old) }
    {
        if let Some(octet) = self.take() {
            return Ok(Some(octet));
        }
        self.refill(device)?;
        Ok(self.take())
    }
}
