//! A reader that counts what it passes on.

ghost use Rattle.std.specs.Prelude.{◌≡◌, ◌≤◌, ◌<◌, ◌+◌, ℕ, List, length, Option, None, true, false};
ghost use Rattle.std.specs.Borrow.{GName};
ghost use Rattle.std.specs.Io.{ReadsAtMost};
ghost use Rattle.std.specs.Io.KnownBytes.{ReadConsumes};
ghost use Rattle.bx_devices.specs.Watching.{device_of, is_faulted, reads_of};
ghost use Rattle.bx_devices.specs.declared.octets.TheConstants.{MAX_OCTETS};
ghost use Rattle.bx_book.specs.Passed.{HasPassed, HasNoneLeft, is_spent, reads_of_none};

use bx_devices::{MAX_OCTETS, MAX_READS, Watched};
use std::io;
use std::io::{Error, ErrorKind, Read};
use std::marker::{Brand, PhantomData};

/// Which reader it is, and what it had left and had seen of reads at first. `csv` says of the reader under it what is left, but not that
/// it is the same one, nor anything once it gave no record. So the type says it: a caller picks both by `Brand`.
pub trait Origin {
    ghost name: { GName };

    ghost text: { Option (List ℕ) };

    ghost reads: { ℕ };
}

impl Origin for Brand {
    ghost name = { 0 };

    ghost text = { None };

    ghost reads = { 0 };
}

/// Passes reads on until the end, a failed read, the 4,194,305th octet or the 8,388,608th read.
#[derive(Drop)]
pub struct Metered<'a, R: Read, O: Origin> {
    pub reader: &'a mut Watched<R>,
    pub octets: usize,
    pub has_ended: bool,
    pub origin: PhantomData<O>,
    ghost same: { reader.ghost_name ≡ O.name },
    ghost limit: { octets ≤ MAX_OCTETS + 1 },
    ghost passed: { HasPassed O.text octets (R.remaining (device_of reader.now)) },
    ghost ended: { has_ended ≡ true → HasNoneLeft (R.remaining (device_of reader.now)) },
    ghost each: { reads_of reader.now ≤ O.reads + (octets + reads_of_none has_ended (is_faulted reader.now)) },
}

impl<'a, R: Read, O: Origin> Metered<'a, R, O> {
    ghost use Rattle.bx_book.specs.Metering.{watched_of, octets_of, has_ended};

    /// Whether nothing more is passed on.
    fn is_spent(&self) -> bool
        ensures { result ≡ is_spent (has_ended self.now) (is_faulted (watched_of self.now)) (octets_of self.now) (reads_of (watched_of self.now)) }
    {
        self.has_ended
            || self.reader.faulted()
            || self.octets > MAX_OCTETS
            || self.reader.reads() == MAX_READS
    }

    /// Reads on until nothing more is passed on.
    pub(crate) fn read_on(&mut self)
        ensures { is_spent (has_ended self.new) (is_faulted (watched_of self.new)) (octets_of self.new) (reads_of (watched_of self.new)) ≡ true }
    {
        let mut buf = [0u8; 4096];
        while !self.is_spent() {
            let _ = self.read(&mut buf);
        }
    }
}

impl<R: Read, O: Origin> Read for Metered<'_, R, O> {
    ghost use Rattle.bx_book.specs.Metering.{watched_of, has_stopped};

    ghost remaining = { λ m. R.remaining (device_of (watched_of m)) };

    // The octet that is one too many is passed on, and the next read fails: at an error no octet may be lost.
    fn read(&mut self, buf: &mut [u8]) -> io::Result<usize>
        ensures bound { ReadsAtMost result buf.new }
        ensures bytes { ReadConsumes (R.remaining (device_of (watched_of self.old))) (R.remaining (device_of (watched_of self.new))) result buf.new }
        ensures reads { has_stopped self.old ≡ false → 0 < length buf.new → reads_of (watched_of self.new) ≡ reads_of (watched_of self.old) + 1 }
    {
        if self.has_ended || buf.is_empty() {
            return Ok(0);
        }
        if self.is_spent() {
            return Err(Error::from(ErrorKind::Other));
        }
        let room = buf.len().min(MAX_OCTETS + 1 - self.octets);
        let read = self.reader.read(&mut buf[..room])?;
        self.octets += read;
        self.has_ended = read == 0;
        Ok(read)
    }
}
