//! An end of a D channel: a link with the octets of its frames.

ghost use Rattle.std.specs.Prelude.{◌≡◌, ◌+◌, ◌<◌, ◌≤◌, ◌^◌, [], min, length};
ghost use Rattle.bx_q931.specs.declared.reading.TheConstants.{MAX_MESSAGE};
ghost use Rattle.bx_lapd.specs.Links.{Makes, is_at_rest, is_link_up};
ghost use Rattle.bx_lapd.specs.Table.{establish, release, takes_data, give, elapse, poll, due_of};
ghost use Rattle.bx_lapd.specs.Codec.{read_octets};
ghost use Rattle.bx_lapd.specs.Endpoints.{hear_octets, is_dropped};
ghost use Rattle.bx_lapd.specs.Once.{IsUnlinked};

use crate::data_link::DataLink;
use crate::done::Done;
use crate::reading::read_frame;
use crate::refusal::Refusal;
use bx_q931::Octets;
use std::marker::Model;

/// An end of a D channel, the network's or the user's, with so many frames that were dropped as invalid.
#[derive(Drop)]
pub struct Endpoint {
    network: bool,
    link: DataLink,
    dropped: u64,
}

impl Model for Endpoint {
    ghost use Rattle.bx_lapd.specs.Bounds.{IsLink};
    ghost use Rattle.bx_lapd.specs.Endpoints.{PlainEndpoint};

    ghost Value = { PlainEndpoint };

    ghost view = { λ e. record { network = e.network; link = e.link; dropped = e.dropped } };

    ghost invariant = { λ e. IsLink e.link };
}

impl Endpoint {
    /// An end that is not linked.
    pub fn new(network: bool) -> Endpoint
        ensures side { result.network ≡ network }
        ensures unlinked { IsUnlinked result.link [] [] }
        ensures none_dropped { result.dropped ≡ 0 }
    {
        Endpoint {
            network,
            link: DataLink::new(),
            dropped: 0,
        }
    }

    /// Whether it is the network's end.
    pub fn is_network(&self) -> bool
        ensures { result ≡ self.now.network }
    {
        self.network
    }

    /// How many frames were dropped as invalid.
    pub fn dropped(&self) -> u64
        ensures { result ≡ self.now.dropped }
    {
        self.dropped
    }

    /// Whether the link is up: states 7 and 8.
    pub fn is_up(&self) -> bool
        ensures { result ≡ is_link_up self.now.link.state }
    {
        self.link.is_up()
    }

    /// The instant at which the timer is due, if it runs.
    pub fn due(&self) -> Option<u64>
        ensures { result ≡ due_of self.now.link.timer }
    {
        self.link.due()
    }

    /// DL-ESTABLISH request.
    pub fn establish(&mut self, now: u64) -> Done
        requires { now < 2 ^ 62 }
        ensures step { Makes (establish self.old.link.state self.old.link now) self.new.link result }
        ensures stays { (self.new.network ≡ self.old.network) × (self.new.dropped ≡ self.old.dropped) }
    {
        self.link.establish(now)
    }

    /// DL-RELEASE request.
    pub fn release(&mut self, now: u64) -> Done
        requires { now < 2 ^ 62 }
        ensures step { Makes (release self.old.link.state self.old.link now) self.new.link result }
        ensures stays { (self.new.network ≡ self.old.network) × (self.new.dropped ≡ self.old.dropped) }
    {
        self.link.release(now)
    }

    /// Whether a message would be taken.
    pub fn takes(&self) -> bool
        ensures { result ≡ takes_data self.now.link.state self.now.link }
    {
        self.link.takes()
    }

    /// DL-DATA request.
    pub fn give(&mut self, message: Octets, now: u64) -> Done
        requires now { now < 2 ^ 62 }
        requires size { length message.items ≤ MAX_MESSAGE }
        ensures step { Makes (give self.old.link message now) self.new.link result }
        ensures stays { (self.new.network ≡ self.old.network) × (self.new.dropped ≡ self.old.dropped) }
    {
        self.link.give(message, now)
    }

    /// Whether the link is up in state 7, and nothing that was given is unacknowledged.
    pub fn is_at_rest(&self) -> bool
        ensures { result ≡ is_at_rest self.now.link }
    {
        self.link.is_at_rest()
    }

    /// Asks the other end whether it is there, by RR with P = 1, where the link is at rest (ITU-T Q.921, 5.10). It is so again when the
    /// other end has answered.
    pub fn poll(&mut self, now: u64) -> Done
        requires { now < 2 ^ 62 }
        ensures step { Makes (poll self.old.link now) self.new.link result }
        ensures stays { (self.new.network ≡ self.old.network) × (self.new.dropped ≡ self.old.dropped) }
    {
        self.link.poll(now)
    }

    /// Time has gone by to this instant.
    pub fn elapse(&mut self, now: u64) -> Done
        requires { now < 2 ^ 62 }
        ensures step { Makes (elapse self.old.link now) self.new.link result }
        ensures stays { (self.new.network ≡ self.old.network) × (self.new.dropped ≡ self.old.dropped) }
    {
        self.link.elapse(now)
    }

    /// Octets that came, with their check sequence.
    pub fn receive(&mut self, octets: &[u8], now: u64) -> Done
        requires { now < 2 ^ 62 }
        ensures step { Makes (hear_octets self.old.network self.old.link octets.now now) self.new.link result }
        ensures dropped { self.new.dropped ≡ min (self.old.dropped + is_dropped (read_octets self.old.network octets.now)) 18446744073709551615 }
        ensures side { self.new.network ≡ self.old.network }
    {
        match read_frame(self.network, octets) {
            Ok(frame) => self.link.hear(frame, now),
            Err(Refusal::Faulty(code)) => self.link.hear_fault(code, now),
            Err(Refusal::Dropped(_)) => {
                self.dropped = self.dropped.saturating_add(1);
                Done::new()
            }
        }
    }
}
