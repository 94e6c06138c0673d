//! A data link entity.

ghost use Rattle.std.specs.Prelude.{◌≡◌, ◌+◌, ◌-◌, ◌%◌, ◌<◌, ◌≤◌, ◌^◌, ◌==◌, [], ◌∷◌, ◌++◌, length, take, drop};
ghost use Rattle.arrayvec.specs.ArrayVec.{array_vec_len};
ghost use Rattle.bx_lapd.specs.Links.{ahead};

use crate::words::{LinkState, Timer};
use arrayvec::ArrayVec;
use bx_q931::Octets;
use std::marker::Model;

/// T200 and T203 in milliseconds (5.9). Profile: T200 is 1 s by default there.
pub(crate) const T200: u64 = 150;

pub(crate) const T203: u64 = 10000;

/// A data link entity of either side, with SAPI 0 and TEI 0.
#[derive(Drop)]
pub struct DataLink {
    pub(crate) state: LinkState,
    pub(crate) vs: u8,
    pub(crate) va: u8,
    pub(crate) vr: u8,
    pub(crate) rc: u8,
    pub(crate) asked: bool,
    pub(crate) busy: bool,
    pub(crate) rejected: bool,
    pub(crate) owed: bool,
    pub(crate) timer: Timer,
    pub(crate) queue: ArrayVec<Octets, 32>,
}

impl Model for DataLink {
    ghost use Rattle.bx_lapd.specs.Links.{Link, link_of};

    ghost Value = { Link };

    ghost view = { λ l. link_of l.state l.vs l.va l.vr l.rc l.asked l.busy l.rejected l.owed l.timer l.queue.items };
}

/// How far a number is after another, modulo 128.
pub(crate) fn ahead_of(from: u8, to: u8) -> u8
    ensures { result ≡ ahead from to }
{
    ((u16::from(to) + 128).saturating_sub(u16::from(from)) % 128) as u8
}

/// Takes so many messages from the start, or all.
fn drop_first(queue: &mut ArrayVec<Octets, 32>, count: u8)
    ensures { queue.new.items ≡ drop count queue.old.items }
{
    for _taken in 0..count {
        if !queue.is_empty() {
            queue.remove(0);
        }
    }
}

impl DataLink {
    ghost use Rattle.bx_lapd.specs.Links.{outstanding, is_valid, establishing, begun_link, assigned, discarded, acknowledged};
    ghost use Rattle.bx_lapd.specs.Bounds.{IsLink};
    ghost use Rattle.bx_lapd.specs.Once.{IsUnlinked};

    /// A link that is not there yet.
    pub fn new() -> DataLink
        ensures within { IsLink result }
        ensures unlinked { IsUnlinked result [] [] }
    {
        DataLink {
            state: LinkState::Assigned,
            vs: 0,
            va: 0,
            vr: 0,
            rc: 0,
            asked: false,
            busy: false,
            rejected: false,
            owed: false,
            timer: Timer::Stopped,
            queue: ArrayVec::new(),
        }
    }

    /// So many I frames were sent and are not acknowledged.
    pub(crate) fn outstanding(&self) -> u8
        ensures { result ≡ outstanding self.now }
    {
        ahead_of(self.va, self.vs)
    }

    /// V(A) ≤ N(R) ≤ V(S).
    pub(crate) fn is_valid(&self, received: u8) -> bool
        ensures { result ≡ is_valid self.now received }
    {
        ahead_of(self.va, received) <= self.outstanding()
    }

    pub(crate) fn establishing(&mut self, asked: bool, now: u64)
        requires { now < 2 ^ 62 }
        ensures { self.new ≡ establishing self.old asked now }
    {
        self.state = LinkState::AwaitingEstablishment;
        self.rc = 0;
        self.asked = asked;
        self.busy = false;
        self.rejected = false;
        self.owed = false;
        self.timer = Timer::T200 { due: now + T200 };
    }

    pub(crate) fn begin(&mut self, now: u64)
        requires { now < 2 ^ 62 }
        ensures { self.new ≡ begun_link self.old now }
    {
        self.state = LinkState::Established;
        self.vs = 0;
        self.va = 0;
        self.vr = 0;
        self.busy = false;
        self.rejected = false;
        self.owed = false;
        self.timer = Timer::T203 { due: now + T203 };
    }

    pub(crate) fn end(&mut self)
        ensures { self.new ≡ assigned self.old }
    {
        self.state = LinkState::Assigned;
        self.busy = false;
        self.rejected = false;
        self.owed = false;
        self.timer = Timer::Stopped;
    }

    pub(crate) fn discard(&mut self)
        ensures { self.new ≡ discarded self.old }
    {
        self.queue.clear();
    }

    pub(crate) fn acknowledge(&mut self, received: u8)
        ensures { self.new ≡ acknowledged self.old received }
    {
        drop_first(&mut self.queue, ahead_of(self.va, received));
        self.va = received;
    }
}
