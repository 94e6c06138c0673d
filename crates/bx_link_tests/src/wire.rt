//! A wire in memory with a clock of its own, after which the far end runs its day.

ghost use Rattle.std.specs.Prelude.{◌<◌, ◌^◌};

use bx_far::Far;
use bx_lapd::{Done, Endpoint, FrameOctets, Indication, write_frame};
use bx_line_world::Wire;
use bx_q931::Octets;
use std::alloc::Global;

const MILLISECOND: u64 = 1_000_000;

const SECOND: u64 = 1_000_000_000;

/// How long a frame is on its way.
const DELAY: u64 = 20_000_000;

/// Of a thousand frames so many are lost, as a seed draws them; between two seconds all are; in the middle of some second, if any, the far
/// end asks for its link anew, or releases it, or gives a message over it; in some second, if any, it begins to send so many messages of 260 octets that mean nothing; at
/// some millisecond, if any, the clock jumps to another; and how the far end hears.
#[derive(Clone, Copy)]
pub struct Manner {
    pub loss: u64,
    pub seed: u64,
    pub cut: (u64, u64),
    pub anew: u64,
    pub release: u64,
    pub gives: (u64, &'static [u8]),
    pub flood: (u64, u32),
    pub jump: Option<(u64, u64)>,
    pub hears: Hears,
}

/// How the far end hears: as in a rehearsal, or as on a live line, on which some calls are answered at once.
#[derive(Clone, Copy)]
pub enum Hears {
    Rehearsed,
    Live,
}

/// A frame on its way, and when it is there.
#[derive(Drop)]
struct Flying {
    at: u64,
    octets: FrameOctets,
}

/// The wire, with the far end after it, and how many frames were lost.
#[derive(Drop)]
pub struct MemoryWire {
    now: u64,
    manner: Manner,
    to_far: Vec<Flying>,
    to_near: Vec<Flying>,
    end: Endpoint,
    far: Far,
    second: u64,
    /// How many messages it has still to pour out.
    poured: u32,
    pub lost: u32,
}

/// When the first of these is there.
fn first_at(flying: &[Flying]) -> u64 {
    match flying.first() {
        Some(first) => first.at,
        None => u64::MAX,
    }
}

impl MemoryWire {
    /// A wire whose clock shows 1970-01-01T00:00:00Z, when the day of the far end begins.
    pub fn new(alloc: Global, far: Far, manner: Manner) -> MemoryWire {
        MemoryWire {
            now: 0,
            manner,
            to_far: Vec::new(alloc),
            to_near: Vec::new(alloc),
            end: Endpoint::new(false),
            far,
            second: 1,
            poured: 0,
            lost: 0,
        }
    }

    /// The instant of the far end's link.
    fn instant(&self) -> u64
        ensures { result < 2 ^ 62 }
    {
        self.now / MILLISECOND
    }

    /// Whether the next frame is lost.
    fn loses(&mut self) -> bool {
        let mut seed = self.manner.seed;
        seed ^= seed.wrapping_mul(8192);
        seed ^= seed / 128;
        seed ^= seed.wrapping_mul(131_072);
        self.manner.seed = seed;
        let (from, until) = self.manner.cut;
        let is_cut = from <= self.now / SECOND && self.now / SECOND < until;
        let is_lost = is_cut || seed / 65_536 % 1000 < self.manner.loss;
        if is_lost {
            self.lost = self.lost.saturating_add(1);
        }
        is_lost
    }

    /// The far end sends frames.
    fn send_frames(&mut self, done: &Done) {
        for frame in done.frames() {
            if !self.loses() {
                let at = self.now.saturating_add(DELAY);
                let octets = write_frame(false, frame);
                let _ = self.to_near.push(Flying { at, octets });
            }
        }
    }

    fn give(&mut self, message: Octets) {
        if self.end.takes() {
            let now = self.instant();
            let done = self.end.give(message, now);
            self.send_frames(&done);
        }
    }

    /// What the far end answers to a message.
    fn hear(&mut self, message: &Octets) -> Option<Octets> {
        match self.manner.hears {
            Hears::Rehearsed => self.far.receive(message.as_slice()),
            Hears::Live => self.far.receive_live(message.as_slice()),
        }
    }

    /// What the far end's link wants, and what its day answers.
    fn carry_out(&mut self, done: &Done) {
        self.send_frames(done);
        for told in done.told() {
            if let Indication::Delivered(message) = told
                && let Some(reply) = self.hear(message)
            {
                self.give(reply);
            }
        }
    }

    /// Gives messages that mean nothing, as long as some are left and the link takes them.
    fn pour(&mut self) {
        for _message in 0..32u32 {
            if self.poured == 0 || !self.end.takes() {
                return;
            }
            let mut message = Octets::new();
            let _ = message.try_extend_from_slice(&[9; 260]);
            self.poured -= 1;
            self.give(message);
        }
    }

    /// The next second of the far end.
    fn pass_second(&mut self) {
        let now = self.instant();
        if !self.end.is_up() && self.end.due().is_none() {
            let done = self.end.establish(now);
            self.carry_out(&done);
        }
        if self.second == self.manner.flood.0 {
            self.poured = self.manner.flood.1;
        }
        self.second = self.second.saturating_add(1);
        for message in self.far.tick() {
            self.give(message);
        }
    }

    /// When the far end asks for its link anew, or releases it, or gives its message: half a second after a second of it has begun.
    fn resets_at(&self) -> u64 {
        let resets = self.manner.anew.max(self.manner.release);
        match resets.max(self.manner.gives.0) {
            0 => u64::MAX,
            second => second.saturating_mul(SECOND).saturating_add(SECOND / 2),
        }
    }

    /// Gives its message, once.
    fn give_own(&mut self) {
        let mut message = Octets::new();
        let _ = message.try_extend_from_slice(self.manner.gives.1);
        self.manner.gives = (0, &[]);
        self.give(message);
    }

    fn reset(&mut self) {
        if self.manner.gives.0 > 0 {
            self.give_own();
            return;
        }
        let now = self.instant();
        let done = if self.manner.anew > 0 {
            self.end.establish(now)
        } else {
            self.end.release(now)
        };
        self.manner.anew = 0;
        self.manner.release = 0;
        self.carry_out(&done);
    }

    /// When the far end does something next.
    fn next(&self) -> u64 {
        let timer = match self.end.due() {
            Some(due) => due.saturating_mul(MILLISECOND),
            None => u64::MAX,
        };
        let second = self.second.saturating_mul(SECOND);
        first_at(&self.to_far)
            .min(timer)
            .min(second)
            .min(self.resets_at())
    }

    /// The far end does what it does next.
    fn act(&mut self) {
        let now = self.instant();
        if first_at(&self.to_far) <= self.now && !self.to_far.is_empty() {
            let flying = self.to_far.remove(0);
            let done = self.end.receive(flying.octets.as_slice(), now);
            self.carry_out(&done);
        } else if self.resets_at() <= self.now {
            self.reset();
        } else if self.second.saturating_mul(SECOND) <= self.now {
            self.pass_second();
        } else {
            let done = self.end.elapse(now);
            self.carry_out(&done);
        }
        self.pour();
    }

    /// The first frame to this end, where it is there by this instant, before which the far end does nothing.
    fn take(&mut self, end: u64) -> Option<FrameOctets> {
        let at = first_at(&self.to_near);
        if self.to_near.is_empty() || end < at || self.next() < at {
            return None;
        }
        self.now = self.now.max(at);
        Some(self.to_near.remove(0).octets)
    }
}

impl Wire for MemoryWire {
    ghost did = { λ s acts t. Unit {0} };

    fn shown(&mut self) -> u128 {
        self.now = self.now.saturating_add(1000);
        if let Some((at, to)) = self.manner.jump
            && at.saturating_mul(MILLISECOND) <= self.now
        {
            self.now = to.saturating_mul(MILLISECOND);
            self.manner.jump = None;
        }
        u128::from(self.now)
    }

    fn send(&mut self, octets: &[u8]) {
        let mut copy = FrameOctets::new();
        if copy.try_extend_from_slice(octets).is_ok() && !self.loses() {
            let at = self.now.saturating_add(DELAY);
            let _ = self.to_far.push(Flying { at, octets: copy });
        }
    }

    fn receive(&mut self, room: &mut [u8], wait: u64) -> Option<usize> {
        let end = self.now.saturating_add(wait);
        for _step in 0..1000u32 {
            if let Some(octets) = self.take(end) {
                let count = octets.len().min(room.len());
                room[..count].copy_from_slice(&octets.as_slice()[..count]);
                return Some(count);
            }
            let next = self.next();
            if end < next {
                break;
            }
            self.now = self.now.max(next);
            self.act();
        }
        self.now = self.now.max(end);
        None
    }

    ghost did_nothing = { λ s. tt };

    ghost did_more = { λ u v w xs ys p q. tt };
}
