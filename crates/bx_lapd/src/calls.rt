//! The calls of a link: what layer 3 asks, frames that come, and time.

ghost use Rattle.std.specs.Prelude.{◌≡◌, ◌<◌, ◌≤◌, ◌^◌, ◌+◌, length, [], true};
ghost use Rattle.bx_lapd.specs.Rows.{IsRow};
ghost use Rattle.bx_lapd.specs.Links.{t200, n200, is_at_rest, Makes};
ghost use Rattle.bx_lapd.specs.Table.{establish, release, takes_data, give, is_due, due_of, enquires, expires, elapse, poll, link_heard, hear, hear_fault};

use crate::data_link::{DataLink, T200};
use crate::done::Done;
use crate::frame::Frame;
use crate::indication::Indication;
use crate::row::{Row, numbered, plain, quiet, tells};
use crate::words::{ErrorCode, LinkState, Supervisory, Timer, Unnumbered};
use bx_q931::Octets;

/// How often a frame is sent again without an answer (5.9). Profile: 3 by default there.
const N200: u8 = 20;

impl DataLink {
    /// DL-ESTABLISH request: SABME goes out, and what was given before is discarded.
    pub fn establish(&mut self, now: u64) -> Done
        requires { now < 2 ^ 62 }
        ensures { Makes (establish self.old.state self.old now) self.new result }
    {
        let mut out = Done::new();
        let row = self.row_of_establish(now);
        out.add(row);
        out
    }

    fn row_of_establish(&mut self, now: u64) -> Row
        requires { now < 2 ^ 62 }
        ensures { IsRow (establish self.old.state self.old now) self.new result }
    {
        match self.state {
            LinkState::AwaitingRelease => quiet(),
            LinkState::AwaitingEstablishment => {
                self.discard();
                self.asked = true;
                quiet()
            }
            LinkState::Assigned | LinkState::Established | LinkState::TimerRecovery => {
                self.discard();
                self.establishing(true, now);
                plain(Unnumbered::Sabme, true)
            }
        }
    }

    /// DL-RELEASE request: DISC goes out.
    pub fn release(&mut self, now: u64) -> Done
        requires { now < 2 ^ 62 }
        ensures { Makes (release self.old.state self.old now) self.new result }
    {
        let mut out = Done::new();
        let row = self.row_of_release(now);
        out.add(row);
        out
    }

    fn row_of_release(&mut self, now: u64) -> Row
        requires { now < 2 ^ 62 }
        ensures { IsRow (release self.old.state self.old now) self.new result }
    {
        match self.state {
            LinkState::Assigned => tells(Indication::LinkReleased),
            LinkState::AwaitingRelease => quiet(),
            LinkState::AwaitingEstablishment | LinkState::Established | LinkState::TimerRecovery =>
                {
                    self.discard();
                    self.state = LinkState::AwaitingRelease;
                    self.rc = 0;
                    self.busy = false;
                    self.rejected = false;
                    self.owed = false;
                    self.timer = Timer::T200 { due: now + T200 };
                    plain(Unnumbered::Disc, true)
                }
        }
    }

    /// Whether a message would be taken: the link is up or comes back by itself, and fewer than 32 wait.
    pub fn takes(&self) -> bool
        ensures { result ≡ takes_data self.now.state self.now }
    {
        match self.state {
            LinkState::Established | LinkState::TimerRecovery => self.queue.len() < 32,
            LinkState::AwaitingEstablishment => !self.asked && self.queue.len() < 32,
            LinkState::Assigned | LinkState::AwaitingRelease => false,
        }
    }

    /// Whether the link is up in state 7, and nothing that was given is unacknowledged.
    pub fn is_at_rest(&self) -> bool
        ensures { result ≡ is_at_rest self.now }
    {
        self.is_established() && self.queue.is_empty()
    }

    /// DL-DATA request. A message that the link does not take is dropped: `takes` says it before.
    pub fn give(&mut self, message: Octets, now: u64) -> Done
        requires { now < 2 ^ 62 }
        ensures { Makes (give self.old message now) self.new result }
    {
        let mut out = Done::new();
        if self.takes() {
            self.queue.push(message);
            self.flush(now, &mut out);
        }
        out
    }

    /// Time has gone by to this instant.
    pub fn elapse(&mut self, now: u64) -> Done
        requires { now < 2 ^ 62 }
        ensures { Makes (elapse self.old now) self.new result }
    {
        let mut out = Done::new();
        if self.is_due(now) {
            let row = self.expire(now);
            out.add(row);
        }
        out
    }

    /// Asks the other end whether it is there, by RR with P = 1, where nothing that was given is unacknowledged: what T203 does when it is due
    /// (ITU-T Q.921, 5.10), at an instant of the caller's choice. Until the other end has answered the link is not at rest (`is_at_rest`).
    pub fn poll(&mut self, now: u64) -> Done
        requires { now < 2 ^ 62 }
        ensures { Makes (poll self.old now) self.new result }
    {
        let mut out = Done::new();
        if self.is_at_rest() {
            let row = self.enquire(0, now);
            out.add(row);
        }
        out
    }

    /// The instant at which the timer is due, if it runs.
    pub fn due(&self) -> Option<u64>
        ensures { result ≡ due_of self.now.timer }
    {
        match self.timer {
            Timer::Stopped => None,
            Timer::T200 { due } | Timer::T203 { due } => Some(due),
        }
    }

    fn is_due(&self, now: u64) -> bool
        ensures { result ≡ is_due self.now.timer now }
    {
        match self.timer {
            Timer::Stopped => false,
            Timer::T200 { due } | Timer::T203 { due } => due <= now,
        }
    }

    /// RR with P = 1.
    fn enquire(&mut self, rc: u8, now: u64) -> Row
        requires { now < 2 ^ 62 }
        ensures { IsRow (enquires self.old rc now) self.new result }
    {
        self.state = LinkState::TimerRecovery;
        self.rc = rc;
        self.owed = false;
        self.timer = Timer::T200 { due: now + T200 };
        numbered(Supervisory::ReceiveReady, true, true, self.vr)
    }

    /// An unnumbered command goes out once more.
    fn again(&mut self, kind: Unnumbered, now: u64) -> Row
        requires now { now < 2 ^ 62 }
        requires count { self.old.rc < n200 }
        ensures link { self.new ≡ record self.old { rc = self.old.rc + 1; timer = Timer.T200 (now + t200) } }
        ensures row { result ≡ record { frame = Some (Frame.Plain kind true); first = None; second = None } }
    {
        self.rc += 1;
        self.timer = Timer::T200 { due: now + T200 };
        plain(kind, true)
    }

    /// A timer is due.
    fn expire(&mut self, now: u64) -> Row
        requires { now < 2 ^ 62 }
        ensures { IsRow (expires self.old.state self.old now) self.new result }
    {
        match self.state {
            LinkState::Assigned => quiet(),
            LinkState::AwaitingEstablishment if self.rc < N200 => self.again(
                Unnumbered::Sabme,
                now,
            ),
            LinkState::AwaitingEstablishment => {
                self.end();
                self.discard();
                Row {
                    frame: None,
                    first: Some(Indication::LinkError(ErrorCode::SabmeUnanswered)),
                    second: Some(Indication::LinkReleased),
                }
            }
            LinkState::AwaitingRelease if self.rc < N200 => self.again(Unnumbered::Disc, now),
            LinkState::AwaitingRelease => {
                self.end();
                Row {
                    frame: None,
                    first: Some(Indication::LinkError(ErrorCode::DiscUnanswered)),
                    second: Some(Indication::LinkReleased),
                }
            }
            LinkState::Established => {
                let rc = match self.timer {
                    Timer::T200 { .. } => 1,
                    Timer::Stopped | Timer::T203 { .. } => 0,
                };
                self.enquire(rc, now)
            }
            LinkState::TimerRecovery if self.rc < N200 => self.enquire(self.rc + 1, now),
            LinkState::TimerRecovery => self.establishes_anew(ErrorCode::EnquiryUnanswered, now),
        }
    }

    /// The rows of a frame.
    fn heard(&mut self, frame: Frame, now: u64, out: &mut Done)
        requires now { now < 2 ^ 62 }
        requires frames { out.old.frames ≡ [] }
        requires told { out.old.told ≡ [] }
        ensures step { Makes (link_heard self.old frame now) self.new out.new }
        ensures few { length out.new.frames ≤ 2 }
    {
        match frame {
            Frame::Plain { kind, poll } => {
                let row = self.hear_plain(kind, poll, now);
                out.add(row);
            }
            Frame::Information {
                poll,
                sent,
                received,
                message,
            } => {
                if self.is_up() {
                    let row = self.hear_message(poll, sent, message);
                    out.add(row);
                    let row = self.hear_number(received, now);
                    out.add(row);
                }
            }
            Frame::Numbered {
                kind,
                command,
                poll,
                received,
            } => {
                if self.is_up() {
                    let is_unasked = self.is_established() && !command && poll;
                    let row = self.note_ready(kind, command && poll, is_unasked);
                    out.add(row);
                    let row = self.hear_supervised(kind, !command && poll, received, now);
                    out.add(row);
                }
            }
        }
    }

    /// A frame of the peer.
    pub fn hear(&mut self, frame: Frame, now: u64) -> Done
        requires { now < 2 ^ 62 }
        ensures { Makes (hear self.old frame now) self.new result }
    {
        let mut out = Done::new();
        self.heard(frame, now, &mut out);
        self.flush(now, &mut out);
        out
    }

    /// A frame that is none, or that may not stand so (5.8.5), by its error code.
    pub fn hear_fault(&mut self, code: ErrorCode, now: u64) -> Done
        requires { now < 2 ^ 62 }
        ensures { Makes (hear_fault self.old code now) self.new result }
    {
        let mut out = Done::new();
        let row = self.row_of_fault(code, now);
        out.add(row);
        out
    }
}
