//! I frames that come, in states 7 and 8.

ghost use Rattle.std.specs.Prelude.{◌≡◌, ◌<◌, ◌^◌, ◌==◌, ◌||◌, []};
ghost use Rattle.bx_lapd.specs.Rows.{IsRow};
ghost use Rattle.bx_lapd.specs.Links.{is_valid, is_established, is_recovering};
ghost use Rattle.bx_lapd.specs.Table.{took, answers, rejects, hear_message, timed, settled, hear_number};

use crate::data_link::{DataLink, T200, T203};
use crate::frame::Frame;
use crate::indication::Indication;
use crate::row::{Row, numbered, quiet};
use crate::words::{ErrorCode, LinkState, Supervisory, Timer};
use bx_q931::Octets;

impl DataLink {
    /// State 7.
    pub(crate) fn is_established(&self) -> bool
        ensures { result ≡ is_established self.now.state }
    {
        matches!(self.state, LinkState::Established)
    }

    /// State 8.
    pub(crate) fn is_recovering(&self) -> bool
        ensures { result ≡ is_recovering self.now.state }
    {
        matches!(self.state, LinkState::TimerRecovery)
    }

    /// RR with F = 1, where P = 1 was set.
    pub(crate) fn answer(&mut self, poll: bool) -> Option<Frame>
        ensures { IsRow (answers poll self.old []) self.new (record { frame = result; first = None; second = None }) }
    {
        if !poll {
            return None;
        }
        self.owed = false;
        Some(Frame::Numbered {
            kind: Supervisory::ReceiveReady,
            command: false,
            poll: true,
            received: self.vr,
        })
    }

    /// The message that is due is taken.
    fn take(&mut self)
        ensures { self.new ≡ took self.old }
    {
        self.vr = ((u16::from(self.vr) + 1) % 128) as u8;
        self.rejected = false;
        self.owed = true;
    }

    /// Any other is not: REJ, once until the one that is due has come.
    fn reject(&mut self, poll: bool) -> Row
        ensures { IsRow (rejects self.old.rejected self.old poll) self.new result }
    {
        if self.rejected {
            let frame = self.answer(poll);
            return Row {
                frame,
                first: None,
                second: None,
            };
        }
        self.rejected = true;
        self.owed = false;
        numbered(Supervisory::Reject, false, poll, self.vr)
    }

    /// The message of an I frame.
    pub(crate) fn hear_message(&mut self, poll: bool, sent: u8, message: Octets) -> Row
        ensures { IsRow (hear_message (sent == self.old.vr) self.old poll message) self.new result }
    {
        if sent != self.vr {
            return self.reject(poll);
        }
        self.take();
        let frame = self.answer(poll);
        Row {
            frame,
            first: Some(Indication::Delivered(message)),
            second: None,
        }
    }

    /// The timer after an acknowledgement.
    fn time(&mut self, idle: bool, same: bool, now: u64)
        requires { now < 2 ^ 62 }
        ensures { self.new ≡ timed idle same self.old now }
    {
        if idle {
            self.timer = Timer::T203 { due: now + T203 };
        } else if !same {
            self.timer = Timer::T200 { due: now + T200 };
        }
    }

    /// The timer after an acknowledgement, unless it is to stand.
    pub(crate) fn settle(&mut self, still: bool, same: bool, now: u64)
        requires { now < 2 ^ 62 }
        ensures { self.new ≡ settled still same self.old now }
    {
        if !still {
            let idle = self.vs == self.va;
            self.time(idle, same, now);
        }
    }

    /// N(R) of an I frame.
    pub(crate) fn hear_number(&mut self, received: u8, now: u64) -> Row
        requires { now < 2 ^ 62 }
        ensures { IsRow (hear_number (is_valid self.old received) self.old received now) self.new result }
    {
        if !self.is_valid(received) {
            return self.establishes_anew(ErrorCode::WrongNumber, now);
        }
        let still = self.is_recovering() || self.busy;
        let same = received == self.va;
        self.acknowledge(received);
        self.settle(still, same, now);
        quiet()
    }
}
