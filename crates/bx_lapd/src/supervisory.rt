//! RR, RNR and REJ that come, in states 7 and 8.

ghost use Rattle.std.specs.Prelude.{◌≡◌, ◌+◌, ◌<◌, ◌^◌, ◌==◌, ◌&&◌, not, true, []};
ghost use Rattle.bx_lapd.specs.Rows.{IsRow};
ghost use Rattle.bx_lapd.specs.Links.{is_valid, is_link_up};
ghost use Rattle.bx_lapd.specs.Table.{answers, unasked, is_not_ready, guided, recovered_link, hear_supervised};

use crate::data_link::{DataLink, T200, T203};
use crate::indication::Indication;
use crate::row::{Row, quiet};
use crate::words::{ErrorCode, LinkState, Supervisory, Timer};

impl DataLink {
    /// Whether the peer is busy, and an answer where it asks. `is_unasked` says that a response with F = 1 came in state 7.
    pub(crate) fn note_ready(&mut self, kind: Supervisory, poll: bool, is_unasked: bool) -> Row
        ensures { IsRow (answers poll (record self.old { busy = is_not_ready kind }) (unasked is_unasked)) self.new result }
    {
        self.busy = matches!(kind, Supervisory::ReceiveNotReady);
        let frame = self.answer(poll);
        let first = if is_unasked {
            Some(Indication::LinkError(ErrorCode::UnaskedFinal))
        } else {
            None
        };
        Row {
            frame,
            first,
            second: None,
        }
    }

    /// What is not acknowledged will be sent again.
    fn go_back(&mut self, now: u64)
        requires { now < 2 ^ 62 }
        ensures { self.new ≡ record self.old { vs = self.old.va; timer = Timer.T203 (now + 10000) } }
    {
        self.vs = self.va;
        self.timer = Timer::T203 { due: now + T203 };
    }

    /// State 7, after the acknowledgement.
    fn guide(&mut self, kind: Supervisory, same: bool, now: u64)
        requires { now < 2 ^ 62 }
        ensures { self.new ≡ guided kind same self.old now }
    {
        match kind {
            Supervisory::ReceiveReady => self.settle(false, same, now),
            Supervisory::Reject => self.go_back(now),
            Supervisory::ReceiveNotReady => self.timer = Timer::T200 { due: now + T200 },
        }
    }

    /// State 8, after the acknowledgement.
    fn recover(&mut self, last: bool, kind: Supervisory, now: u64)
        requires { now < 2 ^ 62 }
        ensures { self.new ≡ recovered_link last kind self.old now }
    {
        match (last, kind) {
            (false, _) => {}
            (true, Supervisory::ReceiveNotReady) => {
                self.state = LinkState::Established;
                self.timer = Timer::T200 { due: now + T200 };
            }
            (true, Supervisory::ReceiveReady | Supervisory::Reject) => {
                self.state = LinkState::Established;
                self.go_back(now);
            }
        }
    }

    /// N(R) of a supervisory frame.
    pub(crate) fn hear_supervised(
        &mut self,
        kind: Supervisory,
        last: bool,
        received: u8,
        now: u64,
    ) -> Row
        requires now { now < 2 ^ 62 }
        ensures { IsRow (hear_supervised (is_valid self.old received) self.old.state self.old kind last received now) self.new result }
    {
        if !self.is_valid(received) {
            return self.establishes_anew(ErrorCode::WrongNumber, now);
        }
        let same = received == self.va;
        let recovering = self.is_recovering();
        self.acknowledge(received);
        if recovering {
            self.recover(last, kind, now);
        } else {
            self.guide(kind, same, now);
        }
        quiet()
    }
}
