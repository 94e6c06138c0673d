//! Unnumbered frames that come.

ghost use Rattle.std.specs.Prelude.{◌≡◌, ◌<◌, ◌^◌, ◌==◌, true};
ghost use Rattle.bx_lapd.specs.Rows.{IsRow};
ghost use Rattle.bx_lapd.specs.Links.{is_link_up};
ghost use Rattle.bx_lapd.specs.Table.{established_anew, confirmed, hear_sabme, hear_disc, hear_ua, hear_dm, fails, hear_plain, hear_fault};

use crate::data_link::DataLink;
use crate::indication::Indication;
use crate::row::{Row, plain, plain_and_tells, quiet, tells};
use crate::words::{ErrorCode, LinkState, Unnumbered};

impl DataLink {
    /// States 7 and 8.
    pub fn is_up(&self) -> bool
        ensures { result ≡ is_link_up self.now.state }
    {
        match self.state {
            LinkState::Established | LinkState::TimerRecovery => true,
            LinkState::Assigned | LinkState::AwaitingEstablishment | LinkState::AwaitingRelease => {
                false
            }
        }
    }

    /// SABME.
    fn hear_sabme(&mut self, poll: bool, now: u64) -> Row
        requires { now < 2 ^ 62 }
        ensures { IsRow (hear_sabme self.old.state self.old poll now) self.new result }
    {
        match self.state {
            LinkState::AwaitingRelease => plain(Unnumbered::Dm, poll),
            LinkState::AwaitingEstablishment => plain(Unnumbered::Ua, poll),
            LinkState::Assigned => {
                self.begin(now);
                plain_and_tells(Unnumbered::Ua, poll, Indication::LinkEstablished)
            }
            LinkState::Established | LinkState::TimerRecovery => self.established_anew(poll, now),
        }
    }

    /// SABME in states 7 and 8.
    fn established_anew(&mut self, poll: bool, now: u64) -> Row
        requires { now < 2 ^ 62 }
        ensures { IsRow (established_anew (self.old.vs == self.old.va) self.old poll now) self.new result }
    {
        let first = Indication::LinkError(ErrorCode::PeerEstablishes);
        if self.vs == self.va {
            self.begin(now);
            return plain_and_tells(Unnumbered::Ua, poll, first);
        }
        self.discard();
        self.begin(now);
        let row = plain_and_tells(Unnumbered::Ua, poll, first);
        Row {
            frame: row.frame,
            first: row.first,
            second: Some(Indication::LinkEstablished),
        }
    }

    /// DISC.
    fn hear_disc(&mut self, poll: bool) -> Row
        ensures { IsRow (hear_disc self.old.state self.old poll) self.new result }
    {
        match self.state {
            LinkState::Assigned | LinkState::AwaitingEstablishment => plain(Unnumbered::Dm, poll),
            LinkState::AwaitingRelease => plain(Unnumbered::Ua, poll),
            LinkState::Established | LinkState::TimerRecovery => {
                self.end();
                self.discard();
                plain_and_tells(Unnumbered::Ua, poll, Indication::LinkReleased)
            }
        }
    }

    /// The link that was asked for is there.
    fn confirmed(&mut self, now: u64) -> Row
        requires { now < 2 ^ 62 }
        ensures { IsRow (confirmed self.old.asked (self.old.vs == self.old.va) self.old now) self.new result }
    {
        if self.asked {
            self.begin(now);
            return tells(Indication::LinkEstablished);
        }
        let idle = self.vs == self.va;
        if idle {
            self.begin(now);
            return quiet();
        }
        self.discard();
        self.begin(now);
        tells(Indication::LinkEstablished)
    }

    /// UA.
    fn hear_ua(&mut self, last: bool, now: u64) -> Row
        requires { now < 2 ^ 62 }
        ensures { IsRow (hear_ua self.old.state self.old last now) self.new result }
    {
        match (self.state, last) {
            (LinkState::AwaitingEstablishment, true) => self.confirmed(now),
            (LinkState::AwaitingRelease, true) => {
                self.end();
                tells(Indication::LinkReleased)
            }
            (_, true) => tells(Indication::LinkError(ErrorCode::UaFinal)),
            (_, false) => tells(Indication::LinkError(ErrorCode::Ua)),
        }
    }

    /// This end establishes the link anew, and tells why.
    pub(crate) fn establishes_anew(&mut self, code: ErrorCode, now: u64) -> Row
        requires { now < 2 ^ 62 }
        ensures { IsRow (fails true self.old code now) self.new result }
    {
        self.establishing(false, now);
        plain_and_tells(Unnumbered::Sabme, true, Indication::LinkError(code))
    }

    /// DM.
    fn hear_dm(&mut self, last: bool, now: u64) -> Row
        requires { now < 2 ^ 62 }
        ensures { IsRow (hear_dm self.old.state self.old last now) self.new result }
    {
        match (self.state, last) {
            (LinkState::Assigned, false) => {
                self.establishing(true, now);
                plain(Unnumbered::Sabme, true)
            }
            (LinkState::AwaitingEstablishment, true) => {
                self.end();
                self.discard();
                tells(Indication::LinkReleased)
            }
            (LinkState::AwaitingRelease, true) => {
                self.end();
                tells(Indication::LinkReleased)
            }
            (LinkState::Assigned, true)
            | (LinkState::AwaitingEstablishment | LinkState::AwaitingRelease, false) => quiet(),
            (LinkState::Established, true) => tells(Indication::LinkError(ErrorCode::DmFinal)),
            (LinkState::TimerRecovery, true) => self.establishes_anew(ErrorCode::DmFinal, now),
            (LinkState::Established | LinkState::TimerRecovery, false) => {
                self.establishes_anew(ErrorCode::Dm, now)
            }
        }
    }

    /// An unnumbered frame.
    pub(crate) fn hear_plain(&mut self, kind: Unnumbered, poll: bool, now: u64) -> Row
        requires { now < 2 ^ 62 }
        ensures { IsRow (hear_plain kind self.old poll now) self.new result }
    {
        match kind {
            Unnumbered::Sabme => self.hear_sabme(poll, now),
            Unnumbered::Disc => self.hear_disc(poll),
            Unnumbered::Ua => self.hear_ua(poll, now),
            Unnumbered::Dm => self.hear_dm(poll, now),
            Unnumbered::Frmr => {
                if self.is_up() {
                    self.establishes_anew(ErrorCode::Frmr, now)
                } else {
                    quiet()
                }
            }
            Unnumbered::Ui | Unnumbered::Xid => quiet(),
        }
    }

    /// A frame rejection condition (5.8.5).
    pub(crate) fn row_of_fault(&mut self, code: ErrorCode, now: u64) -> Row
        requires { now < 2 ^ 62 }
        ensures { IsRow (hear_fault self.old code now) self.new result }
    {
        if self.is_up() {
            self.establishes_anew(code, now)
        } else {
            tells(Indication::LinkError(code))
        }
    }
}
