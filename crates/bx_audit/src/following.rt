//! What follows the events of a journal.

ghost use Rattle.std.specs.Prelude.{◌≡◌, ◌∷◌, [], None};
ghost use Rattle.bx_audit.specs.Followed.{IsCapturedLive, HasRecaptured};
ghost use Rattle.bx_events.specs.Events.{OnLink, Tick, Receive, Amended, HeardByRulesTwo};
ghost use Rattle.bx_journal.specs.Events.{logged_event};

use bx_base::ChannelSet;
use bx_capture::{Captured, Direction, keep, keep_reply};
use bx_day::{Exchange, GivenUp};
use bx_day_openings::{AmendmentFault, amend_again};
use bx_events::Amendment;
use bx_frames::End;
use bx_journal::{Follower, LoggedEvent};
use bx_q931::Octets;
use bx_sales::note;
use std::alloc::Global;
use std::io::Write;

/// An exchange to which the events of a journal happen, and whose plan is amended again as the journal says; and the file, if there is one, into
/// which the packets of its messages are written as they were on their day: what it sends for an event is known by the events before. From the first
/// line on that amends the plan and is none of its day it stays as it was there, with why. Until then it notes how bookings were given up.
#[derive(Drop)]
pub(crate) struct Recaptured<W: Write> {
    pub(crate) alloc: Global,
    pub(crate) channels: ChannelSet,
    pub(crate) captured: Captured<Exchange, W>,
    pub(crate) fault: Option<AmendmentFault>,
    pub(crate) given_up: Vec<Option<GivenUp>>,
}

/// A second on the link.
fn pass_second<W: Write>(captured: &mut Captured<Exchange, W>)
    ensures { IsCapturedLive W.contents captured.old (OnLink Tick ∷ []) captured.new }
{
    if !captured.skip_quiet_second() {
        let _sent = captured.next_second();
    }
}

/// What came.
fn hear_one<W: Write>(captured: &mut Captured<Exchange, W>, octets: &Octets)
    ensures { IsCapturedLive W.contents captured.old (OnLink (Receive octets.now.items) ∷ []) captured.new }
{
    let _reply = captured.hear(octets);
}

/// What came to an exchange of the rules 2.
fn hear_by_rules_two<W: Write>(captured: &mut Captured<Exchange, W>, octets: &Octets)
    ensures { IsCapturedLive W.contents captured.old (HeardByRulesTwo octets.now.items ∷ []) captured.new }
{
    let second = captured.first + captured.end.turn();
    keep(&mut captured.file, second, Direction::Received, octets);
    let reply = captured.end.receive_by_rules_two(octets);
    keep_reply(&mut captured.file, second, &reply);
}

impl<W: Write> Recaptured<W> {
    /// Does again what a line says became of a booking, where nothing was wrong yet.
    fn take(&mut self, kind: Amendment, line: &[u8])
        ensures { self.old.fault ≡ None → HasRecaptured W.contents self.old (Amended kind line.now ∷ []) self.new }
    {
        let exchange = &mut self.captured.end;
        match amend_again(self.alloc, exchange, self.channels, kind, line) {
            Ok(()) => note(&mut self.given_up, kind, line),
            Err(fault) => self.fault = Some(fault),
        }
    }

    /// The next event happens, where nothing was wrong yet.
    fn go_on(&mut self, event: &LoggedEvent)
        ensures { self.old.fault ≡ None → HasRecaptured W.contents self.old (logged_event event.now ∷ []) self.new }
    {
        match event {
            LoggedEvent::Tick => pass_second(&mut self.captured),
            LoggedEvent::Heard(octets) => hear_one(&mut self.captured, octets),
            LoggedEvent::Down(rules) => self.captured.end.second_without_link(*rules),
            LoggedEvent::Amended(kind, line) => self.take(*kind, line),
            LoggedEvent::HeardByRulesTwo(octets) => hear_by_rules_two(&mut self.captured, octets),
        }
    }
}

impl<W: Write> Follower for Recaptured<W> {
    ghost use Rattle.bx_audit.specs.Followed.{HasRecaptured};
    ghost use Rattle.bx_audit.specs.Joined.{recaptured_nothing, recaptured_on};

    ghost followed = { λ a events b. HasRecaptured W.contents a events b };

    fn follow(&mut self, event: &LoggedEvent) {
        if self.fault.is_none() {
            self.go_on(event);
        }
    }

    ghost follows_none = { λ a. recaptured_nothing W.contents a };

    ghost follows_on = { λ a b c xs ys p q. recaptured_on W.contents a b c xs ys p q };
}
