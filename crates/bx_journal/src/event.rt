//! Events as they are read.

ghost use Rattle.std.specs.Prelude.{◌≡◌};

use arrayvec::ArrayVec;
use bx_events::{Amendment, Event, LiveEvent, Rules};
use bx_q931::Octets;

/// What a line that amends the plan has behind its word: printable ASCII.
pub type AmendedLine = ArrayVec<u8, 200>;

/// An event of a live day, with the octets that came, to an exchange of these rules or of the rules 2, as with a sale, and with a second
/// without a link.
#[derive(Drop)]
pub enum LoggedEvent {
    Tick,
    Heard(Octets),
    Down(Rules),
    Amended(Amendment, AmendedLine),
    HeardByRulesTwo(Octets),
}

impl LoggedEvent {
    ghost use Rattle.bx_events.specs.Told.{live_event_of};
    ghost use Rattle.bx_journal.specs.Events.{logged_event};

    /// The event, whose octets stay where they are.
    pub fn as_event(&self) -> LiveEvent<'_>
        ensures { live_event_of result ≡ logged_event self.now }
    {
        match self {
            LoggedEvent::Tick => LiveEvent::OnLink(Event::Tick),
            LoggedEvent::Heard(octets) => LiveEvent::OnLink(Event::Receive(octets)),
            LoggedEvent::Down(rules) => LiveEvent::WithoutLink(*rules),
            LoggedEvent::Amended(kind, line) => LiveEvent::Amended(*kind, line),
            LoggedEvent::HeardByRulesTwo(octets) => LiveEvent::HeardByRulesTwo(octets),
        }
    }
}
