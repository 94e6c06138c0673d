//! A journal in memory.

ghost use Rattle.std.specs.Prelude.{◌≡◌, ◌++◌, ◌∷◌, [], is_ok, IfSome};
ghost use Rattle.bx_events.specs.Told.{live_event_of};
ghost use Rattle.bx_live.specs.Acts.{Logged, logged_by};
ghost use Rattle.bx_link_tests.specs.Marks.{event_in, events_kept};

use arrayvec::ArrayVec;
use bx_events::{Amendment, Event, LiveEvent, Rules};
use bx_live::CannotLog;
use bx_q931::Octets;
use std::alloc::Global;

/// A line of the journal.
#[derive(Drop)]
pub enum Mark {
    Tick,
    Heard(Octets),
    Down,
    Amended(Amendment, ArrayVec<u8, 120>),
}

/// Lines in memory, so many of them at most.
#[derive(Drop)]
pub struct Journal {
    pub marks: Vec<Mark>,
    pub room: u32,
}

/// The mark of an event. None has more octets than a message, and none is one by the rules 2.
fn mark_of(event: LiveEvent<'_>) -> Option<Mark>
    ensures { IfSome result (λ mark. event_in mark ≡ live_event_of event.entry) }
{
    match event {
        LiveEvent::OnLink(Event::Tick) => Some(Mark::Tick),
        LiveEvent::WithoutLink(Rules::Three) => Some(Mark::Down),
        LiveEvent::Amended(kind, line) => match ArrayVec::try_from(line) {
            Ok(line) => Some(Mark::Amended(kind, line)),
            Err(_) => None,
        },
        LiveEvent::HeardByRulesTwo(_) | LiveEvent::WithoutLink(Rules::Two) => None,
        LiveEvent::OnLink(Event::Receive(octets)) => match ArrayVec::try_from(octets) {
            Ok(octets) => Some(Mark::Heard(octets)),
            Err(_) => None,
        },
    }
}

impl Journal {
    /// A journal with room for so many lines.
    pub fn new(alloc: Global, room: u32) -> Self {
        Journal {
            marks: Vec::new(alloc),
            room,
        }
    }

    /// Adds the line of an event.
    pub fn add(&mut self, event: LiveEvent<'_>) -> Result<(), CannotLog>
        ensures { events_kept self.new.marks.items ≡ events_kept self.old.marks.items ++ logged_by (Logged (live_event_of event.entry) (is_ok result) ∷ []) }
    {
        if self.room == 0 {
            return Err(CannotLog);
        }
        let Some(mark) = mark_of(event) else {
            return Err(CannotLog);
        };
        match self.marks.push(mark) {
            Ok(()) => {
                self.room -= 1;
                Ok(())
            }
            Err(_) => Err(CannotLog),
        }
    }
}
