//! Laws of the definitions, each of which is on a function's contract.

ghost use Rattle.std.specs.Prelude.{◌≡◌, List, map};
ghost use Rattle.bx_day.specs.Day.{Day};
ghost use Rattle.bx_day.specs.Outages.{live_day_after};
ghost use Rattle.bx_day.specs.Run.{day_after};
ghost use Rattle.bx_events.specs.Events.{Event, OnLink};
ghost use Rattle.bx_audit.specs.Laws.{GoesAsCaptured, IsCapturedWhereUnamended, HasPacketsOfItsDay};

/// A day that goes through a journal goes through its events and what amends its plan; where nothing does, it is the one after just these events,
/// and a capture has just their packets.
pub fn captured_through()
    ensures through { GoesAsCaptured }
    ensures unamended { IsCapturedWhereUnamended }
{}

/// Of a day that was always on its link a capture that is made afterwards has just the packets that one has which is kept while
/// the day runs, and the day is the same.
pub fn as_on_its_day()
    ensures packets { HasPacketsOfItsDay }
    ensures day { (events : List Event) (d : Day) → live_day_after (map (λ (e : Event). OnLink e) events) d ≡ day_after events d }
{}
