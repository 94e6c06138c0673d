//! What holds of the exchange's day over every list of events.

ghost use Rattle.std.specs.Prelude.{◌≡◌, ℕ, List, map};
ghost use Rattle.bx_day.specs.Day.{Day};
ghost use Rattle.bx_events.specs.Events.{Event, OnLink};
ghost use Rattle.bx_day.specs.Run.{day_after};
ghost use Rattle.bx_day.specs.Outages.{live_day_after, none_lost, lost_since};
ghost use Rattle.bx_day.specs.Law.{DaysAreOrderly, AllSentFits};

/// Over every list of events of a carried plan, on the link and without one: no channel is held twice, and calls are in
/// their time, after whose end they are over 38 seconds later, and the seconds without a link since then, and twice T308 more
/// for each outage. A list without seconds that have no link is a day as a session goes through it.
pub fn one_per_channel()
    ensures state { DaysAreOrderly }
    ensures sent { AllSentFits }
    ensures unbroken { (m : ℕ) (events : List Event) (d : Day) → lost_since m (map (λ (e : Event). OnLink e) events) d ≡ none_lost }
    ensures linked { (events : List Event) (d : Day) → live_day_after (map (λ (e : Event). OnLink e) events) d ≡ day_after events d }
{}
