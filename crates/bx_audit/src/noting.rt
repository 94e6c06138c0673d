//! The seconds without a link that a journal has, noted as they are read.

ghost use Rattle.std.specs.Prelude.{◌≡◌, ◌∷◌, [], true, IfOk};
ghost use Rattle.bx_journal.specs.Events.{logged_event};
ghost use Rattle.bx_audit.specs.Noted.{next_moment};
ghost use Rattle.bx_audit.specs.Notings.{IsFresh, IsNoted, IsSecondNoted};

use bx_day_chart::Outages;
use bx_events::LAST_MOMENT;
use bx_journal::LoggedEvent;
use std::alloc::{AllocError, Global};

/// The outages of a day so far, the moment to which it has come, and whether all were noted.
#[derive(Drop)]
pub(crate) struct Noting {
    outages: Outages,
    moment: u32,
    is_whole: bool,
}

impl Noting {
    /// Of a day that opens.
    pub(crate) fn new(alloc: Global) -> Noting
        ensures { IsFresh result }
    {
        Noting {
            outages: Outages::new(alloc),
            moment: 0,
            is_whole: true,
        }
    }

    /// A second goes by; a day has no more than 300,000.
    fn pass(&mut self)
        ensures { self.new ≡ record self.old { moment = next_moment self.old.moment } }
    {
        if self.moment < LAST_MOMENT {
            self.moment += 1;
        }
    }

    /// Notes the second that begins.
    fn note(&mut self)
        ensures outages { IsSecondNoted self.old self.new }
        ensures moment { self.new.moment ≡ self.old.moment }
    {
        if self.moment < LAST_MOMENT && self.outages.note(self.moment).is_err() {
            self.is_whole = false;
        }
    }

    /// The next event happens.
    pub(crate) fn follow(&mut self, event: &LoggedEvent)
        ensures { IsNoted self.old (logged_event event.now ∷ []) self.new }
    {
        match event {
            LoggedEvent::Tick => self.pass(),
            LoggedEvent::Down(_) => {
                self.note();
                self.pass();
            }
            LoggedEvent::Heard(_) | LoggedEvent::Amended(_, _) | LoggedEvent::HeardByRulesTwo(_) =>
                {}
        }
    }

    /// The outages, or that memory ran out as one was noted.
    pub(crate) fn into_outages(self) -> Result<Outages, AllocError>
        ensures { IfOk result (λ outages. (self.is_whole ≡ true) × (outages.spans.items ≡ self.outages.spans.items)) }
    {
        let Noting {
            outages,
            is_whole,
            ..
        } = self;
        if is_whole {
            Ok(outages)
        } else {
            Err(AllocError)
        }
    }
}
