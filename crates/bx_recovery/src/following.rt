//! An exchange that follows a journal.

use bx_day::Exchange;
use bx_journal::{Follower, LoggedEvent};

/// An exchange to which the events of a journal happen. What it sends for them was sent before, so it goes nowhere.
#[derive(Drop)]
pub struct Following {
    pub exchange: Exchange,
}

impl Follower for Following {
    ghost use Rattle.std.specs.Prelude.{◌≡◌};
    ghost use Rattle.std.proofs.Common.{refl};
    ghost use Rattle.bx_day.specs.Outages.{live_day_after};
    ghost use Rattle.bx_recovery.specs.Days.{days_join};

    ghost followed = { λ f events g. g.exchange ≡ live_day_after events f.exchange };

    fn follow(&mut self, event: &LoggedEvent) {
        match event {
            LoggedEvent::Tick => {
                let _sent = self.exchange.tick();
            }
            LoggedEvent::Heard(octets) => {
                let _reply = self.exchange.receive(octets);
            }
            LoggedEvent::Down(rules) => self.exchange.second_without_link(*rules),
            // The plan that the exchange was opened with has it.
            LoggedEvent::Amended(_, _) => {}
            LoggedEvent::HeardByRulesTwo(octets) => {
                let _reply = self.exchange.receive_by_rules_two(octets);
            }
        }
    }

    ghost follows_none = { λ f. refl };

    ghost follows_on = { λ f g h xs ys p q. days_join xs ys f.exchange g.exchange h.exchange p q };
}
