//! Seconds without a link to the exchange.

ghost use Rattle.std.specs.Prelude.{◌≡◌, ◌≤◌, length, map};
ghost use Rattle.bx_far.specs.FarDay.{far_without_link};
ghost use Rattle.bx_far.specs.BegunTicks.{later_slot};

use crate::far::Far;
use bx_calls::UserCall;
use bx_events::LAST_MOMENT;
use std::mem;

impl Far {
    /// The next second, in which there is no link to the exchange: the moment rises by one, no timer runs, no row of the script
    /// calls, and nothing is sent. A call that is being cleared says RELEASE in the next second with a link. At moment 300,000
    /// nothing happens. Takes no memory.
    pub fn second_without_link(&mut self)
        ensures { self.new ≡ far_without_link self.old }
    {
        if self.moment >= LAST_MOMENT {
            return;
        }
        let moment = self.moment + 1;
        let mut calls = mem::replace(&mut self.calls, [None; 32]);
        outlast(&mut calls, moment);
        self.moment = moment;
        self.calls = calls;
    }
}

/// Such a second to this moment goes by for each call.
fn outlast(calls: &mut [Option<UserCall>; 32], moment: u32)
    requires size { length calls.old ≡ 32 }
    requires moment { moment ≤ LAST_MOMENT }
    ensures { calls.new ≡ map (later_slot moment) calls.old }
{
    for i in 0..32 {
        let slot = calls[i];
        if let Some(call) = slot {
            calls[i] = Some(call.on_second_unlinked(moment));
        }
    }
}
