//! A live day that is held open while a call is up.

ghost use Rattle.std.specs.Prelude.{◌≡◌, ◌⊎◌, ◌≤◌, ◌<◌, true, false};
ghost use Rattle.bx_day.specs.Day.{is_live};
ghost use Rattle.bx_live.specs.Held.{has_call, RunsHeld};

use crate::running::{Second, close_day, run_second};
use crate::world::{CannotLog, World};
use bx_day::Exchange;
use bx_events::LAST_MOMENT;

/// Whether a call of some booking is up: it was offered or has come, and is not cleared.
pub fn has_call(exchange: &Exchange) -> bool
    ensures { result ≡ has_call exchange.now }
{
    for entry in exchange.entries() {
        if entry.standing.is_live() {
            return true;
        }
    }
    false
}

/// Whether one more second of a day that is held open is to begin: the last one that was asked for has not come, or a call is up.
pub fn goes_on(exchange: &Exchange, last: u32) -> bool
    ensures on { result ≡ true → (exchange.now.moment < last) ⊎ (has_call exchange.now ≡ true) }
    ensures over { result ≡ false → (last ≤ exchange.now.moment) × (has_call exchange.now ≡ false) }
{
    exchange.moment() < last || has_call(exchange)
}

/// Runs the day as `run_live` does, and after its last second on while a call is up, so that each call that is begun is cleared and
/// can be billed: until none is up, or up to `LAST_MOMENT`, or until the world says that the day is over. No second begins after
/// the last one but for a call that is up. At its end all of it is on the disk. At `CannotLog` nothing more is done.
pub fn run_held<W: World>(
    exchange: &mut Exchange,
    world: &mut W,
    last: u32,
) -> Result<(), CannotLog>
    ensures { RunsHeld W.did world.old world.new last exchange.old exchange.new result }
{
    for _second in exchange.moment()..LAST_MOMENT {
        if !goes_on(exchange, last) {
            return close_day(world);
        }
        match run_second(exchange, world)? {
            Second::Passed => {}
            Second::Ended => return close_day(world),
        }
    }
    close_day(world)
}
