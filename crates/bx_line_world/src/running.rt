//! A live day over a data link, by the clock.

ghost use Rattle.std.specs.Prelude.{◌≡◌, OnOk};
ghost use Rattle.bx_live.specs.Held.{IsHeldOut};
ghost use Rattle.bx_line_world.specs.Laws.{RunsOverLine};

use crate::line_world::LineWorld;
use crate::wire::Wire;
use bx_day::Exchange;
use bx_journal::Disk;
use bx_live::{CannotLog, run_held};

/// Runs the rest of a day over a data link, up to a second of it, or to `LAST_MOMENT` where that is earlier, and after that on while a
/// call is up. It comes there whatever the line does: where it is done no call is up, or there are no more seconds. Only where an event
/// cannot be logged it is over before, with `CannotLog`.
pub fn run_by_line<W: Wire, D: Disk>(
    exchange: &mut Exchange,
    world: &mut LineWorld<W, D>,
    last: u32,
) -> Result<(), CannotLog>
    ensures ran { RunsOverLine W.did D.holds D.may_leave D.moment D.left_since D.has_failed world.old world.new last exchange.old exchange.new result }
    ensures whole { OnOk result (IsHeldOut last exchange.new) }
{
    run_held(exchange, world, last)
}
