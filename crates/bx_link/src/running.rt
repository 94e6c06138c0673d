//! A far end's live day, second by second.

ghost use Rattle.std.specs.Prelude.{◌≤◌, min, max};
ghost use Rattle.bx_events.specs.Events.{Tick};
ghost use Rattle.bx_frames.specs.declared.turn.TheConstants.{MAX_MESSAGES};
ghost use Rattle.bx_far.specs.Course.{far_line_next, far_line_text};
ghost use Rattle.bx_link.specs.Runs.{Between, Owing};
ghost use Rattle.bx_link.specs.Running.{FarRuns};
ghost use Rattle.bx_link.specs.Seconds.{far_after_second, Rises, FarRisesBySecond, IsSaid};
ghost use Rattle.bx_link.specs.Inside.{or_losing};
ghost use Rattle.bx_link.specs.Laws.{RunsFarDayTo};

use crate::hearing::hear_turn;
use crate::turn::open_turn;
use bx_events::LAST_MOMENT;
use bx_far::Far;
use bx_frames::LinkFault;
use bx_live::{Begin, Loss, Second, World};

/// Both halves of a turn.
fn run_turn<W: World>(far: &mut Far, world: &mut W) -> Result<(), LinkFault>
    ensures ran { FarRuns W.did world.old world.new (Owing (far_line_next far.old Tick) MAX_MESSAGES (far_line_text far.old Tick))
        (or_losing (Between far.new) far.new result) }
    ensures moment { Rises far.old far.new }
{
    open_turn(far, world)?;
    hear_turn(far, world)
}

/// The next second with a link. A fault drops it.
fn pass_with_link<W: World>(far: &mut Far, world: &mut W)
    ensures ran { FarRuns W.did world.old world.new (Owing (far_line_next far.old Tick) MAX_MESSAGES (far_line_text far.old Tick)) (Between far.new) }
    ensures moment { Rises far.old far.new }
{
    match run_turn(far, world) {
        Ok(()) => {}
        Err(fault) => world.drop_peer(Loss::Fault(fault)),
    }
}

/// The next second, where one begins: it is waited for, and the far end ticks in it if there is a link.
fn run_second<W: World>(far: &mut Far, world: &mut W) -> Second
    ensures ran { FarRuns W.did world.old world.new (Between far.old) (far_after_second far.new result) }
    ensures moment { FarRisesBySecond far.old far.new result }
    ensures said { IsSaid W.did world.old world.new far.old far.new result }
{
    match world.begin(far.moment() + 1) {
        Begin::Joined => {
            pass_with_link(far, world);
            Second::Passed
        }
        Begin::Alone => {
            far.second_without_link();
            Second::Passed
        }
        Begin::Late => {
            world.drop_peer(Loss::Late);
            far.second_without_link();
            Second::Passed
        }
        Begin::Ended => Second::Ended,
    }
}

/// Runs a far end's day up to a second of it, or to `LAST_MOMENT` where that is earlier, or until the world says that it is over. Each
/// second is waited for. With a link the far end ticks in it, what it sends is written, and each message that comes is heard and
/// answered before more is read; at a fault the link is dropped, and the day goes on. Without a link its timers stand still.
pub fn run_far_live<W: World>(far: &mut Far, world: &mut W, last: u32)
    ensures ran { RunsFarDayTo W.did last world.old world.new far.old far.new }
    ensures whole { far.new.moment ≤ max far.old.moment (min last LAST_MOMENT) }
{
    let end = last.min(LAST_MOMENT);
    for _second in far.moment()..end {
        match run_second(far, world) {
            Second::Passed => {}
            Second::Ended => return world.end_day(),
        }
    }
    world.end_day()
}
