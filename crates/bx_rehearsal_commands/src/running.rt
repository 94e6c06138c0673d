//! A day that is opened, run over a world.

ghost use Rattle.std.specs.Prelude.{◌≤◌};
ghost use Rattle.bx_capture.specs.declared.start.TheConstants.{LAST_START};
ghost use Rattle.bx_rehearsal_commands.specs.Runs.{RunsIn};

use bx_day::Exchange;
use bx_devices::Watched;
use bx_live::{CannotLog, World, run_live};
use bx_world::{CapturedWorld, Telling};
use std::io::Write;
use std::rt::Clock;

/// What is seen of a day while it runs: its messages in the file of a capture, where there is one, from the first second on; and its
/// moment, where it is shown.
#[derive(Drop)]
pub struct View<F> {
    pub file: Option<Watched<F>>,
    pub first: u32,
    pub is_shown: bool,
}

/// A world after a run of a day, with whether all of that is logged, and all that was to be captured was.
#[derive(Drop)]
pub struct Ran<W> {
    pub world: W,
    pub done: Result<(), CannotLog>,
    pub is_whole: bool,
}

/// Runs a day over a world up to a turn of it, so that it is seen. The first second of the view is at most `LAST_START`.
pub fn run_in<'h, H: Clock + Eprint, W: World, F: Write + Drop>(
    rt: &'h H,
    exchange: &mut Exchange,
    world: W,
    turns: u32,
    view: View<F>,
) -> Ran<W>
    requires { view.first ≤ LAST_START }
    ensures { RunsIn W.did world result.world turns exchange.old exchange.new result.done F.contents view.file view.first result.is_whole }
{
    let View {
        file,
        first,
        is_shown,
    } = view;
    let telling = Telling::new(rt, world, None, is_shown);
    let mut world = CapturedWorld::new(telling, file, first);
    let done = run_live(exchange, &mut world, turns);
    let is_whole = world.is_whole();
    let mut telling = world.into_world();
    telling.clear();
    Ran {
        world: telling.into_world(),
        done,
        is_whole,
    }
}
