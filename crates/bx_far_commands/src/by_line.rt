//! The day of a far end, run by the clock over a data link.

ghost use Rattle.std.specs.Prelude.{◌≡◌, ◌≤◌};
ghost use Rattle.bx_capture.specs.declared.start.TheConstants.{LAST_START};
ghost use Rattle.bx_far_commands.specs.LineInside.{RunsSeen, RunsTo};

use bx_calendar::Clock as DayClock;
use bx_devices::Watched;
use bx_far::Far;
use bx_journal::{FileDisk, SystemFile};
use bx_line_world::{Line, LineWorld, Wire};
use bx_link::run_far_live;
use bx_live::{Log, Schedule, World};
use bx_world::{CapturedWorld, Telling};
use std::fs::OpenFile;
use std::io::Write;
use std::rt::Clock;

/// What is seen of a day while it runs: its messages in the file of a capture, where there is one, from the first second on; each fault
/// of the link with the time of day by the clock; and its moment, where it is shown.
#[derive(Drop)]
pub(crate) struct LineView<F> {
    pub(crate) file: Option<Watched<F>>,
    pub(crate) first: u32,
    pub(crate) clock: Option<DayClock>,
    pub(crate) is_shown: bool,
}

/// A world after a run of a day, and whether all that was to be captured was.
#[derive(Drop)]
struct Seen<W> {
    world: W,
    is_whole: bool,
}

/// Runs the day of a far end over a world up to a turn of it, so that it is seen.
fn run_seen<'h, H: Clock + Eprint, W: World, F: Write + Drop>(
    rt: &'h H,
    far: &mut Far,
    world: W,
    turns: u32,
    view: LineView<F>,
) -> Seen<W>
    requires { view.first ≤ LAST_START }
    ensures { RunsSeen H W.did world result.world turns far.old far.new F.contents view.file view.first result.is_whole }
{
    let LineView {
        file,
        first,
        clock,
        is_shown,
    } = view;
    let telling = Telling::new(rt, world, clock, is_shown);
    let mut world = CapturedWorld::new(telling, file, first);
    run_far_live(far, &mut world, turns);
    let is_whole = world.is_whole();
    let telling = world.into_world();
    Seen {
        world: telling.into_world(),
        is_whole,
    }
}

/// Runs the day of a far end up to a turn of it, by the clock, as the user's end of a data link over the wire. Answers the moment that it
/// has reached, and whether all that was to be captured was.
pub(crate) fn run_over_wire<'h, H: Clock + Eprint, W: Wire + Drop, F: Write + OpenFile + Drop>(
    rt: &'h H,
    far: Far,
    wire: W,
    schedule: Schedule,
    turns: u32,
    view: LineView<F>,
) -> (u32, bool)
    requires { view.first ≤ LAST_START }
    ensures { RunsTo H W.did F.contents wire schedule turns far view.file view.first result.0 result.1 }
{
    let mut far = far;
    let kept = Log::<FileDisk<SystemFile<F>>> { disk: None };
    let world = LineWorld::new(schedule, Line::new(false, wire), kept);
    let seen = run_seen(rt, &mut far, world, turns, view);
    (far.moment(), seen.is_whole)
}
