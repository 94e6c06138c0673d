//! The steps of the residual network.

ghost use Rattle.std.specs.Prelude.{◌≡◌, ◌≤◌, ◌<◌, ◌↔◌, IsTrue, length, nat_abs};
ghost use Rattle.bx_line.specs.Flows.{IsSized};
ghost use Rattle.bx_line.specs.Network.{places_of};
ghost use Rattle.bx_line.specs.declared.line.TheConstants.{MAX_ARC_PAY};
ghost use Rattle.bx_dist.specs.Residual.{IsOpen, HasRow, step_from, step_to, step_cost};
ghost use Rattle.bx_dist.specs.Search.{IsStep};

use crate::carried::Carried;
use crate::part::Part;
use crate::step::Step;
use bx_line::Line;

/// The place from which a step leads, the place to which it leads, and its cost. The step has to name places and rows of the
/// line.
pub fn ends_of(line: &Line, step: Step) -> (u16, u16, i64)
    requires { IsStep line.now step }
    ensures from { result.0 ≡ step_from line.now step }
    ensures to { result.1 ≡ step_to line.now step }
    ensures cost { result.2 ≡ step_cost line.now step }
    ensures from_within { result.0 < places_of line.now }
    ensures to_within { result.1 < places_of line.now }
    ensures small { nat_abs result.2 ≤ MAX_ARC_PAY }
{
    // Read for the prover alone, which learns a limit from it.
    let _places = line.places();
    match step {
        Step::Idle(place) => (place, place + 1, 0),
        Step::Back(place) => (place + 1, place, 0),
        Step::Take(row) => {
            let arc = line.arc(row - 1);
            (arc.from, arc.to, -(arc.pay as i64))
        }
        Step::Give(row) => {
            let arc = line.arc(row - 1);
            (arc.to, arc.from, arc.pay as i64)
        }
    }
}

/// Whether a step is there, in a part of the flow's residual network.
pub fn is_open(line: &Line, carried: &Carried, part: Part, step: Step) -> bool
    ensures { IsTrue result ↔ IsOpen part line.now carried.now step }
{
    match step {
        Step::Idle(place) => u32::from(place) + 1 < u32::from(line.places()),
        Step::Back(place) => {
            u32::from(place) + 1 < u32::from(line.places()) && carried.idle(place) > 0
        }
        Step::Take(row) => has_row(line, part, row) && !carried.accepted(row),
        Step::Give(row) => has_row(line, part, row) && carried.accepted(row),
    }
}

/// The same of a step that has to name places and rows of the line, on a flow that has to say something of each row and of each
/// gap.
pub fn is_there(line: &Line, carried: &Carried, part: Part, step: Step) -> bool
    requires step { IsStep line.now step }
    requires sized { IsSized line.now carried.now }
    ensures { IsTrue result ↔ IsOpen part line.now carried.now step }
{
    // Read for the prover alone, which learns a limit from it.
    let _places = line.places();
    match step {
        Step::Idle(_) => true,
        Step::Back(place) => carried.idle_in(place) > 0,
        Step::Take(row) => !carried.carries(row - 1) && is_in_part(line, part, row),
        Step::Give(row) => carried.carries(row - 1) && is_in_part(line, part, row),
    }
}

/// Whether the part has the arc of a row that there is.
fn is_in_part(line: &Line, part: Part, row: u16) -> bool
    requires named { 1 ≤ row }
    requires within { row ≤ length line.now.arcs }
    ensures { IsTrue result ↔ HasRow part line.now row }
{
    part == Part::Whole || !line.arc(row - 1).must
}

/// Whether the part has the arc of a row.
fn has_row(line: &Line, part: Part, row: u16) -> bool
    ensures { IsTrue result ↔ HasRow part line.now row }
{
    match line.arc_of(row) {
        Some(arc) => part == Part::Whole || !arc.must,
        None => false,
    }
}
