//! The list of the open steps.

ghost use Rattle.std.specs.Prelude.{IfOk, OnOk};
ghost use Rattle.bx_line.specs.Network.{places_of};
ghost use Rattle.bx_rounds.specs.Rounds.{AreOpenSteps, ListsOpenSteps, AddsOpen};

use bx_dist::{Carried, Part, Step, is_open};
use bx_line::Line;
use std::alloc::{AllocError, Global};

/// The steps that are open, those onward from the first place on, and those back from the last place on: in this
/// order most of them are settled after a round or two.
pub(crate) fn open_steps(
    alloc: Global,
    line: &Line,
    carried: &Carried,
    part: Part,
) -> Result<Vec<Step>, AllocError>
    ensures { IfOk result (λ v. AreOpenSteps part line.now carried.now v.items) }
{
    let mut steps = listed(alloc, line, carried, part)?;
    steps.sort_by_key(|step| turn_of(line, *step))?;
    Ok(steps)
}

/// Those onward come first, in rising order of the place from which they lead, then those back, in falling order.
fn turn_of(line: &Line, step: Step) -> (bool, u16) {
    match step {
        Step::Idle(place) => (false, place),
        Step::Back(place) => (true, u16::MAX - place),
        Step::Take(row) => (false, line.arc_of(row).map_or(0, |arc| arc.from)),
        Step::Give(row) => (true, u16::MAX - line.arc_of(row).map_or(0, |arc| arc.to)),
    }
}

/// The steps that are open, gap by gap and then row by row.
fn listed(
    alloc: Global,
    line: &Line,
    carried: &Carried,
    part: Part,
) -> Result<Vec<Step>, AllocError>
    ensures { IfOk result (λ v. AreOpenSteps part line.now carried.now v.items) }
{
    let mut steps = gap_steps(alloc, line, carried, part)?;
    for i in 0..line.rows() {
        add_open(&mut steps, line, carried, part, Step::Take(i + 1))?;
        add_open(&mut steps, line, carried, part, Step::Give(i + 1))?;
    }
    Ok(steps)
}

/// Those of them that lead from place to place along no row.
fn gap_steps(
    alloc: Global,
    line: &Line,
    carried: &Carried,
    part: Part,
) -> Result<Vec<Step>, AllocError>
    ensures { IfOk result (λ v. ListsOpenSteps part line.now carried.now (places_of line.now) 0 v.items) }
{
    let mut steps = Vec::new(alloc);
    for v in 1..line.places() {
        add_open(&mut steps, line, carried, part, Step::Idle(v - 1))?;
        add_open(&mut steps, line, carried, part, Step::Back(v - 1))?;
    }
    Ok(steps)
}

/// Adds a step where it is open.
fn add_open(
    steps: &mut Vec<Step>,
    line: &Line,
    carried: &Carried,
    part: Part,
    step: Step,
) -> Result<(), AllocError>
    ensures { OnOk result (AddsOpen part line.now carried.now step steps.old.items steps.new.items) }
{
    if is_open(line, carried, part, step) {
        steps.push(step)?;
    }
    Ok(())
}
