//! A least walk to the last place that meets no place twice. Steps of cost 0 lead forth and back, so the last steps
//! that shortened something may lead in a circle: the walk is found afterwards, over the steps that are just as long
//! as the lengths differ.

ghost use Rattle.std.specs.Prelude.{◌≡◌, ◌<◌, ◌+◌, ◌-◌, ◌↔◌, IfOk, IsTrue, length, true, false, Contains, slice_index};
ghost use Rattle.bx_line.specs.Network.{places_of};
ghost use Rattle.bx_dist.specs.declared.step.Step.{Step};
ghost use Rattle.bx_dist.specs.Search.{IsStep, AreMedium};
ghost use Rattle.bx_dist.specs.Tight.{IsTight, AreSteps};
ghost use Rattle.bx_rounds.specs.Rounds.{AreMarks, Reaches, ExtendsWalk, IsFoundWalk};

use crate::circle::next_in;
use bx_dist::{Step, ends_of};
use bx_line::Line;
use std::alloc::{AllocError, Global};

/// For each place its rank, in the order in which places were reached, or 0 where it was not yet; the last step to
/// it; and how many were reached.
#[derive(Drop)]
struct Marks {
    ranks: Vec<u16>,
    last: Vec<Step>,
    count: u16,
}

/// The first place alone.
fn first_mark(
    alloc: Global,
    line: &Line,
    steps: &[Step],
    lengths: &[i64],
) -> Result<Marks, AllocError>
    requires { 0 < places_of line.now }
    ensures { IfOk result (λ m. AreMarks line.now steps.now lengths.now m.ranks.items m.last.items m.count) }
{
    let places = line.places() as usize;
    let mut ranks = vec![in alloc; 0; places]?;
    ranks[0] = 1;
    let last = vec![in alloc; Step::Idle(0); places]?;
    Ok(Marks {
        ranks,
        last,
        count: 1,
    })
}

/// Marks the end of a tight step from a place that is marked to one that is not, and says whether it did.
fn extend(marks: &mut Marks, line: &Line, steps: &[Step], lengths: &[i64], step: Step) -> bool
    requires places { AreMarks line.now steps.now lengths.now marks.old.ranks.items marks.old.last.items marks.old.count }
    requires there { Contains steps.now step }
    requires step { IsStep line.now step }
    requires one_each { length lengths.now ≡ places_of line.now }
    requires medium { AreMedium lengths.now }
    ensures places { AreMarks line.now steps.now lengths.now marks.new.ranks.items marks.new.last.items marks.new.count }
    ensures more { result ≡ true → marks.new.count ≡ marks.old.count + 1 }
    ensures same { result ≡ false → marks.new ≡ marks.old }
    ensures done { result ≡ false → ExtendsWalk line.now lengths.now marks.old.ranks.items step }
{
    // Read for the prover alone, which learns a limit from it.
    let _places = line.places();
    let (from, to, _) = ends_of(line, step);
    if marks.ranks[from as usize] == 0
        || marks.ranks[to as usize] != 0
        || !is_tight(lengths, line, step)
    {
        return false;
    }
    marks.count += 1;
    marks.ranks[to as usize] = marks.count;
    marks.last[to as usize] = step;
    true
}

/// Whether the step is just as long as the lengths at its ends differ.
fn is_tight(lengths: &[i64], line: &Line, step: Step) -> bool
    requires step { IsStep line.now step }
    requires one_each { length lengths.now ≡ places_of line.now }
    requires medium { AreMedium lengths.now }
    ensures { IsTrue result ↔ IsTight line.now lengths.now step }
{
    let (from, to, cost) = ends_of(line, step);
    lengths[from as usize] + cost == lengths[to as usize]
}

/// A least walk from the first place to the last, over steps that are just as long as the lengths differ.
pub(crate) fn least_walk(
    alloc: Global,
    line: &Line,
    steps: &[Step],
    lengths: &[i64],
) -> Result<Vec<Step>, AllocError>
    requires moment { 0 < places_of line.now }
    requires steps { AreSteps line.now steps.now }
    requires one_each { length lengths.now ≡ places_of line.now }
    requires medium { AreMedium lengths.now }
    requires there { Reaches line.now steps.now lengths.now (places_of line.now - 1) }
    ensures { IfOk result (λ v. IsFoundWalk line.now steps.now lengths.now v.items) }
{
    let mut marks = first_mark(alloc, line, steps, lengths)?;
    let mut at = 0;
    let mut settled = 0;
    while settled < steps.len() {
        if extend(&mut marks, line, steps, lengths, steps[at]) {
            settled = 0;
        } else {
            settled += 1;
        }
        at = next_in(at, steps.len());
    }
    walk_back(alloc, line, steps, lengths, &marks)
}

/// The last steps from the last place back to the first, in the order in which they lead there.
fn walk_back(
    alloc: Global,
    line: &Line,
    steps: &[Step],
    lengths: &[i64],
    marks: &Marks,
) -> Result<Vec<Step>, AllocError>
    requires steps { AreSteps line.now steps.now }
    requires places { AreMarks line.now steps.now lengths.now marks.now.ranks.items marks.now.last.items marks.now.count }
    requires reached { 0 < slice_index marks.now.ranks.items (places_of line.now - 1) }
    ensures { IfOk result (λ v. IsFoundWalk line.now steps.now lengths.now v.items) }
{
    let mut walk = Vec::new(alloc);
    let mut place = line.places() - 1;
    while place != 0 {
        let step = marks.last[place as usize];
        walk.push(step)?;
        place = ends_of(line, step).0;
    }
    walk.reverse();
    Ok(walk)
}
