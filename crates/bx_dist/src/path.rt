//! Tests of a walk.

ghost use Rattle.std.specs.Prelude.{◌-◌, ◌<◌, ◌↔◌, IsTrue};
ghost use Rattle.bx_line.specs.Network.{places_of};
ghost use Rattle.bx_dist.specs.declared.part.Part.TheVariants.{Whole};
ghost use Rattle.bx_dist.specs.Tight.{AreSteps};
ghost use Rattle.bx_dist.specs.Walks.{IsWalk};
ghost use Rattle.bx_dist.specs.Inside.{Avoids, IsSimple};

use crate::carried::Carried;
use crate::part::Part;
use crate::step::Step;
use crate::steps::{ends_of, is_open};
use bx_line::Line;

/// Whether the steps lead from the first place to the last in the flow's residual network.
pub(crate) fn leads(line: &Line, carried: &Carried, walk: &[Step]) -> bool
    requires { 0 < places_of line.now }
    ensures { IsTrue result ↔ IsWalk Whole line.now carried.now 0 (places_of line.now - 1) walk.now }
{
    let mut place = 0;
    for step in walk {
        if !is_open(line, carried, Part::Whole, *step) {
            return false;
        }
        let (from, to, _) = ends_of(line, *step);
        if from != place {
            return false;
        }
        place = to;
    }
    place == line.places() - 1
}

/// Whether steps that name places and rows of the line meet no place twice, from the first place on.
pub(crate) fn is_simple(line: &Line, walk: &[Step]) -> bool
    requires { AreSteps line.now walk.now }
    ensures { IsTrue result ↔ IsSimple line.now 0 walk.now }
{
    let mut place = 0;
    for (i, step) in walk.iter().enumerate() {
        let to = ends_of(line, *step).1;
        if !avoids(line, place, to, &walk[i + 1..]) {
            return false;
        }
        place = to;
    }
    true
}

/// Whether steps from a place meet another one nowhere.
fn avoids(line: &Line, other: u16, from: u16, walk: &[Step]) -> bool
    requires { AreSteps line.now walk.now }
    ensures { IsTrue result ↔ Avoids line.now other from walk.now }
{
    let mut place = from;
    for step in walk {
        if place == other {
            return false;
        }
        place = ends_of(line, *step).1;
    }
    place != other
}
