//! Potentials to begin with.

ghost use Rattle.bx_dist.specs.Passing.{IsPassed};
ghost use Rattle.bx_dist.specs.Sending.{empty_flow};
ghost use Rattle.bx_dist.specs.Walks.{AreLeast};
ghost use Rattle.bx_dist.specs.declared.part.Part.TheVariants.{Whole};
ghost use Rattle.bx_line.specs.Network.{IsNetwork, places_of};
ghost use Rattle.std.specs.Prelude.{◌<◌, ◌+◌, IfOk};

use crate::dist::Dist;
use crate::potentials::Potentials;
use crate::relax::shorten;
use crate::step::Step;
use bx_line::{Incidence, Line};
use std::alloc::{AllocError, Global};

impl Potentials {
    /// The distances from the first place where nothing is carried. No step leads back there, so one pass along the
    /// line finds them. `AllocError` where memory runs out.
    pub fn first(alloc: Global, line: &Line) -> Result<Potentials, AllocError>
        ensures { IfOk result (AreLeast Whole line.now (empty_flow line.now)) }
    {
        let mut lengths = vec![in alloc; 0; line.places() as usize]?;
        for next in 1..line.places() {
            pass(&mut lengths, line, next - 1);
        }
        Ok(Potentials::of(Dist::new(lengths, Vec::new(alloc))))
    }
}

/// Takes the steps from a place to later ones.
fn pass(lengths: &mut [i64], line: &Line, place: u16)
    requires limits { IsNetwork line.now }
    requires within { place + 1 < places_of line.now }
    requires passed { IsPassed line.now place lengths.old }
    ensures { IsPassed line.now (place + 1) lengths.new }
{
    shorten(lengths, line, Step::Idle(place));
    let mut next = line.first_row(place, Incidence::Leaving);
    while let Some(row) = next {
        shorten(lengths, line, Step::Take(row + 1));
        next = line.next_row(row, Incidence::Leaving);
    }
}
