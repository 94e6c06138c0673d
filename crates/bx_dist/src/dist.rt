//! Distances.

ghost use Rattle.std.specs.Prelude.{◌≡◌, ◌<◌, ◌↔◌, IfOk, IsTrue, length};
ghost use Rattle.bx_line.specs.Network.{places_of};
ghost use Rattle.bx_line.specs.Flows.{IsFlow};
ghost use Rattle.bx_dist.specs.Residual.{height_at, AreSmall, ArePotentials};
ghost use Rattle.bx_dist.specs.Walks.{AreDistances, IsPath};
ghost use Rattle.bx_dist.specs.declared.part.Part.TheVariants.{Whole};

use crate::carried::Carried;
use crate::part::Part;
use crate::path::{is_simple, leads};
use crate::potentials::Potentials;
use crate::step::Step;
use bx_line::Line;
use std::alloc::{AllocError, Global};
use std::marker::Model;

/// Distances from the first place, and a walk to the last.
#[derive(Drop)]
pub struct Dist {
    lengths: Vec<i64>,
    walk: Vec<Step>,
}

impl Model for Dist {
    ghost use Rattle.bx_dist.specs.Residual.{AreSmall};
    ghost use Rattle.bx_dist.specs.Walks.{Lengths, lengths_of};

    ghost Value = { Lengths };

    ghost view = { λ d. lengths_of d.lengths.items d.walk.items };

    ghost invariant = { λ d. AreSmall d.lengths.items };
}

impl Dist {
    /// These lengths, one for each place in order, with this walk. No length may be beyond 550,000,000,000,000,000, of either sign.
    pub fn new(lengths: Vec<i64>, walk: Vec<Step>) -> Dist
        requires { AreSmall lengths.items }
        ensures lengths { result.lengths ≡ lengths.items }
        ensures walk { result.walk ≡ walk.items }
    {
        Dist { lengths, walk }
    }

    pub(crate) fn into_lengths(self) -> Vec<i64>
        ensures value { result.items ≡ self.lengths }
        ensures small { AreSmall result.items }
    {
        let Dist { lengths, walk: _ } = self;
        lengths
    }

    /// The distance of a place; 0 for no such place.
    pub fn length(&self, place: u16) -> i64
        ensures { result ≡ height_at self.now.lengths place }
    {
        if (place as usize) < self.lengths.len() {
            self.lengths[place as usize]
        } else {
            0
        }
    }

    /// Whether the walk leads from the first place to the last in the flow's residual network, and meets no place
    /// twice. Takes no memory, and time quadratic in the walk.
    pub fn belongs_to(&self, line: &Line, carried: &Carried) -> bool
        ensures { IsTrue result ↔ IsPath Whole line.now carried.now self.now.walk }
    {
        if line.places() == 0 {
            return false;
        }
        if !leads(line, carried, &self.walk) {
            return false;
        }
        is_simple(line, &self.walk)
    }

    /// The steps of the walk.
    pub fn walk(&self) -> &[Step]
        ensures { result.now ≡ self.now.walk }
    {
        &self.walk
    }
}

/// A way to find distances: shortest paths from the first place.
pub trait Distances {
    /// The distances from the first place in a part of the flow's residual network, and a least walk to the last place that
    /// meets no place twice. There has to be a place, the flow has to be one along the line, and the potentials have to fit it:
    /// they say that no cycle has a negative length. `AllocError` where memory runs out.
    fn from_first(
        &self,
        alloc: Global,
        line: &Line,
        carried: &Carried,
        potentials: &Potentials,
        part: Part,
    ) -> Result<Dist, AllocError>
        requires moment { 0 < places_of line.now }
        requires flow { IsFlow line.now carried.now }
        requires fits { ArePotentials line.now carried.now potentials.now }
        ensures { IfOk result (AreDistances part line.now carried.now) };
}
