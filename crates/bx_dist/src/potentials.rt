//! Potentials.

ghost use Rattle.std.specs.Prelude.{◌≡◌, ◌≤◌, ◌<◌, ◌↔◌, ℕ, IfOk, IsTrue, length, slice_index};
ghost use Rattle.bx_dist.specs.Residual.{height_at, AreSmall, ArePotentials};
ghost use Rattle.bx_dist.specs.Inside.{RowFits, GapFits};

use crate::carried::Carried;
use crate::dist::Dist;
use bx_line::Line;
use std::alloc::{AllocError, Global};
use std::marker::Model;

/// A number for each place. Those that fit a flow, as `fits` tests, are feasible potentials of its residual network (J. Edmonds
/// and R. M. Karp, 1972).
#[derive(Drop)]
pub struct Potentials {
    heights: Vec<i64>,
}

impl Model for Potentials {
    ghost use Rattle.std.specs.Prelude.{List, ℤ};
    ghost use Rattle.bx_dist.specs.Residual.{AreSmall};

    ghost Value = { List ℤ };

    ghost view = { λ p. p.heights.items };

    ghost invariant = { λ p. AreSmall p.heights.items };
}

impl Potentials {
    /// The lengths of these distances. Takes over their list.
    pub fn of(dist: Dist) -> Potentials
        ensures { result ≡ dist.lengths }
    {
        Potentials {
            heights: dist.into_lengths(),
        }
    }

    /// For each place of a line the number of the place that is listed for it. `AllocError` where memory runs out.
    pub fn lifted(&self, alloc: Global, places: &[u16]) -> Result<Potentials, AllocError>
        ensures one_each { IfOk result (λ p. length p ≡ length places.now) }
        ensures each { IfOk result (λ p. (v : ℕ) → v < length places.now → height_at p v ≡ height_at self.now (slice_index places.now v)) }
    {
        let mut heights = Vec::new(alloc);
        for place in places {
            heights.push(self.at(*place))?;
        }
        Ok(Potentials { heights })
    }

    /// The number of a place; 0 for no such place.
    pub fn at(&self, place: u16) -> i64
        ensures value { result ≡ height_at self.now place }
        ensures small { AreSmall self.now }
    {
        if (place as usize) < self.heights.len() {
            self.heights[place as usize]
        } else {
            0
        }
    }

    /// The same of a place that there has to be.
    pub fn height(&self, place: u16) -> i64
        requires { place < length self.now }
        ensures value { result ≡ height_at self.now place }
        ensures small { AreSmall self.now }
    {
        self.heights[place as usize]
    }

    /// Whether no step of the flow's residual network has a negative cost once reduced by these numbers, and there
    /// is one for each place. Takes no memory.
    pub fn fits(&self, line: &Line, carried: &Carried) -> bool
        ensures { IsTrue result ↔ ArePotentials line.now carried.now self.now }
    {
        if self.heights.len() != line.places() as usize || !carried.is_sized(line) {
            return false;
        }
        for i in 0..line.rows() {
            if !self.row_fits(line, carried, i + 1) {
                return false;
            }
        }
        for v in 1..line.places() {
            if !self.gap_fits(carried, v - 1) {
                return false;
            }
        }
        true
    }

    /// The same of the step along a row's arc, or back along it.
    fn row_fits(&self, line: &Line, carried: &Carried, row: u16) -> bool
        requires named { 1 ≤ row }
        requires within { row ≤ length line.now.arcs }
        ensures { IsTrue result ↔ RowFits line.now carried.now self.now row }
    {
        let arc = line.arc(row - 1);
        let pay = arc.pay as i64;
        let from = self.at(arc.from);
        let to = self.at(arc.to);
        if carried.accepted(row) {
            from <= to + pay
        } else {
            to <= from - pay
        }
    }

    /// The same of the steps from a place to the next, and back.
    fn gap_fits(&self, carried: &Carried, place: u16) -> bool
        requires { place < 65535 }
        ensures { IsTrue result ↔ GapFits carried.now self.now place }
    {
        let here = self.at(place);
        let next = self.at(place + 1);
        next <= here && (carried.idle(place) == 0 || here <= next)
    }
}
