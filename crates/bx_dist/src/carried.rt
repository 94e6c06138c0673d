//! Flows.

ghost use Rattle.std.specs.Prelude.{◌≡◌, ◌≤◌, ◌<◌, ◌+◌, ◌-◌, ◌↔◌, ℕ, IfOk, IsTrue, true, false, length, slice_index, if◌then◌else◌};
ghost use Rattle.bx_line.specs.Network.{places_of, spans};
ghost use Rattle.bx_line.specs.Flows.{IsFlow, IsSized, carries_unit, idle_at, crossing_at};
ghost use Rattle.bx_dist.specs.Sending.{empty_flow, sent, after_step};
ghost use Rattle.bx_dist.specs.Inside.{CanTake};
ghost use Rattle.bx_dist.specs.Walks.{IsPath};
ghost use Rattle.bx_base.specs.declared.bookings.TheConstants.{MAX_BOOKINGS};

use crate::dist::Dist;
use crate::part::Part;
use crate::step::Step;
use bx_line::{Arc, Line};
use std::alloc::{AllocError, Global};
use std::marker::Model;

/// Units on their way from the first place to the last, a flow: the bookings that carry one each, and how many are idle
/// between neighbouring places.
#[derive(Drop)]
pub struct Carried {
    accepted: Vec<bool>,
    idle: Vec<u8>,
    units: u8,
}

impl Model for Carried {
    ghost use Rattle.bx_line.specs.Flows.{Flow, flow_of};

    ghost Value = { Flow };

    ghost view = { λ c. flow_of c.accepted.items c.idle.items c.units };
}

impl Carried {
    /// Nothing under way. `AllocError` where memory runs out.
    pub fn empty(alloc: Global, line: &Line) -> Result<Carried, AllocError>
        ensures value { IfOk result (λ c. c ≡ empty_flow line.now) }
        ensures flow { IfOk result (IsFlow line.now) }
    {
        let rows = line.rows() as usize;
        let places = line.places() as usize;
        Ok(Carried {
            accepted: vec![in alloc; false; rows]?,
            idle: vec![in alloc; 0; places.saturating_sub(1)]?,
            units: 0,
        })
    }

    /// The flow of as many units along another line in which the same rows carry a unit each. In each gap the other units
    /// are idle. That line has to have as many rows, over no gap of it may more rows carry a unit than there are units, and where
    /// it has no gap there may be no unit. `AllocError` where memory runs out.
    pub fn along(&self, alloc: Global, line: &Line) -> Result<Carried, AllocError>
        requires rows { length self.now.accepted ≡ length line.now.arcs }
        requires room { (gap : ℕ) → gap + 1 < places_of line.now → crossing_at line.now self.now gap ≤ self.now.units }
        requires no_gap { places_of line.now < 2 → self.now.units ≡ 0 }
        ensures flow { IfOk result (IsFlow line.now) }
        ensures accepted { IfOk result (λ c. c.accepted ≡ self.now.accepted) }
        ensures units { IfOk result (λ c. c.units ≡ self.now.units) }
    {
        let mut idle = vec![in alloc; self.units; (line.places() as usize).saturating_sub(1)]?;
        for row in 0..line.rows() {
            if self.carries(row) {
                take_over(&mut idle, line.arc(row));
            }
        }
        Ok(Carried {
            accepted: self.accepted.clone()?,
            idle,
            units: self.units,
        })
    }

    /// Whether the row carries a unit, where rows are named 1, 2, ..; false for no such row.
    pub fn accepted(&self, row: u16) -> bool
        ensures row { 1 ≤ row → result ≡ carries_unit self.now (row - 1) }
        ensures no_row { row ≡ 0 → result ≡ false }
    {
        row != 0 && row as usize <= self.accepted.len() && self.accepted[row as usize - 1]
    }

    /// The same of a row that there is, counted from 0.
    pub(crate) fn carries(&self, index: u16) -> bool
        requires { index < length self.now.accepted }
        ensures { result ≡ carries_unit self.now index }
    {
        self.accepted[index as usize]
    }

    /// How many units are idle between this place and the next; 0 for no such place.
    pub fn idle(&self, place: u16) -> u8
        ensures { result ≡ idle_at self.now place }
    {
        if (place as usize) < self.idle.len() {
            self.idle[place as usize]
        } else {
            0
        }
    }

    /// The same of a place with a next one.
    pub(crate) fn idle_in(&self, gap: u16) -> u8
        requires { gap < length self.now.idle }
        ensures { result ≡ idle_at self.now gap }
    {
        self.idle[gap as usize]
    }

    /// How many units there are.
    pub fn units(&self) -> u8
        ensures { result ≡ self.now.units }
    {
        self.units
    }

    /// Whether this is a flow along the line. Takes no memory, and time by rows and places.
    pub fn belongs_to(&self, line: &Line) -> bool
        ensures { IsTrue result ↔ IsFlow line.now self.now }
    {
        if !self.is_sized(line) {
            return false;
        }
        for gap in 1..line.places() {
            if u16::from(self.idle(gap - 1)) + self.crossing(line, gap - 1)
                != u16::from(self.units)
            {
                return false;
            }
        }
        line.places() > 1 || self.units == 0
    }

    /// Whether it says something of each row and of each gap.
    pub(crate) fn is_sized(&self, line: &Line) -> bool
        ensures { IsTrue result ↔ IsSized line.now self.now }
    {
        self.accepted.len() == line.rows() as usize
            && self.idle.len() == (line.places() as usize).saturating_sub(1)
    }

    /// How many rows carry a unit over the gap after a place.
    fn crossing(&self, line: &Line, gap: u16) -> u16
        ensures count { result ≡ crossing_at line.now self.now gap }
        ensures limit { result ≤ MAX_BOOKINGS }
    {
        let mut count = 0;
        for i in 0..line.rows() {
            let arc = line.arc(i);
            if self.accepted(i + 1) && arc.from <= gap && gap < arc.to {
                count += 1;
            }
        }
        count
    }

    /// Sends one more unit along the walk of these distances, an augmenting path. This has to be a flow along the line of fewer
    /// than 30 units, and the walk one of its residual network that leads from the first place to the last and meets no place
    /// twice. Takes no memory.
    pub fn send(&mut self, line: &Line, dist: &Dist)
        requires flow { IsFlow line.now self.old }
        requires path { IsPath Part.Whole line.now self.old dist.now.walk }
        requires room { self.old.units < 30 }
        ensures sent { self.new ≡ sent self.old dist.now.walk }
        ensures flow { IsFlow line.now self.new }
    {
        // Read for the prover alone, which learns a limit from it.
        let _places = line.places();
        for step in dist.walk() {
            self.take(*step);
        }
        self.units += 1;
    }

    /// Lets a unit take one step.
    fn take(&mut self, step: Step)
        requires { CanTake self.old step }
        ensures { self.new ≡ after_step self.old step }
    {
        match step {
            Step::Idle(place) => self.idle[place as usize] += 1,
            Step::Back(place) => self.idle[place as usize] -= 1,
            Step::Take(row) => self.accepted[row as usize - 1] = true,
            Step::Give(row) => self.accepted[row as usize - 1] = false,
        }
    }
}

/// Takes one idle unit from each gap that an arc leads over.
fn take_over(idle: &mut [u8], arc: Arc)
    requires rising { arc.from < arc.to }
    requires within { arc.to ≤ length idle.old }
    requires some { (gap : ℕ) → spans arc gap ≡ true → 1 ≤ slice_index idle.old gap }
    ensures size { length idle.new ≡ length idle.old }
    ensures each { (gap : ℕ) → gap < length idle.old → slice_index idle.new gap + (if spans arc gap then 1 else 0) ≡ slice_index idle.old gap }
{
    for gap in arc.from as usize..arc.to as usize {
        idle[gap] -= 1;
    }
}
