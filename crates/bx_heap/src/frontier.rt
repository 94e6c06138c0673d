//! Places that are reached, and those of them that are settled.

ghost use Rattle.bx_heap.specs.Frontier.{reduced};
ghost use Rattle.bx_dist.specs.Search.{AreMedium, IsStep};
ghost use Rattle.bx_heap.specs.Searching.{state_from, setting_of, HasRoom, IsResting, HasReached, HasQueued};
ghost use Rattle.bx_dist.specs.declared.part.Part.{Part};
ghost use Rattle.bx_line.specs.Flows.{Flow};
ghost use Rattle.bx_line.specs.Network.{places_of};
ghost use Rattle.std.specs.Prelude.{◌≡◌, ◌<◌, ◌≤◌, IfOk, OnOk, length, nat_abs};

use crate::waiting::Waiting;
use bx_dist::{Potentials, Step, ends_of, shorten};
use bx_line::Line;
use std::alloc::{AllocError, Global};

/// Lengths of walks to the places that are reached, which are 0 at most, since the line may be walked idle (the
/// others have 1); the last step to each; for each its rank, in the order in which places were settled, or 0 where
/// it was not yet; and how many were settled. Those that wait are sorted by their lengths less the potentials: those
/// at the level of the place that was settled last, those that were reached above it of late, and a heap of the others.
#[derive(Drop)]
pub struct Frontier {
    pub lengths: Vec<i64>,
    pub last: Vec<Step>,
    pub ranks: Vec<u16>,
    pub count: u16,
    pub level: i64,
    pub tight: Vec<u16>,
    pub fresh: Vec<u16>,
    pub waiting: Waiting,
}

impl Frontier {
    /// The first place alone is reached.
    pub(crate) fn new(
        alloc: Global,
        line: &Line,
        potentials: &Potentials,
    ) -> Result<Frontier, AllocError>
        requires { 0 < places_of line.now }
        ensures { IfOk result (λ f. (part : Part) (flow : Flow) → IsResting (setting_of part line.now flow potentials.now) (state_from f)) }
    {
        let places = line.places() as usize;
        let mut lengths = vec![in alloc; 1; places]?;
        lengths[0] = 0;
        let mut tight = Vec::new(alloc);
        tight.push(0)?;
        Ok(Frontier {
            lengths,
            last: vec![in alloc; Step::Idle(0); places]?,
            ranks: vec![in alloc; 0; places]?,
            count: 0,
            level: -potentials.at(0),
            tight,
            fresh: Vec::new(alloc),
            waiting: Waiting::new(alloc),
        })
    }

    /// Takes a step where it shortens the way to its end. Inlined, so that its kind is known at each place.
    #[inline(always)]
    pub(crate) fn reach(
        &mut self,
        line: &Line,
        potentials: &Potentials,
        step: Step,
    ) -> Result<(), AllocError>
        requires step { IsStep line.now step }
        requires room { HasRoom line.now (state_from self.old) }
        requires one_each { length potentials.now ≡ places_of line.now }
        ensures { OnOk result (HasReached line.now potentials.now step (state_from self.old) (state_from self.new)) }
    {
        let to = ends_of(line, step).1;
        if shorten(&mut self.lengths, line, step) {
            self.last[to as usize] = step;
            self.queue(line, potentials, to)?;
        }
        Ok(())
    }

    /// Lets a place wait that was reached just now.
    fn queue(&mut self, line: &Line, potentials: &Potentials, place: u16) -> Result<(), AllocError>
        requires within { place < places_of line.now }
        requires lengths { length self.old.lengths.items ≡ places_of line.now }
        requires medium { AreMedium self.old.lengths.items }
        requires one_each { length potentials.now ≡ places_of line.now }
        ensures { OnOk result (HasQueued line.now potentials.now place (state_from self.old) (state_from self.new)) }
    {
        // Read for the prover alone, which learns a limit from it.
        let _places = line.places();
        if self.reduced(potentials, place) == self.level {
            self.tight.push(place)?;
        } else {
            self.fresh.push(place)?;
        }
        Ok(())
    }

    /// The length of a place less its potential.
    pub(crate) fn reduced(&self, potentials: &Potentials, place: u16) -> i64
        requires within { place < length self.now.lengths.items }
        requires medium { AreMedium self.now.lengths.items }
        requires one_each { length potentials.now ≡ length self.now.lengths.items }
        ensures value { result ≡ reduced potentials.now self.now.lengths.items place }
        ensures small { nat_abs result ≤ 1660000000000000000 }
    {
        self.lengths[place as usize] - potentials.height(place)
    }
}
