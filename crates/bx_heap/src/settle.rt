//! The steps from a place that is settled.

ghost use Rattle.bx_dist.specs.Search.{IsStep};
ghost use Rattle.bx_heap.specs.Searching.{state_from, setting_of, settled_at, turn_on, row_step, HasRoom, IsInHand, IsLeftToTake, IsResting, IsSetting, IsSettling, TakesOpenStep, IsSettlingFrom};
ghost use Rattle.bx_line.specs.Flows.{IsSized};
ghost use Rattle.bx_line.specs.Network.{places_of};
ghost use Rattle.bx_line.specs.declared.line.TheConstants.{MAX_PLACES};
ghost use Rattle.std.specs.Prelude.{◌≡◌, ◌≤◌, ◌<◌, ◌+◌, OnOk, length};

use crate::frontier::Frontier;
use bx_dist::{Carried, Part, Potentials, Step, is_there};
use bx_line::{Incidence, Line};
use std::alloc::AllocError;

impl Frontier {
    /// Settles a place, and takes the steps from it. The one to the next place comes last, so that the line is
    /// walked in its order where nothing else is nearer.
    pub(crate) fn settle(
        &mut self,
        line: &Line,
        carried: &Carried,
        potentials: &Potentials,
        part: Part,
        place: u16,
    ) -> Result<(), AllocError>
        requires setting { IsSetting (setting_of part line.now carried.now potentials.now) }
        requires in_hand { IsInHand (setting_of part line.now carried.now potentials.now) (state_from self.old) place }
        ensures resting { OnOk result (IsResting (setting_of part line.now carried.now potentials.now) (state_from self.new)) }
        ensures count { OnOk result (self.new.count ≡ self.old.count + 1) }
    {
        self.mark(place);
        self.step_back(line, carried, potentials, part, place)?;
        self.take_rows(line, carried, potentials, part, place, Incidence::Arriving)?;
        self.take_rows(line, carried, potentials, part, place, Incidence::Leaving)?;
        self.step_on(line, carried, potentials, part, place)?;
        Ok(())
    }

    /// Gives a place the next rank.
    fn mark(&mut self, place: u16)
        requires within { place < length self.old.ranks.items }
        requires few { self.old.count ≤ MAX_PLACES }
        ensures { state_from self.new ≡ settled_at place (state_from self.old) }
    {
        self.count += 1;
        self.ranks[place as usize] = self.count;
    }

    /// Takes a step where it is open. Inlined, so that its kind is known at each place.
    #[inline(always)]
    fn take_step(
        &mut self,
        line: &Line,
        carried: &Carried,
        potentials: &Potentials,
        part: Part,
        step: Step,
    ) -> Result<(), AllocError>
        requires step { IsStep line.now step }
        requires sized { IsSized line.now carried.now }
        requires room { HasRoom line.now (state_from self.old) }
        requires one_each { length potentials.now ≡ places_of line.now }
        ensures { OnOk result (TakesOpenStep (setting_of part line.now carried.now potentials.now) step (state_from self.old) (state_from self.new)) }
    {
        if is_there(line, carried, part, step) {
            self.reach(line, potentials, step)?;
        }
        Ok(())
    }

    /// Takes the step from a place back to the one before.
    fn step_back(
        &mut self,
        line: &Line,
        carried: &Carried,
        potentials: &Potentials,
        part: Part,
        place: u16,
    ) -> Result<(), AllocError>
        requires setting { IsSetting (setting_of part line.now carried.now potentials.now) }
        requires settling { IsSettling (setting_of part line.now carried.now potentials.now) (state_from self.old) place (IsLeftToTake line.now place 0) }
        ensures settling { OnOk result
            (IsSettling (setting_of part line.now carried.now potentials.now) (state_from self.new) place (IsLeftToTake line.now place 1)) }
        ensures count { OnOk result (self.new.count ≡ self.old.count) }
    {
        if place == 0 {
            return Ok(());
        }
        self.take_step(line, carried, potentials, part, Step::Back(place - 1))?;
        Ok(())
    }

    /// Takes the step from a place to the next one.
    fn step_on(
        &mut self,
        line: &Line,
        carried: &Carried,
        potentials: &Potentials,
        part: Part,
        place: u16,
    ) -> Result<(), AllocError>
        requires setting { IsSetting (setting_of part line.now carried.now potentials.now) }
        requires settling { IsSettling (setting_of part line.now carried.now potentials.now) (state_from self.old) place (IsLeftToTake line.now place 3) }
        ensures resting { OnOk result (IsResting (setting_of part line.now carried.now potentials.now) (state_from self.new)) }
        ensures count { OnOk result (self.new.count ≡ self.old.count) }
    {
        if place + 1 == line.places() {
            return Ok(());
        }
        self.take_step(line, carried, potentials, part, Step::Idle(place))?;
        Ok(())
    }

    /// Takes the steps from a place along the rows on one side. Inlined, so that the side is known at each place.
    #[inline(always)]
    fn take_rows(
        &mut self,
        line: &Line,
        carried: &Carried,
        potentials: &Potentials,
        part: Part,
        place: u16,
        side: Incidence,
    ) -> Result<(), AllocError>
        requires setting { IsSetting (setting_of part line.now carried.now potentials.now) }
        requires settling { IsSettling (setting_of part line.now carried.now potentials.now) (state_from self.old) place
            (IsLeftToTake line.now place (turn_on side)) }
        ensures settling { OnOk result (IsSettlingFrom (setting_of part line.now carried.now potentials.now) (state_from self.new) place (turn_on side + 1)) }
        ensures count { OnOk result (self.new.count ≡ self.old.count) }
    {
        let mut next = line.first_row(place, side);
        while let Some(row) = next {
            self.take_step(line, carried, potentials, part, step_along(row, side))?;
            next = line.next_row(row, side);
        }
        Ok(())
    }
}

/// The step along the arc of a row from the place on one side of it.
fn step_along(row: u16, side: Incidence) -> Step
    requires { row < 65535 }
    ensures { result ≡ row_step side row }
{
    match side {
        Incidence::Leaving => Step::Take(row + 1),
        Incidence::Arriving => Step::Give(row + 1),
    }
}
