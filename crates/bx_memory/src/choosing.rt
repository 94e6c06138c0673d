//! The calls that plan.

use crate::world::{Answer, World};
use bx_base::Bookings;
use bx_colour::{colour, fits};
use bx_dist::{Carried, Dist, Distances, Part, Potentials};
use bx_flow::least_cost;
use bx_heap::HeapDist;
use bx_line::Line;
use bx_planner::{Earning, NoAmendment, NoPlan, amend, capacity, plan};
use bx_rounds::Rounds;
use std::alloc::{AllocError, Global};

/// The answer of a call that refuses for memory alone.
fn summed(given: Result<u64, AllocError>) -> Answer {
    match given {
        Ok(number) => Answer::Right(number),
        Err(_) => Answer::Refused,
    }
}

fn places_of(alloc: Global, world: &World) -> Result<u64, AllocError> {
    let line = Line::of(alloc, &world.bookings)?;
    Ok(u64::from(line.places()))
}

pub fn line_of(alloc: Global, world: &World) -> Answer {
    summed(places_of(alloc, world))
}

fn units_of_none(alloc: Global, world: &World) -> Result<u64, AllocError> {
    let line = Line::of(alloc, &world.bookings)?;
    let nothing = Carried::empty(alloc, &line)?;
    Ok(u64::from(nothing.units()))
}

pub fn nothing_carried(alloc: Global, world: &World) -> Answer {
    summed(units_of_none(alloc, world))
}

fn last_of_first(alloc: Global, world: &World) -> Result<u64, AllocError> {
    let line = Line::of(alloc, &world.bookings)?;
    let first = Potentials::first(alloc, &line)?;
    Ok(first.at(line.places().saturating_sub(1)).unsigned_abs())
}

pub fn first_potentials(alloc: Global, world: &World) -> Answer {
    summed(last_of_first(alloc, world))
}

/// How far the last place of the line is from the first.
fn distance_by<D: Distances>(
    alloc: Global,
    world: &World,
    distances: &D,
) -> Result<Option<u64>, AllocError> {
    let line = Line::of(alloc, &world.bookings)?;
    let nothing = Carried::empty(alloc, &line)?;
    let first = Potentials::first(alloc, &line)?;
    if line.places() == 0 || !nothing.belongs_to(&line) || !first.fits(&line, &nothing) {
        return Ok(None);
    }
    let found: Dist = distances.from_first(alloc, &line, &nothing, &first, Part::Whole)?;
    Ok(Some(found.length(line.places() - 1).unsigned_abs()))
}

fn distance(given: Result<Option<u64>, AllocError>) -> Answer {
    match given {
        Ok(Some(number)) => Answer::Right(number),
        Ok(None) => Answer::Wrong,
        Err(_) => Answer::Refused,
    }
}

pub fn by_rounds(alloc: Global, world: &World) -> Answer {
    distance(distance_by(alloc, world, &Rounds))
}

pub fn by_heap(alloc: Global, world: &World) -> Answer {
    distance(distance_by(alloc, world, &HeapDist))
}

fn units_of_least(alloc: Global, world: &World) -> Result<u64, AllocError> {
    let line = Line::of(alloc, &world.bookings)?;
    let (carried, _) = least_cost(alloc, &line, 2, &HeapDist)?;
    Ok(u64::from(carried.units()))
}

pub fn least_flow(alloc: Global, world: &World) -> Answer {
    summed(units_of_least(alloc, world))
}

pub fn coloured(alloc: Global, world: &World) -> Answer {
    let accepted = [false, false, true, true, true];
    if !fits(&world.bookings, &accepted, world.channels) {
        return Answer::Wrong;
    }
    match colour(alloc, &world.bookings, &accepted, world.channels) {
        Ok(given) => Answer::Right(given.len() as u64),
        Err(_) => Answer::Refused,
    }
}

pub fn planned(alloc: Global, world: &World) -> Answer {
    match plan(alloc, &world.bookings, world.channels) {
        Ok(plan) => Answer::Right(plan.total),
        Err(NoPlan::Memory) => Answer::Refused,
        Err(_) => Answer::Wrong,
    }
}

/// With nothing more, what the plan accepts is accepted again.
pub fn amended(alloc: Global, world: &World) -> Answer {
    let more = Bookings::new(alloc);
    match amend(alloc, &world.plan, &more) {
        Ok(plan) => Answer::Right(plan.total),
        Err(NoAmendment::Memory) => Answer::Refused,
        Err(_) => Answer::Wrong,
    }
}

/// What all channels earn, the last of the counts.
pub fn earned(alloc: Global, world: &World) -> Answer {
    match capacity(alloc, &world.bookings) {
        Ok(earnings) => match earnings.last() {
            Some(Earning::Most { total, .. }) => Answer::Right(*total),
            _ => Answer::Wrong,
        },
        Err(_) => Answer::Refused,
    }
}
