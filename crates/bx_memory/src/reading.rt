//! The calls that read, and the list of bookings.

use crate::world::{Answer, BOOKINGS, World};
use bx_base::{AddFault, Bookings};
use bx_book::{BookFault, StreamFault, read_bookings, read_bookings_from};
use bx_devices::{ReadFault, Watched, read_octets};
use bx_far::{Script, ScriptFault};
use bx_planfile::{PlanTextFault, read_plan};
use std::alloc::Global;

/// Five bookings one by one; a refused one leaves the list as it was.
pub fn pushed(alloc: Global, world: &World) -> Answer {
    let mut bookings = Bookings::new(alloc);
    for row in 1..6u16 {
        let Some(booking) = world.bookings.get(row) else {
            return Answer::Wrong;
        };
        match bookings.push(booking) {
            Ok(()) => {}
            Err(AddFault::Memory) if bookings.len() + 1 == row => return Answer::Refused,
            Err(_) => return Answer::Wrong,
        }
    }
    Answer::Right(u64::from(bookings.len()))
}

pub fn copied(world: &World) -> Answer {
    match world.bookings.copy() {
        Ok(copy) if copy.same(&world.bookings) => Answer::Right(u64::from(copy.len())),
        Ok(_) => Answer::Wrong,
        Err(_) => Answer::Refused,
    }
}

pub fn octets_read(alloc: Global) -> Answer {
    match read_octets(alloc, &mut Watched::new(BOOKINGS)) {
        Ok(octets) => Answer::Right(octets.len() as u64),
        Err(ReadFault::Memory) => Answer::Refused,
        Err(_) => Answer::Wrong,
    }
}

pub fn bookings_read(alloc: Global, world: &World) -> Answer {
    match read_bookings(alloc, BOOKINGS, &world.day) {
        Ok(bookings) => Answer::Right(u64::from(bookings.len())),
        Err(BookFault::Memory) => Answer::Refused,
        Err(_) => Answer::Wrong,
    }
}

pub fn bookings_streamed(alloc: Global, world: &World) -> Answer {
    let mut input = Watched::new(BOOKINGS);
    match read_bookings_from(alloc, &mut input, &world.day) {
        Ok(bookings) if bookings.same(&world.bookings) => Answer::Right(u64::from(bookings.len())),
        Err(StreamFault::Memory) if !input.faulted() => Answer::Refused,
        _ => Answer::Wrong,
    }
}

pub fn plan_read(alloc: Global, world: &World) -> Answer {
    match read_plan(alloc, &world.text) {
        Ok(plan) if plan.bookings.same(&world.bookings) => Answer::Right(plan.total),
        Err(PlanTextFault::Memory) => Answer::Refused,
        _ => Answer::Wrong,
    }
}

pub fn script_read(alloc: Global) -> Answer {
    let octets = b"number,policy,seconds\n4930113,busy,0\n*,answer,3\n";
    match Script::read(alloc, octets) {
        Ok(_) => Answer::Right(2),
        Err(ScriptFault::Memory) => Answer::Refused,
        Err(_) => Answer::Wrong,
    }
}
