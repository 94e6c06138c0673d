//! The commands over readers and writers. Where memory runs out the output has to stay empty.

use crate::world::{Answer, BOOKINGS, World};
use bx_book::StreamFault;
use bx_check::check;
use bx_check_commands::{CommandFault, check_against, check_self, decode};
use bx_devices::Watched;
use bx_plan_commands::{CapacityFault, RunFault, capacity_run, plan_run};
use bx_planner::{NoQuote, QuoteFault, write_explained, write_refused};
use std::alloc::Global;

/// A writer that has room for all that is written here, and does not grow.
fn output_of(alloc: Global) -> Option<Watched<Vec<u8>>> {
    match Vec::with_capacity(alloc, 4096) {
        Ok(room) => Some(Watched::new(room)),
        Err(_) => None,
    }
}

/// What was written, by its length, where the call was done; nothing, where memory ran out.
fn answer_of(output: Watched<Vec<u8>>, is_done: bool) -> Answer {
    let written = output.into_inner().len() as u64;
    if is_done {
        return Answer::Right(written);
    }
    if written > 0 {
        return Answer::Wrong;
    }
    Answer::Refused
}

pub fn plan_run_done(alloc: Global, world: &World) -> Answer {
    let Some(mut output) = output_of(alloc) else {
        return Answer::Refused;
    };
    let mut input = Watched::new(BOOKINGS);
    match plan_run(alloc, &mut input, &mut output, &world.day, world.channels) {
        Ok(_) => answer_of(output, true),
        Err(RunFault::Memory) => answer_of(output, false),
        Err(_) => Answer::Wrong,
    }
}

pub fn capacity_told(alloc: Global, world: &World) -> Answer {
    let Some(mut output) = output_of(alloc) else {
        return Answer::Refused;
    };
    let mut input = Watched::new(BOOKINGS);
    match capacity_run(alloc, &mut input, &mut output, &world.day) {
        Ok(()) => answer_of(output, true),
        Err(CapacityFault::Memory | CapacityFault::Unread(StreamFault::Memory)) => {
            answer_of(output, false)
        }
        Err(_) => Answer::Wrong,
    }
}

pub fn checked(alloc: Global, world: &World) -> Answer {
    let Some(mut output) = output_of(alloc) else {
        return Answer::Refused;
    };
    let mut input = Watched::new(world.text.as_slice());
    match check_self(alloc, &mut input, &mut output) {
        Ok(_) => answer_of(output, true),
        Err(CommandFault::Memory) => answer_of(output, false),
        Err(_) => Answer::Wrong,
    }
}

pub fn checked_against(alloc: Global, world: &World) -> Answer {
    let Some(mut output) = output_of(alloc) else {
        return Answer::Refused;
    };
    let mut input = Watched::new(world.text.as_slice());
    match check_against(
        alloc,
        "plan.txt",
        &world.bookings,
        world.channels,
        &mut input,
        &mut output,
    ) {
        Ok(_) => answer_of(output, true),
        Err(CommandFault::Memory) => answer_of(output, false),
        Err(_) => Answer::Wrong,
    }
}

pub fn refused_told(alloc: Global, world: &World) -> Answer {
    let Some(mut output) = output_of(alloc) else {
        return Answer::Refused;
    };
    if check(&world.plan.bookings, world.plan.channels, &world.plan).is_err() {
        return Answer::Wrong;
    }
    match write_refused(alloc, &world.plan, &mut output) {
        Ok(()) => answer_of(output, true),
        Err(QuoteFault::Quote(NoQuote::Memory)) => answer_of(output, false),
        Err(_) => Answer::Wrong,
    }
}

pub fn row_explained(alloc: Global, world: &World) -> Answer {
    let Some(mut output) = output_of(alloc) else {
        return Answer::Refused;
    };
    if check(&world.plan.bookings, world.plan.channels, &world.plan).is_err() {
        return Answer::Wrong;
    }
    match write_explained(alloc, &world.plan, 2, &mut output) {
        Ok(()) => answer_of(output, true),
        Err(QuoteFault::Quote(NoQuote::Memory)) => answer_of(output, false),
        Err(_) => Answer::Wrong,
    }
}

pub fn decoded(alloc: Global) -> Answer {
    let Some(mut output) = output_of(alloc) else {
        return Answer::Refused;
    };
    match decode(alloc, "080280015A08028091", &mut output) {
        Ok(()) => answer_of(output, true),
        Err(CommandFault::Memory) => answer_of(output, false),
        Err(_) => Answer::Wrong,
    }
}
