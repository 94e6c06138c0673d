//! Calls everything that takes memory, each call again where memory ran out, and prints what it gave. Run with each
//! request for memory refused in turn, it has to print the same: memory that runs out is answered by `Memory` and nothing else, and the same
//! call with memory gives its answer.
#![tactic(auto)]

mod choosing;
mod commanding;
mod reading;
mod running;
mod world;

use crate::world::{Answer, World, world_of};
use bx_devices::{Watched, write_octets};
use std::alloc::Global;
use std::io::Write;
use std::process::ExitCode;

static NAMES: [&str; 29] = [
    "Bookings::push",
    "Bookings::copy",
    "read_octets",
    "read_bookings",
    "read_bookings_from",
    "read_plan",
    "Script::read",
    "Line::of",
    "Carried::empty",
    "Potentials::first",
    "Rounds::from_first",
    "HeapDist::from_first",
    "least_cost",
    "colour",
    "plan",
    "amend",
    "capacity",
    "next_gain",
    "quote",
    "explain",
    "Exchange::new",
    "replay",
    "plan_run",
    "capacity_run",
    "check_self",
    "check_against",
    "write_refused",
    "write_explained",
    "decode",
];

/// Makes the call of this place of the names.
fn made(place: usize, alloc: Global, world: &World) -> Answer {
    match place {
        0 => reading::pushed(alloc, world),
        1 => reading::copied(world),
        2 => reading::octets_read(alloc),
        3 => reading::bookings_read(alloc, world),
        4 => reading::bookings_streamed(alloc, world),
        5 => reading::plan_read(alloc, world),
        6 => reading::script_read(alloc),
        7 => choosing::line_of(alloc, world),
        8 => choosing::nothing_carried(alloc, world),
        9 => choosing::first_potentials(alloc, world),
        10 => choosing::by_rounds(alloc, world),
        11 => choosing::by_heap(alloc, world),
        12 => choosing::least_flow(alloc, world),
        13 => choosing::coloured(alloc, world),
        14 => choosing::planned(alloc, world),
        15 => choosing::amended(alloc, world),
        16 => choosing::earned(alloc, world),
        17 => running::gained(alloc, world),
        18 => running::quoted(alloc, world),
        19 => running::explained(alloc, world),
        20 => running::opened(alloc, world),
        21 => running::replayed(alloc, world),
        22 => commanding::plan_run_done(alloc, world),
        23 => commanding::capacity_told(alloc, world),
        24 => commanding::checked(alloc, world),
        25 => commanding::checked_against(alloc, world),
        26 => commanding::refused_told(alloc, world),
        27 => commanding::row_explained(alloc, world),
        _ => commanding::decoded(alloc),
    }
}

/// Writes the name and the answer.
fn tell<W: Write>(output: &mut Watched<W>, name: &str, answer: Answer) {
    let _ = write_octets(output, name.as_bytes());
    let _ = match answer {
        Answer::Right(number) => writeln!(output, " {number}"),
        Answer::Wrong => writeln!(output, " wrong"),
        Answer::Refused => writeln!(output, " refused twice"),
    };
}

fn main(rt: HostRuntime) -> ExitCode {
    let mut output = Watched::new(rt.stdout());
    let world = match world_of(rt.alloc()) {
        Some(world) => Some(world),
        None => world_of(rt.alloc()),
    };
    let Some(world) = world else {
        return ExitCode::FAILURE;
    };
    for (place, name) in NAMES.iter().enumerate() {
        let answer = match made(place, rt.alloc(), &world) {
            Answer::Refused => made(place, rt.alloc(), &world),
            answer => answer,
        };
        tell(&mut output, name, answer);
    }
    ExitCode::SUCCESS
}
