//! Tests of what goes between the two ends: frames, turns and sessions, and captures of them; and days in memory: live ones over a data link
//! whose wire loses frames, is cut and asks for the link anew, rehearsals, clocks that jump and disks that fail.
#![tactic(auto)]

mod journal;
mod letters;
mod memory_world;

pub use journal::{Journal, Mark};
pub use letters::LetterDisk;
pub use memory_world::{MemoryWorld, Scene};

#[cfg(test)]
mod amendments;
#[cfg(test)]
mod both_ends;
#[cfg(test)]
mod capture_starts;
#[cfg(test)]
mod captured_days;
#[cfg(test)]
mod captured_octets;
#[cfg(test)]
mod closed_sessions;
#[cfg(test)]
mod engines;
#[cfg(test)]
mod failing_days;
#[cfg(test)]
mod failing_far_turns;
#[cfg(test)]
mod far_turn_endings;
#[cfg(test)]
mod floods;
#[cfg(test)]
mod frames;
#[cfg(test)]
mod line_days;
#[cfg(test)]
mod live_days;
#[cfg(test)]
mod printed_faults;
#[cfg(test)]
mod prompt_answers;
#[cfg(test)]
mod rehearsals;
#[cfg(test)]
mod resets;
#[cfg(test)]
mod together;
#[cfg(test)]
mod torn_days;
#[cfg(test)]
mod turn_endings;
#[cfg(test)]
mod udp_wires;
#[cfg(test)]
mod wire;
