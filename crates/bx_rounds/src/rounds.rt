//! Distances by rounds over all steps.

use crate::circle::next_in;
use crate::marks::least_walk;
use crate::steps::open_steps;
use bx_dist::{Carried, Dist, Distances, Part, Potentials, shorten};
use bx_line::Line;
use std::alloc::{AllocError, Global};

/// Goes over all steps, those onward in the order of the places and then those back, again and again until none shortens
/// anything: Bellman-Ford (R. Bellman, On a routing problem, 1958; L. R. Ford, Network flow theory, 1956). On a flow that
/// carries nothing, one round does it.
#[derive(Clone, Copy, Debug)]
pub struct Rounds;

impl Distances for Rounds {
    fn from_first(
        &self,
        alloc: Global,
        line: &Line,
        carried: &Carried,
        potentials: &Potentials,
        part: Part,
    ) -> Result<Dist, AllocError> {
        let steps = open_steps(alloc, line, carried, part)?;
        // Read for the prover alone, which learns a limit from it.
        let _small = potentials.at(0);
        let mut lengths = vec![in alloc; 0; line.places() as usize]?;
        let mut at = 0;
        let mut settled = 0;
        while settled < steps.len() {
            if shorten(&mut lengths, line, steps[at]) {
                settled = 0;
            } else {
                settled += 1;
            }
            at = next_in(at, steps.len());
        }
        let walk = least_walk(alloc, line, &steps, &lengths)?;
        Ok(Dist::new(lengths, walk))
    }
}
