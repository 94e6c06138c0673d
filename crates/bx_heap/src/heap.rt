//! Distances by a heap of places.

ghost use Rattle.bx_heap.specs.Searching.{state_from, ArePointers, IsTrail};
ghost use Rattle.std.specs.Prelude.{◌≡◌, IfOk};

use crate::frontier::Frontier;
use bx_dist::{Carried, Dist, Distances, Part, Potentials, Step, ends_of};
use bx_line::Line;
use std::alloc::{AllocError, Global};

/// Settles the places one after another, the nearest by reduced lengths first (E. W. Dijkstra, A note on two problems
/// in connexion with graphs, 1959, with feasible potentials as J. Edmonds and R. M. Karp, 1972), each once. Places that are as
/// near as the last one wait in a stack, and only the others in a heap.
#[derive(Clone, Copy, Debug)]
pub struct HeapDist;

impl Distances for HeapDist {
    fn from_first(
        &self,
        alloc: Global,
        line: &Line,
        carried: &Carried,
        potentials: &Potentials,
        part: Part,
    ) -> Result<Dist, AllocError> {
        // Read for the prover alone, which learns a limit from it.
        let _small = potentials.at(0);
        let mut front = Frontier::new(alloc, line, potentials)?;
        while front.count < line.places() {
            let Some(place) = front.next(potentials)? else {
                unreachable!();
            };
            front.settle(line, carried, potentials, part, place)?;
        }
        let walk = front.walk_back(alloc, line)?;
        Ok(Dist::new(front.into_lengths(), walk))
    }
}

impl Frontier {
    /// The last steps from the last place back to the first, in the order in which they lead there.
    fn walk_back(&self, alloc: Global, line: &Line) -> Result<Vec<Step>, AllocError>
        requires { ArePointers line.now (state_from self.now) }
        ensures { IfOk result (λ v. IsTrail line.now (state_from self.now) 0 v.items) }
    {
        let mut walk = Vec::new(alloc);
        let mut place = line.places() - 1;
        while place != 0 {
            let step = self.last[place as usize];
            walk.push(step)?;
            place = ends_of(line, step).0;
        }
        walk.reverse();
        Ok(walk)
    }

    /// The lengths alone.
    fn into_lengths(self) -> Vec<i64>
        ensures { result ≡ self.lengths }
    {
        let Frontier {
            lengths,
            last: _,
            ranks: _,
            count: _,
            level: _,
            tight: _,
            fresh: _,
            waiting: _,
        } = self;
        lengths
    }
}
