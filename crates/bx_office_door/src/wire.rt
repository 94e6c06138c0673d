//! A wire with the door beside it.

ghost use Rattle.std.specs.Prelude.{◌≡◌, ◌≤◌, ◌∷◌, [], ℕ, List, Option, None, IfSome, length};
ghost use Rattle.bx_line_world.specs.Wires.{WireAct, Waited, came_in};
ghost use Rattle.bx_office_door.specs.Attending.{DidBeside};
ghost use Rattle.bx_office_door.specs.Inside.{beside_nothing, beside_more};
ghost use Rattle.bx_office_door.specs.Sliced.{slice_at_once};
ghost use Rattle.bx_office_door.specs.Hearing.{is_heard};

use crate::shared::{Lends, attend};
use bx_line_world::Wire;

/// A slice of a wait for a frame, after which the door is looked at again, in nanoseconds.
const SLICE: u64 = 10_000_000;

/// How long after a frame the other end counts as heard, in nanoseconds: on a link that is idle each end is asked after 10 seconds.
const HEARD: u128 = 15_000_000_000;

/// How long a frame is waited for at once. A system lengthens what it is given by some milliseconds, so the last two slices are one wait: it
/// ends when a wait without a door would.
fn slice_of(wait: u64) -> u64
    ensures { result ≡ slice_at_once wait }
{
    if wait <= 2 * SLICE { wait } else { SLICE }
}

/// A wire, and a door that is attended while a frame is waited for.
#[derive(Drop)]
pub struct OfficeWire<W, S> {
    pub wire: W,
    door: S,
    /// What the clock showed last.
    shown: u128,
    /// What it showed when the last frame came.
    heard: Option<u128>,
}

/// Whether a frame has come of late, by what the clock shows now.
fn is_heard(heard: Option<u128>, shown: u128) -> bool
    ensures { result ≡ is_heard heard shown }
{
    match heard {
        Some(heard) => shown.saturating_sub(heard) <= HEARD,
        None => false,
    }
}

impl<W, S> OfficeWire<W, S> {
    /// The wire, with this door beside it. Whoever answers at the door has it too.
    pub fn new(wire: W, door: S) -> Self
        ensures wire { result.wire ≡ wire }
        ensures door { result.door ≡ door }
        ensures clock { (result.shown ≡ 0) × (result.heard ≡ None) }
    {
        OfficeWire {
            wire,
            door,
            shown: 0,
            heard: None,
        }
    }
}

impl<W: Wire, S: Lends> Wire for OfficeWire<W, S> {
    ghost did = { λ s acts t. DidBeside W.did S.lent s acts t };

    fn shown(&mut self) -> u128 {
        self.shown = self.wire.shown();
        self.shown
    }

    fn send(&mut self, octets: &[u8]) {
        self.wire.send(octets);
    }

    /// Attends the door, and waits for one slice of the time. Whoever waits for more looks at the clock, and calls again.
    fn receive(&mut self, room: &mut [u8], wait: u64) -> Option<usize> {
        let is_heard = is_heard(self.heard, self.shown);
        attend(&mut self.door, self.shown, is_heard);
        let came = self.wire.receive(room, slice_of(wait));
        if came.is_some() {
            self.heard = Some(self.shown);
        }
        came
    }

    ghost did_nothing = { λ s. beside_nothing W.did S.lent W.did_nothing s };

    ghost did_more = { λ s t u xs ys p q. beside_more W.did S.lent W.did_more s t u xs ys p q };
}
