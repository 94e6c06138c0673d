//! The exchange or the far end, as what it sends.

use arrayvec::ArrayVec;
use bx_day::Exchange;
use bx_far::Far;
use bx_q931::Octets;

/// The exchange or the far end.
pub trait DayEnd {
    /// The second of its day.
    fn now(&self) -> u32;

    /// The messages of the next second.
    fn next_second(&mut self) -> ArrayVec<Octets, 30>;

    /// What is answered to these octets.
    fn hear(&mut self, octets: &[u8]) -> Option<Octets>;
}

impl DayEnd for Exchange {
    fn now(&self) -> u32 {
        self.moment()
    }

    fn next_second(&mut self) -> ArrayVec<Octets, 30> {
        self.tick()
    }

    fn hear(&mut self, octets: &[u8]) -> Option<Octets> {
        self.receive(octets)
    }
}

impl DayEnd for Far {
    fn now(&self) -> u32 {
        self.moment()
    }

    fn next_second(&mut self) -> ArrayVec<Octets, 30> {
        self.tick()
    }

    fn hear(&mut self, octets: &[u8]) -> Option<Octets> {
        self.receive(octets)
    }
}

/// A step that is a second.
pub const TICK: &[u8] = &[];

/// Lets a second go by for each tick, and brings the octets of each other step.
pub fn goes_through<E: DayEnd>(end: &mut E, steps: &[&[u8]]) {
    for step in steps {
        if step.is_empty() {
            let _sent = end.next_second();
        } else {
            let _reply = end.hear(step);
        }
    }
}

/// Whether these messages are, one by one, these octets.
pub fn are_same(sent: &[Octets], expected: &[&[u8]]) -> bool {
    let mut same = sent.len() == expected.len();
    for (octets, message) in sent.iter().zip(expected) {
        same &= octets.as_slice() == *message;
    }
    same
}
