//! What follows a journal in the tests: it writes down what happens.

use arrayvec::ArrayVec;
use bx_calls::Rules;
use bx_devices::Watched;
use bx_journal::{Amendment, Follower, JournalFault, LoggedEvent, Wanted, read_journal};
use std::io::Read;

/// A letter for each event: `t` is a second on the link, `d` one without a link, `e` one by the older rules; and after `h`, of what came,
/// `o`, of what came by the older rules, `s`, of what was sold, `r`, of what was sold by the older rules, `x`, of what was cancelled, `c`, of
/// what was changed, `w`, of what waits, `g`, of what the exchange gave up, and `l`, of a channel that was lost, the octets and a full stop.
#[derive(Drop)]
pub struct Told {
    pub marks: ArrayVec<u8, 256>,
}

/// Writes down what has room.
pub fn mark(marks: &mut ArrayVec<u8, 256>, octets: &[u8]) {
    for octet in octets {
        let _ = marks.try_push(*octet);
    }
}

/// The letter of what amends the plan so.
fn letter(kind: Amendment) -> u8 {
    match kind {
        Amendment::Sold => b's',
        Amendment::Cancelled => b'x',
        Amendment::Changed => b'c',
        Amendment::SoldByRulesTwo => b'r',
        Amendment::Delayed => b'w',
        Amendment::Dropped => b'g',
        Amendment::Out => b'l',
    }
}

impl Follower for Told {
    ghost followed = { λ s events t. Unit {0} };

    fn follow(&mut self, event: &LoggedEvent) {
        match event {
            LoggedEvent::Tick => mark(&mut self.marks, b"t"),
            LoggedEvent::Heard(octets) => {
                mark(&mut self.marks, b"h");
                mark(&mut self.marks, octets);
                mark(&mut self.marks, b".");
            }
            LoggedEvent::Down(Rules::Three) => mark(&mut self.marks, b"d"),
            LoggedEvent::Down(Rules::Two) => mark(&mut self.marks, b"e"),
            LoggedEvent::Amended(kind, text) => {
                mark(&mut self.marks, &[letter(*kind)]);
                mark(&mut self.marks, text);
                mark(&mut self.marks, b".");
            }
            LoggedEvent::HeardByRulesTwo(octets) => {
                mark(&mut self.marks, b"o");
                mark(&mut self.marks, octets);
                mark(&mut self.marks, b".");
            }
        }
    }

    ghost follows_none = { λ s. tt };

    ghost follows_on = { λ s t u xs ys p q. tt };
}

/// What is read of a device, and what happened.
#[derive(Drop)]
pub struct WasRead {
    pub answer: Result<u64, JournalFault>,
    pub marks: ArrayVec<u8, 256>,
}

/// Reads the journal that is wanted.
pub fn reading<R: Read + Drop>(device: R, wanted: &Wanted) -> WasRead {
    let mut device = Watched::new(device);
    let mut told = Told {
        marks: ArrayVec::new(),
    };
    let answer = read_journal(&mut device, wanted, &mut told);
    let Told { marks } = told;
    WasRead { answer, marks }
}
