//! Drawn lists of events: messages are lost, repeated, delayed and reordered, links are lost, and calls given up without
//! an answer leave channels in maintenance at either end.

use crate::agreement::agree;
use crate::two_ends::{Ends, Event, opened};
use bx_calls::CallState;
use bx_cases::SHARE;
use bx_channels::Channel;
use bx_worked_days::Row;
use std::alloc::Global;
use std::test::Fail;

/// Three channels, outward and inward bookings on each.
const ROWS: [Row; 9] = [
    (1, 60, 1, false),
    (0, 50, 2, true),
    (2, 40, 3, false),
    (45, 100, 3, true),
    (65, 110, 1, false),
    (50, 90, 2, false),
    (95, 140, 2, true),
    (115, 150, 1, true),
    (105, 150, 3, false),
];

/// The number of each booking.
static NUMBERS: [&[u8]; 9] = [b"1", b"2", b"3", b"4", b"5", b"6", b"7", b"8", b"9"];

const SCRIPT: &str =
    "number,policy,seconds,channel\n1,answer,0,\n3,answer,4,\n5,clear,9,\n6,alert,0,\n9,answer,0,\n1,call,3,2\n1,call,47,3\n1,call,60,2\n1,call,96,2\n1,call,116,1\n1,call,130,2\n";

/// How many lists are drawn, and how many events each has.
const LISTS: u32 = 200;

const EVENTS: u32 = 600;

/// A linear congruential generator (D. H. Lehmer, 1951) modulo 2^32, whose high bits are taken.
#[derive(Drop)]
struct Generator {
    state: u32,
    line: Line,
}

/// The line carries both ways, one way, or not at all.
#[derive(Clone, Copy, PartialEq)]
enum Line {
    Whole,
    ToFarOnly,
    ToExchangeOnly,
    Cut,
}

impl Generator {
    fn draw(&mut self) -> u32 {
        self.state = self
            .state
            .wrapping_mul(1_664_525)
            .wrapping_add(1_013_904_223);
        self.state >> 12
    }

    /// One of the last four messages of so many, and at times any.
    fn index(&mut self, count: usize) -> usize {
        let drawn = self.draw() as usize;
        if self.draw() % 8 == 0 {
            drawn % count.max(1)
        } else {
            count.saturating_sub(1 + drawn % 4)
        }
    }

    /// The line stays as it is for some hundred events.
    fn change_line(&mut self) {
        if self.draw() % 128 == 0 {
            self.line = match self.draw() % 8 {
                0 | 1 => Line::ToFarOnly,
                2 | 3 => Line::ToExchangeOnly,
                4 => Line::Cut,
                _ => Line::Whole,
            };
        }
    }

    fn event(&mut self, ends: &Ends) -> Event {
        self.change_line();
        match (self.draw() % 16, self.line) {
            (0..=3, Line::Whole | Line::ToExchangeOnly) => {
                Event::ToExchange(self.index(ends.far_sent.len()))
            }
            (4..=7, Line::Whole | Line::ToFarOnly) => Event::ToFar(self.index(ends.sent.len())),
            (drawn, Line::Cut) if drawn % 2 == 0 => Event::WithoutLink,
            (drawn, Line::Cut) if drawn % 4 == 1 => Event::FarWithoutLink,
            (drawn, _) if drawn % 2 == 0 => Event::TickExchange,
            _ => Event::TickFar,
        }
    }
}

/// What came about at some point of some list.
#[derive(Clone, Copy, PartialEq, Debug)]
struct Seen {
    outward_active: bool,
    inward_active: bool,
    maintenance: bool,
    far_maintenance: bool,
}

const NOTHING: Seen = Seen {
    outward_active: false,
    inward_active: false,
    maintenance: false,
    far_maintenance: false,
};

const ALL: Seen = Seen {
    outward_active: true,
    inward_active: true,
    maintenance: true,
    far_maintenance: true,
};

/// Looks at a channel.
fn look(ends: &Ends, channel: Channel, seen: &mut Seen) {
    if let Some((row, CallState::Active)) = ends.exchange.on_channel(channel) {
        let inward = matches!(row, 2 | 4 | 7 | 8);
        seen.inward_active |= inward;
        seen.outward_active |= !inward;
    }
    seen.maintenance |= ends.exchange.in_maintenance(channel);
    seen.far_maintenance |= ends.far.in_maintenance(channel);
}

/// Whether the ends agree at each point of a list of this generator.
fn all_agree(ends: &mut Ends, generator: &mut Generator, seen: &mut Seen) -> bool {
    for _ in 0..EVENTS {
        let event = generator.event(ends);
        if ends.happens(event).is_err() || !agree(ends, &ROWS) {
            return false;
        }
        for number in 1..4 {
            if let Some(channel) = Channel::new(number) {
                look(ends, channel, seen);
            }
        }
    }
    true
}

/// Draws a list, and refuses one on which the ends do not agree.
fn drawn(alloc: Global, list: u32, seen: &mut Seen) -> Result<(), Fail> {
    let mut ends = opened(alloc, &ROWS, &NUMBERS, SCRIPT).ok_or("opening")?;
    let mut generator = Generator {
        state: list,
        line: Line::Whole,
    };
    if all_agree(&mut ends, &mut generator, seen) {
        Ok(())
    } else {
        Err(Fail::new(list))
    }
}

#[test]
fn drawn_lists_agree(rt: HostRuntime) -> Result<(), Fail> {
    let mut seen = NOTHING;
    for list in 0..LISTS / SHARE {
        drawn(rt.alloc(), list, &mut seen)?;
    }
    assert_eq!(rt; seen, ALL, "what came about");
    Ok(())
}
