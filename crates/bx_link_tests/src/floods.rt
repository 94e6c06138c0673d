//! Days of 20 seconds on which the far end sends more in a second than one takes: the rest waits, and nothing is lost.

use crate::wire::{Hears, Manner, MemoryWire};
use bx_day::Outcome;
use bx_journal::MemoryDisk;
use bx_line_world::{Line, LineWorld, run_by_line};
use bx_live::{Log, Schedule};
use bx_worked_days::{Row, exchange_of, far_end};
use std::alloc::Global;

static ROWS: [Row; 1] = [(2, 8, 1, false)];

/// How many messages of 260 octets the far end has to send from second 3 on, how many of them and of those of its call were heard, the
/// most in one second, and the seconds without a link.
static FLOODS: [(&'static str, u32, u32, u32, u32); 3] = [
    ("none", 0, 2, 1, 0),
    ("what one second takes", 30, 32, 31, 0),
    ("seven seconds of them", 200, 202, 31, 0),
];

/// What was heard in a day, the most in one second, and its seconds without a link.
#[derive(Clone, Copy, Debug, Default, PartialEq, Eq)]
struct Heard {
    all: u32,
    most: u32,
    here: u32,
    without_link: u32,
}

impl Heard {
    /// One more line of the journal, by its first letter.
    fn line(&mut self, letter: u8) {
        match letter {
            b't' => self.here = 0,
            b'd' => self.without_link = self.without_link.saturating_add(1),
            b'h' => {
                self.all = self.all.saturating_add(1);
                self.here = self.here.saturating_add(1);
                self.most = self.most.max(self.here);
            }
            _ => {}
        }
    }
}

fn heard_in(journal: &[u8]) -> Heard {
    let mut heard = Heard::default();
    for line in journal.split(|octet| *octet == b'\n') {
        if let Some(letter) = line.first() {
            heard.line(*letter);
        }
    }
    heard
}

fn run(alloc: Global, count: u32) -> Option<(Heard, Outcome)> {
    let mut exchange = exchange_of(alloc, &ROWS)?;
    let manner = Manner {
        loss: 0,
        seed: 1,
        cut: (0, 0),
        anew: 0,
        release: 0,
        gives: (0, &[]),
        flood: (3, count),
        jump: None,
        hears: Hears::Rehearsed,
    };
    let wire = MemoryWire::new(alloc, far_end(alloc)?, manner);
    let log = Log {
        disk: Some(MemoryDisk::new(alloc, Vec::new(alloc))),
    };
    let mut world = LineWorld::new(Schedule::new(0, 1), Line::new(true, wire), log);
    run_by_line(&mut exchange, &mut world, 20).ok()?;
    Some((heard_in(world.log.disk?.octets()), exchange.outcome(1)?))
}

#[test]
fn what_is_beyond_waits(rt: HostRuntime) {
    for (name, count, all, most, without_link) in &FLOODS {
        let ran = run(rt.alloc(), *count);
        assert!(rt;
            matches!(
                &ran,
                Some((heard, Outcome::Carried { from: 3, until: 8 }))
                    if heard.all == *all && heard.most == *most && heard.without_link == *without_link
            ),
            "{name}: {ran:?}"
        );
    }
}
