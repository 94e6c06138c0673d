//! What a day is told where the far end asks for the link anew, releases it, or restarts by a message, in the third second, and where the day
//! was started again.

use crate::wire::{Hears, Manner, MemoryWire};
use bx_frames::{Frame, LinkFault};
use bx_journal::MemoryDisk;
use bx_line_world::{Line, LineWorld};
use bx_live::{Begin, Log, Loss, Schedule, World};
use bx_q931::Octets;
use bx_worked_days::far_end;
use std::alloc::Global;

/// How a second begins, and the fault with which its turn ends, if any.
type Told = (Begin, Option<LinkFault>);

/// A wire: the second in which the far end asks anew, that in which it releases the link, the second and the message that it gives then,
/// whether a message is on its way each time, the moment from which the day goes on, and what the first four seconds are told.
struct Reset {
    name: &'static str,
    anew: u64,
    release: u64,
    gives: (u64, &'static [u8]),
    is_sent: bool,
    from: u32,
    told: [Told; 4],
}

const WHOLE: Told = (Begin::Joined, None);

const LOST: Told = (Begin::Joined, Some(LinkFault::LinkReset));

/// The second after a loss goes by without a link, so that the day asks.
const AWAY: Told = (Begin::Alone, None);

const NOTHING: (u64, &[u8]) = (0, &[]);

const RESTART_OF_ALL: &[u8] = &[8, 2, 0, 0, 0x46, 0x79, 1, 0x87];

const RESTART_OF_ONE: &[u8] = &[8, 2, 0, 0, 0x46, 0x18, 3, 0xA9, 0x83, 0x81, 0x79, 1, 0x80];

static RESETS: [Reset; 8] = [
    Reset {
        name: "neither",
        anew: 0,
        release: 0,
        gives: NOTHING,
        is_sent: true,
        from: 0,
        told: [WHOLE, WHOLE, WHOLE, WHOLE],
    },
    Reset {
        name: "anew, and nothing is on its way",
        anew: 3,
        release: 0,
        gives: NOTHING,
        is_sent: false,
        from: 0,
        told: [WHOLE, WHOLE, LOST, AWAY],
    },
    Reset {
        name: "anew, and a message is",
        anew: 3,
        release: 0,
        gives: NOTHING,
        is_sent: true,
        from: 0,
        told: [WHOLE, WHOLE, LOST, AWAY],
    },
    Reset {
        name: "released",
        anew: 0,
        release: 3,
        gives: NOTHING,
        is_sent: false,
        from: 0,
        told: [WHOLE, WHOLE, LOST, AWAY],
    },
    Reset {
        name: "started again",
        anew: 0,
        release: 0,
        gives: NOTHING,
        is_sent: true,
        from: 5,
        told: [AWAY, WHOLE, WHOLE, WHOLE],
    },
    Reset {
        name: "started again, and anew",
        anew: 3,
        release: 0,
        gives: NOTHING,
        is_sent: false,
        from: 1,
        told: [AWAY, WHOLE, LOST, AWAY],
    },
    Reset {
        name: "the interface is restarted",
        anew: 0,
        release: 0,
        gives: (3, RESTART_OF_ALL),
        is_sent: false,
        from: 0,
        told: [WHOLE, WHOLE, LOST, AWAY],
    },
    Reset {
        name: "one channel is restarted",
        anew: 0,
        release: 0,
        gives: (3, RESTART_OF_ONE),
        is_sent: false,
        from: 0,
        told: [WHOLE, WHOLE, WHOLE, WHOLE],
    },
];

type OnWire = LineWorld<MemoryWire, MemoryDisk>;

/// What a turn ends with in which one message comes, or none.
fn end_of_turn(world: &mut OnWire) -> Result<Frame, LinkFault> {
    match world.read(64)? {
        Frame::Message(_) => world.read(64),
        end => Ok(end),
    }
}

/// A second with its turn, where there is a link, which is dropped at a fault. A message of no call has no answer.
fn second(world: &mut OnWire, second: u32, is_sent: bool) -> Option<Told> {
    let begin = world.begin(second);
    if begin != Begin::Joined {
        return Some((begin, None));
    }
    if is_sent {
        let mut message = Octets::new();
        message.push(0);
        world.write_message(&message).ok()?;
    }
    match end_of_turn(world) {
        Ok(Frame::EndOfTurn(said)) if said == second => Some((begin, None)),
        Ok(_) => None,
        Err(fault) => {
            world.drop_peer(Loss::Fault(fault));
            Some((begin, Some(fault)))
        }
    }
}

/// What four seconds are told.
fn told(alloc: Global, reset: &Reset) -> Option<[Told; 4]> {
    let manner = Manner {
        loss: 0,
        seed: 1,
        cut: (0, 0),
        anew: reset.anew,
        release: reset.release,
        gives: reset.gives,
        flood: (0, 0),
        jump: None,
        hears: Hears::Rehearsed,
    };
    let wire = MemoryWire::new(alloc, far_end(alloc)?, manner);
    let line = Line::new(true, wire).going_on(reset.from);
    let mut world = LineWorld::new(Schedule::new(0, 1), line, Log { disk: None });
    Some([
        second(&mut world, 1, reset.is_sent)?,
        second(&mut world, 2, reset.is_sent)?,
        second(&mut world, 3, reset.is_sent)?,
        second(&mut world, 4, reset.is_sent)?,
    ])
}

#[test]
fn resets_are_told(rt: HostRuntime) {
    for reset in &RESETS {
        assert!(rt;
            told(rt.alloc(), reset) == Some(reset.told),
            "{}",
            reset.name
        );
    }
}
