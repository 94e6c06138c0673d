//! When the far end answers a call that it is offered: on a live line, and in a rehearsal.

use crate::frames::{CONNECT, END_OF_TURN, OPENED};
use crate::memory_world::{MemoryWorld, Scene};
use crate::wire::{Hears, Manner, MemoryWire};
use bx_calls::CallState;
use bx_channels::Channel;
use bx_day::Outcome;
use bx_devices::Watched;
use bx_journal::MemoryDisk;
use bx_line_world::{Line, LineWorld, run_by_line};
use bx_link::{FarSession, run_far_live};
use bx_live::{Begin, Log, Schedule};
use bx_worked_days::{Row, exchange_of, far_end, far_of};
use std::alloc::Global;

const SECOND_TURN: &[u8] = &[2, 0, 4, 0, 0, 0, 2];

const THIRD_TURN: &[u8] = &[2, 0, 4, 0, 0, 0, 3];

/// CONNECT without the channel, as it follows ALERTING.
const LATER_CONNECT: &[u8] = &[1, 0, 5, 8, 2, 0x80, 1, 7];

const ALERTING: &[u8] = &[1, 0, 0xA, 8, 2, 0x80, 1, 1, 0x18, 3, 0xA9, 0x83, 0x81];

const CALL_PROCEEDING: &[u8] = &[1, 0, 0xA, 8, 2, 0x80, 1, 2, 0x18, 3, 0xA9, 0x83, 0x81];

/// RELEASE COMPLETE with cause 17, user busy.
const BUSY: &[u8] = &[1, 0, 9, 8, 2, 0x80, 1, 0x5A, 8, 2, 0x80, 0x91];

/// The exchange offers a call in the first of five turns, and says no more.
static SECONDS: [Scene; 5] = [
    Scene {
        begin: Begin::Joined,
        input: OPENED,
    },
    Scene {
        begin: Begin::Joined,
        input: SECOND_TURN,
    },
    Scene {
        begin: Begin::Joined,
        input: THIRD_TURN,
    },
    Scene {
        begin: Begin::Joined,
        input: &[2, 0, 4, 0, 0, 0, 4],
    },
    Scene {
        begin: Begin::Joined,
        input: &[2, 0, 4, 0, 0, 0, 5],
    },
];

/// What is tried, the script, what the far end writes in the first second of a live line, on which it ticks before it hears, and in two
/// seconds more; and what it writes in three turns of a rehearsal, in which it hears before it ticks.
type Answers = (
    &'static str,
    &'static str,
    &'static [&'static [u8]],
    &'static [&'static [u8]],
    &'static [&'static [u8]],
);

static ANSWERS: [Answers; 8] = [
    (
        "answered in the second of the SETUP",
        "number,policy,seconds\n*,answer,0\n",
        &[END_OF_TURN, CONNECT],
        &[SECOND_TURN, THIRD_TURN],
        &[CONNECT, END_OF_TURN, SECOND_TURN, THIRD_TURN],
    ),
    (
        "no row fits",
        "number,policy,seconds\n5,busy,0\n",
        &[END_OF_TURN, CONNECT],
        &[SECOND_TURN, THIRD_TURN],
        &[CONNECT, END_OF_TURN, SECOND_TURN, THIRD_TURN],
    ),
    (
        "answered after a second",
        "number,policy,seconds\n*,answer,1\n",
        &[END_OF_TURN],
        &[ALERTING, SECOND_TURN, LATER_CONNECT, THIRD_TURN],
        &[
            ALERTING,
            END_OF_TURN,
            LATER_CONNECT,
            SECOND_TURN,
            THIRD_TURN,
        ],
    ),
    (
        "answered, and to be cleared",
        "number,policy,seconds\n*,clear,0\n",
        &[END_OF_TURN],
        &[CONNECT, SECOND_TURN, THIRD_TURN],
        &[CONNECT, END_OF_TURN, SECOND_TURN, THIRD_TURN],
    ),
    (
        "let ring",
        "number,policy,seconds\n*,alert,0\n",
        &[END_OF_TURN],
        &[ALERTING, SECOND_TURN, THIRD_TURN],
        &[ALERTING, END_OF_TURN, SECOND_TURN, THIRD_TURN],
    ),
    (
        "proceeding",
        "number,policy,seconds\n*,proceed,0\n",
        &[END_OF_TURN],
        &[CALL_PROCEEDING, SECOND_TURN, THIRD_TURN],
        &[CALL_PROCEEDING, END_OF_TURN, SECOND_TURN, THIRD_TURN],
    ),
    (
        "busy",
        "number,policy,seconds\n*,busy,0\n",
        &[END_OF_TURN, BUSY],
        &[SECOND_TURN, THIRD_TURN],
        &[BUSY, END_OF_TURN, SECOND_TURN, THIRD_TURN],
    ),
    (
        "silent",
        "number,policy,seconds\n*,silent,0\n",
        &[END_OF_TURN],
        &[SECOND_TURN, THIRD_TURN],
        &[END_OF_TURN, SECOND_TURN, THIRD_TURN],
    ),
];

/// What is left of octets behind these parts, one after another.
fn behind<'a>(octets: &'a [u8], parts: &[&[u8]]) -> Option<&'a [u8]> {
    let mut rest = octets;
    for part in parts {
        rest = rest.strip_prefix(*part)?;
    }
    Some(rest)
}

/// What the far end writes in so many seconds of a live line.
fn lived(alloc: Global, script: &str, last: u32) -> Option<Vec<u8>> {
    let mut far = far_of(alloc, script)?;
    let mut world = MemoryWorld::new(alloc, &SECONDS, 100);
    run_far_live(&mut far, &mut world, last);
    Some(world.into_written())
}

/// Whether a far end on a live line writes this in its first second, and that in the two after it.
fn lives_so(alloc: Global, script: &str, first: &[&[u8]], following: &[&[u8]]) -> Option<bool> {
    let opened = lived(alloc, script, 1)?;
    let written = lived(alloc, script, 3)?;
    let is_opened = behind(&opened, first)?.is_empty();
    let later = behind(&written, first)?;
    Some(is_opened && behind(later, following)?.is_empty())
}

/// Whether it writes this in three turns of a rehearsal.
fn rehearses_so(alloc: Global, script: &str, parts: &[&[u8]]) -> Option<bool> {
    let mut far = far_of(alloc, script)?;
    let mut session = FarSession::new();
    let mut writer = Watched::new(Vec::new(alloc));
    for scene in &SECONDS[..3] {
        let mut reader = Watched::new(scene.input);
        session.far_turn(&mut far, &mut reader, &mut writer).ok()?;
    }
    Some(behind(&writer.into_inner(), parts)?.is_empty())
}

#[test]
fn calls_on_a_live_line(rt: HostRuntime) {
    for (name, script, first, following, _) in &ANSWERS {
        let is_so = lives_so(rt.alloc(), script, first, following);
        assert!(rt; is_so == Some(true), "{name}");
    }
}

#[test]
fn calls_in_a_rehearsal(rt: HostRuntime) {
    for (name, script, _, _, turns) in &ANSWERS {
        assert!(rt;
            rehearses_so(rt.alloc(), script, turns) == Some(true),
            "{name}"
        );
    }
}

/// How the call stands after so many seconds of a live line on which it is answered at once: nobody acknowledges its CONNECT.
static STANDS: [(u32, Option<CallState>); 4] = [
    (0, None),
    (1, Some(CallState::ConnectRequest)),
    (4, Some(CallState::ConnectRequest)),
    (5, Some(CallState::DisconnectRequest)),
];

/// The state of the call on channel 1 after so many seconds.
fn stands(alloc: Global, last: u32) -> Option<Option<CallState>> {
    let mut far = far_of(alloc, "number,policy,seconds\n*,answer,0\n")?;
    let mut world = MemoryWorld::new(alloc, &SECONDS, 100);
    run_far_live(&mut far, &mut world, last);
    match far.on_channel(Channel::new(1)?) {
        Some((_reference, state)) => Some(Some(state)),
        None => Some(None),
    }
}

#[test]
fn an_answer_is_waited_for_from_its_second_on(rt: HostRuntime) {
    for (last, state) in &STANDS {
        assert!(rt; stands(rt.alloc(), *last) == Some(*state), "{last}");
    }
}

/// Three bookings of two seconds on channel 1, one right behind another.
static ROWS: [Row; 3] = [(2, 4, 1, false), (4, 6, 1, false), (6, 8, 1, false)];

/// By a name how the far end hears over a wire on which a frame takes 20 milliseconds, and what becomes of the bookings: it ticks when the
/// exchange does, so a call that is answered at a tick is answered too late for the second that is left of it.
static NEIGHBOURS: [(&'static str, Hears, [Outcome; 3]); 2] = [
    (
        "answered at the next tick",
        Hears::Rehearsed,
        [
            Outcome::Carried { from: 3, until: 4 },
            Outcome::Unanswered,
            Outcome::Unanswered,
        ],
    ),
    (
        "answered at once",
        Hears::Live,
        [
            Outcome::Carried { from: 2, until: 4 },
            Outcome::Carried { from: 5, until: 6 },
            Outcome::Carried { from: 7, until: 8 },
        ],
    ),
];

/// What becomes of the bookings.
fn neighbours(alloc: Global, hears: Hears) -> Option<[Outcome; 3]> {
    let mut exchange = exchange_of(alloc, &ROWS)?;
    let manner = Manner {
        loss: 0,
        seed: 1,
        cut: (0, 0),
        anew: 0,
        release: 0,
        gives: (0, &[]),
        flood: (0, 0),
        jump: None,
        hears,
    };
    let wire = MemoryWire::new(alloc, far_end(alloc)?, manner);
    let log = Log {
        disk: Some(MemoryDisk::new(alloc, Vec::new(alloc))),
    };
    let mut world = LineWorld::new(Schedule::new(0, 1), Line::new(true, wire), log);
    run_by_line(&mut exchange, &mut world, 12).ok()?;
    Some([
        exchange.outcome(1)?,
        exchange.outcome(2)?,
        exchange.outcome(3)?,
    ])
}

#[test]
fn bookings_right_behind_another(rt: HostRuntime) {
    for (name, hears, outcomes) in &NEIGHBOURS {
        assert!(rt; neighbours(rt.alloc(), *hears) == Some(*outcomes), "{name}");
    }
}
