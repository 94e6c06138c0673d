//! How a turn of the exchange ends, by what comes.

use crate::frames::{END_OF_TURN, OPENED, REFUSAL, STRAY, repeated};
use bx_devices::Watched;
use bx_frames::LinkFault;
use bx_sessions::Session;
use bx_worked_days::exchange;
use std::alloc::Global;

/// What is tried; so many frames that are refused, and what comes after them; how the turn ends, and how many octets are left.
type Ending = (
    &'static str,
    u8,
    &'static [u8],
    Result<(), LinkFault>,
    usize,
);

static ENDINGS: [Ending; 19] = [
    ("no message", 0, END_OF_TURN, Ok(()), 0),
    ("two messages", 2, END_OF_TURN, Ok(()), 0),
    ("64 messages", 64, END_OF_TURN, Ok(()), 0),
    (
        "a 65th message",
        65,
        END_OF_TURN,
        Err(LinkFault::MoreThan64Messages),
        12,
    ),
    (
        "the length of a 65th message",
        64,
        &[1, 0, 5],
        Err(LinkFault::MoreThan64Messages),
        0,
    ),
    (
        "a bad length of a 65th message",
        64,
        &[1, 1, 5],
        Err(LinkFault::BadLength),
        0,
    ),
    ("an unknown kind", 0, &[4], Err(LinkFault::UnknownKind), 0),
    (
        "an unknown kind behind a message",
        1,
        &[0, 0, 0],
        Err(LinkFault::UnknownKind),
        2,
    ),
    (
        "the end of the day",
        0,
        &[3, 0, 0],
        Err(LinkFault::UnknownKind),
        2,
    ),
    (
        "a message of 261 octets",
        0,
        &[1, 1, 5],
        Err(LinkFault::BadLength),
        0,
    ),
    (
        "an end of turn of 3 octets",
        0,
        &[2, 0, 3],
        Err(LinkFault::BadLength),
        0,
    ),
    (
        "an end of turn of 260 octets",
        3,
        &[2, 1, 4, 0],
        Err(LinkFault::BadLength),
        1,
    ),
    ("nothing", 0, &[], Err(LinkFault::EndedInFrame), 0),
    ("a kind alone", 1, &[1], Err(LinkFault::EndedInFrame), 0),
    ("half a length", 0, &[1, 1], Err(LinkFault::EndedInFrame), 0),
    (
        "a torn message",
        1,
        &[1, 0, 10, 8, 2],
        Err(LinkFault::EndedInFrame),
        0,
    ),
    (
        "a torn end of turn",
        0,
        &[2, 0, 4, 0, 0, 0],
        Err(LinkFault::EndedInFrame),
        0,
    ),
    (
        "a later moment",
        0,
        &[2, 0, 4, 0, 0, 0, 2],
        Err(LinkFault::WrongMoment),
        0,
    ),
    (
        "a moment with another high octet",
        1,
        &[2, 0, 4, 1, 0, 0, 1],
        Err(LinkFault::WrongMoment),
        0,
    ),
];

/// Whether this is the opening of the turn, and then so many refusals.
fn is_written(alloc: Global, octets: &[u8], refusals: u8) -> bool {
    match repeated(alloc, REFUSAL, refusals, &[]) {
        Some(replies) => octets.strip_prefix(OPENED) == Some(replies.as_slice()),
        None => false,
    }
}

/// Whether the turn is opened, ends so at moment 1, leaves so many octets, and writes just its replies.
fn ends_so(alloc: Global, ending: &Ending) -> Option<bool> {
    let (_, count, following, expected, left) = *ending;
    let input = repeated(alloc, STRAY, count, following)?;
    let mut exchange = exchange(alloc)?;
    let mut session = Session::new();
    let mut reader = Watched::new(input.as_slice());
    let mut writer = Watched::new(Vec::new(alloc));
    session.open_turn(&mut exchange, &mut writer).ok()?;
    let was_open = session.turn_is_open();
    let result = session.close_turn(&mut exchange, &mut reader, &mut writer);
    let is_ended = result == expected && exchange.moment() == 1;
    let is_closed = was_open && !session.turn_is_open();
    let is_left = reader.into_inner().len() == left;
    let octets = writer.into_inner();
    Some(is_ended && is_closed && is_left && is_written(alloc, &octets, count.min(64)))
}

#[test]
fn endings_of_a_turn(rt: HostRuntime) {
    for ending in &ENDINGS {
        assert!(rt; ends_so(rt.alloc(), ending) == Some(true), "{}", ending.0);
    }
}
