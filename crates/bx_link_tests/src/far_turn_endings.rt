//! How a turn of the far end ends, by what comes.

use crate::frames::{END_OF_TURN, FAR_REFUSAL, FAR_STRAY, repeated};
use bx_devices::Watched;
use bx_frames::LinkFault;
use bx_link::FarSession;
use bx_worked_days::far_end;
use std::alloc::Global;

/// What is tried; so many frames that are refused, and what comes after them; how the turn ends, and how many octets are left.
type Ending = (
    &'static str,
    u8,
    &'static [u8],
    Result<bool, LinkFault>,
    usize,
);

static ENDINGS: [Ending; 20] = [
    ("no message", 0, END_OF_TURN, Ok(true), 0),
    ("64 messages", 64, END_OF_TURN, Ok(true), 0),
    (
        "an octet behind the turn",
        1,
        &[2, 0, 4, 0, 0, 0, 1, 1],
        Ok(true),
        1,
    ),
    ("an octet behind the day", 0, &[3, 0, 0, 2], Ok(false), 1),
    (
        "the end of the day behind 64 messages",
        64,
        &[3, 0, 0],
        Ok(false),
        0,
    ),
    (
        "a 65th message",
        65,
        END_OF_TURN,
        Err(LinkFault::MoreThan64Messages),
        12,
    ),
    (
        "the length of a 65th message",
        64,
        &[1, 0, 5],
        Err(LinkFault::MoreThan64Messages),
        0,
    ),
    (
        "a bad length of a 65th message",
        64,
        &[1, 1, 5],
        Err(LinkFault::BadLength),
        0,
    ),
    ("an unknown kind", 0, &[4], Err(LinkFault::UnknownKind), 0),
    (
        "an unknown kind behind a message",
        1,
        &[0, 0, 0],
        Err(LinkFault::UnknownKind),
        2,
    ),
    (
        "a message of 261 octets",
        0,
        &[1, 1, 5],
        Err(LinkFault::BadLength),
        0,
    ),
    (
        "an end of turn of 3 octets",
        0,
        &[2, 0, 3],
        Err(LinkFault::BadLength),
        0,
    ),
    (
        "an end of the day of 1 octet",
        2,
        &[3, 0, 1, 0],
        Err(LinkFault::BadLength),
        1,
    ),
    ("nothing", 0, &[], Err(LinkFault::EndedInFrame), 0),
    (
        "a torn end of the day",
        1,
        &[3, 0],
        Err(LinkFault::EndedInFrame),
        0,
    ),
    (
        "a torn message",
        1,
        &[1, 0, 10, 8, 2],
        Err(LinkFault::EndedInFrame),
        0,
    ),
    (
        "a torn end of turn",
        0,
        &[2, 0, 4, 0, 0, 0],
        Err(LinkFault::EndedInFrame),
        0,
    ),
    (
        "an earlier moment",
        0,
        &[2, 0, 4, 0, 0, 0, 0],
        Err(LinkFault::WrongMoment),
        0,
    ),
    (
        "a later moment",
        1,
        &[2, 0, 4, 0, 0, 0, 2, 1],
        Err(LinkFault::WrongMoment),
        1,
    ),
    (
        "a moment with another high octet",
        0,
        &[2, 0, 4, 1, 0, 0, 1],
        Err(LinkFault::WrongMoment),
        0,
    ),
];

/// Whether so many refusals are written, and the end of the turn after them where the far end ticks.
fn is_written(alloc: Global, octets: &[u8], refusals: u8, ticks: bool) -> bool {
    let following = if ticks { END_OF_TURN } else { &[] };
    match repeated(alloc, FAR_REFUSAL, refusals, following) {
        Some(expected) => octets == expected.as_slice(),
        None => false,
    }
}

/// Whether the turn ends so, leaves so many octets, and writes just its replies; the session is over where the far
/// end does not tick, and then answers `Closed`.
fn ends_so(alloc: Global, ending: &Ending) -> Option<bool> {
    let (_, count, following, expected, left) = *ending;
    let input = repeated(alloc, FAR_STRAY, count, following)?;
    let mut far = far_end(alloc)?;
    let mut session = FarSession::new();
    let mut reader = Watched::new(input.as_slice());
    let mut writer = Watched::new(Vec::new(alloc));
    let result = session.far_turn(&mut far, &mut reader, &mut writer);
    let ticks = expected == Ok(true);
    let is_ended = result == expected && session.is_over() == !ticks;
    let is_closed = ticks
        || session.far_turn(&mut far, &mut reader, &mut writer) == Err(LinkFault::Closed);
    let is_left = reader.into_inner().len() == left && far.moment() == u32::from(ticks);
    let octets = writer.into_inner();
    let is_written = is_written(alloc, &octets, count.min(64), ticks);
    Some(is_ended && is_closed && is_left && is_written)
}

#[test]
fn endings_of_a_far_turn(rt: HostRuntime) {
    for ending in &ENDINGS {
        assert!(rt; ends_so(rt.alloc(), ending) == Some(true), "{}", ending.0);
    }
}
