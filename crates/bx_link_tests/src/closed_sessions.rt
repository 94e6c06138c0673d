//! Sessions that a fault closes, and that stay closed.

use crate::frames::{CONNECT, TORN};
use bx_calls::CallState;
use bx_cases::Failing;
use bx_channels::Channel;
use bx_day::Exchange;
use bx_devices::Watched;
use bx_frames::LinkFault;
use bx_sessions::Session;
use bx_worked_days::exchange;
use std::alloc::Global;

/// What is tried; after how many writes the writer fails, and what comes; how the turn is opened and with which fault it ends,
/// and how many octets are left.
type Case = (
    &'static str,
    u32,
    &'static [u8],
    Result<(), LinkFault>,
    LinkFault,
    usize,
);

static CASES: [Case; 3] = [
    (
        "the first write fails",
        0,
        CONNECT,
        Err(LinkFault::WriteFailed),
        LinkFault::Closed,
        13,
    ),
    (
        "the second write fails",
        1,
        TORN,
        Err(LinkFault::WriteFailed),
        LinkFault::Closed,
        5,
    ),
    ("a torn frame", 2, TORN, Ok(()), LinkFault::EndedInFrame, 0),
];

/// Whether one tick has happened, and its call is there.
fn is_ticked(exchange: &Exchange) -> bool {
    match Channel::new(1) {
        Some(channel) => {
            let call = exchange.on_channel(channel);
            exchange.moment() == 1 && call == Some((1, CallState::CallPresent))
        }
        None => false,
    }
}

/// Whether the session is closed so, and answers `Closed` from then on.
fn is_closed(alloc: Global, case: &Case) -> Option<bool> {
    let (_, writes, octets, opened, fault, left) = *case;
    let mut exchange = exchange(alloc)?;
    let mut session = Session::new();
    let mut reader = Watched::new(octets);
    let mut writer = Watched::new(Failing::new(Vec::new(alloc), writes, 300));
    let is_opened = session.open_turn(&mut exchange, &mut writer) == opened;
    let result = session.close_turn(&mut exchange, &mut reader, &mut writer);
    let reopened = session.open_turn(&mut exchange, &mut writer);
    let reclosed = session.close_turn(&mut exchange, &mut reader, &mut writer);
    let closed = Err(LinkFault::Closed);
    let stays = result == Err(fault) && reopened == closed && reclosed == closed;
    let is_left = reader.into_inner().len() == left && writer.faulted() == (writes < 2);
    Some(is_opened && stays && is_left && is_ticked(&exchange))
}

#[test]
fn sessions_after_a_fault(rt: HostRuntime) {
    for case in &CASES {
        assert!(rt; is_closed(rt.alloc(), case) == Some(true), "{}", case.0);
    }
}
