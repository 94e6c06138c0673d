//! A day of one turn over readers that give one octet a read and writers that take one, which fail at each place.

use crate::frames::{CONNECT, CONNECT_ACKNOWLEDGE, END_OF_DAY, END_OF_TURN, OPENED, joined};
use bx_calls::CallState;
use bx_cases::Failing;
use bx_channels::Channel;
use bx_day::Exchange;
use bx_devices::Watched;
use bx_frames::LinkFault;
use bx_sessions::run_day;
use bx_worked_days::exchange;
use std::alloc::Global;

/// What comes on a day whose call is answered, and an octet more; and what the day writes.
fn answered_day(alloc: Global) -> Option<(Vec<u8>, Vec<u8>)> {
    let input = joined(alloc, [CONNECT, END_OF_TURN, &[1]])?;
    Some((
        input,
        joined(alloc, [OPENED, CONNECT_ACKNOWLEDGE, END_OF_DAY])?,
    ))
}

fn is_active(exchange: &Exchange) -> bool {
    match Channel::new(1) {
        Some(channel) => exchange.on_channel(channel) == Some((1, CallState::Active)),
        None => false,
    }
}

/// How a day ends whose reader fails after so many reads, and how many octets are then written.
fn read_so(reads: u32) -> (Result<(), LinkFault>, usize) {
    match reads {
        0..=12 => (Err(LinkFault::ReadFailed), 32),
        13..=19 => (Err(LinkFault::ReadFailed), 40),
        _ => (Ok(()), 43),
    }
}

fn reads(alloc: Global, reads: u32) -> Option<bool> {
    let (input, whole) = answered_day(alloc)?;
    let (expected, count) = read_so(reads);
    let mut exchange = exchange(alloc)?;
    let mut reader = Watched::new(Failing::new(input.as_slice(), reads, 1));
    let mut writer = Watched::new(Vec::new(alloc));
    let result = run_day(&mut exchange, &mut reader, &mut writer, 1);
    let is_ended = result == expected && reader.faulted() == (reads < 20);
    let held = writer.into_inner();
    let is_prefix = held.len() == count && whole.starts_with(held.as_slice());
    Some(is_ended && is_prefix && is_active(&exchange) == (reads >= 13))
}

#[test]
fn days_over_failing_readers(rt: HostRuntime) {
    for n in 0..21 {
        assert!(rt; reads(rt.alloc(), n) == Some(true), "{n} reads");
    }
}

/// How a day ends whose writer fails after so many writes, and how many octets are then left to read.
fn written_so(writes: u32) -> (Result<(), LinkFault>, usize) {
    match writes {
        0..=31 => (Err(LinkFault::WriteFailed), 21),
        32..=39 => (Err(LinkFault::WriteFailed), 8),
        40..=42 => (Err(LinkFault::WriteFailed), 1),
        _ => (Ok(()), 1),
    }
}

fn writes(alloc: Global, writes: u32) -> Option<bool> {
    let (input, whole) = answered_day(alloc)?;
    let (expected, left) = written_so(writes);
    let mut exchange = exchange(alloc)?;
    let mut reader = Watched::new(input.as_slice());
    let mut writer = Watched::new(Failing::new(Vec::new(alloc), writes, 1));
    let result = run_day(&mut exchange, &mut reader, &mut writer, 1);
    let is_ended = result == expected && exchange.moment() == 1;
    let is_left = reader.into_inner().len() == left;
    let held = writer.into_inner().into_inner();
    let is_prefix = held.len() == writes.min(43) as usize && whole.starts_with(held.as_slice());
    Some(is_ended && is_left && is_prefix)
}

#[test]
fn days_over_failing_writers(rt: HostRuntime) {
    for n in 0..44 {
        assert!(rt; writes(rt.alloc(), n) == Some(true), "{n} writes");
    }
}
