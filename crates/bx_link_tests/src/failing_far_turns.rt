//! A turn of the far end over readers that give one octet a read and writers that take one, which fail at each place.

use crate::frames::{END_OF_TURN, FAR_REFUSAL, FAR_STRAY, repeated};
use bx_cases::Failing;
use bx_devices::Watched;
use bx_frames::LinkFault;
use bx_link::FarSession;
use bx_worked_days::far_end;
use std::alloc::Global;

/// A message of no call and the end of the turn, and what is written for them.
fn refused_turn(alloc: Global) -> Option<(Vec<u8>, Vec<u8>)> {
    let input = repeated(alloc, FAR_STRAY, 1, END_OF_TURN)?;
    Some((input, repeated(alloc, FAR_REFUSAL, 1, END_OF_TURN)?))
}

/// How a turn ends whose reader fails after so many reads, and how many octets are then written.
fn read_so(reads: u32) -> (Result<bool, LinkFault>, usize) {
    match reads {
        0..=7 => (Err(LinkFault::ReadFailed), 0),
        8..=14 => (Err(LinkFault::ReadFailed), 12),
        _ => (Ok(true), 19),
    }
}

fn reads(alloc: Global, reads: u32) -> Option<bool> {
    let (input, whole) = refused_turn(alloc)?;
    let (expected, count) = read_so(reads);
    let mut far = far_end(alloc)?;
    let mut session = FarSession::new();
    let mut reader = Watched::new(Failing::new(input.as_slice(), reads, 1));
    let mut writer = Watched::new(Vec::new(alloc));
    let result = session.far_turn(&mut far, &mut reader, &mut writer);
    let is_ended = result == expected && far.moment() == u32::from(reads == 15);
    let held = writer.into_inner();
    Some(is_ended && held.len() == count && whole.starts_with(held.as_slice()))
}

#[test]
fn far_turns_over_failing_readers(rt: HostRuntime) {
    for n in 0..16 {
        assert!(rt; reads(rt.alloc(), n) == Some(true), "{n} reads");
    }
}

/// How a turn ends whose writer fails after so many writes, the moment then, and how many octets are left to read.
fn written_so(writes: u32) -> (Result<bool, LinkFault>, u32, usize) {
    match writes {
        0..=11 => (Err(LinkFault::WriteFailed), 0, 7),
        12..=18 => (Err(LinkFault::WriteFailed), 1, 0),
        _ => (Ok(true), 1, 0),
    }
}

fn writes(alloc: Global, writes: u32) -> Option<bool> {
    let (input, whole) = refused_turn(alloc)?;
    let (expected, moment, left) = written_so(writes);
    let mut far = far_end(alloc)?;
    let mut session = FarSession::new();
    let mut reader = Watched::new(input.as_slice());
    let mut writer = Watched::new(Failing::new(Vec::new(alloc), writes, 1));
    let result = session.far_turn(&mut far, &mut reader, &mut writer);
    let is_ended = result == expected && far.moment() == moment;
    let is_left = reader.into_inner().len() == left;
    let held = writer.into_inner().into_inner();
    let is_prefix = held.len() == writes as usize && whole.starts_with(held.as_slice());
    Some(is_ended && is_left && is_prefix)
}

#[test]
fn far_turns_over_failing_writers(rt: HostRuntime) {
    for n in 0..20 {
        assert!(rt; writes(rt.alloc(), n) == Some(true), "{n} writes");
    }
}
