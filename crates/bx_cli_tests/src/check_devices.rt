//! The check of a plan, and a message decoded, over readers and writers that fail at each place.

use crate::worked_texts::ONE;
use bx_cases::Failing;
use bx_check_commands::{CommandFault, check_against, check_self, decode, proved_plan};
use bx_devices::Watched;
use std::alloc::{AllocError, Global};
use std::test::Fail;

/// Whether a reader that fails after so many reads of an octet is reported, and nothing is written for it.
fn reads(alloc: Global, calls: u32) -> bool {
    let mut input = Watched::new(Failing::new(ONE.as_bytes(), calls, 1));
    let mut output = Watched::new(Vec::new(alloc));
    let done = check_self(alloc, &mut input, &mut output);
    let (expected, written) = match calls {
        68 => (Ok(5), "proved 5\n"),
        _ => (Err(CommandFault::CannotRead("-")), ""),
    };
    done == expected && output.into_inner().as_slice() == written.as_bytes()
}

fn zeros(alloc: Global, count: usize) -> Result<Vec<u8>, AllocError> {
    vec![in alloc; 0u8; count]
}

#[test]
fn readers_that_fail(rt: HostRuntime) -> Result<(), Fail> {
    for calls in 0..69 {
        assert!(rt; reads(rt.alloc(), calls), "{calls}");
    }
    let long = zeros(rt.alloc(), 4_194_305)?;
    let mut input = Watched::new(long.as_slice());
    let refused = proved_plan(rt.alloc(), "long", &mut input).map(|plan| plan.total);
    assert!(rt;
        refused == Err(CommandFault::CannotRead("long")),
        "too long"
    );
    Ok(())
}

/// Whether a writer that fails after so many writes of an octet is reported, and has that prefix of the line.
fn writes(alloc: Global, calls: u32) -> bool {
    let mut input = Watched::new(ONE.as_bytes());
    let mut output = Watched::new(Failing::new(Vec::new(alloc), calls, 1));
    let done = check_self(alloc, &mut input, &mut output);
    let expected = if calls == 9 {
        Ok(5)
    } else {
        Err(CommandFault::CannotWrite)
    };
    let written = output.into_inner().into_inner();
    let is_prefix = written.len() == calls as usize && b"proved 5\n".starts_with(&written);
    done == expected && is_prefix
}

#[test]
fn writers_that_fail(rt: HostRuntime) {
    for calls in 0..10u32 {
        assert!(rt; writes(rt.alloc(), calls), "{calls}");
    }
}

static LINES: &str = "type 5A RELEASE COMPLETE\nreference 1 flag 1\nelement 0 08 8091\n";

/// Whether a message is decoded to a writer that takes so much a call and fails after so many, up to there.
fn decodes(alloc: Global, calls: u32, most: usize) -> bool {
    let mut output = Watched::new(Failing::new(Vec::new(alloc), calls, most));
    let done = decode(alloc, "080280015A08028091", &mut output);
    let written = output.into_inner().into_inner();
    let is_prefix = written.len() == (calls as usize).saturating_mul(most)
        && LINES.as_bytes().starts_with(&written);
    is_prefix && done.is_ok() == (written.len() == LINES.len())
}

#[test]
fn messages_to_writers_that_fail(rt: HostRuntime) {
    for calls in 0..63u32 {
        assert!(rt; decodes(rt.alloc(), calls, 1), "{calls}");
    }
    assert!(rt; decodes(rt.alloc(), 99, 0), "one that takes none");
}

/// What a check of the plan against itself answers, and how much it wrote, where its reader and its writer fail after so
/// many calls, and the writer takes so much a call.
fn against(alloc: Global, devices: (u32, u32, usize)) -> Option<(bool, usize)> {
    let (reads, writes, most) = devices;
    let plan = proved_plan(alloc, "-", &mut Watched::new(ONE.as_bytes())).ok()?;
    let mut input = Watched::new(Failing::new(ONE.as_bytes(), reads, 1));
    let mut output = Watched::new(Failing::new(Vec::new(alloc), writes, most));
    let done = check_against(
        alloc,
        "plan",
        &plan.bookings,
        plan.channels,
        &mut input,
        &mut output,
    );
    let expected = if reads < 68 {
        Err(CommandFault::CannotRead("plan"))
    } else if writes < 9 || most == 0 {
        Err(CommandFault::CannotWrite)
    } else {
        Ok(5)
    };
    let written = output.into_inner().into_inner();
    let is_prefix = b"proved 5\n".starts_with(&written);
    Some((done == expected && is_prefix, written.len()))
}

#[test]
fn checks_over_devices_that_fail(rt: HostRuntime) {
    for reads in 0..68u32 {
        let is_refused = against(rt.alloc(), (reads, 99, 1)) == Some((true, 0));
        assert!(rt; is_refused, "read {reads}");
    }
    for writes in 0..10u32 {
        let is_cut = against(rt.alloc(), (68, writes, 1)) == Some((true, writes as usize));
        assert!(rt; is_cut, "write {writes}");
    }
    assert!(rt;
        against(rt.alloc(), (68, 99, 0)) == Some((true, 0)),
        "one that takes none"
    );
}
