//! A plan written to outputs that fail at each place.

use crate::files::{folder, placed};
use bx_cases::Failing;
use bx_cli::main_words;
use bx_devices::Watched;
use std::fs;
use std::test::Fail;

static PLAN: &str =
    "bx-plan 3\nchannels 1\nbookings 1\n0 60 5 1234 1 free out\nprices 0\ntotal 5\nend\n";

/// Whether a writer that fails after so many writes of an octet has that prefix of the plan, and the failure is
/// printed and answered where that is not all.
fn writes(rt: &HostRuntime, bookings: &str, calls: u32) -> bool {
    let mut input = Watched::new(b"".as_slice());
    let mut output = Watched::new(Failing::new(Vec::new(rt.alloc()), calls, 1));
    let mut errors = Watched::new(Vec::new(rt.alloc()));
    let words = ["plan", "--date", "2026-01-05", "--channels", "1", bookings];
    let status = main_words(rt, &words, &mut input, &mut output, &mut errors, false);
    let written = output.into_inner().into_inner();
    let is_prefix = written.len() == calls as usize && PLAN.as_bytes().starts_with(&written);
    let (expected, said) = if calls == 76 {
        (0, "")
    } else {
        (1, "bx: G4 WriteFailed\n")
    };
    is_prefix && status == expected && errors.into_inner().as_slice() == said.as_bytes()
}

#[test]
fn plans_to_writers_that_fail(rt: HostRuntime) -> Result<(), Fail> {
    let folder = folder(&rt)?;
    let bookings = placed(rt.alloc(), "@one.csv", &folder)?;
    for calls in 0..77u32 {
        assert!(rt; writes(&rt, &bookings, calls), "{calls}");
    }
    fs::remove_dir_all(&rt, folder.as_str())?;
    Ok(())
}
