//! Planning from a text to a text, over readers and writers that fail at each place.

use bx_base::{ChannelSet, Plan};
use bx_book::BookFault;
use bx_calendar::Day;
use bx_cases::Failing;
use bx_devices::Watched;
use bx_plan_commands::{RunFault, plan_run};
use std::alloc::Global;
use std::test::Fail;

static ONE: &str = "start,end,number,pay\n2026-01-05T00:00:00Z,2026-01-05T00:01:00Z,1234,5\n";

static PLAN: &str =
    "bx-plan 3\nchannels 1\nbookings 1\n0 60 5 1234 1 free out\nprices 0\ntotal 5\nend\n";

static TOO_MANY: &str =
    "start,end,number,pay,must\n2026-01-05T00:00:00Z,2026-01-05T00:00:10Z,1,4,yes\n2026-01-05T00:00:05Z,2026-01-05T00:00:15Z,1,6,yes\n";

/// Faults, as they are printed.
static PRINTED: [(RunFault, &str); 6] = [
    (RunFault::ReadFailed, "G1 ReadFailed"),
    (RunFault::TooLong, "G2 TooLong"),
    (RunFault::WriteFailed, "G4 WriteFailed"),
    (RunFault::Memory, "Memory"),
    (RunFault::Book(BookFault::BadHeader), "B1 BadHeader"),
    (RunFault::TooManyMust(5), "G5 TooManyMust 5"),
];

/// How many reads and how many writes succeed, and how many octets each takes at most.
type Devices = (u32, u32, usize);

/// Devices that do not fail.
static WHOLE: Devices = (1000, 1000, 1000);

/// The total of a plan.
fn total_of(planned: Result<Plan, RunFault>) -> Result<u64, RunFault> {
    Ok(planned?.total)
}

/// The answer to a text on channel 1, and what was written.
fn answer(alloc: Global, text: &str, devices: Devices) -> Option<(Result<u64, RunFault>, Vec<u8>)> {
    let (reads, writes, most) = devices;
    let day = Day::new("2026-01-05", "UTC0").ok()?;
    let channels = ChannelSet::from_numbers(&[1]).ok()?;
    let mut input = Watched::new(Failing::new(text.as_bytes(), reads, most));
    let mut output = Watched::new(Failing::new(Vec::new(alloc), writes, most));
    let result = total_of(plan_run(alloc, &mut input, &mut output, &day, channels));
    Some((result, output.into_inner().into_inner()))
}

/// Whether this is answered, and just so many octets of the plan are written.
fn is_answered(
    alloc: Global,
    text: &str,
    devices: Devices,
    expected: Result<u64, RunFault>,
    written: usize,
) -> bool {
    match answer(alloc, text, devices) {
        Some((result, octets)) => {
            let is_prefix = octets.len() == written && PLAN.as_bytes().starts_with(&octets);
            is_prefix && result == expected
        }
        None => false,
    }
}

#[test]
fn whole_texts(rt: HostRuntime) {
    let plan = is_answered(rt.alloc(), ONE, WHOLE, Ok(5), PLAN.len());
    assert!(rt; plan, "a plan");
    let header = Err(RunFault::Book(BookFault::BadHeader));
    let empty = is_answered(rt.alloc(), "", WHOLE, header, 0);
    assert!(rt; empty, "no header");
    let many = Err(RunFault::TooManyMust(5));
    let full = is_answered(rt.alloc(), TOO_MANY, WHOLE, many, 0);
    assert!(rt; full, "too many");
}

#[test]
fn printed_faults(rt: HostRuntime) -> Result<(), Fail> {
    for (fault, printed) in &PRINTED {
        let words = fault.to_string(rt.alloc())?;
        assert_eq!(rt; words.as_str(), *printed);
    }
    Ok(())
}

#[test]
fn failing_readers(rt: HostRuntime) {
    for reads in 0..71u32 {
        let failed = Err(RunFault::ReadFailed);
        let is_failed = is_answered(rt.alloc(), ONE, (reads, 1000, 1), failed, 0);
        assert!(rt; is_failed, "{reads}");
    }
}

/// Whether a writer that takes none of what it is given is a failed one.
fn none_is_taken(alloc: Global) -> Option<bool> {
    let day = Day::new("2026-01-05", "UTC0").ok()?;
    let channels = ChannelSet::from_numbers(&[1]).ok()?;
    let mut output = Watched::new(Failing::new(Vec::new(alloc), 99, 0));
    let mut input = Watched::new(ONE.as_bytes());
    let result = total_of(plan_run(alloc, &mut input, &mut output, &day, channels));
    Some(result == Err(RunFault::WriteFailed) && output.faulted())
}

#[test]
fn failing_writers(rt: HostRuntime) {
    for writes in 0..76u32 {
        let failed = Err(RunFault::WriteFailed);
        let is_failed = is_answered(rt.alloc(), ONE, (100, writes, 1), failed, writes as usize);
        assert!(rt; is_failed, "{writes}");
    }
    assert!(rt; none_is_taken(rt.alloc()) == Some(true), "none");
    let whole = is_answered(rt.alloc(), ONE, (100, 76, 1), Ok(5), 76);
    assert!(rt; whole, "the whole plan");
}
