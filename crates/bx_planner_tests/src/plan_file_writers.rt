//! Plan files on writers that fail.

use bx_base::Plan;
use bx_cases::Failing;
use bx_devices::Watched;
use bx_planfile::{PlanWriteFault, read_plan, write_plan};
use std::alloc::Global;
use std::test::Fail;

static PLAN: &str =
    "bx-plan 3\nchannels 1\nbookings 1\n0 60 5 1234 1 free out\nprices 0\ntotal 5\nend\n";

/// Writes the plan to a writer that takes so much a call and fails after so many; answers whether it then has that prefix of
/// the text, and is faulted where that is not all.
fn writes_prefix(alloc: Global, plan: &Plan, calls: u32, most: usize) -> bool {
    let mut w = Watched::new(Failing::new(Vec::new(alloc), calls, most));
    let done = write_plan(plan, &mut w);
    let faulted = w.faulted();
    let octets = w.into_inner().into_inner();
    let expected = if octets.len() == PLAN.len() {
        Ok(())
    } else {
        Err(PlanWriteFault::WriteFailed)
    };
    let is_prefix = octets.len() == (calls as usize).saturating_mul(most)
        && PLAN.as_bytes().starts_with(&octets);
    is_prefix && done == expected && faulted == done.is_err()
}

#[test]
fn failing_writers(rt: HostRuntime) -> Result<(), Fail> {
    let plan = read_plan(rt.alloc(), PLAN.as_bytes())?;
    for calls in 0..77u32 {
        assert!(rt; writes_prefix(rt.alloc(), &plan, calls, 1), "{calls}");
    }
    assert!(rt;
        writes_prefix(rt.alloc(), &plan, 99, 0),
        "one that takes none"
    );
    let printed = PlanWriteFault::WriteFailed.to_string(rt.alloc())?;
    assert_eq!(rt; printed.as_str(), "P5 WriteFailed");
    Ok(())
}
