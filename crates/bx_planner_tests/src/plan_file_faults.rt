//! Texts that are no plan file, with the first fault of each.

use bx_planfile::read_plan;
use std::alloc::Global;

/// Texts with faults, and the first fault of each.
static FAULTS: [(&str, &str); 32] = [
    ("", "P1 BadLine 1"),
    ("bx-plan 1\r\nchannels 1\r\n", "P1 BadLine 1"),
    ("bx-plan 4\nchannels 1\n", "P1 BadLine 1"),
    ("bx-plan 1\n", "P1 BadLine 2"),
    ("bx-plan 1\nchannels \n", "P1 BadLine 2"),
    ("bx-plan 1\nchannels 1  2\n", "P1 BadLine 2"),
    ("bx-plan 1\nchannels 99 01\n", "P1 BadLine 2"),
    ("bx-plan 1\nchannels 16\n", "P3 OutOfLimits 2"),
    ("bx-plan 1\nchannels 0\n", "P3 OutOfLimits 2"),
    ("bx-plan 1\nchannels 99\n", "P3 OutOfLimits 2"),
    ("bx-plan 1\nchannels 2 1\n", "P3 OutOfLimits 2"),
    ("bx-plan 1\nchannels 2 2\n", "P3 OutOfLimits 2"),
    ("bx-plan 1\nchannels 1\nbookings 16001\n0 60", "P2 BadCount"),
    (
        "bx-plan 1\nchannels 1\nbookings 99999999999999999999999\n",
        "P2 BadCount",
    ),
    ("bx-plan 1\nchannels 1\nbookings 16001", "P1 BadLine 3"),
    (
        "bx-plan 1\nchannels 1\nbookings 1\n00 60 5 1234 1\n",
        "P1 BadLine 4",
    ),
    (
        "bx-plan 1\nchannels 1\nbookings 1\n0 60 0 1234\n",
        "P1 BadLine 4",
    ),
    (
        "bx-plan 1\nchannels 1\nbookings 1\n0 60 0 1234 1\n",
        "P3 OutOfLimits 4",
    ),
    (
        "bx-plan 1\nchannels 1\nbookings 1\n60 60 5 1234 1\n",
        "P3 OutOfLimits 4",
    ),
    (
        "bx-plan 1\nchannels 1\nbookings 1\n0 60 5 1234567890123456 1\n",
        "P3 OutOfLimits 4",
    ),
    (
        "bx-plan 1\nchannels 1\nbookings 1\n0 60 5 1234 16\n",
        "P3 OutOfLimits 4",
    ),
    (
        "bx-plan 2\nchannels 1\nbookings 1\n0 60 0 1234 1\n",
        "P1 BadLine 4",
    ),
    (
        "bx-plan 2\nchannels 1\nbookings 1\n0 60 0 1234 1 free\n",
        "P3 OutOfLimits 4",
    ),
    (
        "bx-plan 3\nchannels 1\nbookings 1\n0 60 0 1234 1 free\n",
        "P1 BadLine 4",
    ),
    (
        "bx-plan 3\nchannels 1\nbookings 1\n0 60 0 1234 1 must in\n",
        "P3 OutOfLimits 4",
    ),
    (
        "bx-plan 1\nchannels\nbookings 0\nprices 32001\n",
        "P2 BadCount",
    ),
    (
        "bx-plan 1\nchannels\nbookings 0\nprices 1\n200000 1\n",
        "P3 OutOfLimits 5",
    ),
    (
        "bx-plan 1\nchannels 1\nbookings 1\n0 60 5 1234 1\nprices 0\n",
        "P1 BadLine 6",
    ),
    (
        "bx-plan 1\nchannels\nbookings 0\nprices 0\ntotal 16000000000001\n",
        "P3 OutOfLimits 5",
    ),
    (
        "bx-plan 1\nchannels\nbookings 0\nprices 0\ntotal 16000000000001",
        "P1 BadLine 5",
    ),
    (
        "bx-plan 1\nchannels\nbookings 0\nprices 0\ntotal 5\nend",
        "P1 BadLine 6",
    ),
    (
        "bx-plan 1\nchannels\nbookings 0\nprices 0\ntotal 5\nend\n\n",
        "P4 Trailing",
    ),
];

fn is_refused(alloc: Global, text: &str, printed: &str) -> Option<bool> {
    let fault = read_plan(alloc, text.as_bytes()).err()?;
    Some(fault.to_string(alloc).ok()?.as_str() == printed)
}

#[test]
fn first_faults(rt: HostRuntime) {
    for (text, printed) in &FAULTS {
        assert!(rt;
            is_refused(rt.alloc(), text, printed) == Some(true),
            "{text}"
        );
    }
}
