//! Plan files that are read, and what is written for them.

use bx_devices::Watched;
use bx_planfile::{read_plan, write_plan};
use std::alloc::Global;

/// Texts that are read, in versions 1, 2 and 3, and the text of version 3 of the same plan.
static TEXTS: [(&str, &str); 6] = [
    (
        "bx-plan 1\nchannels 1\nbookings 1\n0 60 5 1234 1\nprices 0\ntotal 5\nend\n",
        "bx-plan 3\nchannels 1\nbookings 1\n0 60 5 1234 1 free out\nprices 0\ntotal 5\nend\n",
    ),
    (
        "bx-plan 2\nchannels 1 2 3\nbookings 0\nprices 0\ntotal 0\nend\n",
        "bx-plan 3\nchannels 1 2 3\nbookings 0\nprices 0\ntotal 0\nend\n",
    ),
    (
        "bx-plan 1\nchannels\nbookings 1\n10 20 7 1234 -\nprices 1\n10 7\ntotal 0\nend\n",
        "bx-plan 3\nchannels\nbookings 1\n10 20 7 1234 - free out\nprices 1\n10 7\ntotal 0\nend\n",
    ),
    (
        "bx-plan 1\nchannels 1 2\nbookings 4\n0 10 3 100 1\n0 10 2 101 -\n5 15 4 102 2\n12 20 1 103 1\nprices 1\n5 2\ntotal 8\nend\n",
        "bx-plan 3\nchannels 1 2\nbookings 4\n0 10 3 100 1 free out\n0 10 2 101 - free out\n5 15 4 102 2 free out\n12 20 1 103 1 free out\nprices 1\n5 2\ntotal 8\nend\n",
    ),
    (
        "bx-plan 2\nchannels 1\nbookings 3\n0 10 4 1234 - free\n5 15 6 1234 1 must\n10 20 4 1234 - free\nprices 2\n5 4\n10 4\ntotal 6\nend\n",
        "bx-plan 3\nchannels 1\nbookings 3\n0 10 4 1234 - free out\n5 15 6 1234 1 must out\n10 20 4 1234 - free out\nprices 2\n5 4\n10 4\ntotal 6\nend\n",
    ),
    // Leading zeros of a number stay, a channel that is not in service is no fault here, nor are falling prices.
    (
        "bx-plan 3\nchannels 15 17 31\nbookings 1\n199999 200000 1000000000 007 2 must in\nprices 2\n9 1\n0 16000000000000\ntotal 16000000000000\nend\n",
        "bx-plan 3\nchannels 15 17 31\nbookings 1\n199999 200000 1000000000 007 2 must in\nprices 2\n9 1\n0 16000000000000\ntotal 16000000000000\nend\n",
    ),
];

/// What is written for the plan that is read.
fn written(alloc: Global, text: &str) -> Option<Vec<u8>> {
    let plan = read_plan(alloc, text.as_bytes()).ok()?;
    let mut w = Watched::new(Vec::new(alloc));
    write_plan(&plan, &mut w).ok()?;
    Some(w.into_inner())
}

fn is_written_as(alloc: Global, text: &str, expected: &str) -> bool {
    match written(alloc, text) {
        Some(octets) => octets.as_slice() == expected.as_bytes(),
        None => false,
    }
}

#[test]
fn texts_are_read_and_written(rt: HostRuntime) {
    for (text, expected) in &TEXTS {
        assert!(rt; is_written_as(rt.alloc(), text, expected), "{text}");
        assert!(rt; is_written_as(rt.alloc(), expected, expected), "{expected}");
    }
}
