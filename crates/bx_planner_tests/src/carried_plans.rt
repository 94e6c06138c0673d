//! Whether two channels carry a plan of two bookings.

use crate::rows::bookings_of;
use bx_base::{ChannelSet, Plan};
use bx_channels::Channel;
use std::alloc::Global;

/// A plan by its name, the ends of its two bookings, their channels (0: none), and whether channels 1 and 2 carry them.
type Planned = (&'static str, (u32, u32), [u8; 2], bool);

static PLANS: [Planned; 5] = [
    ("two that touch", (10, 20), [1, 1], true),
    ("two that overlap", (11, 20), [1, 1], false),
    ("two channels", (11, 20), [1, 2], true),
    ("one is refused", (11, 20), [1, 0], true),
    ("one is out of service", (10, 20), [1, 3], false),
];

/// Whether the plan of two bookings with these ends and channels is carried.
fn is_carried(alloc: Global, ends: (u32, u32), numbers: [u8; 2]) -> Option<bool> {
    let mut assigned = Vec::new(alloc);
    for number in numbers {
        assigned.push(Channel::new(number)).ok()?;
    }
    let channels = ChannelSet::from_numbers(&[1, 2]).ok()?;
    let plan = Plan::new(
        bookings_of(alloc, &[(0, ends.0, 5, false), (10, ends.1, 5, false)])?,
        channels,
        assigned,
        Vec::new(alloc),
        10,
    )?;
    Some(plan.carried())
}

#[test]
fn plans(rt: HostRuntime) {
    for (name, ends, numbers, carried) in PLANS {
        assert!(rt;
            is_carried(rt.alloc(), ends, numbers) == Some(carried),
            "{name}"
        );
    }
}
