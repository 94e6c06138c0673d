//! Sets of channels, and what is refused as one.

use bx_base::{ChannelFault, ChannelSet};
use bx_channels::Channel;
use std::alloc::Global;

/// Numbers of channels with their fault, and how it is printed.
static CHANNEL_FAULTS: [(&[u8], ChannelFault, &str); 2] = [
    (
        &[1, 16],
        ChannelFault::NotABChannel(16),
        "N1 NotABChannel 16",
    ),
    (&[3, 3, 16], ChannelFault::Repeated(3), "N2 Repeated 3"),
];

/// Whether these numbers are refused with this fault, which is printed so.
fn is_refused(alloc: Global, numbers: &[u8], fault: ChannelFault, printed: &str) -> bool {
    match (ChannelSet::from_numbers(numbers), fault.to_string(alloc)) {
        (Err(found), Ok(words)) => found == fault && words.as_str() == printed,
        _ => false,
    }
}

/// Whether the set is that of three channels with the first and without the second, which can be added.
fn has_just_first(set: ChannelSet, first: Channel, second: Channel) -> bool {
    set.count() == 3 && set.has(first) && !set.has(second) && set.with(second).has(second)
}

/// Whether these two are the lowest of the set.
fn are_lowest(set: ChannelSet, first: Channel, second: Option<Channel>) -> bool {
    let none = ChannelSet::empty();
    set.lowest_free(none) == Some(first) && set.lowest_free(none.with(first)) == second
}

/// Whether a set of three channels has these, and that of none has none.
fn are_members() -> Option<bool> {
    let set = ChannelSet::from_numbers(&[31, 17, 2]).ok()?;
    let (two, three) = (Channel::new(2)?, Channel::new(3)?);
    Some(
        has_just_first(set, two, three)
            && are_lowest(set, two, Channel::new(17))
            && set.without(two).lowest_free(set.without(two)).is_none()
            && ChannelSet::from_numbers(&[]).ok()?.count() == 0,
    )
}

#[test]
fn channel_sets(rt: HostRuntime) {
    for (numbers, fault, printed) in CHANNEL_FAULTS {
        assert!(rt;
            is_refused(rt.alloc(), numbers, fault, printed),
            "{printed}"
        );
    }
    assert!(rt; are_members() == Some(true), "members");
}
