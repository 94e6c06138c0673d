//! Channels for the bookings of a small day, and choices that do not fit.

use crate::rows::{Row, bookings_of};
use bx_base::{Bookings, ChannelSet};
use bx_channels::Channel;
use bx_colour::{colour, fits};
use std::alloc::Global;
use std::test::Fail;

static ROWS: [Row; 4] = [
    (0, 10, 1, false),
    (0, 10, 1, false),
    (10, 20, 1, false),
    (5, 12, 1, false),
];

/// A choice by its name, the bookings that are accepted, and the channels that they are given (0: none); none where they do
/// not fit on channels 15 and 17.
type Choice = (&'static str, &'static [bool], Option<[u8; 4]>);

static CHOICES: [Choice; 4] = [
    (
        "two that start together",
        &[true, true, false, false],
        Some([15, 17, 0, 0]),
    ),
    (
        "two that touch, and one over both",
        &[false, true, true, true],
        Some([0, 15, 15, 17]),
    ),
    ("three at once", &[true, true, false, true], None),
    ("too few marks", &[true, false], None),
];

/// Whether the given channels are these numbers (0: none).
pub(crate) fn are_given(given: &[Option<Channel>], numbers: &[u8]) -> bool {
    let mut same = given.len() == numbers.len();
    for (channel, number) in given.iter().zip(numbers) {
        same &= *channel == Channel::new(*number);
    }
    same
}

/// Whether the accepted bookings get just these channels; false only where it is otherwise.
fn is_coloured(alloc: Global, bookings: &Bookings, choice: &Choice) -> Option<bool> {
    let channels = ChannelSet::from_numbers(&[17, 15]).ok()?;
    if fits(bookings, choice.1, channels) {
        let given = colour(alloc, bookings, choice.1, channels).ok()?;
        return Some(are_given(&given, &choice.2?));
    }
    Some(choice.2.is_none())
}

#[test]
fn two_at_once_on_channels_15_and_17(rt: HostRuntime) -> Result<(), Fail> {
    let bookings = bookings_of(rt.alloc(), &ROWS).ok_or("rows")?;
    for choice in &CHOICES {
        assert!(rt;
            is_coloured(rt.alloc(), &bookings, choice) == Some(true),
            "{}",
            choice.0
        );
    }
    Ok(())
}
