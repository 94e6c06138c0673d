//! Pictures of small days: what is drawn of each booking, of outages, of the moment to which a day has come, and of channels in maintenance.

use crate::days_drawn::{Step, day_of, drawn};
use crate::small_day::SMALL_DAY;
use bx_calendar::Clock;
use bx_cases::messages::{CONNECT, FAR_DISCONNECT_16, FAR_RELEASE, FAR_RELEASE_COMPLETE_17};
use bx_chart::ChartFault;
use bx_worked_days::Row;
use std::alloc::Global;
use std::test::Fail;

/// How the part begins whose units are the seconds of a day on three channels.
const DAY_PART: &[u8] =
    b"<svg x='56' y='92' width='1120' height='48' viewBox='0 0 86400 30' preserveAspectRatio='none'>";

/// How it ends.
const DAY_PART_END: &[u8] = b"</svg>";

/// A day, and all that stands in that part.
struct Shown {
    name: &'static str,
    bookings: &'static [Row],
    steps: &'static [Step],
    is_over: bool,
    part: &'static [u8],
}

static SHOWN: [Shown; 11] = [
    Shown {
        name: "a call that was carried from its start to its end",
        bookings: &[(10, 60, 1, false)],
        steps: &[
            Step::Linked(10),
            Step::Heard(CONNECT),
            Step::Linked(60),
            Step::Heard(FAR_RELEASE),
        ],
        is_over: true,
        part: b"<g><title>row 1: 1234 pays 5, 0:00:10 to 0:01:00; carried from 0:00:10 until 0:01:00</title><rect class='free out planned' x='10' y='3' width='50' height='5'/><rect class='free out carried' x='10' y='3' width='50' height='5'/></g>\n",
    },
    Shown {
        name: "a call that was answered late",
        bookings: &[(10, 60, 2, false)],
        steps: &[
            Step::Linked(13),
            Step::Heard(CONNECT),
            Step::Linked(60),
            Step::Heard(FAR_RELEASE),
        ],
        is_over: true,
        part: b"<g><title>row 1: 1234 pays 5, 0:00:10 to 0:01:00; carried from 0:00:13 until 0:01:00</title><rect class='free out planned' x='10' y='13' width='50' height='5'/><rect class='free out carried' x='13' y='13' width='47' height='5'/></g>\n",
    },
    Shown {
        name: "a call that was cut short",
        bookings: &[(10, 60, 3, false)],
        steps: &[
            Step::Linked(10),
            Step::Heard(CONNECT),
            Step::Linked(40),
            Step::Heard(FAR_DISCONNECT_16),
            Step::Heard(FAR_RELEASE_COMPLETE_17),
        ],
        is_over: true,
        part: b"<g><title>row 1: 1234 pays 5, 0:00:10 to 0:01:00; carried from 0:00:10 until 0:00:40</title><rect class='free out planned' x='10' y='23' width='50' height='5'/><rect class='free out carried' x='10' y='23' width='30' height='5'/><path class='mark' d='M40 23L60 28'/></g>\n",
    },
    Shown {
        name: "a call that the far end did not take",
        bookings: &[(10, 60, 1, false)],
        steps: &[Step::Linked(10), Step::Heard(FAR_RELEASE_COMPLETE_17)],
        is_over: true,
        part: b"<g><title>row 1: 1234 pays 5, 0:00:10 to 0:01:00; unanswered</title><rect class='free out planned' x='10' y='3' width='50' height='5'/><path class='mark' d='M10 8L60 3'/><path class='mark' d='M10 3L60 8'/></g>\n",
    },
    Shown {
        name: "a call that was missed, as there was no link",
        bookings: &[(10, 60, 1, false)],
        steps: &[Step::Linked(9), Step::Without(60)],
        is_over: true,
        part: b"<g><title>row 1: 1234 pays 5, 0:00:10 to 0:01:00; missed</title><rect class='free out planned' x='10' y='3' width='50' height='5'/><path class='mark' d='M10 8L60 3'/></g>\n<rect class='outage' x='9' y='0' width='51' height='30'><title>no link from 0:00:09 until 0:01:00</title></rect>\n",
    },
    Shown {
        name: "a call that is up now",
        bookings: &[(10, 60, 1, false)],
        steps: &[Step::Linked(10), Step::Heard(CONNECT), Step::Linked(30)],
        is_over: false,
        part: b"<g><title>row 1: 1234 pays 5, 0:00:10 to 0:01:00; live; carried from 0:00:10 until 0:00:30</title><rect class='free out planned live' x='10' y='3' width='50' height='5'/><rect class='free out carried' x='10' y='3' width='20' height='5'/></g>\n",
    },
    Shown {
        name: "a call that is not answered yet",
        bookings: &[(10, 60, 1, false)],
        steps: &[Step::Linked(11)],
        is_over: false,
        part: b"<g><title>row 1: 1234 pays 5, 0:00:10 to 0:01:00; live</title><rect class='free out planned live' x='10' y='3' width='50' height='5'/></g>\n",
    },
    Shown {
        name: "a call that is being cleared",
        bookings: &[(10, 60, 1, false)],
        steps: &[Step::Linked(10), Step::Heard(CONNECT), Step::Linked(70)],
        is_over: false,
        part: b"<g><title>row 1: 1234 pays 5, 0:00:10 to 0:01:00; live; carried from 0:00:10 until 0:01:00</title><rect class='free out planned live' x='10' y='3' width='50' height='5'/><rect class='free out carried' x='10' y='3' width='50' height='5'/></g>\n",
    },
    Shown {
        name: "calls that wait, one of them inward, and one that the plan refuses",
        bookings: &[(10, 60, 1, false), (10, 60, 0, false), (70, 90, 1, true)],
        steps: &[Step::Linked(5)],
        is_over: false,
        part: b"<g><title>row 1: 1234 pays 5, 0:00:10 to 0:01:00; waiting</title><rect class='free out planned' x='10' y='3' width='50' height='5'/></g>\n<g><title>row 3: 1234 pays 5, 0:01:10 to 0:01:30; waiting</title><rect class='free in planned' x='70' y='3' width='20' height='5'/></g>\n",
    },
    Shown {
        name: "two outages of one second, and one of two",
        bookings: &[],
        steps: &[
            Step::Without(1),
            Step::Linked(2),
            Step::Without(3),
            Step::Linked(5),
            Step::Without(7),
            Step::Linked(8),
        ],
        is_over: true,
        part: b"<rect class='outage' x='0' y='0' width='1' height='30'><title>no link from 0:00:00 until 0:00:01</title></rect>\n<rect class='outage' x='2' y='0' width='1' height='30'><title>no link from 0:00:02 until 0:00:03</title></rect>\n<rect class='outage' x='5' y='0' width='2' height='30'><title>no link from 0:00:05 until 0:00:07</title></rect>\n",
    },
    Shown {
        name: "a day of nothing",
        bookings: &[],
        steps: &[],
        is_over: true,
        part: b"",
    },
];

/// What stands in the part of a picture whose units are seconds.
fn part_of(alloc: Global, text: &[u8]) -> Option<Vec<u8>> {
    let mut part = Vec::new(alloc);
    let mut is_inside = false;
    for line in text.split(|octet| *octet == b'\n') {
        if line == DAY_PART {
            is_inside = true;
        } else if line == DAY_PART_END {
            is_inside = false;
        } else if is_inside {
            part.extend_from_slice(line).ok()?;
            part.push(b'\n').ok()?;
        }
    }
    Some(part)
}

/// Whether a picture has a line at now.
fn has_now(text: &[u8]) -> bool {
    let mut has_now = false;
    for line in text.split(|octet| *octet == b'\n') {
        has_now = has_now || line.starts_with(b"<path class='now' d='M");
    }
    has_now
}

fn is_shown(alloc: Global, shown: &Shown) -> Option<bool> {
    let day = day_of(alloc, shown.bookings, shown.steps)?;
    let (text, fault) = drawn(alloc, day, shown.is_over, None, 100_000)?;
    let part = part_of(alloc, &text)?;
    let is_drawn = part.as_slice() == shown.part && has_now(&text) != shown.is_over;
    Some(fault.is_none() && is_drawn)
}

#[test]
fn days(rt: HostRuntime) {
    for shown in &SHOWN {
        assert!(rt; is_shown(rt.alloc(), shown) == Some(true), "{}", shown.name);
    }
}

/// What answers STATUS ENQUIRY, which is sent after an outage.
const FAR_STATUS_ACTIVE: &[u8] = &[
    0x08, 0x02, 0x80, 0x01, 0x7D, 0x08, 0x02, 0x80, 0x9E, 0x14, 0x01, 0x0A,
];

/// A day on which a call was carried over an outage, and its release not answered, and two wait.
const BOOKINGS: &[Row] = &[
    (10, 3600, 1, false),
    (7200, 14_400, 2, true),
    (7200, 10_800, 1, false),
];

const STEPS: &[Step] = &[
    Step::Linked(10),
    Step::Heard(CONNECT),
    Step::Linked(3000),
    Step::Without(3100),
    Step::Linked(3101),
    Step::Heard(FAR_STATUS_ACTIVE),
    Step::Linked(5400),
];

fn small(alloc: Global, octets: u32) -> Option<(Vec<u8>, Option<ChartFault>)> {
    let clock = Clock::new("2026-01-05", "UTC0").ok()?;
    drawn(
        alloc,
        day_of(alloc, BOOKINGS, STEPS)?,
        false,
        Some(&clock),
        octets,
    )
}

#[test]
fn a_small_day(rt: HostRuntime) -> Result<(), Fail> {
    let (text, fault) = small(rt.alloc(), 100_000).ok_or("no day")?;
    assert!(rt; fault.is_none(), "a fault");
    assert!(rt; text.as_slice() == SMALL_DAY.as_bytes(), "another picture");
    Ok(())
}

#[test]
fn an_output_that_fails(rt: HostRuntime) -> Result<(), Fail> {
    let (text, fault) = small(rt.alloc(), 700).ok_or("no day")?;
    assert!(rt; fault == Some(ChartFault::WriteFailed), "no fault");
    assert!(rt; text.as_slice() == &SMALL_DAY.as_bytes()[..700], "no front");
    Ok(())
}
