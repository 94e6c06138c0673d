//! Days of ticks alone: what is sent, when, and what becomes of the bookings.

use crate::booked_days::{Day, run_day};
use bx_cases::SHARE;
use bx_cases::messages::{RELEASE_COMPLETE_102, SETUP, SETUP_CHANNEL_2, SETUP_REFERENCE_2};
use std::test::Fail;

static DAYS: [Day<'static>; 4] = [
    Day {
        bookings: &[(0, 60, 1, false)],
        steps: &[(1, &[], &[SETUP])],
        told: "1 live\nmaintenance none\n",
    },
    Day {
        bookings: &[(0, 1, 1, false)],
        steps: &[(1, &[], &[])],
        told: "1 missed\nmaintenance none\n",
    },
    Day {
        bookings: &[(0, 60, 2, false), (0, 60, 1, false)],
        steps: &[
            (1, &[], &[SETUP_REFERENCE_2, SETUP_CHANNEL_2]),
            (2, &[], &[]),
        ],
        told: "1 live\n2 live\nmaintenance none\n",
    },
    Day {
        bookings: &[(100, 200, 1, false)],
        steps: &[
            (100, &[], &[SETUP]),
            (104, &[], &[SETUP]),
            (108, &[], &[RELEASE_COMPLETE_102]),
            (300_002 / SHARE, &[], &[]),
        ],
        told: "1 unanswered\nmaintenance none\n",
    },
];

#[test]
fn days_without_messages(rt: HostRuntime) -> Result<(), Fail> {
    for day in &DAYS {
        run_day(rt.alloc(), day)?;
    }
    Ok(())
}
