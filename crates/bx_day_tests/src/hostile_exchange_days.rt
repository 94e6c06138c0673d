//! The exchange at the opening, and with a call in each state that a message can find.

use bx_cases::messages::{
    ALERTING, CONNECT, DISCONNECT_REFERENCE_7, FAR_DISCONNECT, FAR_RELEASE_COMPLETE, PROCEEDING,
    SETUP_REFERENCE_7_UNNUMBERED,
};
use bx_worked_days::TICK;

/// How a day comes to a call on channel 1: its name, whether its booking is inward, what happens, and the
/// state of the call then (0: there is none).
pub(crate) struct Ready {
    pub(crate) name: &'static str,
    pub(crate) inward: bool,
    pub(crate) steps: &'static [&'static [u8]],
    pub(crate) state: u8,
}

pub(crate) static DAYS: [Ready; 14] = [
    Ready {
        name: "opened, with an outward booking",
        inward: false,
        steps: &[],
        state: 0,
    },
    Ready {
        name: "opened, with an inward booking",
        inward: true,
        steps: &[],
        state: 0,
    },
    Ready {
        name: "N6",
        inward: false,
        steps: &[TICK],
        state: 6,
    },
    Ready {
        name: "N9",
        inward: false,
        steps: &[TICK, PROCEEDING],
        state: 9,
    },
    Ready {
        name: "N7",
        inward: false,
        steps: &[TICK, ALERTING],
        state: 7,
    },
    Ready {
        name: "N10",
        inward: false,
        steps: &[TICK, CONNECT],
        state: 10,
    },
    Ready {
        name: "N12",
        inward: false,
        steps: &[TICK, TICK, TICK],
        state: 12,
    },
    Ready {
        name: "N19",
        inward: false,
        steps: &[TICK, FAR_DISCONNECT],
        state: 19,
    },
    Ready {
        name: "released",
        inward: false,
        steps: &[TICK, FAR_RELEASE_COMPLETE],
        state: 0,
    },
    Ready {
        name: "N3 of an inward booking",
        inward: true,
        steps: &[TICK, SETUP_REFERENCE_7_UNNUMBERED],
        state: 3,
    },
    Ready {
        name: "N10 of an inward booking",
        inward: true,
        steps: &[TICK, SETUP_REFERENCE_7_UNNUMBERED, TICK],
        state: 10,
    },
    Ready {
        name: "N12 of an inward booking",
        inward: true,
        steps: &[TICK, SETUP_REFERENCE_7_UNNUMBERED, TICK, TICK],
        state: 12,
    },
    Ready {
        name: "N19 of an inward booking",
        inward: true,
        steps: &[TICK, SETUP_REFERENCE_7_UNNUMBERED, DISCONNECT_REFERENCE_7],
        state: 19,
    },
    Ready {
        name: "in maintenance",
        inward: false,
        steps: &[
            TICK,
            FAR_DISCONNECT,
            TICK,
            TICK,
            TICK,
            TICK,
            TICK,
            TICK,
            TICK,
            TICK,
        ],
        state: 0,
    },
];
