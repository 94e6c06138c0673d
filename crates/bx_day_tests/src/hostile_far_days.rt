//! The far end at the opening, and with a call in each state that a message can find.

use bx_cases::messages::{
    CONNECT, CONNECT_ACKNOWLEDGE, DISCONNECT, FAR_DISCONNECT, PROCEEDING, RELEASE_COMPLETE,
    SETUP_NOT_COMPLETE,
};
use bx_worked_days::TICK;

/// How a day comes to a call of reference 1 on channel 1: its name, the script, what happens, the state of
/// the call then (0: there is none), and whether the network began it. In each script calls to 1 find the user busy.
pub(crate) struct Ready {
    pub(crate) name: &'static str,
    pub(crate) script: &'static str,
    pub(crate) steps: &'static [&'static [u8]],
    pub(crate) state: u8,
    pub(crate) from_network: bool,
}

const LATE: &str = "number,policy,seconds\n1,busy,0\n*,answer,5\n";

pub(crate) const SILENT: &str = "number,policy,seconds\n1,busy,0\n*,silent,0\n";

const PROCEED: &str = "number,policy,seconds\n1,busy,0\n*,proceed,0\n";

const ALERT: &str = "number,policy,seconds\n1,busy,0\n*,alert,0\n";

const ANSWER: &str = "number,policy,seconds\n1,busy,0\n*,answer,0\n";

const CLEAR: &str = "number,policy,seconds\n1,busy,0\n*,clear,0\n";

const CALLING: &str = "number,policy,seconds,channel\n1,busy,0,\n1234,call,1,1\n";

pub(crate) static DAYS: [Ready; 15] = [
    Ready {
        name: "opened",
        script: LATE,
        steps: &[],
        state: 0,
        from_network: true,
    },
    Ready {
        name: "silent",
        script: SILENT,
        steps: &[SETUP_NOT_COMPLETE],
        state: 0,
        from_network: true,
    },
    Ready {
        name: "U6",
        script: LATE,
        steps: &[SETUP_NOT_COMPLETE],
        state: 6,
        from_network: true,
    },
    Ready {
        name: "U9",
        script: PROCEED,
        steps: &[SETUP_NOT_COMPLETE, TICK],
        state: 9,
        from_network: true,
    },
    Ready {
        name: "U7",
        script: ALERT,
        steps: &[SETUP_NOT_COMPLETE, TICK],
        state: 7,
        from_network: true,
    },
    Ready {
        name: "U8",
        script: ANSWER,
        steps: &[SETUP_NOT_COMPLETE, TICK],
        state: 8,
        from_network: true,
    },
    Ready {
        name: "U10",
        script: ANSWER,
        steps: &[SETUP_NOT_COMPLETE, TICK, CONNECT_ACKNOWLEDGE],
        state: 10,
        from_network: true,
    },
    Ready {
        name: "U11",
        script: CLEAR,
        steps: &[SETUP_NOT_COMPLETE, TICK, CONNECT_ACKNOWLEDGE, TICK],
        state: 11,
        from_network: true,
    },
    Ready {
        name: "U19",
        script: LATE,
        steps: &[SETUP_NOT_COMPLETE, DISCONNECT],
        state: 19,
        from_network: true,
    },
    Ready {
        name: "released",
        script: LATE,
        steps: &[SETUP_NOT_COMPLETE, RELEASE_COMPLETE],
        state: 0,
        from_network: true,
    },
    Ready {
        name: "U1",
        script: CALLING,
        steps: &[TICK],
        state: 1,
        from_network: false,
    },
    Ready {
        name: "U3",
        script: CALLING,
        steps: &[TICK, PROCEEDING],
        state: 3,
        from_network: false,
    },
    Ready {
        name: "U10 of its own call",
        script: CALLING,
        steps: &[TICK, CONNECT],
        state: 10,
        from_network: false,
    },
    Ready {
        name: "U19 of its own call",
        script: CALLING,
        steps: &[TICK, FAR_DISCONNECT],
        state: 19,
        from_network: false,
    },
    Ready {
        name: "in maintenance",
        script: LATE,
        steps: &[
            SETUP_NOT_COMPLETE,
            DISCONNECT,
            TICK,
            TICK,
            TICK,
            TICK,
            TICK,
            TICK,
            TICK,
            TICK,
        ],
        state: MAINTENANCE,
        from_network: true,
    },
];

/// In place of a state: no call, and channel 1 is in maintenance.
pub(crate) const MAINTENANCE: u8 = 255;
