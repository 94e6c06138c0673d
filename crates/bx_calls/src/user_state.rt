//! The states of a call at the user side.

use crate::times::Times;
use bx_channels::Number;

/// What the user does with a call that it is offered.
#[derive(Clone, Copy, Debug, PartialEq, Eq)]
pub enum Policy {
    /// It is answered n seconds after the first tick to it: at once for 0, else after ALERTING.
    Answer(u32),
    /// It is refused, the user being busy.
    Busy,
    /// It is not answered at all.
    Silent,
    /// ALERTING is sent, and no more.
    Alert,
    /// CALL PROCEEDING is sent, and no more.
    Proceed,
    /// It is answered at once and cleared n seconds after it became Active, but not in that same second.
    Clear(u32),
}

/// Which side began a call of the user side: the network, with the user's policy and the moment of the
/// SETUP, or this one, with the number that it calls.
#[derive(Clone, Copy)]
pub enum UserOrigin {
    Offered { policy: Policy, at: u32 },
    Calling { called: Number },
}

/// The states of the user side (ITU-T Q.931, 2.1.1). A state with a timer has the moment at which it is
/// due; `again` says that SETUP was sent twice.
#[derive(Clone, Copy)]
pub enum UserState {
    /// U1, T303: SETUP was sent, once or twice.
    CallInitiated {
        again: bool,
        due: u32,
    },
    /// U3, T310.
    OutgoingCallProceeding {
        due: u32,
    },
    /// U6.
    CallPresent,
    /// U7.
    CallReceived,
    /// U8, T313.
    ConnectRequest {
        due: u32,
    },
    /// U9.
    IncomingCallProceeding,
    /// U10, since this moment.
    Active {
        since: u32,
    },
    /// U11, T305, with the cause of the DISCONNECT.
    DisconnectRequest {
        cause: u8,
        due: u32,
    },
    /// U19, T308: RELEASE was sent so often since there is a link again, with this cause.
    ReleaseRequest {
        sent: Times,
        cause: Option<u8>,
        due: u32,
    },
}
