//! Days of the far end by its script.

use crate::steps::{Step, first_wrong};
use bx_calls::CallState;
use bx_cases::messages::{
    ALERTING_CHANNEL_1, CONNECT, CONNECT_ACKNOWLEDGE, CONNECT_CHANNEL_1, FAR_DISCONNECT_16,
    FAR_DISCONNECT_102, FAR_RELEASE_16, FAR_RELEASE_COMPLETE, FAR_RELEASE_COMPLETE_17,
    FAR_RELEASE_COMPLETE_44, PROCEEDING_CHANNEL_1, RELEASE, SETUP, SETUP_CHANNEL_2,
    SETUP_REFERENCE_2, SETUP_REFERENCE_3_CHANNEL_3, USER_RELEASE_COMPLETE_102,
};
use bx_channels::Channel;
use bx_far::Far;
use bx_worked_days::far_of;
use std::alloc::Global;
use std::test::Fail;

/// RELEASE COMPLETE of a second call, whose channel is not free.
const NO_CHANNEL_2: &[u8] = &[0x08, 0x02, 0x80, 0x02, 0x5A, 0x08, 0x02, 0x80, 0xAC];

/// Who holds channel 1, and whether it is in maintenance.
pub(crate) type Ending = (Option<(u16, CallState)>, bool);

pub(crate) const FREE: Ending = (None, false);

/// A second call of the far end.
const CALLED_AGAIN: Ending = (Some((2, CallState::CallInitiated)), false);

/// A call of the far end's that is not answered, and the next, which has the next reference.
const UNANSWERED: &[Step] = &[
    (1, &[], &[SETUP]),
    (5, &[], &[SETUP]),
    (9, &[], &[USER_RELEASE_COMPLETE_102]),
    (10, &[], &[SETUP_REFERENCE_2]),
];

/// A script, what happens, and how channel 1 is in the end.
type Day = (&'static str, &'static [Step], Ending);

static DAYS: [Day; 12] = [
    // answered at once, and acknowledged; a second call on its channel
    (
        "number,policy,seconds\n*,answer,0\n",
        &[
            (0, SETUP, &[]),
            (1, &[], &[CONNECT_CHANNEL_1]),
            (1, SETUP_REFERENCE_2, &[NO_CHANNEL_2]),
            (1, CONNECT_ACKNOWLEDGE, &[]),
            (9, &[], &[]),
        ],
        (Some((1, CallState::Active)), false),
    ),
    // answered at once, and not acknowledged
    (
        "number,policy,seconds\n",
        &[
            (0, SETUP, &[]),
            (1, &[], &[CONNECT_CHANNEL_1]),
            (5, &[], &[FAR_DISCONNECT_102]),
        ],
        (Some((1, CallState::DisconnectRequest)), false),
    ),
    // answered late
    (
        "number,policy,seconds\n1234,answer,2\n*,busy,0\n",
        &[
            (4, &[], &[]),
            (4, SETUP, &[]),
            (5, &[], &[ALERTING_CHANNEL_1]),
            (7, &[], &[CONNECT]),
        ],
        (Some((1, CallState::ConnectRequest)), false),
    ),
    (
        "number,policy,seconds\n1234,busy,0\n",
        &[(0, SETUP, &[FAR_RELEASE_COMPLETE_17]), (9, &[], &[])],
        FREE,
    ),
    (
        "number,policy,seconds\n12345,busy,0\n1234,silent,0\n",
        &[(0, SETUP, &[]), (9, &[], &[])],
        FREE,
    ),
    (
        "number,policy,seconds\n*,alert,0\n",
        &[
            (0, SETUP, &[]),
            (1, &[], &[ALERTING_CHANNEL_1]),
            (999, &[], &[]),
        ],
        (Some((1, CallState::CallReceived)), false),
    ),
    (
        "number,policy,seconds\n*,proceed,0\n",
        &[
            (0, SETUP, &[]),
            (1, &[], &[PROCEEDING_CHANNEL_1]),
            (999, &[], &[]),
        ],
        (Some((1, CallState::IncomingCallProceeding)), false),
    ),
    // cleared, and never released
    (
        "number,policy,seconds\n*,clear,1\n",
        &[
            (0, SETUP, &[]),
            (1, &[], &[CONNECT_CHANNEL_1]),
            (1, CONNECT_ACKNOWLEDGE, &[]),
            (2, &[], &[FAR_DISCONNECT_16]),
            (32, &[], &[FAR_RELEASE_16]),
            (36, &[], &[FAR_RELEASE_16]),
            (40, &[], &[]),
            (40, SETUP, &[FAR_RELEASE_COMPLETE_44]),
        ],
        (None, true),
    ),
    // a call of the far end: connected and cleared by the network
    (
        "number,policy,seconds,channel\n1234,call,1,1\n",
        &[
            (1, &[], &[SETUP]),
            (1, CONNECT, &[]),
            (9, &[], &[]),
            (
                9,
                &[0x08, 0x02, 0x80, 0x01, 0x45, 0x08, 0x02, 0x82, 0x90],
                &[RELEASE],
            ),
            (9, FAR_RELEASE_COMPLETE, &[]),
        ],
        FREE,
    ),
    (
        "number,policy,seconds,channel\n1234,call,1,1\n*,busy,0,\n1234,call,10,01\n",
        UNANSWERED,
        CALLED_AGAIN,
    ),
    // two calls in one second, in the order of their channels, and none on a channel that is called on or held
    (
        "number,policy,seconds,channel\n1234,call,1,2\n1234,call,1,1\n99,call,1,1\n99,call,2,2\n1234,call,2,3\n",
        &[
            (1, &[], &[SETUP_REFERENCE_2, SETUP_CHANNEL_2]),
            (2, &[], &[SETUP_REFERENCE_3_CHANNEL_3]),
        ],
        CALLED_AGAIN,
    ),
    // a call that ends in a second holds its channel in that second
    (
        "number,policy,seconds,channel\n1234,call,1,1\n99,call,9,1\n1234,call,10,1\n",
        UNANSWERED,
        CALLED_AGAIN,
    ),
];

/// Whether channel 1 ends so.
pub(crate) fn ends(far: &Far, ending: Ending) -> bool {
    match Channel::new(1) {
        Some(channel) => (far.on_channel(channel), far.in_maintenance(channel)) == ending,
        None => false,
    }
}

/// Runs a day, and refuses one that goes otherwise.
fn run_day(alloc: Global, day: &Day) -> Result<(), Fail> {
    let (script, steps, ending) = *day;
    let mut far = far_of(alloc, script).ok_or("script")?;
    if let Some(moment) = first_wrong(&mut far, steps) {
        return Err(Fail::new(moment));
    }
    if ends(&far, ending) {
        Ok(())
    } else {
        Err(Fail::new("the end"))
    }
}

#[test]
fn days_of_scripts(rt: HostRuntime) -> Result<(), Fail> {
    for day in &DAYS {
        run_day(rt.alloc(), day)?;
    }
    Ok(())
}
