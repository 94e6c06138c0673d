//! Calls that the user begins, as it sees them.

use crate::steps::{After, Row, user_goes};
use bx_calls::{CallState, UserCall};
use bx_cases::messages::{
    CONNECT, CONNECT_CHANNEL_2, PROCEEDING_CHANNEL_1, SETUP, USER_RELEASE_COMPLETE_102,
};
use bx_channels::{Channel, Number};
use bx_q931::{Out, encode};
use std::test::Fail;

const INITIATED: After = After::Live(CallState::CallInitiated);

const PROCEEDING: After = After::Live(CallState::OutgoingCallProceeding);

const PROCEEDED: Row = (5, PROCEEDING_CHANNEL_1, &[], PROCEEDING);

/// Calls that the user begins at 1.
static CALLS: [(&str, &[Row]); 4] = [
    (
        "said again, and answered",
        &[
            (4, &[], &[], INITIATED),
            (5, &[], SETUP, INITIATED),
            PROCEEDED,
            (5, CONNECT, &[], After::Live(CallState::Active)),
        ],
    ),
    (
        "said again, and not answered",
        &[
            (5, &[], SETUP, INITIATED),
            (9, &[], USER_RELEASE_COMPLETE_102, After::Over),
        ],
    ),
    (
        "proceeding for too long",
        &[
            PROCEEDED,
            (34, &[], &[], PROCEEDING),
            (
                35,
                &[],
                &[0x08, 0x02, 0x00, 0x01, 0x45, 0x08, 0x02, 0x80, 0xE6],
                After::Live(CallState::DisconnectRequest),
            ),
        ],
    ),
    (
        "answered on another channel",
        &[(
            5,
            CONNECT_CHANNEL_2,
            &[0x08, 0x02, 0x00, 0x01, 0x4D, 0x08, 0x02, 0x80, 0x86],
            After::Live(CallState::ReleaseRequest),
        )],
    ),
];

/// Whether the call is one that is begun on this channel.
fn is_begun(call: &UserCall, setup: &Out, channel: Channel) -> bool {
    let is_named = call.reference() == 1 && !call.flag() && call.channel() == channel;
    is_named && call.state() == CallState::CallInitiated && encode(setup).as_slice() == SETUP
}

#[test]
fn calls_that_the_user_begins(rt: HostRuntime) -> Result<(), Fail> {
    let channel = Channel::new(1).ok_or("a channel")?;
    let number = Number::new(b"1234").ok_or("a number")?;
    let (call, setup) = UserCall::calling(1, channel, number, 1);
    assert!(rt; is_begun(&call, &setup, channel), "begun");
    for (name, rows) in &CALLS {
        assert!(rt; user_goes(call, rows), "{name}");
    }
    Ok(())
}
