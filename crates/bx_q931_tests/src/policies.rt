//! What the user does with a call that it is offered, by each policy.

use crate::steps::{After, Row, user_goes};
use bx_calls::{CallState, Policy, UserCall};
use bx_cases::messages::{
    ALERTING_CHANNEL_1, CONNECT, CONNECT_ACKNOWLEDGE, CONNECT_CHANNEL_1, FAR_DISCONNECT_16,
    FAR_DISCONNECT_102, FAR_RELEASE_16, PROCEEDING_CHANNEL_1,
};
use bx_channels::Channel;
use std::test::Fail;

const PRESENT: After = After::Live(CallState::CallPresent);

const RECEIVED: After = After::Live(CallState::CallReceived);

const REQUESTED: After = After::Live(CallState::ConnectRequest);

const ACTIVE: After = After::Live(CallState::Active);

const PROCEEDING: After = After::Live(CallState::IncomingCallProceeding);

const CLEARING: After = After::Live(CallState::DisconnectRequest);

/// Policies, and how a call goes that is offered at 1.
static POLICIES: [(&str, Policy, &[Row]); 7] = [
    (
        "answered at once",
        Policy::Answer(0),
        &[
            (2, &[], CONNECT_CHANNEL_1, REQUESTED),
            (5, CONNECT_ACKNOWLEDGE, &[], ACTIVE),
            (6, &[], &[], ACTIVE),
        ],
    ),
    (
        "answered after 2 seconds",
        Policy::Answer(2),
        &[
            (2, &[], ALERTING_CHANNEL_1, RECEIVED),
            (3, &[], &[], RECEIVED),
            (4, &[], CONNECT, REQUESTED),
            (7, &[], &[], REQUESTED),
            (8, &[], FAR_DISCONNECT_102, CLEARING),
        ],
    ),
    ("busy", Policy::Busy, &[(2, &[], &[], PRESENT)]),
    ("silent", Policy::Silent, &[(2, &[], &[], PRESENT)]),
    (
        "alerted",
        Policy::Alert,
        &[
            (2, &[], ALERTING_CHANNEL_1, RECEIVED),
            (3, &[], &[], RECEIVED),
        ],
    ),
    (
        "proceeding",
        Policy::Proceed,
        &[
            (2, &[], PROCEEDING_CHANNEL_1, PROCEEDING),
            (3, &[], &[], PROCEEDING),
        ],
    ),
    (
        "cleared after 3 seconds",
        Policy::Clear(3),
        &[
            (2, &[], CONNECT_CHANNEL_1, REQUESTED),
            (2, CONNECT_ACKNOWLEDGE, &[], ACTIVE),
            (4, &[], &[], ACTIVE),
            (5, &[], FAR_DISCONNECT_16, CLEARING),
            (34, &[], &[], CLEARING),
            (
                35,
                &[],
                FAR_RELEASE_16,
                After::Live(CallState::ReleaseRequest),
            ),
        ],
    ),
];

#[test]
fn calls_by_policy(rt: HostRuntime) -> Result<(), Fail> {
    let channel = Channel::new(1).ok_or("a channel")?;
    for (name, policy, rows) in &POLICIES {
        let call = UserCall::offered(1, channel, *policy, 1);
        assert!(rt; user_goes(call, rows), "{name}");
    }
    Ok(())
}
