//! Calls as the network sees them, begun by it and by the user.

use crate::steps::{After, Row, after_report, net_goes, says};
use bx_calls::{CallState, NetCall, Next, Rules, Transition};
use bx_cases::messages::{
    ALERTING_CHANNEL_1, CONNECT, CONNECT_ACKNOWLEDGE, CONNECT_CHANNEL_1, CONNECT_CHANNEL_2,
    DISCONNECT_16, FAR_DISCONNECT_16, FAR_RELEASE, FAR_STATUS_BARE, FAR_STATUS_NULL,
    PROCEEDING_CHANNEL_1, RELEASE, RELEASE_6, RELEASE_16, RELEASE_COMPLETE, RELEASE_COMPLETE_102,
    SETUP, STATUS_101,
};
use bx_channels::{Channel, Number};
use bx_q931::{Out, encode, read};
use std::test::Fail;

const PRESENT: After = After::Live(CallState::CallPresent);

const ACTIVE: After = After::Live(CallState::Active);

const CLEARING: After = After::Live(CallState::DisconnectIndication);

const RELEASED: After = After::Live(CallState::ReleaseRequest);

const CONNECTED: Row = (100, CONNECT, CONNECT_ACKNOWLEDGE, ACTIVE);

/// Calls that the network offers at 100, of a booking that ends at 200.
static OFFERED: [(&str, &[Row]); 8] = [
    (
        "answered twice, and gone on the other side",
        &[
            CONNECTED,
            (100, CONNECT, STATUS_101, ACTIVE),
            (100, FAR_STATUS_NULL, &[], After::Over),
        ],
    ),
    (
        "answered with its channel",
        &[
            (100, CONNECT_CHANNEL_1, CONNECT_ACKNOWLEDGE, ACTIVE),
            (100, FAR_STATUS_BARE, &[], ACTIVE),
        ],
    ),
    (
        "answered on another channel",
        &[
            (100, CONNECT_CHANNEL_2, RELEASE_6, RELEASED),
            (103, &[], &[], RELEASED),
            (104, &[], RELEASE_6, RELEASED),
        ],
    ),
    (
        "another channel behind the first answer",
        &[
            (
                100,
                PROCEEDING_CHANNEL_1,
                &[],
                After::Live(CallState::IncomingCallProceeding),
            ),
            (
                100,
                ALERTING_CHANNEL_1,
                &[],
                After::Live(CallState::CallReceived),
            ),
            (101, CONNECT_CHANNEL_2, CONNECT_ACKNOWLEDGE, ACTIVE),
        ],
    ),
    (
        "not answered",
        &[
            (103, &[], &[], PRESENT),
            (104, &[], SETUP, PRESENT),
            (108, &[], RELEASE_COMPLETE_102, After::Over),
        ],
    ),
    (
        "cleared at the end of the booking, and never released",
        &[
            CONNECTED,
            (199, &[], &[], ACTIVE),
            (200, &[], DISCONNECT_16, CLEARING),
            (229, &[], &[], CLEARING),
            (230, &[], RELEASE_16, RELEASED),
            (234, &[], RELEASE_16, RELEASED),
            (237, &[], &[], RELEASED),
            (238, &[], &[], After::Broken),
        ],
    ),
    (
        "released by the other side",
        &[CONNECTED, (200, FAR_RELEASE, RELEASE_COMPLETE, After::Over)],
    ),
    (
        "cleared by the other side",
        &[
            CONNECTED,
            (200, FAR_DISCONNECT_16, RELEASE, RELEASED),
            (203, FAR_DISCONNECT_16, &[], RELEASED),
            (204, &[], RELEASE, RELEASED),
            (207, FAR_RELEASE, &[], After::Over),
        ],
    ),
];

/// A call that the user begins at 1, of a booking that ends at 60.
static ANSWERED: [Row; 3] = [
    (2, &[], CONNECT_CHANNEL_1, ACTIVE),
    (2, CONNECT_ACKNOWLEDGE, &[], ACTIVE),
    (
        60,
        &[],
        &[0x08, 0x02, 0x80, 0x01, 0x45, 0x08, 0x02, 0x82, 0x90],
        CLEARING,
    ),
];

/// RELEASE with cause 101, of a call that the network began, and of one that the user began.
const RELEASE_101: &[u8] = &[0x08, 0x02, 0x00, 0x01, 0x4D, 0x08, 0x02, 0x82, 0xE5];

const ANSWERED_RELEASE_101: &[u8] = &[0x08, 0x02, 0x80, 0x01, 0x4D, 0x08, 0x02, 0x82, 0xE5];

const STATUS_ENQUIRY: &[u8] = &[0x08, 0x02, 0x00, 0x01, 0x75];

/// STATUS with cause 30 of a user that reports Call Present, Call Received and Incoming Call Proceeding.
const REPORTS_U6: &[u8] = &[
    0x08, 0x02, 0x80, 0x01, 0x7D, 0x08, 0x02, 0x80, 0x9E, 0x14, 0x01, 0x06,
];

const REPORTS_U7: &[u8] = &[
    0x08, 0x02, 0x80, 0x01, 0x7D, 0x08, 0x02, 0x80, 0x9E, 0x14, 0x01, 0x07,
];

const REPORTS_U9: &[u8] = &[
    0x08, 0x02, 0x80, 0x01, 0x7D, 0x08, 0x02, 0x80, 0x9E, 0x14, 0x01, 0x09,
];

/// RELEASE COMPLETE with cause 81 of a user that does not have the call.
const LACKS_IT: &[u8] = &[0x08, 0x02, 0x80, 0x01, 0x5A, 0x08, 0x02, 0x80, 0xD1];

/// What a call that is offered at 100, and asked for at 111 after a second without a link, hears then, by which rules, and what is
/// left of it, with the moment at which its timer is due. Nothing is sent.
type Reported = (
    &'static str,
    Rules,
    &'static [&'static [u8]],
    After,
    Option<u32>,
);

static REPORTED: [Reported; 11] = [
    (
        "lacked",
        Rules::Three,
        &[FAR_STATUS_NULL],
        PRESENT,
        Some(112),
    ),
    (
        "lacked, as of an enquiry before",
        Rules::Three,
        &[FAR_STATUS_NULL, FAR_STATUS_NULL],
        PRESENT,
        Some(112),
    ),
    (
        "lacked twice by the rules 2",
        Rules::Two,
        &[FAR_STATUS_NULL, FAR_STATUS_NULL],
        After::Over,
        None,
    ),
    (
        "an unknown reference",
        Rules::Three,
        &[LACKS_IT],
        PRESENT,
        Some(112),
    ),
    (
        "an unknown reference, as of an enquiry before",
        Rules::Three,
        &[LACKS_IT, LACKS_IT],
        PRESENT,
        Some(112),
    ),
    (
        "an unknown reference by the rules 2",
        Rules::Two,
        &[LACKS_IT],
        After::Over,
        None,
    ),
    ("present", Rules::Three, &[REPORTS_U6], PRESENT, Some(115)),
    (
        "proceeding",
        Rules::Three,
        &[REPORTS_U9],
        After::Live(CallState::IncomingCallProceeding),
        Some(121),
    ),
    (
        "alerted",
        Rules::Three,
        &[REPORTS_U7],
        After::Live(CallState::CallReceived),
        Some(291),
    ),
    (
        "proceeding by the rules 2",
        Rules::Two,
        &[REPORTS_U9],
        PRESENT,
        Some(115),
    ),
    (
        "alerted by the rules 2",
        Rules::Two,
        &[REPORTS_U7],
        PRESENT,
        Some(115),
    ),
];

/// What is left of a call that hears this at 111, with its timer; None where something is sent.
fn left_by(call: NetCall, octets: &[u8], rules: Rules) -> Option<(Option<NetCall>, After)> {
    let Transition { next, reply } = call.on_message(&read(octets).ok()?, rules, 111);
    if !says(reply, &[]) {
        return None;
    }
    Some(match next {
        Next::Live(live) => (Some(live), After::Live(live.state())),
        Next::Over => (None, After::Over),
        Next::Broken => (None, After::Broken),
    })
}

/// Whether a call that is asked for goes by this row.
fn goes_by_report(asked: NetCall, row: &Reported) -> bool {
    let (mut call, mut after) = (Some(asked), PRESENT);
    for octets in row.2 {
        let Some(heard) = call.and_then(|live| left_by(live, octets, row.1)) else {
            return false;
        };
        (call, after) = heard;
    }
    after == row.3 && call.and_then(|live| live.due()) == row.4
}

/// The call that is offered, asked for at 111 after a second without a link.
fn asked_for(offered: NetCall) -> Option<NetCall> {
    let Next::Live(unlinked) = offered.on_seconds_unlinked(1, Rules::Three, 110, 200).next else {
        return None;
    };
    match unlinked.on_second(111, 200).next {
        Next::Live(asked) => Some(asked),
        _ => None,
    }
}

/// What a call hears at 100 that is offered then, the rules by which a second without a link goes by at 105, what is left of it, with the
/// moment at which its timer is due, and what is sent at 106.
type Rings = (
    &'static str,
    &'static [u8],
    Rules,
    CallState,
    u32,
    &'static [u8],
);

static RINGS: [Rings; 4] = [
    (
        "proceeding",
        PROCEEDING_CHANNEL_1,
        Rules::Three,
        CallState::CallPresent,
        106,
        STATUS_ENQUIRY,
    ),
    (
        "alerted",
        ALERTING_CHANNEL_1,
        Rules::Three,
        CallState::CallPresent,
        106,
        STATUS_ENQUIRY,
    ),
    (
        "proceeding by the rules 2",
        PROCEEDING_CHANNEL_1,
        Rules::Two,
        CallState::IncomingCallProceeding,
        111,
        &[],
    ),
    (
        "alerted by the rules 2",
        ALERTING_CHANNEL_1,
        Rules::Two,
        CallState::CallReceived,
        281,
        &[],
    ),
];

/// Whether a call that is offered goes by this row.
fn rings_so(offered: NetCall, row: &Rings) -> bool {
    let Some(rung) = following(offered, row.1) else {
        return false;
    };
    let Next::Live(unlinked) = rung.on_seconds_unlinked(1, row.2, 105, 200).next else {
        return false;
    };
    let is_left = unlinked.state() == row.3 && unlinked.due() == Some(row.4);
    is_left && says(unlinked.on_second(106, 200).reply, row.5)
}

#[test]
fn calls_that_ring(rt: HostRuntime) -> Result<(), Fail> {
    let channel = Channel::new(1).ok_or("a channel")?;
    let number = Number::new(b"1234").ok_or("a number")?;
    let (offered, _) = NetCall::offered(1, channel, number, false, 100);
    for row in &RINGS {
        assert!(rt; rings_so(offered, row), "{}", row.0);
    }
    Ok(())
}

#[test]
fn calls_that_are_asked_for(rt: HostRuntime) -> Result<(), Fail> {
    let channel = Channel::new(1).ok_or("a channel")?;
    let number = Number::new(b"1234").ok_or("a number")?;
    let (offered, _) = NetCall::offered(1, channel, number, false, 100);
    let asked = asked_for(offered).ok_or("a call that is asked for")?;
    for row in &REPORTED {
        assert!(rt; goes_by_report(asked, row), "{}", row.0);
    }
    Ok(())
}

/// Whether the call is one that is offered at 100 on this channel.
fn is_offered(call: &NetCall, setup: &Out, channel: Channel) -> bool {
    let is_named = call.reference() == 1 && !call.flag() && call.channel() == channel;
    let waits = call.due() == Some(104) && call.state() == CallState::CallPresent;
    is_named && waits && encode(setup).as_slice() == SETUP
}

#[test]
fn calls_that_the_network_begins(rt: HostRuntime) -> Result<(), Fail> {
    let channel = Channel::new(1).ok_or("a channel")?;
    let number = Number::new(b"1234").ok_or("a number")?;
    let (call, setup) = NetCall::offered(1, channel, number, false, 100);
    assert!(rt; is_offered(&call, &setup, channel), "offered");
    for (name, rows) in &OFFERED {
        assert!(rt; net_goes(call, 200, rows), "{name}");
    }
    Ok(())
}

/// What becomes of an Active call that is asked for, where this call state is reported of it: it is over, goes on where the state is
/// one of these, or is released so. One that waits for CONNECT ACKNOWLEDGE has it sent again, and by the rules 3 one that waits for
/// CONNECT.
fn goes_as_reported(
    call: NetCall,
    state: u8,
    rules: Rules,
    fitting: &[u8],
    release: &[u8],
) -> bool {
    let flag = if call.flag() { 0x00 } else { 0x80 };
    let octets = [0x08, 0x02, flag, 0x01, 0x7D, 0x14, 0x01, state];
    let (sent, after): (&[u8], After) = if state == 0 {
        (&[], After::Over)
    } else if state == 8 && !call.flag() {
        (CONNECT_ACKNOWLEDGE, ACTIVE)
    } else if (state == 1 || state == 3) && call.flag() && matches!(rules, Rules::Three) {
        (CONNECT_CHANNEL_1, ACTIVE)
    } else if fitting.contains(&state) {
        (&[], ACTIVE)
    } else {
        (release, RELEASED)
    };
    after_report(call, &octets, rules, sent) == Some(after)
}

/// The first call state with which it does otherwise, of an Active call.
fn first_odd_report(call: &NetCall, rules: Rules, fitting: &[u8], release: &[u8]) -> Option<u8> {
    for state in 0..64 {
        if !goes_as_reported(*call, state, rules, fitting, release) {
            return Some(state);
        }
    }
    None
}

/// The call as a message leaves it, at 100.
fn following(call: NetCall, octets: &[u8]) -> Option<NetCall> {
    match call.on_message(&read(octets).ok()?, Rules::Three, 100).next {
        Next::Live(live) => Some(live),
        _ => None,
    }
}

#[test]
fn call_states_that_are_reported(rt: HostRuntime) -> Result<(), Fail> {
    let channel = Channel::new(1).ok_or("a channel")?;
    let number = Number::new(b"1234").ok_or("a number")?;
    let (offered, _) = NetCall::offered(1, channel, number, false, 100);
    let active = following(offered, CONNECT).ok_or("a call that is answered")?;
    assert_eq!(rt;
        first_odd_report(&active, Rules::Three, &[8, 10], RELEASE_101),
        None
    );
    assert_eq!(rt;
        first_odd_report(&active, Rules::Two, &[8, 10], RELEASE_101),
        None
    );
    let (answered, _) = NetCall::answered(1, channel, 100);
    let Next::Live(active) = answered.on_second(101, 200).next else {
        return Err("a call that goes on".into());
    };
    assert_eq!(rt;
        first_odd_report(&active, Rules::Three, &[1, 3, 10], ANSWERED_RELEASE_101),
        None
    );
    assert_eq!(rt;
        first_odd_report(&active, Rules::Two, &[1, 3, 10], ANSWERED_RELEASE_101),
        None
    );
    Ok(())
}

/// Whether a call that is offered goes on where it is refused with this cause.
fn outlasts(call: &NetCall, cause: u8) -> bool {
    let octets = [0x08, 0x02, 0x80, 0x01, 0x5A, 0x08, 0x02, 0x80, 0x80 | cause];
    match following(*call, &octets) {
        Some(live) => live.state() == CallState::CallPresent && live.due() == Some(101),
        None => false,
    }
}

/// The first cause with which it does so though it is none of these, or does not though it is.
fn first_odd_refusal(call: &NetCall, passing: &[u8]) -> Option<u8> {
    for cause in 0..128 {
        if outlasts(call, cause) != passing.contains(&cause) {
            return Some(cause);
        }
    }
    None
}

#[test]
fn causes_of_refusals(rt: HostRuntime) -> Result<(), Fail> {
    let channel = Channel::new(1).ok_or("a channel")?;
    let number = Number::new(b"1234").ok_or("a number")?;
    let (offered, _) = NetCall::offered(1, channel, number, false, 100);
    assert_eq!(rt; first_odd_refusal(&offered, &[]), None);
    let (anew, _) = NetCall::offered(1, channel, number, true, 100);
    assert_eq!(rt; first_odd_refusal(&anew, &[41, 42, 44, 47, 102]), None);
    Ok(())
}

#[test]
fn a_call_that_the_user_begins(rt: HostRuntime) -> Result<(), Fail> {
    let channel = Channel::new(1).ok_or("a channel")?;
    let (call, proceeding) = NetCall::answered(1, channel, 1);
    assert_eq!(rt; encode(&proceeding).as_slice(), PROCEEDING_CHANNEL_1);
    assert_eq!(rt; (call.flag(), call.due()), (true, None));
    assert!(rt; net_goes(call, 60, &ANSWERED), "answered");
    Ok(())
}
