//! Worked days with seconds in which there is no link.

use crate::steps::{Messages, first_wrong};
use bx_calls::CallState;
use bx_cases::messages::{
    ALERTING, CONNECT, CONNECT_ACKNOWLEDGE, DISCONNECT_16, FAR_RELEASE, FAR_RELEASE_COMPLETE,
    FAR_RELEASE_COMPLETE_17, FAR_RELEASE_COMPLETE_44, PROCEEDING, RELEASE_16, RELEASE_COMPLETE,
    RELEASE_COMPLETE_102, SETUP, SETUP_REFERENCE_2, SETUP_REFERENCE_7, STATUS_101,
};
use bx_channels::Channel;
use bx_day::{Exchange, Outcome};
use bx_events::Rules;
use bx_worked_days::{Row, exchange_of};
use std::alloc::Global;

/// What happens: ticks to a moment, of which only the last sends something, or octets that come at it, and what is sent; or
/// seconds without a link to a moment.
#[derive(Clone, Copy)]
enum Step {
    Linked(u32, &'static [u8], Messages),
    Without(u32),
}

/// Bookings of channel 1 and what happens; the outcomes in the end, who holds the channel, and whether it is in
/// maintenance.
struct Worked {
    name: &'static str,
    bookings: &'static [Row],
    steps: &'static [Step],
    outcomes: &'static [Outcome],
    held: Option<(u16, CallState)>,
    is_broken: bool,
}

const PROCEEDING_REFERENCE_7: &[u8] = &[0x08, 0x02, 0x80, 0x07, 0x02, 0x18, 0x03, 0xA9, 0x83, 0x81];

const CONNECT_REFERENCE_7: &[u8] = &[0x08, 0x02, 0x80, 0x07, 0x07, 0x18, 0x03, 0xA9, 0x83, 0x81];

const DISCONNECT_16_REFERENCE_7: &[u8] = &[0x08, 0x02, 0x80, 0x07, 0x45, 0x08, 0x02, 0x82, 0x90];

const RELEASE_16_REFERENCE_7: &[u8] = &[0x08, 0x02, 0x80, 0x07, 0x4D, 0x08, 0x02, 0x82, 0x90];

const CONNECT_REFERENCE_2: &[u8] = &[0x08, 0x02, 0x80, 0x02, 0x07];

const CONNECT_ACKNOWLEDGE_REFERENCE_2: &[u8] = &[0x08, 0x02, 0x00, 0x02, 0x0F];

const STATUS_ENQUIRY: &[u8] = &[0x08, 0x02, 0x00, 0x01, 0x75];

const FAR_STATUS_ACTIVE: &[u8] = &[
    0x08, 0x02, 0x80, 0x01, 0x7D, 0x08, 0x02, 0x80, 0x9E, 0x14, 0x01, 0x0A,
];

const FAR_STATUS_NULL: &[u8] = &[
    0x08, 0x02, 0x80, 0x01, 0x7D, 0x08, 0x02, 0x80, 0x9E, 0x14, 0x01, 0x00,
];

/// U9, Incoming Call Proceeding, and U7, Call Received.
const FAR_STATUS_PROCEEDING: &[u8] = &[
    0x08, 0x02, 0x80, 0x01, 0x7D, 0x08, 0x02, 0x80, 0x9E, 0x14, 0x01, 0x09,
];

const FAR_STATUS_ALERTED: &[u8] = &[
    0x08, 0x02, 0x80, 0x01, 0x7D, 0x08, 0x02, 0x80, 0x9E, 0x14, 0x01, 0x07,
];

/// U8, Connect Request.
const FAR_STATUS_CONNECTING: &[u8] = &[
    0x08, 0x02, 0x80, 0x01, 0x7D, 0x08, 0x02, 0x80, 0x9E, 0x14, 0x01, 0x08,
];

/// U11, Disconnect Request.
const FAR_STATUS_DISCONNECTING: &[u8] = &[
    0x08, 0x02, 0x80, 0x01, 0x7D, 0x08, 0x02, 0x80, 0x9E, 0x14, 0x01, 0x0B,
];

/// U19, Release Request.
const FAR_STATUS_RELEASING: &[u8] = &[
    0x08, 0x02, 0x80, 0x01, 0x7D, 0x08, 0x02, 0x80, 0x9E, 0x14, 0x01, 0x13,
];

const RELEASE_101: &[u8] = &[0x08, 0x02, 0x00, 0x01, 0x4D, 0x08, 0x02, 0x82, 0xE5];

const STATUS_ENQUIRY_REFERENCE_7: &[u8] = &[0x08, 0x02, 0x80, 0x07, 0x75];

/// U3, Outgoing Call Proceeding, and U8.
const FAR_STATUS_PROCEEDING_REFERENCE_7: &[u8] = &[
    0x08, 0x02, 0x00, 0x07, 0x7D, 0x08, 0x02, 0x80, 0x9E, 0x14, 0x01, 0x03,
];

const FAR_STATUS_CONNECTING_REFERENCE_7: &[u8] = &[
    0x08, 0x02, 0x00, 0x07, 0x7D, 0x08, 0x02, 0x80, 0x9E, 0x14, 0x01, 0x08,
];

const RELEASE_101_REFERENCE_7: &[u8] = &[0x08, 0x02, 0x80, 0x07, 0x4D, 0x08, 0x02, 0x82, 0xE5];

const DISCONNECT_41: &[u8] = &[0x08, 0x02, 0x00, 0x01, 0x45, 0x08, 0x02, 0x82, 0xA9];

const DISCONNECT_102: &[u8] = &[0x08, 0x02, 0x00, 0x01, 0x45, 0x08, 0x02, 0x82, 0xE6];

static WORKED: [Worked; 24] = [
    Worked {
        name: "a booking that starts without a link is offered in the first second with one",
        bookings: &[(10, 60, 1, false)],
        steps: &[
            Step::Without(30),
            Step::Linked(31, &[], &[SETUP]),
            Step::Linked(31, CONNECT, &[CONNECT_ACKNOWLEDGE]),
        ],
        outcomes: &[Outcome::Live],
        held: Some((1, CallState::Active)),
        is_broken: false,
    },
    Worked {
        name: "a booking that ends without a link is missed at its end",
        bookings: &[(10, 60, 1, false)],
        steps: &[Step::Without(60)],
        outcomes: &[Outcome::Missed],
        held: None,
        is_broken: false,
    },
    Worked {
        name: "a booking waits up to its last second",
        bookings: &[(10, 60, 1, false)],
        steps: &[Step::Without(59)],
        outcomes: &[Outcome::Waiting],
        held: None,
        is_broken: false,
    },
    Worked {
        name: "a booking is offered in its last second",
        bookings: &[(10, 60, 1, false)],
        steps: &[Step::Without(58), Step::Linked(59, &[], &[SETUP])],
        outcomes: &[Outcome::Live],
        held: Some((1, CallState::CallPresent)),
        is_broken: false,
    },
    Worked {
        name: "a call is Active without a link as with one",
        bookings: &[(0, 60, 1, false)],
        steps: &[
            Step::Linked(1, &[], &[SETUP]),
            Step::Linked(1, CONNECT, &[CONNECT_ACKNOWLEDGE]),
            Step::Without(59),
            Step::Linked(60, &[], &[DISCONNECT_16]),
            Step::Linked(60, FAR_RELEASE, &[RELEASE_COMPLETE]),
        ],
        outcomes: &[Outcome::Carried { from: 1, until: 60 }],
        held: None,
        is_broken: false,
    },
    Worked {
        name: "a call whose end comes without a link is released in the first second with one",
        bookings: &[(0, 60, 1, false)],
        steps: &[
            Step::Linked(1, &[], &[SETUP]),
            Step::Linked(1, CONNECT, &[CONNECT_ACKNOWLEDGE]),
            Step::Without(90),
            Step::Linked(91, &[], &[RELEASE_16]),
            Step::Linked(91, FAR_RELEASE_COMPLETE, &[]),
        ],
        outcomes: &[Outcome::Carried { from: 1, until: 60 }],
        held: None,
        is_broken: false,
    },
    Worked {
        name: "where no answer to its release comes, its channel goes into maintenance 8 seconds later",
        bookings: &[(0, 60, 1, false)],
        steps: &[
            Step::Linked(1, &[], &[SETUP]),
            Step::Linked(1, CONNECT, &[CONNECT_ACKNOWLEDGE]),
            Step::Without(90),
            Step::Linked(91, &[], &[RELEASE_16]),
            Step::Linked(95, &[], &[RELEASE_16]),
            Step::Linked(99, &[], &[]),
        ],
        outcomes: &[Outcome::Carried { from: 1, until: 60 }],
        held: None,
        is_broken: true,
    },
    Worked {
        name: "a call that is offered waits for a link up to its last second",
        bookings: &[(10, 100, 1, false)],
        steps: &[
            Step::Linked(10, &[], &[SETUP]),
            Step::Linked(13, &[], &[]),
            Step::Without(99),
        ],
        outcomes: &[Outcome::Live],
        held: Some((1, CallState::CallPresent)),
        is_broken: false,
    },
    Worked {
        name: "a call in N9 is asked for, and T310 begins anew",
        bookings: &[(10, 100, 1, false)],
        steps: &[
            Step::Linked(10, &[], &[SETUP]),
            Step::Linked(10, PROCEEDING, &[]),
            Step::Without(50),
            Step::Linked(51, &[], &[STATUS_ENQUIRY]),
            Step::Linked(51, FAR_STATUS_PROCEEDING, &[]),
            Step::Linked(61, &[], &[DISCONNECT_102]),
        ],
        outcomes: &[Outcome::Live],
        held: Some((1, CallState::DisconnectIndication)),
        is_broken: false,
    },
    Worked {
        name: "a call in N7 is asked for, and T301 begins anew",
        bookings: &[(10, 500, 1, false)],
        steps: &[
            Step::Linked(10, &[], &[SETUP]),
            Step::Linked(10, ALERTING, &[]),
            Step::Without(210),
            Step::Linked(211, &[], &[STATUS_ENQUIRY]),
            Step::Linked(211, FAR_STATUS_ALERTED, &[]),
            Step::Linked(391, &[], &[DISCONNECT_102]),
        ],
        outcomes: &[Outcome::Live],
        held: Some((1, CallState::DisconnectIndication)),
        is_broken: false,
    },
    Worked {
        name: "a call in N7 whose CONNECT was lost is connected behind the outage",
        bookings: &[(10, 100, 1, false)],
        steps: &[
            Step::Linked(10, &[], &[SETUP]),
            Step::Linked(10, ALERTING, &[]),
            Step::Without(20),
            Step::Linked(21, &[], &[STATUS_ENQUIRY]),
            Step::Linked(21, FAR_STATUS_CONNECTING, &[CONNECT_ACKNOWLEDGE]),
        ],
        outcomes: &[Outcome::Live],
        held: Some((1, CallState::Active)),
        is_broken: false,
    },
    Worked {
        name: "a call in N9 that the user has not is offered again",
        bookings: &[(10, 100, 1, false)],
        steps: &[
            Step::Linked(10, &[], &[SETUP]),
            Step::Linked(10, PROCEEDING, &[]),
            Step::Without(20),
            Step::Linked(21, &[], &[STATUS_ENQUIRY]),
            Step::Linked(21, FAR_STATUS_NULL, &[]),
            Step::Linked(22, &[], &[SETUP]),
        ],
        outcomes: &[Outcome::Live],
        held: Some((1, CallState::CallPresent)),
        is_broken: false,
    },
    Worked {
        name: "RELEASE behind a DISCONNECT goes out in the first second with a link",
        bookings: &[(0, 60, 1, false)],
        steps: &[
            Step::Linked(1, &[], &[SETUP]),
            Step::Linked(1, CONNECT, &[CONNECT_ACKNOWLEDGE]),
            Step::Linked(60, &[], &[DISCONNECT_16]),
            Step::Without(100),
            Step::Linked(101, &[], &[RELEASE_16]),
        ],
        outcomes: &[Outcome::Live],
        held: Some((1, CallState::ReleaseRequest)),
        is_broken: false,
    },
    Worked {
        name: "behind 100 seconds without a link over an end the next booking is carried",
        bookings: &[(10, 60, 1, false), (120, 200, 1, false)],
        steps: &[
            Step::Linked(10, &[], &[SETUP]),
            Step::Linked(10, CONNECT, &[CONNECT_ACKNOWLEDGE]),
            Step::Without(110),
            Step::Linked(111, &[], &[RELEASE_16]),
            Step::Linked(111, FAR_RELEASE_COMPLETE, &[]),
            Step::Linked(120, &[], &[SETUP_REFERENCE_2]),
            Step::Linked(120, CONNECT_REFERENCE_2, &[CONNECT_ACKNOWLEDGE_REFERENCE_2]),
            Step::Without(201),
        ],
        outcomes: &[
            Outcome::Carried {
                from: 10,
                until: 60,
            },
            Outcome::Live,
        ],
        held: Some((2, CallState::DisconnectIndication)),
        is_broken: false,
    },
    Worked {
        name: "an inward call in N3 waits with its CONNECT for a link",
        bookings: &[(0, 60, 1, true)],
        steps: &[
            Step::Linked(1, &[], &[]),
            Step::Linked(1, SETUP_REFERENCE_7, &[PROCEEDING_REFERENCE_7]),
            Step::Without(58),
            Step::Linked(59, &[], &[CONNECT_REFERENCE_7]),
        ],
        outcomes: &[Outcome::Live],
        held: Some((1, CallState::Active)),
        is_broken: false,
    },
    Worked {
        name: "a second before its end it is in N3 still, and its end disconnects it",
        bookings: &[(0, 60, 1, true)],
        steps: &[
            Step::Linked(1, &[], &[]),
            Step::Linked(1, SETUP_REFERENCE_7, &[PROCEEDING_REFERENCE_7]),
            Step::Without(59),
            Step::Linked(60, &[], &[DISCONNECT_16_REFERENCE_7]),
        ],
        outcomes: &[Outcome::Live],
        held: Some((1, CallState::DisconnectIndication)),
        is_broken: false,
    },
    Worked {
        name: "at its end without a link it is cleared, and never was Active",
        bookings: &[(0, 60, 1, true)],
        steps: &[
            Step::Linked(1, &[], &[]),
            Step::Linked(1, SETUP_REFERENCE_7, &[PROCEEDING_REFERENCE_7]),
            Step::Without(60),
        ],
        outcomes: &[Outcome::Live],
        held: Some((1, CallState::DisconnectIndication)),
        is_broken: false,
    },
    Worked {
        name: "behind its end it is released",
        bookings: &[(0, 60, 1, true)],
        steps: &[
            Step::Linked(1, &[], &[]),
            Step::Linked(1, SETUP_REFERENCE_7, &[PROCEEDING_REFERENCE_7]),
            Step::Without(75),
            Step::Linked(76, &[], &[RELEASE_16_REFERENCE_7]),
        ],
        outcomes: &[Outcome::Live],
        held: Some((1, CallState::ReleaseRequest)),
        is_broken: false,
    },
    Worked {
        name: "a release that was sent twice is sent twice again from the first second with a link on",
        bookings: &[(0, 60, 1, false)],
        steps: &[
            Step::Linked(1, &[], &[SETUP]),
            Step::Linked(1, CONNECT, &[CONNECT_ACKNOWLEDGE]),
            Step::Linked(60, &[], &[DISCONNECT_16]),
            Step::Linked(90, &[], &[RELEASE_16]),
            Step::Linked(94, &[], &[RELEASE_16]),
            Step::Without(150),
            Step::Linked(151, &[], &[RELEASE_16]),
            Step::Linked(155, &[], &[RELEASE_16]),
            Step::Linked(158, &[], &[]),
        ],
        outcomes: &[Outcome::Live],
        held: Some((1, CallState::ReleaseRequest)),
        is_broken: false,
    },
    Worked {
        name: "it is given up 4 seconds with a link behind the second of these",
        bookings: &[(0, 60, 1, false)],
        steps: &[
            Step::Linked(1, &[], &[SETUP]),
            Step::Linked(1, CONNECT, &[CONNECT_ACKNOWLEDGE]),
            Step::Linked(60, &[], &[DISCONNECT_16]),
            Step::Linked(90, &[], &[RELEASE_16]),
            Step::Linked(94, &[], &[RELEASE_16]),
            Step::Without(150),
            Step::Linked(151, &[], &[RELEASE_16]),
            Step::Linked(155, &[], &[RELEASE_16]),
            Step::Linked(159, &[], &[]),
        ],
        outcomes: &[Outcome::Carried { from: 1, until: 60 }],
        held: None,
        is_broken: true,
    },
    Worked {
        name: "the user is asked in the first second with a link, and a call that it has goes on",
        bookings: &[(0, 60, 1, false)],
        steps: &[
            Step::Linked(1, &[], &[SETUP]),
            Step::Linked(1, CONNECT, &[CONNECT_ACKNOWLEDGE]),
            Step::Without(20),
            Step::Linked(21, &[], &[STATUS_ENQUIRY]),
            Step::Linked(21, FAR_STATUS_ACTIVE, &[]),
            Step::Linked(60, &[], &[DISCONNECT_16]),
        ],
        outcomes: &[Outcome::Live],
        held: Some((1, CallState::DisconnectIndication)),
        is_broken: false,
    },
    Worked {
        name: "a call that the user has not is over",
        bookings: &[(0, 60, 1, false)],
        steps: &[
            Step::Linked(1, &[], &[SETUP]),
            Step::Linked(1, CONNECT, &[CONNECT_ACKNOWLEDGE]),
            Step::Without(20),
            Step::Linked(21, &[], &[STATUS_ENQUIRY]),
            Step::Linked(21, FAR_STATUS_NULL, &[]),
        ],
        outcomes: &[Outcome::Carried { from: 1, until: 21 }],
        held: None,
        is_broken: false,
    },
    Worked {
        name: "where no answer comes it is asked once more, and then cleared",
        bookings: &[(0, 60, 1, false)],
        steps: &[
            Step::Linked(1, &[], &[SETUP]),
            Step::Linked(1, CONNECT, &[CONNECT_ACKNOWLEDGE]),
            Step::Without(20),
            Step::Linked(21, &[], &[STATUS_ENQUIRY]),
            Step::Linked(25, &[], &[STATUS_ENQUIRY]),
            Step::Linked(29, &[], &[DISCONNECT_41]),
            Step::Linked(29, FAR_RELEASE, &[RELEASE_COMPLETE]),
        ],
        outcomes: &[Outcome::Carried { from: 1, until: 29 }],
        held: None,
        is_broken: false,
    },
    Worked {
        name: "behind each outage it is asked anew",
        bookings: &[(0, 60, 1, false)],
        steps: &[
            Step::Linked(1, &[], &[SETUP]),
            Step::Linked(1, CONNECT, &[CONNECT_ACKNOWLEDGE]),
            Step::Without(20),
            Step::Linked(21, &[], &[STATUS_ENQUIRY]),
            Step::Linked(25, &[], &[STATUS_ENQUIRY]),
            Step::Without(27),
            Step::Linked(28, &[], &[STATUS_ENQUIRY]),
            Step::Linked(32, &[], &[STATUS_ENQUIRY]),
            Step::Linked(32, CONNECT, &[STATUS_101]),
            Step::Linked(60, &[], &[DISCONNECT_16]),
        ],
        outcomes: &[Outcome::Live],
        held: Some((1, CallState::DisconnectIndication)),
        is_broken: false,
    },
];

/// Calls that are asked for and reported of, and clearing that is put off.
static REPORTED: [Worked; 9] = [
    Worked {
        name: "a call that the user is disconnecting is released, and billed no longer",
        bookings: &[(0, 60, 1, false)],
        steps: &[
            Step::Linked(1, &[], &[SETUP]),
            Step::Linked(1, CONNECT, &[CONNECT_ACKNOWLEDGE]),
            Step::Without(20),
            Step::Linked(21, &[], &[STATUS_ENQUIRY]),
            Step::Linked(21, FAR_STATUS_DISCONNECTING, &[RELEASE_101]),
            Step::Linked(21, FAR_RELEASE_COMPLETE, &[]),
        ],
        outcomes: &[Outcome::Carried { from: 1, until: 21 }],
        held: None,
        is_broken: false,
    },
    Worked {
        name: "so is one that the user is releasing, whose RELEASE comes then",
        bookings: &[(0, 60, 1, false)],
        steps: &[
            Step::Linked(1, &[], &[SETUP]),
            Step::Linked(1, CONNECT, &[CONNECT_ACKNOWLEDGE]),
            Step::Without(20),
            Step::Linked(21, &[], &[STATUS_ENQUIRY]),
            Step::Linked(21, FAR_STATUS_RELEASING, &[RELEASE_101]),
            Step::Linked(21, FAR_RELEASE, &[]),
        ],
        outcomes: &[Outcome::Carried { from: 1, until: 21 }],
        held: None,
        is_broken: false,
    },
    Worked {
        name: "where no answer to that comes its channel goes into maintenance 8 seconds later",
        bookings: &[(0, 60, 1, false)],
        steps: &[
            Step::Linked(1, &[], &[SETUP]),
            Step::Linked(1, CONNECT, &[CONNECT_ACKNOWLEDGE]),
            Step::Without(20),
            Step::Linked(21, &[], &[STATUS_ENQUIRY]),
            Step::Linked(21, FAR_STATUS_RELEASING, &[RELEASE_101]),
            Step::Linked(25, &[], &[RELEASE_101]),
            Step::Linked(29, &[], &[]),
        ],
        outcomes: &[Outcome::Carried { from: 1, until: 21 }],
        held: None,
        is_broken: true,
    },
    Worked {
        name: "a call whose CONNECT ACKNOWLEDGE was lost has it again, and goes on",
        bookings: &[(0, 60, 1, false)],
        steps: &[
            Step::Linked(1, &[], &[SETUP]),
            Step::Linked(1, CONNECT, &[CONNECT_ACKNOWLEDGE]),
            Step::Without(20),
            Step::Linked(21, &[], &[STATUS_ENQUIRY]),
            Step::Linked(21, FAR_STATUS_CONNECTING, &[CONNECT_ACKNOWLEDGE]),
            Step::Linked(60, &[], &[DISCONNECT_16]),
        ],
        outcomes: &[Outcome::Live],
        held: Some((1, CallState::DisconnectIndication)),
        is_broken: false,
    },
    Worked {
        name: "behind the first answer a call is asked for no more",
        bookings: &[(0, 60, 1, false)],
        steps: &[
            Step::Linked(1, &[], &[SETUP]),
            Step::Linked(1, CONNECT, &[CONNECT_ACKNOWLEDGE]),
            Step::Without(20),
            Step::Linked(21, &[], &[STATUS_ENQUIRY]),
            Step::Linked(21, FAR_STATUS_ACTIVE, &[]),
            Step::Linked(21, FAR_STATUS_DISCONNECTING, &[]),
            Step::Linked(60, &[], &[DISCONNECT_16]),
        ],
        outcomes: &[Outcome::Live],
        held: Some((1, CallState::DisconnectIndication)),
        is_broken: false,
    },
    Worked {
        name: "an inward call whose CONNECT may be on its way, or lost, gets it again",
        bookings: &[(0, 60, 1, true)],
        steps: &[
            Step::Linked(1, &[], &[]),
            Step::Linked(1, SETUP_REFERENCE_7, &[PROCEEDING_REFERENCE_7]),
            Step::Linked(2, &[], &[CONNECT_REFERENCE_7]),
            Step::Without(20),
            Step::Linked(21, &[], &[STATUS_ENQUIRY_REFERENCE_7]),
            Step::Linked(
                21,
                FAR_STATUS_PROCEEDING_REFERENCE_7,
                &[CONNECT_REFERENCE_7],
            ),
            Step::Linked(60, &[], &[DISCONNECT_16_REFERENCE_7]),
        ],
        outcomes: &[Outcome::Live],
        held: Some((1, CallState::DisconnectIndication)),
        is_broken: false,
    },
    Worked {
        name: "an inward call is in no state of the called side",
        bookings: &[(0, 60, 1, true)],
        steps: &[
            Step::Linked(1, &[], &[]),
            Step::Linked(1, SETUP_REFERENCE_7, &[PROCEEDING_REFERENCE_7]),
            Step::Linked(2, &[], &[CONNECT_REFERENCE_7]),
            Step::Without(20),
            Step::Linked(21, &[], &[STATUS_ENQUIRY_REFERENCE_7]),
            Step::Linked(
                21,
                FAR_STATUS_CONNECTING_REFERENCE_7,
                &[RELEASE_101_REFERENCE_7],
            ),
        ],
        outcomes: &[Outcome::Live],
        held: Some((1, CallState::ReleaseRequest)),
        is_broken: false,
    },
    Worked {
        name: "two outages of a second, each behind the last try, put it off by 9 seconds each",
        bookings: &[(0, 60, 1, false)],
        steps: &[
            Step::Linked(1, &[], &[SETUP]),
            Step::Linked(1, CONNECT, &[CONNECT_ACKNOWLEDGE]),
            Step::Linked(60, &[], &[DISCONNECT_16]),
            Step::Linked(90, &[], &[RELEASE_16]),
            Step::Linked(94, &[], &[RELEASE_16]),
            Step::Linked(97, &[], &[]),
            Step::Without(98),
            Step::Linked(99, &[], &[RELEASE_16]),
            Step::Linked(103, &[], &[RELEASE_16]),
            Step::Linked(106, &[], &[]),
            Step::Without(107),
            Step::Linked(108, &[], &[RELEASE_16]),
            Step::Linked(112, &[], &[RELEASE_16]),
            Step::Linked(115, &[], &[]),
        ],
        outcomes: &[Outcome::Live],
        held: Some((1, CallState::ReleaseRequest)),
        is_broken: false,
    },
    Worked {
        name: "and no longer: 38 seconds, 2 without a link and T308 four times behind its end it is over",
        bookings: &[(0, 60, 1, false)],
        steps: &[
            Step::Linked(1, &[], &[SETUP]),
            Step::Linked(1, CONNECT, &[CONNECT_ACKNOWLEDGE]),
            Step::Linked(60, &[], &[DISCONNECT_16]),
            Step::Linked(90, &[], &[RELEASE_16]),
            Step::Linked(94, &[], &[RELEASE_16]),
            Step::Linked(97, &[], &[]),
            Step::Without(98),
            Step::Linked(99, &[], &[RELEASE_16]),
            Step::Linked(103, &[], &[RELEASE_16]),
            Step::Linked(106, &[], &[]),
            Step::Without(107),
            Step::Linked(108, &[], &[RELEASE_16]),
            Step::Linked(112, &[], &[RELEASE_16]),
            Step::Linked(116, &[], &[]),
        ],
        outcomes: &[Outcome::Carried { from: 1, until: 60 }],
        held: None,
        is_broken: true,
    },
];

/// Calls that are offered before an outage, or in the first second with a link.
static OFFERED: [Worked; 19] = [
    Worked {
        name: "a call that is offered is asked for in the first second with a link, and offered a second later where it is not known",
        bookings: &[(10, 100, 1, false)],
        steps: &[
            Step::Linked(10, &[], &[SETUP]),
            Step::Without(40),
            Step::Linked(41, &[], &[STATUS_ENQUIRY]),
            Step::Linked(41, FAR_STATUS_NULL, &[]),
            Step::Linked(42, &[], &[SETUP]),
            Step::Linked(42, CONNECT, &[CONNECT_ACKNOWLEDGE]),
        ],
        outcomes: &[Outcome::Live],
        held: Some((1, CallState::Active)),
        is_broken: false,
    },
    Worked {
        name: "that is as for the first time",
        bookings: &[(10, 100, 1, false)],
        steps: &[
            Step::Linked(10, &[], &[SETUP]),
            Step::Without(40),
            Step::Linked(41, &[], &[STATUS_ENQUIRY]),
            Step::Linked(41, FAR_STATUS_NULL, &[]),
            Step::Linked(42, &[], &[SETUP]),
            Step::Linked(46, &[], &[SETUP]),
            Step::Linked(50, &[], &[RELEASE_COMPLETE_102]),
        ],
        outcomes: &[Outcome::Unanswered],
        held: None,
        is_broken: false,
    },
    Worked {
        name: "and refused then, it is over",
        bookings: &[(10, 100, 1, false)],
        steps: &[
            Step::Linked(10, &[], &[SETUP]),
            Step::Without(40),
            Step::Linked(41, &[], &[STATUS_ENQUIRY]),
            Step::Linked(41, FAR_STATUS_NULL, &[]),
            Step::Linked(42, &[], &[SETUP]),
            Step::Linked(42, FAR_RELEASE_COMPLETE_44, &[]),
        ],
        outcomes: &[Outcome::Unanswered],
        held: None,
        is_broken: false,
    },
    Worked {
        name: "where the user waits for CONNECT ACKNOWLEDGE, it has that, and the call is Active",
        bookings: &[(10, 100, 1, false)],
        steps: &[
            Step::Linked(10, &[], &[SETUP]),
            Step::Without(40),
            Step::Linked(41, &[], &[STATUS_ENQUIRY]),
            Step::Linked(41, FAR_STATUS_CONNECTING, &[CONNECT_ACKNOWLEDGE]),
            Step::Linked(99, &[], &[]),
        ],
        outcomes: &[Outcome::Live],
        held: Some((1, CallState::Active)),
        is_broken: false,
    },
    Worked {
        name: "so it has where it tells that the call is Active",
        bookings: &[(10, 100, 1, false)],
        steps: &[
            Step::Linked(10, &[], &[SETUP]),
            Step::Without(40),
            Step::Linked(41, &[], &[STATUS_ENQUIRY]),
            Step::Linked(41, FAR_STATUS_ACTIVE, &[CONNECT_ACKNOWLEDGE]),
            Step::Linked(99, &[], &[]),
        ],
        outcomes: &[Outcome::Live],
        held: Some((1, CallState::Active)),
        is_broken: false,
    },
    Worked {
        name: "any other call state is no answer, and without one the call is offered 4 seconds later, as for the first time",
        bookings: &[(10, 100, 1, false)],
        steps: &[
            Step::Linked(10, &[], &[SETUP]),
            Step::Without(40),
            Step::Linked(41, &[], &[STATUS_ENQUIRY]),
            Step::Linked(41, FAR_STATUS_RELEASING, &[]),
            Step::Linked(45, &[], &[SETUP]),
            Step::Linked(49, &[], &[SETUP]),
            Step::Linked(53, &[], &[RELEASE_COMPLETE_102]),
        ],
        outcomes: &[Outcome::Unanswered],
        held: None,
        is_broken: false,
    },
    Worked {
        name: "CONNECT is an answer",
        bookings: &[(10, 100, 1, false)],
        steps: &[
            Step::Linked(10, &[], &[SETUP]),
            Step::Without(40),
            Step::Linked(41, &[], &[STATUS_ENQUIRY]),
            Step::Linked(43, &[], &[]),
            Step::Linked(43, CONNECT, &[CONNECT_ACKNOWLEDGE]),
            Step::Linked(99, &[], &[]),
        ],
        outcomes: &[Outcome::Live],
        held: Some((1, CallState::Active)),
        is_broken: false,
    },
    Worked {
        name: "behind each outage it is asked for anew",
        bookings: &[(10, 100, 1, false)],
        steps: &[
            Step::Linked(10, &[], &[SETUP]),
            Step::Without(40),
            Step::Linked(41, &[], &[STATUS_ENQUIRY]),
            Step::Without(42),
            Step::Linked(43, &[], &[STATUS_ENQUIRY]),
            Step::Linked(43, FAR_STATUS_NULL, &[]),
            Step::Without(45),
            Step::Linked(46, &[], &[STATUS_ENQUIRY]),
            Step::Linked(46, FAR_STATUS_NULL, &[]),
            Step::Linked(47, &[], &[SETUP]),
        ],
        outcomes: &[Outcome::Live],
        held: Some((1, CallState::CallPresent)),
        is_broken: false,
    },
    Worked {
        name: "refused by a cause that passes while it is asked for, it is offered a second later",
        bookings: &[(10, 100, 1, false)],
        steps: &[
            Step::Linked(10, &[], &[SETUP]),
            Step::Without(40),
            Step::Linked(41, &[], &[STATUS_ENQUIRY]),
            Step::Linked(41, FAR_RELEASE_COMPLETE_44, &[]),
            Step::Linked(42, &[], &[SETUP]),
            Step::Linked(42, CONNECT, &[CONNECT_ACKNOWLEDGE]),
        ],
        outcomes: &[Outcome::Live],
        held: Some((1, CallState::Active)),
        is_broken: false,
    },
    Worked {
        name: "its end disconnects a call that is asked for",
        bookings: &[(10, 43, 1, false)],
        steps: &[
            Step::Linked(10, &[], &[SETUP]),
            Step::Without(40),
            Step::Linked(41, &[], &[STATUS_ENQUIRY]),
            Step::Linked(43, &[], &[DISCONNECT_16]),
            Step::Linked(43, FAR_RELEASE, &[RELEASE_COMPLETE]),
        ],
        outcomes: &[Outcome::Unanswered],
        held: None,
        is_broken: false,
    },
    Worked {
        name: "a call that is first offered in the first second with a link, and refused by a cause that passes, is offered a second later",
        bookings: &[(10, 100, 1, false)],
        steps: &[
            Step::Without(30),
            Step::Linked(31, &[], &[SETUP]),
            Step::Linked(31, FAR_RELEASE_COMPLETE_44, &[]),
            Step::Linked(32, &[], &[SETUP]),
            Step::Linked(32, CONNECT, &[CONNECT_ACKNOWLEDGE]),
        ],
        outcomes: &[Outcome::Live],
        held: Some((1, CallState::Active)),
        is_broken: false,
    },
    Worked {
        name: "refused in a later second it is too",
        bookings: &[(10, 100, 1, false)],
        steps: &[
            Step::Without(30),
            Step::Linked(31, &[], &[SETUP]),
            Step::Linked(33, &[], &[]),
            Step::Linked(33, FAR_RELEASE_COMPLETE_44, &[]),
            Step::Linked(34, &[], &[SETUP]),
            Step::Linked(34, CONNECT, &[CONNECT_ACKNOWLEDGE]),
        ],
        outcomes: &[Outcome::Live],
        held: Some((1, CallState::Active)),
        is_broken: false,
    },
    Worked {
        name: "refused again it is over",
        bookings: &[(10, 100, 1, false)],
        steps: &[
            Step::Without(30),
            Step::Linked(31, &[], &[SETUP]),
            Step::Linked(31, FAR_RELEASE_COMPLETE_44, &[]),
            Step::Linked(32, &[], &[SETUP]),
            Step::Linked(32, FAR_RELEASE_COMPLETE_44, &[]),
        ],
        outcomes: &[Outcome::Unanswered],
        held: None,
        is_broken: false,
    },
    Worked {
        name: "refused by a busy user it is over at once",
        bookings: &[(10, 100, 1, false)],
        steps: &[
            Step::Without(30),
            Step::Linked(31, &[], &[SETUP]),
            Step::Linked(31, FAR_RELEASE_COMPLETE_17, &[]),
        ],
        outcomes: &[Outcome::Unanswered],
        held: None,
        is_broken: false,
    },
    Worked {
        name: "and refused without a cause",
        bookings: &[(10, 100, 1, false)],
        steps: &[
            Step::Without(30),
            Step::Linked(31, &[], &[SETUP]),
            Step::Linked(31, FAR_RELEASE_COMPLETE, &[]),
        ],
        outcomes: &[Outcome::Unanswered],
        held: None,
        is_broken: false,
    },
    Worked {
        name: "not answered it is offered once more",
        bookings: &[(10, 100, 1, false)],
        steps: &[
            Step::Without(30),
            Step::Linked(31, &[], &[SETUP]),
            Step::Linked(35, &[], &[SETUP]),
            Step::Linked(39, &[], &[RELEASE_COMPLETE_102]),
        ],
        outcomes: &[Outcome::Unanswered],
        held: None,
        is_broken: false,
    },
    Worked {
        name: "and refused then, it is over",
        bookings: &[(10, 100, 1, false)],
        steps: &[
            Step::Without(30),
            Step::Linked(31, &[], &[SETUP]),
            Step::Linked(35, &[], &[SETUP]),
            Step::Linked(35, FAR_RELEASE_COMPLETE_44, &[]),
        ],
        outcomes: &[Outcome::Unanswered],
        held: None,
        is_broken: false,
    },
    Worked {
        name: "in any second but the first with a link a refusal ends it",
        bookings: &[(32, 100, 1, false)],
        steps: &[
            Step::Without(30),
            Step::Linked(32, &[], &[SETUP]),
            Step::Linked(32, FAR_RELEASE_COMPLETE_44, &[]),
        ],
        outcomes: &[Outcome::Unanswered],
        held: None,
        is_broken: false,
    },
    Worked {
        name: "so it does where there was no outage",
        bookings: &[(10, 100, 1, false)],
        steps: &[
            Step::Linked(10, &[], &[SETUP]),
            Step::Linked(10, FAR_RELEASE_COMPLETE_44, &[]),
        ],
        outcomes: &[Outcome::Unanswered],
        held: None,
        is_broken: false,
    },
];

/// Lets seconds without a link go by to this moment, one by one or at once.
fn goes_without(exchange: &mut Exchange, moment: u32, at_once: bool) {
    let seconds = moment.saturating_sub(exchange.moment());
    if at_once {
        exchange.skip_without_link(seconds, Rules::Three);
    } else {
        for _second in 0..seconds {
            exchange.second_without_link(Rules::Three);
        }
    }
}

fn goes(exchange: &mut Exchange, step: Step, at_once: bool) -> bool {
    match step {
        Step::Linked(moment, octets, sent) => {
            first_wrong(exchange, &[(moment, octets, sent)]).is_none()
        }
        Step::Without(moment) => {
            goes_without(exchange, moment, at_once);
            exchange.moment() == moment
        }
    }
}

/// Whether the outcomes are these, and channel 1 is held and in maintenance as it should be.
fn is_told(exchange: &Exchange, worked: &Worked) -> bool {
    let mut told = true;
    for (row, outcome) in (1..).zip(worked.outcomes) {
        told &= exchange.outcome(row) == Some(*outcome);
    }
    match Channel::new(1) {
        Some(channel) => {
            told && exchange.on_channel(channel) == worked.held
                && exchange.in_maintenance(channel) == worked.is_broken
        }
        None => false,
    }
}

/// Whether a day goes as it should, with its seconds without a link one by one or at once.
fn day_goes(alloc: Global, worked: &Worked, at_once: bool) -> Option<bool> {
    let mut exchange = exchange_of(alloc, worked.bookings)?;
    let mut same = true;
    for step in worked.steps {
        same &= goes(&mut exchange, *step, at_once);
    }
    Some(same && is_told(&exchange, worked))
}

#[test]
fn worked_outages(rt: HostRuntime) {
    for worked in &WORKED {
        let name = worked.name;
        assert!(rt; day_goes(rt.alloc(), worked, false) == Some(true), "{name}");
        assert!(rt;
            day_goes(rt.alloc(), worked, true) == Some(true),
            "at once: {name}"
        );
    }
}

#[test]
fn reported_calls(rt: HostRuntime) {
    for worked in &REPORTED {
        let name = worked.name;
        assert!(rt; day_goes(rt.alloc(), worked, false) == Some(true), "{name}");
        assert!(rt;
            day_goes(rt.alloc(), worked, true) == Some(true),
            "at once: {name}"
        );
    }
}

#[test]
fn offered_calls(rt: HostRuntime) {
    for worked in &OFFERED {
        let name = worked.name;
        assert!(rt; day_goes(rt.alloc(), worked, false) == Some(true), "{name}");
        assert!(rt;
            day_goes(rt.alloc(), worked, true) == Some(true),
            "at once: {name}"
        );
    }
}

/// What is told of a booking of the last second after an outage of 80,000 seconds, and of one longer than the day.
fn told_after_hours(alloc: Global) -> Option<[(u32, Outcome); 3]> {
    let mut exchange = exchange_of(alloc, &[(80_000, 80_001, 1, false)])?;
    exchange.skip_without_link(80_000, Rules::Three);
    let first = (exchange.moment(), exchange.outcome(1)?);
    exchange.skip_without_link(1, Rules::Three);
    let second = (exchange.moment(), exchange.outcome(1)?);
    exchange.skip_without_link(u32::MAX, Rules::Three);
    exchange.second_without_link(Rules::Three);
    Some([first, second, (exchange.moment(), exchange.outcome(1)?)])
}

#[test]
fn outage_of_hours(rt: HostRuntime) {
    assert!(rt;
        told_after_hours(rt.alloc())
            == Some([
                (80_000, Outcome::Waiting),
                (80_001, Outcome::Missed),
                (300_000, Outcome::Missed),
            ]),
        "hours"
    );
}
