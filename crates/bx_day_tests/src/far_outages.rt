//! Days of the far end with seconds in which there is no link.

use crate::far_days::{Ending, FREE, ends};
use crate::steps::{Step, first_wrong};
use bx_calls::CallState;
use bx_cases::messages::{
    ALERTING_CHANNEL_1, CONNECT, CONNECT_ACKNOWLEDGE, CONNECT_CHANNEL_1, FAR_DISCONNECT_16,
    FAR_DISCONNECT_102, FAR_RELEASE_16, SETUP, USER_RELEASE_COMPLETE_102,
};
use bx_far::Far;
use bx_worked_days::far_of;
use std::alloc::Global;

/// A script; what happens before seconds without a link, to which moment these go, and what happens after them; and how channel 1
/// is in the end.
struct Outage {
    name: &'static str,
    script: &'static str,
    before: &'static [Step],
    to: u32,
    following: &'static [Step],
    ending: Ending,
}

static OUTAGES: [Outage; 7] = [
    Outage {
        name: "T313 begins anew, however much of it was over",
        script: "number,policy,seconds\n*,answer,0\n",
        before: &[
            (0, SETUP, &[]),
            (1, &[], &[CONNECT_CHANNEL_1]),
            (4, &[], &[]),
        ],
        to: 10,
        following: &[(14, &[], &[FAR_DISCONNECT_102])],
        ending: (Some((1, CallState::DisconnectRequest)), false),
    },
    Outage {
        name: "CONNECT is given up 4 seconds with a link behind it",
        script: "number,policy,seconds\n*,answer,0\n",
        before: &[(0, SETUP, &[]), (1, &[], &[CONNECT_CHANNEL_1])],
        to: 30,
        following: &[(34, &[], &[FAR_DISCONNECT_102])],
        ending: (Some((1, CallState::DisconnectRequest)), false),
    },
    Outage {
        name: "what is cleared is released at once, and once more",
        script: "number,policy,seconds\n*,clear,1\n",
        before: &[
            (0, SETUP, &[]),
            (1, &[], &[CONNECT_CHANNEL_1]),
            (1, CONNECT_ACKNOWLEDGE, &[]),
            (2, &[], &[FAR_DISCONNECT_16]),
        ],
        to: 10,
        following: &[
            (11, &[], &[FAR_RELEASE_16]),
            (15, &[], &[FAR_RELEASE_16]),
            (19, &[], &[]),
        ],
        ending: (None, true),
    },
    Outage {
        name: "RELEASE that was said twice is said twice again",
        script: "number,policy,seconds\n*,clear,1\n",
        before: &[
            (0, SETUP, &[]),
            (1, &[], &[CONNECT_CHANNEL_1]),
            (1, CONNECT_ACKNOWLEDGE, &[]),
            (2, &[], &[FAR_DISCONNECT_16]),
            (32, &[], &[FAR_RELEASE_16]),
            (36, &[], &[FAR_RELEASE_16]),
        ],
        to: 90,
        following: &[
            (91, &[], &[FAR_RELEASE_16]),
            (95, &[], &[FAR_RELEASE_16]),
            (98, &[], &[]),
            (99, &[], &[]),
        ],
        ending: (None, true),
    },
    Outage {
        name: "no row calls, and its reference is not used",
        script: "number,policy,seconds,channel\n99,call,1,1\n1234,call,5,1\n",
        before: &[],
        to: 3,
        following: &[(5, &[], &[SETUP])],
        ending: (Some((1, CallState::CallInitiated)), false),
    },
    Outage {
        name: "SETUP is sent again and given up as much later",
        script: "number,policy,seconds,channel\n1234,call,1,1\n",
        before: &[(1, &[], &[SETUP])],
        to: 20,
        following: &[(24, &[], &[SETUP]), (28, &[], &[USER_RELEASE_COMPLETE_102])],
        ending: FREE,
    },
    Outage {
        name: "answered in the first second with a link",
        script: "number,policy,seconds\n*,answer,2\n",
        before: &[(0, SETUP, &[]), (1, &[], &[ALERTING_CHANNEL_1])],
        to: 9,
        following: &[(10, &[], &[CONNECT])],
        ending: (Some((1, CallState::ConnectRequest)), false),
    },
];

/// Lets seconds without a link go by to this moment, and answers whether they came to it.
fn goes_without(far: &mut Far, moment: u32) -> bool {
    for _second in far.moment()..moment {
        far.second_without_link();
    }
    far.moment() == moment
}

/// Whether a day goes as it should.
fn day_goes(alloc: Global, outage: &Outage) -> Option<bool> {
    let mut far = far_of(alloc, outage.script)?;
    let before = first_wrong(&mut far, outage.before).is_none();
    let without = goes_without(&mut far, outage.to);
    let following = first_wrong(&mut far, outage.following).is_none();
    Some(before && without && following && ends(&far, outage.ending))
}

#[test]
fn far_outages(rt: HostRuntime) {
    for outage in &OUTAGES {
        let name = outage.name;
        assert!(rt; day_goes(rt.alloc(), outage) == Some(true), "{name}");
    }
}
