//! Worked lists of events, with each message that is sent.

use crate::two_ends::{Ends, Event, opened};
use bx_calls::CallState;
use bx_cases::messages::{
    CONNECT_ACKNOWLEDGE, CONNECT_CHANNEL_1, DISCONNECT_16, FAR_RELEASE, FAR_RELEASE_COMPLETE,
    PROCEEDING_CHANNEL_1, RELEASE, RELEASE_16, RELEASE_COMPLETE, SETUP, SETUP_REFERENCE_2,
    STATUS_101,
};
use bx_channels::Channel;
use bx_q931::Octets;
use bx_worked_days::{Row, are_same};
use std::alloc::Global;
use std::test::Fail;

/// An event that happens so often, and all that is sent for it.
type Step<'a> = (u32, Event, &'a [&'a [u8]]);

/// Bookings of the number 1234, a script and what happens.
struct Course<'a> {
    rows: &'a [Row],
    script: &'a str,
    steps: &'a [Step<'a>],
    /// Who holds channel 1 in the end, at the exchange and at the far end.
    held: (Option<(u16, CallState)>, Option<(u16, CallState)>),
}

/// The exchange clears a call that the far end began.
const DISCONNECT_INWARD: &[u8] = &[0x08, 0x02, 0x80, 0x01, 0x45, 0x08, 0x02, 0x82, 0x90];

/// The exchange has no call of this reference.
const RELEASE_COMPLETE_81: &[u8] = &[0x08, 0x02, 0x00, 0x01, 0x5A, 0x08, 0x02, 0x82, 0xD1];

/// The far end did not expect that of a call which it began, and which is Active.
const USER_STATUS_101: &[u8] = &[
    0x08, 0x02, 0x00, 0x01, 0x7D, 0x08, 0x02, 0x80, 0xE5, 0x14, 0x01, 0x0A,
];

const ANSWERS: &str = "number,policy,seconds\n*,answer,0\n";

const RUNS: [Course<'static>; 6] = [
    // a call is over at both ends, and its SETUP comes again: the exchange clears what the far end opens
    Course {
        rows: &[(0, 60, 1, false)],
        script: ANSWERS,
        steps: &[
            (1, Event::TickExchange, &[SETUP]),
            (1, Event::ToFar(0), &[]),
            (1, Event::TickFar, &[CONNECT_CHANNEL_1]),
            (1, Event::ToExchange(0), &[CONNECT_ACKNOWLEDGE]),
            (1, Event::ToFar(1), &[]),
            (59, Event::TickExchange, &[DISCONNECT_16]),
            (1, Event::ToFar(2), &[FAR_RELEASE]),
            (1, Event::ToExchange(1), &[RELEASE_COMPLETE]),
            (1, Event::ToFar(3), &[]),
            (1, Event::ToFar(0), &[]),
            (1, Event::TickFar, &[CONNECT_CHANNEL_1]),
            (1, Event::ToExchange(2), &[RELEASE_COMPLETE_81]),
            (1, Event::ToFar(4), &[]),
        ],
        held: (None, None),
    },
    // what is repeated of a call that is Active changes nothing; its CONNECT is answered by STATUS
    Course {
        rows: &[(0, 60, 1, false)],
        script: ANSWERS,
        steps: &[
            (1, Event::TickExchange, &[SETUP]),
            (3, Event::ToFar(0), &[]),
            (1, Event::TickFar, &[CONNECT_CHANNEL_1]),
            (1, Event::ToExchange(0), &[CONNECT_ACKNOWLEDGE]),
            (1, Event::ToExchange(0), &[STATUS_101]),
            (3, Event::ToFar(0), &[]),
            (1, Event::ToFar(1), &[]),
        ],
        held: (Some((1, CallState::Active)), Some((1, CallState::Active))),
    },
    // a SETUP of the far end is lost and sent again; the call is connected, and cleared at its end. Its SETUP that comes
    // again takes the next booking of the channel, while the far end holds no such call
    Course {
        rows: &[(0, 60, 1, true), (60, 90, 1, true)],
        script: "number,policy,seconds,channel\n1234,call,1,1\n",
        steps: &[
            (1, Event::TickFar, &[SETUP]),
            (4, Event::TickFar, &[SETUP]),
            (3, Event::TickExchange, &[]),
            (1, Event::ToExchange(1), &[PROCEEDING_CHANNEL_1]),
            (1, Event::ToExchange(0), &[]),
            (1, Event::TickExchange, &[CONNECT_CHANNEL_1]),
            (1, Event::ToFar(1), &[]),
            (1, Event::ToFar(0), &[USER_STATUS_101]),
            (56, Event::TickExchange, &[DISCONNECT_INWARD]),
            (1, Event::ToFar(2), &[RELEASE]),
            (1, Event::ToExchange(3), &[FAR_RELEASE_COMPLETE]),
            (1, Event::ToFar(3), &[]),
            (1, Event::ToExchange(0), &[PROCEEDING_CHANNEL_1]),
        ],
        held: (Some((2, CallState::OutgoingCallProceeding)), None),
    },
    // the link is lost before a call of the far end is connected: its CONNECT waits for the first tick with a link
    Course {
        rows: &[(0, 60, 1, true)],
        script: "number,policy,seconds,channel\n1234,call,1,1\n",
        steps: &[
            (1, Event::TickFar, &[SETUP]),
            (1, Event::TickExchange, &[]),
            (1, Event::ToExchange(0), &[PROCEEDING_CHANNEL_1]),
            (20, Event::WithoutLink, &[]),
            (1, Event::TickExchange, &[CONNECT_CHANNEL_1]),
            (1, Event::ToFar(1), &[]),
        ],
        held: (Some((1, CallState::Active)), Some((1, CallState::Active))),
    },
    // a booking starts while there is no link, and is offered when there is one again; its end comes while there is none,
    // so its DISCONNECT is lost, RELEASE is sent at the first tick with a link, and the next booking is missed
    Course {
        rows: &[(10, 60, 1, false), (60, 80, 1, false)],
        script: ANSWERS,
        steps: &[
            (30, Event::WithoutLink, &[]),
            (1, Event::TickExchange, &[SETUP]),
            (1, Event::ToFar(0), &[]),
            (1, Event::TickFar, &[CONNECT_CHANNEL_1]),
            (1, Event::ToExchange(0), &[CONNECT_ACKNOWLEDGE]),
            (1, Event::ToFar(1), &[]),
            (55, Event::WithoutLink, &[]),
            (1, Event::TickExchange, &[RELEASE_16]),
        ],
        held: (
            Some((1, CallState::ReleaseRequest)),
            Some((1, CallState::Active)),
        ),
    },
    // a link that is lost over an end for longer than clearing may take costs no channel: the call is cleared when there
    // is a link again, and the next booking is offered
    Course {
        rows: &[(10, 60, 1, false), (120, 200, 1, false)],
        script: ANSWERS,
        steps: &[
            (10, Event::TickExchange, &[SETUP]),
            (1, Event::ToFar(0), &[]),
            (1, Event::TickFar, &[CONNECT_CHANNEL_1]),
            (1, Event::ToExchange(0), &[CONNECT_ACKNOWLEDGE]),
            (1, Event::ToFar(1), &[]),
            (100, Event::WithoutLink, &[]),
            (1, Event::TickExchange, &[RELEASE_16]),
            (1, Event::ToFar(2), &[FAR_RELEASE_COMPLETE]),
            (1, Event::ToExchange(1), &[]),
            (9, Event::TickExchange, &[SETUP_REFERENCE_2]),
        ],
        held: (Some((2, CallState::CallPresent)), None),
    },
];

/// Whether so many messages were sent before, and these since.
fn since(sent: &[Octets], before: usize, expected: &[&[u8]]) -> bool {
    before <= sent.len() && are_same(&sent[before..], expected)
}

/// Whether just this was sent, by the end that the event happens to.
fn sent_so(ends: &Ends, before: (usize, usize), event: Event, expected: &[&[u8]]) -> bool {
    match event {
        Event::TickExchange | Event::WithoutLink | Event::ToExchange(_) => {
            since(&ends.sent, before.0, expected) && since(&ends.far_sent, before.1, &[])
        }
        Event::TickFar | Event::FarWithoutLink | Event::ToFar(_) => {
            since(&ends.far_sent, before.1, expected) && since(&ends.sent, before.0, &[])
        }
    }
}

/// Whether the step goes as it should.
fn goes(ends: &mut Ends, step: &Step<'_>) -> bool {
    let before = (ends.sent.len(), ends.far_sent.len());
    for _ in 0..step.0 {
        if ends.happens(step.1).is_err() {
            return false;
        }
    }
    sent_so(ends, before, step.1, step.2)
}

/// How many steps go as they should.
fn steps_that_go(ends: &mut Ends, steps: &[Step<'_>]) -> usize {
    for (done, step) in steps.iter().enumerate() {
        if !goes(ends, step) {
            return done;
        }
    }
    steps.len()
}

fn runs(alloc: Global, course: &Course<'_>) -> Result<(), Fail> {
    let mut ends = opened(alloc, course.rows, &[], course.script).ok_or("opening")?;
    let done = steps_that_go(&mut ends, course.steps);
    if done < course.steps.len() {
        return Err(Fail::new(done));
    }
    let channel = Channel::new(1).ok_or("channel")?;
    if (
        ends.exchange.on_channel(channel),
        ends.far.on_channel(channel),
    ) == course.held
    {
        Ok(())
    } else {
        Err(Fail::new("the end"))
    }
}

#[test]
fn worked_runs(rt: HostRuntime) -> Result<(), Fail> {
    for each in &RUNS {
        runs(rt.alloc(), each)?;
    }
    Ok(())
}
