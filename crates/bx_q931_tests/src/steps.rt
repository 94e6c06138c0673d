//! The rows of worked calls, and calls that go by them.

use bx_calls::{CallState, NetCall, Next, Rules, Transition, UserCall};
use bx_q931::{Out, encode, read};

/// What is left of a call.
#[derive(Clone, Copy, PartialEq, Eq)]
pub(crate) enum After {
    Live(CallState),
    Over,
    Broken,
}

/// A moment, the message that comes (none: the tick to that moment), what is sent, and what is left.
pub(crate) type Row = (u16, &'static [u8], &'static [u8], After);

/// Whether just this is sent.
pub(crate) fn says(reply: Option<Out>, octets: &[u8]) -> bool {
    match reply {
        Some(out) => encode(&out).as_slice() == octets,
        None => octets.is_empty(),
    }
}

fn net_step(call: NetCall, end: u32, row: &Row) -> Option<Transition<NetCall>> {
    let moment = u32::from(row.0);
    if row.1.is_empty() {
        Some(call.on_second(moment, end))
    } else {
        Some(call.on_message(&read(row.1).ok()?, Rules::Three, moment))
    }
}

fn user_step(call: UserCall, row: &Row) -> Option<Transition<UserCall>> {
    let moment = u32::from(row.0);
    if row.1.is_empty() {
        Some(call.on_second(moment))
    } else {
        Some(call.on_message(&read(row.1).ok()?, moment))
    }
}

/// The call after a row that is right; the one before it where none is left.
fn after_net_row(call: NetCall, end: u32, row: &Row) -> Option<NetCall> {
    let Transition { next, reply } = net_step(call, end, row)?;
    let (left, after) = match next {
        Next::Live(live) => (live, After::Live(live.state())),
        Next::Over => (call, After::Over),
        Next::Broken => (call, After::Broken),
    };
    if says(reply, row.2) && after == row.3 {
        Some(left)
    } else {
        None
    }
}

fn after_user_row(call: UserCall, row: &Row) -> Option<UserCall> {
    let Transition { next, reply } = user_step(call, row)?;
    let (left, after) = match next {
        Next::Live(live) => (live, After::Live(live.state())),
        Next::Over => (call, After::Over),
        Next::Broken => (call, After::Broken),
    };
    if says(reply, row.2) && after == row.3 {
        Some(left)
    } else {
        None
    }
}

/// What is left of a call that is asked for after a second without a link, and hears this by these rules; None where something else
/// is sent.
pub(crate) fn after_report(
    call: NetCall,
    octets: &[u8],
    rules: Rules,
    sent: &[u8],
) -> Option<After> {
    let Next::Live(asked) = call.on_seconds_unlinked(1, rules, 110, 200).next else {
        return None;
    };
    let Transition { next, reply } = asked.on_message(&read(octets).ok()?, rules, 111);
    if !says(reply, sent) {
        return None;
    }
    Some(match next {
        Next::Live(live) => After::Live(live.state()),
        Next::Over => After::Over,
        Next::Broken => After::Broken,
    })
}

/// Whether a call of the network whose booking ends so goes by these rows.
pub(crate) fn net_goes(first: NetCall, end: u32, rows: &[Row]) -> bool {
    let mut call = first;
    for row in rows {
        match after_net_row(call, end, row) {
            Some(left) => call = left,
            None => return false,
        }
    }
    true
}

/// Whether a call of the user goes by these rows.
pub(crate) fn user_goes(first: UserCall, rows: &[Row]) -> bool {
    let mut call = first;
    for row in rows {
        match after_user_row(call, row) {
            Some(left) => call = left,
            None => return false,
        }
    }
    true
}
