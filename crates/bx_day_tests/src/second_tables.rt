//! A second copy of the call tables for messages (ITU-T Q.931, 5.1 to 5.3 and 5.8): the first line that fits counts.

use crate::second_reading::{Heard, Naming};
use crate::second_replies::Reply;

/// Where a call goes.
#[derive(Clone, Copy, Debug, PartialEq, Eq)]
pub(crate) enum Next {
    Same,
    Over,
    To(u8),
}

impl Next {
    /// The number of the state after this one, 0 where the call is over.
    pub(crate) fn after(self, state: u8) -> u8 {
        match self {
            Next::Same => state,
            Next::Over => 0,
            Next::To(next) => next,
        }
    }
}

/// A call: the number of its state, its channel, and whether the network began it.
#[derive(Clone, Copy)]
pub(crate) struct Call {
    pub(crate) state: u8,
    pub(crate) channel: u8,
    pub(crate) from_network: bool,
}

/// States (none listed: each), types of message (none listed: each), what is answered (in STATUS the state is that of the
/// call), and where the call goes.
type Line = (&'static [u8], &'static [u8], Reply, Next);

/// The types of message that Q.931 knows.
const KNOWN: &[u8] = &[
    0x01, 0x02, 0x03, 0x05, 0x07, 0x0D, 0x0F, 0x45, 0x4D, 0x5A, 0x6E, 0x75, 0x7B, 0x7D,
];

/// The network side, after a STATUS that reports Null and a wrong channel in N6.
static NETWORK: [Line; 14] = [
    (&[], &[0x5A], Reply::Nothing, Next::Over),
    (&[], &[0x75], Reply::Status(30, 0), Next::Same),
    (&[], &[0x7D, 0x05], Reply::Nothing, Next::Same),
    (&[19], &[0x4D], Reply::Nothing, Next::Over),
    (&[], &[0x4D], Reply::ReleaseComplete(None), Next::Over),
    (&[19], &[], Reply::Nothing, Next::Same),
    (&[], &[0x45], Reply::Release(None), Next::To(19)),
    (&[12], &[], Reply::Nothing, Next::Same),
    (&[6], &[0x02], Reply::Nothing, Next::To(9)),
    (&[6, 9], &[0x01], Reply::Nothing, Next::To(7)),
    (&[6, 9, 7], &[0x07], Reply::ConnectAcknowledge, Next::To(10)),
    (&[], &[0x03, 0x6E, 0x7B], Reply::Nothing, Next::Same),
    (&[], KNOWN, Reply::Status(101, 0), Next::Same),
    (&[], &[], Reply::Status(97, 0), Next::Same),
];

/// The user side, after a STATUS that reports Null and a wrong channel in U1.
static USER: [Line; 14] = [
    (&[], &[0x5A], Reply::Nothing, Next::Over),
    (&[], &[0x75], Reply::Status(30, 0), Next::Same),
    (&[], &[0x7D, 0x05], Reply::Nothing, Next::Same),
    (&[19], &[0x4D], Reply::Nothing, Next::Over),
    (&[], &[0x4D], Reply::ReleaseComplete(None), Next::Over),
    (&[19], &[], Reply::Nothing, Next::Same),
    (&[], &[0x45], Reply::Release(None), Next::To(19)),
    (&[11], &[], Reply::Nothing, Next::Same),
    (&[8], &[0x0F], Reply::Nothing, Next::To(10)),
    (&[1], &[0x02], Reply::Nothing, Next::To(3)),
    (&[1, 3], &[0x07], Reply::Nothing, Next::To(10)),
    (&[], &[0x03, 0x6E, 0x7B], Reply::Nothing, Next::Same),
    (&[], KNOWN, Reply::Status(101, 0), Next::Same),
    (&[], &[], Reply::Status(97, 0), Next::Same),
];

fn fits(list: &[u8], value: u8) -> bool {
    list.is_empty() || list.contains(&value)
}

/// The reply and the next state of the first line that fits.
fn looked_up(lines: &[Line], state: u8, kind: u8) -> (Reply, Next) {
    for (states, kinds, reply, next) in lines {
        if fits(states, state) && fits(kinds, kind) {
            return match reply {
                Reply::Status(cause, _) => (Reply::Status(*cause, state), *next),
                other => (*other, *next),
            };
        }
    }
    (Reply::Nothing, Next::Same)
}

/// Whether a first answer names another channel than the call has, any, or none that can be read.
fn strays(heard: &Heard<'_>, own: u8) -> bool {
    match heard.naming() {
        Naming::Absent => false,
        Naming::Channel { number, .. } => number != own,
        Naming::Any | Naming::Unread => true,
    }
}

/// What a call at the network side does with a message.
pub(crate) fn at_network(call: Call, heard: &Heard<'_>) -> (Reply, Next) {
    match (call.state, heard.kind) {
        (_, 0x7D) if heard.state() == Some(0) => (Reply::Nothing, Next::Over),
        (6, 0x01 | 0x02 | 0x07) if strays(heard, call.channel) => {
            (Reply::Release(Some(6)), Next::To(19))
        }
        (10, 0x0F) if !call.from_network => (Reply::Nothing, Next::Same),
        (state, kind) => looked_up(&NETWORK, state, kind),
    }
}

/// What a call at the user side does with a message.
pub(crate) fn at_user(call: Call, heard: &Heard<'_>) -> (Reply, Next) {
    match (call.state, heard.kind) {
        (_, 0x7D) if heard.state() == Some(0) => (Reply::Nothing, Next::Over),
        (1, 0x02 | 0x07) if strays(heard, call.channel) => {
            (Reply::Release(Some(6)), Next::To(19))
        }
        (state, kind) => looked_up(&USER, state, kind),
    }
}

/// What is answered to a message that names no call, a SETUP with flag 0 apart.
pub(crate) fn of_no_call(heard: &Heard<'_>) -> Reply {
    match (heard.kind, heard.state()) {
        (0x5A | 0x05, _) | (0x7D, None | Some(0)) => Reply::Nothing,
        (0x7D, Some(_)) => Reply::ReleaseComplete(Some(101)),
        (0x75, _) => Reply::Status(30, 0),
        _ => Reply::ReleaseComplete(Some(81)),
    }
}
