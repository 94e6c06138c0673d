//! Answers to messages that name no live call.

ghost use Rattle.std.specs.Prelude.{◌≡◌, true};
ghost use Rattle.bx_q931.specs.Outgoing.{IsCallReference};
ghost use Rattle.bx_calls.specs.UnknownTable.{location_of, refusal_of, unknown_row, unknown_answer};
ghost use Rattle.bx_calls.specs.Hearing.{heard_of};

use crate::call_state::CallState;
use crate::outgoing::plain;
use bx_q931::cause::{
    INVALID_CALL_REFERENCE, LOCATION_LOCAL_NETWORK, LOCATION_USER, MESSAGE_NOT_COMPATIBLE,
    RESPONSE_TO_STATUS_ENQUIRY,
};
use bx_q931::{Kind, Message, Out, Reference};

/// An end of the interface, which a cause names as its location (ITU-T Q.931, 4.5.12).
#[derive(Clone, Copy, Debug, PartialEq, Eq)]
pub enum Side {
    Network,
    User,
}

impl Side {
    /// The location in its causes: 2, the public network serving the local user, or 0, the user.
    pub fn location(self) -> u8
        ensures { result ≡ location_of self }
    {
        match self {
            Side::Network => LOCATION_LOCAL_NETWORK,
            Side::User => LOCATION_USER,
        }
    }
}

/// RELEASE COMPLETE with a cause, of which the low 7 bits are kept: a SETUP that is not taken. The reference is 1 to 32,767.
pub fn refuse(end: Side, reference: u16, cause: u8) -> Out
    requires reference { IsCallReference reference }
    ensures { result ≡ refusal_of end reference true cause }
{
    plain(reference, true, Kind::ReleaseComplete).with_cause(end.location(), cause)
}

/// What an end answers to a message that names none of its live calls (5.8.3.2). None where it is ignored,
/// as the dummy and the global reference are. None for a SETUP too: one that begins a call is for the end
/// to take or to refuse, and any other is ignored.
pub fn unknown(end: Side, message: &Message<'_>) -> Option<Out>
    ensures { result ≡ unknown_answer end message.now }
{
    match message.reference() {
        Reference::Dummy | Reference::Value { value: 0, .. } => None,
        Reference::Value { value, flag } => unknown_call(end, value, !flag, message),
    }
}

fn unknown_call(end: Side, reference: u16, flag: bool, message: &Message<'_>) -> Option<Out>
    requires reference { IsCallReference reference }
    ensures { result ≡ unknown_row end reference flag (heard_of message.now) message.now.kind }
{
    let location = end.location();
    let refusal = plain(reference, flag, Kind::ReleaseComplete);
    match message.kind() {
        Kind::ReleaseComplete | Kind::Setup => None,
        Kind::Status => match message.state() {
            None | Some(0) => None,
            Some(_) => Some(refusal.with_cause(location, MESSAGE_NOT_COMPATIBLE)),
        },
        Kind::StatusEnquiry => {
            let status = plain(reference, flag, Kind::Status);
            let status = status.with_cause(location, RESPONSE_TO_STATUS_ENQUIRY);
            Some(status.with_state(CallState::Null.value()))
        }
        _ => Some(refusal.with_cause(location, INVALID_CALL_REFERENCE)),
    }
}
