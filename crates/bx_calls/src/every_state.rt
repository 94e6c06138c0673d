//! The messages that have one row for every state, in the tables of both sides.

ghost use Rattle.std.specs.Prelude.{◌≡◌};
ghost use Rattle.bx_calls.specs.Expected.{every_state_row};
ghost use Rattle.bx_calls.specs.Hearing.{heard_of};

use crate::transition::Transition;
use bx_q931::{Kind, Message, Out};

/// What a call of either side does with RELEASE COMPLETE, STATUS ENQUIRY, STATUS, SETUP and RELEASE, in whatever state it is
/// (ITU-T Q.931, 5.3.3 to 5.3.5, 5.8.3.2, 5.8.10 and 5.8.11): `status` answers STATUS ENQUIRY, and `released`, if anything, RELEASE.
/// None for any other message.
pub(crate) fn in_every_state<T: Copy>(
    call: T,
    message: &Message<'_>,
    status: Out,
    released: Option<Out>,
) -> Option<Transition<T>>
    ensures { result ≡ every_state_row call (heard_of message.now) status released message.now.kind }
{
    match message.kind() {
        Kind::ReleaseComplete => Some(Transition::over(None)),
        Kind::StatusEnquiry => Some(Transition::on(call, Some(status))),
        Kind::Status => match message.state() {
            Some(0) => Some(Transition::over(None)),
            _ => Some(Transition::on(call, None)),
        },
        Kind::Setup => Some(Transition::on(call, None)),
        Kind::Release => Some(Transition::over(released)),
        _ => None,
    }
}
