//! What messages do to a call at the user side.

ghost use Rattle.std.specs.Prelude.{◌≡◌, ◌≤◌};
ghost use Rattle.bx_calls.specs.Expected.{IsProgress, user_released};
ghost use Rattle.bx_calls.specs.Hearing.{heard_of};
ghost use Rattle.bx_calls.specs.UserTable.{user_row, user_message};

use crate::every_state::in_every_state;
use crate::hearing::names_channel;
use crate::timers::T310_USER;
use crate::times::Times;
use crate::transition::Transition;
use crate::user_call::UserCall;
use crate::user_state::UserState::{
    Active, CallInitiated, ConnectRequest, DisconnectRequest, OutgoingCallProceeding,
    ReleaseRequest,
};
use bx_events::LAST_MOMENT;
use bx_q931::cause::{
    CHANNEL_UNACCEPTABLE, MESSAGE_NOT_COMPATIBLE, MESSAGE_TYPE_UNKNOWN, RESPONSE_TO_STATUS_ENQUIRY,
};
use bx_q931::{Kind, Message, Out};

impl UserCall {
    /// What the call does with a message of its reference at this moment, which is at most `LAST_MOMENT` (ITU-T Q.931, 5.1 to 5.3
    /// and 5.8).
    pub fn on_message(self, message: &Message<'_>, moment: u32) -> Transition<UserCall>
        requires moment { moment ≤ LAST_MOMENT }
        ensures { result ≡ user_message self (heard_of message.now) moment }
    {
        let status = self.status(RESPONSE_TO_STATUS_ENQUIRY);
        match in_every_state(self, message, status, self.released()) {
            Some(transition) => transition,
            None => self.on_progress(message.kind(), message, moment),
        }
    }

    /// What answers RELEASE: nothing where the call has sent one itself.
    fn released(&self) -> Option<Out>
        ensures { result ≡ user_released self.now self.now.state }
    {
        match self.state {
            ReleaseRequest { .. } => None,
            _ => Some(self.says(Kind::ReleaseComplete)),
        }
    }

    /// The rows of the other messages: of DISCONNECT, of those that set up a call, and of all that are not expected.
    fn on_progress(self, kind: Kind, message: &Message<'_>, moment: u32) -> Transition<UserCall>
        requires moment { moment ≤ LAST_MOMENT }
        requires kind { IsProgress kind }
        ensures { result ≡ user_row self (heard_of message.now) moment self.state kind }
    {
        match (self.state, kind) {
            (ReleaseRequest { .. }, _) => self.stays(None),
            (_, Kind::Disconnect) => self.releases(Times::Once, None, moment),
            (DisconnectRequest { .. }, _) => self.stays(None),
            (ConnectRequest { .. }, Kind::ConnectAcknowledge) => {
                self.goes(None, Active { since: moment })
            }
            (CallInitiated { .. }, Kind::CallProceeding | Kind::Connect)
                if !names_channel(message.channel(), self.channel) => {
                self.releases(Times::Once, Some(CHANNEL_UNACCEPTABLE), moment)
            }
            (CallInitiated { .. }, Kind::CallProceeding) => {
                let due = moment + T310_USER;
                self.goes(None, OutgoingCallProceeding { due })
            }
            (CallInitiated { .. } | OutgoingCallProceeding { .. }, Kind::Connect) => self.goes(
                None,
                Active { since: moment },
            ),
            (_, Kind::Progress | Kind::Notify | Kind::Information) => self.stays(None),
            (_, Kind::Other(_)) => self.stays(Some(self.status(MESSAGE_TYPE_UNKNOWN))),
            _ => self.stays(Some(self.status(MESSAGE_NOT_COMPATIBLE))),
        }
    }
}
