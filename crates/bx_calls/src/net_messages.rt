//! What messages do to a call at the network side.

ghost use Rattle.std.specs.Prelude.{◌≡◌, ◌≤◌};
ghost use Rattle.bx_calls.specs.Expected.{IsProgress, net_awake, net_released};
ghost use Rattle.bx_calls.specs.Hearing.{heard_under, heard_of, is_passing, lacks_call};
ghost use Rattle.bx_calls.specs.NetTable.{fits_active, awaits_word, net_is_contradicted, net_is_unacknowledged, net_is_put_off, net_put_off, net_is_unconnected, net_is_ringing, net_rung, net_row, net_message};

use crate::call_state::CallState;
use crate::every_state::in_every_state;
use crate::hearing::names_channel;
use crate::net_call::NetCall;
use crate::net_state::NetState::{
    Active, CallPresent, CallReceived, DisconnectIndication, Enquiring, IncomingCallProceeding,
    ReleaseRequest,
};
use crate::net_state::{NetOrigin, NetState, Offer};
use crate::timers::{T301, T310};
use crate::times::Times;
use crate::transition::Transition;
use bx_events::{LAST_MOMENT, Rules};
use bx_q931::cause::{
    CHANNEL_UNACCEPTABLE, INVALID_CALL_REFERENCE, MESSAGE_NOT_COMPATIBLE, MESSAGE_TYPE_UNKNOWN,
    RECOVERY_ON_TIMER_EXPIRY, REQUESTED_CHANNEL_NOT_AVAILABLE, RESOURCE_UNAVAILABLE,
    RESPONSE_TO_STATUS_ENQUIRY, SWITCHING_EQUIPMENT_CONGESTION, TEMPORARY_FAILURE,
};
use bx_q931::{Kind, Message, Out};

impl NetCall {
    /// What the call does with a message of its reference at this moment, which is at most `LAST_MOMENT` (ITU-T Q.931, 5.1 to 5.3
    /// and 5.8). Where the user was asked it shows that the call is up; but a STATUS with a call state that does not fit N10 has the
    /// call released, with cause 101 (5.8.11), and one that reports that CONNECT ACKNOWLEDGE or, by the rules 3, CONNECT is missing has
    /// it sent again. A call that is offered after an outage, and is not known or is refused by a cause that passes, has its SETUP sent
    /// again a second later; by the rules 3 one that the user has not answered yet waits for that.
    pub fn on_message(self, message: &Message<'_>, rules: Rules, moment: u32) -> Transition<NetCall>
        requires moment { moment ≤ LAST_MOMENT }
        ensures { result ≡ net_message self (heard_under rules message.now) moment }
    {
        if self.is_contradicted(message) {
            self.releases(Times::Once, Some(MESSAGE_NOT_COMPATIBLE), moment)
        } else if self.is_unacknowledged(message) {
            let reply = self.says(Kind::ConnectAcknowledge);
            self.goes(Some(reply), Active)
        } else if self.is_put_off(message, rules) {
            self.goes(None, put_off(self.state, moment))
        } else if self.is_unconnected(message, rules) {
            self.connects()
        } else if self.is_ringing(message, rules) {
            self.goes(None, rung(message.state(), moment))
        } else {
            self.awake().on_heard(message, moment)
        }
    }

    /// Whether the user was asked, and reports by STATUS a call state that does not fit N10.
    fn is_contradicted(&self, message: &Message<'_>) -> bool
        ensures { (rules : Rules) → result ≡ net_is_contradicted self.now.state self.now.origin (heard_under rules message.now) message.now.kind }
    {
        match (self.state, message.kind()) {
            (Enquiring { .. }, Kind::Status) => match message.state() {
                Some(state) => state != CallState::Null.value() && !self.fits_active(state),
                None => false,
            },
            _ => false,
        }
    }

    /// Whether a call state of the user fits N10: Active, and Connect Request of a call that this side began, Outgoing Call
    /// Proceeding and Call Initiated of one that the user began.
    fn fits_active(&self, state: u8) -> bool
        ensures { result ≡ fits_active self.now.origin state }
    {
        match self.origin {
            NetOrigin::Outward { .. } => {
                state == CallState::Active.value() || state == CallState::ConnectRequest.value()
            }
            NetOrigin::Inward => {
                state == CallState::Active.value()
                    || state == CallState::OutgoingCallProceeding.value()
                    || state == CallState::CallInitiated.value()
            }
        }
    }

    /// Whether the user was asked, and reports by STATUS that it waits for CONNECT ACKNOWLEDGE, or in N6 that it is Active.
    fn is_unacknowledged(&self, message: &Message<'_>) -> bool
        ensures { (rules : Rules) → result ≡ net_is_unacknowledged self.now.state self.now.origin (heard_under rules message.now) message.now.kind }
    {
        match (self.state, self.origin, message.kind()) {
            (Enquiring { .. }, NetOrigin::Outward { .. }, Kind::Status) => {
                message.state() == Some(CallState::ConnectRequest.value())
            }
            (
                CallPresent {
                    offer: Offer::Asked,
                    ..
                },
                _,
                Kind::Status,
            ) => match message.state() {
                Some(state) => {
                    state == CallState::ConnectRequest.value() || state == CallState::Active.value()
                }
                None => false,
            },
            _ => false,
        }
    }

    /// Whether the call is offered after an outage, and refused by a cause that passes, or is not known to the user, who was asked.
    fn is_put_off(&self, message: &Message<'_>, rules: Rules) -> bool
        ensures { result ≡ net_is_put_off self.now.state (heard_under rules message.now) message.now.kind }
    {
        match (self.state, message.kind()) {
            (CallPresent { offer, .. }, Kind::ReleaseComplete) => {
                !matches!(offer, Offer::First | Offer::Second) && is_passing(message.cause())
                    || awaits_word(rules, offer)
                        && matches!(rules, Rules::Three)
                        && lacks_call(message.cause())
            }
            (CallPresent { offer, .. }, Kind::Status) => {
                awaits_word(rules, offer) && message.state() == Some(CallState::Null.value())
            }
            _ => false,
        }
    }

    /// Whether the user was asked for a call that it began, and reports by STATUS that it waits for CONNECT.
    fn is_unconnected(&self, message: &Message<'_>, rules: Rules) -> bool
        ensures { result ≡ net_is_unconnected self.now.state self.now.origin (heard_under rules message.now) message.now.kind }
    {
        match (rules, self.state, self.origin, message.kind()) {
            (Rules::Three, Enquiring { .. }, NetOrigin::Inward, Kind::Status) => {
                match message.state() {
                    Some(state) => {
                        state == CallState::OutgoingCallProceeding.value()
                            || state == CallState::CallInitiated.value()
                    }
                    None => false,
                }
            }
            _ => false,
        }
    }

    /// Whether the user was asked in N6, and reports by STATUS that it has the call and has not answered it yet.
    fn is_ringing(&self, message: &Message<'_>, rules: Rules) -> bool
        ensures { result ≡ net_is_ringing self.now.state (heard_under rules message.now) message.now.kind }
    {
        match (rules, self.state, message.kind()) {
            (
                Rules::Three,
                CallPresent {
                    offer: Offer::Asked,
                    ..
                },
                Kind::Status,
            ) => match message.state() {
                Some(state) => {
                    state == CallState::IncomingCallProceeding.value()
                        || state == CallState::CallReceived.value()
                }
                None => false,
            },
            _ => false,
        }
    }

    /// The same call, asked no more.
    fn awake(self) -> NetCall
        ensures { result ≡ net_awake self }
    {
        match self.state {
            Enquiring { .. } => NetCall {
                state: Active,
                ..self
            },
            _ => self,
        }
    }

    /// The rows of all messages.
    fn on_heard(self, message: &Message<'_>, moment: u32) -> Transition<NetCall>
        requires moment { moment ≤ LAST_MOMENT }
        ensures { result ≡ net_row self (heard_of message.now) moment self.state message.now.kind }
    {
        let status = self.status(RESPONSE_TO_STATUS_ENQUIRY);
        match in_every_state(self, message, status, self.released()) {
            Some(transition) => transition,
            None => self.on_progress(message.kind(), message, moment),
        }
    }

    /// What answers RELEASE: nothing where the call has sent one itself.
    fn released(&self) -> Option<Out>
        ensures { result ≡ net_released self.now self.now.state }
    {
        match self.state {
            ReleaseRequest { .. } => None,
            _ => Some(self.says(Kind::ReleaseComplete)),
        }
    }

    /// The rows of the other messages: of DISCONNECT, of those that set up a call, and of all that are not expected.
    fn on_progress(self, kind: Kind, message: &Message<'_>, moment: u32) -> Transition<NetCall>
        requires moment { moment ≤ LAST_MOMENT }
        requires kind { IsProgress kind }
        ensures { result ≡ net_row self (heard_of message.now) moment self.state kind }
    {
        match (self.state, kind) {
            (ReleaseRequest { .. }, _) => self.stays(None),
            (_, Kind::Disconnect) => self.releases(Times::Once, None, moment),
            (DisconnectIndication { .. }, _) => self.stays(None),
            (CallPresent { .. }, Kind::CallProceeding | Kind::Alerting | Kind::Connect)
                if !names_channel(message.channel(), self.channel) => {
                self.releases(Times::Once, Some(CHANNEL_UNACCEPTABLE), moment)
            }
            (CallPresent { .. }, Kind::CallProceeding) => {
                let due = moment + T310;
                self.goes(None, IncomingCallProceeding { due })
            }
            (CallPresent { .. } | IncomingCallProceeding { .. }, Kind::Alerting) => {
                let due = moment + T301;
                self.goes(None, CallReceived { due })
            }
            (
                CallPresent { .. } | IncomingCallProceeding { .. } | CallReceived { .. },
                Kind::Connect,
            ) => {
                let reply = self.says(Kind::ConnectAcknowledge);
                self.goes(Some(reply), Active)
            }
            (Active, Kind::ConnectAcknowledge) if self.flag() => self.stays(None),
            (_, Kind::Progress | Kind::Notify | Kind::Information) => self.stays(None),
            (_, Kind::Other(_)) => self.stays(Some(self.status(MESSAGE_TYPE_UNKNOWN))),
            _ => self.stays(Some(self.status(MESSAGE_NOT_COMPATIBLE))),
        }
    }
}

/// N6, whose SETUP is due a second later.
fn put_off(state: NetState, moment: u32) -> NetState
    requires { moment ≤ LAST_MOMENT }
    ensures { result ≡ net_put_off moment state }
{
    match state {
        CallPresent {
            offer: Offer::PutOff,
            ..
        } => state,
        _ => CallPresent {
            offer: Offer::PutOff,
            due: moment + 1,
        },
    }
}

/// N9 or, where the user reports that it is alerted, N7.
fn rung(reported: Option<u8>, moment: u32) -> NetState
    requires { moment ≤ LAST_MOMENT }
    ensures { result ≡ net_rung moment reported }
{
    if reported == Some(CallState::CallReceived.value()) {
        CallReceived { due: moment + T301 }
    } else {
        IncomingCallProceeding { due: moment + T310 }
    }
}

/// Whether SETUP waits for what the user says of a STATUS ENQUIRY, the last one or, by the rules 3, one before it.
fn awaits_word(rules: Rules, offer: Offer) -> bool
    ensures { result ≡ awaits_word rules offer }
{
    match offer {
        Offer::Asked => true,
        Offer::Unlinked | Offer::PutOff => matches!(rules, Rules::Three),
        Offer::First | Offer::Second | Offer::Anew => false,
    }
}

/// Whether a cause says that the user has no such call.
fn lacks_call(cause: Option<u8>) -> bool
    ensures { result ≡ lacks_call cause }
{
    cause == Some(INVALID_CALL_REFERENCE)
}

/// Whether a cause of a refusal passes.
fn is_passing(cause: Option<u8>) -> bool
    ensures { result ≡ is_passing cause }
{
    matches!(
        cause,
        Some(
            TEMPORARY_FAILURE
                | SWITCHING_EQUIPMENT_CONGESTION
                | REQUESTED_CHANNEL_NOT_AVAILABLE
                | RESOURCE_UNAVAILABLE
                | RECOVERY_ON_TIMER_EXPIRY
        )
    )
}
