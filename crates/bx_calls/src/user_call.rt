//! A call at the user side.

ghost use Rattle.std.specs.Prelude.{◌≡◌, ◌≤◌, Bool, Some};
ghost use Rattle.bx_q931.specs.Kinds.{IsNamed};
ghost use Rattle.bx_q931.specs.Outgoing.{IsCallReference};
ghost use Rattle.bx_calls.specs.States.{user_state};
ghost use Rattle.bx_calls.specs.Saying.{setup_of};
ghost use Rattle.bx_calls.specs.UserTable.{user_flag, user_says, user_says_channel, user_says_cause, user_status, user_offered, user_calling, user_same, user_to, user_releases, user_disconnects, user_connects, user_setup_again, user_row, user_message, user_takes, user_answers, user_clears, user_second_row, user_second};

use crate::call_state::CallState;
use crate::outgoing::{plain, setup};
use crate::timers::{T303, T305, T308, T313};
use crate::times::Times;
use crate::transition::Transition;
use crate::user_state::{Policy, UserOrigin, UserState};
use bx_channels::{Channel, Number};
use bx_events::LAST_MOMENT;
use bx_q931::cause::LOCATION_USER;
use bx_q931::{Kind, Out};
use std::marker::Model;

/// A call at the user side: its reference, its channel, which side began it, and its state.
#[derive(Clone, Copy)]
pub struct UserCall {
    pub(crate) reference: u16,
    pub(crate) channel: Channel,
    pub(crate) origin: UserOrigin,
    pub(crate) state: UserState,
}

impl Model for UserCall {
    ghost use Rattle.bx_q931.specs.Outgoing.{IsCallReference};
    ghost use Rattle.bx_calls.specs.PlainCalls.{PlainUserCall};

    ghost Value = { PlainUserCall };

    ghost view = { λ c. record { reference = c.reference; channel = c.channel; origin = c.origin; state = c.state } };

    ghost invariant = { λ c. IsCallReference c.reference };

    ghost inverse = { λ c. record { reference = c.reference; channel = c.channel; origin = c.origin; state = c.state } };
}

impl UserCall {
    /// A call that the network began at this moment (ITU-T Q.931, 5.2.1). It is in U6, and nothing is sent
    /// before the next tick. The reference is 1 to 32,767, and the moment at most `LAST_MOMENT`.
    pub fn offered(reference: u16, channel: Channel, policy: Policy, moment: u32) -> UserCall
        requires reference { IsCallReference reference }
        requires moment { moment ≤ LAST_MOMENT }
        ensures { result ≡ user_offered reference channel policy moment }
    {
        UserCall {
            reference,
            channel,
            origin: UserOrigin::Offered { policy, at: moment },
            state: UserState::CallPresent,
        }
    }

    /// A call that the user begins at this moment, and its SETUP (5.1.1). It is in U1. The reference is 1 to 32,767, and the
    /// moment at most `LAST_MOMENT`.
    pub fn calling(reference: u16, channel: Channel, number: Number, moment: u32) -> (UserCall, Out)
        requires reference { IsCallReference reference }
        requires moment { moment ≤ LAST_MOMENT }
        ensures call { result.0 ≡ user_calling reference channel number moment }
        ensures out { result.1 ≡ setup_of reference channel number }
    {
        let call = UserCall {
            reference,
            channel,
            origin: UserOrigin::Calling { called: number },
            state: UserState::CallInitiated {
                again: false,
                due: moment + T303,
            },
        };
        (call, setup(reference, channel, number))
    }

    /// The reference, without its flag: 1 to 32,767.
    pub fn reference(&self) -> u16
        ensures value { result ≡ self.now.reference }
        ensures limit { IsCallReference result }
    {
        self.reference
    }

    /// The flag of the messages that this side sends: true where the network began the call.
    pub fn flag(&self) -> bool
        ensures { result ≡ user_flag self.now.origin }
    {
        match self.origin {
            UserOrigin::Offered { .. } => true,
            UserOrigin::Calling { .. } => false,
        }
    }

    /// The channel of the call.
    pub fn channel(&self) -> Channel
        ensures { result ≡ self.now.channel }
    {
        self.channel
    }

    /// The state of the call.
    pub fn state(&self) -> CallState
        ensures { result ≡ user_state self.now.state }
    {
        match self.state {
            UserState::CallInitiated { .. } => CallState::CallInitiated,
            UserState::OutgoingCallProceeding { .. } => CallState::OutgoingCallProceeding,
            UserState::CallPresent => CallState::CallPresent,
            UserState::CallReceived => CallState::CallReceived,
            UserState::ConnectRequest { .. } => CallState::ConnectRequest,
            UserState::IncomingCallProceeding => CallState::IncomingCallProceeding,
            UserState::Active { .. } => CallState::Active,
            UserState::DisconnectRequest { .. } => CallState::DisconnectRequest,
            UserState::ReleaseRequest { .. } => CallState::ReleaseRequest,
        }
    }

    pub(crate) fn says(&self, kind: Kind) -> Out
        requires kind { IsNamed kind }
        ensures { result ≡ user_says self.now kind }
    {
        plain(self.reference, self.flag(), kind)
    }

    pub(crate) fn says_channel(&self, kind: Kind) -> Out
        requires kind { IsNamed kind }
        ensures { result ≡ user_says_channel self.now kind }
    {
        self.says(kind).with_channel(self.channel, true)
    }

    pub(crate) fn says_cause(&self, kind: Kind, cause: u8) -> Out
        requires kind { IsNamed kind }
        ensures { result ≡ user_says_cause self.now kind cause }
    {
        self.says(kind).with_cause(LOCATION_USER, cause)
    }

    pub(crate) fn status(&self, cause: u8) -> Out
        ensures { result ≡ user_status self.now cause }
    {
        self.says_cause(Kind::Status, cause)
            .with_state(self.state().value())
    }

    pub(crate) fn stays(self, reply: Option<Out>) -> Transition<UserCall>
        ensures { result ≡ user_same self reply }
    {
        Transition::on(self, reply)
    }

    pub(crate) fn goes(self, reply: Option<Out>, state: UserState) -> Transition<UserCall>
        ensures { result ≡ user_to self reply state }
    {
        UserCall { state, ..self }.stays(reply)
    }

    pub(crate) fn connects(self, connect: Out, moment: u32) -> Transition<UserCall>
        requires moment { moment ≤ LAST_MOMENT }
        ensures { result ≡ user_connects self connect moment }
    {
        let due = moment + T313;
        self.goes(Some(connect), UserState::ConnectRequest { due })
    }

    pub(crate) fn disconnects(self, cause: u8, moment: u32) -> Transition<UserCall>
        requires moment { moment ≤ LAST_MOMENT }
        ensures { result ≡ user_disconnects self cause moment }
    {
        let due = moment + T305;
        let reply = self.says_cause(Kind::Disconnect, cause);
        self.goes(Some(reply), UserState::DisconnectRequest { cause, due })
    }

    pub(crate) fn releases(
        self,
        sent: Times,
        cause: Option<u8>,
        moment: u32,
    ) -> Transition<UserCall>
        requires moment { moment ≤ LAST_MOMENT }
        ensures { result ≡ user_releases self sent cause moment }
    {
        let due = moment + T308;
        let reply = match cause {
            Some(value) => self.says_cause(Kind::Release, value),
            None => self.says(Kind::Release),
        };
        self.goes(Some(reply), UserState::ReleaseRequest { sent, cause, due })
    }
}
