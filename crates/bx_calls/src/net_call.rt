//! A call at the network side.

ghost use Rattle.std.specs.Prelude.{◌≡◌, ◌≤◌, ◌+◌, Bool, false, Some};
ghost use Rattle.bx_q931.specs.Kinds.{IsNamed};
ghost use Rattle.bx_q931.specs.Outgoing.{IsCallReference};
ghost use Rattle.bx_calls.specs.States.{net_state};
ghost use Rattle.bx_calls.specs.Saying.{network, setup_of, with_kept_cause};
ghost use Rattle.bx_calls.specs.NetTable.{net_flag, net_says, net_says_cause, net_status, net_offered, net_answered, proceeding_of, net_same, net_to, net_releases, net_disconnects, net_connects, net_setup_again, net_offers, net_row, net_message, net_is_clearing, net_timer, net_second, net_due};

use crate::call_state::CallState;
use crate::net_state::{NetOrigin, NetState, Offer};
use crate::outgoing::{plain, setup};
use crate::timers::{T303, T305, T308};
use crate::times::Times;
use crate::transition::Transition;
use bx_channels::{Channel, Number};
use bx_events::LAST_MOMENT;
use bx_q931::cause::LOCATION_LOCAL_NETWORK;
use bx_q931::{Kind, Out};
use std::marker::Model;

/// A call at the network side: its reference, its channel, which side began it, and its state.
#[derive(Clone, Copy)]
pub struct NetCall {
    pub(crate) reference: u16,
    pub(crate) channel: Channel,
    pub(crate) origin: NetOrigin,
    pub(crate) state: NetState,
}

impl Model for NetCall {
    ghost use Rattle.bx_q931.specs.Outgoing.{IsCallReference};
    ghost use Rattle.bx_calls.specs.PlainCalls.{PlainNetCall};

    ghost Value = { PlainNetCall };

    ghost view = { λ c. record { reference = c.reference; channel = c.channel; origin = c.origin; state = c.state } };

    ghost invariant = { λ c. IsCallReference c.reference };

    ghost inverse = { λ c. record { reference = c.reference; channel = c.channel; origin = c.origin; state = c.state } };
}

impl NetCall {
    /// A call that the network begins at this moment, and its SETUP (ITU-T Q.931, 5.2.1). It is in N6. `is_back` says that there
    /// was no link in the second before. The reference is 1 to 32,767, and the moment at most `LAST_MOMENT`.
    pub fn offered(
        reference: u16,
        channel: Channel,
        number: Number,
        is_back: bool,
        moment: u32,
    ) -> (NetCall, Out)
        requires reference { IsCallReference reference }
        requires moment { moment ≤ LAST_MOMENT }
        ensures call { result.0 ≡ net_offered reference channel number is_back moment }
        ensures out { result.1 ≡ setup_of reference channel number }
    {
        let call = NetCall {
            reference,
            channel,
            origin: NetOrigin::Outward { called: number },
            state: NetState::CallPresent {
                offer: Offer::at_first(is_back),
                due: moment + T303,
            },
        };
        (call, setup(reference, channel, number))
    }

    /// A call that the user began at this moment, and the CALL PROCEEDING that gives it its channel (5.1.2,
    /// 5.1.5.1). It is in N3. The reference is 1 to 32,767, and the moment at most `LAST_MOMENT`.
    pub fn answered(reference: u16, channel: Channel, _moment: u32) -> (NetCall, Out)
        requires reference { IsCallReference reference }
        requires moment { _moment ≤ LAST_MOMENT }
        ensures call { result.0 ≡ net_answered reference channel }
        ensures out { result.1 ≡ proceeding_of reference channel }
    {
        let call = NetCall {
            reference,
            channel,
            origin: NetOrigin::Inward,
            state: NetState::OutgoingCallProceeding,
        };
        let reply = plain(reference, true, Kind::CallProceeding);
        (call, reply.with_channel(channel, true))
    }

    /// The reference, without its flag: 1 to 32,767.
    pub fn reference(&self) -> u16
        ensures value { result ≡ self.now.reference }
        ensures limit { IsCallReference result }
    {
        self.reference
    }

    /// The flag of the messages that this side sends: true where the user began the call.
    pub fn flag(&self) -> bool
        ensures { result ≡ net_flag self.now.origin }
    {
        match self.origin {
            NetOrigin::Outward { .. } => false,
            NetOrigin::Inward => true,
        }
    }

    /// The channel of the call.
    pub fn channel(&self) -> Channel
        ensures { result ≡ self.now.channel }
    {
        self.channel
    }

    /// The state of the call.
    pub fn state(&self) -> CallState
        ensures { result ≡ net_state self.now.state }
    {
        match self.state {
            NetState::OutgoingCallProceeding => CallState::OutgoingCallProceeding,
            NetState::CallPresent { .. } => CallState::CallPresent,
            NetState::IncomingCallProceeding { .. } => CallState::IncomingCallProceeding,
            NetState::CallReceived { .. } => CallState::CallReceived,
            NetState::Active | NetState::Enquiring { .. } => CallState::Active,
            NetState::DisconnectIndication { .. } => CallState::DisconnectIndication,
            NetState::ReleaseRequest { .. } => CallState::ReleaseRequest,
        }
    }

    /// The moment at which the call's timer is due, where one runs: in all states but N3, and N10 where the user is not asked.
    pub fn due(&self) -> Option<u32>
        ensures { result ≡ net_due self.now.state }
    {
        match self.state {
            NetState::OutgoingCallProceeding | NetState::Active => None,
            NetState::CallPresent { due, .. }
            | NetState::IncomingCallProceeding { due }
            | NetState::CallReceived { due }
            | NetState::Enquiring { due, .. }
            | NetState::DisconnectIndication { due, .. }
            | NetState::ReleaseRequest { due, .. } => Some(due),
        }
    }

    pub(crate) fn says(&self, kind: Kind) -> Out
        requires kind { IsNamed kind }
        ensures { result ≡ net_says self.now kind }
    {
        plain(self.reference, self.flag(), kind)
    }

    pub(crate) fn says_cause(&self, kind: Kind, cause: u8) -> Out
        requires kind { IsNamed kind }
        ensures { result ≡ net_says_cause self.now kind cause }
    {
        self.says(kind).with_cause(LOCATION_LOCAL_NETWORK, cause)
    }

    pub(crate) fn status(&self, cause: u8) -> Out
        ensures { result ≡ net_status self.now cause }
    {
        self.says_cause(Kind::Status, cause)
            .with_state(self.state().value())
    }

    pub(crate) fn stays(self, reply: Option<Out>) -> Transition<NetCall>
        ensures { result ≡ net_same self reply }
    {
        Transition::on(self, reply)
    }

    pub(crate) fn goes(self, reply: Option<Out>, state: NetState) -> Transition<NetCall>
        ensures { result ≡ net_to self reply state }
    {
        NetCall { state, ..self }.stays(reply)
    }

    pub(crate) fn disconnects(self, cause: u8, moment: u32) -> Transition<NetCall>
        requires moment { moment ≤ LAST_MOMENT }
        ensures { result ≡ net_disconnects self cause moment }
    {
        let due = moment + T305;
        let reply = self.says_cause(Kind::Disconnect, cause);
        self.goes(Some(reply), NetState::DisconnectIndication { cause, due })
    }

    /// CONNECT with the channel, and N10.
    pub(crate) fn connects(self) -> Transition<NetCall>
        ensures { result ≡ net_connects self }
    {
        let reply = self.says(Kind::Connect).with_channel(self.channel, true);
        self.goes(Some(reply), NetState::Active)
    }

    /// SETUP again, where this side began the call, and T303.
    pub(crate) fn offers(self, offer: Offer, moment: u32) -> Transition<NetCall>
        requires moment { moment ≤ LAST_MOMENT }
        ensures { result ≡ net_offers self offer moment }
    {
        let due = moment + T303;
        let reply = self.setup_again();
        self.goes(reply, NetState::CallPresent { offer, due })
    }

    fn setup_again(&self) -> Option<Out>
        ensures { result ≡ net_setup_again self.now self.now.origin }
    {
        match self.origin {
            NetOrigin::Outward { called } => Some(setup(self.reference, self.channel, called)),
            NetOrigin::Inward => None,
        }
    }

    pub(crate) fn releases(self, sent: Times, cause: Option<u8>, moment: u32) -> Transition<NetCall>
        requires moment { moment ≤ LAST_MOMENT }
        ensures { result ≡ net_releases self sent cause moment }
    {
        let due = moment + T308;
        let reply = match cause {
            Some(value) => self.says_cause(Kind::Release, value),
            None => self.says(Kind::Release),
        };
        self.goes(Some(reply), NetState::ReleaseRequest { sent, cause, due })
    }
}
