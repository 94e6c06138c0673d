//! What a second does to a call at the network side.

ghost use Rattle.std.specs.Prelude.{◌≡◌, ◌≤◌, ◌+◌, ℕ, None};
ghost use Rattle.bx_calls.specs.NetTable.{net_to, net_is_clearing, net_offer_due, net_release_due, net_asks, net_timer, net_second, net_rings_on, net_lost, net_later, net_unlinked, IsDueBy, IfDueFits};
ghost use Rattle.bx_calls.specs.declared.net_state.NetState.TheVariants.{CallPresent};
ghost use Rattle.bx_calls.specs.declared.net_state.Offer.TheVariants.{Unlinked};

use crate::net_call::NetCall;
use crate::net_state::{NetState, Offer};
use crate::timers::T322;
use crate::times::Times;
use crate::transition::Transition;
use bx_events::{LAST_MOMENT, Rules};
use bx_q931::cause::{NORMAL_CALL_CLEARING, RECOVERY_ON_TIMER_EXPIRY, TEMPORARY_FAILURE};
use bx_q931::{Kind, Out};

impl NetCall {
    /// What the call does at a tick to this moment, where its booking ends at that one. The moment is at most `LAST_MOMENT`.
    pub fn on_second(self, moment: u32, end: u32) -> Transition<NetCall>
        requires moment { moment ≤ LAST_MOMENT }
        ensures { result ≡ net_second self moment end }
    {
        if end <= moment && !self.is_clearing() {
            self.disconnects(NORMAL_CALL_CLEARING, moment)
        } else {
            self.on_timer(moment)
        }
    }

    /// What the call does by these rules in so many seconds without a link to the user, of which the last comes to this moment. In the
    /// next second with a link the user is asked whether it has a call in N6, N9 or N7, and whether one in N10 is still up (ITU-T Q.931,
    /// 5.8.9, 5.8.10), and RELEASE is due for one that is being cleared; so it is where the booking ends by then. By the rules 2 one in
    /// N9 or N7 is not asked for: its timer stands still, and one that would be due after the last moment of a `u32` is due at that. The
    /// moment is at most `LAST_MOMENT`.
    pub fn on_seconds_unlinked(
        self,
        seconds: u32,
        rules: Rules,
        moment: u32,
        end: u32,
    ) -> Transition<NetCall>
        requires moment { moment ≤ LAST_MOMENT }
        ensures { IfDueFits seconds self.state (result ≡ net_unlinked rules seconds self moment end) }
    {
        if moment >= end && !self.is_clearing() {
            let due = moment + 1;
            let cause = NORMAL_CALL_CLEARING;
            self.goes(None, NetState::DisconnectIndication { cause, due })
        } else {
            self.outlasts(seconds, rules, moment)
        }
    }

    /// The same where the booking does not end.
    fn outlasts(self, seconds: u32, rules: Rules, moment: u32) -> Transition<NetCall>
        requires moment { moment ≤ LAST_MOMENT }
        ensures { IfDueFits seconds self.state (result ≡ net_to self None (net_later rules seconds moment self.state)) }
    {
        let state = following(self.state, seconds, rules, moment);
        self.goes(None, state)
    }

    /// The rows of the timers.
    fn on_timer(self, moment: u32) -> Transition<NetCall>
        requires moment { moment ≤ LAST_MOMENT }
        ensures { result ≡ net_timer self moment self.state }
    {
        match self.state {
            NetState::OutgoingCallProceeding => self.connects(),
            NetState::CallPresent { offer, due } if due <= moment => self.on_offer(offer, moment),
            NetState::IncomingCallProceeding { due } | NetState::CallReceived { due }
                if due <= moment => self.disconnects(RECOVERY_ON_TIMER_EXPIRY, moment),
            NetState::Enquiring {
                asked: Times::NotYet,
                due,
            } if due <= moment => self.asks(Times::Once, moment),
            NetState::Enquiring {
                asked: Times::Once,
                due,
            } if due <= moment => self.asks(Times::Twice, moment),
            NetState::Enquiring {
                asked: Times::Twice,
                due,
            } if due <= moment => self.disconnects(TEMPORARY_FAILURE, moment),
            NetState::DisconnectIndication { cause, due } if due <= moment => {
                self.releases(Times::Once, Some(cause), moment)
            }
            NetState::ReleaseRequest { sent, cause, due } if due <= moment => {
                self.on_release(sent, cause, moment)
            }
            _ => self.stays(None),
        }
    }

    /// The rows of N6, whose timer is due.
    fn on_offer(self, offer: Offer, moment: u32) -> Transition<NetCall>
        requires moment { moment ≤ LAST_MOMENT }
        ensures { result ≡ net_offer_due self moment offer }
    {
        match offer {
            Offer::First | Offer::Anew => self.offers(Offer::Second, moment),
            Offer::PutOff | Offer::Asked => self.offers(Offer::First, moment),
            Offer::Unlinked => {
                let reply = self.says(Kind::StatusEnquiry);
                let due = moment + T322;
                let offer = Offer::Asked;
                self.goes(Some(reply), NetState::CallPresent { offer, due })
            }
            Offer::Second => Transition::over(Some(self.says_cause(
                Kind::ReleaseComplete,
                RECOVERY_ON_TIMER_EXPIRY,
            ))),
        }
    }

    /// The rows of N19, whose timer is due.
    fn on_release(self, sent: Times, cause: Option<u8>, moment: u32) -> Transition<NetCall>
        requires moment { moment ≤ LAST_MOMENT }
        ensures { result ≡ net_release_due self moment sent cause }
    {
        match sent {
            Times::NotYet => self.releases(Times::Once, cause, moment),
            Times::Once => self.releases(Times::Twice, cause, moment),
            Times::Twice => Transition::broken(),
        }
    }

    /// STATUS ENQUIRY, and T322.
    fn asks(self, asked: Times, moment: u32) -> Transition<NetCall>
        requires moment { moment ≤ LAST_MOMENT }
        ensures { result ≡ net_asks self asked moment }
    {
        let due = moment + T322;
        let reply = self.says(Kind::StatusEnquiry);
        self.goes(Some(reply), NetState::Enquiring { asked, due })
    }

    fn is_clearing(&self) -> bool
        ensures { result ≡ net_is_clearing self.now.state }
    {
        matches!(
            self.state,
            NetState::DisconnectIndication { .. } | NetState::ReleaseRequest { .. }
        )
    }
}

/// The state after so many seconds without a link, of which the last comes to this moment.
fn following(state: NetState, seconds: u32, rules: Rules, moment: u32) -> NetState
    requires { moment ≤ LAST_MOMENT }
    ensures { (latest : ℕ) → IsDueBy latest state → latest + seconds ≤ 4294967295 → result ≡ net_later rules seconds moment state }
{
    if seconds == 0 {
        state
    } else {
        standing_still(state, seconds, rules, moment)
    }
}

/// The same of one such second or more.
fn standing_still(state: NetState, seconds: u32, rules: Rules, moment: u32) -> NetState
    requires { moment ≤ LAST_MOMENT }
    ensures { (latest : ℕ) → IsDueBy latest state → latest + seconds ≤ 4294967295 → result ≡ net_lost rules seconds moment state }
{
    match state {
        NetState::OutgoingCallProceeding => NetState::OutgoingCallProceeding,
        NetState::CallPresent { .. } => unlinked(moment),
        NetState::IncomingCallProceeding { due } => {
            let due = later(due, seconds);
            ringing_on(rules, moment, NetState::IncomingCallProceeding { due })
        }
        NetState::CallReceived { due } => {
            let due = later(due, seconds);
            ringing_on(rules, moment, NetState::CallReceived { due })
        }
        NetState::Active | NetState::Enquiring { .. } => NetState::Enquiring {
            asked: Times::NotYet,
            due: moment + 1,
        },
        NetState::DisconnectIndication { cause, .. } => NetState::DisconnectIndication {
            cause,
            due: moment + 1,
        },
        NetState::ReleaseRequest { cause, .. } => NetState::ReleaseRequest {
            sent: Times::NotYet,
            cause,
            due: moment + 1,
        },
    }
}

/// N6, in which the user is asked for the call a second after this moment.
fn unlinked(moment: u32) -> NetState
    requires { moment ≤ LAST_MOMENT }
    ensures { result ≡ CallPresent Unlinked (moment + 1) }
{
    NetState::CallPresent {
        offer: Offer::Unlinked,
        due: moment + 1,
    }
}

/// The state of a call that was in N9 or N7, where this is the one with a timer that stands still.
fn ringing_on(rules: Rules, moment: u32, later: NetState) -> NetState
    requires { moment ≤ LAST_MOMENT }
    ensures { result ≡ net_rings_on rules moment later }
{
    match rules {
        Rules::Two => later,
        Rules::Three => unlinked(moment),
    }
}

/// When a timer is due that stands still for so many seconds.
fn later(due: u32, seconds: u32) -> u32
    ensures { due + seconds ≤ 4294967295 → result ≡ due + seconds }
{
    due.saturating_add(seconds)
}
