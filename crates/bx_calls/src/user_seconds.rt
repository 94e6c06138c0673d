//! What a second does to a call at the user side.

ghost use Rattle.std.specs.Prelude.{◌≡◌, ◌≤◌};
ghost use Rattle.bx_calls.specs.UserTable.{user_setup_again, user_takes, user_answers, user_clears, user_release_due, user_second_row, user_second, user_later, user_unlinked, due_later};

use crate::outgoing::setup;
use crate::timers::{T303, T313};
use crate::times::Times;
use crate::transition::Transition;
use crate::user_call::UserCall;
use crate::user_state::{Policy, UserOrigin, UserState};
use bx_events::LAST_MOMENT;
use bx_q931::cause::{NORMAL_CALL_CLEARING, RECOVERY_ON_TIMER_EXPIRY};
use bx_q931::{Kind, Out};

impl UserCall {
    /// What the call does at a tick to this moment, which is at most `LAST_MOMENT`.
    pub fn on_second(self, moment: u32) -> Transition<UserCall>
        requires moment { moment ≤ LAST_MOMENT }
        ensures { result ≡ user_second self moment }
    {
        match self.state {
            UserState::CallPresent => self.takes(moment),
            UserState::CallReceived => self.answers(moment),
            UserState::Active { since } => self.clears(since, moment),
            UserState::CallInitiated { again: false, due } if due <= moment => {
                let due = moment + T303;
                let reply = self.setup_again();
                self.goes(reply, UserState::CallInitiated { again: true, due })
            }
            UserState::CallInitiated { again: true, due } if due <= moment => {
                Transition::over(Some(self.says_cause(
                    Kind::ReleaseComplete,
                    RECOVERY_ON_TIMER_EXPIRY,
                )))
            }
            UserState::ConnectRequest { due } | UserState::OutgoingCallProceeding { due }
                if due <= moment => self.disconnects(RECOVERY_ON_TIMER_EXPIRY, moment),
            UserState::DisconnectRequest { cause, due } if due <= moment => {
                self.releases(Times::Once, Some(cause), moment)
            }
            UserState::ReleaseRequest { sent, cause, due } if due <= moment => {
                self.on_release(sent, cause, moment)
            }
            _ => self.stays(None),
        }
    }

    /// What the call is after a second without a link to the network, which comes to this moment: nothing is said in it, and its
    /// timer stands still while it is set up, but for T313, which begins anew. In the next second with a link RELEASE is due for one that is being cleared. A
    /// timer that would be due after the last moment of a `u32` is due at that. The moment is at most `LAST_MOMENT`.
    pub fn on_second_unlinked(self, moment: u32) -> UserCall
        requires moment { moment ≤ LAST_MOMENT }
        ensures { result ≡ user_unlinked moment self }
    {
        let state = following(self.state, moment);
        UserCall { state, ..self }
    }

    /// The rows of U19, whose timer is due.
    fn on_release(self, sent: Times, cause: Option<u8>, moment: u32) -> Transition<UserCall>
        requires moment { moment ≤ LAST_MOMENT }
        ensures { result ≡ user_release_due self moment sent cause }
    {
        match sent {
            Times::NotYet => self.releases(Times::Once, cause, moment),
            Times::Once => self.releases(Times::Twice, cause, moment),
            Times::Twice => Transition::broken(),
        }
    }

    /// U6: the first tick to a call that was offered.
    fn takes(self, moment: u32) -> Transition<UserCall>
        requires moment { moment ≤ LAST_MOMENT }
        ensures { result ≡ user_takes self moment self.origin }
    {
        let UserOrigin::Offered { policy, .. } = self.origin else {
            return self.stays(None);
        };
        match policy {
            Policy::Answer(0) | Policy::Clear(_) => {
                self.connects(self.says_channel(Kind::Connect), moment)
            }
            Policy::Answer(_) | Policy::Alert => {
                self.goes(
                    Some(self.says_channel(Kind::Alerting)),
                    UserState::CallReceived,
                )
            }
            Policy::Proceed => self.goes(
                Some(self.says_channel(Kind::CallProceeding)),
                UserState::IncomingCallProceeding,
            ),
            Policy::Busy | Policy::Silent => self.stays(None),
        }
    }

    /// U7: n seconds after the first tick, which is one second after the SETUP.
    fn answers(self, moment: u32) -> Transition<UserCall>
        requires moment { moment ≤ LAST_MOMENT }
        ensures { result ≡ user_answers self moment self.origin }
    {
        match self.origin {
            UserOrigin::Offered {
                policy: Policy::Answer(n),
                at,
            } if moment.saturating_sub(at) > n => {
                self.connects(self.says(Kind::Connect), moment)
            }
            _ => self.stays(None),
        }
    }

    /// U10: n seconds after the call became Active, and not in that same second.
    fn clears(self, since: u32, moment: u32) -> Transition<UserCall>
        requires moment { moment ≤ LAST_MOMENT }
        ensures { result ≡ user_clears self moment since self.origin }
    {
        match self.origin {
            UserOrigin::Offered {
                policy: Policy::Clear(n),
                ..
            } if moment.saturating_sub(since) >= n.max(1) => {
                self.disconnects(NORMAL_CALL_CLEARING, moment)
            }
            _ => self.stays(None),
        }
    }

    fn setup_again(&self) -> Option<Out>
        ensures { result ≡ user_setup_again self.now self.now.origin }
    {
        match self.origin {
            UserOrigin::Calling { called } => Some(setup(self.reference, self.channel, called)),
            UserOrigin::Offered { .. } => None,
        }
    }
}

/// The state after a second without a link to this moment.
fn following(state: UserState, moment: u32) -> UserState
    requires moment { moment ≤ LAST_MOMENT }
    ensures { result ≡ user_later moment state }
{
    match state {
        UserState::CallInitiated { again, due } => UserState::CallInitiated {
            again,
            due: later(due),
        },
        UserState::OutgoingCallProceeding { due } => UserState::OutgoingCallProceeding {
            due: later(due),
        },
        UserState::ConnectRequest { due: _ } => UserState::ConnectRequest { due: moment + T313 },
        UserState::DisconnectRequest { cause, due: _ } => UserState::DisconnectRequest {
            cause,
            due: moment + 1,
        },
        UserState::ReleaseRequest {
            sent: _,
            cause,
            due: _,
        } => UserState::ReleaseRequest {
            sent: Times::NotYet,
            cause,
            due: moment + 1,
        },
        UserState::CallPresent
        | UserState::CallReceived
        | UserState::IncomingCallProceeding
        | UserState::Active { .. } => state,
    }
}

/// When a timer is due that stands still for a second.
fn later(due: u32) -> u32
    ensures { result ≡ due_later due }
{
    due.saturating_add(1)
}
