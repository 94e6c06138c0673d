//! A call that goes on from one day to the next.

ghost use Rattle.std.specs.Prelude.{◌≡◌};
ghost use Rattle.bx_calls.specs.Shifting.{state_earlier, earlier_by, IsToldBack, SecondsShift, OutagesShift, MessagesShift, EndsAreUnasked};

use crate::net_call::NetCall;
use crate::net_state::NetState;

impl NetCall {
    /// The same call, whose timer is due so many seconds earlier: as a day tells it that begins so many seconds later. What ticks,
    /// seconds without a link and messages make of it is the same (`shifted`).
    pub fn earlier_by(self, seconds: u32) -> NetCall
        ensures { result ≡ earlier_by seconds self }
    {
        let state = state_earlier(self.state, seconds);
        NetCall { state, ..self }
    }
}

fn state_earlier(state: NetState, seconds: u32) -> NetState
    ensures { result ≡ state_earlier seconds state }
{
    match state {
        NetState::OutgoingCallProceeding => NetState::OutgoingCallProceeding,
        NetState::CallPresent { offer, due } => NetState::CallPresent {
            offer,
            due: due.saturating_sub(seconds),
        },
        NetState::IncomingCallProceeding { due } => NetState::IncomingCallProceeding {
            due: due.saturating_sub(seconds),
        },
        NetState::CallReceived { due } => NetState::CallReceived {
            due: due.saturating_sub(seconds),
        },
        NetState::Active => NetState::Active,
        NetState::Enquiring { asked, due } => NetState::Enquiring {
            asked,
            due: due.saturating_sub(seconds),
        },
        NetState::DisconnectIndication { cause, due } => NetState::DisconnectIndication {
            cause,
            due: due.saturating_sub(seconds),
        },
        NetState::ReleaseRequest { sent, cause, due } => NetState::ReleaseRequest {
            sent,
            cause,
            due: due.saturating_sub(seconds),
        },
    }
}

/// The call of the day before is that of the new day, with each moment so many seconds later, and stays so: whatever comes, both
/// become the same, but for these seconds, and say the same. A call that is being cleared asks for no end.
pub fn shifted()
    ensures back { IsToldBack }
    ensures seconds { SecondsShift }
    ensures outages { OutagesShift }
    ensures messages { MessagesShift }
    ensures ends { EndsAreUnasked }
{}
