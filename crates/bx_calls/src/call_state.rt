//! Call states by their numbers.

ghost use Rattle.std.specs.Prelude.{◌≡◌, ◌<◌};
ghost use Rattle.bx_calls.specs.States.{state_value};

/// A call state (ITU-T Q.931, 2.1.1 at the user side, 2.1.2 at the network side).
#[derive(Clone, Copy, Debug, PartialEq, Eq)]
pub enum CallState {
    Null,
    CallInitiated,
    OutgoingCallProceeding,
    CallPresent,
    CallReceived,
    ConnectRequest,
    IncomingCallProceeding,
    Active,
    DisconnectRequest,
    DisconnectIndication,
    ReleaseRequest,
}

impl CallState {
    /// Its number in a call state element (4.5.7), below 64.
    pub fn value(self) -> u8
        ensures value { result ≡ state_value self }
        ensures limit { result < 64 }
    {
        match self {
            CallState::Null => 0,
            CallState::CallInitiated => 1,
            CallState::OutgoingCallProceeding => 3,
            CallState::CallPresent => 6,
            CallState::CallReceived => 7,
            CallState::ConnectRequest => 8,
            CallState::IncomingCallProceeding => 9,
            CallState::Active => 10,
            CallState::DisconnectRequest => 11,
            CallState::DisconnectIndication => 12,
            CallState::ReleaseRequest => 19,
        }
    }
}
