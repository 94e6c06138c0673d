//! The states of a call at the network side.

ghost use Rattle.std.specs.Prelude.{◌≡◌};
ghost use Rattle.bx_calls.specs.NetTable.{first_offer};

use crate::times::Times;
use bx_channels::Number;

/// Which side began a call of the network side: this one, with the number that it calls, or the user.
#[derive(Clone, Copy)]
pub enum NetOrigin {
    Outward { called: Number },
    Inward,
}

/// How a call is offered (N6).
#[derive(Clone, Copy)]
pub enum Offer {
    /// SETUP was sent once.
    First,
    /// SETUP was sent twice.
    Second,
    /// SETUP was sent once, in the first second with a link. The user may still be clearing the call before it on the channel,
    /// and refuse this one for that.
    Anew,
    /// The user refused it so, or does not have it: SETUP is to be sent again.
    PutOff,
    /// There was no link: the user is to be asked whether it has the call.
    Unlinked,
    /// It was asked by STATUS ENQUIRY.
    Asked,
}

impl Offer {
    /// That of a first SETUP, where there was a link in the second before or was none.
    pub(crate) fn at_first(is_back: bool) -> Offer
        ensures { result ≡ first_offer is_back }
    {
        if is_back { Offer::Anew } else { Offer::First }
    }
}

/// The states of the network side (ITU-T Q.931, 2.1.2). A state with a timer has the moment at which it is
/// due.
#[derive(Clone, Copy)]
pub enum NetState {
    /// N3, of a call that the user began.
    OutgoingCallProceeding,
    /// N6, T303; T322 while the user is asked for it.
    CallPresent {
        offer: Offer,
        due: u32,
    },
    /// N9, T310.
    IncomingCallProceeding {
        due: u32,
    },
    /// N7, T301.
    CallReceived {
        due: u32,
    },
    /// N10.
    Active,
    /// N10, T322: there was no link for a while, and the user is asked by STATUS ENQUIRY whether the call is still up.
    Enquiring {
        asked: Times,
        due: u32,
    },
    /// N12, T305, with the cause of the DISCONNECT.
    DisconnectIndication {
        cause: u8,
        due: u32,
    },
    /// N19, T308: RELEASE was sent so often since there is a link again, with this cause.
    ReleaseRequest {
        sent: Times,
        cause: Option<u8>,
        due: u32,
    },
}
