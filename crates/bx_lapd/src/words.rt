//! The words of ITU-T Q.921 that a link and its frames are made of.

/// The states of Annex B that a link with a fixed TEI has.
#[derive(Clone, Copy, Debug, PartialEq, Eq)]
pub enum LinkState {
    /// State 4: TEI assigned. There is no link.
    Assigned,
    /// State 5: SABME was sent.
    AwaitingEstablishment,
    /// State 6: DISC was sent.
    AwaitingRelease,
    /// State 7: multiple frame established.
    Established,
    /// State 8: timer recovery. The peer was asked where it stands.
    TimerRecovery,
}

/// The timer of a link, with the instant in milliseconds at which it is due. T203 runs only where T200 does not.
#[derive(Clone, Copy, Debug, PartialEq, Eq)]
pub enum Timer {
    Stopped,
    T200 { due: u64 },
    T203 { due: u64 },
}

/// Supervisory frames (3.6.5 to 3.6.7).
#[derive(Clone, Copy, Debug, PartialEq, Eq)]
pub enum Supervisory {
    /// RR.
    ReceiveReady,
    /// RNR.
    ReceiveNotReady,
    /// REJ.
    Reject,
}

/// Unnumbered frames (3.6.3, 3.6.4, 3.6.8 to 3.6.12).
#[derive(Clone, Copy, Debug, PartialEq, Eq)]
pub enum Unnumbered {
    Sabme,
    Dm,
    Ui,
    Disc,
    Ua,
    Frmr,
    Xid,
}

/// The error codes of MDL-ERROR-INDICATION (Appendix II).
#[derive(Clone, Copy, Debug, PartialEq, Eq)]
pub enum ErrorCode {
    /// A: a supervisory response with F = 1 that was not asked for.
    UnaskedFinal,
    /// B: DM with F = 1.
    DmFinal,
    /// C: UA with F = 1 that was not asked for.
    UaFinal,
    /// D: UA with F = 0.
    Ua,
    /// E: DM with F = 0.
    Dm,
    /// F: SABME, by which the peer establishes the link anew.
    PeerEstablishes,
    /// G: SABME was sent N200 times more, and not answered.
    SabmeUnanswered,
    /// H: DISC was sent N200 times more, and not answered.
    DiscUnanswered,
    /// I: the peer was asked N200 times more, and did not answer.
    EnquiryUnanswered,
    /// J: an N(R) that acknowledges what was not sent.
    WrongNumber,
    /// K: FRMR.
    Frmr,
    /// L: a control field that is none.
    UnknownControl,
    /// M: an information field where none may be.
    UnexpectedInformation,
    /// N: a frame of a wrong size.
    WrongSize,
    /// O: an information field of more than N201 octets.
    TooLong,
}
