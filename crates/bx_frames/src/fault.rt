//! Why a session of the link is over before its day is.

use thiserror::Error;

/// Why a session is closed. Of the faults of one frame the first of this order is answered: `UnknownKind`,
/// which the kind's octet alone decides; `EndedInFrame` where the length is not whole; `BadLength`;
/// `MoreThan64Messages`; `EndedInFrame` where the contents are not whole; `WrongMoment`.
#[derive(Clone, Copy, Debug, PartialEq, Eq, Error)]
pub enum LinkFault {
    /// A read failed.
    #[error("L1 ReadFailed")]
    ReadFailed,
    /// A write failed, or took no octet.
    #[error("L2 WriteFailed")]
    WriteFailed,
    /// The input ended inside a frame, or before the end of a turn.
    #[error("L3 EndedInFrame")]
    EndedInFrame,
    /// A message of more than `MAX_MESSAGE` octets, an end of turn of other than 4, or an end of other than 0.
    #[error("L4 BadLength")]
    BadLength,
    /// The kind is none, or one that this end is not sent.
    #[error("L5 UnknownKind")]
    UnknownKind,
    /// A 65th message in one turn.
    #[error("L6 MoreThan64Messages")]
    MoreThan64Messages,
    /// A turn ended with another moment than the one that is due.
    #[error("L7 WrongMoment")]
    WrongMoment,
    /// The session was closed before.
    #[error("L8 Closed")]
    Closed,
    /// The data link was released or established anew (ITU-T Q.921, 5.5 and 5.7), and messages may be lost.
    #[error("L9 LinkReset")]
    LinkReset,
}
