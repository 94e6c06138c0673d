//! Why octets are no message.

use thiserror::Error;

/// The first fault of octets that are no message.
#[derive(Clone, Copy, Debug, PartialEq, Eq, Error)]
pub enum MessageFault {
    /// There is no octet, or the octets end before the length of the call reference, in the call
    /// reference, or before the message type (ITU-T Q.931, 5.8.2).
    #[error("M1 TooShort")]
    TooShort,
    /// The protocol discriminator is not 8 (5.8.1).
    #[error("M2 NotQ931")]
    NotQ931,
    /// Octet 2 has one of bits 8 to 5 set, or a length above 2 (5.8.3.1).
    #[error("M3 BadCallReference")]
    BadCallReference,
    /// An information element is longer than what is left.
    #[error("M4 TornElement")]
    TornElement,
    /// There are more than 260 octets; this counts before all others.
    #[error("M5 TooLong")]
    TooLong,
}
