//! Why there is no capture of a day.

use thiserror::Error;

/// The day begins before 1970-01-01T00:00:00Z, or after 2106-02-03T19:08:15Z, so that 32 bits do not number each of the
/// 300,000 seconds after its start.
#[derive(Clone, Copy, Debug, PartialEq, Eq, Error)]
#[error("A5 BeyondCapture")]
pub struct BeyondCapture;
