//! What one row of the table sends and tells.

ghost use Rattle.std.specs.Prelude.{◌≡◌};

use crate::frame::Frame;
use crate::indication::Indication;
use crate::words::{Supervisory, Unnumbered};

/// A frame, if the row sends one, and what it tells.
#[derive(Drop)]
pub(crate) struct Row {
    pub(crate) frame: Option<Frame>,
    pub(crate) first: Option<Indication>,
    pub(crate) second: Option<Indication>,
}

/// A row that sends and tells nothing.
pub(crate) fn quiet() -> Row
    ensures { result ≡ record { frame = None; first = None; second = None } }
{
    Row {
        frame: None,
        first: None,
        second: None,
    }
}

/// A row that tells something.
pub(crate) fn tells(indication: Indication) -> Row
    ensures { result ≡ record { frame = None; first = Some indication; second = None } }
{
    Row {
        frame: None,
        first: Some(indication),
        second: None,
    }
}

/// A row that sends an unnumbered frame.
pub(crate) fn plain(kind: Unnumbered, poll: bool) -> Row
    ensures { result ≡ record { frame = Some (Frame.Plain kind poll); first = None; second = None } }
{
    Row {
        frame: Some(Frame::Plain { kind, poll }),
        first: None,
        second: None,
    }
}

/// A row that sends an unnumbered frame and tells something.
pub(crate) fn plain_and_tells(kind: Unnumbered, poll: bool, indication: Indication) -> Row
    ensures { result ≡ record { frame = Some (Frame.Plain kind poll); first = Some indication; second = None } }
{
    Row {
        frame: Some(Frame::Plain { kind, poll }),
        first: Some(indication),
        second: None,
    }
}

/// A row that sends a supervisory frame.
pub(crate) fn numbered(kind: Supervisory, command: bool, poll: bool, received: u8) -> Row
    ensures { result ≡ record { frame = Some (Frame.Numbered kind command poll received); first = None; second = None } }
{
    Row {
        frame: Some(Frame::Numbered {
            kind,
            command,
            poll,
            received,
        }),
        first: None,
        second: None,
    }
}
