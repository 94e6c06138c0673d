//! Frames between the two ends of a link with SAPI 0 and TEI 0.

ghost use Rattle.std.specs.Prelude.{◌≡◌, false};
ghost use Rattle.bx_lapd.specs.declared.frame.Frame.TheVariants.{Plain};
ghost use Rattle.bx_lapd.specs.declared.words.Unnumbered.TheVariants.{Ui};

use crate::words::{Supervisory, Unnumbered};
use bx_q931::Octets;

/// A frame (ITU-T Q.921, 3.4 to 3.6). Whether an unnumbered frame is a command or a response is told by what it is; an information
/// frame is a command.
#[derive(Drop)]
pub enum Frame {
    /// I: P, N(S), N(R) and the message.
    Information {
        poll: bool,
        sent: u8,
        received: u8,
        message: Octets,
    },
    /// RR, RNR or REJ: whether it is a command, P or F, and N(R).
    Numbered {
        kind: Supervisory,
        command: bool,
        poll: bool,
        received: u8,
    },
    /// The others: P or F.
    Plain {
        kind: Unnumbered,
        poll: bool,
    },
}

impl Default for Frame {
    /// UI, which stands in places of no frame.
    fn default() -> Frame
        ensures { result ≡ Plain Ui false }
    {
        Frame::Plain {
            kind: Unnumbered::Ui,
            poll: false,
        }
    }
}
