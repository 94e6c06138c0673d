//! The messages that both sides send.

ghost use Rattle.std.specs.Prelude.{◌≡◌};
ghost use Rattle.bx_q931.specs.Kinds.{IsNamed};
ghost use Rattle.bx_q931.specs.Outgoing.{IsCallReference, plain};
ghost use Rattle.bx_calls.specs.Saying.{setup_of};

use bx_channels::{Channel, Number};
use bx_q931::{Kind, Out};

/// A message with no element.
pub(crate) fn plain(reference: u16, flag: bool, kind: Kind) -> Out
    requires reference { IsCallReference reference }
    requires kind { IsNamed kind }
    ensures { result ≡ plain reference flag kind }
{
    Out::new(reference, flag, kind).unwrap()
}

/// SETUP, from the side that begins the call.
pub(crate) fn setup(reference: u16, channel: Channel, number: Number) -> Out
    requires reference { IsCallReference reference }
    ensures { result ≡ setup_of reference channel number }
{
    plain(reference, false, Kind::Setup)
        .with_sending_complete()
        .with_bearer()
        .with_channel(channel, true)
        .with_called(number)
}
