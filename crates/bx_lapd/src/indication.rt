//! What a link tells layer 3 and layer management.

ghost use Rattle.std.specs.Prelude.{◌≡◌};
ghost use Rattle.bx_lapd.specs.declared.indication.Indication.TheVariants.{LinkReleased};

use crate::words::ErrorCode;
use bx_q931::Octets;

/// An indication.
#[derive(Drop)]
pub enum Indication {
    /// DL-ESTABLISH indication or confirm: what was given before and is not acknowledged is lost.
    LinkEstablished,
    /// DL-RELEASE indication or confirm.
    LinkReleased,
    /// DL-DATA indication.
    Delivered(Octets),
    /// MDL-ERROR indication.
    LinkError(ErrorCode),
}

impl Default for Indication {
    /// It stands in places of no indication.
    fn default() -> Indication
        ensures { result ≡ LinkReleased }
    {
        Indication::LinkReleased
    }
}
