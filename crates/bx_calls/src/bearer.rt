//! Whether a SETUP asks for a call that an end can carry.

ghost use Rattle.std.specs.Prelude.{◌≡◌};
ghost use Rattle.bx_calls.specs.Setups.{bearer_fault};

use bx_q931::cause::{INCOMPATIBLE_DESTINATION, MANDATORY_ELEMENT_MISSING};
use bx_q931::{BEARER_CAPABILITY, Message};

/// The cause with which a SETUP is refused by its bearer capability (ITU-T Q.931, 5.8.6.1 and 5.2.2): 96
/// where it has none, 88 where that is not of an unrestricted digital call at 64 kbit/s.
pub fn bearer_fault(message: &Message<'_>) -> Option<u8>
    ensures { result ≡ bearer_fault message.now }
{
    match message.first(BEARER_CAPABILITY) {
        None => Some(MANDATORY_ELEMENT_MISSING),
        Some([0x88, 0x90, ..]) => None,
        Some(_) => Some(INCOMPATIBLE_DESTINATION),
    }
}
