//! Messages of Q.931, as they come and as they are sent.

ghost use Rattle.std.specs.Prelude.{◌≡◌, Some, Ok, IfSome};
ghost use Rattle.bx_q931.specs.Messages.{PlainMessage, message_at};
ghost use Rattle.bx_q931.specs.Values.{cause_of};

use bx_q931::{Kind, Octets, Out, encode, read};

/// The cause that a message gives. None where the octets are no message, or it gives none.
pub fn cause_in(octets: &[u8]) -> Option<u8>
    ensures { IfSome result (λ cause. (m : PlainMessage) × (message_at octets.now ≡ Ok m) × (cause_of m ≡ Some cause)) }
{
    match read(octets) {
        Ok(message) => message.cause(),
        Err(_) => None,
    }
}

/// RELEASE COMPLETE of the user's side, from the end that was called. None for reference 0, and for one above 32,767. Whoever reads it by Q.931
/// finds this type.
pub fn release_complete(reference: u16, cause: u8) -> Option<Octets>
    ensures { IfSome result (λ octets. (m : PlainMessage) × (message_at octets.items ≡ Ok m) × (m.kind ≡ Kind.ReleaseComplete)) }
{
    let out = Out::new(reference, true, Kind::ReleaseComplete)?;
    Some(encode(&out.with_cause(0, cause)))
}
