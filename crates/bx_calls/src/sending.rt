//! Messages that are sent, as octets.

ghost use Rattle.std.specs.Prelude.{◌≡◌, ◌≤◌, length};
ghost use Rattle.bx_calls.specs.Sending.{in_order, spelled};

use arrayvec::ArrayVec;
use bx_q931::{Octets, Out, encode};

/// The octets of each message that is said in a second, in rising order of channel: of a list that has for each channel
/// what is said on it, if anything. At most 30 messages are said in all.
pub fn spell(said: &[Option<Out>]) -> ArrayVec<Octets, 30>
    requires { length (in_order said.now) ≤ 30 }
    ensures { result.items ≡ spelled (in_order said.now) }
{
    let mut sent = ArrayVec::new();
    for message in said {
        if let Some(out) = message {
            sent.push(encode(out));
        }
    }
    sent
}
