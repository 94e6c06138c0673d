//! A data link of Q.921.

ghost use Rattle.std.specs.Prelude.{◌≡◌, ◌<◌, ◌^◌, not, true, Ok, IfSome};
ghost use Rattle.bx_lapd.specs.Codec.{read_octets};
ghost use Rattle.bx_lapd.specs.declared.frame.Frame.{Frame as PlainFrame};
ghost use Rattle.bx_lapd.specs.declared.frame.Frame.TheVariants.{Plain};
ghost use Rattle.bx_lapd.specs.declared.words.Unnumbered.TheVariants.{Sabme};

use bx_lapd::{Endpoint, FrameOctets, read_frame, write_frame};

/// What an end sends first that wants its link: whatever stands at the other end reads SABME there.
pub fn first_frame(network: bool, now: u64) -> Option<FrameOctets>
    requires { now < 2 ^ 62 }
    ensures { IfSome result (λ octets. read_octets (not network) octets.items ≡ Ok (Plain Sabme true)) }
{
    let mut end = Endpoint::new(network);
    let done = end.establish(now);
    match done.frames() {
        [frame] => Some(write_frame(network, frame)),
        _ => None,
    }
}

/// Whether octets are a frame of the link to this side.
pub fn is_frame(network: bool, octets: &[u8]) -> bool
    ensures { result ≡ true → (f : PlainFrame) × (read_octets network octets.now ≡ Ok f) }
{
    read_frame(network, octets).is_ok()
}
