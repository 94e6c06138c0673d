//! The origin by which a proxy in front of the office is asked.

ghost use Rattle.std.specs.Prelude.{◌≡◌, ◌<◌, length, MatchOption};
ghost use Rattle.bx_office.specs.Origins.{origin_text};

/// The most octets of an origin.
const MAX_ORIGIN: usize = 255;

/// An origin of at most 255 octets, as `https://office.example`: a scheme, a host, and its port where that is not the one of the scheme
/// (RFC 6454, section 6.2).
#[derive(Clone, Copy, Debug, PartialEq, Eq)]
pub struct Origin {
    octets: [u8; 255],
    count: u8,
}

impl Origin {
    /// The origin of this text. None where it has more than 255 octets.
    pub fn new(text: &[u8]) -> Option<Origin>
        ensures { MatchOption result (255 < length text.now) (λ origin. origin_text origin ≡ text.now) }
    {
        if text.len() > MAX_ORIGIN {
            return None;
        }
        let mut octets = [0; 255];
        octets[..text.len()].copy_from_slice(text);
        Some(Origin {
            octets,
            count: text.len() as u8,
        })
    }

    /// Its octets.
    pub fn octets(&self) -> &[u8]
        ensures { result.now ≡ origin_text self.now }
    {
        &self.octets[..self.count as usize]
    }
}
