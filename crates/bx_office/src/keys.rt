//! The key that a client gives a request, so that it may ask again after an answer that was lost (draft-ietf-httpapi-idempotency-key-header).

ghost use Rattle.std.specs.Prelude.{◌≡◌, true};
ghost use Rattle.bx_office.specs.Keys.{is_key_octet, are_key_octets, is_key, is_quoted, unquoted, key_by, key_of, is_keyed};
ghost use Rattle.bx_office.specs.Targets.{text_of};

use std::marker::Model;

/// The most octets of a key.
const MAX_KEY: usize = 64;

/// A key: 1 to 64 visible octets of ASCII, none of which is `"` or `\`.
#[derive(Clone, Copy, Debug, PartialEq, Eq)]
pub struct Key {
    octets: [u8; 64],
    count: u8,
}

impl Model for Key {
    ghost use Rattle.std.specs.Prelude.{◌≡◌, ℕ, List, take, length};
    ghost use Rattle.bx_office.specs.Keys.{zero_filled};

    ghost Value = { List ℕ };

    ghost use Rattle.bx_office.specs.KeyInside.{IsKeyInside, inside_from_octets};

    ghost view = { λ a. take a.count a.octets };

    ghost invariant = { IsKeyInside };

    ghost inverse = { λ octets. record { octets = zero_filled octets; count = length octets } };

    ghost inverse_ok = { inside_from_octets };
}

impl Key {
    /// The key of these octets. None where they are none.
    pub fn new(octets: &[u8]) -> Option<Key>
        ensures { result ≡ key_by octets.now }
    {
        if !is_key(octets) {
            return None;
        }
        let mut filled = [0; 64];
        filled[..octets.len()].copy_from_slice(octets);
        Some(Key {
            octets: filled,
            count: octets.len() as u8,
        })
    }

    /// Its octets.
    pub fn octets(&self) -> &[u8]
        ensures value { result.now ≡ self.now }
        ensures key { is_key result.now ≡ true }
    {
        &self.octets[..self.count as usize]
    }
}

/// Whether a key may have this octet.
fn is_key_octet(octet: u8) -> bool
    ensures { result ≡ is_key_octet octet }
{
    33 <= octet && octet <= 126 && octet != b'"' && octet != b'\\'
}

/// Whether a key may have each of these octets.
fn are_key_octets(octets: &[u8]) -> bool
    ensures { result ≡ are_key_octets octets.now }
{
    for octet in octets {
        if !is_key_octet(*octet) {
            return false;
        }
    }
    true
}

/// Whether octets are a key.
fn is_key(octets: &[u8]) -> bool
    ensures { result ≡ is_key octets.now }
{
    !octets.is_empty() && octets.len() <= MAX_KEY && are_key_octets(octets)
}

/// Whether a text stands in quotes.
fn is_quoted(text: &[u8]) -> bool
    ensures { result ≡ is_quoted text.now }
{
    text.len() >= 2 && text[0] == b'"' && text[text.len() - 1] == b'"'
}

/// A text without the quotes round it, where it stands in quotes.
fn unquoted(text: &[u8]) -> &[u8]
    ensures { result.now ≡ unquoted text.now }
{
    if is_quoted(text) {
        return &text[1..text.len() - 1];
    }
    text
}

/// The key that the value of the field `Idempotency-Key` says, in quotes or not. None where it is no key.
pub fn read_key(value: &[u8]) -> Option<Key>
    ensures { result ≡ key_of value.now }
{
    Key::new(unquoted(value))
}

/// Whether a request has no key, or one that is a key.
pub(crate) fn is_keyed(value: Option<&[u8]>) -> bool
    ensures { result ≡ is_keyed (text_of value.entry) }
{
    match value {
        Some(value) => read_key(value).is_some(),
        None => true,
    }
}
