//! The target of a request: the host that it names, its path and its query.

ghost use Rattle.std.specs.Prelude.{◌≡◌, ◌≤◌, length};
ghost use Rattle.bx_office.specs.Targets.{text_of, path_len, path_in, query_in, past, host_len, named_host, rooted, local_path};

use http1::text::eq_ignore_case;

/// How many octets a path has, up to the query.
fn path_len(target: &[u8]) -> usize
    ensures value { result ≡ path_len target.now }
    ensures within { result ≤ length target.now }
{
    target.iter().take_while(|c| **c != b'?').count()
}

/// What stands before the query.
pub(crate) fn path_in(target: &[u8]) -> &[u8]
    ensures { result.now ≡ path_in target.now }
{
    &target[..path_len(target)]
}

/// What stands after the path and a question mark.
#[tactic(auto, using(crate::proofs::Cuts::drop_past))]
pub(crate) fn query_in(target: &[u8]) -> &[u8]
    ensures { result.now ≡ query_in target.now }
{
    let len = path_len(target);
    if len >= target.len() {
        return &[];
    }
    &target[len + 1..]
}

/// What stands after these words, whatever their case, where the text begins with them.
pub(crate) fn past<'a>(text: &'a [u8], words: &[u8]) -> Option<&'a [u8]>
    ensures { text_of result ≡ past words.now text.now }
{
    let count = text.len().min(words.len());
    if eq_ignore_case(&text[..count], words) {
        return Some(&text[count..]);
    }
    None
}

/// How many octets a host has, up to the path.
fn host_len(text: &[u8]) -> usize
    ensures value { result ≡ host_len text.now }
    ensures within { result ≤ length text.now }
{
    text.iter().take_while(|c| **c != b'/').count()
}

/// The host that a request names: that of an absolute target, whose text after the scheme is given, and else that of the field `Host`
/// (RFC 9112, section 3.2.2).
pub(crate) fn named_host<'a>(
    field: Option<&'a [u8]>,
    absolute: Option<&'a [u8]>,
) -> Option<&'a [u8]>
    ensures { text_of result ≡ named_host (text_of field.entry) (text_of absolute.entry) }
{
    match absolute {
        Some(rest) => Some(&rest[..host_len(rest)]),
        None => field,
    }
}

/// A path; an empty one is the root (RFC 9110, section 4.2.3).
fn rooted(path: &[u8]) -> &[u8]
    ensures { result.now ≡ rooted path.now }
{
    if path.is_empty() { b"/" } else { path }
}

/// The path at the office: that of an absolute target, whose text after the scheme is given, and else all of it.
pub(crate) fn local_path<'a>(path: &'a [u8], absolute: Option<&'a [u8]>) -> &'a [u8]
    ensures { result.now ≡ local_path path.now (text_of absolute.entry) }
{
    match absolute {
        Some(rest) => rooted(&rest[host_len(rest)..]),
        None => path,
    }
}
