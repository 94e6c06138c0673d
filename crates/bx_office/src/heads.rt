//! What the head of a request says to the gate.

ghost use Rattle.std.specs.Prelude.{IfOk, true, ◌≡◌, Some, None, length, All, MatchOption, codes, map, is_some, ◌||◌};
ghost use Rattle.std.specs.Str.{bytes_eq};
ghost use Rattle.httparse.specs.Grammar.{RequestHead};
ghost use Rattle.httparse.specs.Spans.{IsHeaderWithin, IsRequestWithin, IsRequestAt, header_bytes};
ghost use Rattle.bx_office.specs.Gate.{is_shown_to};
ghost use Rattle.bx_office.specs.Heads.{is_doubled, are_doubled, are_coded, says_length, key_asked, IsVerdict};
ghost use Rattle.bx_office.specs.Inside.{value_at, values_at};

use crate::gate::{Place, Refusal, Request, Route, let_through};
use crate::keys::{Key, read_key};
use http1::text::eq_ignore_case;
use httparse::spans::{HeaderSpan, RequestSpans};

/// The value of the first field of this name.
fn value_of<'a>(input: &'a [u8], spans: &[HeaderSpan], name: &[u8]) -> Option<&'a [u8]>
    requires { All (IsHeaderWithin (length input.now)) spans.now }
    ensures { MatchOption result (value_at input.now spans.now name.now ≡ None) (λ value. value_at input.now spans.now name.now ≡ Some value.now) }
{
    for span in spans {
        if eq_ignore_case(span.name.of(input), name) {
            return Some(span.value.of(input));
        }
    }
    None
}

/// Whether a field of this name stands there more than once.
fn is_doubled(input: &[u8], spans: &[HeaderSpan], name: &[u8]) -> bool
    requires { All (IsHeaderWithin (length input.now)) spans.now }
    ensures { result ≡ is_doubled (values_at input.now spans.now name.now) }
{
    let mut has_one = false;
    for span in spans {
        if eq_ignore_case(span.name.of(input), name) {
            if has_one {
                return true;
            }
            has_one = true;
        }
    }
    false
}

/// Whether one of the fields that may stand once stands there twice.
fn are_doubled(input: &[u8], spans: &[HeaderSpan]) -> bool
    requires { All (IsHeaderWithin (length input.now)) spans.now }
    ensures { result ≡ are_doubled (map (header_bytes input.now) spans.now) }
{
    is_doubled(input, spans, b"origin")
        || is_doubled(input, spans, b"content-type")
        || is_doubled(input, spans, b"content-length")
        || is_doubled(input, spans, b"idempotency-key")
}

/// Whether the content is coded, by anything but `identity`.
fn are_coded(input: &[u8], spans: &[HeaderSpan]) -> bool
    requires { All (IsHeaderWithin (length input.now)) spans.now }
    ensures { result ≡ are_coded (values_at input.now spans.now (codes "content-encoding")) }
{
    for span in spans {
        if eq_ignore_case(span.name.of(input), b"content-encoding")
            && !eq_ignore_case(span.value.of(input), b"identity")
        {
            return true;
        }
    }
    false
}

/// Whether it is said how long the body is: by a length, or by chunks.
fn says_length(input: &[u8], spans: &[HeaderSpan]) -> bool
    requires { All (IsHeaderWithin (length input.now)) spans.now }
    ensures { result ≡ says_length (map (header_bytes input.now) spans.now) }
{
    value_of(input, spans, b"content-length").is_some()
        || value_of(input, spans, b"transfer-encoding").is_some()
}

/// Where a request with this head goes.
pub(crate) fn gated(
    place: Place,
    input: &[u8],
    head: &RequestSpans,
    spans: &[HeaderSpan],
) -> Result<Route, Refusal>
    requires { IsRequestWithin input.now spans.now head.now }
    ensures verdict { (h : RequestHead) → IsRequestAt input.now spans.now head.now h → IsVerdict place h result }
    ensures side { IfOk result (λ route. is_shown_to place.side route ≡ true) }
{
    let fields = &spans[..head.headers];
    let method = head.method.of(input);
    let target = head.path.of(input);
    let host = value_of(input, fields, b"host");
    let origin = value_of(input, fields, b"origin");
    let content = value_of(input, fields, b"content-type");
    let key = value_of(input, fields, b"idempotency-key");
    let request = Request {
        method,
        target,
        host,
        origin,
        content,
        key,
        is_doubled: are_doubled(input, fields),
        is_coded: are_coded(input, fields),
        has_length: says_length(input, fields),
    };
    let_through(place, request)
}

/// The key of a request with this head, where it has one.
pub(crate) fn key_in(input: &[u8], head: &RequestSpans, spans: &[HeaderSpan]) -> Option<Key>
    requires { IsRequestWithin input.now spans.now head.now }
    ensures { (h : RequestHead) → IsRequestAt input.now spans.now head.now h → result ≡ key_asked h }
{
    match value_of(input, &spans[..head.headers], b"idempotency-key") {
        Some(value) => read_key(value),
        None => None,
    }
}

/// Whether this is the method `HEAD`, whose answer has no body.
pub(crate) fn is_head(method: &[u8]) -> bool
    ensures { result ≡ bytes_eq method.now (codes "HEAD") }
{
    method == "HEAD".as_bytes()
}
