//! The answers to what is not let through, and to what is no request.

ghost use Rattle.std.specs.Prelude.{◌≡◌, ◌≤◌, length};
ghost use Rattle.std.specs.Str.{bytes_eq};
ghost use Rattle.bx_office.specs.Refusals.{refusal_status, methods_of, refusal_allowed, word_len, past_space, begins_with_digit, is_version, names_version, is_blank, fault_status};
ghost use Rattle.bx_office.specs.declared.reply.Allowed.TheVariants as Methods;
ghost use Rattle.bx_office.specs.declared.reply.Status.TheVariants as Statuses;

use crate::gate::{Refusal, Route};
use crate::reply::{Allowed, Kind, Reply, Status};
use http1::ReadError;

/// How the answer to a request begins that is refused.
fn refusal_status(refusal: Refusal) -> Status
    ensures { result ≡ refusal_status refusal }
{
    match refusal {
        Refusal::Doubled | Refusal::BadKey => Status::BadRequest,
        Refusal::OtherHost | Refusal::OtherOrigin => Status::Forbidden,
        Refusal::UnknownMethod => Status::NotImplemented,
        Refusal::NotFound => Status::NotFound,
        Refusal::WrongMethod(_) => Status::MethodNotAllowed,
        Refusal::NotCsv | Refusal::Coded => Status::UnsupportedMediaType,
        Refusal::NoLength => Status::LengthRequired,
    }
}

/// The methods of what stands at a path.
fn methods_of(route: Route) -> Allowed
    ensures { result ≡ methods_of route }
{
    match route {
        Route::Bookings => Allowed::Post,
        Route::Office => Allowed::Options,
        Route::Cancel(_) | Route::Change(_) => Allowed::Change,
        _ => Allowed::Get,
    }
}

/// What the answer says is allowed.
fn refusal_allowed(refusal: Refusal) -> Allowed
    ensures { result ≡ refusal_allowed refusal }
{
    match refusal {
        Refusal::WrongMethod(route) => methods_of(route),
        Refusal::Coded => Allowed::Uncoded,
        _ => Allowed::Unsaid,
    }
}

/// Its words.
fn refusal_words(refusal: Refusal) -> &'static str {
    match refusal {
        Refusal::Doubled => "two of one field of which one may stand\n",
        Refusal::OtherHost => "another host\n",
        Refusal::OtherOrigin => "another origin\n",
        Refusal::UnknownMethod => "no such method\n",
        Refusal::NotFound => "no such page\n",
        Refusal::WrongMethod(Route::Bookings) => "POST\n",
        Refusal::WrongMethod(Route::Office) => "OPTIONS\n",
        Refusal::WrongMethod(Route::Cancel(_) | Route::Change(_)) => "DELETE, PUT\n",
        Refusal::WrongMethod(_) => "GET\n",
        Refusal::NotCsv => "bookings are text/csv\n",
        Refusal::Coded => "bookings are not coded\n",
        Refusal::NoLength => "bookings have a length\n",
        Refusal::BadKey => "the Idempotency-Key is 1 to 64 visible characters, in quotes or not\n",
    }
}

/// The answer to a request that is refused.
pub(crate) fn refusing(refusal: Refusal) -> Reply<'static>
    ensures status { result.status ≡ refusal_status refusal }
    ensures allowed { result.allowed ≡ refusal_allowed refusal }
{
    Reply {
        status: refusal_status(refusal),
        kind: Kind::Text,
        allowed: refusal_allowed(refusal),
        body: refusal_words(refusal).as_bytes(),
    }
}

/// The answer to what is no request, or one that is not read on.
pub(crate) fn giving_up(status: Status, body: &'static str) -> Reply<'static>
    ensures { (result.status ≡ status) × (result.allowed ≡ Methods.Unsaid) × (result.body.now ≡ body.now) }
{
    Reply {
        status,
        kind: Kind::Text,
        allowed: Allowed::Unsaid,
        body: body.as_bytes(),
    }
}

/// The answer to a body whose rest did not come in time.
pub fn too_slow() -> Reply<'static>
    ensures { result.status ≡ Statuses.RequestTimeout }
{
    giving_up(
        Status::RequestTimeout,
        "the rest of the body did not come\n",
    )
}

/// The answer where as many stand at the door as there are places.
pub fn crowded() -> Reply<'static>
    ensures { result.status ≡ Statuses.Unavailable }
{
    giving_up(Status::Unavailable, "too many at the door\n")
}

/// How many octets a word has, up to a space.
fn word_len(text: &[u8]) -> usize
    ensures value { result ≡ word_len text.now }
    ensures within { result ≤ length text.now }
{
    text.iter().take_while(|c| **c != b' ').count()
}

/// What stands after the first space.
#[tactic(auto, using(crate::proofs::Cuts::drop_past))]
fn past_space(text: &[u8]) -> &[u8]
    ensures { result.now ≡ past_space text.now }
{
    let len = word_len(text);
    if len >= text.len() {
        return &[];
    }
    &text[len + 1..]
}

/// Whether a text begins with a digit.
fn begins_with_digit(text: &[u8]) -> bool
    ensures { result ≡ begins_with_digit text.now }
{
    match text {
        [] => false,
        [first, ..] => b'0' <= *first && *first <= b'9',
    }
}

/// Whether a text begins as a version of HTTP does.
fn is_version(text: &[u8]) -> bool
    ensures { result ≡ is_version text.now }
{
    let count = text.len().min(5);
    &text[..count] == "HTTP/".as_bytes() && begins_with_digit(&text[count..])
}

/// Whether the first line of a request names a version of HTTP. Read where that is none that is read here.
fn names_version(input: &[u8]) -> bool
    ensures { result ≡ names_version input.now }
{
    is_version(past_space(past_space(input)))
}

/// Whether octets are ends of lines alone.
fn is_blank(input: &[u8]) -> bool
    ensures { result ≡ is_blank input.now }
{
    for octet in input {
        if *octet != b'\r' && *octet != b'\n' {
            return false;
        }
    }
    true
}

/// The answer to octets that are no request within the limits: these were read.
pub(crate) fn faulting(fault: ReadError, input: &[u8]) -> Reply<'static>
    ensures { result.status ≡ fault_status fault input.now }
{
    match fault {
        ReadError::UriTooLong if is_blank(input) => giving_up(
            Status::BadRequest,
            "16384 octets of blank lines\n",
        ),
        ReadError::UriTooLong => giving_up(Status::UriTooLong, "the target is too long\n"),
        ReadError::TooLarge => giving_up(
            Status::HeadTooLarge,
            "the head is more than 16384 octets\n",
        ),
        ReadError::Parse(httparse::Error::TooManyHeaders) => giving_up(
            Status::HeadTooLarge,
            "the head has more than 64 fields\n",
        ),
        ReadError::Parse(httparse::Error::Version) if names_version(input) => giving_up(
            Status::OtherVersion,
            "HTTP/1.1 and HTTP/1.0 are read\n",
        ),
        _ => giving_up(Status::BadRequest, "no request of HTTP/1.1\n"),
    }
}
