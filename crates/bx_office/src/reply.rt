//! What a client is answered.

ghost use Rattle.std.specs.Prelude.{◌≡◌, ◌++◌, ◌/◌, min, OnOk, codes, decimal};
ghost use Rattle.http1.specs.Head.{header_parts};
ghost use Rattle.httpdate.specs.Date.{date_text, unix_secs};
ghost use Rattle.bx_office.specs.Replies.{code_of, reason_phrase_of, type_of, reply_policy, allowed_of, wait_of, advice_of, head_text, after_head, body_text, after_body, reply_text};
ghost use Rattle.bx_office.specs.Inside.{after_reply};

use bytes::BytesMut;
use http1::{BodySize, Header, Server, WriteError};
use httpdate::HttpDate;
use itoa::Buffer;

/// How an answer begins.
#[derive(Clone, Copy, Debug, PartialEq, Eq)]
pub enum Status {
    Fine,
    BadRequest,
    Forbidden,
    NotFound,
    MethodNotAllowed,
    RequestTimeout,
    Conflict,
    LengthRequired,
    ContentTooLarge,
    UriTooLong,
    UnsupportedMediaType,
    Unprocessable,
    HeadTooLarge,
    NotImplemented,
    Unavailable,
    OtherVersion,
}

impl Status {
    /// Its number (RFC 9110, section 15, and RFC 6585, section 5).
    pub fn code(self) -> u16
        ensures { result ≡ code_of self }
    {
        match self {
            Status::Fine => 200,
            Status::BadRequest => 400,
            Status::Forbidden => 403,
            Status::NotFound => 404,
            Status::MethodNotAllowed => 405,
            Status::RequestTimeout => 408,
            Status::Conflict => 409,
            Status::LengthRequired => 411,
            Status::ContentTooLarge => 413,
            Status::UriTooLong => 414,
            Status::UnsupportedMediaType => 415,
            Status::Unprocessable => 422,
            Status::HeadTooLarge => 431,
            Status::NotImplemented => 501,
            Status::Unavailable => 503,
            Status::OtherVersion => 505,
        }
    }

    /// Its words.
    pub fn reason(self) -> &'static str
        ensures { result.now ≡ reason_phrase_of self }
    {
        match self {
            Status::Fine => "OK",
            Status::BadRequest => "Bad Request",
            Status::Forbidden => "Forbidden",
            Status::NotFound => "Not Found",
            Status::MethodNotAllowed => "Method Not Allowed",
            Status::RequestTimeout => "Request Timeout",
            Status::Conflict => "Conflict",
            Status::LengthRequired => "Length Required",
            Status::ContentTooLarge => "Content Too Large",
            Status::UriTooLong => "URI Too Long",
            Status::UnsupportedMediaType => "Unsupported Media Type",
            Status::Unprocessable => "Unprocessable Content",
            Status::HeadTooLarge => "Request Header Fields Too Large",
            Status::NotImplemented => "Not Implemented",
            Status::Unavailable => "Service Unavailable",
            Status::OtherVersion => "HTTP Version Not Supported",
        }
    }
}

/// What an answer has.
#[derive(Clone, Copy, Debug, PartialEq, Eq)]
pub enum Kind {
    Text,
    Csv,
    Html,
    Script,
    Style,
    Picture,
    Metrics,
}

impl Kind {
    /// Its content type.
    pub fn content_type(self) -> &'static str
        ensures { result.now ≡ type_of self }
    {
        match self {
            Kind::Text => "text/plain; charset=utf-8",
            Kind::Csv => "text/csv; charset=utf-8",
            Kind::Html => "text/html; charset=utf-8",
            Kind::Script => "text/javascript; charset=utf-8",
            Kind::Style => "text/css; charset=utf-8",
            Kind::Picture => "image/svg+xml",
            Kind::Metrics => "application/openmetrics-text; version=1.0.0; charset=utf-8",
        }
    }
}

/// What is allowed, where an answer says so: methods, or codings of a body, or nothing for some time.
#[derive(Clone, Copy, Debug, PartialEq, Eq)]
pub enum Allowed {
    /// Nothing is said.
    Unsaid,
    /// `POST`.
    Post,
    /// `GET` and `HEAD`.
    Get,
    /// `OPTIONS`.
    Options,
    /// `DELETE` and `PUT`.
    Change,
    /// All methods of the office.
    All,
    /// A body that is not coded.
    Uncoded,
    /// Nothing for so many seconds, where there is no answer now.
    After(u32),
}

/// An answer.
#[derive(Clone, Copy)]
pub struct Reply<'a> {
    pub status: Status,
    pub kind: Kind,
    pub allowed: Allowed,
    pub body: &'a [u8],
}

/// How an answer is sent: at which date, whether to `HEAD`, and whether it is the last of its connection.
#[derive(Clone, Copy)]
pub(crate) struct Sending {
    pub(crate) date: HttpDate,
    pub(crate) is_head: bool,
    pub(crate) is_last: bool,
}

/// A page loads nothing from elsewhere, stands in no frame, and is not kept.
const PAGE_POLICY: &str =
    "default-src 'none'; script-src 'self'; style-src 'self'; img-src 'self'; connect-src 'self'; base-uri 'none'; form-action 'none'; frame-ancestors 'none'";

/// A picture has its own two styles, each by its SHA-256, and loads nothing at all.
const PICTURE_POLICY: &str =
    "default-src 'none'; style-src 'sha256-M/jgx+JukTEih3X3OsOlDO/XRUPJp63hsSRE2E/jUv4=' 'sha256-HKscL3gRVMMmN6Wrq5ISygC6aNvyh6qLUrjz3SceGcQ='; base-uri 'none'; form-action 'none'; frame-ancestors 'none'";

/// A second, in nanoseconds.
const SECOND: u128 = 1_000_000_000;

/// The last second of the year 9999, after which HTTP has no dates.
const LAST: u128 = 253_402_300_799;

/// The date at which the clock shows so many nanoseconds since 1970, or the last date that there is.
pub(crate) fn date_at(shown: u128) -> HttpDate
    ensures { unix_secs result ≡ min (shown / 1_000_000_000) 253_402_300_799 }
{
    match HttpDate::from_unix_secs((shown / SECOND).min(LAST) as u64) {
        Ok(date) => date,
        Err(_) => unreachable!(),
    }
}

/// A field of an answer.
fn field<'a>(name: &'a str, value: &'a str) -> Header<'a>
    ensures { header_parts result ≡ (name.now, value.now) }
{
    Header {
        name: name.as_bytes(),
        value: value.as_bytes(),
    }
}

/// The field that says when an answer was made (RFC 9110, section 6.6.1).
fn date_field(date: &[u8; 29]) -> Header<'_>
    ensures { header_parts result ≡ (codes "date", date.now) }
{
    Header {
        name: "date".as_bytes(),
        value: date,
    }
}

/// What kinds of answers may load.
fn policy_of(kind: Kind) -> &'static str
    ensures { result.now ≡ reply_policy kind }
{
    match kind {
        Kind::Picture => PICTURE_POLICY,
        _ => PAGE_POLICY,
    }
}

/// The field that says what is allowed; where it says nothing, one that every answer may have.
fn allowed_field(allowed: Allowed) -> Header<'static>
    ensures { header_parts result ≡ allowed_of allowed }
{
    match allowed {
        Allowed::Unsaid | Allowed::After(_) => field("vary", "origin"),
        Allowed::Post => field("allow", "POST"),
        Allowed::Get => field("allow", "GET, HEAD"),
        Allowed::Options => field("allow", "OPTIONS"),
        Allowed::Change => field("allow", "DELETE, PUT"),
        Allowed::All => field("allow", "GET, HEAD, POST, PUT, DELETE, OPTIONS"),
        Allowed::Uncoded => field("accept-encoding", "identity"),
    }
}

/// In how many seconds to ask again, where there is no answer now.
fn wait_of(allowed: Allowed) -> u32
    ensures { result ≡ wait_of allowed }
{
    match allowed {
        Allowed::After(seconds) => seconds,
        _ => 1,
    }
}

/// The field that says what is allowed; or when to ask again, where there is no answer now: after this wait.
fn advice_field<'a>(status: Status, allowed: Allowed, wait: &'a str) -> Header<'a>
    requires { wait.now ≡ decimal (wait_of allowed) }
    ensures { header_parts result ≡ advice_of status allowed }
{
    match status {
        Status::Unavailable => field("retry-after", wait),
        _ => allowed_field(allowed),
    }
}

/// Writes the head of an answer, and where it is the last one says so.
fn write_head(
    server: &mut Server,
    out: &mut BytesMut,
    date: HttpDate,
    reply: Reply<'_>,
    is_last: bool,
) -> Result<(), WriteError>
    ensures text { OnOk result (out.new.items ≡ out.old.items ++ head_text server.old date reply.entry is_last) }
    ensures next { OnOk result (server.new ≡ after_head server.old date reply.entry is_last) }
{
    let code = reply.status.code();
    let reason = reply.status.reason().as_bytes();
    let size = BodySize::Known(reply.body.len() as u64);
    let octets = date.to_bytes();
    let dated = date_field(&octets);
    let kind = field("content-type", reply.kind.content_type());
    let kept = field("cache-control", "no-store");
    let sniffed = field("x-content-type-options", "nosniff");
    let shared = field("cross-origin-resource-policy", "same-origin");
    let policy = field("content-security-policy", policy_of(reply.kind));
    let mut digits = Buffer::new();
    let wait = digits.format(wait_of(reply.allowed));
    let advice = advice_field(reply.status, reply.allowed, wait);
    if is_last {
        let last = field("connection", "close");
        let fields = [dated, kind, kept, sniffed, shared, policy, advice, last];
        return server.write_response(out, code, reason, &fields, size);
    }
    let fields = [dated, kind, kept, sniffed, shared, policy, advice];
    server.write_response(out, code, reason, &fields, size)
}

/// Writes its body: one to `HEAD` has none.
fn write_body(
    server: &mut Server,
    out: &mut BytesMut,
    body: &[u8],
    is_head: bool,
) -> Result<(), WriteError>
    ensures text { OnOk result (out.new.items ≡ out.old.items ++ body_text is_head server.old body.now) }
    ensures next { OnOk result (server.new ≡ after_body is_head server.old body.now) }
{
    if is_head {
        return Ok(());
    }
    server.write_data(out, body)
}

/// Writes the head and the body of an answer, and where it is the last one says so. One to `HEAD` has no body.
pub(crate) fn write_reply(
    server: &mut Server,
    out: &mut BytesMut,
    reply: Reply<'_>,
    how: Sending,
) -> Result<(), WriteError>
    ensures text { OnOk result (out.new.items ≡ out.old.items ++ reply_text server.old how.date how.is_head reply.entry how.is_last) }
    ensures next { OnOk result (server.new ≡ after_reply server.old how reply.entry) }
{
    write_head(server, out, how.date, reply, how.is_last)?;
    write_body(server, out, reply.body, how.is_head)?;
    server.write_end(out, &[])
}
