//! Which requests are let through, and where they go.

ghost use Rattle.std.specs.Prelude.{false, ◌≡◌, ◌≤◌, ℕ, List, true, length, IfSome, IfNone};
ghost use Rattle.std.specs.Str.{bytes_eq};
ghost use Rattle.bx_office.specs.Targets.{text_of};
ghost use Rattle.bx_office.specs.Gate.{StandsAt, is_first, is_shown_to, takes, has_method, is_known, ends_type, is_csv, is_csv_type, is_typed, has_body, question_of, IsGated};
ghost use Rattle.bx_office.specs.RowPaths.{IsRowPath};
ghost use Rattle.bx_office.specs.declared.gate.Side.TheVariants.{Customers};

use crate::hosts::{is_own_host, is_own_origin};
use crate::keys::is_keyed;
use crate::origins::Origin;
use crate::rows::row_in;
use crate::targets::{local_path, named_host, past, path_in};

/// Where a door is.
#[derive(Clone, Copy, Debug, PartialEq, Eq)]
pub enum Address {
    /// A port of the loopback interface.
    Port(u16),
    /// A socket of the file system.
    Socket,
    /// A port of the loopback interface, to which a proxy hands on what this origin is asked.
    ProxiedPort(u16, Origin),
    /// A socket of the file system, to which a proxy hands on what this origin is asked.
    ProxiedSocket(Origin),
}

/// For whom a door is.
#[derive(Clone, Copy, Debug, PartialEq, Eq)]
pub enum Side {
    /// That of the office, for its operators: all that there is is told there.
    Operators,
    /// That of its counter, for its customers: a page, what a call would have to pay, when one may start, and bookings. Of what
    /// others have booked nothing is told there.
    Customers,
}

/// Where a client has come in.
#[derive(Clone, Copy, Debug, PartialEq, Eq)]
pub struct Place {
    pub address: Address,
    pub side: Side,
}

/// What is asked for.
#[derive(Clone, Copy, Debug, PartialEq, Eq)]
pub enum Route {
    /// `GET /`: a page.
    Home,
    /// `GET /office.js`: its script.
    Script,
    /// `GET /office.css`: its style.
    Style,
    /// `POST /bookings`: bookings, as CSV.
    Bookings,
    /// `GET /quote?start=..&end=..`: what a call would have to pay.
    Quote,
    /// `GET /free?length=..&from=..&to=..`: when a call of so many seconds may start.
    Free,
    /// `GET /plan`: the plan of all that is promised.
    Plan,
    /// `GET /outcomes`: what has become of each booking.
    Outcomes,
    /// `GET /records`: the call records.
    Records,
    /// `GET /chart.svg`: the day as it goes, as a picture.
    Chart,
    /// `GET /metrics`: figures, as OpenMetrics.
    Metrics,
    /// `GET /healthz`: whether the day goes on.
    Health,
    /// `GET /ready`: whether a call could be carried now.
    Ready,
    /// `OPTIONS *`: which methods there are at all (RFC 9110, section 9.3.7).
    Office,
    /// `DELETE /bookings/N`: that the booking of this row of the plan is given up.
    Cancel(u16),
    /// `PUT /bookings/N`: that the booking of this row of the plan becomes this one, as CSV.
    Change(u16),
}

/// Why a request is refused. The first that applies is answered, in this order.
#[derive(Clone, Copy, Debug, PartialEq, Eq)]
pub enum Refusal {
    /// 400: of a field that stands once there are two (RFC 9110, section 5.3).
    Doubled,
    /// 403: the host that it names is another.
    OtherHost,
    /// 403: a page of another origin has sent it.
    OtherOrigin,
    /// 501: its method is none that is known here (RFC 9110, section 9.1).
    UnknownMethod,
    /// 404: there is no such path, or none on this side.
    NotFound,
    /// 405: what stands there is not asked for so. A booking is told by its change.
    WrongMethod(Route),
    /// 415: bookings that are not `text/csv`.
    NotCsv,
    /// 415: bookings that are coded, as by `gzip` (RFC 9110, section 8.4).
    Coded,
    /// 411: bookings whose length is not said (RFC 9112, section 6.3).
    NoLength,
    /// 400: bookings whose `Idempotency-Key` is no key (`read_key`).
    BadKey,
}

/// What the gate looks at of a request: its method and its target; the fields `Host`, `Origin`, `Content-Type` and `Idempotency-Key`, where it
/// has them; whether of a field that stands once there are two; whether its body is coded; and whether it says how long that is.
#[derive(Clone, Copy)]
pub struct Request<'a> {
    pub method: &'a [u8],
    pub target: &'a [u8],
    pub host: Option<&'a [u8]>,
    pub origin: Option<&'a [u8]>,
    pub content: Option<&'a [u8]>,
    pub key: Option<&'a [u8]>,
    pub is_doubled: bool,
    pub is_coded: bool,
    pub has_length: bool,
}

/// Whether a text is this word.
fn is_word(text: &[u8], word: &str) -> bool
    ensures { result ≡ bytes_eq text.now word.now }
{
    text == word.as_bytes()
}

/// The booking that stands at a path.
fn booking_at(path: &[u8]) -> Option<Route>
    ensures some { IfSome result (λ route. StandsAt route path.now × (is_first route ≡ true)) }
    ensures none { IfNone result ((row : ℕ) → ¬ IsRowPath row path.now) }
{
    match row_in(path) {
        Some(row) => Some(Route::Change(row)),
        None => None,
    }
}

/// What stands at a path for customers too.
fn shared_at(path: &[u8]) -> Option<Route>
    ensures some { IfSome result (λ route. StandsAt route path.now × (is_first route ≡ true) × (is_shown_to Customers route ≡ true)) }
    ensures none { IfNone result ((route : Route) → is_shown_to Customers route ≡ true → ¬ StandsAt route path.now) }
{
    if is_word(path, "/") {
        Some(Route::Home)
    } else if is_word(path, "/office.js") {
        Some(Route::Script)
    } else if is_word(path, "/office.css") {
        Some(Route::Style)
    } else if is_word(path, "/bookings") {
        Some(Route::Bookings)
    } else if is_word(path, "/quote") {
        Some(Route::Quote)
    } else if is_word(path, "/free") {
        Some(Route::Free)
    } else if is_word(path, "/healthz") {
        Some(Route::Health)
    } else {
        None
    }
}

/// What stands at a path for operators alone, or the first of it.
fn operators_at(path: &[u8]) -> Option<Route>
    ensures some { IfSome result (λ route. StandsAt route path.now × (is_first route ≡ true)) }
    ensures none { IfNone result ((route : Route) → is_shown_to Customers route ≡ false → ¬ StandsAt route path.now) }
{
    if is_word(path, "/plan") {
        Some(Route::Plan)
    } else if is_word(path, "/outcomes") {
        Some(Route::Outcomes)
    } else if is_word(path, "/records") {
        Some(Route::Records)
    } else if is_word(path, "/chart.svg") {
        Some(Route::Chart)
    } else if is_word(path, "/metrics") {
        Some(Route::Metrics)
    } else if is_word(path, "/ready") {
        Some(Route::Ready)
    } else if is_word(path, "*") {
        Some(Route::Office)
    } else {
        booking_at(path)
    }
}

/// What stands at a path on this side, or the first of it.
fn route_at(side: Side, path: &[u8]) -> Option<Route>
    ensures some { IfSome result (λ route. StandsAt route path.now × (is_first route ≡ true) × (is_shown_to side route ≡ true)) }
    ensures none { IfNone result ((route : Route) → is_shown_to side route ≡ true → ¬ StandsAt route path.now) }
{
    match (shared_at(path), side) {
        (Some(route), _) => Some(route),
        (None, Side::Operators) => operators_at(path),
        (None, Side::Customers) => None,
    }
}

/// Whether a method is one that HTTP has for what stands at a path.
fn is_known(method: &[u8]) -> bool
    ensures { result ≡ is_known method.now }
{
    is_word(method, "GET")
        || is_word(method, "HEAD")
        || is_word(method, "POST")
        || is_word(method, "PUT")
        || is_word(method, "DELETE")
        || is_word(method, "OPTIONS")
        || is_word(method, "TRACE")
        || is_word(method, "PATCH")
}

impl Route {
    /// Whether it is asked for by this method.
    fn takes(self, method: &[u8]) -> bool
        ensures { result ≡ takes self method.now }
    {
        match self {
            Route::Bookings => is_word(method, "POST"),
            Route::Office => is_word(method, "OPTIONS"),
            Route::Cancel(_) => is_word(method, "DELETE"),
            Route::Change(_) => is_word(method, "PUT"),
            _ => is_word(method, "GET") || is_word(method, "HEAD"),
        }
    }

    /// Whether what stands at its path has this method.
    fn has_method(self, method: &[u8]) -> bool
        ensures { result ≡ has_method self method.now }
    {
        match self {
            Route::Cancel(_) | Route::Change(_) => {
                is_word(method, "DELETE") || is_word(method, "PUT")
            }
            _ => self.takes(method),
        }
    }

    /// What is asked for by this method of what stands at its path.
    fn by(self, method: &[u8]) -> Route
        ensures there { (path : List ℕ) → StandsAt self path → StandsAt result path }
        ensures taken { has_method self method.now ≡ true → is_first self ≡ true → takes result method.now ≡ true }
        ensures side { (side : Side) → is_shown_to side self ≡ true → is_shown_to side result ≡ true }
    {
        match self {
            Route::Change(row) if is_word(method, "DELETE") => Route::Cancel(row),
            _ => self,
        }
    }

    /// Whether its requests have a body that is read.
    fn has_body(self) -> bool
        ensures { result ≡ has_body self }
    {
        match self {
            Route::Bookings | Route::Change(_) => true,
            _ => false,
        }
    }

    /// Whether it takes a request with this content type.
    fn is_typed(self, content: Option<&[u8]>) -> bool
        ensures { result ≡ is_typed self (text_of content.entry) }
    {
        match self {
            Route::Bookings | Route::Change(_) => is_csv(content),
            _ => true,
        }
    }
}

/// Whether the type ends there: after white space come parameters, or nothing.
fn ends_type(rest: &[u8]) -> bool
    ensures { result ≡ ends_type rest.now }
{
    for octet in rest {
        if *octet == b';' {
            return true;
        }
        if *octet != b' ' && *octet != b'\t' {
            return false;
        }
    }
    true
}

/// Whether what stands after the type ends it, where the type is the one that is meant.
fn is_csv_type(rest: Option<&[u8]>) -> bool
    ensures { result ≡ is_csv_type (text_of rest.entry) }
{
    match rest {
        Some(rest) => ends_type(rest),
        None => false,
    }
}

/// Whether the content is CSV, with whatever parameters, and whatever the case of the type (RFC 9110, section 8.3.1).
fn is_csv(content: Option<&[u8]>) -> bool
    ensures { result ≡ is_csv (text_of content.entry) }
{
    match content {
        Some(content) => is_csv_type(past(content, b"text/csv")),
        None => false,
    }
}

/// Where a request goes. What is let through names this office, was sent by no page of another origin, and asks for what is there on its side as
/// that is asked for; bookings come as `text/csv`, which a browser sends to another origin only after a question that is not answered here, and what
/// they have as a key is one.
pub fn let_through(place: Place, request: Request<'_>) -> Result<Route, Refusal>
    ensures { IsGated place (question_of request.entry) result }
{
    let path = path_in(request.target);
    let absolute = past(path, b"http://");
    let host = named_host(request.host, absolute);
    if request.is_doubled {
        return Err(Refusal::Doubled);
    }
    if !is_own_host(place.address, host) {
        return Err(Refusal::OtherHost);
    }
    if !is_own_origin(place.address, host, request.origin) {
        return Err(Refusal::OtherOrigin);
    }
    if !is_known(request.method) {
        return Err(Refusal::UnknownMethod);
    }
    let Some(first) = route_at(place.side, local_path(path, absolute)) else {
        return Err(Refusal::NotFound);
    };
    if !first.has_method(request.method) {
        return Err(Refusal::WrongMethod(first));
    }
    let route = first.by(request.method);
    if !route.is_typed(request.content) {
        return Err(Refusal::NotCsv);
    }
    if route.has_body() && request.is_coded {
        return Err(Refusal::Coded);
    }
    if route.has_body() && !request.has_length {
        return Err(Refusal::NoLength);
    }
    if route.has_body() && !is_keyed(request.key) {
        return Err(Refusal::BadKey);
    }
    Ok(route)
}
