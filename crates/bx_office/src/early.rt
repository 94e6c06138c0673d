//! What is answered at once: the page, and before the day begins all else.

ghost use Rattle.std.specs.Prelude.{◌≡◌};
ghost use Rattle.bx_office.specs.Early.{early_health, IsEarlyReply, IsPutOff, IsAtOnce};

use crate::gate::{Route, Side};
use crate::pages::page;
use crate::reply::{Allowed, Kind, Reply, Status};

/// What there is to be said before the day begins.
#[derive(Clone, Copy)]
pub struct Eve<'a> {
    /// In how many seconds the day begins.
    pub wait: u32,
    /// Whether the other end of the line was heard of late.
    pub is_heard: bool,
    /// The figures of the day, where memory was had for them.
    pub figures: Option<&'a [u8]>,
}

/// How the day stands.
fn early_health(is_heard: bool) -> &'static str
    ensures { result.now ≡ early_health is_heard }
{
    if is_heard {
        "not begun\nlink up\nlate seconds 0\nchannels in maintenance 0\n"
    } else {
        "not begun\nlink none\nlate seconds 0\nchannels in maintenance 0\n"
    }
}

/// The answer to what is put off until the day begins (RFC 9110, section 15.6.4): it says in how many seconds that is.
fn put_off(wait: u32) -> Reply<'static>
    ensures { IsPutOff wait result }
{
    Reply {
        status: Status::Unavailable,
        kind: Kind::Text,
        allowed: Allowed::After(wait),
        body: b"the day has not begun\n",
    }
}

/// What a request is answered before the day begins that asks for no page.
fn before_the_day<'a>(route: Route, eve: Eve<'a>) -> Reply<'a>
    ensures { IsEarlyReply route eve.entry result }
{
    let (kind, body) = match (route, eve.figures) {
        (Route::Health, _) => (Kind::Text, early_health(eve.is_heard).as_bytes()),
        (Route::Metrics, Some(figures)) => (Kind::Metrics, figures),
        _ => return put_off(eve.wait),
    };
    Reply {
        status: Status::Fine,
        kind,
        allowed: Allowed::Unsaid,
        body,
    }
}

/// What is answered at once on a side: its page and the parts of that; and before the day begins all else, so that nothing waits for hours and is sold then. There
/// `/healthz` and `/metrics` are told, and all others when to ask again (RFC 9110, section 10.2.3).
pub fn at_once<'a>(side: Side, route: Route, eve: Option<Eve<'a>>) -> Option<Reply<'a>>
    ensures { IsAtOnce route eve.entry result }
{
    match (page(side, route), eve) {
        (Some(reply), _) => Some(reply),
        (None, Some(eve)) => Some(before_the_day(route, eve)),
        (None, None) => None,
    }
}
