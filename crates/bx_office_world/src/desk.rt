//! What is answered at the office.

ghost use Rattle.std.specs.Prelude.{◌≡◌, Ok, Err, IfOk, IfErr};
ghost use Rattle.bx_day_chart.specs.Charts.{IsDayChart};
ghost use Rattle.bx_day_chart.specs.Sights.{sight_of};
ghost use Rattle.bx_office_world.specs.Offered.{terms_of};
ghost use Rattle.bx_office_world.specs.Desk.{IsQuoteAnswered, IsWritten, IsQuoteUnanswered, IsUnanswered};
ghost use Rattle.bx_office_world.specs.FreeTimes.{IsFreeAnswered, IsFreeUnanswered};

use crate::drawing::chart_text;
use crate::fault::NoAnswer;
use crate::free_times::free_text;
use crate::health::{health_text, ready_now, ready_text};
use crate::last_plans::plan_text;
use crate::metrics::{Figures, metrics_text};
use crate::quoting::{call_of, quote_text};
use crate::tariff::Terms;
use crate::texts::{outcomes_text, records_text};
use crate::wishing::wish_of;
use bx_base::ChannelSet;
use bx_calendar::{Clock, Day};
use bx_day::{Exchange, GivenUp};
use bx_day_chart::DaySight;
use bx_office::{Kind, Route};
use std::alloc::Global;

/// What the office was opened with: the channels in service, the day, the last second to which it is run, after which none begins but for
/// a call that is up, the least pay of each started minute of what is sold, where 0 is none, and the clock of its zone for records.
#[derive(Clone, Copy)]
pub struct Opened {
    pub channels: ChannelSet,
    pub day: Day,
    pub last: u32,
    pub rate: u32,
    pub clock: Option<Clock>,
}

impl Opened {
    /// What is offered.
    pub(crate) fn terms(&self) -> Terms
        ensures { result ≡ terms_of self.now }
    {
        Terms {
            last: self.last,
            rate: self.rate,
        }
    }
}

/// A text, and what it is.
#[derive(Drop)]
pub struct Written {
    pub kind: Kind,
    pub text: Vec<u8>,
}

/// A text of this kind, where there is one.
fn of_kind(kind: Kind, text: Result<Vec<u8>, NoAnswer>) -> Result<Written, NoAnswer>
    ensures written { IfOk result (λ w. (w.kind ≡ kind) × (text ≡ Ok w.text)) }
    ensures none { IfErr result (λ why. text ≡ Err why) }
{
    match text {
        Ok(text) => Ok(Written { kind, text }),
        Err(why) => Err(why),
    }
}

/// What a call would have to pay.
fn quoted(
    alloc: Global,
    opened: &Opened,
    exchange: &Exchange,
    query: &[u8],
) -> Result<Vec<u8>, NoAnswer>
    ensures text { IfOk result (λ text. IsQuoteAnswered opened.now exchange.now query.now text.items) }
    ensures none { IfErr result (IsQuoteUnanswered opened.now exchange.now query.now) }
{
    let call = call_of(alloc, query, &opened.day)?;
    match quote_text(alloc, exchange, opened.channels, opened.rate, &call) {
        Ok(text) => Ok(text),
        Err(why) => Err(why),
    }
}

/// When the call may start that a query wishes for.
fn freed(
    alloc: Global,
    opened: &Opened,
    exchange: &Exchange,
    query: &[u8],
) -> Result<Vec<u8>, NoAnswer>
    ensures text { IfOk result (λ text. IsFreeAnswered opened.now exchange.now query.now text.items) }
    ensures none { IfErr result (IsFreeUnanswered opened.now query.now) }
{
    let wish = wish_of(alloc, query, &opened.day, opened.last)?;
    match free_text(alloc, opened, exchange, wish) {
        Ok(text) => Ok(text),
        Err(why) => Err(why),
    }
}

/// The day so far as a picture.
fn drawn(
    alloc: Global,
    opened: &Opened,
    exchange: &Exchange,
    sight: &DaySight,
) -> Result<Vec<u8>, NoAnswer>
    ensures text { IfOk result (λ text. IsDayChart exchange.now opened.now.channels (sight_of sight.now) opened.now.clock text.items) }
    ensures none { IfErr result (λ why. why ≡ NoAnswer.Memory) }
{
    let clock = opened.clock.as_ref();
    match chart_text(alloc, exchange, opened.channels, sight, clock) {
        Ok(text) => Ok(text),
        Err(why) => Err(why),
    }
}

/// What stands at a path now, on a day whose bookings were given up so, or why nothing does: what its command is refused for
/// (`IsUnanswered`), or memory runs out. Of a path that is not asked for so nothing.
pub fn answer_of(
    alloc: Global,
    opened: &Opened,
    exchange: &Exchange,
    given_up: &[Option<GivenUp>],
    figures: &Figures,
    sight: &DaySight,
    route: Route,
    query: &[u8],
) -> Result<Written, NoAnswer>
    ensures written { IfOk result
        (λ w. IsWritten opened.now exchange.now given_up.now figures.now (sight_of sight.now) query.now route w.kind w.text.items) }
    ensures none { IfErr result (IsUnanswered opened.now exchange.now query.now route) }
{
    match route {
        Route::Plan => of_kind(Kind::Text, plan_text(alloc, exchange, opened.channels)),
        Route::Outcomes => of_kind(Kind::Text, outcomes_text(alloc, exchange, given_up)),
        Route::Records => of_kind(Kind::Csv, records_text(alloc, exchange, opened.clock)),
        Route::Quote => of_kind(Kind::Text, quoted(alloc, opened, exchange, query)),
        Route::Free => of_kind(Kind::Csv, freed(alloc, opened, exchange, query)),
        Route::Chart => of_kind(Kind::Picture, drawn(alloc, opened, exchange, sight)),
        Route::Metrics => of_kind(Kind::Metrics, metrics_text(alloc, exchange, figures)),
        Route::Health => of_kind(Kind::Text, health_text(alloc, exchange, figures)),
        Route::Ready => of_kind(
            Kind::Text,
            ready_text(alloc, ready_now(opened, exchange, figures)),
        ),
        // The door answers with the page and its parts, and bookings are sold, given up and changed.
        Route::Home
        | Route::Script
        | Route::Style
        | Route::Office
        | Route::Bookings
        | Route::Cancel(_)
        | Route::Change(_) => of_kind(Kind::Text, Ok(Vec::new(alloc))),
    }
}
