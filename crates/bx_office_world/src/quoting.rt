//! What a call would have to pay beside all that is promised.

ghost use Rattle.std.specs.Prelude.{◌≡◌, Option, Some, None, MatchOption, IfOk, IfErr};
ghost use Rattle.form_urlencoded.specs.Form as form;
ghost use Rattle.bx_book.specs.Rows.{span_of};
ghost use Rattle.bx_office_world.specs.Quotes.{IsSecondOfQuery, IsNoSecond, IsCallOfQuery, IsNoCallOfQuery, IsQuoteText, IsNoQuoteText, value_in};

use crate::fault::NoAnswer;
use crate::promised::promised_plan;
use crate::quote_lines::quote_lines;
use crate::tariff::least_pay;
use bx_base::{Booking, ChannelSet};
use bx_book::{BookFault, moment};
use bx_calendar::Day;
use bx_channels::Number;
use bx_day::Exchange;
use bx_planner::quote;
use form_urlencoded::{decode, raw_pairs};
use std::alloc::Global;

/// The value of the first field of a query that has this name, as it stands there.
pub(crate) fn value_of<'a>(query: &'a [u8], name: &[u8]) -> Option<&'a [u8]>
    ensures { MatchOption result (value_in query.now name.now ≡ None) (λ value. value_in query.now name.now ≡ Some value.now) }
{
    for (field, value) in raw_pairs(query) {
        if field == name {
            return Some(value);
        }
    }
    None
}

/// The second of the day that a field of a query names, as a field of row 1 of a text of bookings.
pub(crate) fn second_of(
    alloc: Global,
    query: &[u8],
    name: &[u8],
    day: &Day,
) -> Result<u32, NoAnswer>
    ensures second { IfOk result (IsSecondOfQuery query.now name.now (span_of day.now)) }
    ensures none { IfErr result (IsNoSecond query.now name.now (span_of day.now)) }
{
    let Some(value) = value_of(query, name) else {
        return Err(NoAnswer::NoTimes);
    };
    let Ok(text) = decode(alloc, value) else {
        return Err(NoAnswer::Memory);
    };
    match moment(text.as_bytes(), day, 1) {
        Ok(second) => Ok(second),
        Err(fault) => Err(NoAnswer::Book(fault)),
    }
}

/// The call that a query asks for, by its fields `start` and `end`: times of the day, as in row 1 of a text of bookings. Its number and its pay do not
/// count. `NoTimes` where it has one of them not, `Book` where they name no call, `Memory` where memory runs out.
pub fn call_of(alloc: Global, query: &[u8], day: &Day) -> Result<Booking, NoAnswer>
    ensures call { IfOk result (IsCallOfQuery query.now (span_of day.now)) }
    ensures none { IfErr result (IsNoCallOfQuery query.now (span_of day.now)) }
{
    let start = second_of(alloc, query, b"start", day)?;
    let end = second_of(alloc, query, b"end", day)?;
    if end <= start {
        return Err(NoAnswer::Book(BookFault::EndNotAfterStart(1)));
    }
    let Some(number) = Number::new(b"0") else {
        return Err(NoAnswer::Book(BookFault::BadNumber(1)));
    };
    match Booking::new(start, end, 1, number) {
        Some(booking) => Ok(booking),
        None => Err(NoAnswer::Book(BookFault::OutsideDay(1))),
    }
}

/// What a call would have to pay beside all that is promised, on the channels that are left, in the lines of `bx quote`: at this rate of
/// each started minute it is taken above whatever is below its least pay too, where 0 is no rate. The faults are those of `promised_plan`,
/// and `Quote` where there is none.
pub fn quote_text(
    alloc: Global,
    exchange: &Exchange,
    channels: ChannelSet,
    rate: u32,
    call: &Booking,
) -> Result<Vec<u8>, NoAnswer>
    ensures text { IfOk result (λ text. IsQuoteText exchange.now channels rate call.now text.items) }
    ensures none { IfErr result (IsNoQuoteText exchange.now channels call.now) }
{
    let plan = promised_plan(alloc, exchange, channels)?;
    let mut quote = match quote(alloc, &plan, call) {
        Ok(quote) => quote,
        Err(why) => return Err(NoAnswer::Quote(why)),
    };
    let unpaid = least_pay(rate, call).saturating_sub(1);
    quote.threshold = quote.threshold.max(unpaid);
    match quote_lines(alloc, &quote) {
        Ok(text) => Ok(text),
        Err(_) => Err(NoAnswer::Memory),
    }
}
