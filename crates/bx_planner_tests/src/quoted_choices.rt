//! Quotes and explanations against a search through all choices of six bookings.

use crate::proved_plans::plan_of;
use crate::rows::{Row, booking_of};
use crate::sets::{
    best_sets, first_above, first_full, is_in, is_lawful, most_beside, pay_beside, power_of,
    six_rows,
};
use bx_base::Price;
use bx_cases::SHARE;
use bx_channels::Channel;
use bx_planner::{NoQuote, Quote, explain, quote};
use std::alloc::Global;

/// Six rows on so many channels, of which the one at this index is asked for and free. The plan is for the first rows:
/// for all six, or for all but the last.
#[derive(Drop)]
struct Asked<'a> {
    rows: &'a [Row],
    count: usize,
    index: usize,
}

/// What the seconds of the row cost.
fn cost_at(row: &Row, prices: &[Price]) -> u64 {
    let mut cost = 0u64;
    for price in prices {
        if row.0 <= price.moment && price.moment < row.1 {
            cost = cost.saturating_add(price.amount);
        }
    }
    cost
}

/// The set of the rows that have a channel.
fn set_of(assigned: &[Option<Channel>]) -> u32 {
    let mut set = 0;
    for (index, channel) in assigned.iter().enumerate() {
        if channel.is_some() {
            set |= power_of(index);
        }
    }
    set
}

/// The set of these rows, named 1, 2, ..
fn set_of_named(named: &[u16]) -> u32 {
    let mut set = 0;
    for row in named {
        set |= power_of((*row as usize).saturating_sub(1));
    }
    set
}

/// Whether accepted rows are traded for refused ones and the row, so that what is left is lawful, and pays what is due.
fn is_traded(asked: &Asked<'_>, accepted: u32, quote: &Quote) -> bool {
    let instead = set_of_named(&quote.instead);
    let besides = set_of_named(&quote.besides) | power_of(asked.index);
    let paid = quote
        .threshold
        .saturating_add(pay_beside(asked.rows, besides, asked.index));
    instead & !accepted == 0
        && besides & accepted == 0
        && !is_in(set_of_named(&quote.besides), asked.index)
        && is_lawful(asked.rows, (accepted & !instead) | besides, asked.count)
        && paid == pay_beside(asked.rows, instead, 6)
}

/// Whether best sets hold the row as they should, where it pays so much.
fn is_decided(asked: &Asked<'_>, threshold: u64, pay: u64) -> bool {
    let mut rows = [(0, 1, 1, false); 6];
    for (index, row) in rows.iter_mut().enumerate() {
        if let Some(given) = asked.rows.get(index) {
            *row = *given;
        }
        if index == asked.index {
            row.2 = pay;
        }
    }
    best_sets(&rows, asked.count, asked.index) == (pay >= threshold, pay <= threshold)
}

/// Whether they do so at pays below, at and above the threshold.
fn decides(asked: &Asked<'_>, threshold: u64) -> bool {
    let above = threshold.saturating_add(1);
    let pays = [
        1,
        threshold.saturating_sub(1),
        threshold,
        above,
        1_000_000_000,
    ];
    pays.iter().all(|pay| is_decided(asked, threshold, *pay))
}

/// Whether the quote is the one that the search finds.
fn is_right(asked: &Asked<'_>, accepted: u32, prices: &[Price], quote: &Quote) -> bool {
    let without = most_beside(asked.rows, asked.count, asked.index, false);
    let beside = most_beside(asked.rows, asked.count, asked.index, true);
    let (Some(without), Some(beside), Some(row)) = (without, beside, asked.rows.get(asked.index))
    else {
        return false;
    };
    quote.threshold.saturating_add(beside) == without
        && quote.cost == cost_at(row, prices)
        && quote.cost <= quote.threshold
        && is_traded(asked, accepted, quote)
        && decides(asked, quote.threshold)
}

/// What came of a question, where that is right.
#[derive(Clone, Copy, PartialEq)]
enum Came {
    /// A quote.
    Quoted,
    /// No quote, since the row finds no channel.
    Refused,
    /// No quote, since there is no plan, or the row is accepted.
    Unasked,
}

/// This, where it is right.
fn where_right(is_right: bool, came: Came) -> Option<Came> {
    if is_right { Some(came) } else { None }
}

/// Whether no lawful set has the row, from just this moment on.
fn is_refused(asked: &Asked<'_>, moment: u32) -> bool {
    most_beside(asked.rows, asked.count, asked.index, true).is_none()
        && first_full(asked.rows, asked.count, asked.index) == Some(moment)
}

/// What came of the question for a row that is not accepted; none where the answer is not the one that the search finds.
fn answered(
    asked: &Asked<'_>,
    accepted: u32,
    prices: &[Price],
    answer: &Result<Quote, NoQuote>,
) -> Option<Came> {
    match answer {
        Ok(quote) => where_right(is_right(asked, accepted, prices, quote), Came::Quoted),
        Err(NoQuote::NoChannel(moment)) => where_right(is_refused(asked, *moment), Came::Refused),
        Err(_) => None,
    }
}

/// What came of the question for the row at this index of a plan; none where that is not right. There is no plan just where too
/// many rows have to be held.
fn explained(alloc: Global, rows: &[Row], count: usize, index: u16) -> Option<Came> {
    let Some(plan) = plan_of(alloc, rows, count) else {
        return where_right(first_above(rows, count).is_some(), Came::Unasked);
    };
    let accepted = set_of(&plan.assigned);
    let row = index.saturating_add(1);
    let answer = explain(alloc, &plan, row);
    if is_in(accepted, index as usize) {
        let is_named = matches!(answer, Err(NoQuote::Accepted(named)) if named == row);
        return where_right(is_named, Came::Unasked);
    }
    let asked = Asked {
        rows,
        count,
        index: index as usize,
    };
    answered(&asked, accepted, &plan.prices, &answer)
}

/// The same for the last row beside a plan of the five before it.
fn quoted(alloc: Global, rows: &[Row; 6], count: usize) -> Option<Came> {
    let Some(plan) = plan_of(alloc, &rows[..5], count) else {
        return where_right(first_above(&rows[..5], count).is_some(), Came::Unasked);
    };
    let booking = booking_of(&rows[5])?;
    let mut free = *rows;
    free[5].3 = false;
    let asked = Asked {
        rows: &free,
        count,
        index: 5,
    };
    let answer = quote(alloc, &plan, &booking);
    answered(&asked, set_of(&plan.assigned), &plan.prices, &answer)
}

/// One where this came of a question, and else 0.
fn one_if(came: Option<Came>, wanted: Came) -> u32 {
    u32::from(came == Some(wanted))
}

#[test]
fn no_choice_contradicts_a_quote(rt: HostRuntime) {
    let mut quotes = 0u32;
    let mut refusals = 0u32;
    for seed in 0..60 / SHARE {
        let rows = six_rows(seed.wrapping_mul(7919), 5);
        for count in 0..3usize {
            let came = quoted(rt.alloc(), &rows, count);
            assert!(rt; came.is_some(), "{seed} {count}");
            quotes = quotes.saturating_add(one_if(came, Came::Quoted));
            refusals = refusals.saturating_add(one_if(came, Came::Refused));
        }
    }
    assert!(rt; quotes > 0, "no quote");
    assert!(rt; refusals > 0, "no refusal");
}

#[test]
fn no_choice_contradicts_an_explanation(rt: HostRuntime) {
    let mut quotes = 0u32;
    let mut refusals = 0u32;
    for seed in 0..60 / SHARE {
        let rows = six_rows(seed.wrapping_mul(7919), 5);
        for count in 0..3usize {
            for index in 0..6u16 {
                let came = explained(rt.alloc(), &rows, count, index);
                assert!(rt; came.is_some(), "{seed} {count} {index}");
                quotes = quotes.saturating_add(one_if(came, Came::Quoted));
                refusals = refusals.saturating_add(one_if(came, Came::Refused));
            }
        }
    }
    assert!(rt; quotes > 0, "no quote");
    assert!(rt; refusals > 0, "no refusal");
}
