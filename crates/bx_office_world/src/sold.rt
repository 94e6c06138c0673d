//! What is offered of a batch, and what a customer is told of it.

ghost use Rattle.std.specs.Prelude.{◌≡◌, ◌≤◌, ◌++◌, drop, length, IfOk, OnOk};
ghost use Rattle.bx_base.specs.declared.bookings.TheConstants.{MAX_BOOKINGS};
ghost use Rattle.bx_office_world.specs.Offered.{offered_of};
ghost use Rattle.bx_office_world.specs.Sold.{is_within, is_offered, reason_of, is_brief, is_sold_answer, next_answer, answer_line, unoffered_reason, unoffered_line, sold_text};

use crate::tariff::{Terms, is_paid};
use bx_base::{Booking, Bookings};
use bx_market::Answer;
use bx_sales::NoSale;
use bx_text::append_decimal;
use std::alloc::{AllocError, Global};

/// Whether a booking starts by this second.
pub(crate) fn is_within(last: u32, booking: Booking) -> bool
    ensures { result ≡ is_within last booking }
{
    booking.start() <= last
}

/// Whether a booking is offered: no second begins after the last one but for a call that is up.
fn is_offered(terms: Terms, booking: Booking) -> bool
    ensures { result ≡ is_offered terms booking }
{
    is_within(terms.last, booking) && is_paid(terms.rate, &booking)
}

/// Those of some bookings that are offered.
pub(crate) fn offered_of(
    alloc: Global,
    terms: Terms,
    wanted: &Bookings,
) -> Result<Bookings, AllocError>
    ensures { IfOk result (λ offered. offered ≡ offered_of terms wanted.now) }
{
    let mut offered = Bookings::new(alloc);
    for index in 0..wanted.len() {
        let booking = wanted.nth(index);
        if is_offered(terms, booking) {
            match offered.push(booking) {
                Ok(()) => {}
                Err(_) => return Err(AllocError),
            }
        }
    }
    Ok(offered)
}

/// Why a booking is refused, in a word.
fn reason_of(why: NoSale) -> &'static [u8]
    ensures { result.now ≡ reason_of why }
{
    match why {
        NoSale::Late => b"Late",
        NoSale::Full => b"Full",
        NoSale::NoChannel => b"NoChannel",
        NoSale::TookOver => b"TookOver",
        NoSale::Memory => b"Memory",
    }
}

/// Whether a booking lasts less than three seconds: one that may be too short to be carried on a live line.
fn is_brief(booking: Booking) -> bool
    ensures { result ≡ is_brief booking }
{
    booking.end() < booking.start() + 3
}

/// Appends the line of a booking that was offered: its row in the batch, the answer, its row in the plan where it has one, and why it is
/// refused, or that it may be too short.
fn push_line(
    text: &mut Vec<u8>,
    row: u64,
    booking: Booking,
    answer: Answer,
    place: u64,
) -> Result<(), AllocError>
    ensures { OnOk result (text.new.items ≡ text.old.items ++ answer_line row booking answer place) }
{
    append_decimal(text, row)?;
    match answer {
        Answer::Accepted => {
            text.extend_from_slice(b",accepted,")?;
            append_decimal(text, place)?;
            text.extend_from_slice(b",")?;
            if is_brief(booking) {
                text.extend_from_slice(b"TooShort")?;
            }
            text.extend_from_slice(b"\n")
        }
        Answer::Refused(why) => {
            text.extend_from_slice(b",refused,,")?;
            text.extend_from_slice(reason_of(why))?;
            text.extend_from_slice(b"\n")
        }
    }
}

/// Why a booking was not offered, in a word.
fn unoffered_reason(terms: Terms, booking: Booking) -> &'static [u8]
    ensures { result.now ≡ unoffered_reason terms booking }
{
    if is_within(terms.last, booking) {
        b"BelowRate"
    } else {
        b"AfterTheDay"
    }
}

/// Appends the line of a booking that was not offered.
fn push_unoffered(
    text: &mut Vec<u8>,
    row: u64,
    terms: Terms,
    booking: Booking,
) -> Result<(), AllocError>
    ensures { OnOk result (text.new.items ≡ text.old.items ++ unoffered_line row terms booking) }
{
    append_decimal(text, row)?;
    text.extend_from_slice(b",refused,,")?;
    text.extend_from_slice(unoffered_reason(terms, booking))?;
    text.extend_from_slice(b"\n")
}

/// Whether a booking has a row in the plan now.
fn is_accepted(answer: Answer) -> bool
    ensures { result ≡ is_sold_answer answer }
{
    match answer {
        Answer::Accepted => true,
        Answer::Refused(_) => false,
    }
}

/// The answer at this place; beyond the last one nothing is sold.
fn answer_at(answers: &[Answer], place: usize) -> Answer
    ensures { result ≡ next_answer (drop place answers.now) }
{
    if place < answers.len() {
        answers[place]
    } else {
        Answer::Refused(NoSale::Memory)
    }
}

/// What a customer is told of a batch, as CSV: a header, and a line for each of its bookings. Of those that are offered these are the
/// answers, in their order; the others are refused: as `AfterTheDay` what starts after the last second, and else as `BelowRate`. After so many
/// rows of the plan stand the accepted ones, in their order, those that last less than three seconds with `TooShort`. `AllocError` where
/// memory runs out.
pub fn sold_text(
    alloc: Global,
    terms: Terms,
    rows: u16,
    wanted: &Bookings,
    answers: &[Answer],
) -> Result<Vec<u8>, AllocError>
    ensures { IfOk result (λ text. text.items ≡ sold_text terms rows wanted.now answers.now) }
{
    let mut text = Vec::new(alloc);
    text.extend_from_slice(b"row,answer,plan row,reason\n")?;
    let mut place = u64::from(rows) + 1;
    let mut told = 0usize;
    for index in 0..wanted.len() {
        let booking = wanted.nth(index);
        let row = u64::from(index) + 1;
        if is_offered(terms, booking) {
            let answer = answer_at(answers, told);
            push_line(&mut text, row, booking, answer, place)?;
            told += 1;
            if is_accepted(answer) {
                place += 1;
            }
        } else {
            push_unoffered(&mut text, row, terms, booking)?;
        }
    }
    Ok(text)
}
