//! Why there is no answer, or nothing is changed, in a line.

ghost use Rattle.std.specs.Prelude.{◌≡◌, None, Some, IfOk};
ghost use Rattle.bx_office_world.specs.Lines.{line_by};
ghost use Rattle.bx_office_world.specs.Words.{with_number, book_line, quote_line, answer_line, bad_change_line, no_change_line};

use crate::changes::BadChange;
use crate::fault::NoAnswer;
use bx_book::BookFault;
use bx_planner::NoQuote;
use bx_sales::NoChange;
use bx_text::append_decimal;
use std::alloc::{AllocError, Global};

/// Words, and a number behind them where there is one.
#[derive(Clone, Copy)]
pub(crate) struct Words {
    text: &'static [u8],
    number: Option<u32>,
}

/// These words alone.
pub(crate) fn plain(text: &'static [u8]) -> Words
    ensures { line_by result ≡ with_number text.now None }
{
    Words { text, number: None }
}

/// These words, and a number.
fn counted(text: &'static [u8], number: u32) -> Words
    ensures { line_by result ≡ with_number text.now (Some number) }
{
    Words {
        text,
        number: Some(number),
    }
}

/// The words of a fault of bookings, which names its row.
pub(crate) fn book_words(fault: BookFault) -> Words
    ensures { line_by result ≡ book_line fault }
{
    match fault {
        BookFault::BadHeader => plain(b"B1 BadHeader"),
        BookFault::WrongColumns(row) => counted(b"B2 WrongColumns", u32::from(row)),
        BookFault::NotATime(row) => counted(b"B3 NotATime", u32::from(row)),
        BookFault::NotWholeSeconds(row) => counted(b"B4 NotWholeSeconds", u32::from(row)),
        BookFault::OutsideDay(row) => counted(b"B5 OutsideDay", u32::from(row)),
        BookFault::EndNotAfterStart(row) => counted(b"B6 EndNotAfterStart", u32::from(row)),
        BookFault::BadNumber(row) => counted(b"B7 BadNumber", u32::from(row)),
        BookFault::BadPay(row) => counted(b"B8 BadPay", u32::from(row)),
        BookFault::TooMany => plain(b"B9 TooMany"),
        BookFault::BadMust(row) => counted(b"B10 BadMust", u32::from(row)),
        BookFault::BadDirection(row) => counted(b"B11 BadDirection", u32::from(row)),
        BookFault::Memory => plain(b"Memory"),
    }
}

/// Why there is no quote.
fn quote_words(why: NoQuote) -> Words
    ensures { line_by result ≡ quote_line why }
{
    match why {
        NoQuote::TooMany => plain(b"K2 TooMany"),
        NoQuote::NoChannel(moment) => counted(b"Q1 NoChannel", moment),
        NoQuote::NoSuchRow => plain(b"Q2 NoSuchRow"),
        NoQuote::Accepted(row) => counted(b"Q3 Accepted", u32::from(row)),
        NoQuote::Memory => plain(b"Memory"),
    }
}

/// Why there is no answer.
pub(crate) fn answer_words(why: NoAnswer) -> Words
    ensures { line_by result ≡ answer_line why }
{
    match why {
        NoAnswer::OutOfRange => plain(b"A3 OutOfRange"),
        NoAnswer::TooManyMust(moment) => counted(b"K1 TooManyMust", moment),
        NoAnswer::NoTimes => plain(b"no start or no end"),
        NoAnswer::NoLength => plain(b"no length of 1 to 200000 seconds"),
        NoAnswer::Book(fault) => book_words(fault),
        NoAnswer::Quote(why) => quote_words(why),
        NoAnswer::Memory => plain(b"Memory"),
    }
}

/// Why a text says no booking that another one may become.
pub(crate) fn bad_change_words(fault: BadChange) -> Words
    ensures { line_by result ≡ bad_change_line fault }
{
    match fault {
        BadChange::Book(fault) => book_words(fault),
        BadChange::NotOne => plain(b"not one booking"),
        BadChange::AfterTheDay => plain(b"AfterTheDay"),
        BadChange::BelowRate => plain(b"BelowRate"),
    }
}

/// Why nothing is changed.
pub(crate) fn no_change_words(why: NoChange) -> Words
    ensures { line_by result ≡ no_change_line why }
{
    match why {
        NoChange::NoBooking => plain(b"NoBooking"),
        NoChange::Late => plain(b"Late"),
        NoChange::NoChannel => plain(b"NoChannel"),
        NoChange::Memory => plain(b"Memory"),
    }
}

/// The line of these words.
pub(crate) fn line_by(alloc: Global, words: Words) -> Result<Vec<u8>, AllocError>
    ensures { IfOk result (λ line. line.items ≡ line_by words) }
{
    let mut line = Vec::new(alloc);
    line.extend_from_slice(words.text)?;
    if let Some(number) = words.number {
        line.extend_from_slice(b" ")?;
        append_decimal(&mut line, u64::from(number))?;
    }
    line.extend_from_slice(b"\n")?;
    Ok(line)
}
