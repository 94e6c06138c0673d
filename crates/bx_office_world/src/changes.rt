//! A booking of the day that a customer gives up or changes: what is asked for, and what is told of it.

ghost use Rattle.std.specs.Prelude.{◌≡◌, ◌++◌, Some, IfOk, IfErr};
ghost use Rattle.bx_office_door.specs.Doors.{guests_of};
ghost use Rattle.bx_office_world.specs.Changes.{IsChangeIn, IsBadChange, bad_status, IsChangeRead, change_status, IsToldChanged};
ghost use Rattle.bx_office_world.specs.TurnsTaken.{IsCancelTaken, IsChangeTaken};
ghost use Rattle.bx_office_world.specs.ChangedTexts.{change_word, changed_text};

use crate::desk::Opened;
use crate::serving::{Desk, book_status, refuse, reply_of};
use crate::sold::is_within;
use crate::tariff::is_paid;
use crate::words::{bad_change_words, no_change_words};
use bx_base::Booking;
use bx_book::{BookFault, read_bookings};
use bx_office::{Kind, Status};
use bx_office_door::{Customer, Door};
use bx_sales::NoChange;
use bx_text::append_decimal;
use std::alloc::{AllocError, Global};

/// A change that is being made: whose it is, of which row of the plan, and whether its booking is given up.
#[derive(Drop)]
pub struct Changing {
    pub(crate) customer: Customer,
    pub(crate) row: u16,
    pub(crate) is_cancelled: bool,
}

/// Why a text says no booking that another one may become.
#[derive(Clone, Copy, Debug, PartialEq, Eq)]
pub(crate) enum BadChange {
    /// It has a fault.
    Book(BookFault),
    /// It has no booking, or more than one.
    NotOne,
    /// The booking starts after the last second to which the day is run.
    AfterTheDay,
    /// The booking pays less than its started minutes have to.
    BelowRate,
}

/// The booking of a text that has just one, at an office that was opened with this.
fn change_in(alloc: Global, opened: &Opened, text: &[u8]) -> Result<Booking, BadChange>
    ensures change { IfOk result (IsChangeIn opened.now text.now) }
    ensures fault { IfErr result (IsBadChange opened.now text.now) }
{
    let wanted = match read_bookings(alloc, text, &opened.day) {
        Ok(wanted) => wanted,
        Err(fault) => return Err(BadChange::Book(fault)),
    };
    if wanted.len() != 1 {
        return Err(BadChange::NotOne);
    }
    let booking = wanted.nth(0);
    if !is_within(opened.last, booking) {
        return Err(BadChange::AfterTheDay);
    }
    if !is_paid(opened.rate, &booking) {
        return Err(BadChange::BelowRate);
    }
    Ok(booking)
}

/// How the answer to a change begins of which the text says no booking.
fn bad_status(fault: BadChange) -> Status
    ensures { result ≡ bad_status fault }
{
    match fault {
        BadChange::Book(fault) => book_status(fault),
        BadChange::NotOne => Status::BadRequest,
        BadChange::AfterTheDay | BadChange::BelowRate => Status::Conflict,
    }
}

/// How the answer to a change begins that is not made.
fn change_status(why: NoChange) -> Status
    ensures { result ≡ change_status why }
{
    match why {
        NoChange::NoBooking => Status::NotFound,
        NoChange::Memory => Status::Unavailable,
        NoChange::Late | NoChange::NoChannel => Status::Conflict,
    }
}

/// What a booking is to become by the request of this number. Where its body says none, that is answered, and nothing is changed.
fn change_of(alloc: Global, desk: &Desk<'_>, door: &mut Door, number: u64) -> Option<Booking>
    ensures { IsChangeRead desk.now number (guests_of door.old) (guests_of door.new) result }
{
    let client = door.client(number)?;
    match change_in(alloc, desk.opened, client.body()) {
        Ok(booking) => Some(booking),
        Err(fault) => {
            refuse(
                alloc,
                door,
                number,
                bad_status(fault),
                bad_change_words(fault),
            );
            None
        }
    }
}

/// What the booking of this row is to become, where the body of the request says it, and its customer is still there.
pub(crate) fn next_change(
    alloc: Global,
    desk: &Desk<'_>,
    door: &mut Door,
    number: u64,
    row: u16,
) -> Option<(Changing, Booking)>
    ensures { IsChangeTaken desk.now row number (guests_of door.old) (guests_of door.new) result }
{
    let booking = change_of(alloc, desk, door, number)?;
    let customer = door.customer(number)?;
    let is_cancelled = false;
    let changing = Changing {
        customer,
        row,
        is_cancelled,
    };
    Some((changing, booking))
}

/// That the booking of this row is given up, where the customer of the request is still there.
pub(crate) fn next_cancel(door: &mut Door, number: u64, row: u16) -> Option<Changing>
    ensures { IsCancelTaken row number (guests_of door.old) (guests_of door.new) result }
{
    let customer = door.customer(number)?;
    let is_cancelled = true;
    Some(Changing {
        customer,
        row,
        is_cancelled,
    })
}

/// What was done, in a word, behind the row of the request.
fn change_word(is_cancelled: bool) -> &'static [u8]
    ensures { result.now ≡ change_word is_cancelled }
{
    if is_cancelled {
        b"1,cancelled,"
    } else {
        b"1,changed,"
    }
}

/// What is told of the booking of this row of the plan, which was given up or changed.
pub fn changed_text(alloc: Global, is_cancelled: bool, row: u16) -> Result<Vec<u8>, AllocError>
    ensures { IfOk result (λ text. text.items ≡ changed_text is_cancelled row) }
{
    let mut text = Vec::new(alloc);
    text.extend_from_slice(b"row,answer,plan row,reason\n")?;
    text.extend_from_slice(change_word(is_cancelled))?;
    append_decimal(&mut text, u64::from(row))?;
    text.extend_from_slice(b",\n")?;
    Ok(text)
}

/// Tells the customer of a change what has become of it.
pub(crate) fn tell_changed(
    alloc: Global,
    door: &mut Door,
    changing: &Changing,
    answer: Result<(), NoChange>,
)
    ensures { IsToldChanged changing.now answer changing.now.customer.number (guests_of door.old) (guests_of door.new) }
{
    let number = changing.customer.number();
    if let Err(why) = answer {
        return refuse(
            alloc,
            door,
            number,
            change_status(why),
            no_change_words(why),
        );
    }
    match changed_text(alloc, changing.is_cancelled, changing.row) {
        Ok(text) => door.answer(number, reply_of(Status::Fine, Kind::Csv, &text)),
        Err(_) => door.answer(
            number,
            reply_of(
                Status::Unavailable,
                Kind::Text,
                b"Memory: what is changed stands in the plan\n",
            ),
        ),
    }
}
