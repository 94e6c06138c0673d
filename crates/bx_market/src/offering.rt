//! A batch of bookings that a customer asks for.

ghost use Rattle.std.specs.Prelude.{◌≡◌, ◌≤◌, ◌<◌, [], true, false, length, Ok, IfOk, OnOk};
ghost use Rattle.bx_live.specs.Runs.{Between};
ghost use Rattle.bx_market.specs.Choices.{eligible_marks};
ghost use Rattle.bx_market.specs.Choosing.{IsBestOnLeft};
ghost use Rattle.bx_market.specs.Choosing.{chosen_rows};
ghost use Rattle.bx_sales.specs.Left.{left_in_service};
ghost use Rattle.bx_sales.specs.Sold.{AreSoldInTurn};
ghost use Rattle.bx_market.specs.Stands.{Within, Filing, asked_batch};
ghost use Rattle.bx_market.specs.Offers.{IsOfferSettled, OrOver, why_not, IsOfferedInAny, IsNotedInAny, NotesAny, TellsOfAny, TellsOfMemory};

use crate::choosing::{Choice, choose, chosen_rows};
use crate::market::{Answer, Batch, Market};
use arrayvec::ArrayVec;
use bx_base::{Booking, Bookings, ChannelSet, MAX_BOOKINGS};
use bx_day::Exchange;
use bx_events::{Amendment, LiveEvent};
use bx_live::CannotLog;
use bx_planfile::spell_booking;
use bx_sales::{NoSale, Tag, channels_left, sale_line, sell, sell_all};
use std::alloc::{AllocError, Global};

/// Sells one booking of a batch, where it fits on the channels that are left beside all that is promised, and puts it in the journal, with the key of the
/// batch.
fn offer<W: Market>(
    alloc: Global,
    exchange: &mut Exchange,
    world: &mut W,
    channels: ChannelSet,
    tag: Option<Tag>,
    booking: Booking,
) -> Result<Answer, CannotLog>
    ensures offered { IsOfferedInAny W.dealt channels tag world.old world.new booking exchange.old exchange.new result }
    ensures moment { exchange.new.moment ≡ exchange.old.moment }
    ensures settled { IsOfferSettled (left_in_service channels exchange.old) booking exchange.old exchange.new result }
{
    // Read for the prover alone, which learns from it that this is a booking.
    let _start = booking.start();
    let left = channels_left(exchange, channels);
    match sell(alloc, exchange, left, &booking) {
        Ok(()) => {
            let line = sale_line(tag, &spell_booking(booking));
            world.log(LiveEvent::Amended(Amendment::Sold, &line))?;
            Ok(Answer::Accepted)
        }
        Err(why) => Ok(Answer::Refused(why)),
    }
}

/// Why a booking of a batch is not chosen.
fn why_not(moment: u32, booking: Booking, is_eligible: bool) -> NoSale
    ensures { result ≡ why_not moment booking is_eligible }
{
    if booking.start() <= moment {
        NoSale::Late
    } else if is_eligible {
        NoSale::NoChannel
    } else {
        NoSale::Full
    }
}

/// Sells a booking that is chosen; of another one it is said why it is not.
fn settle<W: Market>(
    alloc: Global,
    exchange: &mut Exchange,
    world: &mut W,
    channels: ChannelSet,
    tag: Option<Tag>,
    booking: Booking,
    is_eligible: bool,
    is_chosen: bool,
) -> Result<Answer, CannotLog>
    ensures offered { IsOfferedInAny W.dealt channels tag world.old world.new booking exchange.old exchange.new result }
    ensures moment { exchange.new.moment ≡ exchange.old.moment }
    ensures chosen { is_chosen ≡ true → IsOfferSettled (left_in_service channels exchange.old) booking exchange.old exchange.new result }
    ensures left_out { is_chosen ≡ false → result ≡ Ok (Answer.Refused (why_not exchange.old.moment booking is_eligible)) }
{
    if is_chosen {
        return offer(alloc, exchange, world, channels, tag, booking);
    }
    let why = why_not(exchange.moment(), booking, is_eligible);
    Ok(Answer::Refused(why))
}

/// Whether something was sold before, or is now.
fn is_sold_now(was: bool, answer: Answer) -> bool
    ensures { result ≡ false → (was ≡ false) × (¬ (answer ≡ Answer.Accepted)) }
{
    match answer {
        Answer::Accepted => true,
        Answer::Refused(_) => was,
    }
}

/// Tells the customer. Where something is sold, it is on the disk by then.
fn tell<W: Market>(world: &mut W, answers: &[Answer], is_any_sold: bool) -> Result<(), CannotLog>
    ensures { TellsOfAny W.dealt world.old world.new answers.now is_any_sold result }
{
    if !is_any_sold {
        world.answer(answers);
        return Ok(());
    }
    world.sync()?;
    world.answer(answers);
    Ok(())
}

/// Puts in the journal, with the key of the batch, that a booking is sold that was chosen; of another one it is said why it is not.
fn note_one<W: Market>(
    world: &mut W,
    moment: u32,
    tag: Option<Tag>,
    booking: Booking,
    is_eligible: bool,
    is_chosen: bool,
) -> Result<Answer, CannotLog>
    ensures noted { IsNotedInAny W.dealt tag world.old world.new booking is_chosen result }
    ensures chosen { is_chosen ≡ true → IfOk result (λ answer. answer ≡ Answer.Accepted) }
    ensures left_out { is_chosen ≡ false → result ≡ Ok (Answer.Refused (why_not moment booking is_eligible)) }
{
    // Read for the prover alone, which learns from it that this is a booking.
    let _start = booking.start();
    if !is_chosen {
        return Ok(Answer::Refused(why_not(moment, booking, is_eligible)));
    }
    let line = sale_line(tag, &spell_booking(booking));
    world.log(LiveEvent::Amended(Amendment::Sold, &line))?;
    Ok(Answer::Accepted)
}

/// Puts the bookings of a batch in the journal that are chosen and sold, in the order of the rows, and brings them to the disk before the customer is
/// answered.
fn note_all<W: Market>(
    world: &mut W,
    moment: u32,
    tag: Option<Tag>,
    batch: &Bookings,
    choice: &Choice,
) -> Result<(), CannotLog>
    requires eligible { length choice.now.eligible.items ≡ length batch.now }
    requires chosen { length choice.now.chosen.items ≡ length batch.now }
    ensures { NotesAny W.dealt tag world.old world.new moment batch.now choice.now.eligible.items choice.now.chosen.items result }
{
    let mut answers = ArrayVec::<Answer, MAX_BOOKINGS>::new();
    let mut is_any_sold = false;
    for index in 0..batch.len() {
        let booking = batch.nth(index);
        let (is_eligible, is_chosen) = (choice.is_eligible(index), choice.is_chosen(index));
        let answer = note_one(world, moment, tag, booking, is_eligible, is_chosen)?;
        is_any_sold = is_sold_now(is_any_sold, answer);
        answers.push(answer);
    }
    tell(world, &answers, is_any_sold)
}

/// Sells the bookings that are chosen in one step, where that can be done. Whether it is.
fn sell_at_once(
    alloc: Global,
    exchange: &mut Exchange,
    left: ChannelSet,
    batch: &Bookings,
    choice: &Choice,
) -> bool
    requires { length choice.now.chosen.items ≡ length batch.now }
    ensures sold { result ≡ true → AreSoldInTurn left (chosen_rows batch.now choice.now.chosen.items) exchange.old exchange.new }
    ensures kept { result ≡ false → exchange.new ≡ exchange.old }
{
    match chosen_rows(alloc, batch, choice) {
        Ok(chosen) => sell_all(alloc, exchange, left, &chosen).is_ok(),
        Err(AllocError) => false,
    }
}

/// Sells the bookings that are chosen, in the order of the rows; what is sold is on the disk before the customer is answered. All are sold in one step,
/// where that can be done, and else one after another.
fn sell_chosen<W: Market>(
    alloc: Global,
    exchange: &mut Exchange,
    world: &mut W,
    channels: ChannelSet,
    tag: Option<Tag>,
    batch: &Bookings,
    choice: &Choice,
) -> Result<(), CannotLog>
    requires eligible { choice.now.eligible.items ≡ eligible_marks exchange.old.moment (length exchange.old.entries) batch.now }
    requires best { IsBestOnLeft channels exchange.old batch.now choice.now.chosen.items }
    ensures sold { OrOver W.dealt channels world.old world.new (Filing exchange.old exchange.old tag batch.now []) (Within (Between exchange.new)) result }
    ensures moment { OnOk result (exchange.new.moment ≡ exchange.old.moment) }
{
    let moment = exchange.moment();
    let left = channels_left(exchange, channels);
    if sell_at_once(alloc, exchange, left, batch, choice) {
        return note_all(world, moment, tag, batch, choice);
    }
    sell_in_turn(alloc, exchange, world, channels, tag, batch, choice)
}

/// Sells the bookings that are chosen, one after another, in the order of the rows; what is sold is on the disk before the customer is answered.
fn sell_in_turn<W: Market>(
    alloc: Global,
    exchange: &mut Exchange,
    world: &mut W,
    channels: ChannelSet,
    tag: Option<Tag>,
    batch: &Bookings,
    choice: &Choice,
) -> Result<(), CannotLog>
    requires eligible { choice.now.eligible.items ≡ eligible_marks exchange.old.moment (length exchange.old.entries) batch.now }
    requires best { IsBestOnLeft channels exchange.old batch.now choice.now.chosen.items }
    ensures sold { OrOver W.dealt channels world.old world.new (Filing exchange.old exchange.old tag batch.now []) (Within (Between exchange.new)) result }
    ensures moment { OnOk result (exchange.new.moment ≡ exchange.old.moment) }
{
    let mut answers = ArrayVec::<Answer, MAX_BOOKINGS>::new();
    let mut is_any_sold = false;
    for index in 0..batch.len() {
        let answered = settle(
            alloc,
            exchange,
            world,
            channels,
            tag,
            batch.nth(index),
            choice.is_eligible(index),
            choice.is_chosen(index),
        )?;
        is_any_sold = is_sold_now(is_any_sold, answered);
        answers.push(answered);
    }
    tell(world, &answers, is_any_sold)
}

/// What is told of a booking where memory ran out before anything was chosen.
fn unchosen(moment: u32, booking: Booking) -> Answer
    ensures late { booking.start ≤ moment → result ≡ Answer.Refused NoSale.Late }
    ensures memory { moment < booking.start → result ≡ Answer.Refused NoSale.Memory }
{
    if booking.start() <= moment {
        Answer::Refused(NoSale::Late)
    } else {
        Answer::Refused(NoSale::Memory)
    }
}

/// Tells the customer that memory ran out before anything was chosen.
fn tell_of_memory<W: Market>(world: &mut W, exchange: &Exchange, batch: &Bookings)
    ensures { TellsOfMemory W.dealt world.old world.new exchange.now batch.now }
{
    let moment = exchange.moment();
    let mut answers = ArrayVec::<Answer, MAX_BOOKINGS>::new();
    for index in 0..batch.len() {
        answers.push(unchosen(moment, batch.nth(index)));
    }
    world.answer(&answers);
}

/// Sells the best choice among the bookings of a batch on the channels that are left, in the order of the rows; what is sold is on the disk before the
/// customer is answered.
pub(crate) fn offer_all<W: Market>(
    alloc: Global,
    exchange: &mut Exchange,
    world: &mut W,
    channels: ChannelSet,
    batch: &Batch,
) -> Result<(), CannotLog>
    ensures sold { OrOver W.dealt channels world.old world.new (asked_batch exchange.old batch.now) (Within (Between exchange.new)) result }
    ensures moment { OnOk result (exchange.new.moment ≡ exchange.old.moment) }
{
    let Batch { tag, bookings } = batch;
    match choose(alloc, exchange, channels, bookings) {
        Ok(choice) => sell_chosen(alloc, exchange, world, channels, *tag, bookings, &choice),
        Err(AllocError) => {
            tell_of_memory(world, exchange, bookings);
            Ok(())
        }
    }
}
