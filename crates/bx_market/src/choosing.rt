//! The choice among the bookings of a batch.

ghost use Rattle.std.specs.Prelude.{◌≡◌, ◌↔◌, IsTrue, ◌≤◌, ◌<◌, ◌++◌, ◌∷◌, [], true, replicate, length, IfOk, OnOk};
ghost use Rattle.bx_base.specs.Plans.{is_accepted};
ghost use Rattle.bx_base.specs.declared.bookings.TheConstants.{MAX_BOOKINGS};
ghost use Rattle.bx_colour.specs.Colouring.{is_in, FitsChannels};
ghost use Rattle.bx_market.specs.Choices.{is_counted, promised, eligible_marks};
ghost use Rattle.bx_market.specs.Choosing.{IsBestOnLeft};
ghost use Rattle.bx_market.specs.Choosing.{free_row, free_rows, chosen_rows, chosen_marks, AreMustRows, IsBestSelection};
ghost use Rattle.bx_market.specs.LeavingSteps.{is_ahead, has_begun_on};

use bx_base::{Booking, Bookings, ChannelSet, MAX_BOOKINGS};
use bx_channels::Channel;
use bx_colour::fits;
use bx_day::{Entry, Exchange};
use bx_planner::{NoPlan, plan};
use bx_sales::channels_left;
use std::alloc::{AllocError, Global};

/// A choice among the bookings of a batch: which are eligible, and which of these are chosen.
#[derive(Drop)]
pub(crate) struct Choice {
    pub eligible: Vec<bool>,
    pub chosen: Vec<bool>,
}

impl Choice {
    /// Whether the booking at a place of the batch is eligible.
    pub(crate) fn is_eligible(&self, place: u16) -> bool
        requires { place < length self.now.eligible.items }
        ensures { result ≡ is_in self.now.eligible.items place }
    {
        self.eligible[place as usize]
    }

    /// Whether the booking at a place of the batch is chosen.
    pub(crate) fn is_chosen(&self, place: u16) -> bool
        requires { place < length self.now.chosen.items }
        ensures { result ≡ is_in self.now.chosen.items place }
    {
        self.chosen[place as usize]
    }
}

/// Which bookings of a batch are eligible, on a day that has so many by now.
fn eligible_marks(
    alloc: Global,
    moment: u32,
    count: usize,
    batch: &Bookings,
) -> Result<Vec<bool>, AllocError>
    ensures { IfOk result (λ v. v.items ≡ eligible_marks moment count batch.now) }
{
    let mut eligible = Vec::new(alloc);
    let mut count = count;
    for index in 0..batch.len() {
        let is_eligible = batch.nth(index).start() > moment && count < MAX_BOOKINGS;
        eligible.push(is_eligible)?;
        if is_eligible {
            count += 1;
        }
    }
    Ok(eligible)
}

/// Adds a booking. There have to be fewer than 16,000, or this is told as memory that ran out.
pub(crate) fn add(rows: &mut Bookings, booking: Booking) -> Result<(), AllocError>
    ensures { OnOk result (rows.new ≡ rows.old ++ booking ∷ []) }
{
    match rows.push(booking) {
        Ok(()) => Ok(()),
        Err(_) => Err(AllocError),
    }
}

/// Whether a booking waits for a start that is yet to come.
pub(crate) fn is_ahead(entry: &Entry, moment: u32) -> bool
    ensures { result ≡ is_ahead moment entry.now }
{
    entry.standing.is_waiting() && moment < entry.booking.start()
}

/// Whether a booking has begun on one of these channels.
pub(crate) fn has_begun_on(entry: &Entry, moment: u32, channels: ChannelSet) -> bool
    ensures { result ≡ has_begun_on channels moment entry.now }
{
    // Read for the prover alone, which learns from it what a set is.
    let _count = channels.count();
    if entry.standing.is_refused() || is_ahead(entry, moment) {
        return false;
    }
    match Channel::new(entry.channel) {
        Some(channel) => channels.has(channel),
        None => false,
    }
}

/// Whether a booking is promised and counts on these channels: it has not begun on another one.
fn is_counted(entry: &Entry, moment: u32, channels: ChannelSet) -> bool
    ensures { result ≡ is_counted channels moment entry.now }
{
    is_ahead(entry, moment) || has_begun_on(entry, moment, channels)
}

/// All that is promised and counts on these channels, each as a booking that every plan has to hold. `AllocError` where memory runs out.
pub fn promised(
    alloc: Global,
    exchange: &Exchange,
    channels: ChannelSet,
) -> Result<Bookings, AllocError>
    ensures { IfOk result (λ rows. rows ≡ promised channels exchange.now.moment exchange.now.entries) }
{
    let moment = exchange.moment();
    let mut rows = Bookings::new(alloc);
    for entry in exchange.entries() {
        if is_counted(entry, moment, channels) {
            add(&mut rows, entry.booking.as_must())?;
        }
    }
    Ok(rows)
}

/// The same booking, which a plan may leave out.
fn free(booking: Booking) -> Booking
    ensures { result ≡ free_row booking }
{
    let (start, end) = (booking.start(), booking.end());
    let Some(free) = Booking::new(start, end, booking.pay(), booking.number()) else {
        unreachable!()
    };
    free
}

/// Adds the marked bookings of a batch, each as one that a plan may leave out.
fn add_free(rows: &mut Bookings, batch: &Bookings, eligible: &[bool]) -> Result<(), AllocError>
    requires { length eligible.now ≡ length batch.now }
    ensures { OnOk result (rows.new ≡ rows.old ++ free_rows batch.now eligible.now) }
{
    for index in 0..batch.len() {
        if eligible[index as usize] {
            add(rows, free(batch.nth(index)))?;
        }
    }
    Ok(())
}

/// The chosen bookings of a batch. `AllocError` where memory runs out.
pub(crate) fn chosen_rows(
    alloc: Global,
    batch: &Bookings,
    choice: &Choice,
) -> Result<Bookings, AllocError>
    requires { length choice.now.chosen.items ≡ length batch.now }
    ensures { IfOk result (λ rows. rows ≡ chosen_rows batch.now choice.now.chosen.items) }
{
    let mut rows = Bookings::new(alloc);
    for index in 0..batch.len() {
        if choice.is_chosen(index) {
            add(&mut rows, batch.nth(index))?;
        }
    }
    Ok(rows)
}

/// Whether a plan accepts what stands at this place of it.
fn is_accepted(assigned: &[Option<Channel>], place: usize) -> bool
    ensures { result ≡ is_accepted assigned.now place }
{
    place < assigned.len() && assigned[place].is_some()
}

/// Which bookings of a batch a plan accepts, where the first that is marked has this place in it.
fn chosen_marks(
    alloc: Global,
    eligible: &[bool],
    assigned: &[Option<Channel>],
    place: usize,
) -> Result<Vec<bool>, AllocError>
    requires few { length eligible.now ≤ MAX_BOOKINGS }
    requires place { place ≤ MAX_BOOKINGS }
    ensures { IfOk result (λ v. v.items ≡ chosen_marks eligible.now assigned.now place) }
{
    let mut chosen = Vec::new(alloc);
    let mut place = place;
    for index in 0..eligible.len() {
        chosen.push(eligible[index] && is_accepted(assigned, place))?;
        if eligible[index] {
            place += 1;
        }
    }
    Ok(chosen)
}

/// Whether all of these bookings fit on the channels.
fn all_fit(alloc: Global, rows: &Bookings, channels: ChannelSet) -> Result<bool, AllocError>
    ensures { IfOk result (λ b. IsTrue b ↔ FitsChannels rows.now (replicate (length rows.now) true) channels) }
{
    let marks = vec![in alloc; true; rows.len() as usize]?;
    Ok(fits(rows, &marks, channels))
}

/// The best choice among the eligible bookings of a batch beside those that are held: where all fit, these; else by a plan in which each that is held is a
/// must booking, and those of the batch are free. Where the channels do not carry what is held, none is chosen. `AllocError` where memory runs out.
pub(crate) fn best_beside(
    alloc: Global,
    held: Bookings,
    batch: &Bookings,
    eligible: &[bool],
    channels: ChannelSet,
) -> Result<Vec<bool>, AllocError>
    requires count { length eligible.now ≡ length batch.now }
    requires held { AreMustRows held }
    ensures { IfOk result (λ v. IsBestSelection channels held batch.now eligible.now v.items) }
{
    // Read for the prover alone, which learns a limit from it.
    let _wanted = batch.len();
    let place = held.len() as usize;
    let mut rows = held;
    add_free(&mut rows, batch, eligible)?;
    if all_fit(alloc, &rows, channels)? {
        let all = eligible.to_vec(alloc)?;
        return Ok(all);
    }
    match plan(alloc, &rows, channels) {
        Ok(best) => chosen_marks(alloc, eligible, &best.assigned, place),
        Err(NoPlan::TooManyMust(_)) => chosen_marks(alloc, eligible, &[], place),
        Err(NoPlan::Memory) => Err(AllocError),
    }
}

/// The best choice among the bookings of a batch on the channels that are left, beside all that is promised. `AllocError` where memory runs out.
pub(crate) fn choose(
    alloc: Global,
    exchange: &Exchange,
    channels: ChannelSet,
    batch: &Bookings,
) -> Result<Choice, AllocError>
    ensures eligible { IfOk result (λ c. c.eligible.items ≡ eligible_marks exchange.now.moment (length exchange.now.entries) batch.now) }
    ensures best { IfOk result (λ c. IsBestOnLeft channels exchange.now batch.now c.chosen.items) }
{
    let left = channels_left(exchange, channels);
    let eligible = eligible_marks(alloc, exchange.moment(), exchange.entries().len(), batch)?;
    let held = promised(alloc, exchange, left)?;
    let chosen = best_beside(alloc, held, batch, &eligible, left)?;
    Ok(Choice { eligible, chosen })
}
