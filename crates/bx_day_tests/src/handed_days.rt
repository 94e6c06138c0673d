//! Drawn days that are handed over twice, beside the one long day: what goes on says the same.

use crate::drawn_days::Drawn;
use arrayvec::ArrayVec;
use bx_base::{Booking, Bookings, ChannelSet, Plan};
use bx_cases::SHARE;
use bx_channels::{Channel, Number};
use bx_day::{Entry, Exchange, Outcome, Standing};
use bx_events::Rules;
use bx_q931::Octets;
use bx_worked_days::exchange_of;
use std::alloc::Global;

/// The last row of the long day, and so the last reference that both days have.
const LAST_ROW: u8 = 6;

/// The call states that are handed over, by their numbers in a message, one bit each.
const STATES: u32 = 1 << 3 | 1 << 6 | 1 << 7 | 1 << 9 | 1 << 10 | 1 << 12 | 1 << 19;

/// What the references of new bookings begin after, in the second day and in the third.
static BASES: [u16; 2] = [4000, 8000];

/// A day that is handed over, and the long one beside it, whose midnight was so many seconds earlier.
#[derive(Drop)]
struct Days {
    long: Exchange,
    now: Exchange,
    earlier: u32,
    /// The row of each booking of the long day, by its row here less 1; 0 for one that is new here.
    rows: Vec<u16>,
    /// How many messages there were of calls of new bookings.
    new: u32,
    /// The states of the calls that were handed over.
    states: u32,
}

/// What is left of a booking at this moment; one that waits and has begun leaves second 0 to the call that its channel has.
fn what_is_left(entry: &Entry, moment: u32) -> Option<Booking> {
    let booking = entry.booking;
    let end = booking.end().saturating_sub(moment).max(1);
    let start = match entry.standing {
        Standing::OnCall { .. } => 0,
        Standing::Unoffered if end == 1 => return None,
        Standing::Unoffered if booking.start() <= moment => 1,
        Standing::Unoffered => booking.start().wrapping_sub(moment),
        _ => return None,
    };
    let left = Booking::new(start, end, booking.pay(), booking.number())?;
    Some(if booking.is_inward() {
        left.as_inward()
    } else {
        left
    })
}

/// Whether the message is of a call that both days have.
fn is_shared(octets: &Octets) -> bool {
    match octets.as_slice() {
        [_, _, 0 | 0x80, low, ..] => *low <= LAST_ROW,
        _ => false,
    }
}

/// Whether both send the same for calls that both have. Counts the others.
fn say_the_same(
    sent: &ArrayVec<Octets, 30>,
    expected: &ArrayVec<Octets, 30>,
    new: &mut u32,
) -> bool {
    let mut same = true;
    let mut place: usize = 0;
    for octets in sent {
        if is_shared(octets) {
            same &= match expected.get(place) {
                Some(message) => octets.as_slice() == message.as_slice(),
                None => false,
            };
            place = place.wrapping_add(1);
        } else {
            *new = new.wrapping_add(1);
        }
    }
    same && place == expected.len()
}

/// The outcome of the day that was handed over, as the long day tells it.
fn told_back(outcome: Option<Outcome>, earlier: u32) -> Option<Outcome> {
    match outcome {
        Some(Outcome::Carried { from, until }) => Some(Outcome::Carried {
            from: from.wrapping_add(earlier),
            until: until.wrapping_add(earlier),
        }),
        other => other,
    }
}

/// The outcome of the long day, of a call that became Active before this moment as if it did so then.
fn cut_off(outcome: Option<Outcome>, earlier: u32) -> Option<Outcome> {
    match outcome {
        Some(Outcome::Carried { from, until }) => Some(Outcome::Carried {
            from: from.max(earlier),
            until: until.max(earlier),
        }),
        other => other,
    }
}

/// The exchange of the next day. None where the plan is not one that this day may hand over to.
fn next_day(alloc: Global, now: &Exchange, plan: &Plan, base: u16) -> Option<Exchange> {
    if !plan.carried() {
        return None;
    }
    let Ok(may) = now.may_hand_over(alloc, plan, base) else {
        return None;
    };
    if !may {
        return None;
    }
    now.hand_over(alloc, plan, base).ok()
}

/// The states of its live calls, one bit each.
fn states_of(exchange: &Exchange) -> u32 {
    let mut states: u32 = 0;
    for entry in exchange.entries() {
        if let Standing::OnCall { call, .. } = entry.standing {
            states |= 1_u32.wrapping_shl(call.state().value() as u32);
        }
    }
    states
}

impl Days {
    fn open(alloc: Global, drawn: &mut Drawn) -> Option<Days> {
        let bookings = drawn.rows();
        let mut rows = Vec::new(alloc);
        for row in 1..=LAST_ROW {
            rows.push(row as u16).ok()?;
        }
        Some(Days {
            long: exchange_of(alloc, &bookings)?,
            now: exchange_of(alloc, &bookings)?,
            earlier: 0,
            rows,
            new: 0,
            states: 0,
        })
    }

    /// The plan of the next day: what is left, and one booking more on channel 3 from this moment on.
    fn next_plan(&mut self, alloc: Global, start: u32) -> Option<Plan> {
        let channels = ChannelSet::from_numbers(&[1, 2, 3]).ok()?;
        let mut bookings = Bookings::new(alloc);
        let mut assigned = Vec::new(alloc);
        let mut rows = Vec::new(alloc);
        for (place, entry) in self.now.entries().iter().enumerate() {
            if let Some(booking) = what_is_left(entry, self.now.moment()) {
                bookings.push(booking).ok()?;
                assigned.push(Channel::new(entry.channel)).ok()?;
                rows.push(*self.rows.get(place)?).ok()?;
            }
        }
        let end = start.wrapping_add(20);
        let booking = Booking::new(start, end, 5, Number::new(b"99")?)?;
        bookings.push(booking).ok()?;
        assigned.push(Channel::new(3)).ok()?;
        rows.push(0).ok()?;
        self.rows = rows;
        Plan::new(bookings, channels, assigned, Vec::new(alloc), 0)
    }

    /// Hands over at this second. None where it may not, or where it may give references anew that go on.
    fn hand_over(&mut self, alloc: Global, base: u16) -> Option<()> {
        let plan = self.next_plan(alloc, base as u32 / 200 + 60)?;
        let goes_on = self.rows.iter().any(|row| *row > 0);
        if goes_on && self.now.may_hand_over(alloc, &plan, 0).ok()? {
            return None;
        }
        let next = next_day(alloc, &self.now, &plan, base)?;
        self.states |= states_of(&self.now);
        self.earlier = self.earlier.wrapping_add(self.now.moment());
        self.now = next;
        Some(())
    }

    /// Whether a second goes alike, with a link or without one.
    fn second(&mut self, is_linked: bool) -> bool {
        if !is_linked {
            self.long.second_without_link(Rules::Three);
            self.now.second_without_link(Rules::Three);
            return true;
        }
        let expected = self.long.tick();
        let sent = self.now.tick();
        say_the_same(&sent, &expected, &mut self.new)
    }

    /// Whether a message is answered alike.
    fn hears(&mut self, octets: &[u8]) -> bool {
        match (self.now.receive(octets), self.long.receive(octets)) {
            (Some(reply), Some(expected)) => reply.as_slice() == expected.as_slice(),
            (None, None) => true,
            _ => false,
        }
    }

    /// Whether each booking that went on has come to the same, and the channels of both are held alike.
    fn are_alike(&self) -> bool {
        let mut same = true;
        for (row, long) in (1..).zip(&self.rows) {
            if *long > 0 {
                let outcome = told_back(self.now.outcome(row), self.earlier);
                same &= outcome == cut_off(self.long.outcome(*long), self.earlier);
            }
        }
        for number in 1..3 {
            if let Some(channel) = Channel::new(number) {
                let (one, other) = (self.now.on_channel(channel), self.long.on_channel(channel));
                same &= one.map(|held| held.1) == other.map(|held| held.1);
                same &= self.now.in_maintenance(channel) == self.long.in_maintenance(channel);
            }
        }
        same
    }

    /// Whether some seconds go alike, with a message in most of them.
    fn go_alike(&mut self, drawn: &mut Drawn, seconds: u32) -> bool {
        let mut same = true;
        for _second in 0..seconds {
            same &= self.second(drawn.below(8) > 0);
            same &= match drawn.below(4) {
                0 => true,
                1 => self.hears(&drawn.report()),
                2 => self.hears(&drawn.refusal()),
                _ => self.hears(&drawn.message()),
            };
            same &= self.are_alike();
        }
        same
    }
}

/// Whether a drawn day that is handed over twice goes as the long one, and each new booking is offered with a reference of its own.
fn goes_on(alloc: Global, seed: u32, states: &mut u32) -> Option<bool> {
    let mut drawn = Drawn::of(seed);
    let mut days = Days::open(alloc, &mut drawn)?;
    let mut same = days.go_alike(&mut drawn, 1);
    for base in &BASES {
        let seconds = drawn.below(40);
        same &= days.go_alike(&mut drawn, seconds);
        days.hand_over(alloc, *base)?;
    }
    same &= days.go_alike(&mut drawn, 120);
    *states |= days.states;
    Some(same && days.new > 0)
}

/// The first of so many drawn days that goes otherwise.
fn first_odd(alloc: Global, days: u32, states: &mut u32) -> Option<u32> {
    for seed in 0..days {
        if goes_on(alloc, seed, states) != Some(true) {
            return Some(seed);
        }
    }
    None
}

#[test]
fn handed_over(rt: HostRuntime) {
    let mut states = 0;
    assert_eq!(rt;
        first_odd(rt.alloc(), 400 / SHARE, &mut states),
        None,
        "a drawn day"
    );
    // A share of the days need not have every state.
    if SHARE > 1 {
        states = STATES;
    }
    assert_eq!(rt; states & STATES, STATES, "the states of calls");
}
