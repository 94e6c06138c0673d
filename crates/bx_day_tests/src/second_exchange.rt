//! A second exchange of six bookings on channels 1 and 2, in which a timer is the count of the seconds with a link that are
//! left of it.

use crate::second_reading::{Heard, read_again};
use crate::second_tables::{Call, Next, at_network};
use bx_channels::Channel;
use bx_day::{Exchange, Outcome};
use bx_worked_days::Row;

/// What becomes of a call that is offered, after seconds without a link.
#[derive(Clone, Copy, PartialEq, Eq)]
enum Offer {
    /// Nothing but what becomes of any.
    Plain,
    /// It was offered first in the first second with a link.
    Anew,
    /// It is offered as for the first time when its timer is due.
    PutOff,
    /// It is asked for when its timer is due.
    Unlinked,
    Asked,
}

/// A live call: the number of its state, what is left of its timer, how often its message is sent again, how it is offered, how
/// often the timer of an Active call is due before that is cleared, if one runs, and its reference.
#[derive(Clone, Copy)]
struct Live {
    state: u8,
    left: u32,
    tries: u8,
    offer: Offer,
    asks: u8,
    reference: u16,
}

#[derive(Clone, Copy)]
enum Course {
    Refused,
    Waits,
    Live(Live),
    Over,
    Missed,
}

/// Whether there is a link in a second, and whether there was none in the second before.
#[derive(Clone, Copy)]
struct Link {
    linked: bool,
    back: bool,
}

/// A booking, and when its call became and left Active.
#[derive(Clone, Copy)]
struct Booked {
    row: Row,
    course: Course,
    from: Option<u32>,
    until: u32,
}

impl Booked {
    fn opened(row: Row) -> Booked {
        Booked {
            row,
            course: if row.2 == 0 {
                Course::Refused
            } else {
                Course::Waits
            },
            from: None,
            until: 0,
        }
    }

    /// The number of the call's state; 0 where there is none.
    fn state(&self) -> u8 {
        match self.course {
            Course::Live(live) => live.state,
            _ => 0,
        }
    }

    /// How the call is offered, where it is.
    fn offer(&self) -> Offer {
        match self.course {
            Course::Live(live) if live.state == 6 => live.offer,
            _ => Offer::Plain,
        }
    }

    fn runs_at(&self, now: u32) -> bool {
        self.row.0 <= now && now < self.row.1
    }

    fn becomes(&mut self, course: Course, now: u32) {
        if self.state() == 10 {
            self.until = now;
        }
        self.course = course;
        if self.state() == 10 {
            self.from = Some(now);
        }
    }

    fn goes_to(&mut self, reference: u16, state: u8, left: u32, now: u32) {
        let live = Live {
            state,
            left,
            tries: 1,
            offer: Offer::Plain,
            asks: 0,
            reference,
        };
        self.becomes(Course::Live(live), now);
    }

    /// The call goes on in its state, offered so where it is.
    fn is_offered(&mut self, live: Live, offer: Offer, left: u32) {
        self.course = Course::Live(Live {
            left,
            offer,
            ..live
        });
    }

    /// What the timer of a call does that is offered.
    fn fires_offered(&mut self, live: Live, now: u32) {
        match live.offer {
            Offer::Plain if live.tries == 0 => self.becomes(Course::Over, now),
            Offer::Plain | Offer::Anew => {
                self.is_offered(Live { tries: 0, ..live }, Offer::Plain, 4);
            }
            Offer::PutOff | Offer::Asked => {
                self.is_offered(Live { tries: 1, ..live }, Offer::Plain, 4);
            }
            Offer::Unlinked => self.is_offered(live, Offer::Asked, 4),
        }
    }

    /// What a timer does that is due; whether the channel goes into maintenance.
    fn fires(&mut self, live: Live, now: u32) -> bool {
        match live.state {
            6 => self.fires_offered(live, now),
            10 if live.asks > 1 => {
                self.course = Course::Live(Live {
                    left: 4,
                    asks: live.asks - 1,
                    ..live
                });
            }
            19 if live.tries > 0 => {
                self.course = Course::Live(Live {
                    left: 4,
                    tries: live.tries - 1,
                    ..live
                });
            }
            19 => {
                self.becomes(Course::Over, now);
                return true;
            }
            12 => self.goes_to(live.reference, 19, 4, now),
            _ => self.goes_to(live.reference, 12, 30, now),
        }
        false
    }

    /// A second of a live call; whether the channel goes into maintenance.
    fn goes_on(&mut self, live: Live, now: u32, linked: bool) -> bool {
        let clears = live.state == 12 || live.state == 19;
        if !clears && self.row.1 <= now {
            self.goes_to(live.reference, 12, if linked { 30 } else { 1 }, now);
        } else if linked && live.state == 3 {
            self.goes_to(live.reference, 10, 0, now);
        } else if !linked && matches!(live.state, 6 | 7 | 9) {
            self.is_offered(Live { state: 6, ..live }, Offer::Unlinked, 1);
        } else if !linked && (clears || live.state == 10) {
            self.course = Course::Live(Live {
                left: 1,
                tries: 2,
                asks: if clears { 0 } else { 3 },
                ..live
            });
        } else if linked && (live.state != 10 || live.asks > 0) {
            let left = live.left.saturating_sub(1);
            if left == 0 {
                return self.fires(live, now);
            }
            self.course = Course::Live(Live { left, ..live });
        }
        false
    }

    /// Offers the call of this row number; back says whether there was no link in the second before.
    fn is_begun(&mut self, number: u16, now: u32, back: bool) {
        self.goes_to(number, 6, 4, now);
        if let Course::Live(live) = self.course
            && back
        {
            self.is_offered(live, Offer::Anew, 4);
        }
    }

    /// A second of a booking of this row number; free says whether its channel may be taken.
    fn second(&mut self, number: u16, now: u32, link: Link, free: bool) -> bool {
        match self.course {
            Course::Live(live) => return self.goes_on(live, now, link.linked),
            Course::Waits if link.linked && free && !self.row.3 && self.runs_at(now) => {
                self.is_begun(number, now, link.back);
            }
            Course::Waits if self.row.1 <= now => self.course = Course::Missed,
            _ => {}
        }
        false
    }

    /// Whether a message of this reference and flag is of its call.
    fn is_named(&self, value: u16, flag: bool) -> bool {
        match self.course {
            Course::Live(live) => live.reference == value && flag != self.row.3,
            _ => false,
        }
    }

    /// Whether this tells of a call that is asked for a state in which it is not up, nor about to be.
    fn is_given_up(&self, heard: &Heard<'_>) -> bool {
        let asked = matches!(self.course, Course::Live(live) if live.asks > 0);
        let other = match heard.state() {
            None | Some(0 | 10) => false,
            Some(1 | 3) => !self.row.3,
            Some(8) => self.row.3,
            Some(_) => true,
        };
        asked && heard.kind == 0x7D && other
    }

    /// Whether this refuses a call that was offered after seconds without a link, for now.
    fn is_put_off(&self, heard: &Heard<'_>) -> bool {
        self.offer() != Offer::Plain
            && heard.kind == 0x5A
            && matches!(heard.cause(), Some(41 | 42 | 44 | 47 | 102))
    }

    /// Whether this tells that a call which is asked for, is to be asked for or was put off is not there.
    fn is_lacked(&self, heard: &Heard<'_>) -> bool {
        match (self.offer(), heard.kind) {
            (Offer::Plain | Offer::Anew, _) => false,
            (_, 0x5A) => heard.cause() == Some(81),
            (_, 0x7D) => heard.state() == Some(0),
            _ => false,
        }
    }

    /// The state and the timer of a call that is asked for where this tells that it is answered, or that its phone rings.
    fn reported(&self, heard: &Heard<'_>) -> Option<(u8, u32)> {
        if self.offer() != Offer::Asked || heard.kind != 0x7D {
            return None;
        }
        match heard.state() {
            Some(8 | 10) => Some((10, 0)),
            Some(9) => Some((9, 10)),
            Some(7) => Some((7, 180)),
            _ => None,
        }
    }

    fn hears(&mut self, heard: &Heard<'_>, reference: u16, now: u32) {
        if self.is_given_up(heard) {
            self.goes_to(reference, 19, 4, now);
            return;
        }
        if let Some((state, left)) = self.reported(heard) {
            self.goes_to(reference, state, left, now);
            return;
        }
        if let Course::Live(live) = self.course
            && (self.is_put_off(heard) || self.is_lacked(heard))
        {
            self.is_offered(live, Offer::PutOff, 1);
            return;
        }
        let call = Call {
            state: self.state(),
            channel: self.row.2,
            from_network: !self.row.3,
        };
        if let Course::Live(live) = self.course {
            self.course = Course::Live(Live { asks: 0, ..live });
        }
        match at_network(call, heard).1 {
            Next::Same => {}
            Next::Over => self.becomes(Course::Over, now),
            Next::To(9) => self.goes_to(reference, 9, 10, now),
            Next::To(7) => self.goes_to(reference, 7, 180, now),
            Next::To(state) => self.goes_to(reference, state, 4, now),
        }
    }

    fn outcome(&self) -> Outcome {
        match (self.course, self.from) {
            (Course::Refused, _) => Outcome::Refused,
            (Course::Waits, _) => Outcome::Waiting,
            (Course::Live(_), _) => Outcome::Live,
            (Course::Over, Some(from)) => Outcome::Carried {
                from,
                until: self.until,
            },
            (Course::Over, None) => Outcome::Unanswered,
            (Course::Missed, _) => Outcome::Missed,
        }
    }
}

#[derive(Drop)]
pub(crate) struct Second {
    now: u32,
    /// Whether there was a link in the last second.
    linked: bool,
    booked: [Booked; 6],
    broken: [bool; 3],
}

impl Second {
    pub(crate) fn opened(rows: &[Row; 6]) -> Second {
        Second {
            now: 0,
            linked: true,
            booked: [
                Booked::opened(rows[0]),
                Booked::opened(rows[1]),
                Booked::opened(rows[2]),
                Booked::opened(rows[3]),
                Booked::opened(rows[4]),
                Booked::opened(rows[5]),
            ],
            broken: [false; 3],
        }
    }

    fn is_broken(&self, channel: u8) -> bool {
        self.broken.get(channel as usize) == Some(&true)
    }

    /// The row and the state of the call on a channel; 0 and 0 where there is none.
    pub(crate) fn on_channel(&self, channel: u8) -> (u16, u8) {
        for (number, booked) in (1..).zip(&self.booked) {
            if booked.row.2 == channel && booked.state() != 0 {
                return (number, booked.state());
            }
        }
        (0, 0)
    }

    fn is_free(&self, channel: u8) -> bool {
        self.on_channel(channel) == (0, 0) && !self.is_broken(channel)
    }

    /// A second, with a link or without one.
    pub(crate) fn second(&mut self, linked: bool) {
        self.now = self.now.saturating_add(1);
        let free = [false, self.is_free(1), self.is_free(2)];
        let link = Link {
            linked,
            back: !self.linked,
        };
        self.linked = linked;
        for (number, booked) in (1..).zip(self.booked.iter_mut()) {
            let channel = booked.row.2 as usize;
            let is_free = free.get(channel) == Some(&true);
            if booked.second(number, self.now, link, is_free)
                && let Some(broken) = self.broken.get_mut(channel)
            {
                *broken = true;
            }
        }
    }

    /// Lets the far end begin a call on the lowest open channel.
    fn is_called(&mut self, reference: u16) {
        let free = [false, self.is_free(1), self.is_free(2)];
        for channel in 1..3u8 {
            for booked in self.booked.iter_mut() {
                if free.get(channel as usize) == Some(&true)
                    && booked.row.2 == channel
                    && booked.row.3
                    && booked.runs_at(self.now)
                    && matches!(booked.course, Course::Waits)
                {
                    booked.goes_to(reference, 3, 0, self.now);
                    return;
                }
            }
        }
    }

    /// A message without a channel.
    pub(crate) fn hears(&mut self, octets: &[u8]) {
        let Ok(heard) = read_again(octets) else {
            return;
        };
        let Some((value, flag)) = heard.reference else {
            return;
        };
        for booked in self.booked.iter_mut() {
            if booked.is_named(value, flag) {
                booked.hears(&heard, value, self.now);
                return;
            }
        }
        if heard.kind == 0x05 && !flag && heard.bearer_fault().is_none() {
            self.is_called(value);
        }
    }

    fn agrees_on(&self, exchange: &Exchange, channel: Channel) -> bool {
        let held = match exchange.on_channel(channel) {
            Some((row, state)) => (row, state.value()),
            None => (0, 0),
        };
        held == self.on_channel(channel.number())
            && exchange.in_maintenance(channel) == self.is_broken(channel.number())
    }

    /// Whether the exchange tells the same of each booking and each channel.
    pub(crate) fn agrees(&self, exchange: &Exchange) -> bool {
        let mut same = exchange.moment() == self.now;
        for (row, booked) in (1..).zip(&self.booked) {
            same &= exchange.outcome(row) == Some(booked.outcome());
        }
        for number in 1..3 {
            if let Some(channel) = Channel::new(number) {
                same &= self.agrees_on(exchange, channel);
            }
        }
        same
    }
}
