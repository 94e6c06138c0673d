//! An end of the link at a day that comes to a call in some state, and what is expected of it there.

use crate::hostile_octets::{Subject, first_wrong};
use crate::second_reading::{Heard, read_again};
use crate::second_replies::{Reply, Sent, is_sent, sent_for};
use crate::second_tables::Next;
use bx_worked_days::{DayEnd, goes_through};
use std::alloc::Global;

/// What is expected: the reply, the state on channel 1, and the channel on which a call is opened, 0 for none.
#[derive(Clone, Copy, PartialEq, Eq)]
pub(crate) struct Expected {
    pub(crate) reply: Reply,
    pub(crate) state: u8,
    pub(crate) opened: u8,
}

impl Expected {
    /// No call is opened.
    pub(crate) fn of(reply: Reply, state: u8) -> Expected {
        Expected {
            reply,
            state,
            opened: 0,
        }
    }

    /// What a table says of the call on channel 1, which is in this state.
    pub(crate) fn by_table(line: (Reply, Next), state: u8) -> Expected {
        let (reply, next) = line;
        Expected::of(reply, next.after(state))
    }
}

/// How the day of an end comes to a call on channel 1.
pub(crate) trait Day {
    type Of: DayEnd + Drop;

    /// The end at the opening.
    fn opening(&self, alloc: Global) -> Option<Self::Of>;

    /// What happens.
    fn steps(&self) -> &'static [&'static [u8]];

    /// The state on channel 1 then (0: there is no call).
    fn state(&self) -> u8;

    /// The location that the end gives in causes.
    fn location(&self) -> u8;

    /// What is expected of a message with this reference.
    fn of_message(&self, heard: &Heard<'_>, value: u16, flag: bool) -> Expected;

    /// Whether the end has what is expected on channel 1, the call of this reference that is opened, and no others.
    fn is_at(&self, end: &Self::Of, expected: Expected, reference: u16) -> bool;
}

/// The end, as the day comes to it.
fn at<D: Day>(alloc: Global, day: &D) -> Option<D::Of> {
    let mut end = day.opening(alloc)?;
    goes_through(&mut end, day.steps());
    Some(end)
}

/// An end at a day, made anew after each message that changes it.
#[derive(Drop)]
struct AtDay<'a, D: Day> {
    alloc: Global,
    day: &'a D,
    end: D::Of,
}

/// What is expected of these octets at a day: what is sent, and what the end has then, with a reference.
fn expected_of<D: Day>(day: &D, octets: &[u8]) -> (Option<Sent>, Expected, u16) {
    if let Ok(message) = read_again(octets)
        && let Some((value, flag)) = message.reference
        && value != 0
    {
        let expected = day.of_message(&message, value, flag);
        let sent = sent_for(expected.reply, value, !flag, day.location());
        return (sent, expected, value);
    }
    (None, Expected::of(Reply::Nothing, day.state()), 0)
}

impl<D: Day> Subject for AtDay<'_, D> {
    fn takes_rightly(&mut self, octets: &[u8]) -> bool {
        let (sent, expected, reference) = expected_of(self.day, octets);
        let right = is_sent(self.end.hear(octets), sent);
        let is_there = self.day.is_at(&self.end, expected, reference);
        if expected.state != self.day.state() || expected.opened != 0 {
            match at(self.alloc, self.day) {
                Some(end) => self.end = end,
                None => return false,
            }
        }
        right && is_there
    }
}

/// The first worked message that is taken wrongly at this day; 100 where the day does not come about.
pub(crate) fn wrong_at<D: Day>(alloc: Global, day: &D) -> Option<usize> {
    let Some(end) = at(alloc, day) else {
        return Some(100);
    };
    let before = Expected::of(Reply::Nothing, day.state());
    if !day.is_at(&end, before, 0) {
        return Some(100);
    }
    first_wrong(&mut AtDay { alloc, day, end })
}
