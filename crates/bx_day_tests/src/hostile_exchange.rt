//! The exchange on hostile octets, at the opening and with a call in each state that a message can find.

use crate::hostile_days::{Day, Expected, wrong_at};
use crate::hostile_exchange_days::{DAYS, Ready};
use crate::second_reading::{Heard, Naming};
use crate::second_replies::Reply;
use crate::second_tables::{Call, at_network, of_no_call};
use bx_channels::Channel;
use bx_day::Exchange;
use bx_worked_days::exchange_of;
use std::alloc::Global;

/// The row and the state of the call on a channel, 0 and 0 where there is none.
fn seen_on(exchange: &Exchange, number: u8) -> (u16, u8) {
    match Channel::new(number) {
        Some(channel) => match exchange.on_channel(channel) {
            Some((row, state)) => (row, state.value()),
            None => (0, 0),
        },
        None => (0, 0),
    }
}

impl Ready {
    /// Whether the message names the call on channel 1.
    fn is_named(&self, value: u16, flag: bool) -> bool {
        self.state != 0
            && if self.inward {
                value == 7 && !flag
            } else {
                value == 1 && flag
            }
    }

    /// Whether a SETUP of the far end can take channel 1: its booking is inward and was never live. Channel 2 always can.
    fn is_first_open(&self) -> bool {
        self.inward && self.steps.is_empty()
    }

    /// The channel that a SETUP takes, or the cause that refuses it.
    fn taken_by(&self, heard: &Heard<'_>) -> Result<u8, u8> {
        if let Some(cause) = heard.bearer_fault() {
            return Err(cause);
        }
        let lowest = if self.is_first_open() { 1 } else { 2 };
        match heard.naming() {
            Naming::Unread => Err(44),
            Naming::Channel { number: 2, .. } => Ok(2),
            Naming::Channel { number: 1, .. } if self.is_first_open() => Ok(1),
            Naming::Channel {
                exclusive: true,
                ..
            } => Err(44),
            _ => Ok(lowest),
        }
    }

    fn of_setup(&self, heard: &Heard<'_>) -> Expected {
        match self.taken_by(heard) {
            Ok(1) => Expected::of(Reply::CallProceeding(1), 3),
            Ok(channel) => Expected {
                reply: Reply::CallProceeding(channel),
                state: self.state,
                opened: channel,
            },
            Err(cause) => Expected::of(Reply::ReleaseComplete(Some(cause)), self.state),
        }
    }
}

impl Day for Ready {
    type Of = Exchange;

    /// The booking on channel 1 runs from 0 to 3, and an inward one on channel 2 all the while.
    fn opening(&self, alloc: Global) -> Option<Exchange> {
        exchange_of(alloc, &[(0, 3, 1, self.inward), (0, 60, 2, true)])
    }

    fn steps(&self) -> &'static [&'static [u8]] {
        self.steps
    }

    fn state(&self) -> u8 {
        self.state
    }

    fn location(&self) -> u8 {
        0x82
    }

    fn of_message(&self, heard: &Heard<'_>, value: u16, flag: bool) -> Expected {
        if self.is_named(value, flag) {
            let call = Call {
                state: self.state,
                channel: 1,
                from_network: !self.inward,
            };
            return Expected::by_table(at_network(call, heard), self.state);
        }
        if heard.kind == 0x05 && !flag {
            return self.of_setup(heard);
        }
        Expected::of(of_no_call(heard), self.state)
    }

    /// The calls are on channel 1 for row 1, and on channel 2 for row 2 in N3: rows are told in place of references.
    fn is_at(&self, exchange: &Exchange, expected: Expected, _reference: u16) -> bool {
        let first = if expected.state == 0 {
            (0, 0)
        } else {
            (1, expected.state)
        };
        let second = if expected.opened == 2 { (2, 3) } else { (0, 0) };
        seen_on(exchange, 1) == first && seen_on(exchange, 2) == second
    }
}

#[test]
fn hostile_octets_are_answered_by_the_tables(rt: HostRuntime) {
    for day in &DAYS {
        assert_eq!(rt; wrong_at(rt.alloc(), day), None, "{}", day.name);
    }
}
