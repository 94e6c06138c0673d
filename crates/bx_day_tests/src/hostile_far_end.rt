//! The far end on hostile octets, at the opening and with a call in each state that a message can find.

use crate::hostile_days::{Day, Expected, wrong_at};
use crate::hostile_far_days::{DAYS, MAINTENANCE, Ready, SILENT};
use crate::second_reading::{Heard, Naming};
use crate::second_replies::Reply;
use crate::second_tables::{Call, at_user, of_no_call};
use bx_channels::Channel;
use bx_far::Far;
use bx_worked_days::far_of;
use std::alloc::Global;

/// The reference and the state of the call on a channel; 0 and MAINTENANCE where it is in maintenance, 0 and 0 where
/// there is nothing.
fn seen_on(far: &Far, number: u8) -> (u16, u8) {
    let Some(channel) = Channel::new(number) else {
        return (0, 0);
    };
    match far.on_channel(channel) {
        Some((reference, state)) => (reference, state.value()),
        None if far.in_maintenance(channel) => (0, MAINTENANCE),
        None => (0, 0),
    }
}

impl Ready {
    fn has_call(&self) -> bool {
        self.state != 0 && self.state != MAINTENANCE
    }

    fn same_with(&self, reply: Reply) -> Expected {
        Expected::of(reply, self.state)
    }

    /// The channel on which a SETUP may open a call, or the cause that refuses it.
    fn offered_by(&self, heard: &Heard<'_>) -> Result<u8, u8> {
        if let Some(cause) = heard.bearer_fault() {
            return Err(cause);
        }
        match heard.naming() {
            Naming::Absent => Err(96),
            Naming::Channel { number, .. } if number != 1 || self.state == 0 => Ok(number),
            _ => Err(44),
        }
    }

    fn of_setup(&self, heard: &Heard<'_>) -> Expected {
        match self.offered_by(heard) {
            Err(cause) => self.same_with(Reply::ReleaseComplete(Some(cause))),
            Ok(_) if heard.digits() == Some(b"1") => {
                self.same_with(Reply::ReleaseComplete(Some(17)))
            }
            Ok(_) if self.script == SILENT => self.same_with(Reply::Nothing),
            Ok(number) => Expected {
                reply: Reply::Nothing,
                state: self.state,
                opened: number,
            },
        }
    }
}

impl Day for Ready {
    type Of = Far;

    fn opening(&self, alloc: Global) -> Option<Far> {
        far_of(alloc, self.script)
    }

    fn steps(&self) -> &'static [&'static [u8]] {
        self.steps
    }

    fn state(&self) -> u8 {
        self.state
    }

    fn location(&self) -> u8 {
        0x80
    }

    fn of_message(&self, heard: &Heard<'_>, value: u16, flag: bool) -> Expected {
        if self.has_call() && value == 1 && flag != self.from_network {
            let call = Call {
                state: self.state,
                channel: 1,
                from_network: self.from_network,
            };
            return Expected::by_table(at_user(call, heard), self.state);
        }
        if heard.kind == 0x05 && !flag {
            return self.of_setup(heard);
        }
        self.same_with(of_no_call(heard))
    }

    fn is_at(&self, far: &Far, expected: Expected, reference: u16) -> bool {
        let mut right = true;
        for number in 1..=31 {
            let there = if expected.opened == number {
                (reference, 6)
            } else if number == 1 && expected.state != 0 {
                (
                    if expected.state == MAINTENANCE { 0 } else { 1 },
                    expected.state,
                )
            } else {
                (0, 0)
            };
            right &= seen_on(far, number) == there;
        }
        right
    }
}

#[test]
fn hostile_octets_are_answered_by_the_tables(rt: HostRuntime) {
    for day in &DAYS {
        assert_eq!(rt; wrong_at(rt.alloc(), day), None, "{}", day.name);
    }
}
