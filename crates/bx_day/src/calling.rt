//! What the exchange does with a SETUP of the far end.

ghost use Rattle.std.specs.Prelude.{◌≡◌, ◌<◌, ℕ, Bool, true, false, length, IfSome, MatchOption};
ghost use Rattle.std.specs.List.{list_any, position};
ghost use Rattle.bx_channels.specs.ChannelNumbers.{IsChannel};
ghost use Rattle.bx_q931.specs.Messages.{PlainMessage};
ghost use Rattle.bx_q931.specs.Outgoing.{IsCallReference};
ghost use Rattle.bx_calls.specs.Said.{said_under};
ghost use Rattle.bx_events.specs.declared.rules.Rules.{Rules};
ghost use Rattle.bx_channels.specs.Marks.{is_marked};
ghost use Rattle.bx_day.specs.Day.{is_free, entry_at, every_channel};
ghost use Rattle.bx_day.specs.Receipts.{is_open, opens, lowest_open, or_else, takes_or, called_on, called};
ghost use Rattle.bx_day.specs.Calling.{awaits, called_for};

use crate::entry::{Activity, Entry, Moved, Standing};
use crate::exchange::Exchange;
use bx_base::ChannelSet;
use bx_calls::{NetCall, Side, bearer_fault, refuse};
use bx_channels::Channel;
use bx_q931::cause::{NO_CHANNEL_AVAILABLE, REQUESTED_CHANNEL_NOT_AVAILABLE};
use bx_q931::{ChannelField, Message, Out};

impl Exchange {
    /// A SETUP of the far end: its bearer capability is looked at first, and then its channel.
    pub(crate) fn called(&mut self, reference: u16, message: &Message<'_>) -> Option<Out>
        requires { IsCallReference reference }
        ensures day { (rules : Rules) (flag : Bool) → let m = said_under rules reference flag message.now in self.new ≡ (called self.old m m.refused).day }
        ensures reply { (rules : Rules) (flag : Bool) → let m = said_under rules reference flag message.now in result ≡ (called self.old m m.refused).reply }
    {
        if let Some(cause) = bearer_fault(message) {
            return Some(refuse(Side::Network, reference, cause));
        }
        self.called_on(reference, message.channel())
    }

    fn called_on(&mut self, reference: u16, field: ChannelField) -> Option<Out>
        requires { IsCallReference reference }
        ensures day { (rules : Rules) (flag : Bool) (m : PlainMessage) → self.new ≡ (called_on self.old (said_under rules reference flag m) field).day }
        ensures reply { (rules : Rules) (flag : Bool) (m : PlainMessage) → result ≡ (called_on self.old (said_under rules reference flag m) field).reply }
    {
        match field {
            ChannelField::Unread => {
                Some(refuse(Side::Network, reference, REQUESTED_CHANNEL_NOT_AVAILABLE))
            }
            ChannelField::Named { channel, exclusive } => {
                self.called_at(reference, channel, exclusive)
            }
            ChannelField::Absent | ChannelField::AnyChannel => {
                let index = self.lowest();
                self.take(reference, index, NO_CHANNEL_AVAILABLE)
            }
        }
    }

    /// An exclusive channel is taken or no other; a preferred one where it is open, and else the lowest.
    fn called_at(&mut self, reference: u16, channel: Channel, exclusive: bool) -> Option<Out>
        requires { IsCallReference reference }
        ensures day { (rules : Rules) (flag : Bool) (m : PlainMessage) →
            self.new ≡ (called_for self.old (said_under rules reference flag m) channel exclusive).day }
        ensures reply { (rules : Rules) (flag : Bool) (m : PlainMessage) →
            result ≡ (called_for self.old (said_under rules reference flag m) channel exclusive).reply }
    {
        if exclusive {
            let index = self.open_on(channel);
            self.take(reference, index, REQUESTED_CHANNEL_NOT_AVAILABLE)
        } else {
            let index = self.preferred(channel);
            self.take(reference, index, NO_CHANNEL_AVAILABLE)
        }
    }

    /// The booking of this index is called, where there is one; else the SETUP is refused with this cause.
    fn take(&mut self, reference: u16, index: Option<usize>, cause: u8) -> Option<Out>
        requires limit { IsCallReference reference }
        requires inside { IfSome index (λ i. i < length self.old.entries) }
        requires open { IfSome index (λ i. is_open self.old (entry_at self.old.entries i) ≡ true) }
        ensures day { (rules : Rules) (flag : Bool) (m : PlainMessage) → self.new ≡ (takes_or self.old (said_under rules reference flag m) cause index).day }
        ensures reply { (rules : Rules) (flag : Bool) (m : PlainMessage) → result ≡ (takes_or self.old (said_under rules reference flag m) cause index).reply }
    {
        let Some(index) = index else {
            return Some(refuse(Side::Network, reference, cause));
        };
        let moment = self.moment();
        let channel = Channel::new(self.entries[index].channel).unwrap();
        let (call, reply) = NetCall::answered(reference, channel, moment);
        let moved = Moved {
            standing: Standing::OnCall {
                call,
                activity: Activity::Never,
            },
            said: Some(reply),
            broken: false,
        };
        self.put(index, moved)
    }

    /// The index of the booking that may be called on the channel now.
    fn open_on(&self, channel: Channel) -> Option<usize>
        ensures first { result ≡ position (opens self.now channel) self.now.entries }
        ensures inside { IfSome result (λ i. i < length self.now.entries) }
    {
        if !self.is_free(channel) {
            return None;
        }
        let number = channel.number();
        let Some(index) = self.waiting[number as usize] else {
            return None;
        };
        if !awaits_call(&self.entries[index as usize], number, self.moment) {
            return None;
        }
        Some(index as usize)
    }

    /// On the channel, and else on the lowest that is open.
    fn preferred(&self, channel: Channel) -> Option<usize>
        ensures first { result ≡ or_else (position (opens self.now channel) self.now.entries) (lowest_open self.now every_channel) }
        ensures inside { IfSome result (λ i. i < length self.now.entries) }
    {
        match self.open_on(channel) {
            Some(index) => Some(index),
            None => self.lowest(),
        }
    }

    /// On the lowest channel that is open.
    fn lowest(&self) -> Option<usize>
        ensures first { result ≡ lowest_open self.now every_channel }
        ensures inside { IfSome result (λ i. i < length self.now.entries) }
    {
        for number in 1..32 {
            if let Some(channel) = Channel::new(number) {
                if let Some(index) = self.open_on(channel) {
                    return Some(index);
                }
            }
        }
        None
    }

    /// Whether the channel is neither held nor in maintenance.
    pub(crate) fn is_free(&self, channel: Channel) -> bool
        ensures { result ≡ is_free self.now channel }
    {
        self.holder(channel).is_none() && !self.maintenance.has(channel)
    }
}

/// Whether the booking is inward, runs, and waits for its call on the channel of this number.
fn awaits_call(entry: &Entry, number: u8, moment: u32) -> bool
    ensures { result ≡ awaits moment number entry.now }
{
    match entry.standing {
        Standing::Unoffered => {
            entry.booking.is_inward() && entry.booking.runs_at(moment) && entry.channel == number
        }
        _ => false,
    }
}
