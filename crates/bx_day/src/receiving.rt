//! What the exchange does with octets that come.

ghost use Rattle.std.specs.Prelude.{◌≡◌, ◌<◌, ℕ, Bool, true, false, length, Option, Some, None, IfSome, option_map, ◌||◌, if◌then◌else◌};
ghost use Rattle.std.specs.List.{position};
ghost use Rattle.bx_base.specs.declared.bookings.TheConstants.{MAX_BOOKINGS};
ghost use Rattle.bx_q931.specs.Messages.{PlainMessage};
ghost use Rattle.bx_q931.specs.Outgoing.{IsCallReference, out_octets};
ghost use Rattle.bx_calls.specs.Said.{said_under};
ghost use Rattle.bx_events.specs.declared.rules.Rules.TheVariants.{Two};
ghost use Rattle.bx_day.specs.Day.{is_live, is_unoffered, entry_at};
ghost use Rattle.bx_day.specs.Receipts.{names, with_moved, received_at, stray, receive, is_open};
ghost use Rattle.bx_day.specs.SlotSteps.{earlier};
ghost use Rattle.bx_day.specs.Run.{receive_from, receive_octets, receive_octets_by};
ghost use Rattle.bx_day.specs.Invariant.{is_refused};
ghost use Rattle.bx_day.specs.Reading.{IsExchange};

use crate::entry::{Entry, Moved, Standing};
use crate::exchange::Exchange;
use crate::moving::heard;
use bx_calls::{Rules, Side, unknown};
use bx_q931::{Kind, Message, Octets, Out, Reference, encode, read};

impl Exchange {
    /// Hears the octets of one message, and answers what is sent for it. A message that `read` refuses, and
    /// one with the dummy or the global reference, changes nothing and is not answered (profile). One that
    /// names a live call follows its table (ITU-T Q.931, 5.1 to 5.3): with flag 1 a call that the exchange
    /// began, with flag 0 one that the far end began. A SETUP of another call is taken by an inward booking
    /// that runs, on its channel, and else refused; all else is answered as of no call (5.8.3.2). Takes no
    /// memory.
    pub fn receive(&mut self, octets: &[u8]) -> Option<Octets>
        ensures day { self.new ≡ (receive_octets self.old octets.now).day }
        ensures reply { option_map (λ o. o.items) result ≡ option_map out_octets (receive_octets self.old octets.now).reply }
    {
        self.receive_by(octets, Rules::Three)
    }

    /// The same by the rules 2, as a journal of these is followed.
    pub fn receive_by_rules_two(&mut self, octets: &[u8]) -> Option<Octets>
        ensures day { self.new ≡ (receive_octets_by Two self.old octets.now).day }
        ensures reply { option_map (λ o. o.items) result ≡ option_map out_octets (receive_octets_by Two self.old octets.now).reply }
    {
        self.receive_by(octets, Rules::Two)
    }

    fn receive_by(&mut self, octets: &[u8], rules: Rules) -> Option<Octets>
        ensures day { self.new ≡ (receive_octets_by rules self.old octets.now).day }
        ensures reply { option_map (λ o. o.items) result ≡ option_map out_octets (receive_octets_by rules self.old octets.now).reply }
    {
        let Ok(message) = read(octets) else {
            return None;
        };
        let reply = self.receive_message(&message, rules)?;
        Some(encode(&reply))
    }

    /// Hears a message that was read.
    fn receive_message(&mut self, message: &Message<'_>, rules: Rules) -> Option<Out>
        ensures day { self.new ≡ (receive_from rules self.old message.now message.now.reference).day }
        ensures reply { result ≡ (receive_from rules self.old message.now message.now.reference).reply }
    {
        match message.reference() {
            Reference::Dummy | Reference::Value { value: 0, .. } => None,
            Reference::Value { value, flag } => self.receive_call(value, flag, message, rules),
        }
    }

    fn receive_call(
        &mut self,
        reference: u16,
        flag: bool,
        message: &Message<'_>,
        rules: Rules,
    ) -> Option<Out>
        requires limit { IsCallReference reference }
        requires same { message.now.reference ≡ Reference.Value reference flag }
        ensures day { self.new ≡ (receive self.old (said_under rules reference flag message.now)).day }
        ensures reply { result ≡ (receive self.old (said_under rules reference flag message.now)).reply }
    {
        match self.named(reference, flag) {
            Some(index) => self.follow(index, message, rules),
            None => self.stray(reference, flag, message),
        }
    }

    /// The index of the live booking whose call has this reference, and sends with the other flag.
    fn named(&self, reference: u16, flag: bool) -> Option<usize>
        ensures first { (rules : Rules) (m : PlainMessage) → result ≡ position (names (said_under rules reference flag m)) self.now.entries }
        ensures inside { IfSome result (λ i. i < length self.now.entries) }
    {
        let mut first = None;
        for number in 0..32 {
            if let Some(index) = self.live[number] {
                if is_named(&self.entries[index as usize], reference, flag) {
                    first = Some(earlier(first, index as usize));
                }
            }
        }
        first
    }

    /// The live booking of this index hears a message of its call.
    fn follow(&mut self, index: usize, message: &Message<'_>, rules: Rules) -> Option<Out>
        requires inside { index < length self.old.entries }
        requires live { is_live (entry_at self.old.entries index).standing ≡ true }
        ensures day { (reference : ℕ) (flag : Bool) → self.new ≡ (received_at self.old (said_under rules reference flag message.now) (Some index)).day }
        ensures reply { (reference : ℕ) (flag : Bool) → result ≡ (received_at self.old (said_under rules reference flag message.now) (Some index)).reply }
    {
        let moment = self.moment();
        let moved = heard(self.entries[index].standing, message, rules, moment);
        self.put(index, moved)
    }

    /// What the booking of this index did, which is live or is called now; it broke no channel, which only time does.
    /// The slots of its channel follow, and what is due next is not known then.
    pub(crate) fn put(&mut self, index: usize, moved: Moved) -> Option<Out>
        requires inside { index < length self.old.entries }
        requires whole { moved.broken ≡ false }
        requires exchange { IsExchange (with_moved self.old index moved).day }
        requires turn { (is_live (entry_at self.old.entries index).standing || is_open self.old (entry_at self.old.entries index)) ≡ true }
        requires begun { is_unoffered moved.standing ≡ false }
        requires accepted { is_refused moved.standing ≡ false }
        ensures day { self.new ≡ (with_moved self.old index moved).day }
        ensures reply { result ≡ moved.said }
    {
        let entry = self.entries[index];
        let channel = entry.channel as usize;
        self.entries[index].standing = moved.standing;
        self.live[channel] = live_slot(index, moved.standing);
        self.waiting[channel] = waiting_slot(
            entry.standing,
            self.waiting[channel],
            self.following[index],
        );
        self.due = 0;
        moved.said
    }

    /// A message that names no live call.
    fn stray(&mut self, reference: u16, flag: bool, message: &Message<'_>) -> Option<Out>
        requires limit { IsCallReference reference }
        requires same { message.now.reference ≡ Reference.Value reference flag }
        ensures day { (rules : Rules) → self.new ≡ (stray self.old (said_under rules reference flag message.now) message.now.kind).day }
        ensures reply { (rules : Rules) → result ≡ (stray self.old (said_under rules reference flag message.now) message.now.kind).reply }
    {
        match message.kind() {
            Kind::Setup if flag => None,
            Kind::Setup => self.called(reference, message),
            _ => unknown(Side::Network, message),
        }
    }
}

/// The slot of the channel's live booking, where it can be none but this.
fn live_slot(index: usize, standing: Standing) -> Option<u16>
    requires { index < MAX_BOOKINGS }
    ensures { result ≡ (if is_live standing then Some index else None) }
{
    match standing {
        Standing::OnCall { .. } => Some(index as u16),
        _ => None,
    }
}

/// The slot of the channel's first booking that waits, once one of this standing does not.
fn waiting_slot(standing: Standing, first: Option<u16>, following: Option<u16>) -> Option<u16>
    ensures { result ≡ (if is_unoffered standing then following else first) }
{
    match standing {
        Standing::Unoffered => following,
        _ => first,
    }
}

/// The lower of these indices.
fn earlier(first: Option<usize>, index: usize) -> usize
    ensures { result ≡ earlier first index }
{
    match first {
        Some(other) => other.min(index),
        None => index,
    }
}

/// Whether the booking is live, and its call has this reference and sends with the other flag.
fn is_named(entry: &Entry, reference: u16, flag: bool) -> bool
    ensures { (rules : Rules) (m : PlainMessage) → result ≡ names (said_under rules reference flag m) entry.now }
{
    match entry.standing {
        Standing::OnCall { call, .. } => call.reference() == reference && call.flag() == !flag,
        _ => false,
    }
}
