//! What the far end does with octets that come.

ghost use Rattle.std.specs.Prelude.{◌≡◌, ℕ, Bool, List, Option, option_map, false};
ghost use Rattle.bx_q931.specs.Messages.{PlainMessage};
ghost use Rattle.bx_q931.specs.Outgoing.{IsCallReference, out_octets};
ghost use Rattle.bx_q931.specs.Values.{called_of};
ghost use Rattle.bx_calls.specs.Said.{said_of};
ghost use Rattle.bx_far.specs.FarDay.{far_receive, far_stray, far_called, far_called_on, far_takes, is_taken};
ghost use Rattle.bx_far.specs.FarRun.{far_receive_from, far_receive_octets};

use crate::far::Far;
use crate::slots::{first_named, settle};
use bx_calls::{Policy, Side, UserCall, bearer_fault, refuse, unknown};
use bx_channels::{Channel, Number};
use bx_q931::cause::{MANDATORY_ELEMENT_MISSING, REQUESTED_CHANNEL_NOT_AVAILABLE, USER_BUSY};
use bx_q931::{ChannelField, Kind, Message, Octets, Out, Reference, encode, read};

impl Far {
    /// Hears the octets of one message, and answers what is sent for it. A message that `read` refuses, and
    /// one with the dummy or the global reference, changes nothing and is not answered (profile). One that
    /// names a live call follows its table (ITU-T Q.931, 5.1 to 5.3): with flag 0 a call that the network
    /// began, with flag 1 one that the far end began. A SETUP of another call is refused, or done with as the
    /// script says; all else is answered as of no call (5.8.3.2). Takes no memory.
    pub fn receive(&mut self, octets: &[u8]) -> Option<Octets>
        ensures day { self.new ≡ (far_receive_octets self.old octets.now).day }
        ensures reply { option_map (λ o. o.items) result ≡ option_map out_octets (far_receive_octets self.old octets.now).reply }
    {
        let Ok(message) = read(octets) else {
            return None;
        };
        let reply = self.receive_message(&message)?;
        Some(encode(&reply))
    }

    /// Hears a message that was read.
    fn receive_message(&mut self, message: &Message<'_>) -> Option<Out>
        ensures day { self.new ≡ (far_receive_from self.old message.now message.now.reference).day }
        ensures reply { result ≡ (far_receive_from self.old message.now message.now.reference).reply }
    {
        match message.reference() {
            Reference::Dummy | Reference::Value { value: 0, .. } => None,
            Reference::Value { value, flag } => self.receive_call(value, flag, message),
        }
    }

    pub(crate) fn receive_call(
        &mut self,
        reference: u16,
        flag: bool,
        message: &Message<'_>,
    ) -> Option<Out>
        requires limit { IsCallReference reference }
        requires same { message.now.reference ≡ Reference.Value reference flag }
        ensures day { self.new ≡ (far_receive self.old (said_of reference flag message.now) (called_of message.now)).day }
        ensures reply { result ≡ (far_receive self.old (said_of reference flag message.now) (called_of message.now)).reply }
    {
        let Some(call) = first_named(&self.calls, reference, flag) else {
            return self.stray(reference, flag, message);
        };
        let step = call.on_message(message, self.moment);
        let reply = step.reply;
        settle(
            &mut self.calls,
            &mut self.maintenance,
            call.channel(),
            step.next,
        );
        reply
    }

    /// A message that names no live call.
    pub(crate) fn stray(&mut self, reference: u16, flag: bool, message: &Message<'_>) -> Option<Out>
        requires limit { IsCallReference reference }
        requires same { message.now.reference ≡ Reference.Value reference flag }
        ensures day { self.new ≡ (far_stray self.old (said_of reference flag message.now) (called_of message.now) message.now.kind).day }
        ensures reply { result ≡ (far_stray self.old (said_of reference flag message.now) (called_of message.now) message.now.kind).reply }
    {
        match message.kind() {
            Kind::Setup if flag => None,
            Kind::Setup => self.called(reference, message),
            _ => unknown(Side::User, message),
        }
    }

    /// A SETUP of the network: its bearer capability is looked at first, and then its channel.
    fn called(&mut self, reference: u16, message: &Message<'_>) -> Option<Out>
        requires { IsCallReference reference }
        ensures day { (flag : Bool) → let m = said_of reference flag message.now in self.new ≡ (far_called self.old m (called_of message.now) m.refused).day }
        ensures reply { (flag : Bool) → let m = said_of reference flag message.now in result ≡ (far_called self.old m (called_of message.now) m.refused).reply }
    {
        if let Some(cause) = bearer_fault(message) {
            return Some(refuse(Side::User, reference, cause));
        }
        self.called_on(reference, message.channel(), message.called())
    }

    fn called_on(
        &mut self,
        reference: u16,
        field: ChannelField,
        called: Option<Number>,
    ) -> Option<Out>
        requires { IsCallReference reference }
        ensures day { (flag : Bool) (m : PlainMessage) → self.new ≡ (far_called_on self.old (said_of reference flag m) called field).day }
        ensures reply { (flag : Bool) (m : PlainMessage) → result ≡ (far_called_on self.old (said_of reference flag m) called field).reply }
    {
        let cause = match field {
            ChannelField::Absent => MANDATORY_ELEMENT_MISSING,
            ChannelField::AnyChannel | ChannelField::Unread => REQUESTED_CHANNEL_NOT_AVAILABLE,
            ChannelField::Named { channel, .. } => {
                if !self.is_taken(channel) {
                    let policy = self.script.policy_of(called);
                    return self.take(reference, channel, policy);
                }
                REQUESTED_CHANNEL_NOT_AVAILABLE
            }
        };
        Some(refuse(Side::User, reference, cause))
    }

    /// A SETUP on a free channel, by the policy of its number.
    fn take(&mut self, reference: u16, channel: Channel, policy: Policy) -> Option<Out>
        requires limit { IsCallReference reference }
        requires free { is_taken self.old channel ≡ false }
        ensures day { (flag : Bool) (m : PlainMessage) → self.new ≡ (far_takes self.old (said_of reference flag m) channel policy).day }
        ensures reply { (flag : Bool) (m : PlainMessage) → result ≡ (far_takes self.old (said_of reference flag m) channel policy).reply }
    {
        match policy {
            Policy::Silent => None,
            Policy::Busy => Some(refuse(Side::User, reference, USER_BUSY)),
            _ => {
                let call = UserCall::offered(reference, channel, policy, self.moment);
                self.calls[channel.number() as usize] = Some(call);
                None
            }
        }
    }
}
