//! What the far end does with octets that come on a live line.

ghost use Rattle.std.specs.Prelude.{◌≡◌, option_map};
ghost use Rattle.bx_q931.specs.Outgoing.{IsCallReference, out_octets};
ghost use Rattle.bx_q931.specs.Values.{called_of};
ghost use Rattle.bx_calls.specs.Said.{said_of};
ghost use Rattle.bx_far.specs.LiveReceipts.{is_at_once, far_receive_live, far_receive_live_from, far_receive_live_octets};

use crate::far::Far;
use crate::slots::{first_named, settle};
use bx_calls::Policy;
use bx_q931::{Message, Octets, Out, Reference, encode, read};

impl Far {
    /// Hears the octets of one message on a live line, and answers what is sent for it: as `receive` does, but a call that the message
    /// offers, and that the script answers after 0 seconds, takes its first tick at once (ITU-T Q.931, 5.2.5.1 and 5.2.7): CONNECT is sent
    /// for its SETUP, and T313 runs from the present moment. Calls of all other policies wait for the next tick. Takes no memory.
    pub fn receive_live(&mut self, octets: &[u8]) -> Option<Octets>
        ensures day { self.new ≡ (far_receive_live_octets self.old octets.now).day }
        ensures reply { option_map (λ o. o.items) result ≡ option_map out_octets (far_receive_live_octets self.old octets.now).reply }
    {
        let Ok(message) = read(octets) else {
            return None;
        };
        let reply = self.receive_message_live(&message)?;
        Some(encode(&reply))
    }

    /// Hears a message that was read.
    fn receive_message_live(&mut self, message: &Message<'_>) -> Option<Out>
        ensures day { self.new ≡ (far_receive_live_from self.old message.now message.now.reference).day }
        ensures reply { result ≡ (far_receive_live_from self.old message.now message.now.reference).reply }
    {
        match message.reference() {
            Reference::Dummy | Reference::Value { value: 0, .. } => None,
            Reference::Value { value, flag } => self.receive_call_live(value, flag, message),
        }
    }

    fn receive_call_live(
        &mut self,
        reference: u16,
        flag: bool,
        message: &Message<'_>,
    ) -> Option<Out>
        requires limit { IsCallReference reference }
        requires same { message.now.reference ≡ Reference.Value reference flag }
        ensures day { self.new ≡ (far_receive_live self.old (said_of reference flag message.now) (called_of message.now)).day }
        ensures reply { result ≡ (far_receive_live self.old (said_of reference flag message.now) (called_of message.now)).reply }
    {
        if first_named(&self.calls, reference, flag).is_some() {
            return self.receive_call(reference, flag, message);
        }
        let policy = self.script.policy_of(message.called());
        let reply = self.stray(reference, flag, message);
        if !is_at_once(policy) {
            return reply;
        }
        let Some(call) = first_named(&self.calls, reference, flag) else {
            return reply;
        };
        let step = call.on_second(self.moment);
        let reply = step.reply;
        settle(
            &mut self.calls,
            &mut self.maintenance,
            call.channel(),
            step.next,
        );
        reply
    }
}

/// Whether a call of this policy is answered when it is offered.
fn is_at_once(policy: Policy) -> bool
    ensures { result ≡ is_at_once policy }
{
    matches!(policy, Policy::Answer(0))
}
