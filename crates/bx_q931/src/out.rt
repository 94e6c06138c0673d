//! Messages to be sent.

ghost use Rattle.std.specs.Prelude.{◌≡◌, ◌↔◌, ◌%◌, true, IsSome, IfSome};
ghost use Rattle.bx_q931.specs.Kinds.{IsNamed};
ghost use Rattle.bx_q931.specs.Outgoing.{plain, IsCallReference};

use crate::kind::Kind;
use bx_channels::{Channel, Number};
use std::marker::Model;

/// A message to be sent: its reference and flag, its type, and the elements that were set.
#[derive(Clone, Copy)]
pub struct Out {
    pub(crate) reference: u16,
    pub(crate) flag: bool,
    pub(crate) kind: Kind,
    pub(crate) sending_complete: bool,
    pub(crate) bearer: bool,
    pub(crate) cause: Option<(u8, u8)>,
    pub(crate) state: Option<u8>,
    pub(crate) channel: Option<(Channel, bool)>,
    pub(crate) called: Option<Number>,
}

impl Model for Out {
    ghost use Rattle.bx_q931.specs.Outgoing.{Outgoing, IsOutgoing};

    ghost Value = { Outgoing };

    ghost view = { λ o. record {
      reference = o.reference;
      flag = o.flag;
      kind = o.kind;
      sending_complete = o.sending_complete;
      bearer = o.bearer;
      cause = o.cause;
      state = o.state;
      channel = o.channel;
      called = o.called;
    } };

    ghost invariant = { λ o. IsOutgoing (record {
      reference = o.reference;
      flag = o.flag;
      kind = o.kind;
      sending_complete = o.sending_complete;
      bearer = o.bearer;
      cause = o.cause;
      state = o.state;
      channel = o.channel;
      called = o.called;
    }) };

    ghost inverse = { λ o. record {
      reference = o.reference;
      flag = o.flag;
      kind = o.kind;
      sending_complete = o.sending_complete;
      bearer = o.bearer;
      cause = o.cause;
      state = o.state;
      channel = o.channel;
      called = o.called;
    } };
}

impl Out {
    /// A message with no element. None for reference 0, a reference above 32,767, and a type that
    /// Q.931 does not name.
    pub fn new(reference: u16, flag: bool, kind: Kind) -> Option<Out>
        ensures exactly { IsSome result ↔ (IsCallReference reference × IsNamed kind) }
        ensures value { IfSome result (λ o. o ≡ plain reference flag kind) }
    {
        if reference == 0 || reference > 32767 {
            return None;
        }
        match kind {
            Kind::Other(_) => None,
            kind => Some(Out {
                reference,
                flag,
                kind,
                sending_complete: false,
                bearer: false,
                cause: None,
                state: None,
                channel: None,
                called: None,
            }),
        }
    }

    /// The reference, without its flag: 1 to 32,767.
    pub fn reference(&self) -> u16
        ensures value { result ≡ self.now.reference }
        ensures limit { IsCallReference result }
    {
        self.reference
    }

    /// The flag: false from the side that began the call.
    pub fn flag(&self) -> bool
        ensures { result ≡ self.now.flag }
    {
        self.flag
    }

    /// The type of the message.
    pub fn kind(&self) -> Kind
        ensures value { result ≡ self.now.kind }
        ensures named { IsNamed result }
    {
        self.kind
    }

    /// With sending complete (ITU-T Q.931, 4.5.27).
    pub fn with_sending_complete(mut self) -> Out
        ensures { result ≡ record self { sending_complete = true } }
    {
        self.sending_complete = true;
        self
    }

    /// With the bearer capability of a 64 kbit/s call: unrestricted digital, circuit mode (4.5.5).
    pub fn with_bearer(mut self) -> Out
        ensures { result ≡ record self { bearer = true } }
    {
        self.bearer = true;
        self
    }

    /// With a cause: the low 4 bits of the location, and the low 7 bits of the value (4.5.12).
    pub fn with_cause(mut self, location: u8, value: u8) -> Out
        ensures { result ≡ record self { cause = Some (location % 16, value % 128) } }
    {
        self.cause = Some((location & 0x0F, value & 0x7F));
        self
    }

    /// With a call state: the low 6 bits (4.5.7).
    pub fn with_state(mut self, state: u8) -> Out
        ensures { result ≡ record self { state = Some (state % 64) } }
    {
        self.state = Some(state & 0x3F);
        self
    }

    /// With a channel; exclusive where no other will do (4.5.13).
    pub fn with_channel(mut self, channel: Channel, exclusive: bool) -> Out
        ensures { result ≡ record self { channel = Some (channel, exclusive) } }
    {
        self.channel = Some((channel, exclusive));
        self
    }

    /// With a called party number (4.5.8).
    pub fn with_called(mut self, number: Number) -> Out
        ensures { result ≡ record self { called = Some number } }
    {
        self.called = Some(number);
        self
    }
}
