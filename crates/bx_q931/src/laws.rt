//! Laws of messages: each is the contract of a function that does nothing.

ghost use Rattle.std.specs.Prelude.{◌≡◌, ◌↔◌, ℕ, List, IfSome};
ghost use Rattle.bx_channels.specs.ChannelNumbers.{IsChannel};
ghost use Rattle.bx_channels.specs.Numbers.{IsNumber};
ghost use Rattle.bx_q931.specs.Items.{PlainItem, all_items};
ghost use Rattle.bx_q931.specs.Grammar.{AreItems};
ghost use Rattle.bx_q931.specs.Messages.{message_at};
ghost use Rattle.bx_q931.specs.Outgoing.{Outgoing, IsOutgoing, out_octets, message_of};
ghost use Rattle.bx_q931.specs.Parts.{HasParts};

/// Octets are read as items exactly where they spell them, and in one way alone.
pub fn items_are_spelled()
    ensures { (octets : List ℕ) (items : List PlainItem) → (all_items octets ≡ Some items) ↔ AreItems octets items }
{}

/// The octets of each message that can be sent are read, and what is read has its parts.
pub fn read_again()
    ensures read { (o : Outgoing) → IsOutgoing o → IfSome o.called IsNumber → message_at (out_octets o) ≡ Ok (message_of o) }
    ensures parts { (o : Outgoing) → IsOutgoing o → IfSome o.channel (λ c. IsChannel c.0) → IfSome o.called IsNumber → HasParts (message_of o) o }
{}
