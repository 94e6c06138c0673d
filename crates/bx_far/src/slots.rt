//! Calls in the slots of their channels.

ghost use Rattle.std.specs.Prelude.{◌≡◌, IfSome, length, slice_set, Some};
ghost use Rattle.bx_q931.specs.Messages.{PlainMessage};
ghost use Rattle.bx_calls.specs.Said.{said_of};
ghost use Rattle.bx_far.specs.FarDay.{far_names, first_call, settle_maintenance};
ghost use Rattle.bx_far.specs.Seats.{AreSeated, live_calls};
ghost use Rattle.bx_far.specs.Inside.{live_call_of, call_slot_at};

use bx_base::ChannelSet;
use bx_calls::{Next, UserCall};
use bx_channels::Channel;

/// Whether the call has this reference and sends with the other flag.
fn is_named(call: &UserCall, reference: u16, flag: bool) -> bool
    ensures { (m : PlainMessage) → result ≡ far_names (said_of reference flag m) call.now }
{
    call.reference() == reference && call.flag() == !flag
}

/// The first call that a message of this reference and flag names.
pub(crate) fn first_named(
    calls: &[Option<UserCall>; 32],
    reference: u16,
    flag: bool,
) -> Option<UserCall>
    requires size { length calls.now ≡ 32 }
    requires seated { AreSeated 0 calls.now }
    ensures first { (m : PlainMessage) → result ≡ first_call (far_names (said_of reference flag m)) (live_calls calls.now) }
    ensures seat { IfSome result (λ call. call_slot_at calls.now call.channel ≡ Some call) }
{
    for i in 0..32 {
        let slot = calls[i];
        if let Some(call) = slot {
            if is_named(&call, reference, flag) {
                return Some(call);
            }
        }
    }
    None
}

/// What became of the call on the channel.
pub(crate) fn settle(
    calls: &mut [Option<UserCall>; 32],
    maintenance: &mut ChannelSet,
    channel: Channel,
    next: Next<UserCall>,
)
    ensures calls { calls.new ≡ slice_set calls.old channel (live_call_of next) }
    ensures maintenance { maintenance.new ≡ settle_maintenance channel next maintenance.old }
{
    let slot = channel.number() as usize;
    match next {
        Next::Live(call) => calls[slot] = Some(call),
        Next::Over => calls[slot] = None,
        Next::Broken => {
            calls[slot] = None;
            *maintenance = maintenance.with(channel);
        }
    }
}
