//! Rows that call, at a tick.

ghost use Rattle.std.specs.Prelude.{◌≡◌, ◌≤◌, ◌+◌, false, [], ◌∷◌};
ghost use Rattle.bx_base.specs.declared.bookings.TheConstants.{MAX_BOOKINGS};
ghost use Rattle.bx_channels.specs.Marks.{is_marked};
ghost use Rattle.bx_far.specs.FarDay.{begin_call, begin_row, begin_rows};
ghost use Rattle.bx_far.specs.Inside.{calls_now};

use crate::row::ScriptRow;
use bx_base::ChannelSet;
use bx_calls::UserCall;
use bx_channels::{Channel, Number};
use bx_events::LAST_MOMENT;
use bx_q931::Out;
use std::marker::Model;

/// A tick as it goes on: the calls and what is said, by the number of their channel, the channels that are not
/// called on, and the reference of the next call.
#[derive(Drop)]
pub struct BegunTick {
    pub calls: [Option<UserCall>; 32],
    pub said: [Option<Out>; 32],
    pub blocked: ChannelSet,
    pub next: u16,
}

impl Model for BegunTick {
    ghost use Rattle.bx_far.specs.FarDay.{Begun};
    ghost use Rattle.bx_far.specs.Seats.{live_calls};
    ghost use Rattle.bx_far.specs.BegunTicks.{IsBegunTick};

    ghost Value = { Begun };

    ghost view = { λ x. record { calls = live_calls x.calls; said = x.said; blocked = x.blocked; next = x.next } };

    ghost invariant = { λ x. IsBegunTick x.calls x.said x.blocked x.next };
}

impl BegunTick {
    /// The rows of this moment call, each on a channel that is neither blocked nor called on by an earlier row.
    pub(crate) fn begin_rows(&mut self, rows: &[ScriptRow], moment: u32)
        requires moment { moment ≤ LAST_MOMENT }
        requires room { self.old.next + calls_now moment rows.now ≤ MAX_BOOKINGS + 1 }
        ensures { self.new ≡ begin_rows moment rows.now self.old }
    {
        for row in rows {
            self.begin_row(row, moment);
        }
    }

    fn begin_row(&mut self, row: &ScriptRow, moment: u32)
        requires moment { moment ≤ LAST_MOMENT }
        requires room { self.old.next + calls_now moment (row.now ∷ []) ≤ MAX_BOOKINGS + 1 }
        ensures { self.new ≡ begin_row moment row.now self.old }
    {
        if let ScriptRow::Calls {
            number,
            moment: at,
            channel,
        } = row
        {
            if *at == moment && !self.blocked.has(*channel) {
                self.begin(*number, *channel, moment);
            }
        }
    }

    fn begin(&mut self, number: Number, channel: Channel, moment: u32)
        requires moment { moment ≤ LAST_MOMENT }
        requires free { is_marked self.old.blocked channel ≡ false }
        requires room { self.old.next ≤ MAX_BOOKINGS }
        ensures { self.new ≡ begin_call moment number channel self.old }
    {
        let (call, setup) = UserCall::calling(self.next, channel, number, moment);
        let slot = channel.number() as usize;
        self.calls[slot] = Some(call);
        self.said[slot] = Some(setup);
        self.blocked = self.blocked.with(channel);
        self.next += 1;
    }
}
