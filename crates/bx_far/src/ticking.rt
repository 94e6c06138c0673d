//! The ticks of a day.

ghost use Rattle.std.specs.Prelude.{◌≡◌, ◌≤◌, length, map};
ghost use Rattle.bx_far.specs.FarDay.{far_tick, no_messages, second_maintenance, second_said, with_held};
ghost use Rattle.bx_calls.specs.Sending.{in_order, spelled};
ghost use Rattle.bx_far.specs.Seats.{AreSeated, live_calls};
ghost use Rattle.bx_far.specs.BegunTicks.{AreSpoken, IsFree, after_slot};

use crate::begun_tick::BegunTick;
use crate::far::Far;
use crate::slots::settle;
use arrayvec::ArrayVec;
use bx_base::ChannelSet;
use bx_calls::{UserCall, spell};
use bx_events::LAST_MOMENT;
use bx_q931::{Octets, Out};
use std::mem;

impl Far {
    /// The next second: the moment rises by one, live calls follow their table, and the rows of the script that
    /// call at this moment do so in their order, each where its channel was neither held nor in maintenance
    /// before and no earlier row calls on it now. A row that may not call never does. Answers what is sent, in
    /// rising order of channel. At moment 300,000 nothing happens. Takes no memory.
    pub fn tick(&mut self) -> ArrayVec<Octets, 30>
        ensures day { self.new ≡ (far_tick self.old).day }
        ensures sent { result.items ≡ spelled (far_tick self.old).sent }
    {
        if self.moment >= LAST_MOMENT {
            return ArrayVec::new();
        }
        let moment = self.moment + 1;
        let mut calls = mem::replace(&mut self.calls, [None; 32]);
        let blocked = held(&calls, self.maintenance);
        let said = second(&mut calls, &mut self.maintenance, moment);
        let mut turn = BegunTick {
            calls,
            said,
            blocked,
            next: self.next,
        };
        turn.begin_rows(self.script.rows(), moment);
        let BegunTick {
            calls,
            said,
            blocked: _,
            next,
        } = turn;
        self.moment = moment;
        self.calls = calls;
        self.next = next;
        spell(&said)
    }
}

/// The channels of these calls, and those in maintenance.
fn held(calls: &[Option<UserCall>; 32], maintenance: ChannelSet) -> ChannelSet
    requires size { length calls.now ≡ 32 }
    requires seated { AreSeated 0 calls.now }
    ensures held { result ≡ with_held (live_calls calls.now) maintenance }
    ensures free { IsFree calls.now result }
{
    let mut taken = maintenance;
    for i in 0..32 {
        let slot = calls[i];
        if let Some(call) = slot {
            taken = taken.with(call.channel());
        }
    }
    taken
}

/// A second goes by for each call. Answers what they say, by the number of their channel.
fn second(
    calls: &mut [Option<UserCall>; 32],
    maintenance: &mut ChannelSet,
    moment: u32,
) -> [Option<Out>; 32]
    requires size { length calls.old ≡ 32 }
    requires seated { AreSeated 0 calls.old }
    requires moment { moment ≤ LAST_MOMENT }
    ensures calls { calls.new ≡ map (after_slot moment) calls.old }
    ensures maintenance { maintenance.new ≡ second_maintenance moment (live_calls calls.old) maintenance.old }
    ensures said { result ≡ second_said moment (live_calls calls.old) no_messages }
    ensures spoken { AreSpoken 0 result }
    ensures slots { length result ≡ 32 }
{
    let mut said = [None; 32];
    for i in 0..32 {
        let slot = calls[i];
        if let Some(call) = slot {
            let step = call.on_second(moment);
            said[i] = step.reply;
            settle(calls, maintenance, call.channel(), step.next);
        }
    }
    said
}
