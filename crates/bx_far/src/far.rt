//! The far end during its day.

ghost use Rattle.std.specs.Prelude.{◌≡◌, ◌≤◌, option_map};
ghost use Rattle.bx_calls.specs.States.{user_state};
ghost use Rattle.bx_channels.specs.Marks.{is_marked};
ghost use Rattle.bx_far.specs.FarDay.{is_taken, holder, far_opening};

use crate::script::Script;
use bx_base::ChannelSet;
use bx_calls::{CallState, UserCall};
use bx_channels::Channel;
use bx_events::LAST_MOMENT;
use std::marker::Model;

/// The far end during its day: the moment in seconds from the day's start, its live calls, and the channels
/// in maintenance.
#[derive(Drop)]
pub struct Far {
    pub(crate) script: Script,
    pub(crate) moment: u32,
    /// By the number of their channel.
    pub(crate) calls: [Option<UserCall>; 32],
    pub(crate) maintenance: ChannelSet,
    /// The reference of the next call that it begins.
    pub(crate) next: u16,
}

impl Model for Far {
    ghost use Rattle.bx_far.specs.FarDay.{FarDay};
    ghost use Rattle.bx_far.specs.Seats.{live_calls, IsFar};

    ghost Value = { FarDay };

    ghost view = { λ x. record { script = x.script; moment = x.moment; calls = live_calls x.calls; maintenance = x.maintenance; next = x.next } };

    ghost invariant = { λ x. IsFar x.script x.moment x.next x.calls };
}

impl Far {
    /// The far end at the opening of its day: moment 0, no call, nothing in maintenance. It takes over the
    /// script, and takes no memory.
    pub fn new(script: Script) -> Far
        ensures { result ≡ far_opening script }
    {
        // Read for the prover alone, which learns a limit from it.
        let _rows = script.count();
        Far {
            script,
            moment: 0,
            calls: [None; 32],
            maintenance: ChannelSet::empty(),
            next: 1,
        }
    }

    /// The moment: how many ticks there were, 0 to 300,000.
    pub fn moment(&self) -> u32
        ensures value { result ≡ self.now.moment }
        ensures limit { result ≤ LAST_MOMENT }
    {
        self.moment
    }

    /// The live call that holds the channel, by its reference without the flag, and its state.
    pub fn on_channel(&self, channel: Channel) -> Option<(u16, CallState)>
        ensures { result ≡ option_map (λ call. (call.reference, user_state call.state)) (holder self.now channel) }
    {
        let slot = self.calls[channel.number() as usize];
        match slot {
            Some(call) => Some((call.reference(), call.state())),
            None => None,
        }
    }

    /// Whether the channel is in maintenance: a call on it was given up without an answer to its release.
    pub fn in_maintenance(&self, channel: Channel) -> bool
        ensures { result ≡ is_marked self.now.maintenance channel }
    {
        self.maintenance.has(channel)
    }

    /// Whether the channel is held by a live call, or in maintenance.
    pub(crate) fn is_taken(&self, channel: Channel) -> bool
        ensures { result ≡ is_taken self.now channel }
    {
        self.calls[channel.number() as usize].is_some() || self.maintenance.has(channel)
    }
}
