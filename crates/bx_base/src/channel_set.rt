//! Sets of B channels.

ghost use Rattle.std.specs.Prelude.{◌≡◌, ◌≢◌, ◌↔◌, ◌≤◌, ◌<◌, IsTrue, ℕ, Bool, true, false, replicate, slice_set, IfOk, IfErr, IfSome, IfNone};
ghost use Rattle.bx_base.specs.Channels.{IsChannelSet, AreChannels, HasJust, has_channel, count_of};
ghost use Rattle.bx_base.specs.ChannelFaults.{IsFirstChannelFault};

use bx_channels::Channel;
use std::marker::Model;
use thiserror::Error;

/// Channels in service, or any other set of B channels.
#[derive(Clone, Copy, Debug, PartialEq, Eq)]
pub struct ChannelSet {
    members: [bool; 32],
}

impl Model for ChannelSet {
    ghost use Rattle.std.specs.Prelude.{Bool, List};
    ghost use Rattle.bx_base.specs.Channels.{IsChannelSet};

    ghost Value = { List Bool };

    ghost view = { λ s. s.members };

    ghost invariant = { λ s. IsChannelSet s.members };

    ghost inverse = { λ xs. record { members = xs } };
}

/// Why numbers do not name a set of channels: the first that is none, or that stood before.
#[derive(Clone, Copy, Debug, PartialEq, Eq, Error)]
pub enum ChannelFault {
    /// This number names no B channel.
    #[error("N1 NotABChannel {0}")]
    NotABChannel(u8),
    /// This number stands before it too.
    #[error("N2 Repeated {0}")]
    Repeated(u8),
}

impl ChannelSet {
    /// No channel at all.
    pub fn empty() -> ChannelSet
        ensures { result ≡ replicate 32 false }
    {
        ChannelSet {
            members: [false; 32],
        }
    }

    /// The set of the channels with these numbers. The fault is the first in their order: `NotABChannel` for a number that is
    /// none, `Repeated` for one that stood before.
    pub fn from_numbers(numbers: &[u8]) -> Result<ChannelSet, ChannelFault>
        ensures channels { IfOk result (λ set. AreChannels numbers.now × HasJust set numbers.now) }
        ensures fault { IfErr result (IsFirstChannelFault numbers.now) }
    {
        let mut set = ChannelSet::empty();
        for number in numbers {
            let Some(channel) = Channel::new(*number) else {
                return Err(ChannelFault::NotABChannel(*number));
            };
            if set.has(channel) {
                return Err(ChannelFault::Repeated(*number));
            }
            set = set.with(channel);
        }
        Ok(set)
    }

    /// How many channels there are: 0 to 30.
    pub fn count(&self) -> u8
        ensures value { result ≡ count_of self.now }
        ensures limit { result ≤ 30 }
        ensures set { IsChannelSet self.now }
    {
        let mut count = 0;
        for n in 0..32 {
            if self.members[n] {
                count += 1;
            }
        }
        count
    }

    /// Whether the channel is one of them.
    pub fn has(&self, channel: Channel) -> bool
        ensures { result ≡ has_channel self.now channel }
    {
        let slot = channel.number() as usize;
        self.members[slot]
    }

    /// The set with this channel too.
    pub fn with(mut self, channel: Channel) -> ChannelSet
        ensures value { result ≡ slice_set self channel true }
        ensures added { has_channel result channel ≡ true }
        ensures others { (n : ℕ) → n ≢ channel → has_channel result n ≡ has_channel self n }
    {
        self.members[channel.number() as usize] = true;
        self
    }

    /// The set without this channel.
    pub fn without(mut self, channel: Channel) -> ChannelSet
        ensures value { result ≡ slice_set self channel false }
        ensures removed { has_channel result channel ≡ false }
        ensures others { (n : ℕ) → n ≢ channel → has_channel result n ≡ has_channel self n }
    {
        self.members[channel.number() as usize] = false;
        self
    }

    /// The lowest channel that is not taken.
    pub fn lowest_free(&self, taken: ChannelSet) -> Option<Channel>
        ensures free { IfSome result (λ c. (has_channel self.now c ≡ true) × (has_channel taken c ≡ false)) }
        ensures lowest { IfSome result (λ c. (n : ℕ) → n < c → has_channel self.now n ≡ true → has_channel taken n ≡ true) }
        ensures none { IfNone result ((n : ℕ) → has_channel self.now n ≡ true → has_channel taken n ≡ true) }
    {
        for n in 1..32 {
            if self.members[n as usize] && !taken.members[n as usize] {
                return Channel::new(n);
            }
        }
        None
    }

    /// Whether both have the same channels.
    pub fn same(&self, other: &ChannelSet) -> bool
        ensures { IsTrue result ↔ (self.now ≡ other.now) }
    {
        self.members == other.members
    }
}
