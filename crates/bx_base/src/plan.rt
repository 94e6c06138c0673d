//! A plan: which bookings are accepted, on which channels, and the prices that are to prove it best.

ghost use Rattle.std.specs.Prelude.{◌≡◌, ◌≤◌, ◌<◌, ◌-◌, ◌+◌, ℕ, ◌↔◌, IfNone, length, vec_len, IsTrue, IsSome, IfSome};
ghost use Rattle.bx_base.specs.Bookings.{Carries};
ghost use Rattle.bx_base.specs.Plans.{is_accepted, channel_at, IsOutOfService, AreApartBefore, AreClashing, Clash};
ghost use Rattle.bx_base.specs.declared.plan.TheConstants.{MAX_PRICES, MAX_TOTAL};

use crate::bookings::Bookings;
use crate::channel_set::ChannelSet;
use crate::price::Price;
use bx_channels::Channel;

/// The most prices that a plan may have.
pub const MAX_PRICES: usize = 32000;

/// The greatest total of a plan.
pub const MAX_TOTAL: u64 = 16_000_000_000_000;

/// Bookings, the channel of each accepted one, and the prices that are to prove that no choice pays more. The
/// booking at a place of the list is accepted where the same place of `assigned` has a channel.
#[derive(Drop)]
pub struct Plan {
    pub bookings: Bookings,
    pub channels: ChannelSet,
    pub assigned: Vec<Option<Channel>>,
    pub prices: Vec<Price>,
    pub total: u64,
    ghost one_each: { vec_len assigned ≡ length bookings },
    ghost few_prices: { vec_len prices ≤ MAX_PRICES },
    ghost total_limit: { total ≤ MAX_TOTAL },
}

impl Plan {
    ghost use Rattle.bx_base.specs.PlanParts.{IsMadeOf};

    /// The plan of these parts. None where there is not one entry for each booking, or are more than 32,000
    /// prices, or the total is above 16,000,000,000,000; the parts are then dropped.
    pub fn new(
        bookings: Bookings,
        channels: ChannelSet,
        assigned: Vec<Option<Channel>>,
        prices: Vec<Price>,
        total: u64,
    ) -> Option<Plan>
        ensures exactly { IsSome result ↔ ((vec_len assigned ≡ length bookings) × (vec_len prices ≤ MAX_PRICES) × (total ≤ MAX_TOTAL)) }
        ensures parts { IfSome result (IsMadeOf bookings channels assigned prices total) }
    {
        if assigned.len() != bookings.len() as usize
            || prices.len() > MAX_PRICES
            || total > MAX_TOTAL
        {
            return None;
        }
        Some(Plan {
            bookings,
            channels,
            assigned,
            prices,
            total,
        })
    }

    /// The first accepted row whose channel is not in service, where rows are named 1, 2, ..
    pub fn first_out_of_service(&self) -> Option<u16>
        ensures some { IfSome result (λ b. (1 ≤ b) × (b ≤ length self.now.bookings) × IsOutOfService self.now.assigned.items self.now.channels (b - 1)) }
        ensures least { IfSome result (λ b. (i : ℕ) → i < b - 1 → ¬ IsOutOfService self.now.assigned.items self.now.channels i) }
        ensures none { IfNone result ((i : ℕ) → i < length self.now.bookings → ¬ IsOutOfService self.now.assigned.items self.now.channels i) }
    {
        for i in 0..self.bookings.len() {
            if let Some(channel) = self.assigned[i as usize] {
                if !self.channels.has(channel) {
                    return Some(i + 1);
                }
            }
        }
        None
    }

    /// The place of the first booking after this place that overlaps the one there on its channel.
    fn first_overlap_with(&self, row: u16) -> Option<u16>
        requires { row < length self.now.bookings }
        ensures some { IfSome result (λ j. (row < j) × (j < length self.now.bookings) × Clash self.now.bookings self.now.assigned.items row j) }
        ensures least { IfSome result (λ j. (k : ℕ) → row < k → k < j → ¬ Clash self.now.bookings self.now.assigned.items row k) }
        ensures none { IfNone result ((k : ℕ) → row < k → k < length self.now.bookings → ¬ Clash self.now.bookings self.now.assigned.items row k) }
    {
        let Some(channel) = self.assigned[row as usize] else {
            return None;
        };
        let booking = self.bookings.nth(row);
        let rows = self.bookings.len();
        for k in row + 1..rows {
            if self.assigned[k as usize] == Some(channel)
                && booking.overlaps(&self.bookings.nth(k))
            {
                return Some(k);
            }
        }
        None
    }

    /// The first two rows that overlap on one channel: the least first row, and for it the least second.
    /// Compares each two accepted rows at most.
    pub fn first_overlap(&self) -> Option<(u16, u16)>
        ensures some { IfSome result (AreClashing self.now.bookings self.now.assigned.items) }
        ensures least_first { IfSome result (λ p. AreApartBefore self.now.bookings self.now.assigned.items (p.0 - 1)) }
        ensures least_second { IfSome result (λ p. (k : ℕ) → p.0 - 1 < k → k < p.1 - 1 → ¬ Clash self.now.bookings self.now.assigned.items (p.0 - 1) k) }
        ensures none { IfNone result ((i k : ℕ) → i < k → k < length self.now.bookings → ¬ Clash self.now.bookings self.now.assigned.items i k) }
    {
        for i in 0..self.bookings.len() {
            if let Some(k) = self.first_overlap_with(i) {
                return Some((i + 1, k + 1));
            }
        }
        None
    }

    /// Whether the assignment carries the accepted bookings: each has a channel in service, and no two that
    /// overlap have the same. It is then a colouring of their intervals with the channels as colours.
    pub fn carried(&self) -> bool
        ensures { IsTrue result ↔ Carries self.now.bookings self.now.channels (is_accepted self.now.assigned.items) (channel_at self.now.assigned.items) }
    {
        self.first_out_of_service().is_none() && self.first_overlap().is_none()
    }
}
