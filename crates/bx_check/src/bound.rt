//! The sums that the check compares.

ghost use Rattle.std.specs.Prelude.{◌≡◌, ◌≤◌, ◌<◌, ◌*◌, ◌↔◌, pos, length, map, IsTrue};
ghost use Rattle.std.specs.List.Sorted.{IsStrictlyIncreasing};
ghost use Rattle.bx_base.specs.Channels.{count_of};
ghost use Rattle.bx_base.specs.Bookings.{pay_of, IsLawful};
ghost use Rattle.bx_base.specs.Plans.{is_accepted};
ghost use Rattle.bx_base.specs.Bound.{sum_of_prices, bound_of};
ghost use Rattle.bx_base.specs.Sides.{gain_of, loss_of};
ghost use Rattle.bx_check.specs.Before.{AreSums};
ghost use Rattle.bx_base.specs.declared.booking.TheConstants.{MAX_PAY};
ghost use Rattle.bx_base.specs.declared.plan.TheConstants.{MAX_PRICES, MAX_TOTAL};

use crate::sums::{Sums, cost, sums_of};
use bx_base::{Booking, Bookings, ChannelSet, Price};
use bx_channels::Channel;

/// What the accepted rows pay together.
pub(crate) fn total_pay(bookings: &Bookings, assigned: &[Option<Channel>]) -> u64
    requires { length assigned.now ≡ length bookings.now }
    ensures { result ≡ pay_of bookings.now (is_accepted assigned.now) }
{
    let mut total = 0;
    for i in 0..bookings.len() {
        if assigned[i as usize].is_some() {
            total += bookings.nth(i).pay();
        }
    }
    total
}

/// Whether the moments of the prices rise strictly.
pub(crate) fn is_rising(prices: &[Price]) -> bool
    ensures { IsTrue result ↔ IsStrictlyIncreasing (map (λ p. p.moment) prices.now) }
{
    for i in 1..prices.len() {
        let earlier = &prices[i - 1];
        let later = &prices[i];
        if later.moment <= earlier.moment {
            return false;
        }
    }
    true
}

/// What the prices come to together: what a channel costs all day. There have to be at most 32,000 of them.
pub fn price_sum(prices: &[Price]) -> u64
    requires { length prices.now ≤ MAX_PRICES }
    ensures value { result ≡ sum_of_prices prices.now }
    ensures limit { result ≤ length prices.now * MAX_TOTAL }
{
    let mut sum = 0;
    for price in prices {
        sum += price.amount;
    }
    sum
}

/// What the row brings to the bound.
fn gain(booking: &Booking, prices: &[Price], sums: &Sums) -> u64
    requires rising { IsStrictlyIncreasing (map (λ p. p.moment) prices.now) }
    requires sums { AreSums prices.now sums.now.items }
    ensures value { result ≡ gain_of prices.now booking.now }
    ensures limit { result ≤ MAX_PAY }
{
    if booking.is_must() {
        booking.pay()
    } else {
        booking.pay().saturating_sub(cost(booking, prices, sums))
    }
}

/// What the row takes from the bound.
fn loss(booking: &Booking, prices: &[Price], sums: &Sums) -> u64
    requires rising { IsStrictlyIncreasing (map (λ p. p.moment) prices.now) }
    requires sums { AreSums prices.now sums.now.items }
    ensures { result ≡ loss_of prices.now booking.now }
{
    if booking.is_must() {
        cost(booking, prices, sums)
    } else {
        0
    }
}

/// The bound that the prices set for each lawful set, the dual objective. Where some set is lawful, all that is lost is at most
/// what the channels cost, so no sum leaves its type: 30 channels cost at most 15,360,000,000,000,000,000 at 32,000 prices.
pub(crate) fn bound(
    bookings: &Bookings,
    channels: ChannelSet,
    assigned: &[Option<Channel>],
    prices: &[Price],
) -> u64
    requires few { length prices.now ≤ MAX_PRICES }
    requires rising { IsStrictlyIncreasing (map (λ p. p.moment) prices.now) }
    requires lawful { IsLawful bookings.now channels (is_accepted assigned.now) }
    ensures value { pos result ≡ bound_of bookings.now (count_of channels) prices.now }
    ensures limit { result < 16000000000000000000 }
{
    let mut gained = u64::from(channels.count()) * price_sum(prices);
    let mut lost = 0;
    let sums = sums_of(prices);
    for i in 0..bookings.len() {
        let booking = bookings.nth(i);
        gained += gain(&booking, prices, &sums);
        lost += loss(&booking, prices, &sums);
    }
    gained - lost
}
