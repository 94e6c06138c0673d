//! What a booking costs, by the sums of the prefixes of the price list.

ghost use Rattle.std.specs.Prelude.{◌≡◌, ◌≤◌, ◌<◌, ℕ, length, map};
ghost use Rattle.std.specs.List.Sorted.{IsStrictlyIncreasing};
ghost use Rattle.bx_base.specs.Bound.{cost_of, price_at};
ghost use Rattle.bx_check.specs.Before.{AreSums};

use arrayvec::ArrayVec;
use bx_base::{Booking, MAX_PRICES, Price};

/// How many prefixes the longest list of prices has.
const MAX_PREFIXES: usize = MAX_PRICES + 1;

/// What the first 0, 1, .. prices of a list come to. It stands on the stack, 0.3 MB of it, since a check takes no memory.
pub type Sums = ArrayVec<u64, MAX_PREFIXES>;

/// The sums of the prefixes of the list. There have to be at most 32,000 prices.
pub fn sums_of(prices: &[Price]) -> Sums
    requires { length prices.now ≤ MAX_PRICES }
    ensures { AreSums prices.now result.items }
{
    let mut sums = ArrayVec::new();
    let mut sum = 0;
    sums.push(sum);
    for price in prices {
        sum += price.amount;
        sums.push(sum);
    }
    sums
}

/// How many prices stand before a moment, by halving.
fn count_before(prices: &[Price], moment: u32) -> usize
    requires { IsStrictlyIncreasing (map (λ p. p.moment) prices.now) }
    ensures limit { result ≤ length prices.now }
    ensures before { (k : ℕ) → k < result → (price_at prices.now k).moment < moment }
    ensures following { (k : ℕ) → result ≤ k → k < length prices.now → moment ≤ (price_at prices.now k).moment }
{
    let mut low = 0;
    let mut high = prices.len();
    while low < high {
        let middle = low + (high - low) / 2;
        let price = &prices[middle];
        if price.moment < moment {
            low = middle + 1;
        } else {
            high = middle;
        }
    }
    low
}

/// What the booking costs at these prices, whose moments rise strictly, and of whose list these are the sums of the prefixes. Two
/// searches by halving.
pub fn cost(booking: &Booking, prices: &[Price], sums: &Sums) -> u64
    requires rising { IsStrictlyIncreasing (map (λ p. p.moment) prices.now) }
    requires sums { AreSums prices.now sums.now.items }
    ensures { result ≡ cost_of prices.now booking.now }
{
    let end = count_before(prices, booking.end());
    let start = count_before(prices, booking.start());
    sums[end] - sums[start]
}
