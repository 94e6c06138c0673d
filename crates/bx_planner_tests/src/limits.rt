//! Which values there are of channels, numbers, bookings and prices.

use crate::rows::booking_of;
use bx_base::Price;
use bx_channels::{Channel, Number};

/// Digits, and whether they are a number.
static NUMBERS: [(&[u8], bool); 5] = [
    (b"", false),
    (b"1", true),
    (b"012345678901234", true),
    (b"0123456789012345", false),
    (b"12a", false),
];

/// A start, an end and a pay, and whether they are a booking's.
static BOOKINGS: [(u32, u32, u64, bool); 6] = [
    (0, 1, 1, true),
    (0, 0, 1, false),
    (199999, 200000, 1000000000, true),
    (199999, 200001, 1, false),
    (0, 1, 0, false),
    (0, 1, 1000000001, false),
];

/// A moment and an amount, and whether they are a price.
static PRICES: [(u32, u64, bool); 4] = [
    (199999, 16000000000000, true),
    (200000, 1, false),
    (0, 0, false),
    (0, 16000000000001, false),
];

#[test]
fn channels_and_their_limits(rt: HostRuntime) {
    for n in 0..=255u8 {
        let expected = n >= 1 && n <= 31 && n != 16;
        assert!(rt; Channel::new(n).is_some() == expected, "channel {n}");
    }
}

#[test]
fn numbers_and_their_limits(rt: HostRuntime) {
    for (digits, expected) in NUMBERS {
        assert!(rt; Number::new(digits).is_some() == expected, "{digits:?}");
    }
}

#[test]
fn bookings_and_their_limits(rt: HostRuntime) {
    for (start, end, pay, expected) in BOOKINGS {
        assert!(rt;
            booking_of(&(start, end, pay, false)).is_some() == expected,
            "{start} {end} {pay}"
        );
    }
}

#[test]
fn prices_and_their_limits(rt: HostRuntime) {
    for (moment, amount, expected) in PRICES {
        assert!(rt;
            Price::new(moment, amount).is_some() == expected,
            "{moment} {amount}"
        );
    }
}
