//! What `bx_worked_days` opens and compares, where no other test would tell it from something else.

use bx_cases::messages::{SETUP, SETUP_CHANNEL_2, SETUP_REFERENCE_2};
use bx_worked_days::{Row, are_same, exchange_of_numbers};
use std::alloc::Global;

static ROWS: [Row; 2] = [(0, 60, 2, false), (0, 60, 1, false)];

/// SETUP on channel 2 to the number 1.
const SETUP_CHANNEL_2_TO_1: &[u8] = &[
    0x08, 0x02, 0x00, 0x01, 0x05, 0xA1, 0x04, 0x02, 0x88, 0x90, 0x18, 0x03, 0xA9, 0x83, 0x82, 0x70,
    0x02, 0x81, 0x31,
];

/// Messages, and whether the first second of a day sends just these, whose bookings are to 1 and to 1234.
static COMPARED: [(&[&[u8]], bool); 8] = [
    (&[SETUP_REFERENCE_2, SETUP_CHANNEL_2_TO_1], true),
    (&[SETUP_REFERENCE_2, SETUP_CHANNEL_2], false),
    (&[SETUP_CHANNEL_2_TO_1, SETUP_REFERENCE_2], false),
    (&[SETUP, SETUP_CHANNEL_2_TO_1], false),
    (&[SETUP_REFERENCE_2, &[0x08, 0x02]], false),
    (&[SETUP_REFERENCE_2], false),
    (
        &[
            SETUP_REFERENCE_2,
            SETUP_CHANNEL_2_TO_1,
            SETUP_CHANNEL_2_TO_1,
        ],
        false,
    ),
    (&[], false),
];

/// How many of the first lists of messages are told to be the same or not, as they should be.
fn compared(alloc: Global) -> Option<usize> {
    let mut exchange = exchange_of_numbers(alloc, &ROWS, &[b"1"])?;
    let sent = exchange.tick();
    for (index, (messages, is_sent)) in COMPARED.iter().enumerate() {
        if are_same(sent.as_slice(), messages) != *is_sent {
            return Some(index);
        }
    }
    Some(COMPARED.len())
}

#[test]
fn numbers_and_messages(rt: HostRuntime) {
    assert_eq!(rt; compared(rt.alloc()), Some(COMPARED.len()));
}
