//! Octets that are no message, messages of calls that are not known, and restarts: what the exchange answers.

use crate::steps::{Messages, answers, is_same};
use bx_day::{Exchange, Outcome};
use bx_frames::End;
use bx_q931::Octets;
use bx_worked_days::exchange_of;
use std::alloc::Global;

/// What comes, by name and in octets, and what is sent for it.
type Receipt = (&'static str, &'static [u8], Messages);

static STRANGERS: [Receipt; 13] = [
    ("no type", &[0x08, 0x02, 0x80, 0x01], &[]),
    (
        "another discriminator",
        &[0x09, 0x02, 0x80, 0x01, 0x07],
        &[],
    ),
    (
        "a reference of 3 octets",
        &[0x08, 0x03, 0x80, 0x01, 0x07],
        &[],
    ),
    (
        "a torn element",
        &[0x08, 0x02, 0x80, 0x01, 0x07, 0x18, 0x09, 0xA9],
        &[],
    ),
    ("261 octets", &[0x08; 261], &[]),
    ("the dummy reference", &[0x08, 0x00, 0x01], &[]),
    ("the global reference", &[0x08, 0x02, 0x80, 0x00, 0x01], &[]),
    (
        "ALERTING",
        &[0x08, 0x02, 0x80, 0x09, 0x01],
        &[&[0x08, 0x02, 0x00, 0x09, 0x5A, 0x08, 0x02, 0x82, 0xD1]],
    ),
    (
        "STATUS ENQUIRY",
        &[0x08, 0x02, 0x80, 0x09, 0x75],
        &[&[
            0x08, 0x02, 0x00, 0x09, 0x7D, 0x08, 0x02, 0x82, 0x9E, 0x14, 0x01, 0x00,
        ]],
    ),
    (
        "STATUS",
        &[
            0x08, 0x02, 0x80, 0x09, 0x7D, 0x08, 0x02, 0x80, 0x9E, 0x14, 0x01, 0x0A,
        ],
        &[&[0x08, 0x02, 0x00, 0x09, 0x5A, 0x08, 0x02, 0x82, 0xE5]],
    ),
    (
        "STATUS that reports Null",
        &[
            0x08, 0x02, 0x80, 0x09, 0x7D, 0x08, 0x02, 0x80, 0x9E, 0x14, 0x01, 0x00,
        ],
        &[],
    ),
    (
        "SETUP with no bearer capability",
        &[0x08, 0x02, 0x00, 0x05, 0x05],
        &[&[0x08, 0x02, 0x80, 0x05, 0x5A, 0x08, 0x02, 0x82, 0xE0]],
    ),
    (
        "SETUP to a call that the exchange would have begun",
        &[0x08, 0x02, 0x80, 0x05, 0x05, 0x04, 0x02, 0x88, 0x90],
        &[],
    ),
];

/// Receives, at the opening, and answers whether just this is sent and the booking still waits.
fn is_stray(exchange: &mut Exchange, receipt: &Receipt) -> bool {
    answers(exchange, receipt.1, receipt.2) && exchange.outcome(1) == Some(Outcome::Waiting)
}

/// The first receipt that is answered otherwise, with one booking that is inward or not.
fn first_wrong(alloc: Global, is_inward: bool) -> Option<&'static str> {
    let Some(mut exchange) = exchange_of(alloc, &[(0, 60, 1, is_inward)]) else {
        return Some("no exchange");
    };
    for receipt in &STRANGERS {
        if !is_stray(&mut exchange, receipt) {
            return Some(receipt.0);
        }
    }
    None
}

#[test]
fn strangers_are_answered(rt: HostRuntime) {
    for is_inward in [false, true] {
        assert_eq!(rt; first_wrong(rt.alloc(), is_inward), None);
    }
}

/// What an end of the link sends for a RESTART, while a call is up on channel 1.
static RESTARTS: [Receipt; 3] = [
    (
        "channel 1",
        &[
            0x08, 0x02, 0x00, 0x00, 0x46, 0x18, 0x03, 0xA9, 0x83, 0x81, 0x79, 0x01, 0x80,
        ],
        &[&[
            0x08, 0x02, 0x80, 0x00, 0x4E, 0x18, 0x03, 0xA9, 0x83, 0x81, 0x79, 0x01, 0x80,
        ]],
    ),
    (
        "all interfaces",
        &[0x08, 0x02, 0x00, 0x00, 0x46, 0x79, 0x01, 0x87],
        &[&[0x08, 0x02, 0x80, 0x00, 0x4E, 0x79, 0x01, 0x87]],
    ),
    (
        "a class that is none",
        &[0x08, 0x02, 0x00, 0x00, 0x46, 0x79, 0x01, 0x81],
        &[],
    ),
];

/// Hears a restart as an end of the link, and answers whether just this is sent and the call is as it was.
fn is_acknowledged(exchange: &mut Exchange, restart: &Receipt) -> bool {
    let mut message = Octets::new();
    if message.try_extend_from_slice(restart.1).is_err() {
        return false;
    }
    let before = exchange.outcome(1);
    is_same(End::hear(exchange, &message), restart.2) && exchange.outcome(1) == before
}

#[test]
fn restarts_are_acknowledged(rt: HostRuntime) {
    let exchange = exchange_of(rt.alloc(), &[(0, 60, 1, false)]);
    assert!(rt; exchange.is_some(), "no exchange");
    if let Some(mut exchange) = exchange {
        let _setup = exchange.tick();
        let connect = [0x08, 0x02, 0x80, 0x01, 0x07];
        assert!(rt; exchange.receive(&connect).is_some(), "the call is up");
        for restart in &RESTARTS {
            assert!(rt; is_acknowledged(&mut exchange, restart), "{}", restart.0);
        }
    }
}
