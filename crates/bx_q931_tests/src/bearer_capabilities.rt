//! Bearer capabilities that are taken, and the cause by which others are refused.

use bx_calls::bearer_fault;
use bx_cases::messages::SETUP;
use bx_q931::{cause, read};

const MISSING: Option<u8> = Some(cause::MANDATORY_ELEMENT_MISSING);

const OTHER: Option<u8> = Some(cause::INCOMPATIBLE_DESTINATION);

/// Which bearer capability a SETUP has, its octets, and the cause by which it is refused.
static SETUPS: [(&str, &[u8], Option<u8>); 5] = [
    ("64 kbit/s", SETUP, None),
    ("none", &[0x08, 0x02, 0x00, 0x05, 0x05], MISSING),
    (
        "an empty one",
        &[0x08, 0x02, 0x00, 0x05, 0x05, 0x04, 0x00],
        OTHER,
    ),
    (
        "one octet",
        &[0x08, 0x02, 0x00, 0x05, 0x05, 0x04, 0x01, 0x88],
        OTHER,
    ),
    (
        "speech",
        &[0x08, 0x02, 0x00, 0x05, 0x05, 0x04, 0x02, 0x80, 0x90],
        OTHER,
    ),
];

fn is_refused_by(setup: &[u8], fault: Option<u8>) -> bool {
    match read(setup) {
        Ok(message) => bearer_fault(&message) == fault,
        Err(_) => false,
    }
}

#[test]
fn bearers_are_told_apart(rt: HostRuntime) {
    for (name, setup, fault) in &SETUPS {
        assert!(rt; is_refused_by(setup, *fault), "{name}");
    }
}
