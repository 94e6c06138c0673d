//! Messages of calls that are not known, and refusals.

use crate::steps::says;
use bx_calls::{Side, refuse, unknown};
use bx_cases::messages::FAR_STATUS_BARE;
use bx_q931::{cause, encode, read};

/// What comes, the end that it comes to, its octets, and what is answered.
type Receipt = (&'static str, Side, &'static [u8], &'static [u8]);

static RECEIPTS: [Receipt; 9] = [
    (
        "ALERTING to the exchange",
        Side::Network,
        &[0x08, 0x02, 0x80, 0x09, 0x01],
        &[0x08, 0x02, 0x00, 0x09, 0x5A, 0x08, 0x02, 0x82, 0xD1],
    ),
    (
        "an unknown type to the far end",
        Side::User,
        &[0x08, 0x02, 0x00, 0x09, 0x6F],
        &[0x08, 0x02, 0x80, 0x09, 0x5A, 0x08, 0x02, 0x80, 0xD1],
    ),
    (
        "STATUS ENQUIRY",
        Side::Network,
        &[0x08, 0x02, 0x80, 0x09, 0x75],
        &[
            0x08, 0x02, 0x00, 0x09, 0x7D, 0x08, 0x02, 0x82, 0x9E, 0x14, 0x01, 0x00,
        ],
    ),
    (
        "STATUS",
        Side::Network,
        &[
            0x08, 0x02, 0x80, 0x09, 0x7D, 0x08, 0x02, 0x80, 0x9E, 0x14, 0x01, 0x0A,
        ],
        &[0x08, 0x02, 0x00, 0x09, 0x5A, 0x08, 0x02, 0x82, 0xE5],
    ),
    (
        "STATUS that reports Null",
        Side::Network,
        &[
            0x08, 0x02, 0x80, 0x09, 0x7D, 0x08, 0x02, 0x80, 0x9E, 0x14, 0x01, 0x00,
        ],
        &[],
    ),
    (
        "STATUS without a state",
        Side::Network,
        FAR_STATUS_BARE,
        &[],
    ),
    ("SETUP", Side::Network, &[0x08, 0x02, 0x80, 0x05, 0x05], &[]),
    (
        "the global reference",
        Side::Network,
        &[0x08, 0x02, 0x80, 0x00, 0x75],
        &[],
    ),
    (
        "the dummy reference",
        Side::Network,
        &[0x08, 0x00, 0x75],
        &[],
    ),
];

fn is_answered(receipt: &Receipt) -> bool {
    match read(receipt.2) {
        Ok(message) => says(unknown(receipt.1, &message), receipt.3),
        Err(_) => false,
    }
}

#[test]
fn unknown_references_are_answered(rt: HostRuntime) {
    for receipt in &RECEIPTS {
        assert!(rt; is_answered(receipt), "{}", receipt.0);
    }
    let refusal = refuse(Side::Network, 5, cause::MANDATORY_ELEMENT_MISSING);
    assert_eq!(rt;
        encode(&refusal).as_slice(),
        [0x08, 0x02, 0x80, 0x05, 0x5A, 0x08, 0x02, 0x82, 0xE0].as_slice()
    );
}
