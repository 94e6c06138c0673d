//! Octets that are no message, with the first fault of each.

use bx_q931::{MessageFault, read};
use std::test::Fail;

/// Octets with their first fault, as it is printed.
static FAULTS: [(&[u8], MessageFault, &str); 9] = [
    (&[], MessageFault::TooShort, "M1 TooShort"),
    (&[0x08], MessageFault::TooShort, "M1 TooShort"),
    (
        &[0x08, 0x02, 0x80, 0x01],
        MessageFault::TooShort,
        "M1 TooShort",
    ),
    (&[0x09], MessageFault::NotQ931, "M2 NotQ931"),
    (
        &[0x09, 0x02, 0x80, 0x01, 0x07],
        MessageFault::NotQ931,
        "M2 NotQ931",
    ),
    (
        &[0x08, 0x03, 0x80, 0x01, 0x07],
        MessageFault::BadCallReference,
        "M3 BadCallReference",
    ),
    (
        &[0x08, 0x10],
        MessageFault::BadCallReference,
        "M3 BadCallReference",
    ),
    (
        &[0x08, 0x02, 0x80, 0x01, 0x07, 0x18, 0x09, 0xA9],
        MessageFault::TornElement,
        "M4 TornElement",
    ),
    (&[0x09; 261], MessageFault::TooLong, "M5 TooLong"),
];

#[test]
fn faults_come_in_order(rt: HostRuntime) -> Result<(), Fail> {
    for (octets, fault, printed) in &FAULTS {
        assert!(rt; read(octets).err() == Some(*fault), "{printed}");
        let words = fault.to_string(rt.alloc())?;
        assert_eq!(rt; words.as_str(), *printed);
    }
    Ok(())
}
