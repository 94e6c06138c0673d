//! Texts that are no bookings, with the first fault of each.

use crate::printed_faults::is_printed;
use bx_book::read_bookings;
use bx_calendar::Day;
use std::alloc::Global;
use std::test::Fail;

/// Texts with their first fault, as it is printed.
static FAULTS: [(&str, &str); 11] = [
    ("", "B1 BadHeader"),
    ("start,end,number\n", "B1 BadHeader"),
    (
        "start,end,number,pay\n2026-01-05T00:00:00Z,2026-01-05T00:01:00Z,1234\n",
        "B2 WrongColumns 1",
    ),
    (
        "start,end,number,pay\n2026-01-05 00:00:00Z,2026-01-05T00:01:00Z,1234,5\n",
        "B3 NotATime 1",
    ),
    (
        "start,end,number,pay\n2026-01-05T00:00:00.5Z,2026-01-05T00:01:00Z,1234,5\n",
        "B4 NotWholeSeconds 1",
    ),
    (
        "start,end,number,pay\n2026-01-05T00:00:00Z,2026-01-06T00:00:01Z,1234,5\n",
        "B5 OutsideDay 1",
    ),
    (
        "start,end,number,pay\n2026-01-05T00:01:00Z,2026-01-05T00:01:00Z,1234,5\n",
        "B6 EndNotAfterStart 1",
    ),
    (
        "start,end,number,pay\n2026-01-05T00:00:00Z,2026-01-05T00:01:00Z,12a,5\n",
        "B7 BadNumber 1",
    ),
    (
        "start,end,number,pay\n2026-01-05T00:00:00Z,2026-01-05T00:01:00Z,1234,1000000001\n",
        "B8 BadPay 1",
    ),
    (
        "start,end,number,pay,must\n2026-01-05T00:00:00Z,2026-01-05T00:01:00Z,1234,5,no\n2026-01-05T00:00:00Z,2026-01-05T00:01:00Z,1234,5,maybe\n",
        "B10 BadMust 2",
    ),
    (
        "start,end,number,pay,must,direction\n2026-01-05T00:00:00Z,2026-01-05T00:01:00Z,1234,5,yes,up\n",
        "B11 BadDirection 1",
    ),
];

/// Whether the text is refused with this fault.
pub(crate) fn is_refused(alloc: Global, text: &[u8], day: &Day, printed: &str) -> bool {
    match read_bookings(alloc, text, day) {
        Ok(_) => false,
        Err(fault) => is_printed(alloc, &fault, printed),
    }
}

#[test]
fn faults_of_a_text(rt: HostRuntime) -> Result<(), Fail> {
    let day = Day::new("2026-01-05", "UTC0")?;
    for (text, printed) in &FAULTS {
        assert!(rt;
            is_refused(rt.alloc(), text.as_bytes(), &day, printed),
            "{printed}"
        );
    }
    Ok(())
}
