//! What each count of channels would earn, as it is printed.

use crate::file_commands::{Case, first_wrong};
use crate::files::{folder, placed};
use crate::program::Answer::{Fails, Misused, Prints};
use crate::program::is_prefix_written;
use std::fs;
use std::test::Fail;

/// What 0 to 30 channels would earn with one booking that pays 7.
const ONE_BOOKING: &str =
    "0 total 0 next 7\n1 total 7 next 0\n2 total 7 next 0\n3 total 7 next 0\n4 total 7 next 0\n5 total 7 next 0\n6 total 7 next 0\n7 total 7 next 0\n8 total 7 next 0\n9 total 7 next 0\n10 total 7 next 0\n11 total 7 next 0\n12 total 7 next 0\n13 total 7 next 0\n14 total 7 next 0\n15 total 7 next 0\n16 total 7 next 0\n17 total 7 next 0\n18 total 7 next 0\n19 total 7 next 0\n20 total 7 next 0\n21 total 7 next 0\n22 total 7 next 0\n23 total 7 next 0\n24 total 7 next 0\n25 total 7 next 0\n26 total 7 next 0\n27 total 7 next 0\n28 total 7 next 0\n29 total 7 next 0\n30 total 7 next 0\n";

static CASES: [Case; 17] = [
    ("capacity --date 2026-01-05 @late.csv", Prints(ONE_BOOKING)),
    (
        "capacity --date 2026-01-05 @none.csv",
        Prints(
            "0 total 0 next 0\n1 total 0 next 0\n2 total 0 next 0\n3 total 0 next 0\n4 total 0 next 0\n5 total 0 next 0\n6 total 0 next 0\n7 total 0 next 0\n8 total 0 next 0\n9 total 0 next 0\n10 total 0 next 0\n11 total 0 next 0\n12 total 0 next 0\n13 total 0 next 0\n14 total 0 next 0\n15 total 0 next 0\n16 total 0 next 0\n17 total 0 next 0\n18 total 0 next 0\n19 total 0 next 0\n20 total 0 next 0\n21 total 0 next 0\n22 total 0 next 0\n23 total 0 next 0\n24 total 0 next 0\n25 total 0 next 0\n26 total 0 next 0\n27 total 0 next 0\n28 total 0 next 0\n29 total 0 next 0\n30 total 0 next 0\n",
        ),
    ),
    (
        "capacity --date 2026-01-05 @must.csv",
        Prints(
            "0 too few at 0\n1 too few at 5\n2 total 10 next 0\n3 total 10 next 0\n4 total 10 next 0\n5 total 10 next 0\n6 total 10 next 0\n7 total 10 next 0\n8 total 10 next 0\n9 total 10 next 0\n10 total 10 next 0\n11 total 10 next 0\n12 total 10 next 0\n13 total 10 next 0\n14 total 10 next 0\n15 total 10 next 0\n16 total 10 next 0\n17 total 10 next 0\n18 total 10 next 0\n19 total 10 next 0\n20 total 10 next 0\n21 total 10 next 0\n22 total 10 next 0\n23 total 10 next 0\n24 total 10 next 0\n25 total 10 next 0\n26 total 10 next 0\n27 total 10 next 0\n28 total 10 next 0\n29 total 10 next 0\n30 total 10 next 0\n",
        ),
    ),
    (
        "capacity --date 2026-01-05 @mixed.csv",
        Prints(
            "0 too few at 0\n1 total 4 next 6\n2 total 10 next 5\n3 total 15 next 0\n4 total 15 next 0\n5 total 15 next 0\n6 total 15 next 0\n7 total 15 next 0\n8 total 15 next 0\n9 total 15 next 0\n10 total 15 next 0\n11 total 15 next 0\n12 total 15 next 0\n13 total 15 next 0\n14 total 15 next 0\n15 total 15 next 0\n16 total 15 next 0\n17 total 15 next 0\n18 total 15 next 0\n19 total 15 next 0\n20 total 15 next 0\n21 total 15 next 0\n22 total 15 next 0\n23 total 15 next 0\n24 total 15 next 0\n25 total 15 next 0\n26 total 15 next 0\n27 total 15 next 0\n28 total 15 next 0\n29 total 15 next 0\n30 total 15 next 0\n",
        ),
    ),
    (
        "capacity --date 2026-01-05 @four.csv",
        Prints(
            "0 total 0 next 4\n1 total 4 next 4\n2 total 8 next 2\n3 total 10 next 0\n4 total 10 next 0\n5 total 10 next 0\n6 total 10 next 0\n7 total 10 next 0\n8 total 10 next 0\n9 total 10 next 0\n10 total 10 next 0\n11 total 10 next 0\n12 total 10 next 0\n13 total 10 next 0\n14 total 10 next 0\n15 total 10 next 0\n16 total 10 next 0\n17 total 10 next 0\n18 total 10 next 0\n19 total 10 next 0\n20 total 10 next 0\n21 total 10 next 0\n22 total 10 next 0\n23 total 10 next 0\n24 total 10 next 0\n25 total 10 next 0\n26 total 10 next 0\n27 total 10 next 0\n28 total 10 next 0\n29 total 10 next 0\n30 total 10 next 0\n",
        ),
    ),
    (
        "capacity --date 2026-03-29 --zone CET-1CEST,M3.5.0,M10.5.0/3 @spring.csv",
        Prints(
            "0 total 0 next 10\n1 total 10 next 0\n2 total 10 next 0\n3 total 10 next 0\n4 total 10 next 0\n5 total 10 next 0\n6 total 10 next 0\n7 total 10 next 0\n8 total 10 next 0\n9 total 10 next 0\n10 total 10 next 0\n11 total 10 next 0\n12 total 10 next 0\n13 total 10 next 0\n14 total 10 next 0\n15 total 10 next 0\n16 total 10 next 0\n17 total 10 next 0\n18 total 10 next 0\n19 total 10 next 0\n20 total 10 next 0\n21 total 10 next 0\n22 total 10 next 0\n23 total 10 next 0\n24 total 10 next 0\n25 total 10 next 0\n26 total 10 next 0\n27 total 10 next 0\n28 total 10 next 0\n29 total 10 next 0\n30 total 10 next 0\n",
        ),
    ),
    (
        "capacity --date 2026-01-05 @bad.csv",
        Fails("bx: B7 BadNumber 1\n"),
    ),
    (
        "capacity --date 2026-01-05 @empty.csv",
        Fails("bx: B1 BadHeader\n"),
    ),
    (
        "capacity --date 2026-01-06 @one.csv",
        Fails("bx: B5 OutsideDay 1\n"),
    ),
    (
        "capacity --date 2026-01-05 @missing",
        Fails("bx: F1 CannotRead @missing\n"),
    ),
    (
        "capacity --date 2026-01-05 @",
        Fails("bx: F1 CannotRead @\n"),
    ),
    (
        "capacity --date 2026-01-05 @long.csv",
        Fails("bx: F1 CannotRead @long.csv\n"),
    ),
    (
        "capacity --date 2026-02-29 @gone",
        Fails("bx: A1 BadDate\n"),
    ),
    (
        "capacity --date 2026-01-05 --zone x @gone",
        Fails("bx: A2 BadZone\n"),
    ),
    ("capacity @one.csv", Misused),
    ("capacity --date 2026-01-05", Misused),
    ("capacity --date 2026-01-05 --channels 1 @one.csv", Misused),
];

/// How many octets standard output takes.
static TAKEN: [u32; 6] = [0, 1, 17, 18, 300, 1000];

#[test]
fn what_channels_would_earn(rt: HostRuntime) -> Result<(), Fail> {
    let folder = folder(&rt)?;
    assert_eq!(rt; first_wrong(&rt, &folder, &CASES)?, None);
    let bookings = placed(rt.alloc(), "@late.csv", &folder)?;
    let words = ["capacity", "--date", "2026-01-05", bookings.as_str()];
    for taken in TAKEN {
        assert!(rt;
            is_prefix_written(&rt, &words, ONE_BOOKING, taken),
            "{taken}"
        );
    }
    fs::remove_dir_all(&rt, folder.as_str())?;
    Ok(())
}
