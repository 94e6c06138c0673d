//! The commands that answer for what a plan refuses, with what they print.

use crate::file_commands::{Case, first_wrong};
use crate::files::{folder, placed};
use crate::program::Answer::{Fails, Misused, Prints};
use crate::program::is_prefix_written;
use std::fs;
use std::test::Fail;

static EXPLAINED: [Case; 14] = [
    (
        "explain @four.txt",
        Prints("2 pays 2 of 2\nrefused 1 of 4\n"),
    ),
    (
        "explain @trade.txt",
        Prints("2 pays 4 of 4\n3 pays 5 of 5\nrefused 2 of 3\n"),
    ),
    ("explain @none.txt", Prints("refused 0 of 0\n")),
    (
        "explain @four.txt 2",
        Prints("row 2 pays 2\nits seconds cost 2\ntaken above 3\ninstead of 1\nbesides none\n"),
    ),
    (
        "explain @trade.txt 2",
        Prints("row 2 pays 4\nits seconds cost 4\ntaken above 5\ninstead of 1\nbesides 3\n"),
    ),
    (
        "explain @must.txt",
        Prints("2 pays 7 of 7\nrefused 1 of 2\n"),
    ),
    ("explain @must.txt 2", Fails("bx: Q1 NoChannel 30\n")),
    ("explain @four.txt 0", Fails("bx: Q2 NoSuchRow\n")),
    ("explain @four.txt 5", Fails("bx: Q2 NoSuchRow\n")),
    ("explain @four.txt 4", Fails("bx: Q3 Accepted 4\n")),
    ("explain @unproved.txt", Fails("bx: C7 NotProved 5\n")),
    ("explain @gone 1", Fails("bx: F1 CannotRead @gone\n")),
    ("explain @four.txt x", Misused),
    ("explain", Misused),
];

static QUOTED: [Case; 22] = [
    (
        "quote @four.txt 10 20",
        Prints("its seconds cost 0\ntaken above 1\ninstead of 4\nbesides none\n"),
    ),
    (
        "quote @four.txt 2026-01-05T00:00:10Z 2026-01-05T01:00:20.0+01:00 --date 2026-01-05",
        Prints("its seconds cost 0\ntaken above 1\ninstead of 4\nbesides none\n"),
    ),
    (
        "quote @four.txt 2026-01-04T23:00:10Z 2026-01-04T23:00:20Z --zone CET-1CEST,M3.5.0,M10.5.0/3 --date 2026-01-05",
        Prints("its seconds cost 0\ntaken above 1\ninstead of 4\nbesides none\n"),
    ),
    (
        "quote --inward @trade.txt 10 20",
        Prints("its seconds cost 0\ntaken above 1\ninstead of 1\nbesides 2 3\n"),
    ),
    (
        "quote @four.txt 20 200000",
        Prints("its seconds cost 0\ntaken above 0\ninstead of none\nbesides none\n"),
    ),
    (
        "quote @trade.txt 0 30",
        Prints("its seconds cost 9\ntaken above 10\ninstead of 1\nbesides none\n"),
    ),
    ("quote @must.txt 59 90", Fails("bx: Q1 NoChannel 59\n")),
    ("quote @unproved.txt 0 10", Fails("bx: C7 NotProved 5\n")),
    ("quote @short.txt 0 10", Fails("bx: P1 BadLine 3\n")),
    ("quote @gone 0 10", Fails("bx: F1 CannotRead @gone\n")),
    ("quote @gone 00 10", Fails("bx: B3 NotATime 1\n")),
    ("quote @gone 0 1x", Fails("bx: B3 NotATime 1\n")),
    ("quote @gone 10 200001", Fails("bx: B5 OutsideDay 1\n")),
    (
        "quote @gone 10 99999999999999999999",
        Fails("bx: B5 OutsideDay 1\n"),
    ),
    ("quote @gone 10 10", Fails("bx: B6 EndNotAfterStart 1\n")),
    (
        "quote @gone 10 20 --date 2026-01-05",
        Fails("bx: B3 NotATime 1\n"),
    ),
    (
        "quote @gone 2026-01-05T00:00:10.5Z 2026-01-05T00:00:20Z --date 2026-01-05",
        Fails("bx: B4 NotWholeSeconds 1\n"),
    ),
    (
        "quote @gone 2026-01-04T23:59:59Z 2026-01-05T00:00:20Z --date 2026-01-05",
        Fails("bx: B5 OutsideDay 1\n"),
    ),
    (
        "quote @gone x x --date 2026-02-29",
        Fails("bx: A1 BadDate\n"),
    ),
    ("quote @four.txt 10 20 --zone UTC0", Misused),
    ("quote @four.txt 10", Misused),
    ("quote @four.txt 10 20 30", Misused),
];

/// What is written of a row, whole.
static TEXT: &str = "row 2 pays 4\nits seconds cost 4\ntaken above 5\ninstead of 1\nbesides 3\n";

#[test]
fn answers_for_what_is_refused(rt: HostRuntime) -> Result<(), Fail> {
    let folder = folder(&rt)?;
    assert_eq!(rt; first_wrong(&rt, &folder, &EXPLAINED)?, None);
    assert_eq!(rt; first_wrong(&rt, &folder, &QUOTED)?, None);
    let plan = placed(rt.alloc(), "@trade.txt", &folder)?;
    let words = ["explain", plan.as_str(), "2"];
    for taken in 0..70u32 {
        assert!(rt; is_prefix_written(&rt, &words, TEXT, taken), "{taken}");
    }
    fs::remove_dir_all(&rt, folder.as_str())?;
    Ok(())
}
