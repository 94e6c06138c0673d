//! Far ends by the clock, through the program's words: why one does not begin, and days whose seconds have all gone by.

use crate::file_commands::{Case, first_wrong};
use crate::files::folder;
use crate::program::Answer::{Fails, Prints};
use std::fs;
use std::test::Fail;

static DAYS: [Case; 9] = [
    (
        "far @answer.csv --line 19805:19806 --date 2020-01-01 --turns 60",
        Prints("ended at 60\n"),
    ),
    (
        "far @answer.csv --line 19805:19806 --date 2020-01-01",
        Prints("ended at 90038\n"),
    ),
    (
        "far @answer.csv --line 19805:19806 --date 2020-01-01 --turns 5 --pace 9 --capture @far.pcap",
        Prints("ended at 5\n"),
    ),
    (
        "far @gone --line 19805:19806 --date 2020-01-01",
        Fails("bx: F1 CannotRead @gone\n"),
    ),
    (
        "far @dance.csv --line 19805:19806 --date 2020-01-01",
        Fails("bx: S3 BadEntry 1\n"),
    ),
    (
        "far @answer.csv --line 19805:19806 --date 2020-01-01 --capture @gone/far.pcap",
        Fails("bx: F5 CannotWrite @gone/far.pcap\n"),
    ),
    (
        "far @gone --line 19805:19806 --date 2020-01-01 --capture @",
        Fails("bx: F1 CannotRead @gone\n"),
    ),
    (
        "far @gone --line 19805:19806 --date 2026-02-30",
        Fails("bx: A1 BadDate\n"),
    ),
    (
        "far @gone --line 19805:19806 --date 1969-12-31",
        Fails("bx: A5 BeyondCapture\n"),
    ),
];

#[test]
fn far_ends_by_the_clock(rt: HostRuntime) -> Result<(), Fail> {
    let folder = folder(&rt)?;
    assert_eq!(rt; first_wrong(&rt, &folder, &DAYS)?, None);
    fs::remove_dir_all(&rt, folder.as_str())?;
    Ok(())
}
