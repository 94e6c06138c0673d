//! The commands on files and wrong options, with what they print.

use crate::day_commands::DAYS;
use crate::files::{does, folder};
use crate::program::Answer;
use crate::program::Answer::{Fails, Misused, Prints};
use std::fs;
use std::test::Fail;

/// Words with spaces between, and what is answered.
pub(crate) type Case = (&'static str, Answer);

static PLANS: [Case; 15] = [
    (
        "plan --date 2026-01-05 --channels 1,2 @mixed.csv",
        Prints(
            "bx-plan 3\nchannels 1 2\nbookings 3\n0 10 4 1 1 must out\n5 15 6 2 2 free in\n8 12 5 3 - free out\nprices 1\n8 5\ntotal 10\nend\n",
        ),
    ),
    (
        "plan --date 2026-01-05 --channels 1 @one.csv",
        Prints(
            "bx-plan 3\nchannels 1\nbookings 1\n0 60 5 1234 1 free out\nprices 0\ntotal 5\nend\n",
        ),
    ),
    (
        "plan --date 2026-01-05 --channels=1-3 @none.csv",
        Prints("bx-plan 3\nchannels 1 2 3\nbookings 0\nprices 0\ntotal 0\nend\n"),
    ),
    (
        "plan --date 2026-01-05 --channels none @late.csv",
        Prints(
            "bx-plan 3\nchannels\nbookings 1\n10 20 7 1234 - free out\nprices 1\n10 7\ntotal 0\nend\n",
        ),
    ),
    (
        "plan --date 2026-01-05 --channels 1,2 @four.csv",
        Prints(
            "bx-plan 3\nchannels 1 2\nbookings 4\n0 10 3 100 1 free out\n0 10 2 101 - free out\n5 15 4 102 2 free out\n12 20 1 103 1 free out\nprices 1\n5 2\ntotal 8\nend\n",
        ),
    ),
    (
        "plan --date 2026-03-29 --zone CET-1CEST,M3.5.0,M10.5.0/3 --channels 31 @spring.csv",
        Prints(
            "bx-plan 3\nchannels 31\nbookings 2\n5400 9000 5 1234 31 free out\n9000 82800 5 1234 31 free out\nprices 0\ntotal 10\nend\n",
        ),
    ),
    (
        "plan --date 2026-10-25 --zone CET-1CEST,M3.5.0,M10.5.0/3 --channels 31 @autumn.csv",
        Prints(
            "bx-plan 3\nchannels 31\nbookings 2\n9000 12600 5 1234 31 free out\n12600 90000 5 1234 31 free out\nprices 0\ntotal 10\nend\n",
        ),
    ),
    (
        "plan --date 2026-01-05 --channels 1 @must.csv",
        Fails("bx: G5 TooManyMust 5\n"),
    ),
    (
        "plan --date 2026-01-05 @bad.csv",
        Fails("bx: B7 BadNumber 1\n"),
    ),
    (
        "plan --date 2026-01-05 @binary.csv",
        Fails("bx: B1 BadHeader\n"),
    ),
    (
        "plan --date 2026-01-05 @empty.csv",
        Fails("bx: B1 BadHeader\n"),
    ),
    (
        "plan --date 2026-01-05 @long.csv",
        Fails("bx: G2 TooLong\n"),
    ),
    (
        "plan --date 2026-01-05 @missing",
        Fails("bx: F1 CannotRead @missing\n"),
    ),
    ("plan --date 2026-01-05 @", Fails("bx: G1 ReadFailed\n")),
    (
        "plan --date 2026-01-06 @one.csv",
        Fails("bx: B5 OutsideDay 1\n"),
    ),
];

static CHECKS: [Case; 9] = [
    (
        "check --date 2026-01-05 --channels 1-2 @four.csv @four.txt",
        Prints("proved 8\n"),
    ),
    (
        "check --date 2026-01-05 --channels 2,1 @one.csv @four.txt",
        Fails("bx: C1 OtherBookings\n"),
    ),
    (
        "check --date 2026-01-05 @four.csv @four.txt",
        Fails("bx: C2 OtherChannels\n"),
    ),
    (
        "check --date 2026-01-05 @bad.csv @missing",
        Fails("bx: B7 BadNumber 1\n"),
    ),
    (
        "check --date 2026-01-05 @four.csv @short.txt",
        Fails("bx: P1 BadLine 3\n"),
    ),
    (
        "check --date 2026-01-05 @missing @gone",
        Fails("bx: F1 CannotRead @missing\n"),
    ),
    (
        "check --date 2026-01-05 @four.csv @gone",
        Fails("bx: F1 CannotRead @gone\n"),
    ),
    (
        "check --date 2026-01-05 @ @four.txt",
        Fails("bx: F1 CannotRead @\n"),
    ),
    (
        "check --date 2026-01-05 @long.csv @four.txt",
        Fails("bx: F1 CannotRead @long.csv\n"),
    ),
];

static AMENDMENTS: [Case; 9] = [
    (
        "amend --date 2026-01-05 @four.txt @late.csv",
        Prints(
            "bx-plan 3\nchannels 1 2\nbookings 5\n0 10 3 100 1 must out\n0 10 2 101 - free out\n5 15 4 102 2 must out\n12 20 1 103 1 must out\n10 20 7 1234 - free out\nprices 2\n5 2\n12 7\ntotal 8\nend\n",
        ),
    ),
    (
        "amend --date 2026-01-05 @four.txt @must.csv",
        Fails("bx: K1 TooManyMust 5\n"),
    ),
    (
        "amend --date 2026-01-05 @four.txt @bad.csv",
        Fails("bx: B7 BadNumber 1\n"),
    ),
    (
        "amend --date 2026-01-05 @short.txt @bad.csv",
        Fails("bx: P1 BadLine 3\n"),
    ),
    (
        "amend --date 2026-01-05 @missing @bad.csv",
        Fails("bx: F1 CannotRead @missing\n"),
    ),
    (
        "amend --date 2026-01-05 @four.txt @gone",
        Fails("bx: F1 CannotRead @gone\n"),
    ),
    (
        "amend --date 2026-02-29 @gone @gone",
        Fails("bx: A1 BadDate\n"),
    ),
    ("amend @four.txt @late.csv", Misused),
    ("amend --date 2026-01-05 @four.txt", Misused),
];

static OPTIONS: [Case; 10] = [
    (
        "plan --date 2026-02-29 --channels 0 @gone",
        Fails("bx: N1 NotABChannel 0\n"),
    ),
    (
        "plan --date 2026-01-05 --channels 1-31 @one.csv",
        Fails("bx: N1 NotABChannel 16\n"),
    ),
    (
        "plan --date 2026-03-08 --zone AAA-24BBB24,M3.2.0,M11.1.0 @gone",
        Fails("bx: A4 OddDay\n"),
    ),
    ("plan --date 2026-02-29 @gone", Fails("bx: A1 BadDate\n")),
    (
        "plan --date 2026-01-05 --zone x @gone",
        Fails("bx: A2 BadZone\n"),
    ),
    (
        "check --date 9999-12-31 @gone @gone",
        Fails("bx: A3 OutOfRange\n"),
    ),
    ("plan @one.csv", Misused),
    ("plan --date 2026-01-05", Misused),
    ("plan --date 2026-01-05 --date 2026-01-05 @one.csv", Misused),
    ("check --date 2026-01-05 @four.csv", Misused),
];

/// The first words that do something else.
pub(crate) fn first_wrong(
    rt: &HostRuntime,
    folder: &str,
    cases: &[Case],
) -> Result<Option<&'static str>, Fail> {
    for (words, answer) in cases {
        if !does(rt, folder, words, answer.expected())? {
            return Ok(Some(*words));
        }
    }
    Ok(None)
}

#[test]
fn files_and_options(rt: HostRuntime) -> Result<(), Fail> {
    let folder = folder(&rt)?;
    let tables: [&[Case]; 5] = [&PLANS, &CHECKS, &AMENDMENTS, &DAYS, &OPTIONS];
    for cases in tables {
        assert_eq!(rt; first_wrong(&rt, &folder, cases)?, None);
    }
    fs::remove_dir_all(&rt, folder.as_str())?;
    Ok(())
}
