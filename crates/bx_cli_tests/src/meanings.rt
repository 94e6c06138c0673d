//! What a terminal is told of a fault, in a second line.

use crate::program::{is_done, run_seen};

/// A case: its words, what stands on standard input, and the two lines.
type Case = (&'static [&'static str], &'static str, &'static str);

const ENDS_FIRST: &str =
    "start,end,number,pay\n2026-01-05T00:00:00Z,2026-01-05T00:00:10Z,100,7\n2026-01-05T00:00:09Z,2026-01-05T00:00:09Z,101,7\n";

static CASES: [Case; 9] = [
    (
        &["plan", "--date", "2026-01-05", "--channels", "1", "-"],
        ENDS_FIRST,
        "bx: B6 EndNotAfterStart 2\nstandard input, line 3: row 2 ends at its start, or before it\n",
    ),
    (
        &["plan", "--date", "2026-01-05", "--channels", "1", "-"],
        "start\n",
        "bx: B1 BadHeader\nstandard input: the first line of the bookings is none of the headers\n",
    ),
    (
        &["explain", "-"],
        "bx-plan 4\n",
        "bx: P1 BadLine 1\nstandard input: line 1 of a plan has another form than the line that stands in its place, or is missing\n",
    ),
    (
        &[],
        "bx-plan 4\n",
        "bx: P1 BadLine 1\nstandard input: line 1 of a plan has another form than the line that stands in its place, or is missing\n",
    ),
    (
        &["far", "-", "--port", "9931"],
        "number,policy,seconds\n1,answer,0\n2,wait,0\n",
        "bx: S3 BadEntry 2\nstandard input, line 3: a field of row 2 of the script is none that may stand there\n",
    ),
    (
        &["explain", "@gone"],
        "",
        "bx: F1 CannotRead @gone\nbx: the file cannot be opened or read, or has more than 4,194,304 octets\n",
    ),
    (
        &["plan", "--date", "2026-02-30", "--channels", "1", "-"],
        ENDS_FIRST,
        "bx: A1 BadDate\nbx: the date is not of the form YYYY-MM-DD, or names no day\n",
    ),
    (
        &["decode", "0"],
        "",
        "bx: H1 NotHex\nbx: the word is not pairs of hexadecimal digits\n",
    ),
    (
        &["decode", "08"],
        "",
        "bx: M1 TooShort\nbx: the octets end inside the head of a message\n",
    ),
];

#[test]
fn faults_in_words(rt: HostRuntime) {
    for (at, (words, input, errors)) in CASES.iter().enumerate() {
        let done = run_seen(&rt, words, input, true);
        assert!(rt; is_done(&done, (1, "", errors)), "case {at}");
    }
}
