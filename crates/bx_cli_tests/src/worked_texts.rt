//! Plan texts on standard input: the status, and all that is printed.

use crate::program::Answer::{Fails, Prints};
use crate::program::{Answer, Done, Expected, run};

/// A plan that is proved.
pub(crate) const ONE: &str =
    "bx-plan 1\nchannels 1\nbookings 1\n0 60 5 1234 1\nprices 0\ntotal 5\nend\n";

const MUST: &str =
    "bx-plan 3\nchannels 1\nbookings 3\n0 10 4 1234 - free out\n5 15 6 1234 1 must out\n10 20 4 1234 - free in\nprices 2\n5 4\n10 4\ntotal 6\nend\n";

/// Input with its name, and what is answered, with all of standard error.
type Case = (&'static str, &'static str, Answer);

static CASES: [Case; 15] = [
    ("version 1", ONE, Prints("proved 5\n")),
    ("version 3 with a must booking", MUST, Prints("proved 6\n")),
    (
        "no bookings",
        "bx-plan 1\nchannels 1 2 3\nbookings 0\nprices 0\ntotal 0\nend\n",
        Prints("proved 0\n"),
    ),
    (
        "a must booking left out, of three",
        "bx-plan 2\nchannels 1\nbookings 3\n0 10 4 1234 - free\n5 15 6 1234 - must\n10 20 4 1234 - free\nprices 2\n5 4\n10 4\ntotal 6\nend\n",
        Fails("bx: C8 MustLeftOut 2\n"),
    ),
    ("nothing", "", Fails("bx: P1 BadLine 1\n")),
    ("CR before LF", "bx-plan 1\r\n", Fails("bx: P1 BadLine 1\n")),
    ("no text", "\u{0}\u{1}\u{7f}", Fails("bx: P1 BadLine 1\n")),
    (
        "a channel that is none",
        "bx-plan 3\nchannels 16\n",
        Fails("bx: P3 OutOfLimits 2\n"),
    ),
    (
        "16,001 bookings",
        "bx-plan 2\nchannels\nbookings 16001\n",
        Fails("bx: P2 BadCount\n"),
    ),
    (
        "no LF at the end",
        "bx-plan 1\nchannels\nbookings 0\nprices 0\ntotal 0\nend",
        Fails("bx: P1 BadLine 6\n"),
    ),
    (
        "an empty line behind the end",
        "bx-plan 1\nchannels\nbookings 0\nprices 0\ntotal 0\nend\n\n",
        Fails("bx: P4 Trailing\n"),
    ),
    (
        "another total",
        "bx-plan 1\nchannels\nbookings 0\nprices 0\ntotal 1\nend\n",
        Fails("bx: C5 WrongTotal\n"),
    ),
    (
        "a booking left out at no price",
        "bx-plan 1\nchannels 1\nbookings 1\n0 1 5 1 -\nprices 0\ntotal 0\nend\n",
        Fails("bx: C7 NotProved 5\n"),
    ),
    (
        "a channel out of service",
        "bx-plan 1\nchannels 1\nbookings 1\n0 1 5 1 2\nprices 0\ntotal 5\nend\n",
        Fails("bx: C3 NotInService 1\n"),
    ),
    (
        "a must booking left out, the only one",
        "bx-plan 2\nchannels 1\nbookings 1\n0 1 5 1 - must\nprices 0\ntotal 0\nend\n",
        Fails("bx: C8 MustLeftOut 1\n"),
    ),
];

fn is_just(done: &Done, expected: Expected<'_>) -> bool {
    let (status, output, errors) = expected;
    done.status == status
        && done.output.as_slice() == output.as_bytes()
        && done.errors.as_slice() == errors.as_bytes()
}

#[test]
fn texts_without_words(rt: HostRuntime) {
    for (name, text, answer) in &CASES {
        let done = run(&rt, &[], text);
        assert!(rt; is_just(&done, answer.expected()), "{name}");
    }
}
