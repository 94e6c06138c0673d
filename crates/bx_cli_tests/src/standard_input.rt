//! Standard input, under the name `-`.

use crate::program::Answer::{Fails, Misused, Prints};
use crate::program::{Answer, is_done, run};
use crate::worked_texts::ONE;

/// A case: its name, its words, what stands on standard input, and what is answered.
struct Case {
    name: &'static str,
    words: &'static [&'static str],
    input: &'static str,
    answer: Answer,
}

const BOOKING: &str = "start,end,number,pay\n2026-01-05T00:00:00Z,2026-01-05T00:00:10Z,100,7\n";

static CASES: [Case; 9] = [
    Case {
        name: "bookings",
        words: &["plan", "--date", "2026-01-05", "--channels", "1", "-"],
        input: BOOKING,
        answer: Prints(
            "bx-plan 3\nchannels 1\nbookings 1\n0 10 7 100 1 free out\nprices 0\ntotal 7\nend\n",
        ),
    },
    Case {
        name: "bookings with a fault",
        words: &["plan", "--date", "2026-01-06", "--channels", "1", "-"],
        input: BOOKING,
        answer: Fails("bx: B5 OutsideDay 1\n"),
    },
    Case {
        name: "a plan",
        words: &["explain", "-"],
        input: ONE,
        answer: Prints("refused 0 of 1\n"),
    },
    Case {
        name: "no plan",
        words: &["explain", "-"],
        input: "",
        answer: Fails("bx: P1 BadLine 1\n"),
    },
    Case {
        name: "a plan of a day",
        words: &["serve", "-", "--port", "9931"],
        input: "bx-plan 4\n",
        answer: Fails("bx: P1 BadLine 1\n"),
    },
    Case {
        name: "a plan, and a script that is not there",
        words: &["day", "-", "@gone"],
        input: ONE,
        answer: Fails("bx: F1 CannotRead @gone\n"),
    },
    Case {
        name: "a script of a day",
        words: &["far", "-", "--port", "9931"],
        input: "number\n",
        answer: Fails("bx: S1 BadHeader\n"),
    },
    Case {
        name: "twice",
        words: &["check", "--date", "2026-01-05", "-", "-"],
        input: BOOKING,
        answer: Misused,
    },
    Case {
        name: "twice in a day",
        words: &["day", "-", "-"],
        input: ONE,
        answer: Misused,
    },
];

#[test]
fn standard_input_by_its_name(rt: HostRuntime) {
    for case in &CASES {
        let done = run(&rt, case.words, case.input);
        assert!(rt; is_done(&done, case.answer.expected()), "{}", case.name);
    }
}
