//! The note of `plan` and `amend` on bookings that may be too short to be carried on a live line.

use crate::program::{is_done, run};

/// A case: its name, its words, what stands on standard input, and what is written on standard output and on standard error.
struct Case {
    name: &'static str,
    words: &'static [&'static str],
    input: &'static str,
    output: &'static str,
    note: &'static str,
}

const ON_ONE: &[&str] = &["plan", "--date", "2026-01-05", "--channels", "1", "-"];

const ON_TWO: &[&str] = &["plan", "--date", "2026-01-05", "--channels", "1,2", "-"];

static CASES: [Case; 11] = [
    Case {
        name: "one second",
        words: ON_ONE,
        input: "start,end,number,pay\n2026-01-05T00:00:05Z,2026-01-05T00:00:10Z,1,5\n2026-01-05T00:00:11Z,2026-01-05T00:00:12Z,2,5\n2026-01-05T00:00:00Z,2026-01-05T00:00:01Z,3,5\n",
        output: "bx-plan 3\nchannels 1\nbookings 3\n5 10 5 1 1 free out\n11 12 5 2 1 free out\n0 1 5 3 1 free out\nprices 0\ntotal 15\nend\n",
        note: "note: rows 2,3 may be too short to be carried on a live line\n",
    },
    Case {
        name: "one second, right behind another",
        words: ON_ONE,
        input: "start,end,number,pay\n2026-01-05T00:00:05Z,2026-01-05T00:00:10Z,1,5\n2026-01-05T00:00:10Z,2026-01-05T00:00:11Z,2,5\n",
        output: "bx-plan 3\nchannels 1\nbookings 2\n5 10 5 1 1 free out\n10 11 5 2 1 free out\nprices 0\ntotal 10\nend\n",
        note: "note: rows 2 may be too short to be carried on a live line\n",
    },
    Case {
        name: "seconds 0 and 1",
        words: ON_ONE,
        input: "start,end,number,pay\n2026-01-05T00:00:00Z,2026-01-05T00:00:02Z,1,5\n",
        output: "bx-plan 3\nchannels 1\nbookings 1\n0 2 5 1 1 free out\nprices 0\ntotal 5\nend\n",
        note: "note: rows 1 may be too short to be carried on a live line\n",
    },
    Case {
        name: "seconds 0 to 2",
        words: ON_ONE,
        input: "start,end,number,pay\n2026-01-05T00:00:00Z,2026-01-05T00:00:03Z,1,5\n",
        output: "bx-plan 3\nchannels 1\nbookings 1\n0 3 5 1 1 free out\nprices 0\ntotal 5\nend\n",
        note: "",
    },
    Case {
        name: "two seconds, right behind another",
        words: ON_ONE,
        input: "start,end,number,pay\n2026-01-05T00:00:10Z,2026-01-05T00:00:12Z,1,5\n2026-01-05T00:00:05Z,2026-01-05T00:00:10Z,2,5\n",
        output: "bx-plan 3\nchannels 1\nbookings 2\n10 12 5 1 1 free out\n5 10 5 2 1 free out\nprices 0\ntotal 10\nend\n",
        note: "note: rows 1 may be too short to be carried on a live line\n",
    },
    Case {
        name: "two seconds, a second between",
        words: ON_ONE,
        input: "start,end,number,pay\n2026-01-05T00:00:05Z,2026-01-05T00:00:10Z,1,5\n2026-01-05T00:00:11Z,2026-01-05T00:00:13Z,2,5\n2026-01-05T00:00:14Z,2026-01-05T00:00:19Z,3,5\n",
        output: "bx-plan 3\nchannels 1\nbookings 3\n5 10 5 1 1 free out\n11 13 5 2 1 free out\n14 19 5 3 1 free out\nprices 0\ntotal 15\nend\n",
        note: "",
    },
    Case {
        name: "three seconds, right behind another",
        words: ON_ONE,
        input: "start,end,number,pay\n2026-01-05T00:00:05Z,2026-01-05T00:00:10Z,1,5\n2026-01-05T00:00:10Z,2026-01-05T00:00:13Z,2,5\n",
        output: "bx-plan 3\nchannels 1\nbookings 2\n5 10 5 1 1 free out\n10 13 5 2 1 free out\nprices 0\ntotal 10\nend\n",
        note: "",
    },
    Case {
        name: "two seconds, right behind another on this channel, and on the other",
        words: ON_TWO,
        input: "start,end,number,pay\n2026-01-05T00:00:05Z,2026-01-05T00:00:12Z,1,5\n2026-01-05T00:00:06Z,2026-01-05T00:00:10Z,2,5\n2026-01-05T00:00:12Z,2026-01-05T00:00:14Z,3,5\n2026-01-05T00:00:11Z,2026-01-05T00:00:15Z,4,5\n2026-01-05T00:00:15Z,2026-01-05T00:00:17Z,5,5\n",
        output: "bx-plan 3\nchannels 1 2\nbookings 5\n5 12 5 1 1 free out\n6 10 5 2 2 free out\n12 14 5 3 1 free out\n11 15 5 4 2 free out\n15 17 5 5 1 free out\nprices 0\ntotal 25\nend\n",
        note: "note: rows 3 may be too short to be carried on a live line\n",
    },
    Case {
        name: "the far end calls",
        words: ON_ONE,
        input: "start,end,number,pay,must,direction\n2026-01-05T00:00:05Z,2026-01-05T00:00:06Z,1,5,no,in\n2026-01-05T00:00:07Z,2026-01-05T00:00:09Z,2,5,no,in\n2026-01-05T00:00:10Z,2026-01-05T00:00:13Z,3,5,no,in\n2026-01-05T00:00:13Z,2026-01-05T00:00:16Z,4,5,no,in\n2026-01-05T00:00:17Z,2026-01-05T00:00:19Z,5,5,no,out\n",
        output: "bx-plan 3\nchannels 1\nbookings 5\n5 6 5 1 1 free in\n7 9 5 2 1 free in\n10 13 5 3 1 free in\n13 16 5 4 1 free in\n17 19 5 5 1 free out\nprices 0\ntotal 25\nend\n",
        note: "note: rows 1,2 may be too short to be carried on a live line\n",
    },
    Case {
        name: "refused",
        words: ON_ONE,
        input: "start,end,number,pay\n2026-01-05T00:00:05Z,2026-01-05T00:00:12Z,1,5\n2026-01-05T00:00:10Z,2026-01-05T00:00:11Z,2,1\n",
        output: "bx-plan 3\nchannels 1\nbookings 2\n5 12 5 1 1 free out\n10 11 1 2 - free out\nprices 1\n10 1\ntotal 5\nend\n",
        note: "",
    },
    Case {
        name: "no bookings",
        words: ON_ONE,
        input: "start,end,number,pay\n",
        output: "bx-plan 3\nchannels 1\nbookings 0\nprices 0\ntotal 0\nend\n",
        note: "",
    },
];

#[test]
fn notes_of_plans(rt: HostRuntime) {
    for case in &CASES {
        let done = run(&rt, case.words, case.input);
        let is_noted = is_done(&done, (0, case.output, case.note));
        assert!(rt; is_noted, "{}", case.name);
    }
}
