//! Words: messages that are decoded, wrong words, and the version.

use crate::program::Answer::{Fails, Misused, Prints};
use crate::program::{Answer, is_done, run};
use crate::worked_texts::ONE;

/// Words with their name, and what is answered.
type Case = (&'static str, &'static [&'static str], Answer);

static CASES: [Case; 8] = [
    (
        "a message",
        &["decode", "080280015A08028091"],
        Prints("type 5A RELEASE COMPLETE\nreference 1 flag 1\nelement 0 08 8091\n"),
    ),
    (
        "a torn element",
        &["decode", "0800FF9e1803A9838204"],
        Fails("bx: M4 TornElement\n"),
    ),
    (
        "a message of an unknown type",
        &["decode", "0800ff9ea1"],
        Prints("type FF UNKNOWN\nreference dummy\nelement 6 A1\n"),
    ),
    ("half an octet", &["decode", "0"], Fails("bx: H1 NotHex\n")),
    ("no octets", &["decode", ""], Fails("bx: M1 TooShort\n")),
    ("no message", &["decode"], Misused),
    ("a word that is none", &["dance"], Misused),
    ("the version", &["--version"], Prints("bx 0.2.0\n")),
];

#[test]
fn words_and_what_is_printed(rt: HostRuntime) {
    for (name, words, answer) in &CASES {
        let done = run(&rt, words, ONE);
        assert!(rt; is_done(&done, answer.expected()), "{name}");
    }
}

/// Words with their name that ask for help, and how what is printed begins.
static HELPS: [(&str, &[&str], &str); 4] = [
    (
        "an option",
        &["--help"],
        "Booked calls on one ISDN primary rate interface",
    ),
    (
        "a command",
        &["help"],
        "Booked calls on one ISDN primary rate interface",
    ),
    (
        "of a command",
        &["help", "plan"],
        "Print the best plan of a day's bookings",
    ),
    (
        "the faults",
        &["help", "faults"],
        "P1 BadLine n          line n of a plan",
    ),
];

#[test]
fn help_on_standard_output(rt: HostRuntime) {
    for (name, words, begins) in &HELPS {
        let done = run(&rt, words, "");
        let is_shown = done.output.starts_with(begins.as_bytes());
        assert!(rt;
            done.status == 0 && is_shown && done.errors.is_empty(),
            "{name}"
        );
    }
}
