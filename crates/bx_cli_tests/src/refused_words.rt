//! Words that are no command, and what is said of them; and words that ask for help.

use bx_words::{Refusal, read_words};
use std::alloc::Global;

/// Words with their name, and what is said of them up to the first empty line, or to the end.
struct Refused {
    name: &'static str,
    words: &'static [&'static str],
    says: &'static str,
}

/// A word or an option that has to be there is not, or there is one that no command takes.
static MISSING: [Refused; 21] = [
    Refused {
        name: "no date of bookings",
        words: &["plan", "day.csv"],
        says: "error: the following required arguments were not provided:\n  --date <DATE>",
    },
    Refused {
        name: "no bookings",
        words: &["capacity", "--date", "2026-01-02"],
        says: "error: the following required arguments were not provided:\n  <BOOKINGS>",
    },
    Refused {
        name: "no plan beside the bookings",
        words: &["check", "--date", "2026-01-02", "day.csv"],
        says: "error: the following required arguments were not provided:\n  <PLAN>",
    },
    Refused {
        name: "no second of an end",
        words: &["quote", "plan.txt", "10"],
        says: "error: the following required arguments were not provided:\n  <END>",
    },
    Refused {
        name: "a zone without a day",
        words: &["chart", "plan.txt", "--zone", "UTC1"],
        says: "error: the following required arguments were not provided:\n  --date <DATE>",
    },
    Refused {
        name: "a day of no capture",
        words: &["audit", "plan.txt", "went.journal", "--date", "2026-01-02"],
        says: "error: the following required arguments were not provided:\n  --capture <FILE>",
    },
    Refused {
        name: "a served day at no place",
        words: &["serve", "plan.txt"],
        says: "error: the following required arguments were not provided:\n  --port <P>",
    },
    Refused {
        name: "a far end at no place",
        words: &["far", "script.csv"],
        says: "error: the following required arguments were not provided:\n  --port <P>",
    },
    Refused {
        name: "a live day on no line",
        words: &["serve", "plan.txt", "--live", "--date", "2026-01-02"],
        says: "error: the following required arguments were not provided:\n  --line <HERE:THERE>\n  --port <P>",
    },
    Refused {
        name: "a line of a day that is not live",
        words: &["serve", "plan.txt", "--line", "1:2", "--date", "2026-01-02"],
        says: "error: the following required arguments were not provided:\n  --live",
    },
    Refused {
        name: "a live day of no date",
        words: &["serve", "plan.txt", "--live", "--line", "1:2"],
        says: "error: the following required arguments were not provided:\n  --date <DATE>",
    },
    Refused {
        name: "a pace of a day that is not live",
        words: &["serve", "plan.txt", "--port", "9931", "--pace", "2"],
        says: "error: the following required arguments were not provided:\n  --line <HERE:THERE>\n  --live\n  --date <DATE>",
    },
    Refused {
        name: "an office without a journal",
        words: &[
            "serve",
            "plan.txt",
            "--live",
            "--line",
            "1:2",
            "--date",
            "2026-01-02",
            "--office",
            "o.sock",
        ],
        says: "error: the following required arguments were not provided:\n  --journal <FILE>",
    },
    Refused {
        name: "an office's port without a journal",
        words: &[
            "serve",
            "plan.txt",
            "--live",
            "--line",
            "1:2",
            "--date",
            "2026-01-02",
            "--office-port",
            "9",
        ],
        says: "error: the following required arguments were not provided:\n  --journal <FILE>",
    },
    Refused {
        name: "a far line of no date",
        words: &["far", "script.csv", "--line", "1:2"],
        says: "error: the following required arguments were not provided:\n  --date <DATE>",
    },
    Refused {
        name: "a far pace on no line",
        words: &["far", "script.csv", "--date", "2026-01-02", "--pace", "2"],
        says: "error: the following required arguments were not provided:\n  --line <HERE:THERE>\n  --port <P>",
    },
    Refused {
        name: "far turns on no line",
        words: &["far", "script.csv", "--date", "2026-01-02", "--turns", "2"],
        says: "error: the following required arguments were not provided:\n  --line <HERE:THERE>\n  --port <P>",
    },
    Refused {
        name: "no command",
        words: &[],
        says: "error: 'bx' requires a subcommand but one was not provided\n  [subcommands: plan, check, amend, capacity, explain, quote, chart, day, serve, far, audit, records, sold, decode, help]",
    },
    Refused {
        name: "a command that is none",
        words: &["dance"],
        says: "error: unrecognized subcommand 'dance'",
    },
    Refused {
        name: "an option of another command",
        words: &["sold", "plan.txt", "went.journal", "--quiet"],
        says: "error: unexpected argument '--quiet' found",
    },
    Refused {
        name: "a word too many",
        words: &["decode", "08", "09"],
        says: "error: unexpected argument '09' found",
    },
];

/// An option has a value that it cannot have.
static VALUES: [Refused; 17] = [
    Refused {
        name: "port 0",
        words: &["serve", "plan.txt", "--port", "0"],
        says: "error: invalid value '0' for '--port <P>': 0 is not in 1..=65535",
    },
    Refused {
        name: "a port above all",
        words: &["far", "script.csv", "--port", "65536"],
        says: "error: invalid value '65536' for '--port <P>': 65536 is not in 1..=65535",
    },
    Refused {
        name: "no turn",
        words: &["day", "plan.txt", "script.csv", "--turns", "0"],
        says: "error: invalid value '0' for '--turns <N>': 0 is not in 1..=300000",
    },
    Refused {
        name: "a turn too many",
        words: &["day", "plan.txt", "script.csv", "--turns", "300001"],
        says: "error: invalid value '300001' for '--turns <N>': 300001 is not in 1..=300000",
    },
    Refused {
        name: "no pace",
        words: &[
            "serve",
            "plan.txt",
            "--live",
            "--line",
            "1:2",
            "--date",
            "2026-01-02",
            "--journal",
            "j",
            "--office",
            "o.sock",
            "--pace",
            "0",
        ],
        says: "error: invalid value '0' for '--pace <N>': 0 is not in 1..=1000",
    },
    Refused {
        name: "a pace above all",
        words: &[
            "serve",
            "plan.txt",
            "--live",
            "--line",
            "1:2",
            "--date",
            "2026-01-02",
            "--journal",
            "j",
            "--office",
            "o.sock",
            "--pace",
            "1001",
        ],
        says: "error: invalid value '1001' for '--pace <N>': 1001 is not in 1..=1000",
    },
    Refused {
        name: "no rate",
        words: &[
            "serve",
            "plan.txt",
            "--live",
            "--line",
            "1:2",
            "--date",
            "2026-01-02",
            "--journal",
            "j",
            "--office",
            "o.sock",
            "--rate",
            "0",
        ],
        says: "error: invalid value '0' for '--rate <N>': 0 is not in 1..=1000000",
    },
    Refused {
        name: "a rate above all",
        words: &[
            "serve",
            "plan.txt",
            "--live",
            "--line",
            "1:2",
            "--date",
            "2026-01-02",
            "--journal",
            "j",
            "--office",
            "o.sock",
            "--rate",
            "1000001",
        ],
        says: "error: invalid value '1000001' for '--rate <N>': 1000001 is not in 1..=1000000",
    },
    Refused {
        name: "an office at port 0",
        words: &[
            "serve",
            "plan.txt",
            "--live",
            "--line",
            "1:2",
            "--date",
            "2026-01-02",
            "--journal",
            "j",
            "--office-port",
            "0",
        ],
        says: "error: invalid value '0' for '--office-port <P>': 0 is not in 1..=65535",
    },
    Refused {
        name: "a row above all",
        words: &["explain", "plan.txt", "65536"],
        says: "error: invalid value '65536' for '[ROW]': 65536 is not in 0..=65535",
    },
    Refused {
        name: "no list of channels",
        words: &[
            "plan",
            "--date",
            "2026-01-02",
            "--channels",
            "1-a",
            "day.csv",
        ],
        says: "error: invalid value '1-a' for '--channels <LIST>': not `none`, and no list of numbers and ranges of one or two digits",
    },
    Refused {
        name: "a line of one port",
        words: &["far", "script.csv", "--line", "7:7", "--date", "2026-01-02"],
        says: "error: invalid value '7:7' for '--line <HERE:THERE>': not two ports from 1 to 65535 that differ",
    },
    Refused {
        name: "no origin",
        words: &[
            "serve",
            "plan.txt",
            "--live",
            "--line",
            "1:2",
            "--date",
            "2026-01-02",
            "--journal",
            "j",
            "--office",
            "o.sock",
            "--origin",
            "office.example",
        ],
        says: "error: invalid value 'office.example' for '--origin <ORIGIN>': not http:// or https://, a host, and a port where it has one",
    },
    Refused {
        name: "no origin of a counter",
        words: &[
            "serve",
            "plan.txt",
            "--live",
            "--line",
            "1:2",
            "--date",
            "2026-01-02",
            "--journal",
            "j",
            "--office",
            "o.sock",
            "--counter",
            "c.sock",
            "--counter-origin",
            "calls.example",
        ],
        says: "error: invalid value 'calls.example' for '--counter-origin <ORIGIN>': not http:// or https://, a host, and a port where it has one",
    },
    Refused {
        name: "a counter of no path",
        words: &[
            "serve",
            "plan.txt",
            "--live",
            "--line",
            "1:2",
            "--date",
            "2026-01-02",
            "--journal",
            "j",
            "--office",
            "o.sock",
            "--counter",
            "",
        ],
        says: "error: invalid value '' for '--counter <PATH>': no path is empty",
    },
    Refused {
        name: "a socket of no path",
        words: &["serve", "plan.txt", "--socket", ""],
        says: "error: invalid value '' for '--socket <PATH>': no path is empty",
    },
    Refused {
        name: "an office of no path",
        words: &[
            "serve",
            "plan.txt",
            "--live",
            "--line",
            "1:2",
            "--date",
            "2026-01-02",
            "--journal",
            "j",
            "--office",
            "",
        ],
        says: "error: invalid value '' for '--office <PATH>': no path is empty",
    },
];

/// Options stand beside others, or without others.
static BESIDE: [Refused; 19] = [
    Refused {
        name: "a live day at a port",
        words: &[
            "serve",
            "plan.txt",
            "--live",
            "--port",
            "9931",
            "--date",
            "2026-01-02",
        ],
        says: "error: the argument '--live' cannot be used with '--port <P>'",
    },
    Refused {
        name: "a pace of a far end at a port",
        words: &[
            "far",
            "script.csv",
            "--port",
            "9931",
            "--capture",
            "far.pcap",
            "--date",
            "2026-01-02",
            "--pace",
            "2",
        ],
        says: "error: the argument '--port <P>' cannot be used with '--pace <N>'",
    },
    Refused {
        name: "turns of a far end at a socket",
        words: &[
            "far",
            "script.csv",
            "--socket",
            "l.sock",
            "--capture",
            "far.pcap",
            "--date",
            "2026-01-02",
            "--turns",
            "2",
        ],
        says: "error: the argument '--socket <PATH>' cannot be used with '--turns <N>'",
    },
    Refused {
        name: "a port and a socket",
        words: &["serve", "plan.txt", "--port", "9931", "--socket", "l.sock"],
        says: "error: the argument '--port <P>' cannot be used with '--socket <PATH>'",
    },
    Refused {
        name: "a line and a port",
        words: &[
            "serve",
            "plan.txt",
            "--port",
            "9931",
            "--live",
            "--line",
            "1:2",
            "--date",
            "2026-01-02",
        ],
        says: "error: the argument '--port <P>' cannot be used with:\n  --live\n  --line <HERE:THERE>",
    },
    Refused {
        name: "a line and a socket",
        words: &[
            "far",
            "script.csv",
            "--socket",
            "l.sock",
            "--line",
            "1:2",
            "--date",
            "2026-01-02",
        ],
        says: "error: the argument '--socket <PATH>' cannot be used with '--line <HERE:THERE>'",
    },
    Refused {
        name: "two places of an office",
        words: &[
            "serve",
            "plan.txt",
            "--live",
            "--line",
            "1:2",
            "--date",
            "2026-01-02",
            "--journal",
            "j",
            "--office",
            "o.sock",
            "--office-port",
            "9",
        ],
        says: "error: the argument '--office <PATH>' cannot be used with '--office-port <P>'",
    },
    Refused {
        name: "an origin of no office",
        words: &[
            "serve",
            "plan.txt",
            "--live",
            "--line",
            "1:2",
            "--date",
            "2026-01-02",
            "--journal",
            "j",
            "--origin",
            "https://office.example",
        ],
        says: "error: '--origin <ORIGIN>' stands only beside '--office <PATH>' or '--office-port <P>'",
    },
    Refused {
        name: "a counter of no office",
        words: &[
            "serve",
            "plan.txt",
            "--live",
            "--line",
            "1:2",
            "--date",
            "2026-01-02",
            "--journal",
            "j",
            "--counter",
            "c.sock",
        ],
        says: "error: '--counter <PATH>' stands only beside '--office <PATH>' or '--office-port <P>'",
    },
    Refused {
        name: "a counter at a port of no office",
        words: &[
            "serve",
            "plan.txt",
            "--live",
            "--line",
            "1:2",
            "--date",
            "2026-01-02",
            "--journal",
            "j",
            "--counter-port",
            "9",
        ],
        says: "error: '--counter-port <P>' stands only beside '--office <PATH>' or '--office-port <P>'",
    },
    Refused {
        name: "an origin of no counter",
        words: &[
            "serve",
            "plan.txt",
            "--live",
            "--line",
            "1:2",
            "--date",
            "2026-01-02",
            "--journal",
            "j",
            "--office",
            "o.sock",
            "--counter-origin",
            "https://calls.example",
        ],
        says: "error: '--counter-origin <ORIGIN>' stands only beside '--counter <PATH>' or '--counter-port <P>'",
    },
    Refused {
        name: "a counter at a port and a socket",
        words: &[
            "serve",
            "plan.txt",
            "--live",
            "--line",
            "1:2",
            "--date",
            "2026-01-02",
            "--journal",
            "j",
            "--office",
            "o.sock",
            "--counter",
            "c.sock",
            "--counter-port",
            "9",
        ],
        says: "error: the argument '--counter <PATH>' cannot be used with '--counter-port <P>'",
    },
    Refused {
        name: "a rate of no office",
        words: &[
            "serve",
            "plan.txt",
            "--live",
            "--line",
            "1:2",
            "--date",
            "2026-01-02",
            "--journal",
            "j",
            "--rate",
            "5",
        ],
        says: "error: '--rate <N>' stands only beside '--office <PATH>' or '--office-port <P>'",
    },
    Refused {
        name: "a capture of a live day",
        words: &[
            "serve",
            "plan.txt",
            "--live",
            "--line",
            "1:2",
            "--date",
            "2026-01-02",
            "--capture",
            "c.pcap",
        ],
        says: "error: '--capture <FILE>' and '--records <FILE>' do not stand beside '--live': `bx audit --capture` and `bx records` make both by the journal, at any time",
    },
    Refused {
        name: "records of a live day",
        words: &[
            "serve",
            "plan.txt",
            "--live",
            "--line",
            "1:2",
            "--date",
            "2026-01-02",
            "--records",
            "r.csv",
        ],
        says: "error: '--capture <FILE>' and '--records <FILE>' do not stand beside '--live': `bx audit --capture` and `bx records` make both by the journal, at any time",
    },
    Refused {
        name: "the date of a day of both ends alone",
        words: &["day", "plan.txt", "script.csv", "--date", "2026-01-02"],
        says: "error: '--date <DATE>' stands only beside '--capture <FILE>' or '--records <FILE>'",
    },
    Refused {
        name: "the date of a served day alone",
        words: &[
            "serve",
            "plan.txt",
            "--port",
            "9931",
            "--date",
            "2026-01-02",
        ],
        says: "error: '--date <DATE>' stands only beside '--live', '--capture <FILE>' or '--records <FILE>'",
    },
    Refused {
        name: "the date of a far end alone",
        words: &[
            "far",
            "script.csv",
            "--port",
            "9931",
            "--date",
            "2026-01-02",
        ],
        says: "error: '--date <DATE>' stands only beside '--line <HERE:THERE>' or '--capture <FILE>'",
    },
    Refused {
        name: "standard input twice",
        words: &["amend", "--date", "2026-01-02", "-", "-"],
        says: "error: '-' stands for standard input, and can be given once",
    },
];

static HELP: [Refused; 8] = [
    Refused {
        name: "the program",
        words: &["--help"],
        says: "Booked calls on one ISDN primary rate interface: plans that are proved best, and days that set up and clear their calls by Q.931 messages.",
    },
    Refused {
        name: "the program, by a letter",
        words: &["-h"],
        says: "Booked calls on one ISDN primary rate interface: plans that are proved best, and days that set up and clear their calls by Q.931 messages.",
    },
    Refused {
        name: "the program, by a command",
        words: &["help"],
        says: "Booked calls on one ISDN primary rate interface: plans that are proved best, and days that set up and clear their calls by Q.931 messages.",
    },
    Refused {
        name: "a command",
        words: &["help", "sold"],
        says: "Print the last plan of a proved plan's day by its journal: its bookings, and after them those that were sold while it ran",
    },
    Refused {
        name: "a command, by an option after others",
        words: &["capacity", "--date", "2026-01-02", "--help"],
        says: "Print what 0 to 30 channels would earn with a day's bookings, and what one more would add to each",
    },
    Refused {
        name: "a command, by a letter before others",
        words: &["decode", "-hV"],
        says: "Print the type, the reference and the elements of a Q.931 message",
    },
    Refused {
        name: "the version",
        words: &["--version"],
        says: "bx 0.2.0\n",
    },
    Refused {
        name: "the version, by a letter",
        words: &["-V"],
        says: "bx 0.2.0\n",
    },
];

/// A text up to its first empty line.
fn first_part(text: &str) -> &str {
    match text.split_once("\n\n") {
        Some((part, _)) => part,
        None => text,
    }
}

/// Whether words are wrong, and just this is said of them.
fn is_wrong(refusal: &Refusal, says: &str) -> bool {
    match refusal {
        Refusal::Wrong(text) => first_part(text) == says,
        _ => false,
    }
}

/// Whether words ask for help that begins with just this.
fn is_help(refusal: &Refusal, says: &str) -> bool {
    match refusal {
        Refusal::Help(text) => first_part(text) == says,
        _ => false,
    }
}

/// The name of the first of these words of which something else is said.
fn said_otherwise(alloc: Global, rows: &[Refused]) -> Option<&'static str> {
    for row in rows {
        let is_said = match read_words(alloc, row.words) {
            Err(refusal) => is_wrong(&refusal, row.says),
            Ok(_) => false,
        };
        if !is_said {
            return Some(row.name);
        }
    }
    None
}

/// The name of the first words that are helped otherwise.
fn helped_otherwise(alloc: Global) -> Option<&'static str> {
    for row in &HELP {
        let is_helped = match read_words(alloc, row.words) {
            Err(refusal) => is_help(&refusal, row.says),
            Ok(_) => false,
        };
        if !is_helped {
            return Some(row.name);
        }
    }
    None
}

#[test]
fn what_is_missing(rt: HostRuntime) {
    assert_eq!(rt; said_otherwise(rt.alloc(), &MISSING), None);
}

#[test]
fn values_that_are_none(rt: HostRuntime) {
    assert_eq!(rt; said_otherwise(rt.alloc(), &VALUES), None);
}

#[test]
fn options_beside_others(rt: HostRuntime) {
    assert_eq!(rt; said_otherwise(rt.alloc(), &BESIDE), None);
}

#[test]
fn words_for_help(rt: HostRuntime) {
    assert_eq!(rt; helped_otherwise(rt.alloc()), None);
}
