//! What words ask for: the whole request of each command, with each of its options and without it, and refusals of words.

use crate::spelled_requests::spelled;
use bx_words::{Refusal, read_words};
use std::alloc::{AllocError, Global};

/// Words with their name, and the request that they make.
struct Asked {
    name: &'static str,
    words: &'static [&'static str],
    request: &'static str,
}

static PLANNED: [Asked; 17] = [
    Asked {
        name: "a plan, by all options",
        words: &[
            "plan",
            "--date",
            "2026-01-02",
            "--zone",
            "UTC-3",
            "--channels",
            "4,7-9",
            "bookings.csv",
        ],
        request: "plan 2026-01-02 UTC-3 [4, 7, 8, 9] of bookings.csv",
    },
    Asked {
        name: "a plan, by no option",
        words: &["plan", "--date=2026-01-02", "bookings.csv"],
        request: "plan 2026-01-02 UTC0 [1, 2, 3, 4, 5, 6, 7, 8, 9, 10, 11, 12, 13, 14, 15, 17, 18, 19, 20, 21, 22, 23, 24, 25, 26, 27, 28, 29, 30, 31] of bookings.csv",
    },
    Asked {
        name: "a check, by all options",
        words: &[
            "check",
            "--channels",
            "none",
            "--zone",
            "UTC-4",
            "--date",
            "2026-01-03",
            "rows.csv",
            "plan.txt",
        ],
        request: "check 2026-01-03 UTC-4 [] of rows.csv against plan.txt",
    },
    Asked {
        name: "a check, by no option",
        words: &["check", "rows.csv", "plan.txt", "--date", "2026-01-03"],
        request: "check 2026-01-03 UTC0 [1, 2, 3, 4, 5, 6, 7, 8, 9, 10, 11, 12, 13, 14, 15, 17, 18, 19, 20, 21, 22, 23, 24, 25, 26, 27, 28, 29, 30, 31] of rows.csv against plan.txt",
    },
    Asked {
        name: "more bookings, by all options",
        words: &[
            "amend",
            "--zone",
            "UTC-5",
            "--date",
            "2026-01-04",
            "old.txt",
            "more.csv",
        ],
        request: "amend 2026-01-04 UTC-5 of old.txt by more.csv",
    },
    Asked {
        name: "more bookings, by no option",
        words: &["amend", "--date", "2026-01-04", "old.txt", "more.csv"],
        request: "amend 2026-01-04 UTC0 of old.txt by more.csv",
    },
    Asked {
        name: "capacities, by all options",
        words: &[
            "capacity",
            "--date",
            "2026-01-05",
            "--zone",
            "UTC-6",
            "wanted.csv",
        ],
        request: "capacity 2026-01-05 UTC-6 of wanted.csv",
    },
    Asked {
        name: "capacities, by no option",
        words: &["capacity", "--date", "2026-01-05", "wanted.csv"],
        request: "capacity 2026-01-05 UTC0 of wanted.csv",
    },
    Asked {
        name: "one refused row",
        words: &["explain", "proved.txt", "65535"],
        request: "explain proved.txt row 65535",
    },
    Asked {
        name: "all refused rows",
        words: &["explain", "proved.txt"],
        request: "explain proved.txt row none",
    },
    Asked {
        name: "a quote, by all options",
        words: &[
            "quote",
            "--inward",
            "taken.txt",
            "08:00",
            "09:30",
            "--date",
            "2026-01-06",
            "--zone",
            "UTC-7",
        ],
        request: "quote taken.txt from 08:00 to 09:30 inward true on 2026-01-06 UTC-7",
    },
    Asked {
        name: "a quote, by a date",
        words: &[
            "quote",
            "taken.txt",
            "08:00",
            "09:30",
            "--date",
            "2026-01-06",
        ],
        request: "quote taken.txt from 08:00 to 09:30 inward false on 2026-01-06 UTC0",
    },
    Asked {
        name: "a quote, by no option",
        words: &["quote", "taken.txt", "28800", "34200"],
        request: "quote taken.txt from 28800 to 34200 inward false on none",
    },
    Asked {
        name: "a picture, by a date",
        words: &[
            "chart",
            "drawn.txt",
            "--date",
            "2026-01-07",
            "--zone",
            "UTC-8",
        ],
        request: "chart drawn.txt on 2026-01-07 UTC-8",
    },
    Asked {
        name: "a picture, by no option",
        words: &["chart", "drawn.txt"],
        request: "chart drawn.txt on none",
    },
    Asked {
        name: "a day's picture, by all options",
        words: &[
            "chart",
            "--journal",
            "went.journal",
            "drawn.txt",
            "--date",
            "2026-01-07",
            "--zone",
            "UTC-8",
        ],
        request: "chart drawn.txt by went.journal on 2026-01-07 UTC-8",
    },
    Asked {
        name: "a day's picture, by its journal alone",
        words: &["chart", "drawn.txt", "--journal", "went.journal"],
        request: "chart drawn.txt by went.journal on none",
    },
];

static RUN: [Asked; 18] = [
    Asked {
        name: "a day, by all options",
        words: &[
            "day",
            "plan.txt",
            "script.csv",
            "--turns",
            "31",
            "--journal",
            "new.journal",
            "--records",
            "day.csv",
            "--capture",
            "day.pcap",
            "--date",
            "2026-02-01",
            "--zone",
            "UTC-9",
            "--quiet",
        ],
        request: "rehearsal of plan.txt towards the script script.csv journal new.journal turns 31 records day.csv on 2026-02-01 UTC-9 capture day.pcap on 2026-02-01 UTC-9 quiet true",
    },
    Asked {
        name: "a day, by no option",
        words: &["day", "plan.txt", "script.csv"],
        request: "rehearsal of plan.txt towards the script script.csv journal none turns none records none capture none quiet false",
    },
    Asked {
        name: "a served day, by all options of a port",
        words: &[
            "serve",
            "plan.txt",
            "--port",
            "9931",
            "--turns",
            "300000",
            "--journal",
            "kept.journal",
            "--records",
            "day.csv",
            "--capture",
            "day.pcap",
            "--date",
            "2026-02-02",
            "--zone",
            "UTC-10",
            "--quiet",
        ],
        request: "rehearsal of plan.txt towards port 9931 journal kept.journal turns 300000 records day.csv on 2026-02-02 UTC-10 capture day.pcap on 2026-02-02 UTC-10 quiet true",
    },
    Asked {
        name: "a served day, by a port alone",
        words: &["serve", "plan.txt", "--port", "9931"],
        request: "rehearsal of plan.txt towards port 9931 journal none turns none records none capture none quiet false",
    },
    Asked {
        name: "a served day, by a socket and records in seconds",
        words: &[
            "serve",
            "plan.txt",
            "--socket",
            "link.sock",
            "--records",
            "day.csv",
        ],
        request: "rehearsal of plan.txt towards socket link.sock journal none turns none records day.csv on none capture none quiet false",
    },
    Asked {
        name: "a live day, by all options of an office at a socket",
        words: &[
            "serve",
            "plan.txt",
            "--live",
            "--line",
            "9932:9933",
            "--date",
            "2026-02-03",
            "--zone",
            "UTC-11",
            "--journal",
            "live.journal",
            "--office",
            "office.sock",
            "--origin",
            "https://office.example:443",
            "--rate",
            "12",
            "--pace",
            "20",
            "--turns",
            "41",
            "--quiet",
        ],
        request: "live plan.txt line 9932 to 9933 on 2026-02-03 UTC-11 pace 20 journal live.journal office socket office.sock origin https://office.example counter none origin none rate 12 turns 41 quiet true",
    },
    Asked {
        name: "a live day, by an office at a port alone",
        words: &[
            "serve",
            "plan.txt",
            "--live",
            "--line",
            "9933:9932",
            "--date",
            "2026-02-03",
            "--journal",
            "live.journal",
            "--office-port",
            "9934",
        ],
        request: "live plan.txt line 9933 to 9932 on 2026-02-03 UTC0 pace 1 journal live.journal office port 9934 origin none counter none origin none rate none turns none quiet false",
    },
    Asked {
        name: "a live day, by all options of a counter",
        words: &[
            "serve",
            "plan.txt",
            "--live",
            "--line",
            "9933:9932",
            "--date",
            "2026-02-03",
            "--journal",
            "live.journal",
            "--office",
            "office.sock",
            "--counter-port",
            "9935",
            "--counter-origin",
            "https://calls.example",
        ],
        request: "live plan.txt line 9933 to 9932 on 2026-02-03 UTC0 pace 1 journal live.journal office socket office.sock origin none counter port 9935 origin https://calls.example rate none turns none quiet false",
    },
    Asked {
        name: "a live day, by a counter at a socket",
        words: &[
            "serve",
            "plan.txt",
            "--live",
            "--line",
            "9933:9932",
            "--date",
            "2026-02-03",
            "--journal",
            "live.journal",
            "--office-port",
            "9934",
            "--counter",
            "counter.sock",
        ],
        request: "live plan.txt line 9933 to 9932 on 2026-02-03 UTC0 pace 1 journal live.journal office port 9934 origin none counter socket counter.sock origin none rate none turns none quiet false",
    },
    Asked {
        name: "a live day, by no option",
        words: &[
            "serve",
            "--live",
            "--line",
            "9932:9933",
            "--date",
            "2026-02-03",
            "plan.txt",
        ],
        request: "live plan.txt line 9932 to 9933 on 2026-02-03 UTC0 pace 1 journal none office none origin none counter none origin none rate none turns none quiet false",
    },
    Asked {
        name: "a far end, by all options of a port",
        words: &[
            "far",
            "script.csv",
            "--port",
            "9935",
            "--capture",
            "far.pcap",
            "--date",
            "2026-02-04",
            "--zone",
            "UTC-12",
            "--quiet",
        ],
        request: "far script.csv towards port 9935 capture far.pcap on 2026-02-04 UTC-12 quiet true",
    },
    Asked {
        name: "a far end, by a socket alone",
        words: &["far", "script.csv", "--socket", "link.sock"],
        request: "far script.csv towards socket link.sock capture none quiet false",
    },
    Asked {
        name: "a far end on a line, by all options",
        words: &[
            "far",
            "script.csv",
            "--line",
            "9936:9937",
            "--date",
            "2026-02-05",
            "--zone",
            "UTC+1",
            "--pace",
            "1000",
            "--turns",
            "51",
            "--capture",
            "far.pcap",
            "--quiet",
        ],
        request: "far script.csv line 9936 to 9937 on 2026-02-05 UTC+1 pace 1000 turns 51 capture far.pcap quiet true",
    },
    Asked {
        name: "a far end on a line, by no option",
        words: &[
            "far",
            "script.csv",
            "--line",
            "9937:9936",
            "--date",
            "2026-02-05",
        ],
        request: "far script.csv line 9937 to 9936 on 2026-02-05 UTC0 pace 1 turns none capture none quiet false",
    },
    Asked {
        name: "a capture in seconds of the day",
        words: &["day", "plan.txt", "script.csv", "--capture", "day.pcap"],
        request: "rehearsal of plan.txt towards the script script.csv journal none turns none records none capture day.pcap on none quiet false",
    },
    Asked {
        name: "a message",
        words: &["decode", "080280015A"],
        request: "decode 080280015A",
    },
    Asked {
        name: "a rate and a pace at their ends",
        words: &[
            "serve",
            "plan.txt",
            "--live",
            "--line",
            "1:65535",
            "--date",
            "2026-02-03",
            "--journal",
            "live.journal",
            "--office",
            "o.sock",
            "--rate",
            "1000000",
            "--pace",
            "1000",
            "--turns",
            "1",
        ],
        request: "live plan.txt line 1 to 65535 on 2026-02-03 UTC0 pace 1000 journal live.journal office socket o.sock origin none counter none origin none rate 1000000 turns 1 quiet false",
    },
    Asked {
        name: "standard input, once",
        words: &["day", "-", "script.csv"],
        request: "rehearsal of - towards the script script.csv journal none turns none records none capture none quiet false",
    },
];

static TOLD: [Asked; 7] = [
    Asked {
        name: "an audit, by all options",
        words: &[
            "audit",
            "plan.txt",
            "went.journal",
            "--capture",
            "went.pcap",
            "--date",
            "2026-03-01",
            "--zone",
            "UTC+2",
        ],
        request: "audit plan.txt by went.journal capture went.pcap on 2026-03-01 UTC+2",
    },
    Asked {
        name: "an audit, by a capture in seconds",
        words: &[
            "audit",
            "plan.txt",
            "went.journal",
            "--capture",
            "went.pcap",
        ],
        request: "audit plan.txt by went.journal capture went.pcap on none",
    },
    Asked {
        name: "an audit, by no option",
        words: &["audit", "plan.txt", "went.journal"],
        request: "audit plan.txt by went.journal capture none",
    },
    Asked {
        name: "records, by all options",
        words: &[
            "records",
            "plan.txt",
            "went.journal",
            "--quiet",
            "--date",
            "2026-03-02",
            "--zone",
            "UTC+3",
        ],
        request: "records plan.txt by went.journal on 2026-03-02 UTC+3 quiet true",
    },
    Asked {
        name: "records, by a date",
        words: &[
            "records",
            "plan.txt",
            "went.journal",
            "--date",
            "2026-03-02",
        ],
        request: "records plan.txt by went.journal on 2026-03-02 UTC0 quiet false",
    },
    Asked {
        name: "records, by no option",
        words: &["records", "plan.txt", "went.journal"],
        request: "records plan.txt by went.journal on none quiet false",
    },
    Asked {
        name: "the last plan",
        words: &["sold", "plan.txt", "went.journal"],
        request: "sold plan.txt by went.journal",
    },
];

/// The name of the first words that ask for something else.
fn asked_otherwise(alloc: Global, rows: &[Asked]) -> Result<Option<&'static str>, AllocError> {
    for row in rows {
        let is_asked = match read_words(alloc, row.words) {
            Ok(request) => spelled(alloc, &request)?.as_str() == row.request,
            Err(_) => false,
        };
        if !is_asked {
            return Ok(Some(row.name));
        }
    }
    Ok(None)
}

#[test]
fn commands_on_plans(rt: HostRuntime) -> Result<(), AllocError> {
    assert_eq!(rt; asked_otherwise(rt.alloc(), &PLANNED)?, None);
    Ok(())
}

#[test]
fn commands_that_run_days(rt: HostRuntime) -> Result<(), AllocError> {
    assert_eq!(rt; asked_otherwise(rt.alloc(), &RUN)?, None);
    Ok(())
}

#[test]
fn commands_that_tell_days(rt: HostRuntime) -> Result<(), AllocError> {
    assert_eq!(rt; asked_otherwise(rt.alloc(), &TOLD)?, None);
    Ok(())
}
