//! The commands of a day on files, with what they print.

use crate::file_commands::Case;
use crate::program::Answer::{Fails, Misused, Prints};

pub(crate) static DAYS: [Case; 36] = [
    (
        "day @one.txt @answer.csv --turns 98",
        Prints("1 carried 1 60\nmaintenance none\n"),
    ),
    (
        "day @one.txt @answer.csv",
        Prints("1 carried 1 60\nmaintenance none\n"),
    ),
    (
        "day @one.txt @answer.csv --turns 1",
        Prints("1 live\nmaintenance none\n"),
    ),
    (
        "day @two.txt @calls.csv",
        Prints("1 unanswered\n2 carried 13 20\n3 refused\nmaintenance none\n"),
    ),
    (
        "day @one.txt @answer.csv --turns 98 --capture @day.pcap --quiet",
        Prints("1 carried 1 60\nmaintenance none\n"),
    ),
    (
        "day @one.txt @answer.csv --turns 98 --capture @dated.pcap --date 2026-01-05",
        Prints("1 carried 1 60\nmaintenance none\n"),
    ),
    (
        "day @one.txt @answer.csv --capture @gone/day.pcap",
        Fails("bx: F5 CannotWrite @gone/day.pcap\n"),
    ),
    (
        "day @one.txt @gone --capture @gone/day.pcap",
        Fails("bx: F1 CannotRead @gone\n"),
    ),
    (
        "day @gone @gone --capture @gone/day.pcap --date 1969-12-31",
        Fails("bx: A5 BeyondCapture\n"),
    ),
    (
        "serve @gone --port 1 --capture @gone/day.pcap --date 2026-02-29",
        Fails("bx: A1 BadDate\n"),
    ),
    (
        "far @answer.csv --port 1 --capture @gone/day.pcap",
        Fails("bx: F5 CannotWrite @gone/day.pcap\n"),
    ),
    (
        "day @one.txt @answer.csv --records @gone/day.csv",
        Fails("bx: F5 CannotWrite @gone/day.csv\n"),
    ),
    (
        "day @one.txt @answer.csv --records @ --quiet",
        Fails("bx: F5 CannotWrite @\n"),
    ),
    (
        "day @one.txt @answer.csv --records @gone/day.csv --capture @gone/day.pcap",
        Fails("bx: F5 CannotWrite @gone/day.pcap\n"),
    ),
    (
        "day @one.txt @dance.csv --records @gone/day.csv",
        Fails("bx: S3 BadEntry 1\n"),
    ),
    (
        "day @gone @gone --records @gone/day.csv --date 2026-02-29",
        Fails("bx: A1 BadDate\n"),
    ),
    (
        "day @gone @gone --records @gone/day.csv --date 9999-12-31",
        Fails("bx: A3 OutOfRange\n"),
    ),
    (
        "serve @gone --port 1 --records @gone/day.csv --date 2026-01-05 --zone x",
        Fails("bx: A2 BadZone\n"),
    ),
    (
        "serve @one.txt --port 1 --records @gone/day.csv",
        Fails("bx: F5 CannotWrite @gone/day.csv\n"),
    ),
    (
        "serve @one.txt --socket @gone/link --records @ --date 2026-01-05",
        Fails("bx: F5 CannotWrite @\n"),
    ),
    ("far @answer.csv --socket @gone --records @day.csv", Misused),
    ("serve @one.txt --port 1 --socket @gone", Misused),
    ("serve @one.txt --socket ", Misused),
    ("far @answer.csv --socket ", Misused),
    ("day @one.txt @answer.csv --date 2026-01-05", Misused),
    ("day @four.txt @dance.csv", Fails("bx: S3 BadEntry 1\n")),
    ("day @short.txt @gone", Fails("bx: P1 BadLine 3\n")),
    ("day @gone @dance.csv", Fails("bx: F1 CannotRead @gone\n")),
    ("day @one.txt @gone", Fails("bx: F1 CannotRead @gone\n")),
    ("day @unproved.txt @gone", Fails("bx: C7 NotProved 5\n")),
    (
        "serve @unproved.txt --port 1",
        Fails("bx: C7 NotProved 5\n"),
    ),
    ("day @one.txt @answer.csv --turns 0", Misused),
    ("day @one.txt @answer.csv --turns 300001", Misused),
    ("serve @one.txt --port 0", Misused),
    ("far @answer.csv --port 65536", Misused),
    ("far @answer.csv", Misused),
];
