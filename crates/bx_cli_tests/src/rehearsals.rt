//! Days that are rehearsed with what happens logged, through the program's words.

use crate::file_commands::{Case, first_wrong};
use crate::files::{does, folder, placed};
use crate::program::Answer::{Fails, Prints};
use std::fs;
use std::net::TcpListener;
use std::test::Fail;

/// A day whose call is carried.
const CARRIED: &str = "1 carried 1 60\nmaintenance none\n";

/// Its records.
const RECORDS: &str =
    "row,direction,number,channel,start,end,pay,outcome,from,until,seconds\n1,out,1234,1,0,60,5,carried,1,60,59\n";

/// Days with a journal, and what that tells; and why others are not rehearsed.
static DAYS: [Case; 21] = [
    (
        "day @one.txt @answer.csv --journal @day.journal --capture @day.pcap --records @day.csv",
        Prints(CARRIED),
    ),
    (
        "audit @one.txt @day.journal --capture @audit.pcap",
        Prints(CARRIED),
    ),
    ("records @one.txt @day.journal --quiet", Prints(RECORDS)),
    (
        "day @one.txt @answer.csv --journal @day.journal",
        Fails("bx: J3 NotEmpty @day.journal\n"),
    ),
    (
        "day @one.txt @answer.csv --journal @short.journal --turns 1 --quiet",
        Prints("1 live\nmaintenance none\n"),
    ),
    (
        "audit @one.txt @short.journal",
        Prints("1 live\nmaintenance none\n"),
    ),
    (
        "day @two.txt @calls.csv --journal @two.journal",
        Prints("1 unanswered\n2 carried 13 20\n3 refused\nmaintenance none\n"),
    ),
    (
        "audit @two.txt @two.journal",
        Prints("1 unanswered\n2 carried 13 20\n3 refused\nmaintenance none\n"),
    ),
    (
        "day @one.txt @answer.csv --journal @one.csv --capture @gone/day.pcap",
        Fails("bx: J3 NotEmpty @one.csv\n"),
    ),
    (
        "serve @one.txt --port 1 --journal @one.csv",
        Fails("bx: J3 NotEmpty @one.csv\n"),
    ),
    (
        "day @one.txt @answer.csv --journal @",
        Fails("bx: J4 CannotRecord @\n"),
    ),
    (
        "day @one.txt @answer.csv --journal @gone/day.journal",
        Fails("bx: J4 CannotRecord @gone/day.journal\n"),
    ),
    (
        "day @one.txt @answer.csv --journal /dev/full",
        Fails("bx: J7 NotAFile /dev/full\n"),
    ),
    (
        "day @one.txt @gone --journal @one.csv",
        Fails("bx: F1 CannotRead @gone\n"),
    ),
    (
        "day @unproved.txt @gone --journal @one.csv",
        Fails("bx: C7 NotProved 5\n"),
    ),
    (
        "day @gone @gone --journal @one.csv --capture @day.pcap --date 1969-12-31",
        Fails("bx: A5 BeyondCapture\n"),
    ),
    (
        "serve @gone --port 1 --journal @one.csv --records @day.csv --date 2026-02-29",
        Fails("bx: A1 BadDate\n"),
    ),
    (
        "day @one.txt @answer.csv --journal @again.journal --capture @gone/day.pcap",
        Fails("bx: F5 CannotWrite @gone/day.pcap\n"),
    ),
    (
        "serve @one.txt --port 1 --journal @again.journal --records @gone/day.csv",
        Fails("bx: F5 CannotWrite @gone/day.csv\n"),
    ),
    (
        "serve @one.txt --socket @one.csv --journal @again.journal",
        Fails("bx: F3 CannotListen\n"),
    ),
    (
        "day @one.txt @answer.csv --journal @again.journal",
        Prints(CARRIED),
    ),
];

/// Whether two files hold the same.
fn same(rt: &HostRuntime, folder: &str, one: &str, other: &str) -> Result<bool, Fail> {
    let one = placed(rt.alloc(), one, folder)?;
    let other = placed(rt.alloc(), other, folder)?;
    let octets = fs::read(rt, one.as_str())?;
    Ok(octets.as_slice() == fs::read(rt, other.as_str())?.as_slice())
}

/// Whether a file holds this.
fn holds(rt: &HostRuntime, folder: &str, name: &str, text: &str) -> Result<bool, Fail> {
    let path = placed(rt.alloc(), name, folder)?;
    Ok(fs::read(rt, path.as_str())?.as_slice() == text.as_bytes())
}

#[test]
fn days_with_a_journal(rt: HostRuntime) -> Result<(), Fail> {
    let folder = folder(&rt)?;
    assert_eq!(rt; first_wrong(&rt, &folder, &DAYS)?, None);
    assert!(rt;
        same(&rt, &folder, "@day.pcap", "@audit.pcap")?,
        "one capture by the day and by its journal"
    );
    assert!(rt;
        same(&rt, &folder, "@day.journal", "@again.journal")?,
        "one journal of one day"
    );
    assert!(rt; holds(&rt, &folder, "@day.csv", RECORDS)?, "records");
    assert!(rt;
        holds(
            &rt,
            &folder,
            "@one.csv",
            "start,end,number,pay\n2026-01-05T00:00:00Z,2026-01-05T00:01:00Z,1234,5\n",
        )?,
        "a file that holds something stays"
    );
    fs::remove_dir_all(&rt, folder.as_str())?;
    Ok(())
}

/// A port that is taken is told, and the journal is left empty.
#[test]
fn journals_without_a_peer(rt: HostRuntime) -> Result<(), Fail> {
    let folder = folder(&rt)?;
    let listener = TcpListener::bind(&rt, "127.0.0.1:0")?;
    let port = listener.local_addr()?.port();
    let words = format!(in rt.alloc(); "serve @one.txt --port {port} --journal @day.journal")?;
    let refused = (1, "", "bx: F3 CannotListen\n");
    assert!(rt; does(&rt, &folder, &words, refused)?, "taken");
    assert!(rt; holds(&rt, &folder, "@day.journal", "")?, "not begun");
    fs::remove_dir_all(&rt, folder.as_str())?;
    Ok(())
}
