//! Live days through the program's words. Their seconds have all gone by, so that each is begun late, at once.

use crate::file_commands::{Case, first_wrong};
use crate::files::{does, folder, placed};
use crate::program::Answer::{Fails, FailsForGood, Misused, Prints};
use std::fs;
use std::fs::File;
use std::net::UdpSocket;
use std::test::Fail;

/// A day whose other end never comes.
const MISSED: &str = "1 missed\nmaintenance none\n";

/// Days that go by, and go on from their journals; and why others do not.
static DAYS: [Case; 19] = [
    (
        "serve @one.txt --live --line 19801:19802 --date 2020-01-01",
        Prints(MISSED),
    ),
    (
        "serve @one.txt --live --line 19801:19802 --date 2020-01-01 --journal @day.journal",
        Prints(MISSED),
    ),
    ("audit @one.txt @day.journal", Prints(MISSED)),
    (
        "serve @one.txt --live --line 19801:19802 --date 2020-01-01 --journal @day.journal --quiet",
        Prints(MISSED),
    ),
    (
        "serve @one.txt --live --line 19801:19802 --date 2020-01-02 --journal @day.journal",
        FailsForGood("bx: J5 OtherDay\n"),
    ),
    (
        "serve @one.txt --live --line 19801:19802 --date 2020-01-01 --zone XXX-1 --journal @day.journal",
        FailsForGood("bx: J5 OtherDay\n"),
    ),
    (
        "serve @one.txt --live --line 19801:19802 --date 2020-01-01 --journal @day.journal --pace 1000",
        FailsForGood("bx: J5 OtherDay\n"),
    ),
    (
        "serve @one.txt --live --line 19801:19802 --date 2020-01-01 --journal @short.journal --turns 1",
        Prints("1 waiting\nmaintenance none\n"),
    ),
    (
        "audit @one.txt @short.journal",
        Prints("1 waiting\nmaintenance none\n"),
    ),
    (
        "serve @one.txt --live --line 19801:19802 --date 2020-01-01 --journal @short.journal",
        Prints(MISSED),
    ),
    (
        "serve @two.txt --live --line 19801:19802 --date 2020-01-01 --journal @day.journal",
        FailsForGood("bx: J2 OtherPlan\n"),
    ),
    (
        "serve @one.txt --live --line 19801:19802 --date 2020-01-01 --journal @one.csv",
        FailsForGood("bx: J1 BadLine 1\n"),
    ),
    (
        "serve @one.txt --live --line 19801:19802 --date 2020-01-01 --journal @gone/day.journal",
        Fails("bx: J4 CannotRecord @gone/day.journal\n"),
    ),
    (
        "serve @one.txt --live --line 19801:19802 --date 2020-01-01 --journal /dev/null",
        FailsForGood("bx: J7 NotAFile /dev/null\n"),
    ),
    (
        "serve @unproved.txt --live --line 19801:19802 --date 2020-01-01",
        FailsForGood("bx: C7 NotProved 5\n"),
    ),
    (
        "serve @gone --live --line 19801:19802 --date 2026-02-29",
        FailsForGood("bx: A1 BadDate\n"),
    ),
    (
        "serve @gone --live --line 19801:19802 --date 2020-01-01 --zone X",
        FailsForGood("bx: A2 BadZone\n"),
    ),
    (
        "serve @gone --live --line 19801:19802 --date 1969-12-31",
        FailsForGood("bx: A5 BeyondCapture\n"),
    ),
    ("serve @one.txt --live --line 19801:19802", Misused),
];

/// Words of days that are wrong.
static WRONG: [Case; 20] = [
    ("serve @one.txt --live --date 2020-01-01", Misused),
    (
        "serve @one.txt --line 19801:19802 --date 2020-01-01",
        Misused,
    ),
    ("serve @one.txt --port 1 --live --date 2020-01-01", Misused),
    (
        "serve @one.txt --port 1 --live --line 19801:19802 --date 2020-01-01",
        Misused,
    ),
    (
        "serve @one.txt --socket @live --live --line 19801:19802 --date 2020-01-01",
        Misused,
    ),
    (
        "serve @one.txt --live --line 19801 --date 2020-01-01",
        Misused,
    ),
    (
        "serve @one.txt --live --line 19801:0 --date 2020-01-01",
        Misused,
    ),
    (
        "serve @one.txt --live --line 19801:65536 --date 2020-01-01",
        Misused,
    ),
    (
        "serve @one.txt --live --line 19801:19801 --date 2020-01-01",
        Misused,
    ),
    (
        "serve @one.txt --live --line +1:19801 --date 2020-01-01",
        Misused,
    ),
    (
        "serve @one.txt --live --line 19801:19802 --date 2020-01-01 --capture @day.pcap",
        Misused,
    ),
    (
        "serve @one.txt --live --line 19801:19802 --date 2020-01-01 --records @day.csv",
        Misused,
    ),
    ("serve @one.txt --port 1 --date 2020-01-01", Misused),
    ("serve @one.txt --port 1 --pace 5", Misused),
    (
        "serve @one.txt --live --line 19801:19802 --date 2020-01-01 --pace 0",
        Misused,
    ),
    (
        "serve @one.txt --live --line 19801:19802 --date 2020-01-01 --pace 1001",
        Misused,
    ),
    (
        "serve @one.txt --live --line 19801:19802 --date 2020-01-01 --turns 300001",
        Misused,
    ),
    (
        "serve @one.txt --live --line 19801:19802 --zone UTC0",
        Misused,
    ),
    ("far @answer.csv --line 19805:19806", Misused),
    ("far @answer.csv --port 1 --pace 5", Misused),
];

/// The head of the journal of a live day of the plan in `one.txt`.
const HEAD: &str =
    "bx-journal 2 rules 3\nplan 2115e49ff6c2d6cbbe45cbc298589d645d156451f70f44ccb653b62c10c98e95\nday live 1577836800 1\n";

/// Whether the journal of this name has the head, and after it this text and so many seconds without a link.
fn holds(
    rt: &HostRuntime,
    folder: &str,
    name: &str,
    text: &str,
    down: usize,
) -> Result<bool, Fail> {
    let path = placed(rt.alloc(), name, folder)?;
    let octets = fs::read(rt, path.as_str())?;
    let Some(rest) = octets.strip_prefix(HEAD.as_bytes()) else {
        return Ok(false);
    };
    Ok(ends_with(rest, text.as_bytes(), down))
}

/// Whether octets are this text, and after it so many seconds without a link.
pub(crate) fn ends_with(octets: &[u8], text: &[u8], down: usize) -> bool {
    match octets.strip_prefix(text) {
        Some(rest) => {
            rest.len() == down.saturating_mul(5)
                && rest.chunks(5).all(|line| line == b"down\n".as_slice())
        }
        None => false,
    }
}

#[test]
fn days_that_have_gone_by(rt: HostRuntime) -> Result<(), Fail> {
    let folder = folder(&rt)?;
    assert_eq!(rt; first_wrong(&rt, &folder, &DAYS)?, None);
    assert_eq!(rt; first_wrong(&rt, &folder, &WRONG)?, None);
    assert!(rt;
        holds(&rt, &folder, "@day.journal", "", 60)?,
        "each second is on record"
    );
    assert!(rt;
        holds(&rt, &folder, "@short.journal", "", 60)?,
        "the day went on"
    );
    fs::remove_dir_all(&rt, folder.as_str())?;
    Ok(())
}

/// A journal that a crash has torn goes on after its whole lines. A call that is up where no link comes any more holds the day open, up to
/// its last second.
#[test]
fn torn_journals(rt: HostRuntime) -> Result<(), Fail> {
    let folder = folder(&rt)?;
    let words =
        "serve @one.txt --live --line 19803:19804 --date 2020-01-01 --journal @torn.journal";
    let path = placed(rt.alloc(), "@torn.journal", &folder)?;
    let text = format!(in rt.alloc(); "{HEAD}tick\nheard 0")?;
    fs::write(&rt, path.as_str(), text.as_str())?;
    let told = (3, "1 live\nmaintenance none\n", "bx: L10 StillUp\n");
    assert!(rt; does(&rt, &folder, words, told)?, "torn behind a second");
    assert!(rt;
        holds(&rt, &folder, "@torn.journal", "tick\n", 299_999)?,
        "its front stays"
    );
    fs::write(&rt, path.as_str(), HEAD.get(..40).unwrap_or(""))?;
    assert!(rt;
        does(&rt, &folder, words, (0, MISSED, ""))?,
        "torn in its head"
    );
    assert!(rt; holds(&rt, &folder, "@torn.journal", "", 60)?, "it begins");
    fs::remove_dir_all(&rt, folder.as_str())?;
    Ok(())
}

/// A line whose own port is in use, before its journal is touched; and a journal that another program writes, which is left as it is.
#[test]
fn what_is_in_use(rt: HostRuntime) -> Result<(), Fail> {
    let folder = folder(&rt)?;
    let held = UdpSocket::bind(&rt, "127.0.0.1:0")?;
    let port = held.local_addr()?.port();
    let words = format!(in rt.alloc();
        "serve @one.txt --live --line {port}:19808 --date 2020-01-01 --journal @one.csv"
    )?;
    let refused = (1, "", "bx: F3 CannotListen\n");
    assert!(rt; does(&rt, &folder, &words, refused)?, "the port");
    let path = placed(rt.alloc(), "@held.journal", &folder)?;
    fs::write(&rt, path.as_str(), "")?;
    let journal = File::open(&rt, path.as_str())?;
    journal.lock()?;
    let refused = format!(in rt.alloc(); "bx: J6 InUse {path}\n")?;
    for words in [
        "serve @one.txt --live --line 19807:19808 --date 2020-01-01 --journal @held.journal",
        "day @one.txt @answer.csv --journal @held.journal",
    ] {
        assert!(rt;
            does(&rt, &folder, words, (1, "", refused.as_str()))?,
            "{words}"
        );
    }
    assert!(rt; fs::read(&rt, path.as_str())?.is_empty(), "left as it is");
    fs::remove_dir_all(&rt, folder.as_str())?;
    Ok(())
}
