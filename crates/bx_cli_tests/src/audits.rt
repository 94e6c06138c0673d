//! Days that are told by their journals, with captures that are made afterwards.

use crate::file_commands::{Case, first_wrong};
use crate::files::{does, folder};
use crate::program::Answer::{Fails, Misused, Prints};
use std::alloc::{AllocError, Global};
use std::fs;
use std::test::Fail;

/// Journals of the plan in `one.txt`, and of others.
static JOURNALS: [(&str, &str); 9] = [
    ("empty.journal", ""),
    (
        "front.journal",
        "bx-journal 1\nplan 2115e49ff6c2d6cbbe45cbc298589d645d1564",
    ),
    (
        "torn.journal",
        "bx-journal 1\nplan 2115e49ff6c2d6cbbe45cbc298589d645d156451f70f44ccb653b62c10c98e95\ntick\nheard 0",
    ),
    (
        "down.journal",
        "bx-journal 1\nplan 2115e49ff6c2d6cbbe45cbc298589d645d156451f70f44ccb653b62c10c98e95\ndown\n",
    ),
    (
        "late.journal",
        "bx-journal 1\nplan 2115e49ff6c2d6cbbe45cbc298589d645d156451f70f44ccb653b62c10c98e95\ndown\ntick\n",
    ),
    // An outage after which the far end answers, and one after which no word comes.
    (
        "asked.journal",
        "bx-journal 1\nplan 2115e49ff6c2d6cbbe45cbc298589d645d156451f70f44ccb653b62c10c98e95\ntick\nheard 0802800107\ndown\ntick\nheard 080280017D0802809E14010A\ntick\ntick\ntick\ntick\ntick\ntick\ntick\ntick\ntick\nheard 080280014D\n",
    ),
    (
        "silent.journal",
        "bx-journal 1\nplan 2115e49ff6c2d6cbbe45cbc298589d645d156451f70f44ccb653b62c10c98e95\ntick\nheard 0802800107\ndown\ntick\ntick\ntick\ntick\ntick\ntick\ntick\ntick\ntick\nheard 080280014D\n",
    ),
    (
        "wrong.journal",
        "bx-journal 1\nplan 2115e49ff6c2d6cbbe45cbc298589d645d156451f70f44ccb653b62c10c98e95\ntick\ndown \n",
    ),
    (
        "other.journal",
        "bx-journal 1\nplan 3115e49ff6c2d6cbbe45cbc298589d645d156451f70f44ccb653b62c10c98e95\ntick\n",
    ),
];

static CASES: [Case; 19] = [
    (
        "audit @one.txt @empty.journal",
        Prints("1 waiting\nmaintenance none\n"),
    ),
    (
        "audit @one.txt @front.journal",
        Prints("1 waiting\nmaintenance none\n"),
    ),
    (
        "audit @one.txt @torn.journal",
        Prints("1 live\nmaintenance none\n"),
    ),
    (
        "audit @one.txt @down.journal",
        Prints("1 waiting\nmaintenance none\n"),
    ),
    (
        "audit @one.txt @late.journal --capture @late.pcap",
        Prints("1 live\nmaintenance none\n"),
    ),
    (
        "audit @one.txt @asked.journal",
        Prints("1 carried 1 12\nmaintenance none\n"),
    ),
    (
        "audit @one.txt @silent.journal",
        Prints("1 carried 1 11\nmaintenance none\n"),
    ),
    ("audit @one.txt @other.journal", Fails("bx: J2 OtherPlan\n")),
    ("audit @two.txt @torn.journal", Fails("bx: J2 OtherPlan\n")),
    ("audit @one.txt @wrong.journal", Fails("bx: J1 BadLine 4\n")),
    ("audit @one.txt @one.csv", Fails("bx: J1 BadLine 1\n")),
    ("audit @one.txt @gone", Fails("bx: F1 CannotRead @gone\n")),
    ("audit @unproved.txt @gone", Fails("bx: C7 NotProved 5\n")),
    (
        "audit @gone @gone --capture @gone/day.pcap --date 1969-12-31",
        Fails("bx: A5 BeyondCapture\n"),
    ),
    (
        "audit @one.txt @wrong.journal --capture @gone/day.pcap",
        Fails("bx: J1 BadLine 4\n"),
    ),
    (
        "audit @one.txt @torn.journal --capture @gone/day.pcap",
        Fails("bx: F5 CannotWrite @gone/day.pcap\n"),
    ),
    ("audit @one.txt", Misused),
    ("audit @one.txt @torn.journal --date 2026-01-05", Misused),
    ("audit @one.txt @torn.journal --quiet", Misused),
];

#[test]
fn journals_and_what_is_printed(rt: HostRuntime) -> Result<(), Fail> {
    let folder = folder(&rt)?;
    for (name, text) in &JOURNALS {
        let path = format!(in rt.alloc(); "{folder}/{name}")?;
        fs::write(&rt, path.as_str(), *text)?;
    }
    assert_eq!(rt; first_wrong(&rt, &folder, &CASES)?, None);
    fs::remove_dir_all(&rt, folder.as_str())?;
    Ok(())
}

/// A packet of a capture whose moments are seconds of the day.
#[derive(Clone, Copy)]
struct Packet<'a> {
    moment: u32,
    came: bool,
    message: &'a [u8],
    following: &'a [u8],
}

/// The packet at the start.
fn first_packet(octets: &[u8]) -> Option<Packet<'_>> {
    let length = u16::from_be_bytes([*octets.get(10)?, *octets.get(11)?]) as usize;
    Some(Packet {
        moment: u16::from_be_bytes([*octets.get(2)?, *octets.get(3)?]) as u32,
        came: *octets.get(31)? == 1,
        message: octets.get(36..)?.get(..length.saturating_sub(20))?,
        following: octets.get(16..)?.get(length..)?,
    })
}

fn put_ticks(journal: &mut Vec<u8>, count: u32) -> Result<(), AllocError> {
    for _tick in 0..count {
        journal.extend_from_slice(b"tick\n")?;
    }
    Ok(())
}

fn put_heard(journal: &mut Vec<u8>, octets: &[u8]) -> Result<(), AllocError> {
    journal.extend_from_slice(b"heard ")?;
    for octet in octets {
        let digits = b"0123456789ABCDEF";
        journal.push(digits[(*octet / 16) as usize])?;
        journal.push(digits[(*octet % 16) as usize])?;
    }
    journal.push(b'\n')?;
    Ok(())
}

/// The journal of a day of so many seconds by its capture: a second for each moment, and what came, as it came.
fn journal_by(
    alloc: Global,
    head: &str,
    capture: &[u8],
    turns: u32,
) -> Result<Vec<u8>, AllocError> {
    let mut journal = Vec::new(alloc);
    journal.extend_from_slice(head.as_bytes())?;
    let mut rest = capture.get(24..).unwrap_or(capture);
    let mut moment = 0u32;
    for _packet in 0..1000u32 {
        let Some(packet) = first_packet(rest) else {
            break;
        };
        put_ticks(&mut journal, packet.moment.saturating_sub(moment))?;
        moment = packet.moment.max(moment);
        if packet.came {
            put_heard(&mut journal, packet.message)?;
        }
        rest = packet.following;
    }
    put_ticks(&mut journal, turns.saturating_sub(moment))?;
    Ok(journal)
}

/// The head of a journal of the plan in `two.txt`, and what becomes of its bookings.
const HEAD: &str =
    "bx-journal 1\nplan 7c35ee9492f27e9c9fec6d438270c41290c5bc10066cef31da15ea69a39e4bae\n";

const OUTCOMES: &str = "1 unanswered\n2 carried 13 20\n3 refused\nmaintenance none\n";

/// Whether the day and its audit, with these options, tell the same, and write the same capture.
fn is_same(rt: &HostRuntime, folder: &str, options: &str) -> Result<bool, Fail> {
    let day = format!(in rt.alloc(); "day @two.txt @calls.csv --capture @day.pcap{options}")?;
    let audit = format!(in rt.alloc();
        "audit @two.txt @day.journal --capture @after.pcap{options}"
    )?;
    let told = (0, OUTCOMES, "");
    if !does(rt, folder, &day, told)? || !does(rt, folder, &audit, told)? {
        return Ok(false);
    }
    let name = format!(in rt.alloc(); "{folder}/day.pcap")?;
    let then = fs::read(rt, name.as_str())?;
    let name = format!(in rt.alloc(); "{folder}/after.pcap")?;
    let after = fs::read(rt, name.as_str())?;
    Ok(then.len() > 200 && then.as_slice() == after.as_slice())
}

#[test]
fn captures_made_afterwards(rt: HostRuntime) -> Result<(), Fail> {
    let folder = folder(&rt)?;
    let words = "day @two.txt @calls.csv --capture @day.pcap";
    assert!(rt; does(&rt, &folder, words, (0, OUTCOMES, ""))?, "day");
    let name = format!(in rt.alloc(); "{folder}/day.pcap")?;
    let capture = fs::read(&rt, name.as_str())?;
    let journal = journal_by(rt.alloc(), HEAD, &capture, 98)?;
    let name = format!(in rt.alloc(); "{folder}/day.journal")?;
    fs::write(&rt, name.as_str(), journal)?;
    assert!(rt; is_same(&rt, &folder, "")?, "seconds of the day");
    assert!(rt; is_same(&rt, &folder, " --date 2026-01-05")?, "instants");
    fs::remove_dir_all(&rt, folder.as_str())?;
    Ok(())
}
