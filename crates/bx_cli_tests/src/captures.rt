//! Captures that days of files keep.

use crate::files::{does, folder};
use std::fs;
use std::test::Fail;

/// The seconds of the messages of a captured day of one call: its set-up in the first second, and its end in the last.
static SECONDS: [u32; 6] = [1, 1, 1, 60, 60, 60];

/// What stands after the packet at the start, where that has this second.
fn following(octets: &[u8], second: u32) -> Option<&[u8]> {
    if octets.get(..4)? != second.to_be_bytes().as_slice() {
        return None;
    }
    let length = u16::from_be_bytes([*octets.get(10)?, *octets.get(11)?]);
    octets.get(16..)?.get(length as usize..)
}

/// Whether a capture has packets just at these seconds after the first.
fn has_seconds(octets: &[u8], first: u32) -> bool {
    let mut rest = octets.get(24..).unwrap_or(octets);
    for second in &SECONDS {
        match following(rest, first.wrapping_add(*second)) {
            Some(left) => rest = left,
            None => return false,
        }
    }
    rest.is_empty()
}

/// Whether the words are done, and keep a capture with packets after this second.
fn keeps(rt: &HostRuntime, folder: &str, words: &str, first: u32) -> Result<bool, Fail> {
    let done = (0, "1 carried 1 60\nmaintenance none\n", "");
    if !does(rt, folder, words, done)? {
        return Ok(false);
    }
    let name = format!(in rt.alloc(); "{folder}/day.pcap")?;
    let octets = fs::read(rt, name.as_str())?;
    Ok(has_seconds(&octets, first))
}

#[test]
fn captured_days(rt: HostRuntime) -> Result<(), Fail> {
    let folder = folder(&rt)?;
    let words = "day @one.txt @answer.csv --capture @day.pcap";
    assert!(rt; keeps(&rt, &folder, words, 0)?, "seconds of the day");
    let words = "day @one.txt @answer.csv --capture @day.pcap --date 2026-01-05";
    assert!(rt; keeps(&rt, &folder, words, 1_767_571_200)?, "instants");
    fs::remove_dir_all(&rt, folder.as_str())?;
    Ok(())
}
