//! Octets from anyone: whatever is read as a message spells its octets again, but for the shifts.

use crate::messages::{DUMMY_REFERENCE, ONE_OCTET_REFERENCE, STATUS};
use bx_cases::messages::{FAR_RELEASE_COMPLETE_17, SETUP};
use bx_q931::{Element, Message, Octets, read};

static SHIFTED: [u8; 23] = [
    0x08, 0x02, 0x80, 0x01, 0x07, 0x96, 0x9E, 0x91, 0x18, 0x03, 0xA9, 0x83, 0x82, 0x18, 0x03, 0xA9,
    0x83, 0x81, 0x98, 0x08, 0x01, 0x10, 0x90,
];

/// The octets after the shifts at the start.
fn after_shifts(octets: &[u8]) -> &[u8] {
    let shifts = octets.iter().take_while(|octet| **octet / 16 == 9).count();
    octets.get(shifts..).unwrap_or(&[])
}

/// The octets after an element, where they begin with it.
fn after_element<'a>(octets: &'a [u8], element: &Element<'_>) -> Option<&'a [u8]> {
    let (id, rest) = after_shifts(octets).split_first()?;
    if *id != element.id {
        return None;
    }
    if *id >= 0x80 {
        return Some(rest);
    }
    let (len, rest) = rest.split_first()?;
    let contents = rest.get(..*len as usize)?;
    if contents != element.contents {
        return None;
    }
    rest.get(*len as usize..)
}

/// Whether the elements of a message are its octets again, but for the shifts.
fn spells(octets: &[u8], message: &Message<'_>) -> bool {
    let header = match octets {
        [_, len, ..] => *len as usize + 3,
        _ => return false,
    };
    let mut rest = octets.get(header..).unwrap_or(&[0]);
    for element in message.elements() {
        match after_element(rest, &element) {
            Some(after) => rest = after,
            None => return false,
        }
    }
    after_shifts(rest).is_empty()
}

/// Reads the octets, and asks all that a message can be asked. False where a message does not spell them.
fn is_harmless(octets: &[u8]) -> bool {
    match read(octets) {
        Ok(message) => {
            let _ = (message.cause(), message.state(), message.called());
            let _ = (message.channel(), message.kind(), message.reference());
            spells(octets, &message)
        }
        Err(_) => true,
    }
}

fn are_short_harmless() -> bool {
    let mut harmless = true;
    for first in 0..=255 {
        harmless &= is_harmless(&[first]);
        for second in 0..=255 {
            harmless &= is_harmless(&[first, second]);
        }
    }
    harmless
}

fn replaced(octets: &[u8], at: usize, value: u8) -> Octets {
    let mut others = Octets::new();
    for (n, octet) in octets.iter().enumerate() {
        let _ = others.try_push(if n == at { value } else { *octet });
    }
    others
}

/// Whether the octets before this place are harmless, and all of them with each value there.
fn is_place_harmless(octets: &[u8], at: usize) -> bool {
    let mut harmless = is_harmless(octets.get(..at).unwrap_or(&[]));
    for value in 0..=255 {
        harmless &= is_harmless(&replaced(octets, at, value));
    }
    harmless
}

fn are_places_harmless(octets: &[u8]) -> bool {
    let mut harmless = true;
    for at in 0..octets.len() {
        harmless &= is_place_harmless(octets, at);
    }
    harmless
}

#[test]
fn hostile_octets_are_read(rt: HostRuntime) {
    assert!(rt; are_short_harmless(), "one octet or two");
    assert!(rt; are_places_harmless(SETUP), "SETUP");
    assert!(rt; are_places_harmless(&STATUS), "STATUS");
    assert!(rt;
        are_places_harmless(FAR_RELEASE_COMPLETE_17),
        "RELEASE COMPLETE"
    );
    assert!(rt; are_places_harmless(&SHIFTED), "shifts");
    assert!(rt; are_places_harmless(&ONE_OCTET_REFERENCE), "one octet");
    assert!(rt; are_places_harmless(&DUMMY_REFERENCE), "no reference");
}
