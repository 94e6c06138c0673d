//! Restarts: what they name, and how they are answered.

use bx_q931::{Restart, acknowledge_restart, read, restarts_interface};

/// Octets that come, what they restart, whether that is a whole interface, and what is answered.
struct Case {
    name: &'static str,
    octets: &'static [u8],
    restart: Option<Restart>,
    is_interface: bool,
    answer: Option<&'static [u8]>,
}

static CASES: [Case; 14] = [
    Case {
        name: "one channel",
        octets: &[8, 2, 0, 0, 0x46, 0x18, 3, 0xA9, 0x83, 0x85, 0x79, 1, 0x80],
        restart: Some(Restart::IndicatedChannels),
        is_interface: false,
        answer: Some(&[
            8, 2, 0x80, 0, 0x4E, 0x18, 3, 0xA9, 0x83, 0x85, 0x79, 1, 0x80,
        ]),
    },
    Case {
        name: "a list of channels",
        octets: &[
            8, 2, 0, 0, 0x46, 0x18, 5, 0xA9, 0x83, 1, 2, 0x83, 0x79, 1, 0x80,
        ],
        restart: Some(Restart::IndicatedChannels),
        is_interface: false,
        answer: Some(&[
            8, 2, 0x80, 0, 0x4E, 0x18, 5, 0xA9, 0x83, 1, 2, 0x83, 0x79, 1, 0x80,
        ]),
    },
    Case {
        name: "no channel is named",
        octets: &[8, 2, 0, 0, 0x46, 0x79, 1, 0x80],
        restart: None,
        is_interface: false,
        answer: None,
    },
    Case {
        name: "the interface",
        octets: &[8, 2, 0, 0, 0x46, 0x79, 1, 0x86],
        restart: Some(Restart::SingleInterface),
        is_interface: true,
        answer: Some(&[8, 2, 0x80, 0, 0x4E, 0x79, 1, 0x86]),
    },
    Case {
        name: "each interface",
        octets: &[8, 2, 0, 0, 0x46, 0x79, 1, 0x87],
        restart: Some(Restart::AllInterfaces),
        is_interface: true,
        answer: Some(&[8, 2, 0x80, 0, 0x4E, 0x79, 1, 0x87]),
    },
    Case {
        name: "a reference of one octet",
        octets: &[8, 1, 0, 0x46, 0x79, 1, 0x87],
        restart: Some(Restart::AllInterfaces),
        is_interface: true,
        answer: Some(&[8, 2, 0x80, 0, 0x4E, 0x79, 1, 0x87]),
    },
    Case {
        name: "a class that is none",
        octets: &[8, 2, 0, 0, 0x46, 0x79, 1, 0x81],
        restart: None,
        is_interface: false,
        answer: None,
    },
    Case {
        name: "an empty restart indicator",
        octets: &[8, 2, 0, 0, 0x46, 0x79, 0],
        restart: None,
        is_interface: false,
        answer: None,
    },
    Case {
        name: "no restart indicator",
        octets: &[8, 2, 0, 0, 0x46],
        restart: None,
        is_interface: false,
        answer: None,
    },
    Case {
        name: "to the end that restarts",
        octets: &[8, 2, 0x80, 0, 0x46, 0x79, 1, 0x87],
        restart: None,
        is_interface: false,
        answer: None,
    },
    Case {
        name: "the reference of a call",
        octets: &[8, 2, 0, 5, 0x46, 0x79, 1, 0x87],
        restart: None,
        is_interface: false,
        answer: None,
    },
    Case {
        name: "the dummy reference",
        octets: &[8, 0, 0x46, 0x79, 1, 0x87],
        restart: None,
        is_interface: false,
        answer: None,
    },
    Case {
        name: "RESTART ACKNOWLEDGE",
        octets: &[8, 2, 0x80, 0, 0x4E, 0x79, 1, 0x87],
        restart: None,
        is_interface: false,
        answer: None,
    },
    Case {
        name: "a torn element",
        octets: &[8, 2, 0, 0, 0x46, 0x79, 2, 0x87],
        restart: None,
        is_interface: false,
        answer: None,
    },
];

/// What octets restart, where they are a message.
fn restart_of(octets: &[u8]) -> Option<Restart> {
    read(octets).ok()?.restart()
}

/// Whether just these octets are answered.
fn is_answered(octets: &[u8], answer: Option<&[u8]>) -> bool {
    match (acknowledge_restart(octets), answer) {
        (Some(said), Some(expected)) => said.as_slice() == expected,
        (None, None) => true,
        _ => false,
    }
}

#[test]
fn restarts_are_told_apart(rt: HostRuntime) {
    for case in &CASES {
        let name = case.name;
        assert!(rt; restart_of(case.octets) == case.restart, "{name}");
        assert!(rt;
            restarts_interface(case.octets) == case.is_interface,
            "{name}"
        );
        assert!(rt; is_answered(case.octets, case.answer), "{name}");
    }
}

/// A RESTART of the interface with another element behind it, of so many octets in all.
fn long_restart(len: usize, reference: &[u8]) -> Option<bool> {
    let mut octets = bx_q931::Octets::new();
    octets.try_extend_from_slice(&[8]).ok()?;
    octets.try_extend_from_slice(reference).ok()?;
    let header = [0x46, 0x79, 1, 0x86, 0x28];
    octets.try_extend_from_slice(&header).ok()?;
    let rest = u8::try_from(len.checked_sub(octets.len() + 1)?).ok()?;
    octets.try_extend_from_slice(&[rest]).ok()?;
    for _octet in 0..rest {
        octets.try_push(0x41).ok()?;
    }
    Some(acknowledge_restart(&octets).is_some())
}

#[test]
fn an_answer_has_at_most_260_octets(rt: HostRuntime) {
    assert!(rt;
        long_restart(260, &[2, 0, 0]) == Some(true),
        "two octets of reference"
    );
    assert!(rt;
        long_restart(259, &[1, 0]) == Some(true),
        "one octet of reference"
    );
    assert!(rt;
        long_restart(260, &[1, 0]) == Some(false),
        "no room for two"
    );
}
