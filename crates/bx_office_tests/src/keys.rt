//! The keys of requests.

use bx_office::{Address, Allowed, Client, Kind, Place, Reply, Side, Stage, Status, read_key};
use std::alloc::{AllocError, Global};

/// Where the client comes in.
const PLACE: Place = Place {
    address: Address::Port(8080),
    side: Side::Operators,
};

/// A value of the field: its name, what it is, and the key that it says, or nothing.
struct Case {
    name: &'static str,
    value: &'static str,
    key: &'static str,
}

static CASES: [Case; 26] = [
    Case {
        name: "without quotes",
        value: "abc-1",
        key: "abc-1",
    },
    Case {
        name: "in quotes",
        value: "\"abc-1\"",
        key: "abc-1",
    },
    Case {
        name: "of a page",
        value: "\"8e03978e-40d5-43e8-bc93-6894a57f9324\"",
        key: "8e03978e-40d5-43e8-bc93-6894a57f9324",
    },
    Case {
        name: "one octet",
        value: "!",
        key: "!",
    },
    Case {
        name: "one octet in quotes",
        value: "\"~\"",
        key: "~",
    },
    Case {
        name: "64 octets",
        value: "0123456789abcdef0123456789abcdef0123456789abcdef0123456789abcdef",
        key: "0123456789abcdef0123456789abcdef0123456789abcdef0123456789abcdef",
    },
    Case {
        name: "64 octets in quotes",
        value: "\"0123456789abcdef0123456789abcdef0123456789abcdef0123456789abcdef\"",
        key: "0123456789abcdef0123456789abcdef0123456789abcdef0123456789abcdef",
    },
    Case {
        name: "65 octets",
        value: "0123456789abcdef0123456789abcdef0123456789abcdef0123456789abcdefx",
        key: "",
    },
    Case {
        name: "65 octets in quotes",
        value: "\"0123456789abcdef0123456789abcdef0123456789abcdef0123456789abcdefx\"",
        key: "",
    },
    Case {
        name: "nothing",
        value: "",
        key: "",
    },
    Case {
        name: "quotes alone",
        value: "\"\"",
        key: "",
    },
    Case {
        name: "one quote",
        value: "\"",
        key: "",
    },
    Case {
        name: "a quote before it",
        value: "\"abc",
        key: "",
    },
    Case {
        name: "a quote behind it",
        value: "abc\"",
        key: "",
    },
    Case {
        name: "a quote in it",
        value: "\"a\"c\"",
        key: "",
    },
    Case {
        name: "two pairs of quotes",
        value: "\"\"abc\"\"",
        key: "",
    },
    Case {
        name: "a backslash in quotes",
        value: "\"a\\c\"",
        key: "",
    },
    Case {
        name: "a backslash",
        value: "a\\c",
        key: "",
    },
    Case {
        name: "a space",
        value: "a c",
        key: "",
    },
    Case {
        name: "a space in quotes",
        value: "\"a c\"",
        key: "",
    },
    Case {
        name: "a space behind it in quotes",
        value: "\"abc \"",
        key: "",
    },
    Case {
        name: "a tab",
        value: "a\tc",
        key: "",
    },
    Case {
        name: "a control octet",
        value: "a\x1fc",
        key: "",
    },
    Case {
        name: "DEL",
        value: "a\x7fc",
        key: "",
    },
    Case {
        name: "beyond ASCII",
        value: "aäc",
        key: "",
    },
    Case {
        name: "parameters behind it",
        value: "\"abc\";d",
        key: "",
    },
];

/// Whether a value says just this key.
fn says(value: &[u8], key: &[u8]) -> bool {
    match read_key(value) {
        Some(read) => read.octets() == key,
        None => key.is_empty(),
    }
}

#[test]
fn keys_are_read(rt: HostRuntime) {
    for case in &CASES {
        assert!(rt;
            says(case.value.as_bytes(), case.key.as_bytes()),
            "{}",
            case.name
        );
    }
}

/// Two requests of a client, one after the other: their name, the field of either, and the key that either has, or nothing.
type Asked = (&'static str, [&'static str; 2], [&'static str; 2]);

static ASKED: [Asked; 4] = [
    (
        "one, and another",
        ["Idempotency-Key: \"one\"\r\n", "idempotency-key: two\r\n"],
        ["one", "two"],
    ),
    (
        "one, and none",
        ["Idempotency-Key: one\r\n", ""],
        ["one", ""],
    ),
    (
        "none, and one",
        ["", "IDEMPOTENCY-KEY: \t\"one\" \r\n"],
        ["", "one"],
    ),
    (
        "in another field",
        ["Idempotency: one\r\n", "Key: one\r\n"],
        ["", ""],
    ),
];

/// Whether the request that waits has just this key, or none.
fn has_key(client: &Client, key: &[u8]) -> bool {
    match (client.stage(), client.key()) {
        (Stage::Asked(_), Some(kept)) => kept.octets() == key,
        (Stage::Asked(_), None) => key.is_empty(),
        _ => false,
    }
}

/// Whether bookings with this field have this key, and none once they are answered.
fn is_kept(
    alloc: Global,
    client: &mut Client,
    field: &str,
    key: &[u8],
) -> Result<bool, AllocError> {
    let mut sent = Vec::new(alloc);
    for part in [
        "POST /bookings HTTP/1.1\r\nHost: localhost:8080\r\nContent-Type: text/csv\r\n",
        field,
        "Content-Length: 3\r\n\r\nabc",
    ] {
        sent.extend_from_slice(part.as_bytes())?;
    }
    let count = client.room().min(sent.len());
    client.take(&sent[..count]);
    for _step in 0..8 {
        client.step(4096);
    }
    let is_there = has_key(client, key);
    client.answer(Reply {
        status: Status::Unprocessable,
        kind: Kind::Text,
        allowed: Allowed::Unsaid,
        body: b"",
    });
    let is_told = client
        .pending()
        .starts_with(b"HTTP/1.1 422 Unprocessable Content\r\n");
    client.sent(client.pending().len());
    Ok(is_there && is_told && client.key().is_none())
}

/// Whether either request of a client has its key.
fn are_kept(alloc: Global, asked: &Asked) -> Result<bool, AllocError> {
    let mut client = Client::new(alloc, PLACE);
    let is_first = is_kept(alloc, &mut client, asked.1[0], asked.2[0].as_bytes())?;
    let is_second = is_kept(alloc, &mut client, asked.1[1], asked.2[1].as_bytes())?;
    Ok(is_first && is_second)
}

#[test]
fn keys_are_kept_until_the_answer(rt: HostRuntime) {
    for asked in &ASKED {
        assert!(rt;
            matches!(are_kept(rt.alloc(), asked), Ok(true)),
            "{}",
            asked.0
        );
    }
}
