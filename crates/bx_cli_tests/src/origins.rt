//! Origins of a proxy in front of a booking office, as words name them.

use crate::file_commands::{Case, first_wrong};
use crate::files::{does, folder};
use crate::program::Answer;
use crate::program::Answer::{Fails, Misused, Prints};
use std::fs;
use std::test::Fail;

/// Where an origin stands.
static CASES: [Case; 8] = [
    (
        "serve @two.txt --live --line 19831:19832 --date 2020-01-01 --journal @proxy.journal --turns 130 --office @proxy.sock --origin https://office.example",
        Prints("1 missed\n2 missed\n3 refused\nmaintenance none\n"),
    ),
    (
        "serve @two.txt --live --line 19831:19832 --date 2020-01-01 --journal @proxy.journal --turns 131 --office-port 19833 --origin https://office.example:443",
        Prints("1 missed\n2 missed\n3 refused\nmaintenance none\n"),
    ),
    (
        "serve @two.txt --live --line 19831:19832 --date 2020-01-01 --journal @new.journal --origin https://office.example",
        Misused,
    ),
    (
        "serve @two.txt --live --line 19831:19832 --date 2020-01-01 --office @proxy.sock --origin https://office.example",
        Misused,
    ),
    (
        "serve @two.txt --live --line 19831:19832 --date 2020-01-01 --origin https://office.example",
        Misused,
    ),
    (
        "serve @two.txt --live --line 19831:19832 --date 2020-01-01 --journal @new.journal --office @proxy.sock --origin",
        Misused,
    ),
    (
        "serve @two.txt --port 19831 --journal @new.journal --origin https://office.example",
        Misused,
    ),
    (
        "far @script.csv --line 19831:19832 --date 2020-01-01 --origin https://office.example",
        Misused,
    ),
];

/// Origins, and what becomes of a day whose words have one, and whose office has no place.
static ORIGINS: [(&str, Answer); 35] = [
    ("https://office.example", Fails("bx: F3 CannotListen\n")),
    ("http://office.example", Fails("bx: F3 CannotListen\n")),
    (
        "https://office.example:8443",
        Fails("bx: F3 CannotListen\n"),
    ),
    ("https://office.example:443", Fails("bx: F3 CannotListen\n")),
    ("http://office.example:80", Fails("bx: F3 CannotListen\n")),
    ("https://Office-1.Example", Fails("bx: F3 CannotListen\n")),
    ("https://192.0.2.1:65535", Fails("bx: F3 CannotListen\n")),
    ("https://[2001:db8::1]", Fails("bx: F3 CannotListen\n")),
    (
        "https://[::ffff:192.0.2.1]:8443",
        Fails("bx: F3 CannotListen\n"),
    ),
    ("https://localhost", Fails("bx: F3 CannotListen\n")),
    (
        "https://aaaaaaaaaaaaaaaaaaaaaaaaaaaaaaaaaaaaaaaaaaaaaaaaaaaaaaaaaaaaaaaaaaaaaaaaaaaaaaaaaaaaaaaaaaaaaaaaaaaaaaaaaaaaaaaaaaaaaaaaaaaaaaaaaaaaaaaaaaaaaaaaaaaaaaaaaaaaaaaaaaaaaaaaaaaaaaaaaaaaaaaaaaaaaaaaaaaaaaaaaaaaaaaaaaaaaaaaaaaaaaaaaaaaaaaaaaaaaaaaaaaaaaa",
        Fails("bx: F3 CannotListen\n"),
    ),
    ("office.example", Misused),
    ("ftp://office.example", Misused),
    ("HTTPS://office.example", Misused),
    ("https:office.example", Misused),
    ("https://", Misused),
    ("https://:8443", Misused),
    ("https://office.example/", Misused),
    ("https://office.example?1", Misused),
    ("https://office.example#1", Misused),
    ("https://office.example:", Misused),
    ("https://office.example:0", Misused),
    ("https://office.example:08443", Misused),
    ("https://office.example:65536", Misused),
    ("https://office.example:https", Misused),
    ("https://office_1.example", Misused),
    ("https://*.example", Misused),
    ("https://[2001:db8::1", Misused),
    ("https://2001:db8::1", Misused),
    ("https://[]", Misused),
    ("https://[::1]8443", Misused),
    ("https://[::g]", Misused),
    ("https://https://office.example", Misused),
    ("null", Misused),
    (
        "https://aaaaaaaaaaaaaaaaaaaaaaaaaaaaaaaaaaaaaaaaaaaaaaaaaaaaaaaaaaaaaaaaaaaaaaaaaaaaaaaaaaaaaaaaaaaaaaaaaaaaaaaaaaaaaaaaaaaaaaaaaaaaaaaaaaaaaaaaaaaaaaaaaaaaaaaaaaaaaaaaaaaaaaaaaaaaaaaaaaaaaaaaaaaaaaaaaaaaaaaaaaaaaaaaaaaaaaaaaaaaaaaaaaaaaaaaaaaaaaaaaaaaaaaa",
        Misused,
    ),
];

/// The first of these origins of which something else becomes, or none.
fn taken_otherwise(rt: &HostRuntime, folder: &str) -> Result<Option<&'static str>, Fail> {
    for (origin, answer) in &ORIGINS {
        let words = format!(in rt.alloc();
            "serve @two.txt --live --line 19831:19832 --date 2020-01-01 --journal @new.journal --office @gone/proxy.sock --origin {origin}"
        )?;
        if !does(rt, folder, &words, answer.expected())? {
            return Ok(Some(*origin));
        }
    }
    Ok(None)
}

#[test]
fn origins_of_proxies(rt: HostRuntime) -> Result<(), Fail> {
    let folder = folder(&rt)?;
    assert_eq!(rt; first_wrong(&rt, &folder, &CASES)?, None);
    assert_eq!(rt; taken_otherwise(&rt, &folder)?, None);
    fs::remove_dir_all(&rt, folder.as_str())?;
    Ok(())
}
