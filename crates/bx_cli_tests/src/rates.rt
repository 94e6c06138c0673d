//! The rate of an office's tariff, as words name it.

use crate::file_commands::{Case, first_wrong};
use crate::files::folder;
use crate::program::Answer::{Fails, Misused, Prints};
use std::fs;
use std::test::Fail;

/// Rates, and where they stand. The office of the days that fail has no place.
static CASES: [Case; 15] = [
    (
        "serve @two.txt --live --line 19831:19832 --date 2020-01-01 --journal @rate.journal --turns 130 --office @rate.sock --rate 12",
        Prints("1 missed\n2 missed\n3 refused\nmaintenance none\n"),
    ),
    (
        "serve @two.txt --live --line 19831:19832 --date 2020-01-01 --journal @rate.journal --turns 131 --office-port 19834 --rate 12 --origin https://office.example",
        Prints("1 missed\n2 missed\n3 refused\nmaintenance none\n"),
    ),
    (
        "serve @two.txt --live --line 19831:19832 --date 2020-01-01 --journal @new.journal --office @gone/rate.sock --rate 1",
        Fails("bx: F3 CannotListen\n"),
    ),
    (
        "serve @two.txt --live --line 19831:19832 --date 2020-01-01 --journal @new.journal --office @gone/rate.sock --rate 1000000",
        Fails("bx: F3 CannotListen\n"),
    ),
    (
        "serve @two.txt --live --line 19831:19832 --date 2020-01-01 --journal @new.journal --office @gone/rate.sock --rate 0",
        Misused,
    ),
    (
        "serve @two.txt --live --line 19831:19832 --date 2020-01-01 --journal @new.journal --office @gone/rate.sock --rate 1000001",
        Misused,
    ),
    (
        "serve @two.txt --live --line 19831:19832 --date 2020-01-01 --journal @new.journal --office @gone/rate.sock --rate 4294967297",
        Misused,
    ),
    (
        "serve @two.txt --live --line 19831:19832 --date 2020-01-01 --journal @new.journal --office @gone/rate.sock --rate -1",
        Misused,
    ),
    (
        "serve @two.txt --live --line 19831:19832 --date 2020-01-01 --journal @new.journal --office @gone/rate.sock --rate 1.5",
        Misused,
    ),
    (
        "serve @two.txt --live --line 19831:19832 --date 2020-01-01 --journal @new.journal --office @gone/rate.sock --rate",
        Misused,
    ),
    (
        "serve @two.txt --live --line 19831:19832 --date 2020-01-01 --journal @new.journal --office @gone/rate.sock --rate 1 --rate 2",
        Misused,
    ),
    (
        "serve @two.txt --live --line 19831:19832 --date 2020-01-01 --journal @new.journal --rate 12",
        Misused,
    ),
    (
        "serve @two.txt --live --line 19831:19832 --date 2020-01-01 --rate 12",
        Misused,
    ),
    (
        "serve @two.txt --port 19831 --journal @new.journal --rate 12",
        Misused,
    ),
    (
        "far @script.csv --line 19831:19832 --date 2020-01-01 --rate 12",
        Misused,
    ),
];

#[test]
fn rates_of_offices(rt: HostRuntime) -> Result<(), Fail> {
    let folder = folder(&rt)?;
    assert_eq!(rt; first_wrong(&rt, &folder, &CASES)?, None);
    fs::remove_dir_all(&rt, folder.as_str())?;
    Ok(())
}
