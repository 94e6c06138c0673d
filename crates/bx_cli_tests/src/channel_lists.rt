//! Lists of channels on the command line, of every form.

use crate::files::{does, folder};
use std::fs;
use std::test::Fail;

/// The `--channels` of a plan, its status, and how standard error begins.
static LISTS: [(&str, u8, &str); 21] = [
    ("1-31", 1, "bx: N1 NotABChannel 16\n"),
    ("0", 1, "bx: N1 NotABChannel 0\n"),
    ("32", 1, "bx: N1 NotABChannel 32\n"),
    ("99", 1, "bx: N1 NotABChannel 99\n"),
    ("3,3,16", 1, "bx: N2 Repeated 3\n"),
    ("01", 0, ""),
    ("16,", 2, "error: "),
    ("1-", 2, "error: "),
    ("-1", 2, "error: "),
    ("", 2, "error: "),
    (",", 2, "error: "),
    ("001", 2, "error: "),
    ("100", 2, "error: "),
    ("5-3", 2, "error: "),
    ("1--2", 2, "error: "),
    ("1-2-3", 2, "error: "),
    ("none,1", 2, "error: "),
    ("None", 2, "error: "),
    ("\t1", 2, "error: "),
    ("1;2", 2, "error: "),
    ("\u{661}", 2, "error: "),
];

/// Whether a check with this list of channels does this.
fn is_taken(
    rt: &HostRuntime,
    folder: &str,
    list: &str,
    status: u8,
    errors: &str,
) -> Result<bool, Fail> {
    let words = format!(in rt.alloc();
        "check --date 2026-01-05 --channels {list} @none.csv @none.txt"
    )?;
    let output = if status == 0 { "proved 0\n" } else { "" };
    does(rt, folder, &words, (status, output, errors))
}

#[test]
fn lists_of_channels(rt: HostRuntime) -> Result<(), Fail> {
    let folder = folder(&rt)?;
    for (list, status, errors) in &LISTS {
        assert!(rt; is_taken(&rt, &folder, list, *status, errors)?, "{list}");
    }
    fs::remove_dir_all(&rt, folder.as_str())?;
    Ok(())
}
