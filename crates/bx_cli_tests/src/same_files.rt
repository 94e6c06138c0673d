//! Files that a command would destroy: it is refused, and each file has what it had.

use crate::file_commands::{Case, first_wrong};
use crate::files::{folder, placed};
use crate::program::Answer::{Fails, FailsForGood, Prints};
use std::fs;
use std::os::unix::fs::symlink;
use std::test::Fail;

static REFUSED: [Case; 21] = [
    (
        "day @one.txt @answer.csv --capture @one.txt",
        Fails("bx: F6 SameFile @one.txt\n"),
    ),
    (
        "day @one.txt @answer.csv --capture @answer.csv",
        Fails("bx: F6 SameFile @answer.csv\n"),
    ),
    (
        "day @one.txt @answer.csv --records @one.txt",
        Fails("bx: F6 SameFile @one.txt\n"),
    ),
    (
        "day @one.txt @answer.csv --records @answer.csv",
        Fails("bx: F6 SameFile @answer.csv\n"),
    ),
    (
        "day @one.txt @answer.csv --journal @one.txt",
        Fails("bx: F6 SameFile @one.txt\n"),
    ),
    (
        "day @one.txt @answer.csv --journal @new --capture @new",
        Fails("bx: F6 SameFile @new\n"),
    ),
    (
        "day @one.txt @answer.csv --journal @new --records @new",
        Fails("bx: F6 SameFile @new\n"),
    ),
    (
        "day @one.txt @answer.csv --capture @new --records @new",
        Fails("bx: F6 SameFile @new\n"),
    ),
    (
        "day @one.txt @answer.csv --capture @new --records @./new",
        Fails("bx: F6 SameFile @new\n"),
    ),
    (
        "day @one.txt @answer.csv --capture @../../bx_gone/new --records @answer.csv",
        Fails("bx: F6 SameFile @answer.csv\n"),
    ),
    (
        "day @one.txt @answer.csv --capture @link.txt",
        Fails("bx: F6 SameFile @link.txt\n"),
    ),
    (
        "day @one.txt @answer.csv --records @hard.txt",
        Fails("bx: F6 SameFile @hard.txt\n"),
    ),
    (
        "day @one.txt @answer.csv --capture @here/new --records @new",
        Fails("bx: F6 SameFile @here/new\n"),
    ),
    (
        "serve @one.txt --port 19803 --journal @one.txt",
        Fails("bx: F6 SameFile @one.txt\n"),
    ),
    (
        "serve @one.txt --live --line 19803:19804 --date 2020-01-01 --journal @one.txt",
        FailsForGood("bx: F6 SameFile @one.txt\n"),
    ),
    (
        "far @answer.csv --port 19803 --capture @answer.csv",
        Fails("bx: F6 SameFile @answer.csv\n"),
    ),
    (
        "far @answer.csv --line 19803:19804 --date 2020-01-01 --capture @answer.csv",
        Fails("bx: F6 SameFile @answer.csv\n"),
    ),
    (
        "audit @one.txt @one.journal --capture @one.txt",
        Fails("bx: F6 SameFile @one.txt\n"),
    ),
    (
        "audit @one.txt @one.journal --capture @one.journal",
        Fails("bx: F6 SameFile @one.journal\n"),
    ),
    // Before anything else is looked at.
    (
        "day @gone @gone --capture @gone",
        Fails("bx: F6 SameFile @gone\n"),
    ),
    // What is read twice, and what is no plain file, is taken.
    (
        "day @one.txt @answer.csv --capture /dev/null --records /dev/null",
        Prints("1 carried 1 60\nmaintenance none\n"),
    ),
];

/// The files that are named twice, with what they hold.
static KEPT: [(&str, &str); 3] = [
    (
        "@one.txt",
        "bx-plan 1\nchannels 1\nbookings 1\n0 60 5 1234 1\nprices 0\ntotal 5\nend\n",
    ),
    ("@answer.csv", "number,policy,seconds\n*,answer,0\n"),
    ("@one.journal", "bx-journal 1\n"),
];

/// The first of the files that is not as it was.
fn first_changed(rt: &HostRuntime, folder: &str) -> Result<Option<&'static str>, Fail> {
    for (name, text) in &KEPT {
        let path = placed(rt.alloc(), name, folder)?;
        let octets = fs::read(rt, path.as_str())?;
        if octets.as_slice() != text.as_bytes() {
            return Ok(Some(name));
        }
    }
    Ok(None)
}

/// A journal, and other names of the plan and of the folder.
fn linked(rt: &HostRuntime, folder: &str) -> Result<(), Fail> {
    let plan = placed(rt.alloc(), "@one.txt", folder)?;
    let journal = placed(rt.alloc(), "@one.journal", folder)?;
    let link = placed(rt.alloc(), "@link.txt", folder)?;
    let hard = placed(rt.alloc(), "@hard.txt", folder)?;
    let here = placed(rt.alloc(), "@here", folder)?;
    fs::write(rt, journal.as_str(), "bx-journal 1\n")?;
    symlink(rt, "one.txt", link.as_str())?;
    symlink(rt, ".", here.as_str())?;
    fs::hard_link(rt, plan.as_str(), hard.as_str())?;
    Ok(())
}

#[test]
fn files_named_twice(rt: HostRuntime) -> Result<(), Fail> {
    let folder = folder(&rt)?;
    linked(&rt, &folder)?;
    let wrong = first_wrong(&rt, &folder, &REFUSED)?;
    assert!(rt; wrong.is_none(), "{wrong:?}");
    let changed = first_changed(&rt, &folder)?;
    assert!(rt; changed.is_none(), "{changed:?}");
    let new = placed(rt.alloc(), "@new", &folder)?;
    assert!(rt; !fs::exists(&rt, new.as_str())?, "a file was made");
    fs::remove_dir_all(&rt, folder.as_str())?;
    Ok(())
}
