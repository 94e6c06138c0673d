//! What a fault means, as a person would say it: for a terminal.

use crate::faults::FAULTS;
use bx_devices::Watched;
use bx_request::{FileKind, FileUse};
use std::io;
use std::io::Write;

/// Where the meaning begins in a row of the list of faults.
const MEANING: usize = 22;

/// The names of a fault's values in the list of faults, after its code and its name, and its meaning; none where it is not there.
fn listed(code: &str) -> Option<(&'static str, &'static str)> {
    for row in FAULTS.lines() {
        if let Some((head, meaning)) = row.split_at_checked(MEANING)
            && let Some((first, names)) = head.split_once(' ')
            && first == code
        {
            return Some((names, meaning));
        }
    }
    None
}

/// The value that stands for a word of a meaning, where that is the name of one; else the word.
fn said_for<'a>(word: &'a str, names: &'a str, values: &'a str) -> &'a str {
    for (name, value) in names.split_whitespace().zip(values.split_whitespace()) {
        if name.len() == 1 && name == word {
            return value;
        }
    }
    word
}

/// Writes a meaning, with the values of a fault in place of their names.
fn write_meaning<W: Write>(
    meaning: &str,
    names: &str,
    values: &str,
    errors: &mut Watched<W>,
) -> io::Result<()> {
    for word in meaning.split_whitespace() {
        let bare = word.trim_end_matches(',');
        let end = if bare.len() < word.len() { "," } else { "" };
        write!(errors, " {}{end}", said_for(bare, names, values))?;
    }
    errors.write_all(b"\n")
}

/// Whether faults with this code are of files of this kind.
fn is_of(code: &str, kind: FileKind) -> bool {
    match kind {
        FileKind::Bookings => code.starts_with('B'),
        FileKind::Plan => code.starts_with('P') || code.starts_with('C') || code.starts_with('Q'),
        FileKind::Script => code.starts_with('S'),
        FileKind::Journal => code.starts_with('J'),
        FileKind::Records | FileKind::Capture => false,
    }
}

/// The name of the file that a fault with this code is of, where a command has one.
fn file_of<'a>(code: &str, files: &[Option<FileUse<'a>>]) -> Option<&'a str> {
    for file in files {
        if let Some(file) = *file
            && is_of(code, file.kind)
        {
            return Some(file.name);
        }
    }
    None
}

/// The line in which a row of bookings or of a script stands: rows are counted after the header.
fn line_of(code: &str, values: &str) -> Option<u32> {
    if !code.starts_with('B') && !code.starts_with('S') {
        return None;
    }
    let (_, row) = values.split_once(' ')?;
    let row = row.parse::<u32>().ok()?;
    row.checked_add(1)
}

/// Writes what a fault means, as one line: the file that it is of, the line in it where a row has the fault, and the row of the list of faults with the
/// fault's values in place of their letters. Nothing is written for a fault that the list has not.
pub fn explain_fault<W: Write>(
    fault: &str,
    files: &[Option<FileUse<'_>>],
    errors: &mut Watched<W>,
) -> io::Result<()> {
    let Some((code, values)) = fault.split_once(' ') else {
        return Ok(());
    };
    let Some((names, meaning)) = listed(code) else {
        return Ok(());
    };
    match file_of(code, files) {
        Some("-") => errors.write_all(b"standard input")?,
        Some(name) => errors.write_all(name.as_bytes())?,
        None => errors.write_all(b"bx")?,
    }
    if let Some(line) = line_of(code, values) {
        write!(errors, ", line {line}")?;
    }
    errors.write_all(b":")?;
    write_meaning(meaning, names, values, errors)
}
