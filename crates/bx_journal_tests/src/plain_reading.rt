//! A second reader of journals, written plainly: line by line, over a text that is held.

use crate::told::{WasRead, mark};
use arrayvec::ArrayVec;
use bx_journal::JournalFault;

type Line = ArrayVec<u8, 200>;

type Marks = ArrayVec<u8, 256>;

/// The value of a digit among these.
fn value(digits: &[u8], digit: u8) -> Option<u8> {
    let mut value = 0;
    for other in digits {
        if *other == digit {
            return Some(value);
        }
        value = if value < 15 { value + 1 } else { 0 };
    }
    None
}

/// The octets of a line after `heard `, where it is right.
fn octets(digits: &[u8]) -> Option<Line> {
    let mut octets = ArrayVec::new();
    let mut high = None;
    for digit in digits {
        let value = value(b"0123456789ABCDEF", *digit)?;
        match high {
            None => high = Some(value),
            Some(first) => {
                let _ = octets.try_push((first & 15) << 4 | (value & 15));
                high = None;
            }
        }
    }
    if high.is_none() { Some(octets) } else { None }
}

/// What the first line of a journal says: how many lines its head has, and whether it is by the older rules.
#[derive(Clone, Copy)]
struct Kind {
    head: u64,
    is_older: bool,
}

/// The kind of a text, by its start. Where the first line is wrong it does not matter.
fn kind_of(text: &[u8]) -> Kind {
    if text.starts_with(b"bx-journal 1\n") {
        Kind {
            head: 2,
            is_older: true,
        }
    } else {
        Kind {
            head: 3,
            is_older: text.starts_with(b"bx-journal 2 rules 2\n"),
        }
    }
}

/// The letter of a line that amends the plan, and what it has behind its word.
fn amendment(line: &[u8], is_older: bool) -> Option<(u8, &[u8])> {
    if let Some(text) = line.strip_prefix(b"sold ".as_slice()) {
        return Some((if is_older { b'r' } else { b's' }, text));
    }
    if is_older {
        return None;
    }
    if let Some(text) = line.strip_prefix(b"cancelled ".as_slice()) {
        return Some((b'x', text));
    }
    if let Some(text) = line.strip_prefix(b"changed ".as_slice()) {
        return Some((b'c', text));
    }
    lost(line)
}

/// The same of a line that stands where a channel is lost.
fn lost(line: &[u8]) -> Option<(u8, &[u8])> {
    if let Some(text) = line.strip_prefix(b"delayed ".as_slice()) {
        return Some((b'w', text));
    }
    if let Some(text) = line.strip_prefix(b"dropped ".as_slice()) {
        return Some((b'g', text));
    }
    let text = line.strip_prefix(b"out ".as_slice())?;
    Some((b'l', text))
}

/// Writes down what a line says, and answers whether it is right.
fn event_line(line: &[u8], is_older: bool, marks: &mut Marks) -> bool {
    if line == b"tick".as_slice() {
        mark(marks, b"t");
        return true;
    }
    if line == b"down".as_slice() {
        mark(marks, if is_older { b"e" } else { b"d" });
        return true;
    }
    if let Some((letter, text)) = amendment(line, is_older) {
        return amended_line(letter, text, marks);
    }
    let Some(digits) = line.strip_prefix(b"heard ".as_slice()) else {
        return false;
    };
    match octets(digits) {
        Some(octets) => {
            mark(marks, if is_older { b"o" } else { b"h" });
            mark(marks, &octets);
            mark(marks, b".");
            true
        }
        None => false,
    }
}

/// The same of what stands behind the word of an amendment with this letter.
fn amended_line(letter: u8, text: &[u8], marks: &mut Marks) -> bool {
    let right = text.len() <= 200 && text.iter().all(|octet| *octet >= 32 && *octet <= 126);
    if right {
        mark(marks, &[letter]);
        mark(marks, text);
        mark(marks, b".");
    }
    right
}

/// The number of 32 bits that digits spell, with no leading zero.
fn number(digits: &[u8]) -> Option<u64> {
    let is_padded = digits.starts_with(b"0") && digits.len() > 1;
    if digits.is_empty() || digits.len() > 10 || is_padded {
        return None;
    }
    let mut sum = 0u64;
    for digit in digits {
        let value = value(b"0123456789", *digit)?;
        sum = sum.saturating_mul(10).saturating_add(u64::from(value));
    }
    if sum <= 4_294_967_295 {
        Some(sum)
    } else {
        None
    }
}

/// What is wrong with a first line.
fn version_line(line: &[u8], wants_day: bool) -> Option<JournalFault> {
    if line == b"bx-journal 1".as_slice() {
        return if wants_day {
            Some(JournalFault::OtherRules)
        } else {
            None
        };
    }
    let Some(digits) = line.strip_prefix(b"bx-journal 2 rules ".as_slice()) else {
        return Some(JournalFault::BadLine(1));
    };
    match number(digits) {
        Some(3) => None,
        Some(2) if !wants_day => None,
        Some(_) => Some(JournalFault::OtherRules),
        None => Some(JournalFault::BadLine(1)),
    }
}

/// What is wrong with a second line, for the plan of the worked journal.
fn plan_line(line: &[u8]) -> Option<JournalFault> {
    let Some(digits) = line.strip_prefix(b"plan ".as_slice()) else {
        return Some(JournalFault::BadLine(2));
    };
    let right = digits
        .iter()
        .all(|digit| value(b"0123456789abcdef", *digit).is_some());
    if !right || digits.len() != 64 {
        return Some(JournalFault::BadLine(2));
    }
    if digits == b"abababababababababababababababababababababababababababababababab".as_slice() {
        None
    } else {
        Some(JournalFault::OtherPlan)
    }
}

/// Whether a line is one of a live day.
fn is_live(line: &[u8]) -> bool {
    let Some(numbers) = line.strip_prefix(b"day live ".as_slice()) else {
        return false;
    };
    let mut first = Line::new();
    let mut pace = Line::new();
    let mut is_after = false;
    for octet in numbers {
        if is_after {
            let _ = pace.try_push(*octet);
        } else if *octet == b' ' {
            is_after = true;
        } else {
            let _ = first.try_push(*octet);
        }
    }
    is_after && number(&first).is_some() && number(&pace).unwrap_or(0) >= 1
}

/// What is wrong with a third line, for the day of the worked journal.
fn day_line(line: &[u8], wants_day: bool) -> Option<JournalFault> {
    if line == b"day live 1767222000 60".as_slice() {
        return None;
    }
    if line != b"day rehearsed".as_slice() && !is_live(line) {
        return Some(JournalFault::BadLine(3));
    }
    if wants_day {
        Some(JournalFault::OtherDay)
    } else {
        None
    }
}

/// What is wrong with line n of a journal of this kind.
fn line_fault(
    n: u64,
    line: &[u8],
    kind: Kind,
    wants_day: bool,
    marks: &mut Marks,
) -> Option<JournalFault> {
    if n == 1 {
        return version_line(line, wants_day);
    }
    if n == 2 {
        return plan_line(line);
    }
    if n == 3 && kind.head == 3 {
        return day_line(line, wants_day);
    }
    if event_line(line, kind.is_older, marks) {
        None
    } else {
        Some(JournalFault::BadLine(n))
    }
}

/// What is read of a text, for the plan of the worked journal, and for its day, or for any.
pub fn plain_reading(text: &[u8], wants_day: bool) -> WasRead {
    let kind = kind_of(text);
    let mut marks = Marks::new();
    let mut line = Line::new();
    let mut n = 1u64;
    let mut whole = 0u64;
    let mut at = 0u64;
    for octet in text {
        at = at.saturating_add(1);
        if *octet != b'\n' {
            let _ = line.try_push(*octet);
            continue;
        }
        if let Some(fault) = line_fault(n, &line, kind, wants_day, &mut marks) {
            return WasRead {
                answer: Err(fault),
                marks,
            };
        }
        line.clear();
        n = n.saturating_add(1);
        whole = at;
    }
    let answer = if n <= kind.head {
        Err(JournalFault::NotBegun)
    } else {
        Ok(whole)
    };
    WasRead { answer, marks }
}
