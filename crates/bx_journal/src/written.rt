//! Lines, each built before it is written.

ghost use Rattle.std.specs.Prelude.{◌≡◌, ◌+◌, ◌*◌, ◌<◌, ◌≤◌, ◌++◌, [], length, decimal};
ghost use Rattle.arrayvec.specs.ArrayVec.{array_vec_len};
ghost use Rattle.bx_journal.specs.Hex.{hex_digit, hex_of};
ghost use Rattle.bx_journal.specs.Lines.{line_ended};
ghost use Rattle.bx_events.specs.Told.{live_event_of};
ghost use Rattle.bx_journal.specs.Inside.{IsEvent};
ghost use Rattle.bx_journal.specs.Events.{IsLoggable, AreOctets};
ghost use Rattle.bx_journal.specs.Text.{amendment_word, line_of, plan_line, day_line, journal_text};

use crate::head::{Head, JournalDay, RULES};
use arrayvec::ArrayVec;
use bx_events::{Amendment, Event, LiveEvent};
use itoa::Buffer;

/// A line, or its prefix: none is longer than that of a message of 260 octets.
pub type Line = ArrayVec<u8, 527>;

/// The digit of a value, where ten is that of 10.
fn hex_digit(ten: u8, value: u8) -> u8
    requires value { value < 16 }
    requires letters { ten ≤ 97 }
    ensures { result ≡ hex_digit ten value }
{
    if value < 10 {
        value + b'0'
    } else {
        value - 10 + ten
    }
}

/// Adds octets.
fn add(line: &mut Line, octets: &[u8])
    requires { array_vec_len line.old + length octets.now ≤ 527 }
    ensures items { line.new.items ≡ line.old.items ++ octets.now }
    ensures len { array_vec_len line.new ≡ array_vec_len line.old + length octets.now }
{
    match line.try_extend_from_slice(octets) {
        Ok(()) => {}
        Err(_) => unreachable!(),
    }
}

/// Adds the digits of octets, where ten is that of 10.
fn add_hex(line: &mut Line, ten: u8, octets: &[u8])
    requires letters { ten ≤ 97 }
    requires room { array_vec_len line.old + 2 * length octets.now ≤ 527 }
    ensures items { line.new.items ≡ line.old.items ++ hex_of ten octets.now }
    ensures len { array_vec_len line.new ≡ array_vec_len line.old + 2 * length octets.now }
    ensures octets { AreOctets octets.now }
{
    for octet in octets {
        line.push(hex_digit(ten, *octet / 16));
        line.push(hex_digit(ten, *octet % 16));
    }
}

/// The word of a line that amends the plan, with the space behind it.
pub(crate) fn amendment_word(kind: Amendment) -> &'static [u8]
    ensures word { result.now ≡ amendment_word kind }
    ensures short { length result.now ≤ 10 }
{
    match kind {
        Amendment::Sold => b"sold ",
        Amendment::Cancelled => b"cancelled ",
        Amendment::Changed => b"changed ",
        Amendment::SoldByRulesTwo => b"sold ",
        Amendment::Delayed => b"delayed ",
        Amendment::Dropped => b"dropped ",
        Amendment::Out => b"out ",
    }
}

/// The line of an event, with its LF.
pub(crate) fn line_of(event: LiveEvent<'_>) -> Line
    requires { IsLoggable (live_event_of event) }
    ensures text { result.items ≡ line_ended (line_of (live_event_of event.entry)) }
    ensures octets { IsEvent (live_event_of event.entry) }
{
    let mut line = Line::new();
    match event {
        LiveEvent::OnLink(Event::Tick) => add(&mut line, b"tick"),
        LiveEvent::OnLink(Event::Receive(octets)) | LiveEvent::HeardByRulesTwo(octets) => {
            add(&mut line, b"heard ");
            add_hex(&mut line, b'A', octets);
        }
        LiveEvent::WithoutLink(_) => add(&mut line, b"down"),
        LiveEvent::Amended(kind, text) => {
            add(&mut line, amendment_word(kind));
            add(&mut line, text);
        }
    }
    line.push(b'\n');
    line
}

/// The line that ties a journal to its plan, without its LF.
pub(crate) fn plan_line(plan: &[u8; 32]) -> Line
    ensures { result.items ≡ plan_line plan.now }
{
    let mut line = Line::new();
    add(&mut line, b"plan ");
    add_hex(&mut line, b'a', plan);
    line
}

/// Adds a number.
fn add_number(line: &mut Line, number: u32)
    requires { array_vec_len line.old ≤ 487 }
    ensures items { line.new.items ≡ line.old.items ++ decimal number }
    ensures len { array_vec_len line.new ≤ array_vec_len line.old + 40 }
{
    let mut digits = Buffer::new();
    add(line, digits.format(number).as_bytes());
}

/// Adds the line of a day, without its LF.
fn add_day(line: &mut Line, day: JournalDay)
    requires { array_vec_len line.old ≤ 300 }
    ensures items { line.new.items ≡ line.old.items ++ day_line day }
    ensures len { array_vec_len line.new ≤ array_vec_len line.old + 100 }
{
    match day {
        JournalDay::Rehearsed => add(line, b"day rehearsed"),
        JournalDay::Live { first, pace } => {
            add(line, b"day live ");
            add_number(line, first);
            add(line, b" ");
            add_number(line, pace);
        }
    }
}

/// The three lines at the head of a journal, with their LF.
pub(crate) fn head_text(head: &Head) -> Line
    ensures { result.items ≡ journal_text head.now [] }
{
    let mut line = Line::new();
    add(&mut line, b"bx-journal 2 rules ");
    add_number(&mut line, RULES);
    add(&mut line, b"\nplan ");
    add_hex(&mut line, b'a', &head.plan);
    line.push(b'\n');
    add_day(&mut line, head.day);
    line.push(b'\n');
    line
}
