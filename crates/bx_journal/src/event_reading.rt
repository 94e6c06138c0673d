//! The event of a line.

ghost use Rattle.std.specs.Prelude.{◌≡◌};
ghost use Rattle.std.specs.List.{list_all};
ghost use Rattle.std.specs.Option.{option_map};
ghost use Rattle.bx_journal.specs.Events.{is_printable, logged_event};
ghost use Rattle.bx_journal.specs.Reading.{amended_on, amendment_on, change_on, event_on, heard_event, heard_on, sale_of};

use crate::event::{AmendedLine, LoggedEvent};
use crate::hex::octets_in;
use crate::version::Version;
use crate::written::amendment_word;
use bx_events::Amendment;
use bx_q931::Octets;

/// What came, in a journal of this version.
fn heard(version: Version, octets: Octets) -> LoggedEvent
    ensures { logged_event result ≡ heard_event version octets.items }
{
    if version.is_older() {
        LoggedEvent::HeardByRulesTwo(octets)
    } else {
        LoggedEvent::Heard(octets)
    }
}

/// What came, by its digits.
fn heard_on(version: Version, digits: &[u8]) -> Option<LoggedEvent>
    ensures { option_map logged_event result ≡ heard_on version digits.now }
{
    if digits.len() > 520 {
        return None;
    }
    Some(heard(version, octets_in(digits)?))
}

/// Whether each octet is printable ASCII.
pub fn are_printable(octets: &[u8]) -> bool
    ensures { result ≡ list_all is_printable octets.now }
{
    for octet in octets {
        if *octet < 32 || *octet > 126 {
            return false;
        }
    }
    true
}

/// What amends the plan so, by what its line has behind the word.
fn amended_on(kind: Amendment, text: &[u8]) -> Option<LoggedEvent>
    ensures { option_map logged_event result ≡ amended_on kind text.now }
{
    let mut line = AmendedLine::new();
    if text.len() > 200 || !are_printable(text) {
        return None;
    }
    match line.try_extend_from_slice(text) {
        Ok(()) => Some(LoggedEvent::Amended(kind, line)),
        Err(_) => None,
    }
}

/// A sale in a journal of this version.
fn sale(version: Version) -> Amendment
    ensures { result ≡ sale_of version }
{
    if version.is_older() {
        Amendment::SoldByRulesTwo
    } else {
        Amendment::Sold
    }
}

/// What amends the plan by these rules, and is no sale, by its line.
fn change_on(line: &[u8]) -> Option<LoggedEvent>
    ensures { option_map logged_event result ≡ change_on line.now }
{
    if let Some(text) = line.strip_prefix(amendment_word(Amendment::Cancelled)) {
        amended_on(Amendment::Cancelled, text)
    } else if let Some(text) = line.strip_prefix(amendment_word(Amendment::Changed)) {
        amended_on(Amendment::Changed, text)
    } else if let Some(text) = line.strip_prefix(amendment_word(Amendment::Delayed)) {
        amended_on(Amendment::Delayed, text)
    } else if let Some(text) = line.strip_prefix(amendment_word(Amendment::Dropped)) {
        amended_on(Amendment::Dropped, text)
    } else if let Some(text) = line.strip_prefix(amendment_word(Amendment::Out)) {
        amended_on(Amendment::Out, text)
    } else {
        None
    }
}

/// What amends the plan in a journal of this version, by its line: by the older rules bookings were sold, and nothing else.
fn amendment_on(version: Version, line: &[u8]) -> Option<LoggedEvent>
    ensures { option_map logged_event result ≡ amendment_on version line.now }
{
    if let Some(text) = line.strip_prefix(amendment_word(Amendment::Sold)) {
        amended_on(sale(version), text)
    } else if version.is_older() {
        None
    } else {
        change_on(line)
    }
}

/// The event of a line in a journal of this version, where it has one.
pub(crate) fn event_on(version: Version, line: &[u8]) -> Option<LoggedEvent>
    ensures { option_map logged_event result ≡ event_on version line.now }
{
    if line == b"tick".as_slice() {
        Some(LoggedEvent::Tick)
    } else if line == b"down".as_slice() {
        Some(LoggedEvent::Down(version.rules()))
    } else if line.len() >= 6 && &line[..6] == b"heard ".as_slice() {
        heard_on(version, &line[6..])
    } else {
        amendment_on(version, line)
    }
}
