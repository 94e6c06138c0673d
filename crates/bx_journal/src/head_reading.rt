//! Reading the lines at the head.

ghost use Rattle.std.specs.Prelude.{◌≡◌, ◌<◌, Err, ◌⊎◌, IfOk};
ghost use Rattle.std.specs.List.{list_all};
ghost use Rattle.bx_devices.specs.Watching.{is_faulted};
ghost use Rattle.bx_journal.specs.Hex.{is_hex};
ghost use Rattle.bx_journal.specs.Numbers.{number_on};
ghost use Rattle.bx_journal.specs.Reading.{day_on, dated_by, dated_on, fits_day, is_day, is_plan_line, live_by, live_on, older_version, plan_fault, plan_on, version_on};
ghost use Rattle.bx_journal.specs.Versions.{head_size};
ghost use Rattle.bx_journal.specs.Taking.{IsHeadLineFrom, IsHeadFrom};

use crate::fault::JournalFault;
use crate::head::{JournalDay, OLDER_RULES, RULES, Wanted};
use crate::hex::is_hex;
use crate::line_reading::{LineEnd, WholeLine, next_line};
use crate::numbers::{number_on, space_at};
use crate::pieces::Pieces;
use crate::version::Version;
use crate::written::plan_line;
use bx_devices::Watched;
use std::io::Read;

/// A version by the older rules, where this day is wanted: no exchange goes on with one.
fn older_version(version: Version, day: Option<JournalDay>) -> Result<Version, JournalFault>
    ensures { result ≡ older_version version day }
{
    match day {
        None => Ok(version),
        Some(_) => Err(JournalFault::OtherRules),
    }
}

/// Version 2, by the number of its rules.
fn dated_by(day: Option<JournalDay>, digits: &[u8]) -> Result<Version, JournalFault>
    ensures { result ≡ dated_by day (number_on digits.now) }
{
    match number_on(digits) {
        None => Err(JournalFault::BadLine(1)),
        Some(rules) => {
            if rules == RULES {
                Ok(Version::Dated)
            } else if rules == OLDER_RULES {
                older_version(Version::Older, day)
            } else {
                Err(JournalFault::OtherRules)
            }
        }
    }
}

/// Version 2, by its line.
fn dated_on(day: Option<JournalDay>, line: &[u8]) -> Result<Version, JournalFault>
    ensures { result ≡ dated_on day line.now }
{
    if line.len() >= 19 && &line[..19] == b"bx-journal 2 rules ".as_slice() {
        dated_by(day, &line[19..])
    } else {
        Err(JournalFault::BadLine(1))
    }
}

/// The version that the first line names, or its fault.
fn version_on(day: Option<JournalDay>, line: &[u8]) -> Result<Version, JournalFault>
    ensures { result ≡ version_on day line.now }
{
    if line == b"bx-journal 1".as_slice() {
        older_version(Version::Undated, day)
    } else {
        dated_on(day, line)
    }
}

/// Whether all octets are digits of a digest.
fn all_hex(octets: &[u8]) -> bool
    ensures { result ≡ list_all (is_hex 97) octets.now }
{
    octets.iter().all(|octet| is_hex(b'a', *octet))
}

/// Whether it is the line of some plan.
fn is_plan_line(line: &[u8]) -> bool
    ensures { result ≡ is_plan_line line.now }
{
    if line.len() == 69 && &line[..5] == b"plan ".as_slice() {
        all_hex(&line[5..])
    } else {
        false
    }
}

/// What is wrong with a second line that is not that of the plan.
fn plan_fault(line: &[u8]) -> JournalFault
    ensures { result ≡ plan_fault line.now }
{
    if is_plan_line(line) {
        JournalFault::OtherPlan
    } else {
        JournalFault::BadLine(2)
    }
}

/// Whether the second line is that of the plan, or its fault.
fn plan_on(plan: &[u8; 32], line: &[u8]) -> Result<(), JournalFault>
    ensures { result ≡ plan_on plan.now line.now }
{
    if line == plan_line(plan).as_slice() {
        Ok(())
    } else {
        Err(plan_fault(line))
    }
}

/// The live day of two numbers with a space between them.
fn live_on(text: &[u8]) -> Option<JournalDay>
    ensures { result ≡ live_on text.now }
{
    let at = space_at(text);
    if at == text.len() {
        return None;
    }
    let first = number_on(&text[..at])?;
    let pace = number_on(&text[at + 1..])?;
    if pace >= 1 {
        Some(JournalDay::Live { first, pace })
    } else {
        None
    }
}

/// The live day of a line, where it has one.
fn live_by(line: &[u8]) -> Option<JournalDay>
    ensures { result ≡ live_by line.now }
{
    if line.len() >= 9 && &line[..9] == b"day live ".as_slice() {
        live_on(&line[9..])
    } else {
        None
    }
}

/// The day of a line, where it has one.
fn day_on(line: &[u8]) -> Option<JournalDay>
    ensures { result ≡ day_on line.now }
{
    if line == b"day rehearsed".as_slice() {
        Some(JournalDay::Rehearsed)
    } else {
        live_by(line)
    }
}

/// Whether two days are the same.
fn is_day(wanted: JournalDay, day: JournalDay) -> bool
    ensures { result ≡ is_day wanted day }
{
    match (wanted, day) {
        (JournalDay::Rehearsed, JournalDay::Rehearsed) => true,
        (JournalDay::Rehearsed, JournalDay::Live { .. }) => false,
        (JournalDay::Live { .. }, JournalDay::Rehearsed) => false,
        (
            JournalDay::Live { first, pace },
            JournalDay::Live {
                first: second,
                pace: other,
            },
        ) => first == second && pace == other,
    }
}

/// Whether a day is the one that is wanted, or its fault.
fn fits_day(wanted: Option<JournalDay>, day: Option<JournalDay>) -> Result<(), JournalFault>
    ensures { result ≡ fits_day wanted day }
{
    let Some(day) = day else {
        return Err(JournalFault::BadLine(3));
    };
    match wanted {
        None => Ok(()),
        Some(wanted) => {
            if is_day(wanted, day) {
                Ok(())
            } else {
                Err(JournalFault::OtherDay)
            }
        }
    }
}

/// Reads the first line, which names the version and the rules.
fn read_version<R: Read>(
    pieces: &mut Pieces,
    device: &mut Watched<R>,
    day: Option<JournalDay>,
) -> Result<Version, JournalFault>
    ensures line { IsHeadLineFrom (version_on day) R.remaining device.old device.new pieces.old pieces.new result }
    ensures unfaulted { (is_faulted device.new ≡ is_faulted device.old) ⊎ (result ≡ Err JournalFault.ReadFailed) }
{
    let mut line = WholeLine::new();
    match next_line(pieces, device, &mut line) {
        Ok(LineEnd::Whole) => version_on(day, &line),
        Ok(LineEnd::TooLong) => Err(JournalFault::BadLine(1)),
        Ok(LineEnd::Torn) => Err(JournalFault::NotBegun),
        Err(_) => Err(JournalFault::ReadFailed),
    }
}

/// Reads the second line, which ties the journal to its plan.
fn read_plan_line<R: Read>(
    pieces: &mut Pieces,
    device: &mut Watched<R>,
    plan: &[u8; 32],
) -> Result<(), JournalFault>
    ensures line { IsHeadLineFrom (plan_on plan.now) R.remaining device.old device.new pieces.old pieces.new result }
    ensures unfaulted { (is_faulted device.new ≡ is_faulted device.old) ⊎ (result ≡ Err JournalFault.ReadFailed) }
{
    let mut line = WholeLine::new();
    match next_line(pieces, device, &mut line) {
        Ok(LineEnd::Whole) => plan_on(plan, &line),
        Ok(LineEnd::TooLong) => Err(JournalFault::BadLine(2)),
        Ok(LineEnd::Torn) => Err(JournalFault::NotBegun),
        Err(_) => Err(JournalFault::ReadFailed),
    }
}

/// Reads the third line, which ties the journal to its day.
fn read_day_line<R: Read>(
    pieces: &mut Pieces,
    device: &mut Watched<R>,
    day: Option<JournalDay>,
) -> Result<(), JournalFault>
    ensures line { IsHeadLineFrom (λ line. fits_day day (day_on line)) R.remaining device.old device.new pieces.old pieces.new result }
    ensures unfaulted { (is_faulted device.new ≡ is_faulted device.old) ⊎ (result ≡ Err JournalFault.ReadFailed) }
{
    let mut line = WholeLine::new();
    match next_line(pieces, device, &mut line) {
        Ok(LineEnd::Whole) => fits_day(day, day_on(&line)),
        Ok(LineEnd::TooLong) => Err(JournalFault::BadLine(3)),
        Ok(LineEnd::Torn) => Err(JournalFault::NotBegun),
        Err(_) => Err(JournalFault::ReadFailed),
    }
}

/// Reads the head, and answers the version. It has fewer lines than octets.
pub(crate) fn read_head<R: Read>(
    pieces: &mut Pieces,
    device: &mut Watched<R>,
    wanted: &Wanted,
) -> Result<Version, JournalFault>
    ensures head { IsHeadFrom R.remaining device.old device.new wanted.now pieces.old pieces.new result }
    ensures past { IfOk result (λ version. head_size version < pieces.new.taken) }
    ensures unfaulted { (is_faulted device.new ≡ is_faulted device.old) ⊎ (result ≡ Err JournalFault.ReadFailed) }
{
    let version = read_version(pieces, device, wanted.day)?;
    read_plan_line(pieces, device, &wanted.plan)?;
    if version.has_day() {
        read_day_line(pieces, device, wanted.day)?;
    }
    Ok(version)
}
