//! The rows of a script.

ghost use Rattle.std.specs.Prelude.{◌≡◌};
ghost use Rattle.std.specs.Str.{bytes_eq};
ghost use Rattle.csv.specs.Records.{fields_of};
ghost use Rattle.bx_far.specs.ScriptRows.{number_of, script_seconds_of, script_channel_of, policy_word, follows_row, calls_row, script_row_of};
ghost use Rattle.bx_far.specs.Inside.{IsScriptRowRead};

use crate::fault::ScriptFault;
use bx_calls::Policy;
use bx_channels::{Channel, Number};
use bx_text::{all_digits, digits_value, field};
use csv::ByteRecord;

/// A row of a script: what the far end does with calls of a number, or of any number, or a call that it begins
/// itself, at this moment and on this channel.
#[derive(Clone, Copy, Debug, PartialEq, Eq)]
pub enum ScriptRow {
    Follows {
        number: Option<Number>,
        policy: Policy,
    },
    Calls {
        number: Number,
        moment: u32,
        channel: Channel,
    },
}

/// A number of 1 to 15 digits.
fn number(field: &[u8]) -> Option<Number>
    ensures { result ≡ number_of field.now }
{
    Number::new(field)
}

/// Seconds, in 1 to 6 digits: 0 to 100,000.
fn seconds(field: &[u8]) -> Option<u32>
    ensures { result ≡ script_seconds_of field.now }
{
    if field.is_empty() || field.len() > 6 || !all_digits(field) {
        return None;
    }
    let value = digits_value(field);
    if value <= 100_000 {
        Some(value as u32)
    } else {
        None
    }
}

/// A B channel, in one or two digits.
fn channel(field: &[u8]) -> Option<Channel>
    ensures { result ≡ script_channel_of field.now }
{
    if field.len() > 2 || !all_digits(field) {
        return None;
    }
    let value = digits_value(field);
    if value <= 31 {
        Channel::new(value as u8)
    } else {
        None
    }
}

/// Whether a field is this word.
fn is_word(field: &[u8], word: &str) -> bool
    ensures { result ≡ bytes_eq field.now word.now }
{
    field == word.as_bytes()
}

/// The policy of this name.
fn policy(name: &[u8], seconds: u32) -> Option<Policy>
    ensures { result ≡ policy_word name.now seconds }
{
    if is_word(name, "answer") {
        Some(Policy::Answer(seconds))
    } else if is_word(name, "busy") {
        Some(Policy::Busy)
    } else if is_word(name, "silent") {
        Some(Policy::Silent)
    } else if is_word(name, "alert") {
        Some(Policy::Alert)
    } else if is_word(name, "proceed") {
        Some(Policy::Proceed)
    } else if is_word(name, "clear") {
        Some(Policy::Clear(seconds))
    } else {
        None
    }
}

/// A row that follows a policy, of one number or of any.
fn follows(called: &[u8], policy: Policy) -> Option<ScriptRow>
    ensures { result ≡ follows_row called.now policy }
{
    if is_word(called, "*") {
        return Some(ScriptRow::Follows {
            number: None,
            policy,
        });
    }
    let number = number(called)?;
    Some(ScriptRow::Follows {
        number: Some(number),
        policy,
    })
}

/// A row that calls.
fn calls(called: &[u8], moment: u32, channel_field: &[u8]) -> Option<ScriptRow>
    ensures { result ≡ calls_row called.now moment channel_field.now }
{
    if moment == 0 {
        return None;
    }
    let number = number(called)?;
    let channel = channel(channel_field)?;
    Some(ScriptRow::Calls {
        number,
        moment,
        channel,
    })
}

/// The row of these fields, under a header of this many columns.
fn row_of(fields: &ByteRecord, columns: usize) -> Option<ScriptRow>
    ensures { result ≡ script_row_of columns (fields_of fields.now) }
{
    let called = field(fields, 0);
    let name = field(fields, 1);
    let seconds = seconds(field(fields, 2))?;
    let channel = field(fields, 3);
    if columns == 4 && is_word(name, "call") {
        return calls(called, seconds, channel);
    }
    if !channel.is_empty() {
        return None;
    }
    let policy = policy(name, seconds)?;
    follows(called, policy)
}

/// The row of this name, which has this many columns.
pub(crate) fn script_row(
    fields: &ByteRecord,
    columns: usize,
    row: u16,
) -> Result<ScriptRow, ScriptFault>
    ensures { IsScriptRowRead columns row (fields_of fields.now) result }
{
    if fields.len() != columns {
        return Err(ScriptFault::WrongColumns(row));
    }
    match row_of(fields, columns) {
        Some(entry) => Ok(entry),
        None => Err(ScriptFault::BadEntry(row)),
    }
}
