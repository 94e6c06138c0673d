//! The fields of a record.

ghost use Rattle.std.specs.Prelude.{◌≡◌, ◌++◌, ◌∷◌, [], ℕ, List, OnOk, IfErr};
ghost use Rattle.bx_records.specs.Records.{outcome_word, from_of, until_of, direction, channel_text, seconds_text, IsTimeText, IsTimeTextOf, booked_text};
ghost use Rattle.bx_records.specs.Inside.{IsUnbuilt};

use crate::fault::RecordsFault;
use bx_calendar::Clock;
use bx_day::{Activity, Entry, Standing};
use bx_text::append_decimal;
use std::alloc::AllocError;

/// The word for what has become of a booking.
pub(crate) fn word_of(standing: &Standing) -> &'static [u8]
    ensures { result.now ≡ outcome_word standing.now }
{
    match standing {
        Standing::Refused => b"refused",
        Standing::Unoffered => b"waiting",
        Standing::OnCall { .. } => b"live",
        Standing::Carried { .. } => b"carried",
        Standing::Unanswered => b"unanswered",
        Standing::Missed => b"missed",
    }
}

/// The moment at which the call of a booking became Active, if it did.
pub(crate) fn active_from(standing: &Standing) -> Option<u32>
    ensures { result ≡ from_of standing.now }
{
    match standing {
        Standing::Carried { from, .. } => Some(*from),
        Standing::OnCall { activity, .. } => match activity {
            Activity::Never => None,
            Activity::Since { from } | Activity::Was { from, .. } => Some(*from),
        },
        _ => None,
    }
}

/// The moment at which it was Active no more, where it is over.
pub(crate) fn active_until(standing: &Standing) -> Option<u32>
    ensures { result ≡ until_of standing.now }
{
    match standing {
        Standing::Carried { until, .. } => Some(*until),
        _ => None,
    }
}

/// Appends the row, the direction, the number and the channel, each with a comma after it.
pub(crate) fn put_booked(text: &mut Vec<u8>, entry: &Entry) -> Result<(), AllocError>
    ensures { OnOk result (text.new.items ≡ text.old.items ++ booked_text entry.now) }
{
    append_decimal(text, u64::from(entry.row))?;
    text.extend_from_slice(if entry.booking.is_inward() {
        b",in,"
    } else {
        b",out,"
    })?;
    text.extend_from_slice(entry.booking.number().digits())?;
    text.extend_from_slice(b",")?;
    put_channel(text, entry)?;
    text.extend_from_slice(b",")
}

/// Appends the channel, if the plan gives it one.
fn put_channel(text: &mut Vec<u8>, entry: &Entry) -> Result<(), AllocError>
    ensures { OnOk result (text.new.items ≡ text.old.items ++ channel_text entry.now entry.now.standing) }
{
    match entry.standing {
        Standing::Refused => Ok(()),
        _ => append_decimal(text, u64::from(entry.channel)),
    }
}

/// Appends a moment, and a comma.
pub(crate) fn put_time(
    text: &mut Vec<u8>,
    clock: Option<Clock>,
    moment: u32,
) -> Result<(), RecordsFault>
    ensures done { OnOk result ((shown : List ℕ) × IsTimeText clock moment shown × (text.new.items ≡ text.old.items ++ (shown ++ 44 ∷ []))) }
    ensures none { IfErr result (IsUnbuilt clock) }
{
    let Some(clock) = clock else {
        append_decimal(text, u64::from(moment))?;
        return Ok(text.extend_from_slice(b",")?);
    };
    let Some(shown) = clock.local_time(moment) else {
        return Err(RecordsFault::OutOfRange);
    };
    text.extend_from_slice(shown.as_bytes())?;
    Ok(text.extend_from_slice(b",")?)
}

/// Appends a moment, if there is one, and a comma.
pub(crate) fn put_time_of(
    text: &mut Vec<u8>,
    clock: Option<Clock>,
    moment: Option<u32>,
) -> Result<(), RecordsFault>
    ensures done { OnOk result ((shown : List ℕ) × IsTimeTextOf clock moment shown × (text.new.items ≡ text.old.items ++ (shown ++ 44 ∷ []))) }
    ensures none { IfErr result (IsUnbuilt clock) }
{
    match moment {
        Some(moment) => put_time(text, clock, moment),
        None => Ok(text.extend_from_slice(b",")?),
    }
}

/// Appends for how many seconds the call was Active, if it was and is over, and LF.
pub(crate) fn put_seconds(text: &mut Vec<u8>, standing: &Standing) -> Result<(), AllocError>
    ensures { OnOk result (text.new.items ≡ text.old.items ++ (seconds_text standing.now ++ 10 ∷ [])) }
{
    if let Standing::Carried { from, until } = standing {
        append_decimal(text, u64::from(until.saturating_sub(*from)))?;
    }
    text.extend_from_slice(b"\n")
}
