//! The lines of the records.

ghost use Rattle.std.specs.Prelude.{◌≡◌, ◌++◌, ◌∷◌, [], ℕ, List, decimal, OnOk, IfOk, IfErr};
ghost use Rattle.bx_records.specs.Records.{outcome_word, IsRecord, IsRecordsText};
ghost use Rattle.bx_records.specs.Inside.{IsUnbuilt};

use crate::fault::RecordsFault;
use crate::records::{
    active_from, active_until, put_booked, put_seconds, put_time, put_time_of, word_of,
};
use bx_calendar::Clock;
use bx_day::Entry;
use bx_text::append_decimal;
use std::alloc::{AllocError, Global};

/// Appends what is paid and what became of it, each with a comma after it.
fn put_outcome(text: &mut Vec<u8>, entry: &Entry) -> Result<(), AllocError>
    ensures { OnOk result (text.new.items ≡ text.old.items ++ (decimal entry.now.booking.pay ++ 44 ∷ outcome_word entry.now.standing ++ 44 ∷ [])) }
{
    append_decimal(text, entry.booking.pay())?;
    text.extend_from_slice(b",")?;
    text.extend_from_slice(word_of(&entry.standing))?;
    text.extend_from_slice(b",")
}

/// Appends the line of a booking.
fn put_record(text: &mut Vec<u8>, clock: Option<Clock>, entry: &Entry) -> Result<(), RecordsFault>
    ensures done { OnOk result ((line : List ℕ) × IsRecord clock entry.now line × (text.new.items ≡ text.old.items ++ line)) }
    ensures none { IfErr result (IsUnbuilt clock) }
{
    put_booked(text, entry)?;
    put_time(text, clock, entry.booking.start())?;
    put_time(text, clock, entry.booking.end())?;
    put_outcome(text, entry)?;
    put_time_of(text, clock, active_from(&entry.standing))?;
    put_time_of(text, clock, active_until(&entry.standing))?;
    Ok(put_seconds(text, &entry.standing)?)
}

/// The whole text: the header, and a line for each booking.
pub(crate) fn text_of(
    alloc: Global,
    clock: Option<Clock>,
    entries: &[Entry],
) -> Result<Vec<u8>, RecordsFault>
    ensures done { IfOk result (λ text. IsRecordsText clock entries.now text.items) }
    ensures none { IfErr result (IsUnbuilt clock) }
{
    let mut text = Vec::new(alloc);
    text.extend_from_slice(
        b"row,direction,number,channel,start,end,pay,outcome,from,until,seconds\n",
    )?;
    for entry in entries {
        put_record(&mut text, clock, entry)?;
    }
    Ok(text)
}
