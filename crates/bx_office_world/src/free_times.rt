//! The free times of a day.

ghost use Rattle.std.specs.Prelude.{◌≡◌, ◌≤◌, ◌<◌, ◌++◌, ℕ, List, not, length, true, IfOk, IfErr, OnOk};
ghost use Rattle.bx_base.specs.declared.booking.TheConstants.{MAX_MOMENT};
ghost use Rattle.bx_records.specs.Records.{IsTimeText};
ghost use Rattle.bx_office_world.specs.Answers.{IsNoRecords};
ghost use Rattle.bx_office_world.specs.FreeStarts.{IsFreeStart};
ghost use Rattle.bx_office_world.specs.StartMarks.{is_marked_at, IsLineBetween};
ghost use Rattle.bx_office_world.specs.FreeTimes.{AreIntervalsTold, IsFreeText};

use crate::desk::Opened;
use crate::fault::NoAnswer;
use crate::free_starts::free_starts;
use crate::wish::Wish;
use bx_calendar::Clock;
use bx_day::Exchange;
use bx_text::append_decimal;
use std::alloc::Global;

/// The most intervals that are told.
const MAX_INTERVALS: u32 = 100;

/// The first second from this one on that is marked, or is not, or how many seconds there are.
fn next_mark(marks: &[bool], from: usize, wanted: bool) -> usize
    requires { from ≤ length marks.now }
    ensures from { from ≤ result }
    ensures size { result ≤ length marks.now }
    ensures before { (second : ℕ) → from ≤ second → second < result → is_marked_at marks.now second ≡ not wanted }
    ensures there { result < length marks.now → is_marked_at marks.now result ≡ wanted }
{
    for second in from..marks.len() {
        if marks[second] == wanted {
            return second;
        }
    }
    marks.len()
}

/// Appends a moment, as the records tell it.
fn push_time(text: &mut Vec<u8>, clock: Option<Clock>, moment: u32) -> Result<(), NoAnswer>
    ensures done { OnOk result ((shown : List ℕ) × IsTimeText clock moment shown × (text.new.items ≡ text.old.items ++ shown)) }
    ensures none { IfErr result (IsNoRecords clock) }
{
    let Some(clock) = clock else {
        return Ok(append_decimal(text, u64::from(moment))?);
    };
    let Some(shown) = clock.local_time(moment) else {
        return Err(NoAnswer::OutOfRange);
    };
    Ok(text.extend_from_slice(shown.as_bytes())?)
}

/// Appends the line of an interval.
fn push_interval(
    text: &mut Vec<u8>,
    clock: Option<Clock>,
    from: u32,
    until: u32,
) -> Result<(), NoAnswer>
    ensures done { OnOk result ((line : List ℕ) × IsLineBetween clock from until line × (text.new.items ≡ text.old.items ++ line)) }
    ensures none { IfErr result (IsNoRecords clock) }
{
    push_time(text, clock, from)?;
    text.extend_from_slice(b",")?;
    push_time(text, clock, until)?;
    Ok(text.extend_from_slice(b"\n")?)
}

/// Appends the lines of the first hundred intervals of marked seconds.
fn push_intervals(text: &mut Vec<u8>, clock: Option<Clock>, marks: &[bool]) -> Result<(), NoAnswer>
    requires { length marks.now ≡ MAX_MOMENT }
    ensures done { OnOk result (AreIntervalsTold clock (λ second. is_marked_at marks.now second ≡ true) text.old.items text.new.items) }
    ensures none { IfErr result (IsNoRecords clock) }
{
    let mut rest = 0usize;
    for _interval in 0..MAX_INTERVALS {
        let from = next_mark(marks, rest, true);
        if from >= marks.len() {
            return Ok(());
        }
        rest = next_mark(marks, from, false);
        push_interval(text, clock, from as u32, rest as u32 - 1)?;
    }
    Ok(())
}

/// When a call may start that is wished for, beside all that is promised, on the channels that are left: a header, and a line for each
/// of the first hundred maximal intervals of such seconds, from the first to the last of them, as the records tell a moment. `OutOfRange`
/// where the clock cannot tell a time, `Memory` where memory runs out.
pub fn free_text(
    alloc: Global,
    opened: &Opened,
    exchange: &Exchange,
    wish: Wish,
) -> Result<Vec<u8>, NoAnswer>
    ensures text { IfOk result (λ text. IsFreeText opened.now.clock (IsFreeStart opened.now exchange.now wish) text.items) }
    ensures none { IfErr result (IsNoRecords opened.now.clock) }
{
    let marks = free_starts(alloc, opened, exchange, wish)?;
    let mut text = Vec::new(alloc);
    text.extend_from_slice(b"from,until\n")?;
    push_intervals(&mut text, opened.clock, &marks)?;
    Ok(text)
}
