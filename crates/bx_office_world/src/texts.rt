//! Texts of the day that runs.

ghost use Rattle.std.specs.Prelude.{◌≡◌, IfOk, IfErr};
ghost use Rattle.bx_day.specs.Telling.{outcomes_text};
ghost use Rattle.bx_records.specs.Records.{IsRecordsText};
ghost use Rattle.bx_office_world.specs.Answers.{IsNoRecords};

use crate::fault::NoAnswer;
use bx_calendar::Clock;
use bx_day::{Exchange, GivenUp};
use bx_devices::Watched;
use bx_records::{RecordsFault, write_records};
use std::alloc::Global;

/// What has become of each booking so far, as the lines of outcomes of a day whose bookings were given up so. `Memory` where memory runs
/// out.
pub fn outcomes_text(
    alloc: Global,
    exchange: &Exchange,
    given_up: &[Option<GivenUp>],
) -> Result<Vec<u8>, NoAnswer>
    ensures text { IfOk result (λ text. text.items ≡ outcomes_text given_up.now exchange.now) }
    ensures none { IfErr result (λ why. why ≡ NoAnswer.Memory) }
{
    let mut text = Watched::new(Vec::new(alloc));
    match exchange.write_outcomes(given_up, &mut text) {
        Ok(()) => Ok(text.into_inner()),
        Err(_) => Err(NoAnswer::Memory),
    }
}

/// The call records so far, as `bx records` writes them. `OutOfRange` where the clock cannot tell a time, `Memory` where memory runs
/// out.
pub fn records_text(
    alloc: Global,
    exchange: &Exchange,
    clock: Option<Clock>,
) -> Result<Vec<u8>, NoAnswer>
    ensures done { IfOk result (λ text. IsRecordsText clock exchange.now.entries text.items) }
    ensures none { IfErr result (IsNoRecords clock) }
{
    let mut text = Watched::new(Vec::new(alloc));
    match write_records(alloc, exchange, clock, &mut text) {
        Ok(()) => Ok(text.into_inner()),
        Err(RecordsFault::OutOfRange) => Err(NoAnswer::OutOfRange),
        Err(_) => Err(NoAnswer::Memory),
    }
}
