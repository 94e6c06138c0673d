//! What is told of a day after its end.

ghost use Rattle.std.specs.Prelude.{◌≡◌, IfErr, OnOk};
ghost use Rattle.bx_devices.specs.Devices.{writing_of};
ghost use Rattle.bx_rehearsal_commands.specs.Telling.{IsToldWhole, IsNotToldWhole};

use bx_check_commands::CommandFault;
use bx_day::Exchange;
use bx_day_openings::{DayCommandFault, RecordsFile, kept, record};
use bx_devices::Watched;
use bx_journal_files::LiveFault;
use bx_request::CaptureWords;
use std::alloc::Global;
use std::io::Write;

/// The exchange at the end of its day, whether all that was to be captured was, and the file for its records, where there is one.
#[derive(Drop)]
pub struct Ended<'a, F> {
    pub exchange: Exchange,
    pub is_whole: bool,
    pub records: Option<RecordsFile<'a, F>>,
}

/// Writes what became of each booking of a day, and its records into the file that was made for them. They are written there also
/// where the output failed: what was carried is to be paid for. What is told first of what failed is the output, then the capture, then
/// the records.
pub fn tell<'a, F: Write + Drop, W: Write>(
    alloc: Global,
    ended: Ended<'a, F>,
    capture: Option<CaptureWords<'a>>,
    output: &mut Watched<W>,
) -> Result<(), LiveFault<'a>>
    ensures told { OnOk result (IsToldWhole F.contents capture.entry ended.entry (writing_of W.contents output.old output.new)) }
    ensures cut { IfErr result (IsNotToldWhole F.contents capture.entry ended.entry (writing_of W.contents output.old output.new)) }
{
    let Ended {
        exchange,
        is_whole,
        records,
    } = ended;
    // A rehearsal has no log that gives a booking up.
    let told = exchange.write_outcomes(&[], output);
    let recorded = record(alloc, &exchange, records);
    if told.is_err() {
        return Err(LiveFault::Day(DayCommandFault::Command(CommandFault::CannotWrite)));
    }
    kept(capture, is_whole, recorded)?;
    Ok(())
}
