//! A picture, written.

ghost use Rattle.std.specs.Prelude.{◌≡◌, ◌++◌, true, codes, IfOk, IfErr, OnOk, option_copied};
ghost use Rattle.bx_devices.specs.Devices.{writing_of};
ghost use Rattle.bx_base.specs.PlanParts.{parts_of};
ghost use Rattle.bx_chart.specs.Charts.{IsChart, IsDrawn, IsChartRefusal};
ghost use Rattle.bx_chart.specs.Frames.{front, gain_words, head};
ghost use Rattle.bx_chart.specs.Hours.{hours_in};
ghost use Rattle.bx_chart.specs.Plain.{is_plain};
ghost use Rattle.bx_chart.specs.Sheets.{room};

use crate::barless::Barless;
use crate::bars::bars;
use crate::frame::{add_gain, front, head};
use crate::hours::add_hours;
use crate::levels::add_refused;
use crate::picture::Picture;
use crate::prices::add_prices;
use crate::sheet::Sheet;
use crate::starts::add_starts;
use bx_base::Plan;
use bx_calendar::Clock;
use bx_devices::{Watched, write_octets};
use std::alloc::{AllocError, Global};
use std::io::Write;
use thiserror::Error;

/// Why a picture was not written.
#[derive(Clone, Copy, Debug, PartialEq, Eq, Error)]
pub enum ChartFault {
    /// Memory ran out: nothing was written.
    #[error("Memory")]
    Memory,
    /// A write failed, or took none of what it was given: a front of the picture was written.
    #[error("F2 CannotWrite")]
    WriteFailed,
}

/// What stands between the bars and the hours.
fn between(alloc: Global, plan: &Plan, sheet: &Sheet) -> Result<Barless, AllocError> {
    let mut piece = Barless::new(alloc);
    add_starts(&mut piece, plan, sheet)?;
    add_refused(alloc, &mut piece, plan, sheet)?;
    add_prices(&mut piece, plan, sheet)?;
    Ok(piece)
}

/// The head with the gain, and what stands between that and the bars.
fn begin(alloc: Global, plan: &Plan, gain: u64, sheet: &Sheet) -> Result<Picture, AllocError>
    ensures { IfOk result (λ picture. picture.text.items ≡ head (parts_of plan.now) (room sheet.now) ++ gain_words gain
        ++ front (parts_of plan.now) (room sheet.now)) }
{
    let mut picture = head(alloc, plan, sheet)?;
    add_gain(&mut picture, gain)?;
    let front = front(alloc, plan, sheet)?;
    picture.add(front.text())?;
    Ok(picture)
}

/// Adds the bars, what stands between them and the hours, and the hours.
fn finish(
    picture: &mut Picture,
    bars: &[u8],
    between: &[u8],
    sheet: &Sheet,
    clock: Option<&Clock>,
) -> Result<(), AllocError>
    requires bars { is_plain bars.now ≡ true }
    requires between { is_plain between.now ≡ true }
    ensures { OnOk result (picture.new.text.items ≡ picture.old.text.items ++ bars.now ++ codes "</svg>\n" ++ between.now
        ++ hours_in (room sheet.now) (option_copied clock.entry) ++ codes "</svg>\n") }
{
    picture.add(bars)?;
    picture.add(b"</svg>\n")?;
    picture.add(between)?;
    add_hours(picture, sheet, clock)?;
    picture.add(b"</svg>\n")
}

/// The whole picture.
fn chart(
    alloc: Global,
    plan: &Plan,
    gain: u64,
    clock: Option<&Clock>,
) -> Result<Picture, AllocError>
    ensures { IfOk result (λ picture. IsChart (parts_of plan.now) gain (option_copied clock.entry) picture.text.items) }
{
    let sheet = Sheet::of(plan, clock);
    let mut picture = begin(alloc, plan, gain, &sheet)?;
    let bars = bars(alloc, plan, clock)?;
    let between = between(alloc, plan, &sheet)?;
    finish(&mut picture, bars.text(), between.text(), &sheet, clock)?;
    // Read for the prover alone, which learns a limit from it.
    let _text = picture.text();
    Ok(picture)
}

/// Writes a picture of a plan, in SVG 1.1: of the day of a clock with the hours that it shows, or of 86,400 seconds with the
/// hours from midnight on. It says of this gain that one more channel would add it. `Memory` where memory runs out, before
/// anything is written; `WriteFailed` where a write fails, or takes none of what it was given.
pub fn write_chart<W: Write>(
    alloc: Global,
    plan: &Plan,
    gain: u64,
    clock: Option<&Clock>,
    output: &mut Watched<W>,
) -> Result<(), ChartFault>
    ensures drawn { OnOk result (IsDrawn (parts_of plan.now) gain (option_copied clock.entry) (writing_of W.contents output.old output.new)) }
    ensures refused { IfErr result (IsChartRefusal (parts_of plan.now) gain (option_copied clock.entry) (writing_of W.contents output.old output.new)) }
{
    let Ok(picture) = chart(alloc, plan, gain, clock) else {
        return Err(ChartFault::Memory);
    };
    match write_octets(output, picture.text()) {
        Ok(()) => Ok(()),
        Err(_) => Err(ChartFault::WriteFailed),
    }
}
