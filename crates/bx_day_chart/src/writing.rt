//! A picture of a day, written.

ghost use Rattle.std.specs.Prelude.{IfErr, OnOk, option_copied};
ghost use Rattle.bx_devices.specs.Devices.{writing_of};
ghost use Rattle.bx_day_chart.specs.Charts.{IsDayChartRefusal, IsDayDrawn};
ghost use Rattle.bx_day_chart.specs.Sights.{sight_of};

use crate::chart::day_chart;
use crate::outages::DaySight;
use bx_base::ChannelSet;
use bx_calendar::Clock;
use bx_chart::ChartFault;
use bx_day::Exchange;
use bx_devices::{Watched, write_octets};
use std::alloc::Global;
use std::io::Write;

/// Writes a picture of a day as it went, in SVG 1.1: of the day of a clock with the hours that it shows, or of 86,400 seconds with the hours from midnight
/// on. Each booking that the plan accepts has its bar in the lane of its channel, pale, and over it what was carried; one of which not all was carried has a
/// mark that says why. The seconds without a link are shaded over all lanes, the lane of a channel in maintenance is hatched from when a call was last on it,
/// and where the day is not over a line stands at the moment to which it has come. `Memory` where memory runs out, before anything is written;
/// `WriteFailed` where a write fails, or takes none of what it was given.
pub fn write_day_chart<W: Write>(
    alloc: Global,
    exchange: &Exchange,
    channels: ChannelSet,
    sight: &DaySight,
    clock: Option<&Clock>,
    output: &mut Watched<W>,
) -> Result<(), ChartFault>
    ensures drawn { OnOk result (IsDayDrawn exchange.now channels (sight_of sight.now) (option_copied clock.entry)
        (writing_of W.contents output.old output.new)) }
    ensures refused { IfErr result (IsDayChartRefusal exchange.now channels (sight_of sight.now) (option_copied clock.entry)
        (writing_of W.contents output.old output.new)) }
{
    let Ok(picture) = day_chart(alloc, exchange, &channels, sight, clock) else {
        return Err(ChartFault::Memory);
    };
    match write_octets(output, picture.text()) {
        Ok(()) => Ok(()),
        Err(_) => Err(ChartFault::WriteFailed),
    }
}
