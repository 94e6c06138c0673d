//! The day that runs, as a picture.

ghost use Rattle.std.specs.Prelude.{◌≡◌, IfOk, IfErr, option_copied};
ghost use Rattle.bx_day_chart.specs.Charts.{IsDayChart};
ghost use Rattle.bx_day_chart.specs.Sights.{sight_of};

use crate::fault::NoAnswer;
use bx_base::ChannelSet;
use bx_calendar::Clock;
use bx_day::Exchange;
use bx_day_chart::{DaySight, write_day_chart};
use bx_devices::Watched;
use std::alloc::Global;

/// The day so far as a picture, as `bx_day_chart` draws it. `Memory` where memory runs out.
pub fn chart_text(
    alloc: Global,
    exchange: &Exchange,
    channels: ChannelSet,
    sight: &DaySight,
    clock: Option<&Clock>,
) -> Result<Vec<u8>, NoAnswer>
    ensures text { IfOk result (λ text. IsDayChart exchange.now channels (sight_of sight.now) (option_copied clock.entry) text.items) }
    ensures none { IfErr result (λ why. why ≡ NoAnswer.Memory) }
{
    let mut text = Watched::new(Vec::new(alloc));
    match write_day_chart(alloc, exchange, channels, sight, clock, &mut text) {
        Ok(()) => Ok(text.into_inner()),
        Err(_) => Err(NoAnswer::Memory),
    }
}
