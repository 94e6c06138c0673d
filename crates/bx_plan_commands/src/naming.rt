//! What the words name: a day and channels.

ghost use Rattle.std.specs.Prelude.{IfOk, IfErr};
ghost use Rattle.bx_calendar.specs.NamedDays.{IsDayOf};
ghost use Rattle.bx_plan_commands.specs.FilePlans.{AreTerms};
ghost use Rattle.bx_plan_commands.specs.FileRefusals.{IsNoDay, AreNoTerms};

use crate::fault::FileFault;
use bx_base::ChannelSet;
use bx_calendar::Day;
use bx_request::Terms;

/// The day that these words name.
pub(crate) fn day_of<'a>(date: &str, zone: &str) -> Result<Day, FileFault<'a>>
    ensures named { IfOk result (IsDayOf date.now zone.now) }
    ensures none { IfErr result (IsNoDay date.now zone.now) }
{
    Ok(Day::new(date, zone)?)
}

/// The channels and the day that the words name.
pub(crate) fn channels_and_day<'a>(terms: &Terms<'_>) -> Result<(ChannelSet, Day), FileFault<'a>>
    ensures named { IfOk result (λ named. AreTerms terms.now named.0 named.1) }
    ensures none { IfErr result (AreNoTerms terms.now) }
{
    let channels = match ChannelSet::from_numbers(&terms.channels) {
        Ok(channels) => channels,
        Err(fault) => return Err(FileFault::Channels(fault)),
    };
    let day = day_of(terms.date, terms.zone)?;
    Ok((channels, day))
}
