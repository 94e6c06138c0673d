//! The command that draws a day by its journal.

ghost use Rattle.std.specs.Prelude.{◌≡◌, IfOk, IfErr, OnOk};
ghost use Rattle.bx_devices.specs.Devices.{writing_of};
ghost use Rattle.bx_day_chart.specs.Charts.{IsDayDrawn};
ghost use Rattle.bx_day_chart.specs.Sights.{sight_of};
ghost use Rattle.bx_audit.specs.Charted.{IsDayCharted, IsDaySeen};
ghost use Rattle.bx_audit.specs.Inside.{IsGivenSeen, IsJournalUnseen, IsDayUndrawn};
ghost use Rattle.bx_audit.specs.Uncharted.{IsDayChartCommandRefusal, IsDayUnseen};

use crate::charting::seen_by;
use bx_base::ChannelSet;
use bx_calendar::Clock;
use bx_chart::ChartFault;
use bx_check_commands::{CommandFault, Inputs};
use bx_day::Exchange;
use bx_day_chart::{DaySight, is_over, write_day_chart};
use bx_day_openings::{DayCommandFault, DayOpening, clock_of, day_opening};
use bx_devices::Watched;
use bx_journal::Wanted;
use bx_request::DayChartRequest;
use std::alloc::Global;
use std::io::Write;

/// A day that a picture is drawn of: its exchange, the channels in service, and what else a picture shows of it.
#[derive(Drop)]
struct SeenDay {
    exchange: Exchange,
    channels: ChannelSet,
    sight: DaySight,
}

/// The day of this opening after just the events and amendments of the journal of an input.
fn seen_from<'a, I: Inputs>(
    alloc: Global,
    inputs: &mut I,
    journal: &'a str,
    day: DayOpening,
) -> Result<SeenDay, DayCommandFault<'a>>
    ensures in_service { IfOk result (λ seen. seen.channels ≡ day.channels) }
    ensures seen { IfOk result (λ seen. IsGivenSeen (I.gives inputs.old) journal.now day seen.exchange (sight_of seen.sight)) }
    ensures unseen { IfErr result (IsJournalUnseen (I.gives inputs.old) journal.now day) }
{
    let mut input = inputs.open(journal)?;
    let wanted = Wanted::of_any_day(&day.digest);
    let channels = day.channels;
    let seen = seen_by(alloc, journal, &mut input, &wanted, channels, day.exchange)?;
    let is_over = is_over(&seen.exchange);
    let sight = DaySight {
        outages: seen.outages,
        is_over,
    };
    Ok(SeenDay {
        exchange: seen.exchange,
        channels,
        sight,
    })
}

/// The day of the plan of one input after just the events and amendments of the journal of another.
fn day_seen<'a, I: Inputs>(
    alloc: Global,
    inputs: &mut I,
    plan: &'a str,
    journal: &'a str,
) -> Result<SeenDay, DayCommandFault<'a>>
    ensures seen { IfOk result (λ seen. IsDaySeen (I.gives inputs.old) plan.now journal.now seen.channels seen.exchange (sight_of seen.sight)) }
    ensures unseen { IfErr result (IsDayUnseen (I.gives inputs.old) plan.now journal.now) }
{
    let day = day_opening(alloc, inputs, plan)?;
    seen_from(alloc, inputs, journal, day)
}

/// Draws a day that was seen.
fn draw<'a, W: Write>(
    alloc: Global,
    day: &SeenDay,
    clock: Option<Clock>,
    output: &mut Watched<W>,
) -> Result<(), DayCommandFault<'a>>
    ensures drawn { OnOk result (IsDayDrawn day.now.exchange day.now.channels (sight_of day.now.sight) clock (writing_of W.contents output.old output.new)) }
    ensures undrawn { IfErr result
        (IsDayUndrawn day.now.exchange day.now.channels (sight_of day.now.sight) clock (writing_of W.contents output.old output.new)) }
{
    match write_day_chart(
        alloc,
        &day.exchange,
        day.channels,
        &day.sight,
        clock.as_ref(),
        output,
    ) {
        Ok(()) => Ok(()),
        Err(ChartFault::Memory) => Err(DayCommandFault::Command(CommandFault::Memory)),
        Err(ChartFault::WriteFailed) => Err(DayCommandFault::Command(CommandFault::CannotWrite)),
    }
}

/// Draws the day of the plan of one input as it went, by the journal of another: a day that has ended, or that is still running; a line stands at the moment to
/// which it has come while a booking waits or is live. At a refusal nothing was written, except that where the output failed a prefix of the picture was.
///
/// What is needed is opened in this order, and the first fault of it is answered: `Day` for the date and the zone; `Command` for the plan; `Command`, as
/// `CannotRead`, `Journal`, as `BadLine`, `OtherPlan` or `OtherRules`, or `Amendment` for the journal. Then `Command`, as `Memory`, where memory ran out, and
/// as `CannotWrite`, where the output failed.
pub fn chart_day_files<'a, I: Inputs, W: Write>(
    alloc: Global,
    inputs: &mut I,
    request: DayChartRequest<'a>,
    output: &mut Watched<W>,
) -> Result<(), DayCommandFault<'a>>
    ensures done { OnOk result (IsDayCharted (I.gives inputs.old) request.entry (writing_of W.contents output.old output.new)) }
    ensures refused { IfErr result (IsDayChartCommandRefusal (I.gives inputs.old) request.entry W.contents output.old output.new) }
{
    let clock = clock_of(request.day)?;
    let day = day_seen(alloc, inputs, request.plan, request.journal)?;
    draw(alloc, &day, clock, output)
}
