//! A day that is told by its journal.

ghost use Rattle.std.specs.Prelude.{◌≡◌, IfOk, IfErr};
ghost use Rattle.bx_audit.specs.Inside.{IsGivenThrough};
ghost use Rattle.bx_audit.specs.Recorded.{IsDayTold};
ghost use Rattle.bx_audit.specs.Unrecorded.{IsNoJournalOf, IsDayUntold};

use bx_base::ChannelSet;
use bx_check_commands::Inputs;
use bx_day::Exchange;
use bx_day_openings::{DayCommandFault, DayOpening, day_opening, replay_journal};
use bx_journal::Wanted;
use std::alloc::Global;

/// An exchange after its journal, and the channels in service.
#[derive(Drop)]
pub(crate) struct ToldDay {
    pub(crate) exchange: Exchange,
    pub(crate) channels: ChannelSet,
}

/// The exchange after just the events and amendments of the journal of an input, from this opening on.
fn told_from<'a, I: Inputs>(
    alloc: Global,
    inputs: &mut I,
    journal: &'a str,
    day: DayOpening,
) -> Result<ToldDay, DayCommandFault<'a>>
    ensures in_service { IfOk result (λ told. told.channels ≡ day.channels) }
    ensures told { IfOk result (λ told. IsGivenThrough (I.gives inputs.old) journal.now day told.exchange) }
    ensures untold { IfErr result (IsNoJournalOf (I.gives inputs.old) journal.now day.digest day.channels day.exchange) }
{
    let mut input = inputs.open(journal)?;
    let wanted = Wanted::of_any_day(&day.digest);
    let channels = day.channels;
    let replayed = replay_journal(alloc, journal, &mut input, &wanted, channels, day.exchange)?;
    Ok(ToldDay {
        exchange: replayed.exchange,
        channels,
    })
}

/// The exchange after just the events and amendments of the journal of one input, from the opening of the day of the plan of another on.
pub(crate) fn told_by<'a, I: Inputs>(
    alloc: Global,
    inputs: &mut I,
    plan: &'a str,
    journal: &'a str,
) -> Result<ToldDay, DayCommandFault<'a>>
    ensures told { IfOk result (λ told. IsDayTold (I.gives inputs.old) plan.now journal.now told.channels told.exchange) }
    ensures untold { IfErr result (IsDayUntold (I.gives inputs.old) plan.now journal.now) }
{
    let day = day_opening(alloc, inputs, plan)?;
    told_from(alloc, inputs, journal, day)
}
