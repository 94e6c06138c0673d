//! How a day opens whose events are logged.

ghost use Rattle.std.specs.Prelude.{◌≡◌, ℕ, List, Option, IfOk, IfErr};
ghost use Rattle.bx_base.specs.Bookings.{Carries};
ghost use Rattle.bx_base.specs.Plans.{is_accepted, channel_at};
ghost use Rattle.bx_check_commands.specs.declared.fault.CommandFault.TheVariants as commands;
ghost use Rattle.bx_day_openings.specs.OpeningRefusals.{IsNoOpening};
ghost use Rattle.bx_day_openings.specs.TiedDays.{IsTiedDay, IsTiedOpening, IsOpeningOf, IsOpened};

use crate::tied::{TiedPlan, tied_named};
use crate::{DayCommandFault, turns_of};
use bx_base::ChannelSet;
use bx_check_commands::Inputs;
use bx_day::Exchange;
use std::alloc::Global;

/// The exchange at the opening of the day of a plan, the digest of that plan, and how many turns the day is to have.
#[derive(Drop)]
pub struct Opening {
    pub exchange: Exchange,
    pub digest: [u8; 32],
    pub turns: u32,
}

/// The exchange at the opening of the day of a plan, the channels in service, and the digest of that plan: what a journal of it is followed from.
#[derive(Drop)]
pub struct DayOpening {
    pub exchange: Exchange,
    pub channels: ChannelSet,
    pub digest: [u8; 32],
}

/// The opening of the day of this plan, whose channels carry its accepted bookings. `Command`, as `Memory`, where memory runs out.
pub fn opening_of<'a>(alloc: Global, tied: &TiedPlan) -> Result<DayOpening, DayCommandFault<'a>>
    requires { Carries tied.now.plan.bookings tied.now.plan.channels (is_accepted tied.now.plan.assigned.items) (channel_at tied.now.plan.assigned.items) }
    ensures opened { IfOk result (IsOpened tied.now) }
    ensures refused { IfErr result (λ fault. fault ≡ DayCommandFault.Command commands.Memory) }
{
    let exchange = Exchange::new(alloc, &tied.plan)?;
    Ok(DayOpening {
        exchange,
        channels: tied.plan.channels,
        digest: tied.digest,
    })
}

/// The same of the plan of an input.
pub fn day_opening<'a, I: Inputs>(
    alloc: Global,
    inputs: &mut I,
    name: &'a str,
) -> Result<DayOpening, DayCommandFault<'a>>
    ensures opened { IfOk result (λ o. IsTiedOpening o.exchange o.channels o.digest) }
    ensures given { IfOk result (λ o. IsOpeningOf (I.gives inputs.old) name.now o.exchange o.channels o.digest) }
    ensures refused { IfErr result (IsNoOpening name.now) }
    ensures no_more { (other : List ℕ) (text : Option (List ℕ)) → I.gives inputs.new other text → I.gives inputs.old other text }
{
    let tied = tied_named(alloc, inputs, name)?;
    opening_of(alloc, &tied)
}

/// The opening of the day of the plan of an input.
pub fn tied_opening<'a, I: Inputs>(
    alloc: Global,
    inputs: &mut I,
    name: &'a str,
    turns: Option<u32>,
) -> Result<Opening, DayCommandFault<'a>>
    ensures opened { IfOk result (λ opened. IsTiedDay turns opened.exchange opened.digest opened.turns) }
    ensures refused { IfErr result (IsNoOpening name.now) }
{
    let tied = tied_named(alloc, inputs, name)?;
    let turns = match turns {
        Some(turns) => turns,
        None => turns_of(&tied.plan),
    };
    let exchange = Exchange::new(alloc, &tied.plan)?;
    Ok(Opening {
        exchange,
        digest: tied.digest,
        turns,
    })
}
