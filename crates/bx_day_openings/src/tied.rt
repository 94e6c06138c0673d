//! A plan with the digest of its text.

ghost use Rattle.std.specs.Prelude.{None, ℕ, List, Option, IfOk, IfErr};
ghost use Rattle.bx_base.specs.PlanParts.{parts_of};
ghost use Rattle.bx_check_commands.specs.PlanFiles.{HasNoProvedPlan};
ghost use Rattle.bx_devices.specs.Watching.{device_of};
ghost use Rattle.bx_day_openings.specs.Tied.{IsTied, IsTiedOf};

use bx_base::Plan;
use bx_check_commands::{CommandFault, Inputs, proved_plan};
use bx_devices::{ReadFault, Watched, read_octets};
use bx_journal::plan_digest;
use std::alloc::Global;
use std::io::Read;

/// A plan that is proved for the bookings and channels that it states itself, and the SHA-256 digest of the text that it was
/// read from, which ties a journal to it.
#[derive(Drop)]
pub struct TiedPlan {
    pub plan: Plan,
    pub digest: [u8; 32],
}

/// The plan whose text is read to the end of an input of this name, where it is proved, with the digest of just this text. A text is
/// at most 4,194,304 octets, read in at most 8,388,608 reads; `CannotRead` is answered beyond that, and where a read failed. `Plan`
/// where the text is no plan, `Check` where the plan is not proved, `Memory` where memory ran out.
pub fn tied_plan<'a, R: Read>(
    alloc: Global,
    name: &'a str,
    input: &mut Watched<R>,
) -> Result<TiedPlan, CommandFault<'a>>
    ensures found { IfOk result (λ tied. IsTied (R.remaining (device_of input.old)) (parts_of tied.plan) tied.digest) }
    ensures none { IfErr result (HasNoProvedPlan name.now) }
{
    let text = match read_octets(alloc, input) {
        Ok(text) => text,
        Err(ReadFault::Memory) => return Err(CommandFault::Memory),
        Err(_) => return Err(CommandFault::CannotRead(name)),
    };
    let digest = plan_digest(&text);
    let mut octets = Watched::new(text.as_slice());
    let plan = proved_plan(alloc, name, &mut octets)?;
    Ok(TiedPlan { plan, digest })
}

/// The same of the text that the input of this name gives, with the same faults; `CannotRead` also where it cannot be opened.
pub fn tied_named<'a, I: Inputs>(
    alloc: Global,
    inputs: &mut I,
    name: &'a str,
) -> Result<TiedPlan, CommandFault<'a>>
    ensures found { IfOk result (λ tied. IsTied None (parts_of tied.plan) tied.digest) }
    ensures given { IfOk result (λ tied. IsTiedOf (I.gives inputs.old) name.now (parts_of tied.plan) tied.digest) }
    ensures none { IfErr result (HasNoProvedPlan name.now) }
    ensures no_more { (other : List ℕ) (text : Option (List ℕ)) → I.gives inputs.new other text → I.gives inputs.old other text }
{
    let mut input = inputs.open(name)?;
    tied_plan(alloc, name, &mut input)
}
