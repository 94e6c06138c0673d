//! Where commands find what their words name: in files, and on standard input under the name `-`.

ghost use Rattle.std.specs.Prelude.{◌≡◌, ℕ, List, Option, Some, codes, false, IfOk, IfErr};
ghost use Rattle.bx_devices.specs.Watching.{device_of, is_faulted, reads_of};
ghost use Rattle.bx_base.specs.PlanParts.{parts_of};
ghost use Rattle.bx_check_commands.specs.Inputs.{GivesOnce, IsPlanOf, IsNoPlanOf, IsProvedOf, IsNoProvedOf};
ghost use Rattle.bx_check_commands.specs.PlanFiles.{IsUnopened};

use crate::causes::tell_cause;
use crate::checking::{plan_from, proved_plan};
use crate::fault::CommandFault;
use bx_base::Plan;
use bx_devices::Watched;
use either::{Either, Left, Right};
use std::alloc::Global;
use std::fs;
use std::fs::Files;
use std::io::Read;

/// Inputs that have names.
pub trait Inputs {
    type Reader: Read + Drop;

    /// What the input of this name has to give, where it tells it.
    ghost gives: { Self → List ℕ → Option (List ℕ) → Type 0 };

    /// The input of this name, to be read from its beginning. `CannotRead` with the name where there is none.
    fn open<'a>(&mut self, name: &'a str) -> Result<Watched<Self::Reader>, CommandFault<'a>>
        ensures opened { IfOk result (λ input. gives self.old name.now (Self.Reader.remaining (device_of input))) }
        ensures unfaulted { IfOk result (λ input. is_faulted input ≡ false) }
        ensures unread { IfOk result (λ input. reads_of input ≡ 0) }
        ensures unopened { IfErr result (IsUnopened name.now) }
        ensures no_more { (other : List ℕ) (text : Option (List ℕ)) → gives self.new other text → gives self.old other text };
}

/// Files by their names, and one more input under the name `-`, which is there once.
#[derive(Drop)]
pub struct FilesAndInput<'f, H, R> {
    files: &'f H,
    input: Option<R>,
}

impl<'f, H: Files, R: Read + Drop> FilesAndInput<'f, H, R> {
    ghost use Rattle.bx_check_commands.specs.Inputs.{input_of};

    /// These files, and this input.
    pub fn new(files: &'f H, input: R) -> Self
        ensures { input_of result ≡ Some input }
    {
        FilesAndInput {
            files,
            input: Some(input),
        }
    }
}

impl<'f, H: Files + Eprint, R: Read + Drop> Inputs for FilesAndInput<'f, H, R> {
    ghost use Rattle.bx_check_commands.specs.Inputs.{input_of};

    type Reader = Either<H::File, R>;

    ghost gives = { λ inputs name text. name ≡ codes "-" → GivesOnce R.remaining (input_of inputs) text };

    fn open<'a>(&mut self, name: &'a str) -> Result<Watched<Either<H::File, R>>, CommandFault<'a>> {
        if name == "-" {
            return match self.input.take() {
                Some(input) => Ok(Watched::new(Right(input))),
                None => Err(CommandFault::CannotRead(name)),
            };
        }
        match fs::open(self.files, name) {
            Ok(file) => Ok(Watched::new(Left(file))),
            Err(cause) => {
                tell_cause(self.files, &name, &cause);
                Err(CommandFault::CannotRead(name))
            }
        }
    }
}

/// The plan whose text the input of this name gives. It need not be proved. `CannotRead` where it cannot be opened, and then the
/// faults of `plan_from`.
pub fn plan_named<'a, I: Inputs>(
    alloc: Global,
    inputs: &mut I,
    name: &'a str,
) -> Result<Plan, CommandFault<'a>>
    ensures found { IfOk result (λ plan. IsPlanOf (I.gives inputs.old) name.now (parts_of plan)) }
    ensures none { IfErr result (IsNoPlanOf (I.gives inputs.old) name.now) }
    ensures no_more { (other : List ℕ) (text : Option (List ℕ)) → I.gives inputs.new other text → I.gives inputs.old other text }
{
    let mut input = inputs.open(name)?;
    plan_from(alloc, name, &mut input)
}

/// The same, where it is proved for the bookings and channels that it states itself. Its last fault is `Check`.
pub fn proved_named<'a, I: Inputs>(
    alloc: Global,
    inputs: &mut I,
    name: &'a str,
) -> Result<Plan, CommandFault<'a>>
    ensures no_more { (other : List ℕ) (text : Option (List ℕ)) → I.gives inputs.new other text → I.gives inputs.old other text }
    ensures found { IfOk result (λ plan. IsProvedOf (I.gives inputs.old) name.now (parts_of plan)) }
    ensures none { IfErr result (IsNoProvedOf (I.gives inputs.old) name.now) }
{
    let mut input = inputs.open(name)?;
    proved_plan(alloc, name, &mut input)
}
