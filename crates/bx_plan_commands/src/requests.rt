//! What is asked of bookings and plans, done.

ghost use Rattle.std.specs.Prelude.{◌≡◌, IfErr, IsErr, OnOk};
ghost use Rattle.bx_devices.specs.Devices.{writing_of};
ghost use Rattle.bx_plan_commands.specs.FileRequests.{IsDone, IsAmendmentTold, IsFileRefused};

use crate::capacity_files::capacity_file;
use crate::chart_files::chart_file;
use crate::fault::FileFault;
use crate::plan_files::{amend_file, check_file, plan_file};
use crate::quote_files::{explain_file, quote_file};
use bx_check_commands::Inputs;
use bx_devices::Watched;
use bx_request::FileRequest;
use std::alloc::Global;
use std::io::Write;

/// Does one command on files. Only `plan` and `amend` may write a note on standard error. At a refusal nothing was written, except that
/// where the output failed a prefix of what was to be written was. The faults are those of the command's own function.
pub fn run_on_files<'a, I: Inputs, W: Write, E: Write>(
    alloc: Global,
    inputs: &mut I,
    request: &FileRequest<'a>,
    output: &mut Watched<W>,
    errors: &mut Watched<E>,
) -> Result<(), FileFault<'a>>
    ensures done { OnOk result (IsDone (I.gives inputs.old) request.now (writing_of W.contents output.old output.new)) }
    ensures told { OnOk result (IsAmendmentTold (I.gives inputs.old) request.now
        (writing_of W.contents output.old output.new) (writing_of E.contents errors.old errors.new)) }
    ensures silent { IsErr result → errors.new ≡ errors.old }
    ensures refused { IfErr result (IsFileRefused (I.gives inputs.old) request.now W.contents output.old output.new) }
{
    match request {
        FileRequest::Plan { terms, bookings } => {
            plan_file(alloc, inputs, terms, bookings, output, errors)
        }
        FileRequest::Check {
            terms,
            bookings,
            plan,
        } => check_file(alloc, inputs, terms, bookings, plan, output),
        FileRequest::Amend {
            date,
            zone,
            plan,
            bookings,
        } => amend_file(alloc, inputs, (date, zone), plan, bookings, output, errors),
        FileRequest::Capacity {
            date,
            zone,
            bookings,
        } => capacity_file(alloc, inputs, (date, zone), bookings, output),
        FileRequest::Explain { plan, row } => explain_file(alloc, inputs, plan, *row, output),
        FileRequest::Quote { plan, call } => quote_file(alloc, inputs, plan, call, output),
        FileRequest::Chart { plan, day } => chart_file(alloc, inputs, plan, *day, output),
    }
}
