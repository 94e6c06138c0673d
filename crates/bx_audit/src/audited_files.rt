//! The command that tells a day by its journal.

ghost use Rattle.std.specs.Prelude.{◌≤◌, IfOk, IfErr, OnOk};
ghost use Rattle.bx_base.specs.PlanParts.{parts_of};
ghost use Rattle.bx_capture.specs.declared.start.TheConstants.{LAST_START};
ghost use Rattle.bx_day.specs.Day.{Day};
ghost use Rattle.bx_day_openings.specs.Tied.{IsTiedOf};
ghost use Rattle.bx_audit.specs.AuditRefusals.{HasJournal, StopsAudit, IsAuditRefusal, IsAuditRefusalByName};
ghost use Rattle.bx_audit.specs.Audits.{IsDayAuditedBy, IsAuditToldWhole, IsAuditToldByName};
ghost use Rattle.bx_audit.specs.Given.{GivesByName};
ghost use Rattle.bx_audit.specs.Inside.{GivesJust, IsAuditedInto, IsGivenThrough, IsReadFor, IsUnreadThrough};
ghost use Rattle.bx_audit.specs.Unrecorded.{IsNoJournalOf};
ghost use Rattle.bx_devices.specs.Devices.{writing_of};
ghost use Rattle.bx_devices.specs.Watching.{device_of};

use crate::opens::Opens;
use crate::telling::{AuditedDay, audited_day};
use bx_capture::is_whole;
use bx_check_commands::Inputs;
use bx_day_openings::{
    DayCommandFault, DayOpening, TiedPlan, captured, file_of, first_of, opening_of, replay_journal,
    tied_named,
};
use bx_devices::Watched;
use bx_journal::Wanted;
use bx_request::AuditRequest;
use std::alloc::Global;
use std::io::{Read, Write};

/// Reads the journal in a file through, so that a fault of it is told before the file of a capture is made anew.
fn read_through<'a, H: Opens + AllocGlobal>(
    rt: &H,
    name: &'a str,
    opening: DayOpening,
) -> Result<(), DayCommandFault<'a>>
    ensures read { OnOk result ((day : Day) × IsGivenThrough (GivesByName (H.opens rt.now) H.File.remaining) name.now opening day) }
    ensures refused { IfErr result
        (IsNoJournalOf (GivesByName (H.opens rt.now) H.File.remaining) name.now opening.digest opening.channels opening.exchange) }
{
    let mut journal = rt.open_named(name)?;
    let DayOpening {
        exchange,
        channels,
        digest,
    } = opening;
    let wanted = Wanted::of_any_day(&digest);
    let _through = replay_journal(rt.alloc(), name, &mut journal, &wanted, channels, exchange)?;
    Ok(())
}

/// The plan of an input whose journal in a file is read through.
fn tied_through<'a, H: Opens + AllocGlobal, I: Inputs>(
    rt: &H,
    inputs: &mut I,
    plan: &'a str,
    journal: &'a str,
) -> Result<TiedPlan, DayCommandFault<'a>>
    ensures tied { IfOk result (λ tied. IsTiedOf (I.gives inputs.old) plan.now (parts_of tied.plan) tied.digest) }
    ensures through { OnOk result (HasJournal (I.gives inputs.old) (GivesByName (H.opens rt.now) H.File.remaining) plan.now journal.now) }
    ensures refused { IfErr result (IsUnreadThrough (I.gives inputs.old) (GivesByName (H.opens rt.now) H.File.remaining) plan.now journal.now) }
{
    let tied = tied_named(rt.alloc(), inputs, plan)?;
    let opening = opening_of(rt.alloc(), &tied)?;
    read_through(rt, journal, opening)?;
    Ok(tied)
}

/// The plan of an input. Where there is to be a capture, its journal in a file is read through.
fn tied_for<'a, H: Opens + AllocGlobal, I: Inputs>(
    rt: &H,
    inputs: &mut I,
    request: AuditRequest<'a>,
) -> Result<TiedPlan, DayCommandFault<'a>>
    ensures tied { IfOk result (λ tied. IsTiedOf (I.gives inputs.old) request.entry.plan.now (parts_of tied.plan) tied.digest) }
    ensures through { OnOk result
        (IsReadFor request.entry.capture
        (HasJournal (I.gives inputs.old) (GivesByName (H.opens rt.now) H.File.remaining) request.entry.plan.now request.entry.journal.now)) }
    ensures refused { IfErr result
        (IsUnreadThrough (I.gives inputs.old) (GivesByName (H.opens rt.now) H.File.remaining) request.entry.plan.now request.entry.journal.now) }
{
    if request.capture.is_some() {
        return tied_through(rt, inputs, request.plan, request.journal);
    }
    Ok(tied_named(rt.alloc(), inputs, request.plan)?)
}

/// The day after the events and amendments of a journal of this name, and whether the file took all that was to be captured.
fn audited_into<'a, R: Read + Drop, W: Write + Drop>(
    alloc: Global,
    name: &'a str,
    mut journal: Watched<R>,
    opening: DayOpening,
    mut file: Option<Watched<W>>,
    first: u32,
) -> Result<(AuditedDay, bool), DayCommandFault<'a>>
    requires { first ≤ LAST_START }
    ensures audited { IfOk result (λ audited.
        IsAuditedInto W.contents opening (R.remaining (device_of journal)) file first audited.0.exchange audited.0.given_up.items audited.1) }
    ensures refused { IfErr result (IsNoJournalOf (GivesJust (R.remaining (device_of journal))) name.now opening.digest opening.channels opening.exchange) }
{
    let day = audited_day(alloc, name, &mut journal, opening, &mut file, first)?;
    Ok((day, is_whole(&file)))
}

/// The day after the events and amendments of the journal in a file, and whether all that was to be captured of its day was.
fn audited_in<'a, H: Opens + AllocGlobal + Eprint, I: Inputs>(
    rt: &H,
    inputs: &mut I,
    request: AuditRequest<'a>,
) -> Result<(AuditedDay, bool), DayCommandFault<'a>>
    ensures audited { IfOk result (λ audited.
        IsDayAuditedBy (I.gives inputs.old) (GivesByName (H.opens rt.now) H.File.remaining) H.File.contents request.entry
        audited.0.exchange audited.0.given_up.items audited.1) }
    ensures stopped { IfErr result (StopsAudit (I.gives inputs.old) (GivesByName (H.opens rt.now) H.File.remaining) request.entry) }
{
    let first = first_of(request.capture)?;
    let tied = tied_for(rt, inputs, request)?;
    let file = file_of(rt, request.capture)?;
    let opening = opening_of(rt.alloc(), &tied)?;
    let journal = rt.open_named(request.journal)?;
    audited_into(rt.alloc(), request.journal, journal, opening, file, first)
}

/// Writes what became of each booking of the plan of an input by the journal in a file, a line for each, as the day itself tells
/// them: of a day that has ended, or that is still running. A capture of that day is made afterwards, where one is asked for. One
/// that was not written whole is a refusal, after all that was told; at any other refusal nothing was written, except that where
/// the output failed a prefix of what was to be told was.
///
/// What is needed is opened in this order, and the first fault of it is answered: `Day` or `Capture` for the date and the zone of
/// the capture; `Command` for the plan; `Command`, as `CannotRead`, `Journal`, as `BadLine`, `OtherPlan` or `OtherRules`, or `Amendment` for the
/// journal; `CannotWriteFile` for the file of the capture. `Command`, as `Memory`, is told where memory ran out, as `CannotWrite`, where the output failed, and
/// `CannotWriteFile` that of a capture that was not written whole.
pub fn audit_files<'a, H: Opens + AllocGlobal + Eprint, I: Inputs, W: Write>(
    rt: &H,
    inputs: &mut I,
    request: AuditRequest<'a>,
    output: &mut Watched<W>,
) -> Result<(), DayCommandFault<'a>>
    ensures done { OnOk result (IsAuditToldWhole (I.gives inputs.old) H.File.contents request.entry (writing_of W.contents output.old output.new)) }
    ensures refused { IfErr result (IsAuditRefusal (I.gives inputs.old) request.entry H.File.contents W.contents output.old output.new) }
    // The journal is the file that was opened by its name.
    ensures named { OnOk result
        (IsAuditToldByName (H.opens rt.now) H.File.remaining (I.gives inputs.old) H.File.contents request.entry (writing_of W.contents output.old output.new)) }
    ensures refused_by_name { IfErr result
        (IsAuditRefusalByName (H.opens rt.now) H.File.remaining (I.gives inputs.old) request.entry H.File.contents W.contents output.old output.new) }
{
    let (day, is_whole) = audited_in(rt, inputs, request)?;
    day.exchange.write_outcomes(&day.given_up, output)?;
    captured(request.capture, is_whole)
}
