//! The day after a journal.

ghost use Rattle.std.specs.Prelude.{◌≤◌, IfOk, IfErr, IsErrOf};
ghost use Rattle.bx_capture.specs.declared.start.TheConstants.{LAST_START};
ghost use Rattle.bx_devices.specs.Watching.{device_of};
ghost use Rattle.bx_journal.specs.Heads.{of_any_day};
ghost use Rattle.bx_audit.specs.Audits.{IsKeptSoFar, IsOpeningAudited, IsNotAuditedAsRead};
ghost use Rattle.bx_devices.specs.Devices.{reading_of};

use crate::following::Recaptured;
use bx_capture::Captured;
use bx_day::{Exchange, GivenUp};
use bx_day_openings::{DayCommandFault, DayOpening, journal_read};
use bx_devices::Watched;
use bx_journal::{JournalFault, Wanted, read_journal};
use bx_sales::none_given_up;
use std::alloc::Global;
use std::io::{Read, Write};

/// An exchange after its journal, and how bookings were given up by it, by their rows.
#[derive(Drop)]
pub struct AuditedDay {
    pub exchange: Exchange,
    pub given_up: Vec<Option<GivenUp>>,
}

/// The exchange after just the events of a journal of this name and what amends its plan, from the opening of the day of its plan on.
/// A journal that was not begun has no event. Where there is a file, it takes the packets of what was sent and heard, as it took
/// them on the day of the journal; moment 0 is the first second, which is at most `LAST_START`. The journal is read in pieces,
/// so it may be of any length. How bookings were given up is noted of the same events.
///
/// `Amendment` where a line of it that amends the plan is none of its day; else `Journal`, as `BadLine`, `OtherPlan` or `OtherRules`, where what was read is no
/// journal of the plan, of whatever day, or `Command`, as `CannotRead` of that name, where a read failed. `Command`, as `Memory`, where memory runs out before
/// it is read.
pub fn audited_day<'a, R: Read, W: Write + Drop>(
    alloc: Global,
    name: &'a str,
    journal: &mut Watched<R>,
    opening: DayOpening,
    file: &mut Option<Watched<W>>,
    first: u32,
) -> Result<AuditedDay, DayCommandFault<'a>>
    requires { first ≤ LAST_START }
    ensures audited { IfOk result (λ audited.
        IsOpeningAudited opening (R.remaining (device_of journal.old)) W.contents file.old file.new first audited.exchange audited.given_up.items) }
    ensures refused { IfErr result (IsNotAuditedAsRead name.now opening (reading_of R.remaining journal.old journal.new)) }
    // No day is wanted, so none is another one.
    ensures any_day { IsErrOf result (DayCommandFault.Journal JournalFault.OtherDay) → ⊥ }
    ensures kept { IfErr result (λ fault. IsKeptSoFar W.contents opening.channels file.old file.new first opening.exchange) }
{
    let DayOpening {
        exchange,
        channels,
        digest,
    } = opening;
    let given_up = none_given_up(alloc)?;
    let captured = Captured::new(exchange, file.take(), first);
    let mut recaptured = Recaptured {
        alloc,
        channels,
        captured,
        fault: None,
        given_up,
    };
    let wanted = Wanted::of_any_day(&digest);
    let whole = read_journal(journal, &wanted, &mut recaptured);
    let Recaptured {
        captured,
        fault,
        given_up,
        ..
    } = recaptured;
    let Captured {
        end,
        file: kept,
        first: _,
    } = captured;
    *file = kept;
    if let Some(fault) = fault {
        return Err(DayCommandFault::Amendment(fault));
    }
    journal_read(name, whole)?;
    Ok(AuditedDay {
        exchange: end,
        given_up,
    })
}
