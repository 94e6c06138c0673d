//! How many of a day's calls were carried, and what they pay.

ghost use Rattle.std.specs.Prelude.{◌≡◌, ◌≤◌, ◌+◌, ◌++◌, length, not, IsTrue, OnOk, OnErr};
ghost use Rattle.std.specs.Io.KnownBytes.{Appends};
ghost use Rattle.bx_base.specs.declared.bookings.TheConstants.{MAX_BOOKINGS};
ghost use Rattle.bx_day.specs.Invariant.{stands_accepted};
ghost use Rattle.bx_devices.specs.Octets.{AppendsPrefix};
ghost use Rattle.bx_devices.specs.Watching.{device_of, is_faulted};
ghost use Rattle.bx_records.specs.Totals.{is_carried, totals_text};
ghost use Rattle.bx_records.specs.Inside.{earned_line, lasted_line, totals_line};
ghost use Rattle.bx_records.specs.Tallies.{IsTallyOf};
ghost use Rattle.arrayvec.specs.ArrayVec.{array_vec_len};

use crate::lasted::{Lasted, is_carried, lasted_of};
use crate::tallies::Tally;
use arrayvec::ArrayVec;
use bx_day::{Entry, Exchange};
use bx_devices::{Watched, WriteFailed, write_octets};
use bx_text::{Line, add, add_decimal, append};
use std::io::Write;

/// The bookings that the plan accepts, and those of them whose calls were carried, for a second or more.
#[derive(Clone, Copy)]
struct Totals {
    accepted: Tally,
    carried: Tally,
}

/// The totals of a day's bookings.
fn totals_of(entries: &[Entry]) -> Totals
    requires { length entries.now ≤ MAX_BOOKINGS }
    ensures accepted { IsTallyOf stands_accepted entries.now result.accepted }
    ensures carried { IsTallyOf is_carried entries.now result.carried }
{
    let mut totals = Totals {
        accepted: Tally::NONE,
        carried: Tally::NONE,
    };
    for entry in entries {
        totals.accepted.count(entry, !entry.standing.is_refused());
        totals.carried.count(entry, is_carried(&entry.standing));
    }
    totals
}

/// What was earned, the first half of the line of the totals.
fn earned_line(totals: Totals) -> Line
    ensures items { result.items ≡ earned_line totals }
    ensures few { length result.items ≤ 128 }
{
    let mut line = Line::new();
    append(&mut line, b"carried ");
    add_decimal(&mut line, totals.carried.count, b' ');
    append(&mut line, b"of ");
    add_decimal(&mut line, totals.accepted.count, b' ');
    append(&mut line, b"accepted, paid ");
    add_decimal(&mut line, totals.carried.pay, b' ');
    append(&mut line, b"of ");
    add_decimal(&mut line, totals.accepted.pay, b',');
    line
}

/// For how many seconds, the second half.
fn lasted_line(lasted: Lasted) -> Line
    ensures items { result.items ≡ lasted_line lasted }
    ensures few { length result.items ≤ 128 }
{
    let mut line = Line::new();
    append(&mut line, b" ");
    add_decimal(&mut line, lasted.carried, b' ');
    append(&mut line, b"of ");
    add_decimal(&mut line, lasted.booked, b' ');
    append(&mut line, b"seconds, ");
    add_decimal(&mut line, lasted.short, b' ');
    append(&mut line, b"short\n");
    line
}

/// Adds a half, for which there is room.
fn put(line: &mut ArrayVec<u8, 256>, half: &[u8])
    requires { array_vec_len line.old + length half.now ≤ 256 }
    ensures items { line.new.items ≡ line.old.items ++ half.now }
    ensures len { array_vec_len line.new ≡ array_vec_len line.old + length half.now }
{
    match line.try_extend_from_slice(half) {
        Ok(()) => {}
        Err(_) => unreachable!(),
    }
}

/// Both halves.
fn line_of(totals: Totals, lasted: Lasted) -> ArrayVec<u8, 256>
    ensures { result.items ≡ totals_line totals lasted }
{
    let mut line = ArrayVec::new();
    put(&mut line, &earned_line(totals));
    put(&mut line, &lasted_line(lasted));
    line
}

/// Writes one line of totals: `carried C of A accepted, paid P of T, S of B seconds, K short`, where C of the A bookings that the plan
/// accepts were carried for a second or more, these pay P, and all A pay T; the calls lasted for S seconds, of B that were booked, and K of
/// those that were carried for fewer than were booked. At `WriteFailed` the writer is faulted, and a prefix of the line was written.
pub fn write_totals<W: Write>(
    exchange: &Exchange,
    output: &mut Watched<W>,
) -> Result<(), WriteFailed>
    ensures done { OnOk result (Appends (W.contents (device_of output.old)) (W.contents (device_of output.new)) (totals_text exchange.now.entries)) }
    ensures prefix { OnErr result (AppendsPrefix (W.contents (device_of output.old)) (W.contents (device_of output.new)) (totals_text exchange.now.entries)) }
    ensures failed { OnErr result (IsTrue (is_faulted output.new)) }
{
    // Read for the prover alone, which learns a limit from it.
    let _moment = exchange.moment();
    let entries = exchange.entries();
    write_octets(output, &line_of(totals_of(entries), lasted_of(entries)))
}
