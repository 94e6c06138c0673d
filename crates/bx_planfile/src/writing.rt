//! Writing a plan.

ghost use Rattle.std.specs.Prelude.{◌≡◌, ◌<◌, ℕ, OnOk, OnErr, IsTrue, length, map};
ghost use Rattle.std.specs.List.{flat_map};
ghost use Rattle.std.specs.Io.KnownBytes.{Appends};
ghost use Rattle.bx_base.specs.Bookings.{AreBookings};
ghost use Rattle.bx_base.specs.Bound.{IsCharge, price_at};
ghost use Rattle.bx_base.specs.Channels.{IsChannelSet};
ghost use Rattle.bx_devices.specs.Octets.{AppendsPrefix};
ghost use Rattle.bx_base.specs.PlanParts.{IsPlan, parts_of};
ghost use Rattle.bx_devices.specs.Watching.{device_of, is_faulted, reads_of};
ghost use Rattle.bx_planfile.specs.declared.version.Version.TheVariants.{Three};
ghost use Rattle.bx_text.specs.Lines.{line_text};
ghost use Rattle.bx_planfile.specs.Text.{plan_text, price_fields};
ghost use Rattle.bx_planfile.specs.Writing.{AreAssigned, head_lines, foot_lines, rows_text};
ghost use Rattle.bx_text.specs.Gathering.{Gathers, held};

use crate::fault::PlanWriteFault;
use crate::written_lines::{booking_line, channels_line, price_line};
use bx_base::{Plan, Price};
use bx_devices::Watched;
use bx_text::{Block, named_line};
use std::io::Write;

/// Puts a line.
fn put<W: Write>(block: &mut Block, w: &mut Watched<W>, line: &[u8]) -> Result<(), PlanWriteFault>
    ensures { Gathers W.contents (held w.old block.old) (held w.new block.new) result line.now }
{
    match block.put(w, line) {
        Ok(()) => Ok(()),
        Err(_) => Err(PlanWriteFault::WriteFailed),
    }
}

/// Puts the lines before the bookings.
fn put_head<W: Write>(
    plan: &Plan,
    block: &mut Block,
    w: &mut Watched<W>,
) -> Result<(), PlanWriteFault>
    ensures text { Gathers W.contents (held w.old block.old) (held w.new block.new) result (flat_map line_text (head_lines plan.now)) }
    ensures channels { IsChannelSet plan.now.channels }
    ensures rows { AreBookings plan.now.bookings }
{
    let count = plan.bookings.len();
    let channels = channels_line(plan.channels);
    put(block, w, b"bx-plan 3\n")?;
    put(block, w, &channels)?;
    put(block, w, &named_line(b"bookings", u64::from(count)))
}

/// Puts the bookings, and the channel of each.
fn put_bookings<W: Write>(
    plan: &Plan,
    block: &mut Block,
    w: &mut Watched<W>,
) -> Result<(), PlanWriteFault>
    ensures text { Gathers W.contents (held w.old block.old) (held w.new block.new) result (rows_text plan.now.bookings plan.now.assigned.items) }
    ensures limits { OnOk result (AreAssigned plan.now.assigned.items) }
{
    for i in 0..plan.bookings.len() {
        let channel = plan.assigned[i as usize];
        put(block, w, &booking_line(plan.bookings.nth(i), channel))?;
    }
    Ok(())
}

/// Puts the prices.
fn put_prices<W: Write>(
    prices: &[Price],
    block: &mut Block,
    w: &mut Watched<W>,
) -> Result<(), PlanWriteFault>
    ensures text { Gathers W.contents (held w.old block.old) (held w.new block.new) result (flat_map line_text (map price_fields prices.now)) }
    ensures limits { OnOk result ((i : ℕ) → i < length prices.now → IsCharge (price_at prices.now i)) }
{
    for price in prices {
        put(block, w, &price_line(price))?;
    }
    Ok(())
}

/// Puts the lines after the prices.
fn put_foot<W: Write>(
    plan: &Plan,
    block: &mut Block,
    w: &mut Watched<W>,
) -> Result<(), PlanWriteFault>
    ensures { Gathers W.contents (held w.old block.old) (held w.new block.new) result (flat_map line_text (foot_lines plan.now)) }
{
    put(block, w, &named_line(b"total", plan.total))?;
    put(block, w, b"end\n")
}

/// Puts the text.
fn put_plan<W: Write>(
    plan: &Plan,
    block: &mut Block,
    w: &mut Watched<W>,
) -> Result<(), PlanWriteFault>
    ensures text { Gathers W.contents (held w.old block.old) (held w.new block.new) result (plan_text Three (parts_of plan.now)) }
    ensures limits { OnOk result (IsPlan (parts_of plan.now)) }
{
    put_head(plan, block, w)?;
    put_bookings(plan, block, w)?;
    put(block, w, &named_line(b"prices", plan.prices.len() as u64))?;
    put_prices(&plan.prices, block, w)?;
    put_foot(plan, block, w)
}

/// Writes the text of version 3 of a plan, and nothing else, in blocks of up to 8,192 octets. Takes no memory. `WriteFailed`
/// is answered where a write failed or took no octet; a prefix of the text was written then.
pub fn write_plan<W: Write>(plan: &Plan, w: &mut Watched<W>) -> Result<(), PlanWriteFault>
    ensures ok { OnOk result (Appends (W.contents (device_of w.old)) (W.contents (device_of w.new)) (plan_text Three (parts_of plan.now))) }
    ensures prefix { OnErr result (AppendsPrefix (W.contents (device_of w.old)) (W.contents (device_of w.new)) (plan_text Three (parts_of plan.now))) }
    ensures err { OnErr result (IsTrue (is_faulted w.new)) }
    ensures unfaulted { OnOk result (is_faulted w.new ≡ is_faulted w.old) }
    ensures reads { reads_of w.new ≡ reads_of w.old }
    // So what was written is read again as this plan.
    ensures limits { OnOk result (IsPlan (parts_of plan.now)) }
{
    let mut block = Block::new();
    put_plan(plan, &mut block, w)?;
    match block.write_out(w) {
        Ok(()) => Ok(()),
        Err(_) => Err(PlanWriteFault::WriteFailed),
    }
}
