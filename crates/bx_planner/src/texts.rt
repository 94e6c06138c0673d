//! The lines of quotes.

ghost use Rattle.std.specs.Prelude.{◌≡◌, ◌≤◌, ◌++◌, length, IfOk, OnOk};
ghost use Rattle.bx_base.specs.PlanParts.{parts_of};
ghost use Rattle.bx_check.specs.Before.{AreSums};
ghost use Rattle.bx_check.specs.Check.{IsRising};
ghost use Rattle.bx_planner.specs.Texts.{number_line, names_line, quote_text, explained_text, refused_line, refused_text};

use crate::answer::Quote;
use bx_base::Plan;
use bx_check::{Sums, cost, sums_of};
use bx_text::append_decimal;
use std::alloc::{AllocError, Global};

/// What a quote says, in four lines.
pub(crate) fn quote_text(alloc: Global, quote: &Quote) -> Result<Vec<u8>, AllocError>
    ensures { IfOk result (λ text. text.items ≡ quote_text quote.now) }
{
    let mut text = Vec::new(alloc);
    add_quote(&mut text, quote)?;
    Ok(text)
}

/// The same after a line of the row and what it pays.
pub(crate) fn explained_text(
    alloc: Global,
    row: u16,
    pay: u64,
    quote: &Quote,
) -> Result<Vec<u8>, AllocError>
    ensures { IfOk result (λ text. text.items ≡ explained_text row pay quote.now) }
{
    let mut text = Vec::new(alloc);
    text.extend_from_slice(b"row ")?;
    append_decimal(&mut text, u64::from(row))?;
    add_number(&mut text, b" pays ", pay)?;
    add_quote(&mut text, quote)?;
    Ok(text)
}

/// A line for each row that the plan refuses, and one of how many they are.
pub(crate) fn refused_text(alloc: Global, plan: &Plan) -> Result<Vec<u8>, AllocError>
    requires { IsRising plan.now.prices.items }
    ensures { IfOk result (λ text. text.items ≡ refused_text (parts_of plan.now)) }
{
    let sums = sums_of(&plan.prices);
    let mut text = Vec::new(alloc);
    let mut refused = 0u16;
    for index in 0..plan.bookings.len() {
        if plan.assigned[index as usize].is_none() {
            add_refused(&mut text, plan, &sums, index + 1)?;
            refused += 1;
        }
    }
    text.extend_from_slice(b"refused ")?;
    append_decimal(&mut text, u64::from(refused))?;
    add_number(&mut text, b" of ", u64::from(plan.bookings.len()))?;
    Ok(text)
}

/// Adds the line of a row that is refused.
fn add_refused(text: &mut Vec<u8>, plan: &Plan, sums: &Sums, row: u16) -> Result<(), AllocError>
    requires named { (1 ≤ row) × (row ≤ length plan.now.bookings) }
    requires rising { IsRising plan.now.prices.items }
    requires sums { AreSums plan.now.prices.items sums.now.items }
    ensures { OnOk result (text.new.items ≡ text.old.items ++ refused_line (parts_of plan.now) row) }
{
    let booking = plan.bookings.nth(row - 1);
    append_decimal(text, u64::from(row))?;
    text.extend_from_slice(b" pays ")?;
    append_decimal(text, booking.pay())?;
    add_number(text, b" of ", cost(&booking, &plan.prices, sums))
}

/// Adds the lines of a quote.
fn add_quote(text: &mut Vec<u8>, quote: &Quote) -> Result<(), AllocError>
    ensures { OnOk result (text.new.items ≡ text.old.items ++ quote_text quote.now) }
{
    add_number(text, b"its seconds cost ", quote.cost)?;
    add_number(text, b"taken above ", quote.threshold)?;
    add_names(text, b"instead of", &quote.instead)?;
    add_names(text, b"besides", &quote.besides)
}

/// Adds words, a number, and the end of the line.
fn add_number(text: &mut Vec<u8>, words: &[u8], number: u64) -> Result<(), AllocError>
    ensures { OnOk result (text.new.items ≡ text.old.items ++ number_line words.now number) }
{
    text.extend_from_slice(words)?;
    append_decimal(text, number)?;
    text.extend_from_slice(b"\n")
}

/// Adds words, the names of rows, each after a space, or none, and the end of the line.
fn add_names(text: &mut Vec<u8>, words: &[u8], rows: &[u16]) -> Result<(), AllocError>
    ensures { OnOk result (text.new.items ≡ text.old.items ++ names_line words.now rows.now) }
{
    text.extend_from_slice(words)?;
    if rows.is_empty() {
        return text.extend_from_slice(b" none\n");
    }
    for row in rows {
        text.extend_from_slice(b" ")?;
        append_decimal(text, u64::from(*row))?;
    }
    text.extend_from_slice(b"\n")
}
