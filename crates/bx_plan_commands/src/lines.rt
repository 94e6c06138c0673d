//! The lines of what each count of channels would earn.

ghost use Rattle.std.specs.Prelude.{◌≡◌, ◌≤◌, ◌++◌, length, IfOk, OnOk};
ghost use Rattle.bx_plan_commands.specs.EarningLines.{earning_line, earning_lines};

use bx_planner::Earning;
use bx_text::append_decimal;
use std::alloc::{AllocError, Global};

/// A line for each count of channels, from 0 on.
pub(crate) fn earning_lines(alloc: Global, earnings: &[Earning]) -> Result<Vec<u8>, AllocError>
    requires { length earnings.now ≤ 31 }
    ensures { IfOk result (λ text. text.items ≡ earning_lines 0 earnings.now) }
{
    let mut text = Vec::new(alloc);
    let mut count = 0u64;
    for earning in earnings {
        add_line(&mut text, count, *earning)?;
        count += 1;
    }
    Ok(text)
}

/// Adds the line of so many channels.
fn add_line(text: &mut Vec<u8>, count: u64, earning: Earning) -> Result<(), AllocError>
    ensures { OnOk result (text.new.items ≡ text.old.items ++ earning_line count earning) }
{
    append_decimal(text, count)?;
    match earning {
        Earning::Most { total, next } => {
            text.extend_from_slice(b" total ")?;
            append_decimal(text, total)?;
            text.extend_from_slice(b" next ")?;
            append_decimal(text, next)?;
        }
        Earning::TooFew(moment) => {
            text.extend_from_slice(b" too few at ")?;
            append_decimal(text, u64::from(moment))?;
        }
    }
    text.extend_from_slice(b"\n")
}
