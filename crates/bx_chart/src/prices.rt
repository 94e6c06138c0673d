//! The prices of the day.

use crate::barless::Barless;
use crate::levels::{add_scale, open_band};
use crate::sheet::Sheet;
use bx_base::{Plan, Price};
use std::alloc::AllocError;

/// What all prices are together.
fn sum_of(prices: &[Price]) -> u64 {
    let mut sum = 0u64;
    for price in prices {
        sum = sum.saturating_add(price.amount);
    }
    sum
}

/// Adds the words over the band of the prices, the band's edge and its head.
fn open_prices(piece: &mut Barless, sheet: &Sheet, all: u64) -> Result<(), AllocError> {
    let top = sheet.prices_top();
    piece.add_number(b"<text x='56' y='", top - 6)?;
    piece.add_number(b"'>Prices, summed from midnight on, ", all)?;
    piece.add(b" in all: the seconds of a call cost what the steps rise under it</text>\n")?;
    add_scale(piece, top, all)?;
    open_band(piece, sheet, top, if all == 0 { 1 } else { all })
}

/// Adds the steps.
fn add_steps(piece: &mut Barless, prices: &[Price], all: u64) -> Result<(), AllocError> {
    piece.add_number(b"<path class='prices' d='M0 ", all)?;
    let mut sum = 0u64;
    for price in prices {
        sum = sum.saturating_add(price.amount);
        piece.add_number(b"H", u64::from(price.moment))?;
        piece.add_number(b"V", all.saturating_sub(sum))?;
    }
    Ok(())
}

/// Adds the prices as steps, each as high as what stands before and at its moment: what a call's seconds cost is how far the
/// steps rise from its start to its end.
pub(crate) fn add_prices(
    piece: &mut Barless,
    plan: &Plan,
    sheet: &Sheet,
) -> Result<(), AllocError> {
    let all = sum_of(&plan.prices);
    open_prices(piece, sheet, all)?;
    add_steps(piece, &plan.prices, all)?;
    piece.add_number(b"H", u64::from(sheet.seconds))?;
    piece.add_number(b"V", all)?;
    piece.add(b"Z'/>\n</svg>\n")
}
