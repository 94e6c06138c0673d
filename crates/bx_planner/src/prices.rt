//! Prices from distances.

ghost use Rattle.std.specs.Prelude.{◌≡◌, ◌≤◌, ◌<◌, ◌+◌, ℕ, IfOk};
ghost use Rattle.bx_line.specs.Network.{gaps_of};
ghost use Rattle.bx_planner.specs.Prices.{fall_at, charges};
ghost use Rattle.bx_base.specs.declared.plan.TheConstants.{MAX_TOTAL};

use bx_base::Price;
use bx_dist::Potentials;
use bx_line::Line;
use std::alloc::{AllocError, Global};

/// A price at each place after which the distances fall: by how much they fall to the next place.
pub(crate) fn prices_of(
    alloc: Global,
    line: &Line,
    potentials: &Potentials,
) -> Result<Vec<Price>, AllocError>
    requires { (v : ℕ) → v < gaps_of line.now → fall_at potentials.now v ≤ MAX_TOTAL }
    ensures { IfOk result (λ v. v.items ≡ charges line.now.moments potentials.now (gaps_of line.now)) }
{
    let mut prices = Vec::new(alloc);
    let moments = line.moments();
    for gap in 0..line.places().saturating_sub(1) {
        if let Some(price) = Price::new(moments[gap as usize], fall(potentials, gap)) {
            prices.push(price)?;
        }
    }
    Ok(prices)
}

/// By how much the distances differ between this place and the next.
fn fall(potentials: &Potentials, place: u16) -> u64
    requires { place < 65535 }
    ensures { result ≡ fall_at potentials.now place }
{
    let here = potentials.at(place);
    let next = potentials.at(place + 1);
    here.abs_diff(next)
}
