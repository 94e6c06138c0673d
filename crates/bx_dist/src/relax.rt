//! One step of the search for least lengths: a relaxation.

ghost use Rattle.std.specs.Prelude.{◌≡◌, length, true, false};
ghost use Rattle.bx_line.specs.Network.{places_of};
ghost use Rattle.bx_dist.specs.Search.{IsStep, ShortensNothing, Shortens, AreMedium};

use crate::step::Step;
use crate::steps::ends_of;
use bx_line::Line;

/// Takes the step where it shortens the way to its end, and says whether it does. The step has to name places and rows of the
/// line, and there has to be a length for each place, none beyond 1,110,000,000,000,000,000, of either sign.
pub fn shorten(lengths: &mut [i64], line: &Line, step: Step) -> bool
    requires step { IsStep line.now step }
    requires one_each { length lengths.old ≡ places_of line.now }
    requires medium { AreMedium lengths.old }
    ensures shorter { result ≡ true → Shortens line.now step lengths.old lengths.new }
    ensures settled { result ≡ false → ShortensNothing line.now lengths.old step }
    ensures unchanged { result ≡ false → lengths.new ≡ lengths.old }
{
    let (from, to, cost) = ends_of(line, step);
    let shorter = lengths[from as usize] + cost;
    if shorter < lengths[to as usize] {
        lengths[to as usize] = shorter;
        true
    } else {
        false
    }
}
