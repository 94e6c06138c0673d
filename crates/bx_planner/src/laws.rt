//! Laws of plans.

ghost use Rattle.bx_planner.specs.Capacity.{AreGainsNeverRising, IsPriceOfChannel};
ghost use Rattle.bx_planner.specs.Extending.{AreBestPlansFirstFit, AreFirstFitPlansExtended};
ghost use Rattle.bx_planner.specs.LeastProofs.{ArePricesUnique};
ghost use Rattle.bx_planner.specs.Tight.{AreProofsTight};
ghost use Rattle.bx_planner.specs.Proved.{ArePlansProved};

/// What `plan` promises of a plan is what the checker says yes to, with the plan's total.
pub fn plans_are_proved()
    ensures { ArePlansProved }
{}

/// Quoted prices are fixed: for all bookings and channels, two price lists of which each is the least proof of some set
/// are equal, as lists. So the prices of `plan` do not rest on which of several best sets it found.
pub fn same_prices()
    ensures { ArePricesUnique }
{}

/// What a proof says of single prices and bookings: complementary slackness of the bound (which is a linear programme's
/// dual: Carlisle and Lloyd, 1995). Where prices prove a lawful set, a price is above 0 only at moments at which as many
/// of the set run as there are channels, a free booking of the set costs at most its pay, and a free booking outside it
/// at least its pay.
pub fn proofs_are_tight()
    ensures { AreProofsTight }
{}

/// What one more channel would add is the whole sum of the least prices: for all bookings, whatever their channels and how
/// many there are, the most that a lawful set pays on one channel more, over all sets, is what a set pays whose least proof
/// these prices are, and their sum.
pub fn price_of_a_channel()
    ensures { IsPriceOfChannel }
{}

/// Gains never rise with the channels: for all bookings, what the second of two more channels adds to the most that a lawful set
/// pays is no more than what the first of them adds.
pub fn gains_never_rise()
    ensures { AreGainsNeverRising }
{}

/// Whoever chooses among new bookings, best or first come, first served: a first-fit plan that keeps all promises of a best
/// first-fit plan, and whose new bookings start at moment m or later, extends it from m (`extends`). What `plan` and `amend` make
/// is best and first fit (`again`), so a day may be sold on any number of times.
pub fn plans_are_extended()
    ensures extends { AreFirstFitPlansExtended }
    ensures again { AreBestPlansFirstFit }
{}
