//! Laws of distances.

ghost use Rattle.bx_dist.specs.Fitting.{AreWalksLong, AreDistancesFitting, AreDistancesFittingAfterUnit};

/// Where potentials fit, each walk is at least as long as they differ at its ends.
pub fn walks_are_long()
    ensures { AreWalksLong }
{}

/// Distances fit the residual network.
pub fn distances_fit()
    ensures { AreDistancesFitting }
{}

/// They fit it still after a unit took the least walk.
pub fn distances_fit_after_a_unit()
    ensures { AreDistancesFittingAfterUnit }
{}
