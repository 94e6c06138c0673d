//! Laws about the definitions, for every value of them.

ghost use Rattle.bx_base.specs.Bound.{IsWeakDuality};

/// No set that these channels can carry, and that has every must row, pays more than the bound.
pub fn weak_duality()
    ensures { IsWeakDuality }
{}
