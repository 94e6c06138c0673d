//! Laws of flows along a line.

ghost use Rattle.std.specs.Prelude.{◌↔◌};
ghost use Rattle.bx_line.specs.Network.{Network, IsNetwork};
ghost use Rattle.bx_line.specs.Flows.{Flow, IsFlow, CrossesEachGap};

/// Units are conserved at each place exactly where all of them cross each gap.
pub fn units_cross_each_gap()
    ensures { (line : Network) (flow : Flow) → IsNetwork line → IsFlow line flow ↔ CrossesEachGap line flow }
{}
