//! Laws of flows and what they cost.

ghost use Rattle.std.specs.Prelude.{List, ℤ};
ghost use Rattle.bx_dist.specs.Residual.{Fits};
ghost use Rattle.bx_dist.specs.declared.part.Part.TheVariants.{Whole};
ghost use Rattle.bx_flow.specs.Costs.{IsLeastCost};
ghost use Rattle.bx_line.specs.Flows.{Flow, IsFlow};
ghost use Rattle.bx_line.specs.Network.{Network, IsNetwork};

/// A flow whose residual network has fitting potentials, feasible ones, is of least cost.
pub fn fitting_flows_are_least()
    ensures { (line : Network) (flow : Flow) (heights : List ℤ) → IsNetwork line → IsFlow line flow → Fits Whole line flow heights → IsLeastCost line flow }
{}
