ghost use Rattle.std.specs.Prelude.{◌≡◌, Ok};
ghost use Rattle.bx_base.specs.PlanParts.{Parts, IsPlan};
ghost use Rattle.bx_planfile.specs.declared.version.Version.{Version};
ghost use Rattle.bx_planfile.specs.Text.{plan_text, HasText};
ghost use Rattle.bx_planfile.specs.Reading.{read_all};

/// A plan's text, in each version that can tell the plan, is read as that plan.
pub fn round_trip()
    ensures { (version : Version) (parts : Parts) → IsPlan parts → HasText version parts → read_all (plan_text version parts) ≡ Ok parts }
{}

/// No text is that of two plans, or of one plan in two versions.
pub fn one_plan_per_text()
    ensures { (v w : Version) (a b : Parts) → IsPlan a → IsPlan b → HasText v a → HasText w b → plan_text v a ≡ plan_text w b → (v ≡ w) × (a ≡ b) }
{}
