// Theorems about the time of a page.
ghost use Rattle.std.specs.Prelude.{◌≡◌, ℕ, ◌≤◌, ◌<◌, ◌^◌};
ghost use Rattle.reference_tsc.specs.Page.{units, scale_of};
ghost use Rattle.reference_tsc.specs.Laws.{NeverGoesBack, IsWithinAUnit};
ghost use Rattle.reference_tsc.specs.declared.page.TscPage.{TscPage};

/// While the TSC counts up and the time stays below 2^64, the time of a page does not go back.
pub fn the_time_of_a_page_never_goes_back()
    ensures { (page : TscPage) (a b : ℕ) → a ≤ b → NeverGoesBack page a b }
{}

/// Between two values of the TSC, the time of a page passes by as many units as the ticks last, or by
/// one less or more.
pub fn a_page_is_within_a_unit()
    ensures { (hz a b : ℕ) → units < hz → a ≤ b → b < 2 ^ 64 → IsWithinAUnit hz a b }
{}
