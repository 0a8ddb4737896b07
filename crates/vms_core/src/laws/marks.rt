ghost use Rattle.std.specs.Prelude.{◌≡◌, ℕ, ◌≤◌, ◌∷◌};
ghost use Rattle.vms_history.specs.Common.{PlaceId, Extends};
ghost use Rattle.vms_core.specs.declared.steps.Facts.{Facts};
ghost use Rattle.vms_core.specs.declared.steps.Step.TheVariants.{LoadM};
ghost use Rattle.vms_core.specs.Cells.{mark_at, mark_sets_at};
ghost use Rattle.vms_core.specs.MarkNumbers.{MarkStands};
ghost use Rattle.vms_core.specs.Pages.{History, IsLegal, state_after};

/// The number of a mark's sets never falls, and while it stays the same the mark stands.
pub fn mark_numbers_grow()
    ensures grow { (facts : Facts) (later earlier : History) (g : ℕ) → IsLegal facts later →
        Extends later earlier →
        mark_sets_at (state_after facts earlier) g ≤ mark_sets_at (state_after facts later) g }
    ensures stand { (facts : Facts) (later earlier : History) (g : ℕ) → IsLegal facts later →
        Extends later earlier →
        mark_sets_at (state_after facts later) g ≡ mark_sets_at (state_after facts earlier) g →
        mark_at (state_after facts later) g ≡ mark_at (state_after facts earlier) g }
{}

/// Where two loads of a mark told the same number, they told the same mark, and it stood at each moment between them.
pub fn marks_stand_between_loads()
    ensures stand { (facts : Facts) (p q : ℕ) (g : PlaceId) (m n number : ℕ) (last middle first : History) →
        IsLegal facts (record { caller = q; step = LoadM g n number } ∷ last) → Extends last middle →
        Extends middle (record { caller = p; step = LoadM g m number } ∷ first) →
        MarkStands facts middle g.number m number }
    ensures same { (facts : Facts) (p q : ℕ) (g : PlaceId) (m n number : ℕ) (last first : History) →
        IsLegal facts (record { caller = q; step = LoadM g n number } ∷ last) →
        Extends last (record { caller = p; step = LoadM g m number } ∷ first) → n ≡ m }
{}
