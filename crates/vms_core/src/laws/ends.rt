ghost use Rattle.std.specs.Prelude.{◌≡◌, ℕ, ◌≤◌, ◌-ℤ◌};
ghost use Rattle.vms_history.specs.Common.{IsCpu, IsPlace, IsItem, own};
ghost use Rattle.vms_core.specs.declared.steps.Facts.{Facts};
ghost use Rattle.vms_core.specs.Bases.{IsBase, settled, next_facts};
ghost use Rattle.vms_core.specs.Cells.{system_at};
ghost use Rattle.vms_core.specs.Ends.{grown, AreWithinVolumes, IsWithinVolumes};
ghost use Rattle.vms_core.specs.Own.{CarriesNothing};
ghost use Rattle.vms_core.specs.Pages.{History, IsLegal, IsComplete, state_after};
ghost use Rattle.vms_core.specs.Peaks.{opening_peak, peak};
ghost use Rattle.vms_core.specs.Totals.{values_of_item};

/// After a complete history nobody carries anything.
pub fn complete_histories_carry_nothing()
    ensures { (facts : Facts) (h : History) → IsComplete facts h → (p : ℕ) →
        CarriesNothing facts.layout (own h p) }
{}

/// Once it is settled, the state that a complete history leaves may open the next phase. If the totals of the base are
/// within the volumes, its totals are within the volumes after the history.
pub fn settled_ends_may_begin()
    ensures base { (facts : Facts) (h : History) → IsComplete facts h → (volume : ℕ → ℕ → ℕ) →
        IsWithinVolumes facts.layout volume facts.base →
        AreWithinVolumes facts.layout (grown volume h) →
        IsBase (next_facts facts (state_after facts h)) }
    ensures totals { (facts : Facts) (h : History) → IsComplete facts h → (volume : ℕ → ℕ → ℕ) →
        IsWithinVolumes facts.layout volume facts.base →
        AreWithinVolumes facts.layout (grown volume h) →
        IsWithinVolumes facts.layout (grown volume h) (settled (state_after facts h)) }
    ensures peaks { (facts : Facts) (h : History) → IsLegal facts h →
        (c g : ℕ) → IsCpu facts.layout c → IsPlace facts.layout g →
        opening_peak facts.layout (settled (state_after facts h)) c g ≤ peak facts c g h }
{}

/// A complete history keeps the difference between the system-wide value of an item and the sum of the global values of
/// its counters.
pub fn systems_keep_off()
    ensures { (facts : Facts) (h : History) → IsComplete facts h → (i : ℕ) → IsItem facts.layout i →
        system_at (state_after facts h) i -ℤ values_of_item facts.layout (state_after facts h) i
        ≡ system_at facts.base i -ℤ values_of_item facts.layout facts.base i }
{}
