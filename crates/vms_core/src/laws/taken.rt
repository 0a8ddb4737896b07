ghost use Rattle.std.specs.Prelude.{◌≡◌, ◌≢◌, ℕ, ◌<◌, true, pos, ◌∷◌, slice_index_or};
ghost use Rattle.vms_history.specs.Common.{Diffs, CpuId, GroupId, Online};
ghost use Rattle.vms_core.specs.declared.steps.Facts.{Facts};
ghost use Rattle.vms_core.specs.declared.steps.Step.TheVariants.{Take};
ghost use Rattle.vms_core.specs.Cells.{cpu_at};
ghost use Rattle.vms_core.specs.Pages.{History, IsLegal};
ghost use Rattle.vms_core.specs.Taken.{has_taken};

/// After the first take of a group of a CPU that isn't online, every take of it finds eight zeros, whoever makes it.
pub fn offline_groups_are_found_once()
    ensures { (facts : Facts) (h : History) (p : ℕ) (c : CpuId) (j : GroupId) (w : Diffs) →
        IsLegal facts (record { caller = p; step = Take c j w } ∷ h) → cpu_at facts.base c.number ≢ Online →
        has_taken c.number j.number h ≡ true →
        (n : ℕ) → n < 8 → slice_index_or w.values n (pos 0) ≡ pos 0 }
{}
