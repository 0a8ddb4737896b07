ghost use Rattle.std.specs.Prelude.{◌≡◌, ℕ, ℤ, ◌∷◌, Some, None};
ghost use Rattle.vms_history.specs.Common.{Diffs, CounterId, CpuId, GroupId, Mode, ItemId, PlaceId, Dead, IsCpu};
ghost use Rattle.vms_history.specs.Common.{group_of, own, owner_in, IsFree};
ghost use Rattle.vms_core.specs.declared.steps.Facts.{Facts};
ghost use Rattle.vms_core.specs.declared.steps.Step.TheVariants.{Put, Miss};
ghost use Rattle.vms_core.specs.Cells.{TellsGroup, cpu_at, eight_zeros};
ghost use Rattle.vms_core.specs.Knowledge.{GoesOnWithout, GoesOnWithoutMain, OwnerKnows, ControlKnows, StandsFree};
ghost use Rattle.vms_core.specs.Knowledge.{MayExchange, HasTakenAll};
ghost use Rattle.vms_core.specs.Conditions.{Owns, AddsToPlace, AddsToSystem, Acknowledges, IsControl, SetsThreshold};
ghost use Rattle.vms_core.specs.Conditions.{SetsMark, SetsAbsent};
ghost use Rattle.vms_core.specs.Pages.{History, IsLegal, state_after};
ghost use Rattle.vms_core.specs.Steps.{role};

/// What a live pass still knows after others acted. The owner of a CPU still owns it, and the CPU spent no more. For
/// the control pass thresholds, marks, the CPUs' states and the peaks are as they were.
pub fn passes_know_what_they_own()
    ensures owner { (facts : Facts) (later earlier : History) (p : ℕ) (c : CpuId) →
        GoesOnWithout facts later earlier p → owner_in role earlier p ≡ Some c → OwnerKnows later earlier p c }
    ensures control { (facts : Facts) (later earlier : History) (p : ℕ) →
        GoesOnWithout facts later earlier p → owner_in role earlier p ≡ None → ControlKnows facts later earlier }
{}

/// What the main pass knows while it makes no event. A CPU that no pass owns spent and acknowledged no more; where no
/// control pass lives, thresholds, marks, the CPUs' states and the peaks are as they were.
pub fn main_pass_knows_what_is_free()
    ensures cpu { (facts : Facts) (later earlier : History) → GoesOnWithoutMain facts later earlier →
        (c : CpuId) → IsFree role earlier (Some c) → StandsFree facts later earlier c.number }
    ensures control { (facts : Facts) (later earlier : History) → GoesOnWithoutMain facts later earlier →
        IsFree role earlier None → ControlKnows facts later earlier }
{}

/// An exchange by the live owner of what it found wins where the group still holds that list, and otherwise misses. One
/// of eight zeros always wins. What others do meanwhile takes nothing of this away.
pub fn exchanges_win_or_miss()
    ensures wins { (facts : Facts) (h : History) (p : ℕ) (cpu : CpuId) (k : CounterId) (w : Diffs) (t : ℕ)
        (delta : ℤ) → MayExchange facts h p cpu k w t delta → (how : Mode) →
        TellsGroup (state_after facts h) cpu.number (group_of k.number) w.values →
        IsLegal facts (record { caller = p; step = Put k w t delta how } ∷ h) }
    ensures misses { (facts : Facts) (h : History) (p : ℕ) (cpu : CpuId) (k : CounterId) (w : Diffs) (t : ℕ)
        (delta : ℤ) → MayExchange facts h p cpu k w t delta → (j : GroupId) → j.number ≡ group_of k.number →
        (TellsGroup (state_after facts h) cpu.number (group_of k.number) w.values → ⊥) →
        IsLegal facts (record { caller = p; step = Miss j w } ∷ h) }
    ensures zeros { (facts : Facts) (h : History) (p : ℕ) (cpu : CpuId) (k : CounterId) (w : Diffs) (t : ℕ)
        (delta : ℤ) → MayExchange facts h p cpu k w t delta → w.values ≡ eight_zeros →
        TellsGroup (state_after facts h) cpu.number (group_of k.number) w.values }
    ensures stays { (facts : Facts) (later earlier : History) (p : ℕ) (cpu : CpuId) (k : CounterId) (w : Diffs)
        (t : ℕ) (delta : ℤ) → GoesOnWithout facts later earlier p →
        MayExchange facts earlier p cpu k w t delta → MayExchange facts later p cpu k w t delta }
{}

/// A pass may still do what its own events allow, whatever others did meanwhile: it owns its CPU, may add what it
/// carries, and may acknowledge.
pub fn own_steps_stay_allowed()
    ensures owns { (facts : Facts) (later earlier : History) (p : ℕ) → GoesOnWithout facts later earlier p →
        (c : CpuId) → Owns facts earlier p c → Owns facts later p c }
    ensures place { (facts : Facts) (later earlier : History) (p : ℕ) → GoesOnWithout facts later earlier p →
        (k : CounterId) (amount : ℤ) → AddsToPlace facts earlier p k amount → AddsToPlace facts later p k amount }
    ensures system { (facts : Facts) (later earlier : History) (p : ℕ) → GoesOnWithout facts later earlier p →
        (i : ItemId) (amount : ℤ) → AddsToSystem facts earlier p i amount →
        AddsToSystem facts later p i amount }
    ensures acknowledges { (facts : Facts) (later earlier : History) (p : ℕ) →
        GoesOnWithout facts later earlier p → (g : PlaceId) (a : ℕ) → Acknowledges facts earlier p g a →
        Acknowledges facts later p g a }
{}

/// The control pass may still set what it might set before others acted. A dead CPU may become absent once the control
/// pass took all its groups.
pub fn control_steps_stay_allowed()
    ensures threshold { (facts : Facts) (later earlier : History) (p : ℕ) (c : CpuId) (g : PlaceId) (t : ℕ) →
        GoesOnWithout facts later earlier p →
        SetsThreshold facts earlier (state_after facts earlier) p c g t →
        SetsThreshold facts later (state_after facts later) p c g t }
    ensures mark { (facts : Facts) (later earlier : History) (p : ℕ) (g : PlaceId) (m : ℕ) →
        GoesOnWithout facts later earlier p → SetsMark facts earlier p g m → SetsMark facts later p g m }
    ensures absent { (facts : Facts) (h : History) (p : ℕ) (c : CpuId) → IsLegal facts h → IsControl h p →
        IsCpu facts.layout c.number → cpu_at (state_after facts h) c.number ≡ Dead →
        HasTakenAll facts c.number (own h p) → SetsAbsent facts h (state_after facts h) p c }
{}
