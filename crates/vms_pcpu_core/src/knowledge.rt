ghost use Rattle.std.specs.Prelude.{◌≡◌, ℕ, ◌<◌, true, ℤ, pos, ◌+ℤ◌, ◌-ℤ◌, ◌∷◌, ◌++◌, Some, unsigned_abs};
ghost use Rattle.vms_history.specs.Common.{CpuId, PcpuId, IsCpu, own, lives_in, owner_in, sum_below};
ghost use Rattle.vms_history.specs.declared.events.Event.{Event};
ghost use Rattle.vms_pcpu_core.specs.declared.steps.PcpuFacts.{PcpuFacts};
ghost use Rattle.vms_pcpu_core.specs.declared.steps.PcpuStep.{PcpuStep};
ghost use Rattle.vms_pcpu_core.specs.declared.steps.PcpuStep.TheVariants.{Won};
ghost use Rattle.vms_pcpu_core.specs.Calls.{sign_of, unknown};
ghost use Rattle.vms_pcpu_core.specs.Histories.{History, IsLegal};
ghost use Rattle.vms_pcpu_core.specs.Laws.{numbers_after, carried_by_all};
ghost use Rattle.vms_pcpu_core.specs.Own.{holds_lock};
ghost use Rattle.vms_pcpu_core.specs.States.{IsPcpu, count_at, local_at};
ghost use Rattle.vms_pcpu_core.specs.Steps.{role};
ghost use Rattle.vms_pcpu_core.specs.Totals.{spent, true_total};
ghost use Rattle.vms_pcpu_core.specs.Knowledge.{Watches, added_since};

/// While a pass that owns a CPU lives, nobody else changes that CPU's local parts or spends its volume.
pub fn own_part_stays()
    ensures local { (facts : PcpuFacts) (more h : History) (p : ℕ) (c : CpuId) (j : ℕ) →
        Watches facts more h p → lives_in role (more ++ h) p ≡ true → owner_in role h p ≡ Some c →
        IsPcpu facts j →
        local_at (numbers_after facts (more ++ h)) c.number j ≡ local_at (numbers_after facts h) c.number j }
    ensures spent { (facts : PcpuFacts) (more h : History) (p : ℕ) (c : CpuId) (j : ℕ) →
        Watches facts more h p → lives_in role (more ++ h) p ≡ true → owner_in role h p ≡ Some c →
        spent (more ++ h) c.number j ≡ spent h c.number j }
{}

/// While a pass holds a lock, the shared part stays, and a local part grows by what its owner adds alone.
pub fn holder_acts_alone()
    ensures holds { (facts : PcpuFacts) (more h : History) (p j : ℕ) → Watches facts more h p →
        holds_lock j (own h p) ≡ true → holds_lock j (own (more ++ h) p) ≡ true }
    ensures count { (facts : PcpuFacts) (more h : History) (p j : ℕ) → Watches facts more h p →
        IsPcpu facts j → holds_lock j (own h p) ≡ true →
        count_at (numbers_after facts (more ++ h)) j ≡ count_at (numbers_after facts h) j }
    ensures local { (facts : PcpuFacts) (more h : History) (p c j : ℕ) → Watches facts more h p →
        IsPcpu facts j → holds_lock j (own h p) ≡ true →
        local_at (numbers_after facts (more ++ h)) c j ≡
        local_at (numbers_after facts h) c j +ℤ added_since more h c j }
{}

/// The shared part and the local parts, each found at some moment after the lock was won, add up to the true total when
/// it was won and what each owner added to its local part from there to the moment at which it was found.
pub fn sum_is_true_total()
    ensures { (facts : PcpuFacts) (h found : History) (moments : ℕ → History) (p : ℕ) (j : PcpuId) →
        Watches facts found (record { caller = p; step = Won j } ∷ h) p →
        ((c : ℕ) → IsCpu facts.layout c →
        Watches facts (moments c) (record { caller = p; step = Won j } ∷ h) p) →
        let won : History = record { caller = p; step = Won j } ∷ h in
        count_at (numbers_after facts (found ++ won)) j.number +ℤ
        sum_below (λ c. local_at (numbers_after facts (moments c ++ won)) c j.number) facts.layout.cpus ≡
        true_total facts won j.number +ℤ
        sum_below (λ c. added_since (moments c) won c j.number) facts.layout.cpus }
{}

/// Where the shared part is further off from a number than the local parts may hide, it has the sign of the true total
/// less what is carried.
pub fn rough_sign_is_true()
    ensures { (facts : PcpuFacts) (h : History) (j : ℕ) (rhs : ℤ) → IsLegal facts h → IsPcpu facts j →
        unknown facts j < unsigned_abs (count_at (numbers_after facts h) j -ℤ rhs) →
        sign_of (count_at (numbers_after facts h) j -ℤ rhs) ≡
        sign_of ((true_total facts h j -ℤ carried_by_all h j) -ℤ rhs) }
{}
