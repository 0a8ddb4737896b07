ghost use Rattle.std.specs.Prelude.{◌≡◌, ◌<◌, ◌≤◌, ◌↔◌, ℕ, List, [], ◌∷◌, IsTrue, IfOk, MatchOption, Some};
ghost use Rattle.vms_history.specs.Common.{CpuId, own, state_after};
ghost use Rattle.vms_history.specs.declared.events.Event.{Event};
ghost use Rattle.vms_registers.specs.Slots.{BeginsIn, EndsIn, MayWork, StandsIn, owner_of};

use std::alloc::Global;
use vms_base::{CpuId, Memory};
use vms_history::Event;
use vms_judge::RoleTable;

/// What a table itself keeps of a history, so that the conditions of its steps are decided in constant time. A slot is
/// the number of a CPU, or the number of CPUs for the control pass.
pub trait TableRegisters: RoleTable + Drop {
    // how many CPUs there are
    ghost cpus_of: { Self.Facts → ℕ };

    // the registers are what a legal history made, after which each slot holds a pass of this number, or 0
    ghost Keeps: { Self.Facts → List (Event Self.Step) → (ℕ → ℕ) → Self → Type 0 };

    /// The registers of a history without events, if one may begin with these facts.
    fn open(alloc: Global, facts: &Self::Facts) -> Result<Option<Self>, Memory>
        ensures { IfOk result (λ opened. MatchOption opened (¬ Self.machine.CanBegin facts.now)
            (λ r. Self.machine.CanBegin facts.now × ((held : ℕ → ℕ) → ((s : ℕ) → held s ≡ 0) →
            Keeps facts.now [] held r))) };

    /// How many CPUs there are.
    fn cpus(facts: &Self::Facts) -> u32
        requires { Self.machine.CanBegin facts.now }
        ensures value { result ≡ cpus_of facts.now }
        ensures few { result ≤ 128 }
        ensures owned { (c : CpuId) → Self.machine.MayOwn facts.now (Some c) → c.number < result };

    /// Whether a pass may begin that owns this CPU, or for `None` a control pass.
    fn may_own(facts: &Self::Facts, who: Option<CpuId>) -> bool
        requires { Self.machine.CanBegin facts.now }
        ensures { IsTrue result ↔ Self.machine.MayOwn facts.now who };

    /// Whether the pass of this number, which stands in this slot, may end.
    fn may_end(&self, facts: &Self::Facts, slot: u32, pass: u64) -> bool
        requires { (h : List (Event Self.Step)) × (held : ℕ → ℕ)
            × StandsIn Self.machine facts.now (cpus_of facts.now) h held slot pass × Keeps facts.now h held self.now }
        ensures { (h : List (Event Self.Step)) (held : ℕ → ℕ) →
            StandsIn Self.machine facts.now (cpus_of facts.now) h held slot pass → Keeps facts.now h held self.now →
            IsTrue result ↔ Self.machine.MayEnd facts.now (own h pass) };

    /// Whether the condition of a step holds for the pass of this number, which stands in this slot.
    fn meets(&self, facts: &Self::Facts, slot: u32, pass: u64, step: &Self::Step) -> bool
        requires { (h : List (Event Self.Step)) × (held : ℕ → ℕ)
            × StandsIn Self.machine facts.now (cpus_of facts.now) h held slot pass × Keeps facts.now h held self.now }
        ensures { (h : List (Event Self.Step)) (held : ℕ → ℕ) →
            StandsIn Self.machine facts.now (cpus_of facts.now) h held slot pass → Keeps facts.now h held self.now →
            IsTrue result ↔ Self.machine.Meets facts.now h (state_after Self.machine facts.now h) pass step.now };

    /// Goes on with a step of the pass of this number, which stands in this slot.
    fn take(&mut self, facts: &Self::Facts, slot: u32, pass: u64, step: &Self::Step)
        requires { (h : List (Event Self.Step)) × (held : ℕ → ℕ)
            × MayWork Self.machine facts.now (cpus_of facts.now) h held slot pass step.now
            × Keeps facts.now h held self.old }
        ensures { (h : List (Event Self.Step)) (held : ℕ → ℕ) →
            MayWork Self.machine facts.now (cpus_of facts.now) h held slot pass step.now →
            Keeps facts.now h held self.old →
            Keeps facts.now (record { caller = pass; step = step.now } ∷ h) held self.new };

    // The registers stay as they are where a pass begins, and where it ends.
    ghost begins: { (facts : Self.Facts) (h : List (Event Self.Step)) (held next : ℕ → ℕ) (slot q : ℕ)
        (step : Self.Step) (r : Self) → BeginsIn Self.machine facts (cpus_of facts) h held slot q step next →
        Keeps facts h held r → Keeps facts (record { caller = 0; step = step } ∷ h) next r };

    ghost ends: { (facts : Self.Facts) (h : List (Event Self.Step)) (held next : ℕ → ℕ) (slot q : ℕ)
        (step : Self.Step) (r : Self) → EndsIn Self.machine facts (cpus_of facts) h held slot q step next →
        Keeps facts h held r → Keeps facts (record { caller = 0; step = step } ∷ h) next r };
}

/// The CPU that the pass in a slot owns, or `None` for the slot of the control pass.
#[inline]
pub fn owner_at(cpus: u32, slot: u32) -> Option<CpuId>
    ensures { result ≡ owner_of cpus slot }
{
    if slot == cpus {
        None
    } else {
        Some(CpuId { number: slot })
    }
}
