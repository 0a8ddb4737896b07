use crate::passes::Passes;
use crate::tables::TableRegisters;
use std::alloc::Global;
use std::marker::Model;
use vms_base::{CpuId, Memory};
use vms_judge::Role;

/// What stands after a history, in memory that goes by the number of CPUs and never by that of events or passes.
#[derive(Debug, Drop)]
pub struct Registers<T> {
    passes: Passes,
    own: T,
}

impl<T> Model for Registers<T> {
    ghost use Rattle.vms_registers.specs.Shows.{Parts};

    ghost Value = { Parts T };

    ghost view = { λ r. record { passes = r.passes; own = r.own } };
}

impl<T: TableRegisters> Registers<T> {
    ghost use Rattle.std.specs.Prelude.{◌≡◌, ◌≢◌, ◌↔◌, ℕ, suc, true, false, List, [], ◌∷◌, IsTrue, IfOk, MatchBool};
    ghost use Rattle.std.specs.Prelude.{MatchOption, ◌+◌, ◌^◌, ◌<◌, length};
    ghost use Rattle.vms_history.specs.declared.events.Event.{Event};
    ghost use Rattle.vms_history.specs.Common.{IsFree, IsLegal, Works, Begins, Ends, begun_in, lives_in, own};
    ghost use Rattle.vms_history.specs.Common.{state_after};
    ghost use Rattle.vms_registers.specs.Shows.{Shows, held_by};

    /// The registers of a history without events, if one may begin with these facts.
    pub fn open(alloc: Global, facts: &T::Facts) -> Result<Option<Registers<T>>, Memory>
        ensures { IfOk result (λ opened. MatchOption opened (¬ T.machine.CanBegin facts.now)
            (λ r. Shows T.machine T.cpus_of T.Keeps facts.now [] r)) }
    {
        let Some(own) = T::open(alloc, facts)? else {
            return Ok(None);
        };
        let passes = Passes::open(alloc, T::cpus(facts))?;
        Ok(Some(Registers { passes, own }))
    }

    /// Whether a caller may make a step after the history that the registers show.
    pub fn judges(&self, facts: &T::Facts, caller: u64, step: &T::Step) -> bool
        requires { (h : List (Event T.Step)) × Shows T.machine T.cpus_of T.Keeps facts.now h self.now }
        ensures { (h : List (Event T.Step)) → Shows T.machine T.cpus_of T.Keeps facts.now h self.now →
            IsTrue result ↔ IsLegal T.machine facts.now (record { caller = caller; step = step.now } ∷ h) }
    {
        match T::role(step) {
            Role::Works => self.may_work(facts, caller, step),
            Role::Begins(pass, who) => self.may_begin(facts, caller, pass, who),
            Role::Ends(pass) => self.may_end(facts, caller, pass),
        }
    }

    /// Goes on with a step that the caller may make.
    pub fn take(&mut self, facts: &T::Facts, caller: u32, step: &T::Step)
        requires { (h : List (Event T.Step)) × Shows T.machine T.cpus_of T.Keeps facts.now h self.old
            × IsLegal T.machine facts.now (record { caller = caller; step = step.now } ∷ h)
            × (length h + 1 < 2 ^ 64) }
        ensures { (h : List (Event T.Step)) → Shows T.machine T.cpus_of T.Keeps facts.now h self.old →
            IsLegal T.machine facts.now (record { caller = caller; step = step.now } ∷ h) →
            length h + 1 < 2 ^ 64 →
            Shows T.machine T.cpus_of T.Keeps facts.now (record { caller = caller; step = step.now } ∷ h) self.new }
    {
        match T::role(step) {
            Role::Works => self.work(facts, caller, step),
            Role::Begins(pass, who) => self.begin(facts, pass, who),
            Role::Ends(pass) => self.end(pass),
        }
    }

    /// What the table itself keeps.
    #[inline]
    pub fn own(&self) -> &T
        ensures { result.now ≡ self.now.own }
    {
        &self.own
    }

    /// The slot that holds a pass, and the pass itself. Pass 0 is in none.
    #[inline]
    pub fn slot(&self, pass: u64) -> Option<(u32, u32)>
        ensures { MatchOption result ((s : ℕ) → held_by self.now.passes.holders s ≡ pass → pass ≡ 0)
            (λ slot. (pass ≢ 0) × (held_by self.now.passes.holders slot.0 ≡ pass)
            × (slot.0 < length self.now.passes.holders) × (slot.1 ≡ pass)) }
    {
        let slot = self.passes.slot(pass)?;
        Some((slot, self.passes.holder(slot)))
    }

    /// Whether every pass has ended.
    pub fn all_ended(&self, facts: &T::Facts) -> bool
        ensures { (h : List (Event T.Step)) → Shows T.machine T.cpus_of T.Keeps facts.now h self.now →
            MatchBool result ((q : ℕ) → lives_in T.machine.role h q ≡ false)
            ((q : ℕ) × (lives_in T.machine.role h q ≡ true)) }
    {
        self.passes.is_empty()
    }

    fn may_work(&self, facts: &T::Facts, caller: u64, step: &T::Step) -> bool
        requires { (h : List (Event T.Step)) × Shows T.machine T.cpus_of T.Keeps facts.now h self.now }
        ensures { (h : List (Event T.Step)) → Shows T.machine T.cpus_of T.Keeps facts.now h self.now →
            IsTrue result ↔ ((caller ≢ 0) × (lives_in T.machine.role h caller ≡ true)
            × T.machine.Meets facts.now h (state_after T.machine facts.now h) caller step.now) }
    {
        match self.passes.slot(caller) {
            None => false,
            Some(slot) => self.own.meets(facts, slot, caller, step),
        }
    }

    fn may_begin(&self, facts: &T::Facts, caller: u64, pass: u32, who: Option<CpuId>) -> bool
        requires { (h : List (Event T.Step)) × Shows T.machine T.cpus_of T.Keeps facts.now h self.now }
        ensures { (h : List (Event T.Step)) → Shows T.machine T.cpus_of T.Keeps facts.now h self.now →
            IsTrue result ↔ ((caller ≡ 0) × (pass ≡ suc (begun_in T.machine.role h)) × T.machine.MayOwn facts.now who
            × IsFree T.machine.role h who) }
    {
        if caller != 0 {
            return false;
        }
        if !follows(self.passes.begun(), pass) {
            return false;
        }
        if !T::may_own(facts, who) {
            return false;
        }
        self.passes.holder(slot_at(T::cpus(facts), who)) == 0
    }

    fn may_end(&self, facts: &T::Facts, caller: u64, pass: u32) -> bool
        requires { (h : List (Event T.Step)) × Shows T.machine T.cpus_of T.Keeps facts.now h self.now }
        ensures { (h : List (Event T.Step)) → Shows T.machine T.cpus_of T.Keeps facts.now h self.now →
            IsTrue result ↔ ((caller ≡ 0) × (lives_in T.machine.role h pass ≡ true)
            × T.machine.MayEnd facts.now (own h pass)) }
    {
        if caller != 0 {
            return false;
        }
        match self.passes.slot(pass as u64) {
            None => false,
            Some(slot) => self.own.may_end(facts, slot, pass as u64),
        }
    }

    fn work(&mut self, facts: &T::Facts, caller: u32, step: &T::Step)
        requires { (h : List (Event T.Step)) × Shows T.machine T.cpus_of T.Keeps facts.now h self.old
            × IsLegal T.machine facts.now (record { caller = caller; step = step.now } ∷ h)
            × (length h + 1 < 2 ^ 64) × (T.machine.role step.now ≡ Works) }
        ensures { (h : List (Event T.Step)) → Shows T.machine T.cpus_of T.Keeps facts.now h self.old →
            IsLegal T.machine facts.now (record { caller = caller; step = step.now } ∷ h) →
            length h + 1 < 2 ^ 64 → T.machine.role step.now ≡ Works →
            Shows T.machine T.cpus_of T.Keeps facts.now (record { caller = caller; step = step.now } ∷ h) self.new }
    {
        let Some(slot) = self.passes.slot(caller as u64) else {
            return;
        };
        self.passes.look_at(slot);
        self.own.take(facts, slot, caller as u64, step);
    }

    fn begin(&mut self, facts: &T::Facts, pass: u32, who: Option<CpuId>)
        requires { (h : List (Event T.Step)) × (step : T.Step)
            × Shows T.machine T.cpus_of T.Keeps facts.now h self.old
            × IsLegal T.machine facts.now (record { caller = 0; step = step } ∷ h)
            × (T.machine.role step ≡ Begins pass who) }
        ensures { (h : List (Event T.Step)) (step : T.Step) →
            Shows T.machine T.cpus_of T.Keeps facts.now h self.old →
            IsLegal T.machine facts.now (record { caller = 0; step = step } ∷ h) →
            T.machine.role step ≡ Begins pass who →
            Shows T.machine T.cpus_of T.Keeps facts.now (record { caller = 0; step = step } ∷ h) self.new }
    {
        self.passes.begin(slot_at(T::cpus(facts), who), pass);
    }

    fn end(&mut self, pass: u32)
        ensures { (facts : T.Facts) (h : List (Event T.Step)) (step : T.Step) →
            Shows T.machine T.cpus_of T.Keeps facts h self.old →
            IsLegal T.machine facts (record { caller = 0; step = step } ∷ h) →
            T.machine.role step ≡ Ends pass →
            Shows T.machine T.cpus_of T.Keeps facts (record { caller = 0; step = step } ∷ h) self.new }
    {
        let Some(slot) = self.passes.slot(pass as u64) else {
            return;
        };
        self.passes.end(slot);
    }
}

ghost use Rattle.std.specs.Prelude.{◌≡◌, ◌↔◌, suc, IsTrue};
ghost use Rattle.vms_registers.specs.Slots.{slot_of};

/// Whether a pass has the number that follows those of the passes that have begun.
#[inline]
fn follows(begun: u32, pass: u32) -> bool
    ensures { IsTrue result ↔ (pass ≡ suc begun) }
{
    pass != 0 && pass - 1 == begun
}

/// The slot of a pass that owns a CPU, or of the control pass.
#[inline]
fn slot_at(cpus: u32, who: Option<CpuId>) -> u32
    ensures { result ≡ slot_of cpus who }
{
    match who {
        Some(cpu) => cpu.number,
        None => cpus,
    }
}
