ghost use Rattle.std.specs.Prelude.{◌≡◌, ℕ, ◌<◌, List, [], Some, None, refl};
ghost use Rattle.vms_history.specs.Common.{CpuId, EventId, IsFree};
ghost use Rattle.vms_event_core.specs.declared.steps.EventStep.TheVariants.{LoadE, Split, Join};
ghost use Rattle.vms_event_core.specs.Common.{events, MayOwn, role};
ghost use Rattle.vms_event.specs.ControlPasses.{IsIdleControl};
ghost use Rattle.vms_event.specs.CpuPasses.{HoldsSpending, SpendsNothing};
ghost use Rattle.vms_event.specs.SharedWords.{shown, told};
ghost use Rattle.vms_seats.specs.Common.{HasBegun, HasEnded, IsLive, IsFrom, MayStep, MadeOne};

use crate::tables::{EventMain, EventTable, SharedEvents};
use std::marker::Model;
use vms_base::{CpuId, Volume};
use vms_event_core::EventStep;
use vms_seats::{Words, Worker, Works};

/// A pass that owns a CPU. Contracts see in it the pass and what its CPU has counted of each event since the run began.
#[derive(Drop)]
pub struct EventPass {
    pub(crate) worker: Worker<SharedEvents>,
    pub(crate) cpu: CpuId,
    pub(crate) volume: Volume,
}

impl Model for EventPass {
    ghost use Rattle.vms_event.specs.CpuPasses.{CpuPass, IsCpuPass};

    ghost Value = { CpuPass };

    ghost view = { λ p. record { pass = p.worker; volume = p.volume } };

    ghost invariant = { λ p. IsCpuPass p.worker p.cpu p.volume };
}

/// The control pass. Between its calls it carries nothing.
#[derive(Drop)]
pub struct EventControl {
    pub(crate) worker: Worker<SharedEvents>,
}

impl Model for EventControl {
    ghost use Rattle.vms_event_core.specs.declared.steps.EventFacts.{EventFacts};
    ghost use Rattle.vms_event_core.specs.declared.steps.EventStep.{EventStep};
    ghost use Rattle.vms_event.specs.ControlPasses.{IsIdleControl};
    ghost use Rattle.vms_seats.specs.Common.{Pass};

    ghost Value = { Pass EventFacts EventStep };

    ghost view = { λ p. p.worker };

    ghost invariant = { λ p. IsIdleControl p.worker };
}

impl EventControl {
    /// What holds of a control pass at any time.
    pub fn is_control(&self)
        ensures { IsIdleControl self.now }
    {
        self.worker.is_live();
    }
}

impl EventTable {
    /// Begins a pass that owns a CPU, with the volumes that the CPU has by then.
    pub fn cpu_pass(&self, main: &mut EventMain, cpu: CpuId, volume: Volume) -> EventPass
        requires table { IsFrom main.old self.now }
        requires online { MayOwn main.old.facts (Some cpu) }
        requires free { IsFree role main.old.seen (Some cpu) }
        requires volume { HoldsSpending main.old.seen cpu.number volume }
        ensures begun { HasBegun events Split main.new main.old result.pass (Some cpu) }
        ensures volume { result.volume ≡ volume }
    {
        let worker = main.begin(&self.words, Some(cpu));
        EventPass {
            worker,
            cpu,
            volume,
        }
    }

    /// Begins the control pass.
    pub fn control_pass(&self, main: &mut EventMain) -> EventControl
        requires table { IsFrom main.old self.now }
        requires free { IsFree role main.old.seen None }
        ensures begun { HasBegun events Split main.new main.old result None }
    {
        let worker = main.begin(&self.words, None);
        EventControl { worker }
    }

    /// Ends a pass that owns a CPU, and gives the CPU's volumes back.
    pub fn join_cpu(&self, main: &mut EventMain, pass: EventPass) -> Volume
        requires table { IsFrom main.old self.now × IsFrom pass.pass self.now }
        ensures ended { HasEnded events Join main.new main.old pass.pass }
        ensures volume { result ≡ pass.volume }
    {
        let EventPass {
            worker,
            cpu: _,
            volume,
        } = pass;
        main.end(&self.words, worker);
        volume
    }

    /// Ends the control pass.
    pub fn join_control(&self, main: &mut EventMain, pass: EventControl)
        requires table { IsFrom main.old self.now × IsFrom pass self.now }
        ensures ended { HasEnded events Join main.new main.old pass }
    {
        let EventControl { worker } = pass;
        main.end(&self.words, worker);
    }
}

/// A pass that may look at the event counters.
pub trait EventCaller: Works<SharedEvents> {
    // What the pass's CPU has counted of each event since the run began; none for the control pass.
    ghost volume: { Self → List ℕ };

    /// The CPU that the pass owns; the control pass owns none.
    fn own(&self) -> Option<CpuId>
        ensures cpu { result ≡ (Self.pass self.now).cpu }
        ensures live { IsLive events (Self.pass self.now) };

    /// What holds of a pass at any time: it lives in the legal history that it has seen.
    fn is_live(&self)
        ensures { IsLive events (Self.pass self.now) };

    /// Loads a word, and leaves the volumes.
    fn load(&mut self, words: &Words<SharedEvents>, place: usize, plan: &EventStep) -> u64
        requires words { IsFrom (Self.pass self.old) words.now }
        requires place { place < words.now.table.words }
        requires step { MayStep events shown (Self.pass self.old) place (λ n. n) (told plan.now) }
        requires leaves { (n : ℕ) → Self.Works.Leaves (told plan.now n) }
        ensures made { MadeOne events (Self.pass self.new) (Self.pass self.old) (told plan.now result) }
        ensures volume { volume self.new ≡ volume self.old };

    // A load changes nothing that it keeps.
    ghost loads_leave: { (c : CpuId) (k : EventId) (v : ℕ) → Self.Works.Leaves (LoadE c k v) };
}

impl EventCaller for EventPass {
    ghost use Rattle.vms_event.specs.CpuPasses.{loads-spend_nothing};

    ghost volume = { λ p. p.volume };

    ghost loads_leave = { loads-spend_nothing };

    #[inline]
    fn own(&self) -> Option<CpuId> {
        Some(self.cpu)
    }

    #[inline]
    fn is_live(&self) {
        self.worker.is_live();
    }

    #[inline]
    fn load(&mut self, words: &Words<SharedEvents>, place: usize, plan: &EventStep) -> u64 {
        self.worker.load_at(words, place, plan)
    }
}

impl EventCaller for EventControl {
    ghost volume = { λ p. [] };

    ghost loads_leave = { λ c k v l. refl };

    #[inline]
    fn own(&self) -> Option<CpuId> {
        self.worker.cpu()
    }

    #[inline]
    fn is_live(&self) {
        self.worker.is_live();
    }

    #[inline]
    fn load(&mut self, words: &Words<SharedEvents>, place: usize, plan: &EventStep) -> u64 {
        self.worker.load_at(words, place, plan)
    }
}

/// Steps that spend nothing of a CPU's volume.
impl Works<SharedEvents> for EventPass {
    ghost pass = { λ p. p.pass };

    ghost Leaves = { SpendsNothing };

    #[inline]
    fn load_at(&mut self, words: &Words<SharedEvents>, place: usize, plan: &EventStep) -> u64 {
        self.worker.load_at(words, place, plan)
    }

    #[inline]
    fn swap_at(
        &mut self,
        words: &Words<SharedEvents>,
        place: usize,
        new: u64,
        plan: &EventStep,
    ) -> u64 {
        self.worker.swap_at(words, place, new, plan)
    }

    #[inline]
    fn add_at(
        &mut self,
        words: &Words<SharedEvents>,
        place: usize,
        amount: u64,
        plan: &EventStep,
    ) -> u64 {
        self.worker.add_at(words, place, amount, plan)
    }

    #[inline]
    fn exchange_at(
        &mut self,
        words: &Words<SharedEvents>,
        place: usize,
        old: u64,
        new: u64,
        plan: &EventStep,
    ) -> u64 {
        self.worker.exchange_at(words, place, old, new, plan)
    }
}

/// Steps that leave what the pass carries.
impl Works<SharedEvents> for EventControl {
    ghost use Rattle.vms_event.specs.ControlPasses.{MovesNothing};

    ghost pass = { λ p. p };

    ghost Leaves = { MovesNothing };

    #[inline]
    fn load_at(&mut self, words: &Words<SharedEvents>, place: usize, plan: &EventStep) -> u64 {
        self.worker.load_at(words, place, plan)
    }

    #[inline]
    fn swap_at(
        &mut self,
        words: &Words<SharedEvents>,
        place: usize,
        new: u64,
        plan: &EventStep,
    ) -> u64 {
        self.worker.swap_at(words, place, new, plan)
    }

    #[inline]
    fn add_at(
        &mut self,
        words: &Words<SharedEvents>,
        place: usize,
        amount: u64,
        plan: &EventStep,
    ) -> u64 {
        self.worker.add_at(words, place, amount, plan)
    }

    #[inline]
    fn exchange_at(
        &mut self,
        words: &Words<SharedEvents>,
        place: usize,
        old: u64,
        new: u64,
        plan: &EventStep,
    ) -> u64 {
        self.worker.exchange_at(words, place, old, new, plan)
    }
}
