ghost use Rattle.std.specs.Prelude.{◌≡◌, ℕ, ◌+◌, ◌%◌, ◌^◌, ◌<◌, List, []};
ghost use Rattle.vms_calls.specs.Common.{Facts, Step, pages};
ghost use Rattle.vms_seats.specs.Common.{Pass, IsFrom, IsLive, MayStep, MadeOne};
ghost use Rattle.vms_words.specs.PagePasses.{IsOwningPass, KeepsNumbers};
ghost use Rattle.vms_words.specs.Shown.{shown};
ghost use Rattle.vms_words.specs.Told.{told};

use crate::SharedPages;
use crate::kept::Settings;
use std::marker::Model;
use vms_base::{CounterId, CpuId, Volume};
use vms_core::Step;
use vms_seats::{Main, Words, Worker, Works};

/// A pass that owns a CPU. Contracts see in it the pass, and what its CPU has changed each counter by since the run
/// began, in absolute sum.
#[derive(Drop)]
pub struct CpuPass {
    pub(crate) worker: Worker<SharedPages>,
    pub(crate) cpu: CpuId,
    /// Where the words of the CPU's groups begin.
    pub(crate) first_group: usize,
    pub(crate) volume: Volume,
}

impl Model for CpuPass {
    ghost use Rattle.std.specs.Prelude.{◌≡◌};
    ghost use Rattle.vms_words.specs.PagePasses.{OwningPass, IsOwningPass};
    ghost use Rattle.vms_words.specs.Spots.{groups_start};

    ghost Value = { OwningPass };

    ghost view = { λ p. record { pass = p.worker; volume = p.volume } };

    ghost invariant = { λ p. IsOwningPass p.worker p.cpu p.volume
        × (p.first_group ≡ groups_start p.worker.facts.layout p.cpu.number) };
}

/// The control pass. It keeps in memory what it knows of the settings by its own steps.
#[derive(Drop)]
pub struct ControlPass {
    pub(crate) worker: Worker<SharedPages>,
    pub(crate) kept: Settings,
}

impl Model for ControlPass {
    ghost use Rattle.vms_calls.specs.Common.{Facts, Step};
    ghost use Rattle.vms_seats.specs.Common.{Pass};

    ghost Value = { Pass Facts Step };

    ghost use Rattle.vms_words.specs.KeptSettings.{IsControlPass};

    ghost view = { λ p. p.worker };

    ghost invariant = { λ p. IsControlPass p.worker p.kept };
}

/// The main pass of the page counters, which begins and ends the others.
#[derive(Drop)]
pub struct MainPass {
    pub(crate) main: Main<SharedPages>,
    // What the next control pass begins with. It is none while a control pass lives.
    pub(crate) kept: Option<Settings>,
}

impl Model for MainPass {
    ghost use Rattle.vms_calls.specs.Common.{Facts, Step};
    ghost use Rattle.vms_seats.specs.Common.{Pass};

    ghost Value = { Pass Facts Step };

    ghost use Rattle.vms_words.specs.KeptSettings.{IsMainPass};

    ghost view = { λ p. p.main };

    ghost invariant = { λ p. IsMainPass p.main p.kept };
}

/// A pass that works on the page counters: one that owns a CPU, or the control pass. Each of its steps on a word
/// changes no volume and no setting. A call names the step that it plans; the step that it makes is this one with the
/// number that was found.
pub trait Caller {
    // The pass that it is.
    ghost pass: { Self → Pass Facts Step };

    // What the pass's CPU has changed each counter by since the run began; none for a control pass.
    ghost volume: { Self → List ℕ };

    /// The CPU that the pass owns; a control pass owns none.
    fn own(&self) -> Option<CpuId>
        ensures cpu { result ≡ (pass self.now).cpu }
        ensures live { IsLive pages (pass self.now) };

    /// What holds of a pass at any time: it lives in the legal history that it has seen.
    fn is_live(&self)
        ensures { IsLive pages (pass self.now) };

    /// Loads a word.
    fn load_at(&mut self, words: &Words<SharedPages>, place: usize, plan: &Step) -> u64
        requires words { IsFrom (pass self.old) words.now }
        requires place { place < words.now.table.words }
        requires step { MayStep pages shown (pass self.old) place (λ n. n) (told plan.now) }
        requires leaves { (n : ℕ) → KeepsNumbers (told plan.now n) }
        ensures made { MadeOne pages (pass self.new) (pass self.old) (told plan.now result) }
        ensures volume { volume self.new ≡ volume self.old };

    /// Puts a number into a word, and tells the one that stood there.
    fn swap_at(&mut self, words: &Words<SharedPages>, place: usize, new: u64, plan: &Step) -> u64
        requires words { IsFrom (pass self.old) words.now }
        requires place { place < words.now.table.words }
        requires step { MayStep pages shown (pass self.old) place (λ n. new) (told plan.now) }
        requires leaves { (n : ℕ) → KeepsNumbers (told plan.now n) }
        ensures made { MadeOne pages (pass self.new) (pass self.old) (told plan.now result) }
        ensures volume { volume self.new ≡ volume self.old };

    /// Adds to a word, modulo 2^64, and tells the number that stood there.
    fn add_at(&mut self, words: &Words<SharedPages>, place: usize, amount: u64, plan: &Step) -> u64
        requires words { IsFrom (pass self.old) words.now }
        requires place { place < words.now.table.words }
        requires step { MayStep pages shown (pass self.old) place (λ n. (n + amount) % 2 ^ 64) (told plan.now) }
        requires leaves { (n : ℕ) → KeepsNumbers (told plan.now n) }
        ensures made { MadeOne pages (pass self.new) (pass self.old) (told plan.now result) }
        ensures volume { volume self.new ≡ volume self.old };
}

impl CpuPass {
    ghost use Rattle.std.specs.Prelude.{slice_index_or, Some};
    ghost use Rattle.vms_calls.specs.Common.{IsCounter};

    /// The CPU that the pass owns.
    #[inline]
    pub fn cpu(&self) -> CpuId
        ensures owns { self.now.pass.cpu ≡ Some result }
        ensures live { IsLive pages self.now.pass }
    {
        self.cpu
    }

    /// What holds of a pass at any time: it lives, and its volumes hold what its CPU has spent.
    #[inline]
    pub fn holds_spending(&self) -> CpuId
        ensures { IsOwningPass self.now.pass result self.now.volume }
    {
        owning_passes_hold(&self.worker, self.cpu, &self.volume);
        self.cpu
    }

    /// What the CPU has changed a counter by since the run began, in absolute sum.
    #[inline]
    pub fn volume(&self, counter: CounterId) -> u64
        requires { IsCounter self.now.pass.facts.layout counter.number }
        ensures { result ≡ slice_index_or self.now.volume counter.number 0 }
    {
        self.volume.get(counter.number as usize)
    }
}

/// What a pass keeps beside its events holds what its CPU has spent.
#[inline]
fn owning_passes_hold(worker: &Worker<SharedPages>, cpu: CpuId, volume: &Volume)
    requires { IsOwningPass worker.now cpu volume.now }
    ensures { IsOwningPass worker.now cpu volume.now }
{}

impl MainPass {
    ghost use Rattle.vms_seats.specs.Common.{IsMain};

    /// What holds of the main pass at any time.
    pub fn is_main(&self)
        ensures { IsMain pages self.now }
    {
        self.main.is_main();
    }
}

impl Caller for CpuPass {
    ghost pass = { λ p. p.pass };

    ghost volume = { λ p. p.volume };

    #[inline]
    fn own(&self) -> Option<CpuId> {
        Some(self.cpu())
    }

    #[inline]
    fn is_live(&self) {
        self.worker.is_live();
    }

    #[inline]
    fn load_at(&mut self, words: &Words<SharedPages>, place: usize, plan: &Step) -> u64 {
        self.worker.load_at(words, place, plan)
    }

    #[inline]
    fn swap_at(&mut self, words: &Words<SharedPages>, place: usize, new: u64, plan: &Step) -> u64 {
        self.worker.swap_at(words, place, new, plan)
    }

    #[inline]
    fn add_at(
        &mut self,
        words: &Words<SharedPages>,
        place: usize,
        amount: u64,
        plan: &Step,
    ) -> u64 {
        self.worker.add_at(words, place, amount, plan)
    }
}

impl Caller for ControlPass {
    ghost pass = { λ p. p };

    ghost volume = { λ p. [] };

    #[inline]
    fn own(&self) -> Option<CpuId> {
        self.worker.cpu()
    }

    #[inline]
    fn is_live(&self) {
        self.worker.is_live();
    }

    #[inline]
    fn load_at(&mut self, words: &Words<SharedPages>, place: usize, plan: &Step) -> u64 {
        self.worker.load_at(words, place, plan)
    }

    #[inline]
    fn swap_at(&mut self, words: &Words<SharedPages>, place: usize, new: u64, plan: &Step) -> u64 {
        self.worker.swap_at(words, place, new, plan)
    }

    #[inline]
    fn add_at(
        &mut self,
        words: &Words<SharedPages>,
        place: usize,
        amount: u64,
        plan: &Step,
    ) -> u64 {
        self.worker.add_at(words, place, amount, plan)
    }
}
