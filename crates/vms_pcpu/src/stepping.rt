ghost use Rattle.std.specs.Prelude.{◌≡◌, ◌≤◌, ℤ, [], ◌∷◌, Some, if◌then◌else◌, unsigned_abs};
ghost use Rattle.vms_history.specs.Common.{IsCpu, owner_in};
ghost use Rattle.vms_pcpu_core.specs.declared.steps.PcpuStep.TheVariants.{AddL, LoadL, LoadC, Won, Missed, TakeL, AddC};
ghost use Rattle.vms_pcpu_core.specs.declared.steps.PcpuStep.TheVariants.{Unlock};
ghost use Rattle.vms_pcpu_core.specs.Common.{most_batch, percpu, most_number, MayMake, IsPcpu, role};
ghost use Rattle.vms_seats.specs.Common.{IsFrom, MadeOne};

use crate::ledgers::SharedPcpu;
use crate::tables::PcpuTable;
use vms_base::{CpuId, PcpuId, decode, encode};
use vms_pcpu_core::PcpuStep;
use vms_seats::{Worker, Works};

// One step each. A call makes its steps by these, and between them others make theirs.
impl PcpuTable {
    /// Loads the shared part of a counter.
    #[inline]
    pub(crate) fn load_count(&self, worker: &mut Worker<SharedPcpu>, counter: PcpuId) -> i64
        requires table { IsFrom worker.old self.now }
        requires counter { IsPcpu self.now.facts counter.number }
        ensures made { MadeOne percpu worker.new worker.old (LoadC counter result) }
        ensures bound { unsigned_abs result ≤ most_number }
    {
        let plan = PcpuStep::LoadC(counter, 0);
        decode(worker.load_at(&self.words, self.count_place(counter), &plan))
    }

    /// Loads a CPU's local part.
    #[inline]
    pub(crate) fn load_local(
        &self,
        worker: &mut Worker<SharedPcpu>,
        cpu: CpuId,
        counter: PcpuId,
    ) -> i64
        requires table { IsFrom worker.old self.now }
        requires counter { IsPcpu self.now.facts counter.number }
        requires cpu { IsCpu self.now.facts.layout cpu.number }
        ensures made { MadeOne percpu worker.new worker.old (LoadL counter cpu result) }
        ensures bound { unsigned_abs result ≤ most_batch }
    {
        let plan = PcpuStep::LoadL(counter, cpu, 0);
        decode(worker.load_at(&self.words, self.local_place(cpu, counter), &plan))
    }

    /// Takes the lock of a counter where it is free, and says whether it was.
    #[inline]
    pub(crate) fn try_lock(&self, worker: &mut Worker<SharedPcpu>, counter: PcpuId) -> bool
        requires table { IsFrom worker.old self.now }
        requires counter { IsPcpu self.now.facts counter.number }
        ensures { MadeOne percpu worker.new worker.old (if result then Won counter else Missed counter) }
    {
        let plan = PcpuStep::Won(counter);
        worker.exchange_at(&self.words, self.lock_place(counter), 0, 1, &plan) == 0
    }

    /// Gives the lock of a counter back.
    #[inline]
    pub(crate) fn unlock(&self, worker: &mut Worker<SharedPcpu>, counter: PcpuId)
        requires table { IsFrom worker.old self.now }
        requires counter { IsPcpu self.now.facts counter.number }
        requires may { MayMake worker.old.facts worker.old.number worker.old.seen (Unlock counter ∷ []) }
        ensures { MadeOne percpu worker.new worker.old (Unlock counter) }
    {
        let plan = PcpuStep::Unlock(counter);
        worker.swap_at(&self.words, self.lock_place(counter), 0, &plan);
    }

    /// Takes a CPU's local part, which becomes 0.
    #[inline]
    pub(crate) fn take_local(
        &self,
        worker: &mut Worker<SharedPcpu>,
        cpu: CpuId,
        counter: PcpuId,
    ) -> i64
        requires table { IsFrom worker.old self.now }
        requires counter { IsPcpu self.now.facts counter.number }
        requires cpu { IsCpu self.now.facts.layout cpu.number }
        requires may { (v : ℤ) → MayMake worker.old.facts worker.old.number worker.old.seen
            (TakeL counter cpu v ∷ []) }
        ensures made { MadeOne percpu worker.new worker.old (TakeL counter cpu result) }
        ensures bound { unsigned_abs result ≤ most_batch }
    {
        let plan = PcpuStep::TakeL(counter, cpu, 0);
        decode(worker.swap_at(&self.words, self.local_place(cpu, counter), 0, &plan))
    }

    /// Adds to the shared part of a counter.
    #[inline]
    pub(crate) fn add_count(&self, worker: &mut Worker<SharedPcpu>, counter: PcpuId, amount: i64)
        requires table { IsFrom worker.old self.now }
        requires counter { IsPcpu self.now.facts counter.number }
        requires may { MayMake worker.old.facts worker.old.number worker.old.seen (AddC counter amount ∷ []) }
        ensures { MadeOne percpu worker.new worker.old (AddC counter amount) }
    {
        let plan = PcpuStep::AddC(counter, amount);
        worker.add_at(
            &self.words,
            self.count_place(counter),
            encode(amount),
            &plan,
        );
    }

    /// Adds to the local part of the CPU that the pass owns.
    #[inline]
    pub(crate) fn add_local(
        &self,
        worker: &mut Worker<SharedPcpu>,
        own: CpuId,
        counter: PcpuId,
        amount: i64,
    )
        requires table { IsFrom worker.old self.now }
        requires counter { IsPcpu self.now.facts counter.number }
        requires own { IsCpu self.now.facts.layout own.number }
        requires owns { owner_in role worker.old.seen worker.old.number ≡ Some own }
        requires may { MayMake worker.old.facts worker.old.number worker.old.seen (AddL counter amount ∷ []) }
        ensures { MadeOne percpu worker.new worker.old (AddL counter amount) }
    {
        let plan = PcpuStep::AddL(counter, amount);
        worker.add_at(
            &self.words,
            self.local_place(own, counter),
            encode(amount),
            &plan,
        );
    }
}
