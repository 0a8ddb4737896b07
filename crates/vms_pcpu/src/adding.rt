ghost use Rattle.std.specs.Prelude.{◌≡◌, ◌+◌, ◌<◌, ◌≤◌, ◌↔◌, List, Some, IsErr, IfErr, IfOk, OnOk, OnErr, pos};
ghost use Rattle.std.specs.Prelude.{unsigned_abs, slice_index, slice_set};
ghost use Rattle.vms_history.specs.Common.{IsCpu, most_volume, owner_in};
ghost use Rattle.vms_pcpu_core.specs.declared.steps.PcpuStep.{PcpuStep};
ghost use Rattle.vms_pcpu_core.specs.declared.steps.PcpuStep.TheVariants.{Missed};
ghost use Rattle.vms_pcpu_core.specs.Common.{IsAdd, IsSync, percpu, MayTake, MayChangePcpu, MayCall, role, IsPcpu};
ghost use Rattle.vms_pcpu_core.specs.Common.{batch_at};
ghost use Rattle.vms_pcpu.specs.IdlePasses.{MakesCall};
ghost use Rattle.vms_pcpu.specs.HeldLocks.{GivesUp, GivesUpAdd};
ghost use Rattle.vms_seats.specs.Common.{IsFrom, Made, MadeOne};

use crate::ledgers::SharedPcpu;
use crate::locking::{Held, Locking, Trying, Waiting};
use crate::passes::PcpuPass;
use crate::tables::PcpuTable;
use std::sync::Wait;
use vms_base::{CpuId, Overflow, PcpuId};
use vms_seats::Worker;

/// What one CPU may change a counter by over a run, in absolute sum.
const MOST_VOLUME: u64 = 1 << 48;

impl PcpuTable {
    /// Adds an amount to a counter on the pass's CPU (`percpu_counter_add_batch` of lib/percpu_counter.c). It waits for
    /// the counter's lock where the local part reaches the batch.
    pub fn add<R: Wait>(
        &self,
        rt: &R,
        pass: &mut PcpuPass,
        counter: PcpuId,
        amount: i64,
    ) -> Result<(), Overflow>
        requires table { IsFrom pass.old.pass self.now }
        requires counter { IsPcpu self.now.facts counter.number }
        ensures made { OnOk result (MakesCall pass.new.pass pass.old.pass
            (λ own steps. IsAdd (batch_at self.now.facts.base counter.number) own counter amount steps)) }
        ensures volume { OnOk result (pass.new.volume ≡ slice_set pass.old.volume counter.number
            (slice_index pass.old.volume counter.number + unsigned_abs amount)) }
        ensures overflow { IsErr result ↔
            (most_volume < slice_index pass.old.volume counter.number + unsigned_abs amount) }
        ensures told { IfErr result (λ e. e ≡
            record { volume = slice_index pass.old.volume counter.number; size = unsigned_abs amount }) }
        ensures err { OnErr result (pass.new ≡ pass.old) }
    {
        match self.add_through(&Waiting(rt), pass, counter, amount) {
            Ok(Ok(())) => Ok(()),
            Ok(Err(_)) => unreachable!(),
            Err(error) => Err(error),
        }
    }

    /// Adds like `add`, and doesn't wait: where it needs the lock and others hold it, it gives up after one try. The
    /// counter and the volume then are as they were.
    pub fn try_add(
        &self,
        pass: &mut PcpuPass,
        counter: PcpuId,
        amount: i64,
    ) -> Result<Result<(), Held>, Overflow>
        requires table { IsFrom pass.old.pass self.now }
        requires counter { IsPcpu self.now.facts counter.number }
        ensures made { IfOk result (λ tried. OnOk tried (MakesCall pass.new.pass pass.old.pass
            (λ own steps. IsAdd (batch_at self.now.facts.base counter.number) own counter amount steps))) }
        ensures volume { IfOk result (λ tried. OnOk tried (pass.new.volume ≡ slice_set pass.old.volume counter.number
            (slice_index pass.old.volume counter.number + unsigned_abs amount))) }
        ensures held { IfOk result (λ tried. OnErr tried (MakesCall pass.new.pass pass.old.pass
            (λ own steps. GivesUpAdd (batch_at self.now.facts.base counter.number) own counter amount steps))) }
        ensures kept { IfOk result (λ tried. OnErr tried (pass.new.volume ≡ pass.old.volume)) }
        ensures overflow { IsErr result ↔
            (most_volume < slice_index pass.old.volume counter.number + unsigned_abs amount) }
        ensures told { IfErr result (λ e. e ≡
            record { volume = slice_index pass.old.volume counter.number; size = unsigned_abs amount }) }
        ensures err { OnErr result (pass.new ≡ pass.old) }
    {
        self.add_through(&Trying, pass, counter, amount)
    }

    /// Adds by one of the ways to take the lock.
    fn add_through<L: Locking>(
        &self,
        locking: &L,
        pass: &mut PcpuPass,
        counter: PcpuId,
        amount: i64,
    ) -> Result<Result<(), Held>, Overflow>
        requires table { IsFrom pass.old.pass self.now }
        requires counter { IsPcpu self.now.facts counter.number }
        ensures made { IfOk result (λ tried. OnOk tried (MakesCall pass.new.pass pass.old.pass
            (λ own steps. IsAdd (batch_at self.now.facts.base counter.number) own counter amount steps))) }
        ensures volume { IfOk result (λ tried. OnOk tried (pass.new.volume ≡ slice_set pass.old.volume counter.number
            (slice_index pass.old.volume counter.number + unsigned_abs amount))) }
        ensures held { IfOk result (λ tried. OnErr tried (MakesCall pass.new.pass pass.old.pass
            (λ own steps. GivesUpAdd (batch_at self.now.facts.base counter.number) own counter amount steps))) }
        ensures gives_up { IfOk result (λ tried. OnErr tried L.may_give_up) }
        ensures kept { IfOk result (λ tried. OnErr tried (pass.new.volume ≡ pass.old.volume)) }
        ensures overflow { IsErr result ↔
            (most_volume < slice_index pass.old.volume counter.number + unsigned_abs amount) }
        ensures told { IfErr result (λ e. e ≡
            record { volume = slice_index pass.old.volume counter.number; size = unsigned_abs amount }) }
        ensures err { OnErr result (pass.new ≡ pass.old) }
    {
        let volume = pass.volume_with(counter, amount)?;
        match self.add_by(locking, &mut pass.worker, pass.cpu, counter, amount) {
            Ok(()) => {
                pass.volume.set(counter.number as usize, volume);
                Ok(Ok(()))
            }
            Err(held) => Ok(Err(held)),
        }
    }

    fn add_by<L: Locking>(
        &self,
        locking: &L,
        worker: &mut Worker<SharedPcpu>,
        own: CpuId,
        counter: PcpuId,
        amount: i64,
    ) -> Result<(), Held>
        requires table { IsFrom worker.old self.now }
        requires may { MayChangePcpu worker.old.facts worker.old.seen worker.old.number own
            counter amount }
        ensures made { OnOk result ((steps : List PcpuStep)
            × IsAdd (batch_at self.now.facts.base counter.number) own counter amount steps
            × Made percpu worker.new worker.old steps) }
        ensures held { OnErr result (L.may_give_up × ((steps : List PcpuStep)
            × GivesUpAdd (batch_at self.now.facts.base counter.number) own counter amount steps
            × Made percpu worker.new worker.old steps)) }
    {
        let local = self.load_local(worker, own, counter);
        if (local + amount).unsigned_abs() < u64::from(self.batch(counter)) {
            self.add_local(worker, own, counter, amount);
            return Ok(());
        }
        locking.lock(self, worker, counter)?;
        self.move_local(worker, own, counter, amount);
        Ok(())
    }

    /// Moves the local part of the pass's CPU to the shared part (`percpu_counter_sync` of lib/percpu_counter.c), under
    /// the counter's lock, for which it waits.
    pub fn sync<R: Wait>(&self, rt: &R, pass: &mut PcpuPass, counter: PcpuId)
        requires table { IsFrom pass.old.pass self.now }
        requires counter { IsPcpu self.now.facts counter.number }
        ensures made { MakesCall pass.new.pass pass.old.pass (λ own steps. IsSync own counter steps) }
        ensures volume { pass.new.volume ≡ pass.old.volume }
    {
        match self.sync_through(&Waiting(rt), pass, counter) {
            Ok(()) => (),
            Err(_) => unreachable!(),
        }
    }

    /// Moves the local part like `sync`, and doesn't wait: where others hold the lock, it gives up after one try, and
    /// the counter is as it was.
    pub fn try_sync(&self, pass: &mut PcpuPass, counter: PcpuId) -> Result<(), Held>
        requires table { IsFrom pass.old.pass self.now }
        requires counter { IsPcpu self.now.facts counter.number }
        ensures made { OnOk result (MakesCall pass.new.pass pass.old.pass (λ own steps. IsSync own counter steps)) }
        ensures held { OnErr result (MakesCall pass.new.pass pass.old.pass (λ own steps. GivesUp counter steps)) }
        ensures volume { pass.new.volume ≡ pass.old.volume }
    {
        self.sync_through(&Trying, pass, counter)
    }

    /// Moves the local part by one of the ways to take the lock.
    fn sync_through<L: Locking>(
        &self,
        locking: &L,
        pass: &mut PcpuPass,
        counter: PcpuId,
    ) -> Result<(), Held>
        requires table { IsFrom pass.old.pass self.now }
        requires counter { IsPcpu self.now.facts counter.number }
        ensures made { OnOk result (MakesCall pass.new.pass pass.old.pass (λ own steps. IsSync own counter steps)) }
        ensures held { OnErr result (MakesCall pass.new.pass pass.old.pass (λ own steps. GivesUp counter steps)) }
        ensures gives_up { OnErr result L.may_give_up }
        ensures volume { pass.new.volume ≡ pass.old.volume }
    {
        self.sync_by(locking, &mut pass.worker, pass.cpu, counter)?;
        Ok(())
    }

    /// Moves the local part of a CPU to the shared part under the counter's lock.
    pub(crate) fn sync_by<L: Locking>(
        &self,
        locking: &L,
        worker: &mut Worker<SharedPcpu>,
        cpu: CpuId,
        counter: PcpuId,
    ) -> Result<(), Held>
        requires table { IsFrom worker.old self.now }
        requires counter { IsPcpu self.now.facts counter.number }
        requires cpu { IsCpu self.now.facts.layout cpu.number }
        requires calls { MayCall worker.old.facts worker.old.seen worker.old.number }
        requires whose { MayTake worker.old.facts (owner_in role worker.old.seen worker.old.number) cpu }
        ensures made { OnOk result ((steps : List PcpuStep) × IsSync cpu counter steps
            × Made percpu worker.new worker.old steps) }
        ensures held { OnErr result (L.may_give_up × MadeOne percpu worker.new worker.old (Missed counter)) }
    {
        locking.lock(self, worker, counter)?;
        self.move_local(worker, cpu, counter, 0);
        Ok(())
    }

    /// What a local part of a counter may reach.
    #[inline]
    pub(crate) fn batch(&self, counter: PcpuId) -> u32
        requires { IsPcpu self.now.facts counter.number }
        ensures { result ≡ batch_at self.now.facts.base counter.number }
    {
        self.facts.base.batch.get(counter.number as usize)
    }
}

impl PcpuPass {
    /// What the pass's CPU has changed a counter by since the run began, in absolute sum.
    #[inline]
    pub fn volume_of(&self, counter: PcpuId) -> u64
        requires { IsPcpu self.now.pass.facts counter.number }
        ensures { result ≡ slice_index self.now.volume counter.number }
    {
        self.volume.get(counter.number as usize)
    }

    /// The same with one more amount, unless that is more than one run may make.
    #[inline]
    pub(crate) fn volume_with(&self, counter: PcpuId, amount: i64) -> Result<u64, Overflow>
        requires { IsPcpu self.now.pass.facts counter.number }
        ensures fits { IfOk result (λ volume.
            (volume ≡ slice_index self.now.volume counter.number + unsigned_abs amount) × (volume ≤ most_volume)) }
        ensures overflow { IsErr result ↔
            (most_volume < slice_index self.now.volume counter.number + unsigned_abs amount) }
        ensures told { IfErr result (λ e. e ≡
            record { volume = slice_index self.now.volume counter.number; size = unsigned_abs amount }) }
    {
        let volume = self.volume_of(counter);
        let size = amount.unsigned_abs();
        if size > MOST_VOLUME || volume > MOST_VOLUME - size {
            return Err(Overflow { volume, size });
        }
        Ok(volume + size)
    }
}
