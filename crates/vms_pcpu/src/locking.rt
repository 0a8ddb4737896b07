ghost use Rattle.std.specs.Prelude.{◌≡◌, ℤ, ◌≤◌, ◌+ℤ◌, List, [], ◌∷◌, OnErr, OnOk, unsigned_abs};
ghost use Rattle.vms_history.specs.Common.{IsCpu, most_volume};
ghost use Rattle.vms_pcpu_core.specs.declared.steps.PcpuStep.{PcpuStep};
ghost use Rattle.vms_pcpu_core.specs.declared.steps.PcpuStep.TheVariants.{Missed, TakeL, AddC, Unlock};
ghost use Rattle.vms_pcpu_core.specs.Common.{Locks, percpu, MayMake, IsPcpu};
ghost use Rattle.vms_seats.specs.Common.{IsFrom, Made, MadeOne};

use crate::ledgers::SharedPcpu;
use crate::tables::PcpuTable;
use crossbeam_utils::Backoff;
use std::sync::Wait;
use vms_base::{CpuId, PcpuId};
use vms_seats::Worker;

/// A call gave up, since others held the counter's lock.
#[derive(Clone, Copy, Debug, PartialEq, Eq, thiserror::Error)]
#[error("others hold the counter's lock")]
pub struct Held;

/// How a call takes the lock of a counter.
pub(crate) trait Locking {
    /// What has to hold where a call gives the lock up.
    ghost may_give_up: { Type 0 };

    fn lock(
        &self,
        table: &PcpuTable,
        worker: &mut Worker<SharedPcpu>,
        counter: PcpuId,
    ) -> Result<(), Held>
        requires table { IsFrom worker.old table.now }
        requires counter { IsPcpu table.now.facts counter.number }
        ensures won { OnOk result ((steps : List PcpuStep) × Locks counter steps
            × Made percpu worker.new worker.old steps) }
        ensures held { OnErr result (Self.may_give_up × MadeOne percpu worker.new worker.old (Missed counter)) };
}

/// Waits for the lock, and never gives it up.
#[derive(Drop)]
pub(crate) struct Waiting<'a, R>(pub(crate) &'a R);

impl<'a, R: Wait> Locking for Waiting<'a, R> {
    ghost may_give_up = { ⊥ };

    fn lock(
        &self,
        table: &PcpuTable,
        worker: &mut Worker<SharedPcpu>,
        counter: PcpuId,
    ) -> Result<(), Held> {
        table.wait_for_lock(self.0, worker, counter);
        Ok(())
    }
}

/// Tries the lock once.
#[derive(Drop)]
pub(crate) struct Trying;

impl Locking for Trying {
    ghost may_give_up = { Unit };

    fn lock(
        &self,
        table: &PcpuTable,
        worker: &mut Worker<SharedPcpu>,
        counter: PcpuId,
    ) -> Result<(), Held> {
        if table.try_lock(worker, counter) {
            Ok(())
        } else {
            Err(Held)
        }
    }
}

impl PcpuTable {
    /// Takes the lock of a counter. While others hold it, the call waits and tries again; each try is a step.
    fn wait_for_lock<R: Wait>(&self, rt: &R, worker: &mut Worker<SharedPcpu>, counter: PcpuId)
        requires table { IsFrom worker.old self.now }
        requires counter { IsPcpu self.now.facts counter.number }
        ensures { (steps : List PcpuStep) × Locks counter steps × Made percpu worker.new worker.old steps }
    {
        worker.is_live();
        let backoff = Backoff::new();
        for _ in rt.forever() {
            if self.try_lock(worker, counter) {
                return;
            }
            backoff.snooze();
        }
        unreachable!()
    }

    /// Under the lock, moves a CPU's local part to the shared part together with an amount, and gives the lock back.
    pub(crate) fn move_local(
        &self,
        worker: &mut Worker<SharedPcpu>,
        cpu: CpuId,
        counter: PcpuId,
        amount: i64,
    )
        requires table { IsFrom worker.old self.now }
        requires counter { IsPcpu self.now.facts counter.number }
        requires cpu { IsCpu self.now.facts.layout cpu.number }
        requires amount { unsigned_abs amount ≤ most_volume }
        requires may { (v : ℤ) → MayMake worker.old.facts worker.old.number worker.old.seen
            (TakeL counter cpu v ∷ AddC counter (v +ℤ amount) ∷ Unlock counter ∷ []) }
        ensures { (v : ℤ) × Made percpu worker.new worker.old
            (TakeL counter cpu v ∷ AddC counter (v +ℤ amount) ∷ Unlock counter ∷ []) }
    {
        let local = self.take_local(worker, cpu, counter);
        self.add_count(worker, counter, local + amount);
        self.unlock(worker, counter);
    }
}
