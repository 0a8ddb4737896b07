ghost use Rattle.std.specs.Prelude.{◌≡◌, ◌≢◌, ◌<◌, ◌≤◌, pos, unsigned_abs, IfOk, MatchResult};
ghost use Rattle.vms_counters.specs.Handles.{OnPcpu};
ghost use Rattle.vms_counters.specs.PcpuCalls.{MakesPcpu, RefusesPcpu, RefusesTry, farthest};
ghost use Rattle.vms_pcpu.specs.Common.{CompareMeans, LimitedAddMeans, SumMeans};
ghost use Rattle.vms_pcpu_core.specs.declared.answers.PcpuAnswer.TheVariants as answers;
ghost use Rattle.vms_pcpu_core.specs.declared.pcpu_calls.PcpuCall.TheVariants as calls;
ghost use Rattle.vms_world.specs.Common.{IsPcpu};

use crate::errors::CallError;
use crate::handles::Handle;
use std::sync::Wait;
use vms_base::PcpuId;
use vms_pcpu_core::Compare;

/// How far from 0 a limit, or a number that a counter is compared with, may be.
const FARTHEST: u64 = 1 << 60;

// The calls of a handle on the percpu counters that the header declares. Those that take a lock wait for it by the
// runtime that they are given. Those that begin with `try` give up after one try, with the counter and the handle's
// volumes as they were.
impl Handle {
    /// The shared part of a percpu counter, without what the CPUs hold (`percpu_counter_read` of
    /// include/linux/percpu_counter.h).
    pub fn percpu_read(&mut self, counter: PcpuId) -> Result<i64, CallError>
        ensures made { MatchResult result
            (λ count. MakesPcpu (calls.Read counter) self.new.pcpu self.old.pcpu (answers.Count count))
            (RefusesPcpu (calls.Read counter) self.new.pcpu self.old.pcpu) }
        ensures rest { OnPcpu self.new self.old }
    {
        self.check_counter(counter)?;
        let table = &self.shared.tables.counters;
        Ok(table.read(&mut self.passes.pcpu, counter))
    }

    /// Adds an amount to a percpu counter on the handle's CPU (`percpu_counter_add_batch` of lib/percpu_counter.c). It
    /// waits for the counter's lock where the local part reaches the batch.
    pub fn percpu_add<R: Wait>(
        &mut self,
        rt: &R,
        counter: PcpuId,
        amount: i64,
    ) -> Result<(), CallError>
        ensures made { MatchResult result
            (λ _. MakesPcpu (calls.Add counter amount) self.new.pcpu self.old.pcpu answers.Done)
            (RefusesPcpu (calls.Add counter amount) self.new.pcpu self.old.pcpu) }
        ensures rest { OnPcpu self.new self.old }
    {
        self.check_counter(counter)?;
        let table = &self.shared.tables.counters;
        match table.add(rt, &mut self.passes.pcpu, counter, amount) {
            Ok(()) => Ok(()),
            Err(overflow) => Err(CallError::TooMuch(overflow)),
        }
    }

    /// Adds like `percpu_add`, and doesn't wait.
    pub fn try_percpu_add(&mut self, counter: PcpuId, amount: i64) -> Result<(), CallError>
        ensures made { MatchResult result
            (λ _. MakesPcpu (calls.Add counter amount) self.new.pcpu self.old.pcpu answers.Done)
            (RefusesTry (calls.Add counter amount) self.new.pcpu self.old.pcpu) }
        ensures rest { OnPcpu self.new self.old }
    {
        self.check_counter(counter)?;
        let table = &self.shared.tables.counters;
        match table.try_add(&mut self.passes.pcpu, counter, amount) {
            Ok(Ok(())) => Ok(()),
            Ok(Err(_held)) => Err(CallError::Held),
            Err(overflow) => Err(CallError::TooMuch(overflow)),
        }
    }

    /// Adds an amount to a percpu counter on the handle's CPU where the counter then keeps a limit, and says whether it
    /// does: the most for a positive amount, and the least for a negative one. It waits for the counter's lock where
    /// the shared part alone can't decide. The volume grows by the amount's size whatever the answer is. No counterpart
    /// in Linux 6.1. What is true of an answer, whatever others do meanwhile, is said as of `limited_add` of
    /// `vms_pcpu`.
    pub fn percpu_limited_add<R: Wait>(
        &mut self,
        rt: &R,
        counter: PcpuId,
        limit: i64,
        amount: i64,
    ) -> Result<bool, CallError>
        ensures made { MatchResult result
            (λ yes. MakesPcpu (calls.LimitedAdd counter limit amount) self.new.pcpu self.old.pcpu
            (answers.Limited yes))
            (RefusesPcpu (calls.LimitedAdd counter limit amount) self.new.pcpu self.old.pcpu) }
        ensures means { amount ≢ pos 0 → IfOk result (LimitedAddMeans self.new.pcpu.pass self.old.pcpu.pass counter
            limit amount) }
        ensures rest { OnPcpu self.new self.old }
    {
        self.check_counter(counter)?;
        check_near(limit)?;
        let table = &self.shared.tables.counters;
        match table.limited_add(rt, &mut self.passes.pcpu, counter, limit, amount) {
            Ok(yes) => Ok(yes),
            Err(overflow) => Err(CallError::TooMuch(overflow)),
        }
    }

    /// Adds like `percpu_limited_add`, and doesn't wait.
    pub fn try_percpu_limited_add(
        &mut self,
        counter: PcpuId,
        limit: i64,
        amount: i64,
    ) -> Result<bool, CallError>
        ensures made { MatchResult result
            (λ yes. MakesPcpu (calls.LimitedAdd counter limit amount) self.new.pcpu self.old.pcpu
            (answers.Limited yes))
            (RefusesTry (calls.LimitedAdd counter limit amount) self.new.pcpu self.old.pcpu) }
        ensures means { amount ≢ pos 0 → IfOk result (LimitedAddMeans self.new.pcpu.pass self.old.pcpu.pass counter
            limit amount) }
        ensures rest { OnPcpu self.new self.old }
    {
        self.check_counter(counter)?;
        check_near(limit)?;
        let table = &self.shared.tables.counters;
        match table.try_limited_add(&mut self.passes.pcpu, counter, limit, amount) {
            Ok(Ok(yes)) => Ok(yes),
            Ok(Err(_held)) => Err(CallError::Held),
            Err(overflow) => Err(CallError::TooMuch(overflow)),
        }
    }

    /// Moves the local part of the handle's CPU to the shared part of a percpu counter (`percpu_counter_sync` of
    /// lib/percpu_counter.c), under the counter's lock, for which it waits.
    pub fn percpu_sync<R: Wait>(&mut self, rt: &R, counter: PcpuId) -> Result<(), CallError>
        ensures made { MatchResult result
            (λ _. MakesPcpu (calls.Sync counter) self.new.pcpu self.old.pcpu answers.Done)
            (RefusesPcpu (calls.Sync counter) self.new.pcpu self.old.pcpu) }
        ensures rest { OnPcpu self.new self.old }
    {
        self.check_counter(counter)?;
        let table = &self.shared.tables.counters;
        table.sync(rt, &mut self.passes.pcpu, counter);
        Ok(())
    }

    /// Moves the local part like `percpu_sync`, and doesn't wait.
    pub fn try_percpu_sync(&mut self, counter: PcpuId) -> Result<(), CallError>
        ensures made { MatchResult result
            (λ _. MakesPcpu (calls.Sync counter) self.new.pcpu self.old.pcpu answers.Done)
            (RefusesTry (calls.Sync counter) self.new.pcpu self.old.pcpu) }
        ensures rest { OnPcpu self.new self.old }
    {
        self.check_counter(counter)?;
        let table = &self.shared.tables.counters;
        match table.try_sync(&mut self.passes.pcpu, counter) {
            Ok(()) => Ok(()),
            Err(_held) => Err(CallError::Held),
        }
    }

    /// The shared part of a percpu counter and the local parts of the CPUs that are online or dead
    /// (`__percpu_counter_sum` of lib/percpu_counter.c), under the counter's lock, for which it waits. What is true of
    /// it, whatever others do meanwhile, is said as of `sum` of `vms_pcpu`.
    pub fn percpu_sum<R: Wait>(&mut self, rt: &R, counter: PcpuId) -> Result<i64, CallError>
        ensures made { MatchResult result
            (λ sum. MakesPcpu (calls.Sum counter) self.new.pcpu self.old.pcpu (answers.Total sum))
            (RefusesPcpu (calls.Sum counter) self.new.pcpu self.old.pcpu) }
        ensures means { IfOk result (SumMeans self.new.pcpu.pass self.old.pcpu.pass counter) }
        ensures rest { OnPcpu self.new self.old }
    {
        self.check_counter(counter)?;
        let table = &self.shared.tables.counters;
        Ok(table.sum(rt, &mut self.passes.pcpu, counter))
    }

    /// Sums up like `percpu_sum`, and doesn't wait.
    pub fn try_percpu_sum(&mut self, counter: PcpuId) -> Result<i64, CallError>
        ensures made { MatchResult result
            (λ sum. MakesPcpu (calls.Sum counter) self.new.pcpu self.old.pcpu (answers.Total sum))
            (RefusesTry (calls.Sum counter) self.new.pcpu self.old.pcpu) }
        ensures means { IfOk result (SumMeans self.new.pcpu.pass self.old.pcpu.pass counter) }
        ensures rest { OnPcpu self.new self.old }
    {
        self.check_counter(counter)?;
        let table = &self.shared.tables.counters;
        match table.try_sum(&mut self.passes.pcpu, counter) {
            Ok(sum) => Ok(sum),
            Err(_held) => Err(CallError::Held),
        }
    }

    /// Compares a percpu counter with a number (`__percpu_counter_compare` of lib/percpu_counter.c): by the shared part
    /// alone where that is far enough off, and else by the sum, for which it waits for the counter's lock. What is true
    /// of an answer, whatever others do meanwhile, is said as of `compare` of `vms_pcpu`.
    pub fn percpu_compare<R: Wait>(
        &mut self,
        rt: &R,
        counter: PcpuId,
        rhs: i64,
    ) -> Result<Compare, CallError>
        ensures made { MatchResult result
            (λ answer. MakesPcpu (calls.Compare counter rhs) self.new.pcpu self.old.pcpu (answers.Compared answer))
            (RefusesPcpu (calls.Compare counter rhs) self.new.pcpu self.old.pcpu) }
        ensures means { IfOk result (CompareMeans self.new.pcpu.pass self.old.pcpu.pass counter rhs) }
        ensures rest { OnPcpu self.new self.old }
    {
        self.check_counter(counter)?;
        check_near(rhs)?;
        let table = &self.shared.tables.counters;
        Ok(table.compare(rt, &mut self.passes.pcpu, counter, rhs))
    }

    /// Whether the header declares a percpu counter.
    fn check_counter(&self, counter: PcpuId) -> Result<(), CallError>
        ensures { MatchResult result (λ _. IsPcpu self.now.pcpu.pass.facts counter.number)
            (λ error. (error ≡ CallError.NoPcpu counter.number)
            × ¬ IsPcpu self.now.pcpu.pass.facts counter.number) }
    {
        if counter.number as usize >= self.shared.header.counters.len() {
            return Err(CallError::NoPcpu(counter.number));
        }
        Ok(())
    }
}

/// Whether a limit, or a number that a counter is compared with, is near enough to 0.
fn check_near(number: i64) -> Result<(), CallError>
    ensures { MatchResult result (λ _. unsigned_abs number ≤ farthest)
        (λ error. (error ≡ CallError.TooFar) × (farthest < unsigned_abs number)) }
{
    if number.unsigned_abs() > FARTHEST {
        return Err(CallError::TooFar);
    }
    Ok(())
}
