ghost use Rattle.std.specs.Prelude.{◌≡◌, ◌≢◌, ◌+◌, ◌<◌, ◌≤◌, ◌^◌, ◌↔◌, List, IsErr, IfErr, IfOk, OnOk, MatchBool};
ghost use Rattle.std.specs.Prelude.{OnErr, pos, unsigned_abs, slice_index, slice_set, true};
ghost use Rattle.vms_history.specs.Common.{most_volume};
ghost use Rattle.vms_pcpu_core.specs.declared.steps.PcpuStep.{PcpuStep};
ghost use Rattle.vms_pcpu_core.specs.Common.{IsLimitedAdd, Probes, Judges, present_cpus, unknown as unknown_in};
ghost use Rattle.vms_pcpu_core.specs.Common.{room as room_of, percpu, MayChangePcpu, IsPcpu, batch_at};
ghost use Rattle.vms_pcpu.specs.Answers.{LimitedAddMeans};
ghost use Rattle.vms_pcpu.specs.IdlePasses.{MakesCall};
ghost use Rattle.vms_pcpu.specs.HeldLocks.{GivesUpLimitedAdd};
ghost use Rattle.vms_seats.specs.Common.{IsFrom, Made};

use crate::ledgers::SharedPcpu;
use crate::locking::{Held, Locking, Trying, Waiting};
use crate::passes::PcpuPass;
use crate::tables::PcpuTable;
use std::sync::Wait;
use vms_base::{CpuId, Overflow, PcpuId};
use vms_seats::Worker;

impl PcpuTable {
    /// Adds an amount to a counter on the pass's CPU where the counter then keeps a limit, so far as the call sees, and
    /// says whether it does. The limit is the most for a positive amount, and the least for a negative one. It waits
    /// for the counter's lock where the shared part alone can't decide. The volume grows by the amount's size whatever
    /// the answer is. No counterpart in Linux 6.1.
    ///
    /// A `yes` keeps the limit if nobody else adds meanwhile. Others can push the true total past it by at most what
    /// they added since the call's first step, plus what they still carried when it loaded the shared part without the
    /// lock. A `no` comes only where the true total when the lock was won and the amount are past the limit, together
    /// with what others added from there to the call's last reading. For a caller alone with the counter both are
    /// exact.
    pub fn limited_add<R: Wait>(
        &self,
        rt: &R,
        pass: &mut PcpuPass,
        counter: PcpuId,
        limit: i64,
        amount: i64,
    ) -> Result<bool, Overflow>
        requires table { IsFrom pass.old.pass self.now }
        requires counter { IsPcpu self.now.facts counter.number }
        requires limit { unsigned_abs limit ≤ 2 ^ 60 }
        ensures made { IfOk result (λ answer. MakesCall pass.new.pass pass.old.pass (λ own steps.
            IsLimitedAdd (batch_at self.now.facts.base counter.number) (unknown_in self.now.facts counter.number)
            (present_cpus self.now.facts) own counter limit amount steps answer)) }
        ensures means { amount ≢ pos 0 → IfOk result (λ answer.
            LimitedAddMeans pass.new.pass pass.old.pass counter limit amount answer) }
        ensures volume { OnOk result (pass.new.volume ≡ slice_set pass.old.volume counter.number
            (slice_index pass.old.volume counter.number + unsigned_abs amount)) }
        ensures overflow { IsErr result ↔
            (most_volume < slice_index pass.old.volume counter.number + unsigned_abs amount) }
        ensures told { IfErr result (λ e. e ≡
            record { volume = slice_index pass.old.volume counter.number; size = unsigned_abs amount }) }
        ensures err { OnErr result (pass.new ≡ pass.old) }
    {
        match self.limited_add_through(&Waiting(rt), pass, counter, limit, amount) {
            Ok(Ok(answer)) => Ok(answer),
            Ok(Err(_)) => unreachable!(),
            Err(error) => Err(error),
        }
    }

    /// Adds like `limited_add`, and doesn't wait: where it needs the lock and others hold it, it gives up after one
    /// try. The counter and the volume then are as they were.
    pub fn try_limited_add(
        &self,
        pass: &mut PcpuPass,
        counter: PcpuId,
        limit: i64,
        amount: i64,
    ) -> Result<Result<bool, Held>, Overflow>
        requires table { IsFrom pass.old.pass self.now }
        requires counter { IsPcpu self.now.facts counter.number }
        requires limit { unsigned_abs limit ≤ 2 ^ 60 }
        ensures made { IfOk result (λ tried. IfOk tried (λ answer. MakesCall pass.new.pass pass.old.pass (λ own steps.
            IsLimitedAdd (batch_at self.now.facts.base counter.number) (unknown_in self.now.facts counter.number)
            (present_cpus self.now.facts) own counter limit amount steps answer))) }
        ensures means { amount ≢ pos 0 → IfOk result (λ tried. IfOk tried (λ answer.
            LimitedAddMeans pass.new.pass pass.old.pass counter limit amount answer)) }
        ensures volume { IfOk result (λ tried. OnOk tried (pass.new.volume ≡ slice_set pass.old.volume counter.number
            (slice_index pass.old.volume counter.number + unsigned_abs amount))) }
        ensures held { IfOk result (λ tried. OnErr tried (MakesCall pass.new.pass pass.old.pass (λ own steps.
            GivesUpLimitedAdd (batch_at self.now.facts.base counter.number) (unknown_in self.now.facts counter.number)
            own counter limit amount steps))) }
        ensures kept { IfOk result (λ tried. OnErr tried (pass.new.volume ≡ pass.old.volume)) }
        ensures overflow { IsErr result ↔
            (most_volume < slice_index pass.old.volume counter.number + unsigned_abs amount) }
        ensures told { IfErr result (λ e. e ≡
            record { volume = slice_index pass.old.volume counter.number; size = unsigned_abs amount }) }
        ensures err { OnErr result (pass.new ≡ pass.old) }
    {
        self.limited_add_through(&Trying, pass, counter, limit, amount)
    }

    /// Adds by one of the ways to take the lock.
    fn limited_add_through<L: Locking>(
        &self,
        locking: &L,
        pass: &mut PcpuPass,
        counter: PcpuId,
        limit: i64,
        amount: i64,
    ) -> Result<Result<bool, Held>, Overflow>
        requires table { IsFrom pass.old.pass self.now }
        requires counter { IsPcpu self.now.facts counter.number }
        requires limit { unsigned_abs limit ≤ 2 ^ 60 }
        ensures made { IfOk result (λ tried. IfOk tried (λ answer. MakesCall pass.new.pass pass.old.pass (λ own steps.
            IsLimitedAdd (batch_at self.now.facts.base counter.number) (unknown_in self.now.facts counter.number)
            (present_cpus self.now.facts) own counter limit amount steps answer))) }
        ensures means { amount ≢ pos 0 → IfOk result (λ tried. IfOk tried (λ answer.
            LimitedAddMeans pass.new.pass pass.old.pass counter limit amount answer)) }
        ensures volume { IfOk result (λ tried. OnOk tried (pass.new.volume ≡ slice_set pass.old.volume counter.number
            (slice_index pass.old.volume counter.number + unsigned_abs amount))) }
        ensures held { IfOk result (λ tried. OnErr tried (MakesCall pass.new.pass pass.old.pass (λ own steps.
            GivesUpLimitedAdd (batch_at self.now.facts.base counter.number) (unknown_in self.now.facts counter.number)
            own counter limit amount steps))) }
        ensures gives_up { IfOk result (λ tried. OnErr tried L.may_give_up) }
        ensures kept { IfOk result (λ tried. OnErr tried (pass.new.volume ≡ pass.old.volume)) }
        ensures overflow { IsErr result ↔
            (most_volume < slice_index pass.old.volume counter.number + unsigned_abs amount) }
        ensures told { IfErr result (λ e. e ≡
            record { volume = slice_index pass.old.volume counter.number; size = unsigned_abs amount }) }
        ensures err { OnErr result (pass.new ≡ pass.old) }
    {
        let volume = pass.volume_with(counter, amount)?;
        let worker = &mut pass.worker;
        match self.limited_add_by(locking, worker, pass.cpu, counter, limit, amount) {
            Ok(answer) => {
                pass.volume.set(counter.number as usize, volume);
                Ok(Ok(answer))
            }
            Err(held) => Ok(Err(held)),
        }
    }

    fn limited_add_by<L: Locking>(
        &self,
        locking: &L,
        worker: &mut Worker<SharedPcpu>,
        own: CpuId,
        counter: PcpuId,
        limit: i64,
        amount: i64,
    ) -> Result<bool, Held>
        requires table { IsFrom worker.old self.now }
        requires limit { unsigned_abs limit ≤ 2 ^ 60 }
        requires may { MayChangePcpu worker.old.facts worker.old.seen worker.old.number own
            counter amount }
        ensures made { IfOk result (λ answer. (steps : List PcpuStep)
            × IsLimitedAdd (batch_at self.now.facts.base counter.number) (unknown_in self.now.facts counter.number)
            (present_cpus self.now.facts) own counter limit amount steps answer
            × Made percpu worker.new worker.old steps) }
        ensures held { OnErr result (L.may_give_up × ((steps : List PcpuStep)
            × GivesUpLimitedAdd (batch_at self.now.facts.base counter.number)
            (unknown_in self.now.facts counter.number) own counter limit amount steps
            × Made percpu worker.new worker.old steps)) }
    {
        if amount == 0 {
            return Ok(true);
        }
        if self.add_unlocked(worker, own, counter, limit, amount) {
            return Ok(true);
        }
        locking.lock(self, worker, counter)?;
        let value = self.load_count(worker, counter) + amount;
        let keeps = self.keeps_limit(worker, counter, limit, amount, value);
        if keeps {
            self.move_local(worker, own, counter, amount);
        } else {
            self.unlock(worker, counter);
        }
        Ok(keeps)
    }

    /// Adds an amount without the lock, where the local part stays within the batch and the limit is further off than
    /// what the CPUs may hold; and says whether that is so.
    fn add_unlocked(
        &self,
        worker: &mut Worker<SharedPcpu>,
        own: CpuId,
        counter: PcpuId,
        limit: i64,
        amount: i64,
    ) -> bool
        requires table { IsFrom worker.old self.now }
        requires limit { unsigned_abs limit ≤ 2 ^ 60 }
        requires some { amount ≢ pos 0 }
        requires may { MayChangePcpu worker.old.facts worker.old.seen worker.old.number own
            counter amount }
        ensures { MatchBool result
            ((steps : List PcpuStep)
            × IsLimitedAdd (batch_at self.now.facts.base counter.number) (unknown_in self.now.facts counter.number)
            (present_cpus self.now.facts) own counter limit amount steps true
            × Made percpu worker.new worker.old steps)
            ((steps : List PcpuStep)
            × Probes (batch_at self.now.facts.base counter.number) (unknown_in self.now.facts counter.number) limit own
            counter amount steps
            × Made percpu worker.new worker.old steps) }
    {
        let sum = self.load_local(worker, own, counter) + amount;
        if sum.unsigned_abs() > u64::from(self.batch(counter)) {
            return false;
        }
        let left = room(limit, amount, self.load_count(worker, counter));
        if left < self.unknown(counter) as i64 {
            return false;
        }
        self.add_local(worker, own, counter, amount);
        true
    }

    /// Whether a value keeps a limit: by itself where what the CPUs may hold can't matter, and else together with the
    /// local parts.
    fn keeps_limit(
        &self,
        worker: &mut Worker<SharedPcpu>,
        counter: PcpuId,
        limit: i64,
        amount: i64,
        value: i64,
    ) -> bool
        requires table { IsFrom worker.old self.now }
        requires counter { IsPcpu self.now.facts counter.number }
        requires limit { unsigned_abs limit ≤ 2 ^ 60 }
        requires amount { unsigned_abs amount ≤ most_volume }
        requires value { unsigned_abs value ≤ 2 ^ 61 }
        ensures { (steps : List PcpuStep)
            × Judges (unknown_in self.now.facts counter.number) limit (present_cpus self.now.facts) counter amount value
            steps result
            × Made percpu worker.new worker.old steps }
    {
        worker.is_live();
        let unknown = self.unknown(counter) as i64;
        let left = room(limit, amount, value);
        if left + unknown < 0 {
            return false;
        }
        if left >= unknown {
            return true;
        }
        let sum = self.load_locals(worker, counter);
        room(limit, amount, value + sum) >= 0
    }
}

/// How far a value is from the limit, on the side on which an amount may lead.
#[inline]
fn room(limit: i64, amount: i64, value: i64) -> i64
    requires limit { unsigned_abs limit ≤ 2 ^ 60 }
    requires value { unsigned_abs value ≤ 2 ^ 61 + 2 ^ 60 }
    ensures room { result ≡ room_of limit amount value }
    ensures bound { unsigned_abs result ≤ 2 ^ 62 }
{
    if amount > 0 {
        limit - value
    } else {
        value - limit
    }
}
