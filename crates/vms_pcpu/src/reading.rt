ghost use Rattle.std.specs.Prelude.{◌≡◌, ◌+◌, ◌*◌, ◌≤◌, ◌^◌, List, IfOk, OnErr, unsigned_abs};
ghost use Rattle.vms_pcpu_core.specs.declared.steps.PcpuStep.{PcpuStep};
ghost use Rattle.vms_pcpu_core.specs.declared.steps.PcpuStep.TheVariants.{Missed};
ghost use Rattle.vms_pcpu_core.specs.Common.{most_batch, IsRead, IsSum, IsCompare, LoadsEach, present_cpus};
ghost use Rattle.vms_pcpu_core.specs.Common.{sign_of as sign_in, unknown as unknown_in, percpu, most_number, MayCall};
ghost use Rattle.vms_pcpu_core.specs.Common.{IsPcpu};
ghost use Rattle.vms_pcpu.specs.Answers.{SumMeans, CompareMeans};
ghost use Rattle.vms_pcpu.specs.IdlePasses.{MakesCall};
ghost use Rattle.vms_pcpu.specs.HeldLocks.{GivesUp};
ghost use Rattle.vms_seats.specs.Common.{IsFrom, Made, MadeOne};

use crate::ledgers::SharedPcpu;
use crate::locking::{Held, Locking, Trying, Waiting};
use crate::passes::PcpuPass;
use crate::tables::{PcpuTable, is_present};
use std::sync::Wait;
use vms_base::{CpuId, PcpuId};
use vms_pcpu_core::Compare;
use vms_seats::Worker;

impl PcpuTable {
    /// The shared part of a counter, without what the CPUs hold (`percpu_counter_read` of
    /// include/linux/percpu_counter.h).
    pub fn read(&self, pass: &mut PcpuPass, counter: PcpuId) -> i64
        requires table { IsFrom pass.old.pass self.now }
        requires counter { IsPcpu self.now.facts counter.number }
        ensures made { MakesCall pass.new.pass pass.old.pass (λ own steps. IsRead counter steps result) }
        ensures volume { pass.new.volume ≡ pass.old.volume }
    {
        self.load_count(&mut pass.worker, counter)
    }

    /// The shared part of a counter and the local parts of the CPUs that are online or dead (`__percpu_counter_sum` of
    /// lib/percpu_counter.c), under the counter's lock, for which it waits. The answer is the true total when the lock
    /// was won, and what each CPU added to its local part from there until the call loaded that part.
    pub fn sum<R: Wait>(&self, rt: &R, pass: &mut PcpuPass, counter: PcpuId) -> i64
        requires table { IsFrom pass.old.pass self.now }
        requires counter { IsPcpu self.now.facts counter.number }
        ensures made { MakesCall pass.new.pass pass.old.pass
            (λ own steps. IsSum (present_cpus self.now.facts) counter steps result) }
        ensures means { SumMeans pass.new.pass pass.old.pass counter result }
        ensures volume { pass.new.volume ≡ pass.old.volume }
    {
        match self.sum_through(&Waiting(rt), pass, counter) {
            Ok(sum) => sum,
            Err(_) => unreachable!(),
        }
    }

    /// Sums up like `sum`, and doesn't wait: where others hold the lock, it gives up after one try.
    pub fn try_sum(&self, pass: &mut PcpuPass, counter: PcpuId) -> Result<i64, Held>
        requires table { IsFrom pass.old.pass self.now }
        requires counter { IsPcpu self.now.facts counter.number }
        ensures made { IfOk result (λ sum. MakesCall pass.new.pass pass.old.pass
            (λ own steps. IsSum (present_cpus self.now.facts) counter steps sum)) }
        ensures means { IfOk result (λ sum. SumMeans pass.new.pass pass.old.pass counter sum) }
        ensures held { OnErr result (MakesCall pass.new.pass pass.old.pass (λ own steps. GivesUp counter steps)) }
        ensures volume { pass.new.volume ≡ pass.old.volume }
    {
        self.sum_through(&Trying, pass, counter)
    }

    /// Sums up by one of the ways to take the lock.
    fn sum_through<L: Locking>(
        &self,
        locking: &L,
        pass: &mut PcpuPass,
        counter: PcpuId,
    ) -> Result<i64, Held>
        requires table { IsFrom pass.old.pass self.now }
        requires counter { IsPcpu self.now.facts counter.number }
        ensures made { IfOk result (λ sum. MakesCall pass.new.pass pass.old.pass
            (λ own steps. IsSum (present_cpus self.now.facts) counter steps sum)) }
        ensures means { IfOk result (λ sum. SumMeans pass.new.pass pass.old.pass counter sum) }
        ensures held { OnErr result (MakesCall pass.new.pass pass.old.pass (λ own steps. GivesUp counter steps)) }
        ensures gives_up { OnErr result L.may_give_up }
        ensures volume { pass.new.volume ≡ pass.old.volume }
    {
        let sum = self.sum_by(locking, &mut pass.worker, counter)?;
        Ok(sum)
    }

    /// Compares a counter with a number (`__percpu_counter_compare` of lib/percpu_counter.c): by the shared part alone
    /// where that is further off than what the CPUs may hold, and else by the sum, for which it waits for the counter's
    /// lock. A rough answer is the sign of the true total, less what is carried, less the number, when the shared part
    /// was loaded; any other is the sign of a sum less the number.
    pub fn compare<R: Wait>(
        &self,
        rt: &R,
        pass: &mut PcpuPass,
        counter: PcpuId,
        rhs: i64,
    ) -> Compare
        requires table { IsFrom pass.old.pass self.now }
        requires counter { IsPcpu self.now.facts counter.number }
        requires rhs { unsigned_abs rhs ≤ 2 ^ 60 }
        ensures made { MakesCall pass.new.pass pass.old.pass
            (λ own steps. IsCompare (unknown_in self.now.facts counter.number) (present_cpus self.now.facts) counter
            rhs steps result) }
        ensures means { CompareMeans pass.new.pass pass.old.pass counter rhs result }
        ensures volume { pass.new.volume ≡ pass.old.volume }
    {
        self.compare_by(rt, &mut pass.worker, counter, rhs)
    }

    fn compare_by<R: Wait>(
        &self,
        rt: &R,
        worker: &mut Worker<SharedPcpu>,
        counter: PcpuId,
        rhs: i64,
    ) -> Compare
        requires table { IsFrom worker.old self.now }
        requires counter { IsPcpu self.now.facts counter.number }
        requires calls { MayCall worker.old.facts worker.old.seen worker.old.number }
        requires rhs { unsigned_abs rhs ≤ 2 ^ 60 }
        ensures { (steps : List PcpuStep)
            × IsCompare (unknown_in self.now.facts counter.number) (present_cpus self.now.facts)
            counter rhs steps result
            × Made percpu worker.new worker.old steps }
    {
        let off = self.load_count(worker, counter) - rhs;
        if off.unsigned_abs() > self.unknown(counter) {
            return Compare {
                sign: sign(off),
                rough: true,
            };
        }
        match self.sum_by(&Waiting(rt), worker, counter) {
            Ok(sum) => Compare {
                sign: sign(sum - rhs),
                rough: false,
            },
            Err(_) => unreachable!(),
        }
    }

    fn sum_by<L: Locking>(
        &self,
        locking: &L,
        worker: &mut Worker<SharedPcpu>,
        counter: PcpuId,
    ) -> Result<i64, Held>
        requires table { IsFrom worker.old self.now }
        requires counter { IsPcpu self.now.facts counter.number }
        requires calls { MayCall worker.old.facts worker.old.seen worker.old.number }
        ensures made { IfOk result (λ sum. (steps : List PcpuStep)
            × IsSum (present_cpus self.now.facts) counter steps sum × Made percpu worker.new worker.old steps) }
        ensures bound { IfOk result (λ sum. unsigned_abs sum ≤ most_number + 128 * most_batch) }
        ensures held { OnErr result (L.may_give_up × MadeOne percpu worker.new worker.old (Missed counter)) }
    {
        locking.lock(self, worker, counter)?;
        let count = self.load_count(worker, counter);
        let sum = count + self.load_locals(worker, counter);
        self.unlock(worker, counter);
        Ok(sum)
    }

    /// Loads the local parts of the CPUs that are online or dead, and adds them up.
    pub(crate) fn load_locals(&self, worker: &mut Worker<SharedPcpu>, counter: PcpuId) -> i64
        requires table { IsFrom worker.old self.now }
        requires counter { IsPcpu self.now.facts counter.number }
        ensures made { (steps : List PcpuStep) × LoadsEach counter (present_cpus self.now.facts) steps result
            × Made percpu worker.new worker.old steps }
        ensures bound { unsigned_abs result ≤ 128 * most_batch }
    {
        worker.is_live();
        let mut sum = 0;
        for (number, state) in self.facts.cpus.as_slice().iter().enumerate() {
            let cpu = CpuId {
                number: number as u32,
            };
            if is_present(*state) {
                sum += self.load_local(worker, cpu, counter);
            }
        }
        sum
    }

    /// What the local parts of a counter may hide from its shared part: a batch for each CPU that is online or dead.
    #[inline]
    pub(crate) fn unknown(&self, counter: PcpuId) -> u64
        requires { IsPcpu self.now.facts counter.number }
        ensures unknown { result ≡ unknown_in self.now.facts counter.number }
        ensures bound { result ≤ 128 * most_batch }
    {
        u64::from(self.batch(counter)) * self.present
    }
}

/// 1, 0 or -1.
#[inline]
fn sign(value: i64) -> i8
    ensures { result ≡ sign_in value }
{
    if value > 0 {
        1
    } else if value < 0 {
        -1
    } else {
        0
    }
}
