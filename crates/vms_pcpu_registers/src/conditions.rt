//! Whether the condition of a step holds for the pass in a slot.

ghost use Rattle.std.specs.Prelude.{◌≡◌, ◌↔◌, ◌<◌, ◌+◌, ◌≤◌, ◌^◌, IsTrue, false, true, pos, ◌+ℤ◌, ◌-ℤ◌, unsigned_abs};
ghost use Rattle.vms_history.specs.Common.{IsCpu, most_volume};
ghost use Rattle.vms_cells.specs.Cells.{at};
ghost use Rattle.vms_pcpu_core.specs.Common.{IsPcpu, MayTake, batch_at, count_at, held_at, local_at};
ghost use Rattle.vms_pcpu_registers.specs.Keeps.{IsKept, MayAddBeyond, state_of};
ghost use Rattle.vms_registers.specs.Slots.{owner_of};

use crate::PcpuRegisters;
use crate::opening::cpu_state;
use crate::registers::local;
use vms_base::{CpuId, CpuState, PcpuId};
use vms_pcpu_core::PcpuFacts;
use vms_registers::owner_at;

/// What one CPU may change one counter by, in absolute sum.
const MOST_VOLUME: u128 = 1 << 48;

impl PcpuRegisters {
    /// Whether the pass in a slot may add an amount to its local part.
    pub(crate) fn may_add_local(
        &self,
        facts: &PcpuFacts,
        slot: u32,
        counter: PcpuId,
        amount: i64,
    ) -> bool
        requires { IsKept facts.now self.now }
        ensures { IsTrue result ↔ ((slot < facts.now.layout.cpus) × IsPcpu facts.now counter.number
            × (unsigned_abs (local_at self.now.numbers slot counter.number +ℤ amount)
            ≤ batch_at self.now.numbers counter.number)
            × (at self.now.spent slot counter.number 0 + unsigned_abs amount ≤ most_volume)) }
    {
        if slot >= facts.layout.cpus() || !has_counter(facts, counter) {
            return false;
        }
        let cpu = CpuId { number: slot };
        if !self.stays_within(facts, cpu, counter, amount) {
            return false;
        }
        self.affords(facts, cpu, counter, amount.unsigned_abs() as u128)
    }

    /// Whether a load of a local part finds this number.
    pub(crate) fn finds_local(&self, facts: &PcpuFacts, counter: PcpuId, cpu: CpuId, v: i64) -> bool
        requires { IsKept facts.now self.now }
        ensures { IsTrue result ↔ (IsPcpu facts.now counter.number × IsCpu facts.now.layout cpu.number
            × (local_at self.now.numbers cpu.number counter.number ≡ v)) }
    {
        if !has_counter(facts, counter) || cpu.number >= facts.layout.cpus() {
            return false;
        }
        local(&self.numbers, cpu, counter) == v
    }

    /// Whether a load of a shared part finds this number.
    pub(crate) fn finds_count(&self, facts: &PcpuFacts, counter: PcpuId, v: i64) -> bool
        requires { IsKept facts.now self.now }
        ensures { IsTrue result ↔ (IsPcpu facts.now counter.number
            × (count_at self.now.numbers counter.number ≡ v)) }
    {
        if !has_counter(facts, counter) {
            return false;
        }
        self.numbers.count.get(counter.number as usize) == v
    }

    /// Whether the lock of a counter may be won.
    pub(crate) fn may_win(&self, facts: &PcpuFacts, counter: PcpuId) -> bool
        requires { IsKept facts.now self.now }
        ensures { IsTrue result ↔ (IsPcpu facts.now counter.number
            × (held_at (state_of self.now) counter.number ≡ false)) }
    {
        if !has_counter(facts, counter) {
            return false;
        }
        !self.held.get(counter.number as usize)
    }

    /// Whether the lock of a counter may be missed.
    pub(crate) fn may_miss(&self, facts: &PcpuFacts, counter: PcpuId) -> bool
        requires { IsKept facts.now self.now }
        ensures { IsTrue result ↔ (IsPcpu facts.now counter.number
            × (held_at (state_of self.now) counter.number ≡ true)) }
    {
        if !has_counter(facts, counter) {
            return false;
        }
        self.held.get(counter.number as usize)
    }

    /// Whether the pass in a slot may take this number out of a local part.
    pub(crate) fn may_take(
        &self,
        facts: &PcpuFacts,
        slot: u32,
        counter: PcpuId,
        cpu: CpuId,
        v: i64,
    ) -> bool
        requires kept { IsKept facts.now self.now }
        requires slot { slot ≤ facts.now.layout.cpus }
        ensures { IsTrue result ↔ ((at self.now.locks slot counter.number (pos 0) ≡ pos 1)
            × MayTake facts.now (owner_of facts.now.layout.cpus slot) cpu
            × IsPcpu facts.now counter.number × IsCpu facts.now.layout cpu.number
            × (local_at self.now.numbers cpu.number counter.number ≡ v)) }
    {
        if !self.finds_local(facts, counter, cpu, v) {
            return false;
        }
        if !self.holds(facts, slot, counter) {
            return false;
        }
        is_taken_by(facts, slot, cpu)
    }

    /// Whether the pass in a slot may add this number to a shared part.
    pub(crate) fn may_add_count(
        &self,
        facts: &PcpuFacts,
        slot: u32,
        counter: PcpuId,
        added: i64,
    ) -> bool
        requires kept { IsKept facts.now self.now }
        requires slot { slot ≤ facts.now.layout.cpus }
        ensures { IsTrue result ↔ (IsPcpu facts.now counter.number
            × (at self.now.locks slot counter.number (pos 0) ≡ pos 1)
            × MayAddBeyond (owner_of facts.now.layout.cpus slot) self.now.spent counter.number
            (added -ℤ at self.now.carried slot counter.number (pos 0))) }
    {
        if !has_counter(facts, counter) {
            return false;
        }
        if !self.holds(facts, slot, counter) {
            return false;
        }
        let amount = self.beyond(facts, slot, counter, added);
        self.may_add_beyond(facts, slot, counter, amount)
    }

    /// What an addition to a shared part adds beyond what the pass in the slot carries.
    pub(crate) fn beyond(&self, facts: &PcpuFacts, slot: u32, counter: PcpuId, added: i64) -> i128
        requires kept { IsKept facts.now self.now }
        requires slot { slot ≤ facts.now.layout.cpus }
        requires counter { IsPcpu facts.now counter.number }
        ensures value { result ≡ added -ℤ at self.now.carried slot counter.number (pos 0) }
        ensures bound { unsigned_abs result ≤ 2 ^ 64 }
    {
        let carried = self.carried.get(slot as usize, counter.number as usize);
        added as i128 - carried as i128
    }

    /// Whether the pass in a slot may give the lock of a counter back.
    pub(crate) fn may_unlock(&self, facts: &PcpuFacts, slot: u32, counter: PcpuId) -> bool
        requires kept { IsKept facts.now self.now }
        requires slot { slot ≤ facts.now.layout.cpus }
        ensures { IsTrue result ↔ (IsPcpu facts.now counter.number
            × (at self.now.locks slot counter.number (pos 0) ≡ pos 1)
            × (at self.now.carried slot counter.number (pos 0) ≡ pos 0)) }
    {
        if !has_counter(facts, counter) {
            return false;
        }
        if !self.holds(facts, slot, counter) {
            return false;
        }
        self.carried.get(slot as usize, counter.number as usize) == 0
    }

    /// Whether a CPU's local part stays within its batch by this amount.
    fn stays_within(&self, facts: &PcpuFacts, cpu: CpuId, counter: PcpuId, amount: i64) -> bool
        requires kept { IsKept facts.now self.now }
        requires cpu { IsCpu facts.now.layout cpu.number }
        requires counter { IsPcpu facts.now counter.number }
        ensures { IsTrue result ↔ (unsigned_abs (local_at self.now.numbers cpu.number counter.number +ℤ amount)
            ≤ batch_at self.now.numbers counter.number) }
    {
        let sum = local(&self.numbers, cpu, counter) as i128 + amount as i128;
        sum.unsigned_abs() <= self.numbers.batch.get(counter.number as usize) as u128
    }

    /// Whether a CPU may change a counter by so much more.
    fn affords(&self, facts: &PcpuFacts, cpu: CpuId, counter: PcpuId, size: u128) -> bool
        requires kept { IsKept facts.now self.now }
        requires cpu { IsCpu facts.now.layout cpu.number }
        requires counter { IsPcpu facts.now counter.number }
        ensures { IsTrue result ↔ (at self.now.spent cpu.number counter.number 0 + size ≤ most_volume) }
    {
        let spent = self.spent.get(cpu.number as usize, counter.number as usize) as u128;
        size <= MOST_VOLUME && spent <= MOST_VOLUME - size
    }

    /// Whether the pass in a slot may add an amount to a shared part beyond what it carries.
    fn may_add_beyond(&self, facts: &PcpuFacts, slot: u32, counter: PcpuId, amount: i128) -> bool
        requires kept { IsKept facts.now self.now }
        requires slot { slot ≤ facts.now.layout.cpus }
        requires counter { IsPcpu facts.now counter.number }
        requires amount { unsigned_abs amount ≤ 2 ^ 64 }
        ensures { IsTrue result ↔
            MayAddBeyond (owner_of facts.now.layout.cpus slot) self.now.spent counter.number amount }
    {
        match owner_at(facts.layout.cpus(), slot) {
            Some(cpu) => self.affords(facts, cpu, counter, amount.unsigned_abs()),
            None => amount == 0,
        }
    }

    /// Whether the pass in a slot holds the lock of a counter.
    fn holds(&self, facts: &PcpuFacts, slot: u32, counter: PcpuId) -> bool
        requires kept { IsKept facts.now self.now }
        requires slot { slot ≤ facts.now.layout.cpus }
        requires counter { IsPcpu facts.now counter.number }
        ensures { IsTrue result ↔ (at self.now.locks slot counter.number (pos 0) ≡ pos 1) }
    {
        self.locks.get(slot as usize, counter.number as usize) == 1
    }
}

/// Whether there is a counter of this number.
#[inline]
fn has_counter(facts: &PcpuFacts, counter: PcpuId) -> bool
    ensures { IsTrue result ↔ IsPcpu facts.now counter.number }
{
    (counter.number as usize) < facts.base.batch.len()
}

/// Whether the pass in a slot may take the local parts of a CPU.
fn is_taken_by(facts: &PcpuFacts, slot: u32, cpu: CpuId) -> bool
    ensures { IsTrue result ↔ MayTake facts.now (owner_of facts.now.layout.cpus slot) cpu }
{
    match owner_at(facts.layout.cpus(), slot) {
        Some(owned) => owned == cpu,
        None => cpu_state(facts, cpu) == CpuState::Dead,
    }
}
