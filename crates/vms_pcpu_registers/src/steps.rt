//! What a step of the pass in a slot makes of the registers.

ghost use Rattle.std.specs.Prelude.{◌≡◌, ◌<◌, ◌+◌, ◌≤◌, ◌^◌, length, pos, ◌+ℤ◌, ◌-ℤ◌, unsigned_abs};
ghost use Rattle.vms_history.specs.Common.{IsCpu};
ghost use Rattle.vms_cells.specs.Cells.{at, with_cell};
ghost use Rattle.vms_pcpu_core.specs.Common.{IsPcpu, count_at, local_at, with_count, with_held, with_local};
ghost use Rattle.vms_pcpu_registers.specs.Keeps.{IsKept, mark_of, state_of, with_spent, with_state};
ghost use Rattle.vms_registers.specs.Slots.{owner_of};

use crate::PcpuRegisters;
use crate::registers::{local, set_local};
use vms_base::{CpuId, PcpuId};
use vms_pcpu_core::PcpuFacts;
use vms_registers::owner_at;

impl PcpuRegisters {
    /// Adds an amount to a CPU's local part.
    pub(crate) fn add_local(&mut self, facts: &PcpuFacts, cpu: CpuId, counter: PcpuId, amount: i64)
        requires kept { IsKept facts.now self.old }
        requires cpu { IsCpu facts.now.layout cpu.number }
        requires counter { IsPcpu facts.now counter.number }
        requires room { unsigned_abs (local_at self.old.numbers cpu.number counter.number +ℤ amount) < 2 ^ 62 }
        requires volume { at self.old.spent cpu.number counter.number 0 + unsigned_abs amount < 2 ^ 62 }
        ensures { self.new ≡ record (with_state self.old (with_local (state_of self.old) cpu.number counter.number
            (local_at self.old.numbers cpu.number counter.number +ℤ amount))) {
              spent = with_cell self.old.spent cpu.number counter.number
                  (at self.old.spent cpu.number counter.number 0 + unsigned_abs amount);
            } }
    {
        let sum = local(&self.numbers, cpu, counter) + amount;
        set_local(&mut self.numbers, cpu, counter, sum);
        self.spend(facts, cpu, counter, amount.unsigned_abs());
    }

    /// The pass in a slot holds the lock of a counter, or gives it back.
    pub(crate) fn set_lock(&mut self, facts: &PcpuFacts, slot: u32, counter: PcpuId, held: bool)
        requires kept { IsKept facts.now self.old }
        requires slot { slot ≤ facts.now.layout.cpus }
        requires counter { IsPcpu facts.now counter.number }
        ensures { self.new ≡ record (with_state self.old (with_held (state_of self.old) counter.number held)) {
          locks = with_cell self.old.locks slot counter.number (mark_of held);
        } }
    {
        let at = counter.number as usize;
        self.held.set(at, held);
        self.locks.set(slot as usize, at, mark(held));
    }

    /// Takes a local part, which the pass in the slot then carries beside what it carried.
    pub(crate) fn take_local(
        &mut self,
        facts: &PcpuFacts,
        slot: u32,
        counter: PcpuId,
        cpu: CpuId,
        v: i64,
    )
        requires kept { IsKept facts.now self.old }
        requires slot { slot ≤ facts.now.layout.cpus }
        requires counter { IsPcpu facts.now counter.number }
        requires cpu { IsCpu facts.now.layout cpu.number }
        requires room { unsigned_abs (at self.old.carried slot counter.number (pos 0) +ℤ v) < 2 ^ 62 }
        ensures { self.new ≡
            record (with_state self.old (with_local (state_of self.old) cpu.number counter.number (pos 0))) {
              carried = with_cell self.old.carried slot counter.number
                  (at self.old.carried slot counter.number (pos 0) +ℤ v);
            } }
    {
        let at = counter.number as usize;
        set_local(&mut self.numbers, cpu, counter, 0);
        let carried = self.carried.get(slot as usize, at) + v;
        self.carried.set(slot as usize, at, carried);
    }

    /// Adds to a shared part what the pass in a slot carries, and an amount of its own.
    pub(crate) fn add_count(&mut self, facts: &PcpuFacts, slot: u32, counter: PcpuId, added: i64)
        requires kept { IsKept facts.now self.old }
        requires slot { slot ≤ facts.now.layout.cpus }
        requires counter { IsPcpu facts.now counter.number }
        requires room { unsigned_abs (count_at self.old.numbers counter.number +ℤ added) < 2 ^ 62 }
        requires amount { unsigned_abs (added -ℤ at self.old.carried slot counter.number (pos 0)) < 2 ^ 62 }
        requires volume { slot < facts.now.layout.cpus → at self.old.spent slot counter.number 0
            + unsigned_abs (added -ℤ at self.old.carried slot counter.number (pos 0)) < 2 ^ 62 }
        ensures { self.new ≡ record (with_state self.old (with_count (state_of self.old) counter.number
            (count_at self.old.numbers counter.number +ℤ added))) {
              spent = with_spent (owner_of facts.now.layout.cpus slot) counter.number
                  (unsigned_abs (added -ℤ at self.old.carried slot counter.number (pos 0))) self.old.spent;
              carried = with_cell self.old.carried slot counter.number (pos 0);
            } }
    {
        let amount = self.beyond(facts, slot, counter, added);
        self.spend_in(facts, slot, counter, amount.unsigned_abs() as u64);
        self.carried.set(slot as usize, counter.number as usize, 0);
        self.grow_count(counter, added);
    }

    fn grow_count(&mut self, counter: PcpuId, added: i64)
        requires within { counter.number < length self.old.numbers.count }
        requires room { unsigned_abs (count_at self.old.numbers counter.number +ℤ added) < 2 ^ 62 }
        ensures { self.new ≡ with_state self.old (with_count (state_of self.old) counter.number
            (count_at self.old.numbers counter.number +ℤ added)) }
    {
        let at = counter.number as usize;
        let sum = self.numbers.count.get(at) + added;
        self.numbers.count.set(at, sum);
    }

    /// The CPU of the pass in a slot spends so much more of its volume on a counter. The control pass spends nothing.
    fn spend_in(&mut self, facts: &PcpuFacts, slot: u32, counter: PcpuId, size: u64)
        requires kept { IsKept facts.now self.old }
        requires slot { slot ≤ facts.now.layout.cpus }
        requires counter { IsPcpu facts.now counter.number }
        requires volume { slot < facts.now.layout.cpus → at self.old.spent slot counter.number 0 + size < 2 ^ 62 }
        ensures { self.new ≡ record self.old {
          spent = with_spent (owner_of facts.now.layout.cpus slot) counter.number size self.old.spent;
        } }
    {
        match owner_at(facts.layout.cpus(), slot) {
            Some(cpu) => self.spend(facts, cpu, counter, size),
            None => {}
        }
    }

    fn spend(&mut self, facts: &PcpuFacts, cpu: CpuId, counter: PcpuId, size: u64)
        requires kept { IsKept facts.now self.old }
        requires cpu { IsCpu facts.now.layout cpu.number }
        requires counter { IsPcpu facts.now counter.number }
        requires volume { at self.old.spent cpu.number counter.number 0 + size < 2 ^ 62 }
        ensures { self.new ≡ record self.old {
          spent = with_cell self.old.spent cpu.number counter.number
              (at self.old.spent cpu.number counter.number 0 + size);
        } }
    {
        let at = counter.number as usize;
        let spent = self.spent.get(cpu.number as usize, at) + size;
        self.spent.set(cpu.number as usize, at, spent);
    }
}

/// What the table of locks has for a lock that is held, and for another.
#[inline]
fn mark(held: bool) -> i64
    ensures { result ≡ mark_of held }
{
    if held { 1 } else { 0 }
}
