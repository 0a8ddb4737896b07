//! Whether the condition of a step holds for the pass in a slot.

ghost use Rattle.std.specs.Prelude.{◌≡◌, ◌≢◌, ◌↔◌, ◌<◌, ◌+◌, ◌≤◌, ℕ, IsTrue, pos, Some, None};
ghost use Rattle.vms_history.specs.Common.{CpuId, Dead, IsCpu, most_volume};
ghost use Rattle.vms_cells.specs.Cells.{at};
ghost use Rattle.vms_event_core.specs.Common.{IsBase, IsEvent, cpu_at, word_at};
ghost use Rattle.vms_event_registers.specs.Keeps.{IsKept};
ghost use Rattle.vms_registers.specs.Slots.{owner_of};

use crate::EventRegisters;
use crate::bases::state_of;
use crate::registers::word;
use vms_base::{CpuId, CpuState, EventId};
use vms_event_core::EventFacts;
use vms_registers::owner_at;

const MOST_VOLUME: u64 = 1 << 48;

impl EventRegisters {
    /// Whether the pass in a slot may count an event `n` times.
    pub(crate) fn may_count(&self, facts: &EventFacts, slot: u32, event: EventId, n: u64) -> bool
        requires { IsKept facts.now self.now }
        ensures { IsTrue result ↔ ((slot < facts.now.layout.cpus) × IsEvent event.number
            × (at self.now.spent slot event.number 0 + n ≤ most_volume)) }
    {
        if slot >= facts.layout.cpus() || event.number >= 8 {
            return false;
        }
        let spent = self.spent.get(slot as usize, event.number as usize);
        n <= MOST_VOLUME && spent <= MOST_VOLUME - n
    }

    /// Whether a load or a take of a CPU's word finds this number.
    pub(crate) fn finds_word(&self, facts: &EventFacts, cpu: CpuId, event: EventId, v: u64) -> bool
        requires { IsKept facts.now self.now }
        ensures { IsTrue result ↔ (IsCpu facts.now.layout cpu.number × IsEvent event.number
            × (word_at self.now.state cpu.number event.number ≡ v)) }
    {
        if cpu.number >= facts.layout.cpus() || event.number >= 8 {
            return false;
        }
        word(&self.state, cpu, event) == v
    }

    /// Whether the pass in a slot may take this number out of a CPU's word.
    pub(crate) fn may_take(
        &self,
        facts: &EventFacts,
        slot: u32,
        cpu: CpuId,
        event: EventId,
        v: u64,
    ) -> bool
        requires { IsKept facts.now self.now }
        ensures { IsTrue result ↔ ((slot ≡ facts.now.layout.cpus) × (cpu_at facts.now cpu.number ≡ Dead)
            × IsCpu facts.now.layout cpu.number × IsEvent event.number
            × (word_at self.now.state cpu.number event.number ≡ v)) }
    {
        if slot != facts.layout.cpus() || !self.finds_word(facts, cpu, event, v) {
            return false;
        }
        state_of(facts, cpu) == CpuState::Dead
    }

    /// Whether the pass in a slot carries exactly `v`, which isn't 0, and may add it to a CPU's word.
    pub(crate) fn may_add(
        &self,
        facts: &EventFacts,
        slot: u32,
        cpu: CpuId,
        event: EventId,
        v: u64,
    ) -> bool
        requires kept { IsKept facts.now self.now }
        requires slot { slot ≤ facts.now.layout.cpus }
        ensures { IsTrue result ↔ ((cpu.number ≡ self.now.lowest.number) × IsEvent event.number
            × (at self.now.carried slot event.number (pos 0) ≡ pos v) × (v ≢ 0)) }
    {
        if cpu.number != self.lowest.number || event.number >= 8 || v == 0 {
            return false;
        }
        self.carried.get(slot as usize, event.number as usize) as i128 == v as i128
    }
}
