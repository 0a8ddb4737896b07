//! What a step of the pass in a slot makes of the registers.

ghost use Rattle.std.specs.Prelude.{◌≡◌, ◌<◌, ◌+◌, ◌≤◌, ◌^◌, length, pos, ◌+ℤ◌, unsigned_abs};
ghost use Rattle.vms_history.specs.Common.{IsCpu, cell};
ghost use Rattle.vms_cells.specs.Cells.{at, with_cell};
ghost use Rattle.vms_event_core.specs.Common.{IsEvent, event_count, with_word, word_at};
ghost use Rattle.vms_event_registers.specs.Keeps.{IsKept};

use crate::EventRegisters;
use crate::registers::{set_word, word};
use vms_base::{CpuId, EventId};
use vms_event_core::EventFacts;

impl EventRegisters {
    /// Counts an event `n` times on a CPU.
    pub(crate) fn count(&mut self, facts: &EventFacts, cpu: CpuId, event: EventId, n: u64)
        requires kept { IsKept facts.now self.old }
        requires cpu { IsCpu facts.now.layout cpu.number }
        requires event { IsEvent event.number }
        requires word { word_at self.old.state cpu.number event.number + n < 2 ^ 62 }
        requires volume { at self.old.spent cpu.number event.number 0 + n < 2 ^ 62 }
        ensures { self.new ≡ record self.old {
          state = with_word self.old.state cpu.number event.number
              (word_at self.old.state cpu.number event.number + n);
          spent = with_cell self.old.spent cpu.number event.number
              (at self.old.spent cpu.number event.number 0 + n);
        } }
    {
        self.grow(cpu, event, n);
        let spent = self.spent.get(cpu.number as usize, event.number as usize);
        self.spent
            .set(cpu.number as usize, event.number as usize, spent + n);
    }

    /// Takes what a CPU's word holds, which the pass in the slot then carries beside what it carried.
    pub(crate) fn carry(
        &mut self,
        facts: &EventFacts,
        slot: u32,
        cpu: CpuId,
        event: EventId,
        v: u64,
    )
        requires kept { IsKept facts.now self.old }
        requires slot { slot ≤ facts.now.layout.cpus }
        requires cpu { IsCpu facts.now.layout cpu.number }
        requires event { IsEvent event.number }
        requires small { v < 2 ^ 62 }
        requires room { unsigned_abs (at self.old.carried slot event.number (pos 0)) < 2 ^ 62 }
        ensures { self.new ≡ record self.old {
          state = with_word self.old.state cpu.number event.number 0;
          carried = with_cell self.old.carried slot event.number
              (pos v +ℤ at self.old.carried slot event.number (pos 0));
        } }
    {
        set_word(&mut self.state, cpu, event, 0);
        let carried = self.carried.get(slot as usize, event.number as usize);
        self.carried
            .set(slot as usize, event.number as usize, v as i64 + carried);
    }

    /// Adds all that the pass in the slot carries for an event to a CPU's word.
    pub(crate) fn put_down(
        &mut self,
        facts: &EventFacts,
        slot: u32,
        cpu: CpuId,
        event: EventId,
        v: u64,
    )
        requires kept { IsKept facts.now self.old }
        requires slot { slot ≤ facts.now.layout.cpus }
        requires cpu { IsCpu facts.now.layout cpu.number }
        requires event { IsEvent event.number }
        requires word { word_at self.old.state cpu.number event.number + v < 2 ^ 62 }
        ensures { self.new ≡ record self.old {
          state = with_word self.old.state cpu.number event.number
              (word_at self.old.state cpu.number event.number + v);
          carried = with_cell self.old.carried slot event.number (pos 0);
        } }
    {
        self.grow(cpu, event, v);
        self.carried.set(slot as usize, event.number as usize, 0);
    }

    fn grow(&mut self, cpu: CpuId, event: EventId, n: u64)
        requires within { cell event_count cpu.number event.number < length self.old.state.words }
        requires room { word_at self.old.state cpu.number event.number + n < 2 ^ 62 }
        ensures { self.new ≡ record self.old {
          state = with_word self.old.state cpu.number event.number
              (word_at self.old.state cpu.number event.number + n);
        } }
    {
        let sum = word(&self.state, cpu, event) + n;
        set_word(&mut self.state, cpu, event, sum);
    }
}
