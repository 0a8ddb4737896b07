ghost use Rattle.std.specs.Prelude.{◌≡◌, ◌≢◌, ℕ, ◌<◌, ◌^◌, List, length};
ghost use Rattle.vms_history.specs.Common.{Online, Dead, state_at};
ghost use Rattle.vms_event_core.specs.declared.steps.EventStep.{EventStep};
ghost use Rattle.vms_event_core.specs.Common.{cpu_at, IsLowestOnline, IsFoldEvents, moves, events, IsEvent};
ghost use Rattle.vms_event.specs.FoldedCpus.{HasFoldedDead};
ghost use Rattle.vms_seats.specs.Common.{IsFrom, Made};

use crate::passes::EventControl;
use crate::places::{EVENTS, place};
use crate::summing::is_online;
use crate::tables::EventTable;
use vms_base::{CpuId, CpuState, EventId};
use vms_event_core::{EventStep, folded_words_are_zero, laws_are_kept};
use vms_seats::Works;

impl EventTable {
    /// Moves what a dead CPU has counted into the words of the lowest-numbered CPU that is online
    /// (`vm_events_fold_cpu` of mm/vmstat.c, which moves it to the CPU that it runs on). A word is taken and set to 0
    /// in one step; the step that adds what was found follows, unless that is 0. When it returns, each word has moved
    /// once, whoever else folded the CPU, and no count is left.
    pub fn fold_events(&self, pass: &mut EventControl, dead: CpuId)
        requires table { IsFrom pass.old self.now }
        requires dead { cpu_at self.now.facts dead.number ≡ Dead }
        ensures made { (into : CpuId) × (found : List ℕ) × (steps : List EventStep)
            × IsLowestOnline self.now.facts into.number × IsFoldEvents dead into found steps
            × Made events pass.new pass.old steps }
        ensures folded { HasFoldedDead pass.new dead }
    {
        pass.is_control();
        let into = self.lowest_online();
        for number in 0..EVENTS {
            pass.move_word(self, dead, into, EventId { number });
        }
        folded_words_are_zero();
        laws_are_kept();
    }

    fn lowest_online(&self) -> CpuId
        ensures { IsLowestOnline self.now.facts result.number }
    {
        first_online(self.cpus.as_slice())
    }
}

impl EventControl {
    /// Moves one word, and tells what was found in it.
    fn move_word(&mut self, table: &EventTable, from: CpuId, into: CpuId, event: EventId) -> u64
        requires table { IsFrom self.old table.now }
        requires from { cpu_at table.now.facts from.number ≡ Dead }
        requires into { IsLowestOnline table.now.facts into.number }
        requires event { IsEvent event.number }
        ensures { Made events self.new self.old (moves from into event.number result) }
    {
        let found = self.worker.swap_at(
            &table.words,
            place(from, event),
            0,
            &EventStep::TakeE(from, event, 0),
        );
        if found != 0 {
            self.worker.add_at(
                &table.words,
                place(into, event),
                found,
                &EventStep::AddF(into, event, found),
            );
        }
        found
    }
}

/// The lowest-numbered CPU that is online by these states.
fn first_online(states: &[CpuState]) -> CpuId
    requires some { (c : ℕ) × (c < length states.now) × (state_at states.now c ≡ Online) }
    requires few { length states.now < 2 ^ 32 }
    ensures online { state_at states.now result.number ≡ Online }
    ensures lowest { (b : ℕ) → b < result.number → state_at states.now b ≢ Online }
{
    for number in 0..states.len() as u32 {
        if is_online(states[number as usize]) {
            return CpuId { number };
        }
    }
    CpuId { number: 0 }
}
