ghost use Rattle.std.specs.Prelude.{◌<◌};
ghost use Rattle.vms_calls.specs.Common.{mark_sets_at, threshold_sets_at, SetsAbsent, SetsMark, SetsThreshold, SetT};
ghost use Rattle.vms_calls.specs.Common.{SetM, SetO, pages, state_after, most_sets};
ghost use Rattle.vms_seats.specs.Common.{IsFrom, MadeOne};

use crate::packed::{cpu_word, mark_word, threshold_word};
use crate::passes::ControlPass;
use crate::spots::Spot;
use crate::tables::PageTable;
use vms_base::{CpuId, CpuState, PlaceId};
use vms_core::{MarkRead, Step, Threshold};
use vms_seats::Works;

impl PageTable {
    /// Sets a threshold of an online CPU, in pages, and counts that it was set.
    #[inline]
    pub fn set_threshold(&self, pass: &mut ControlPass, cpu: CpuId, place: PlaceId, t: u32)
        requires table { IsFrom pass.old self.now }
        requires sets { SetsThreshold self.now.facts pass.old.seen
            (state_after self.now.facts pass.old.seen) pass.old.number cpu place t }
        requires number { threshold_sets_at (state_after self.now.facts pass.old.seen)
            cpu.number place.number < most_sets }
        ensures { MadeOne pages pass.new pass.old (SetT cpu place t) }
    {
        let at = self
            .blocks
            .place_of(&self.layout, Spot::Threshold(cpu, place));
        let number = pass.kept.sets_at(&self.layout, cpu, place) + 1;
        let word = threshold_word(Threshold { t, number });
        let plan = Step::SetT(cpu, place, t);
        pass.worker.swap_at(&self.words, at, word, &plan);
        pass.kept.keep_threshold(&self.layout, cpu, place, t);
    }

    /// Sets a zone's drift mark, in pages, and counts that it was set. A mark may fall.
    #[inline]
    pub fn set_mark(&self, pass: &mut ControlPass, zone: PlaceId, m: u64)
        requires table { IsFrom pass.old self.now }
        requires sets { SetsMark self.now.facts pass.old.seen pass.old.number zone m }
        requires number { mark_sets_at (state_after self.now.facts pass.old.seen) zone.number
            < most_sets }
        ensures { MadeOne pages pass.new pass.old (SetM zone m) }
    {
        let at = self.blocks.place_of(&self.layout, Spot::Mark(zone));
        let number = pass.kept.mark_sets.get(zone.number as usize) + 1;
        let word = mark_word(MarkRead { mark: m, number });
        let plan = Step::SetM(zone, m);
        pass.worker.swap_at(&self.words, at, word, &plan);
        pass.kept.keep_mark(&self.layout, zone);
    }

    /// Makes a dead CPU absent, once all its differentials are 0.
    #[inline]
    pub fn set_absent(&self, pass: &mut ControlPass, cpu: CpuId)
        requires table { IsFrom pass.old self.now }
        requires sets { SetsAbsent self.now.facts pass.old.seen
            (state_after self.now.facts pass.old.seen) pass.old.number cpu }
        ensures { MadeOne pages pass.new pass.old (SetO cpu) }
    {
        let at = self.blocks.place_of(&self.layout, Spot::Cpu(cpu));
        let plan = Step::SetO(cpu);
        pass.worker
            .swap_at(&self.words, at, cpu_word(CpuState::Absent), &plan);
        pass.kept.cpus.set(cpu.number as usize, CpuState::Absent);
    }
}
