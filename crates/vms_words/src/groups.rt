ghost use Rattle.std.specs.Prelude.{◌≡◌};
ghost use Rattle.vms_calls.specs.Common.{IsCpu, IsGroup, LoadD, Take, pages};
ghost use Rattle.vms_seats.specs.Common.{IsFrom, MadeOne};

use crate::lists::PackedDiffs;
use crate::passes::Caller;
use crate::spots::Spot;
use crate::tables::PageTable;
use vms_base::{CpuId, Diffs, GroupId};
use vms_core::Step;

impl PageTable {
    /// Loads a CPU's eight differentials of a group, in pages.
    #[inline]
    pub fn load_diffs<P: Caller>(&self, pass: &mut P, cpu: CpuId, group: GroupId) -> PackedDiffs
        requires table { IsFrom (P.pass pass.old) self.now }
        requires cpu { IsCpu self.now.facts.layout cpu.number }
        requires group { IsGroup self.now.facts.layout group.number }
        ensures made { MadeOne pages (P.pass pass.new) (P.pass pass.old) (LoadD cpu group result) }
        ensures volume { P.volume pass.new ≡ P.volume pass.old }
    {
        let place = self.blocks.place_of(&self.layout, Spot::Group(cpu, group));
        let plan = Step::LoadD(cpu, group, Diffs::zeros());
        PackedDiffs::of_word(pass.load_at(&self.words, place, &plan))
    }

    /// Takes a CPU's eight differentials of a group, in pages, which become 0.
    #[inline]
    pub fn take<P: Caller>(&self, pass: &mut P, cpu: CpuId, group: GroupId) -> PackedDiffs
        requires table { IsFrom (P.pass pass.old) self.now }
        requires cpu { IsCpu self.now.facts.layout cpu.number }
        requires group { IsGroup self.now.facts.layout group.number }
        ensures made { MadeOne pages (P.pass pass.new) (P.pass pass.old) (Take cpu group result) }
        ensures volume { P.volume pass.new ≡ P.volume pass.old }
    {
        let place = self.blocks.place_of(&self.layout, Spot::Group(cpu, group));
        let plan = Step::Take(cpu, group, Diffs::zeros());
        PackedDiffs::of_word(pass.swap_at(&self.words, place, 0, &plan))
    }
}
