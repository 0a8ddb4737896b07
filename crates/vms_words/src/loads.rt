ghost use Rattle.std.specs.Prelude.{◌≡◌, IsSome};
ghost use Rattle.vms_calls.specs.Common.{IsCpu, IsPlace, IsZone, IsCounter, IsItem, LoadT, LoadG, LoadS, LoadM, LoadO};
ghost use Rattle.vms_calls.specs.Common.{pages};
ghost use Rattle.vms_seats.specs.Common.{IsFrom, MadeOne};

use crate::packed::{cpu_of, mark_of, threshold_of};
use crate::passes::Caller;
use crate::spots::Spot;
use crate::tables::PageTable;
use vms_base::{CounterId, CpuId, CpuState, ItemId, PlaceId, decode};
use vms_core::{MarkRead, Step, Threshold};

impl PageTable {
    /// Loads the global value of a counter, in pages.
    #[inline]
    pub fn load_place<P: Caller>(&self, pass: &mut P, counter: CounterId) -> i64
        requires table { IsFrom (P.pass pass.old) self.now }
        requires counter { IsCounter self.now.facts.layout counter.number }
        ensures made { MadeOne pages (P.pass pass.new) (P.pass pass.old) (LoadG counter result) }
        ensures volume { P.volume pass.new ≡ P.volume pass.old }
    {
        let place = self.blocks.place_of(&self.layout, Spot::Value(counter));
        decode(pass.load_at(&self.words, place, &Step::LoadG(counter, 0)))
    }

    /// Loads the system-wide value of an item, in pages.
    #[inline]
    pub fn load_system<P: Caller>(&self, pass: &mut P, item: ItemId) -> i64
        requires table { IsFrom (P.pass pass.old) self.now }
        requires item { IsItem self.now.facts.layout item.number }
        ensures made { MadeOne pages (P.pass pass.new) (P.pass pass.old) (LoadS item result) }
        ensures volume { P.volume pass.new ≡ P.volume pass.old }
    {
        let place = self.blocks.place_of(&self.layout, Spot::System(item));
        decode(pass.load_at(&self.words, place, &Step::LoadS(item, 0)))
    }

    /// Loads the own threshold of a place, and how often it was set in this phase.
    #[inline]
    pub fn load_threshold<P: Caller>(&self, pass: &mut P, place: PlaceId) -> Threshold
        requires table { IsFrom (P.pass pass.old) self.now }
        requires place { IsPlace self.now.facts.layout place.number }
        requires owns { IsSome (P.pass pass.old).cpu }
        ensures made { MadeOne pages (P.pass pass.new) (P.pass pass.old) (LoadT place result.t result.number) }
        ensures volume { P.volume pass.new ≡ P.volume pass.old }
    {
        let Some(cpu) = pass.own() else {
            unreachable!();
        };
        let at = self
            .blocks
            .place_of(&self.layout, Spot::Threshold(cpu, place));
        threshold_of(pass.load_at(&self.words, at, &Step::LoadT(place, 0, 0)))
    }

    /// Loads the drift mark of a zone, and how often it was set in this phase.
    #[inline]
    pub fn load_mark<P: Caller>(&self, pass: &mut P, zone: PlaceId) -> MarkRead
        requires table { IsFrom (P.pass pass.old) self.now }
        requires zone { IsZone self.now.facts.layout zone.number }
        ensures made { MadeOne pages (P.pass pass.new) (P.pass pass.old) (LoadM zone result.mark result.number) }
        ensures volume { P.volume pass.new ≡ P.volume pass.old }
    {
        let place = self.blocks.place_of(&self.layout, Spot::Mark(zone));
        mark_of(pass.load_at(&self.words, place, &Step::LoadM(zone, 0, 0)))
    }

    /// Loads whether a CPU is online, dead or absent.
    #[inline]
    pub fn load_state<P: Caller>(&self, pass: &mut P, cpu: CpuId) -> CpuState
        requires table { IsFrom (P.pass pass.old) self.now }
        requires cpu { IsCpu self.now.facts.layout cpu.number }
        ensures made { MadeOne pages (P.pass pass.new) (P.pass pass.old) (LoadO cpu result) }
        ensures volume { P.volume pass.new ≡ P.volume pass.old }
    {
        let place = self.blocks.place_of(&self.layout, Spot::Cpu(cpu));
        cpu_of(pass.load_at(&self.words, place, &Step::LoadO(cpu, CpuState::Online)))
    }
}
