ghost use Rattle.std.specs.Prelude.{◌≡◌};
ghost use Rattle.vms_calls.specs.Common.{IsCpu, IsZone, Acknowledges, SetA, LoadA, pages};
ghost use Rattle.vms_seats.specs.Common.{IsFrom, MadeOne};

use crate::kept::is_number;
use crate::packed::{acknowledged_of, acknowledgement_word};
use crate::passes::{Caller, ControlPass};
use crate::spots::Spot;
use crate::tables::PageTable;
use vms_base::{CpuId, PlaceId};
use vms_core::Step;
use vms_seats::Works;

impl PageTable {
    /// Acknowledges the own threshold of a zone by the number of its sets that the pass loaded last, once the pass has
    /// taken every own group of the zone since.
    #[inline]
    pub fn acknowledge<P: Caller>(&self, pass: &mut P, zone: PlaceId, number: u32)
        requires table { IsFrom (P.pass pass.old) self.now }
        requires acknowledges { Acknowledges self.now.facts (P.pass pass.old).seen
            (P.pass pass.old).number zone number }
        ensures made { MadeOne pages (P.pass pass.new) (P.pass pass.old) (SetA zone number) }
        ensures volume { P.volume pass.new ≡ P.volume pass.old }
    {
        let Some(cpu) = pass.own() else {
            unreachable!();
        };
        let place = self
            .blocks
            .place_of(&self.layout, Spot::Acknowledgement(cpu, zone));
        let plan = Step::SetA(zone, number);
        pass.swap_at(
            &self.words,
            place,
            acknowledgement_word(Some(number)),
            &plan,
        );
    }

    /// Loads what a CPU acknowledged last of a zone: the number of a threshold's sets, or nothing. A CPU that
    /// acknowledged the newest threshold uses no larger one any more, so its peak becomes this threshold.
    #[inline]
    pub fn load_acknowledged(
        &self,
        pass: &mut ControlPass,
        cpu: CpuId,
        zone: PlaceId,
    ) -> Option<u32>
        requires table { IsFrom pass.old self.now }
        requires cpu { IsCpu self.now.facts.layout cpu.number }
        requires zone { IsZone self.now.facts.layout zone.number }
        ensures { MadeOne pages pass.new pass.old (LoadA cpu zone result) }
    {
        let place = self
            .blocks
            .place_of(&self.layout, Spot::Acknowledgement(cpu, zone));
        let newest = pass.kept.sets_at(&self.layout, cpu, zone);
        let plan = Step::LoadA(cpu, zone, None);
        let found = acknowledged_of(pass.worker.load_at(&self.words, place, &plan));
        pass.kept
            .keep_found(&self.layout, cpu, zone, is_number(found, newest));
        found
    }
}
