//! Whether the condition of a step holds for the pass in a slot, where it asks more than one part of the registers.

ghost use Rattle.std.specs.Prelude.{◌↔◌, ℕ, IsTrue};
ghost use Rattle.vms_core.specs.Common.{History, Puts, SetsMark, SetsThreshold, pages, state_after};
ghost use Rattle.vms_core.specs.Conditions.{Misses};
ghost use Rattle.vms_registers.specs.Slots.{StandsIn};
ghost use Rattle.vms_page_registers.specs.Keeps.{KeepsPages};

use crate::PageRegisters;
use vms_base::{CounterId, CpuId, CpuState, Diffs, GroupId, PlaceId};
use vms_core::Facts;

const MOST_THRESHOLD: u32 = 125;

impl PageRegisters {
    /// Whether an exchange by the pass in a slot wins.
    pub(crate) fn puts(
        &self,
        facts: &Facts,
        slot: u32,
        pass: u64,
        counter: CounterId,
        list: Diffs,
        t: u32,
        delta: i64,
    ) -> bool
        requires { (h : History) × (held : ℕ → ℕ) × StandsIn pages facts.now facts.now.layout.cpus h held slot pass
            × KeepsPages facts.now h held self.now }
        ensures { (h : History) (held : ℕ → ℕ) → StandsIn pages facts.now facts.now.layout.cpus h held slot pass →
            KeepsPages facts.now h held self.now →
            IsTrue result ↔ Puts facts.now h (state_after facts.now h) pass counter list t delta }
    {
        if !self
            .passes
            .knows_for_put(facts, slot, pass, counter, list, t)
        {
            return false;
        }
        let cpu = CpuId { number: slot };
        if !self.words.finds_cpu(facts, cpu, CpuState::Online) {
            return false;
        }
        let group = facts.layout.group(counter);
        if !self.words.finds_group(facts, cpu, group, list) {
            return false;
        }
        self.peaks.may_spend(facts, cpu, counter, delta)
    }

    /// Whether an exchange by the pass in a slot loses.
    pub(crate) fn misses(
        &self,
        facts: &Facts,
        slot: u32,
        pass: u64,
        group: GroupId,
        list: Diffs,
    ) -> bool
        requires { (h : History) × (held : ℕ → ℕ) × StandsIn pages facts.now facts.now.layout.cpus h held slot pass
            × KeepsPages facts.now h held self.now }
        ensures { (h : History) (held : ℕ → ℕ) → StandsIn pages facts.now facts.now.layout.cpus h held slot pass →
            KeepsPages facts.now h held self.now →
            IsTrue result ↔ Misses facts.now h (state_after facts.now h) pass group list }
    {
        if !self.passes.knows_for_miss(facts, slot, pass, group, list) {
            return false;
        }
        self.words.finds_zeros(facts, slot, group)
    }

    /// Whether the pass in a slot may set a threshold of a CPU.
    pub(crate) fn sets_threshold(
        &self,
        facts: &Facts,
        slot: u32,
        cpu: CpuId,
        place: PlaceId,
        t: u32,
    ) -> bool
        requires { (h : History) × (held : ℕ → ℕ) × (p : ℕ)
            × StandsIn pages facts.now facts.now.layout.cpus h held slot p × KeepsPages facts.now h held self.now }
        ensures { (h : History) (held : ℕ → ℕ) (p : ℕ) →
            StandsIn pages facts.now facts.now.layout.cpus h held slot p → KeepsPages facts.now h held self.now →
            IsTrue result ↔ SetsThreshold facts.now h (state_after facts.now h) p cpu place t }
    {
        if slot != facts.layout.cpus() || place.number >= facts.layout.places() {
            return false;
        }
        if t < 1 || t > MOST_THRESHOLD {
            return false;
        }
        if !self.words.finds_cpu(facts, cpu, CpuState::Online) {
            return false;
        }
        if place.number as usize >= facts.layout.zones().len() {
            return true;
        }
        let mark = self.words.mark(facts, place);
        self.peaks.covers_threshold(facts, cpu, place, t, mark)
    }

    /// Whether the pass in a slot may set the drift mark of a zone.
    pub(crate) fn sets_mark(&self, facts: &Facts, slot: u32, zone: PlaceId, mark: u64) -> bool
        requires { (h : History) × (held : ℕ → ℕ) × (p : ℕ)
            × StandsIn pages facts.now facts.now.layout.cpus h held slot p × KeepsPages facts.now h held self.now }
        ensures { (h : History) (held : ℕ → ℕ) (p : ℕ) →
            StandsIn pages facts.now facts.now.layout.cpus h held slot p → KeepsPages facts.now h held self.now →
            IsTrue result ↔ SetsMark facts.now h p zone mark }
    {
        if slot != facts.layout.cpus() || zone.number as usize >= facts.layout.zones().len() {
            return false;
        }
        if mark >= 1 << 43 {
            return false;
        }
        self.peaks.covers_mark(facts, zone, mark)
    }
}
