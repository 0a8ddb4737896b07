//! Whether the numbers that stand meet the condition of a step, or what it asks of them.

ghost use Rattle.std.specs.Prelude.{◌≡◌, ◌↔◌, ◌<◌, ℕ, IsTrue};
ghost use Rattle.vms_history.specs.Common.{IsCounter, IsCpu, IsGroup, IsItem};
ghost use Rattle.vms_core.specs.Common.{FindsGroup, HasShape, History, SetsAbsent, TellsGroup, cpu_at, eight_zeros};
ghost use Rattle.vms_core.specs.Common.{pages, system_at, value_at};
ghost use Rattle.vms_core.specs.Conditions.{LoadsAcknowledged, LoadsMark, LoadsThreshold};
ghost use Rattle.vms_registers.specs.Slots.{StandsIn};
ghost use Rattle.vms_page_words.specs.Words.{state_of};

use crate::PageWords;
use crate::cells::zone_cell;
use vms_base::{CounterId, CpuId, CpuState, Diffs, GroupId, ItemId, PlaceId};
use vms_core::Facts;

impl PageWords {
    /// Whether a load by the pass in a slot finds this threshold of its own CPU in a place, set so many times.
    pub fn loads_threshold(
        &self,
        facts: &Facts,
        slot: u32,
        place: PlaceId,
        t: u32,
        number: u32,
    ) -> bool
        requires { HasShape facts.now.layout (state_of self.now) }
        ensures { (h : History) (held : ℕ → ℕ) (p : ℕ) →
            StandsIn pages facts.now facts.now.layout.cpus h held slot p →
            IsTrue result ↔ LoadsThreshold facts.now h (state_of self.now) p place t number }
    {
        if slot >= facts.layout.cpus() || place.number >= facts.layout.places() {
            return false;
        }
        let cpu = CpuId { number: slot };
        self.threshold(facts, cpu, place) == t
            && self.threshold_sets(facts, cpu, place) == number as u64
    }

    /// Whether a load or a take of a CPU's differentials of a group finds this list.
    pub fn finds_group(&self, facts: &Facts, cpu: CpuId, group: GroupId, list: Diffs) -> bool
        requires { HasShape facts.now.layout (state_of self.now) }
        ensures { IsTrue result ↔ FindsGroup facts.now (state_of self.now) cpu group list }
    {
        if cpu.number >= facts.layout.cpus() || group.number >= facts.layout.groups() {
            return false;
        }
        self.holds_list(facts, cpu, group, list)
    }

    /// Whether a group of the CPU that is a slot's own holds eight zeros, as an exchange that loses finds it.
    pub fn finds_zeros(&self, facts: &Facts, slot: u32, group: GroupId) -> bool
        requires { HasShape facts.now.layout (state_of self.now) }
        ensures { IsTrue result ↔ (IsCpu facts.now.layout slot × IsGroup facts.now.layout group.number
            × TellsGroup (state_of self.now) slot group.number eight_zeros) }
    {
        self.finds_group(facts, CpuId { number: slot }, group, Diffs::zeros())
    }

    /// Whether a load of a global value finds this one.
    pub fn finds_value(&self, facts: &Facts, counter: CounterId, v: i64) -> bool
        requires { HasShape facts.now.layout (state_of self.now) }
        ensures { IsTrue result ↔ (IsCounter facts.now.layout counter.number
            × (value_at (state_of self.now) counter.number ≡ v)) }
    {
        counter.number < facts.layout.counters() && self.place.get(counter.number as usize) == v
    }

    /// Whether a load of a system-wide value finds this one.
    pub fn finds_system(&self, facts: &Facts, item: ItemId, v: i64) -> bool
        requires { HasShape facts.now.layout (state_of self.now) }
        ensures { IsTrue result ↔ (IsItem facts.now.layout item.number
            × (system_at (state_of self.now) item.number ≡ v)) }
    {
        item.number < facts.layout.items() && self.system.get(item.number as usize) == v
    }

    /// Whether a load of a zone's drift mark finds this one, set so many times.
    pub fn loads_mark(&self, facts: &Facts, zone: PlaceId, mark: u64, number: u32) -> bool
        requires { HasShape facts.now.layout (state_of self.now) }
        ensures { IsTrue result ↔ LoadsMark facts.now (state_of self.now) zone mark number }
    {
        let at = zone.number as usize;
        if at >= facts.layout.zones().len() {
            return false;
        }
        self.mark.get(at) == mark && self.mark_sets.get(at) == number as u64
    }

    /// Whether there is this CPU and its state is this one.
    pub fn finds_cpu(&self, facts: &Facts, cpu: CpuId, state: CpuState) -> bool
        requires { HasShape facts.now.layout (state_of self.now) }
        ensures { IsTrue result ↔ (IsCpu facts.now.layout cpu.number
            × (cpu_at (state_of self.now) cpu.number ≡ state)) }
    {
        cpu.number < facts.layout.cpus() && self.cpu(facts, cpu) == state
    }

    /// Whether the pass in a slot may make a CPU absent.
    pub fn sets_absent(&self, facts: &Facts, slot: u32, cpu: CpuId) -> bool
        requires { HasShape facts.now.layout (state_of self.now) }
        ensures { (h : History) (held : ℕ → ℕ) (p : ℕ) →
            StandsIn pages facts.now facts.now.layout.cpus h held slot p →
            IsTrue result ↔ SetsAbsent facts.now h (state_of self.now) p cpu }
    {
        if slot != facts.layout.cpus() || !self.finds_cpu(facts, cpu, CpuState::Dead) {
            return false;
        }
        self.hides_nothing(facts, cpu)
    }

    /// Whether a load by the pass in a slot finds that a CPU acknowledged this number of a zone's threshold last.
    pub fn loads_acknowledged(
        &self,
        facts: &Facts,
        slot: u32,
        cpu: CpuId,
        zone: PlaceId,
        told: Option<u32>,
    ) -> bool
        requires { HasShape facts.now.layout (state_of self.now) }
        ensures { (h : History) (held : ℕ → ℕ) (p : ℕ) →
            StandsIn pages facts.now facts.now.layout.cpus h held slot p →
            IsTrue result ↔ LoadsAcknowledged facts.now h (state_of self.now) p cpu zone told }
    {
        if slot != facts.layout.cpus()
            || cpu.number >= facts.layout.cpus()
            || zone.number as usize >= facts.layout.zones().len()
        {
            return false;
        }
        self.acknowledged.get(zone_cell(&facts.layout, cpu, zone)) == told
    }
}
