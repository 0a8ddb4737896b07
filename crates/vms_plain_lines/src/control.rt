use crate::PlainTables;
use crate::laws::event_laws;
use vms_base::{CpuId, Header};
use vms_calc::{Rule, Rules};
use vms_event_core::EventCall;

impl PlainTables {
    ghost use Rattle.std.specs.Prelude.{◌≡◌, ◌≢◌, ℕ, ◌+◌, ◌-◌, ◌<◌, ◌≤◌, ◌^◌, length, false, None};
    ghost use Rattle.vms_world.specs.Common.{CpuId, Absent, HasOnline, state_at, IsHeader, IsCpu, State, cpu_at};
    ghost use Rattle.vms_world.specs.Common.{with_cpu, most_sets, IsEvent, word_at, Item, Control};
    ghost use Rattle.vms_base.specs.declared.kinds.CpuState.TheVariants.{Dead as DeadCpu, Online};
    ghost use Rattle.vms_pcpu_core.specs.States.{counters_of};
    ghost use Rattle.vms_plain_events.specs.Common.{HasWords, MovesWords};
    ghost use Rattle.vms_plain_lines.specs.PlainStates.{GoesOnAlways};
    ghost use Rattle.vms_plain_pages.specs.Common.{IsSmallState, FoldsCpu};
    ghost use Rattle.vms_plain_pcpu.specs.Common.{HasLocals, HasRoomFor, MovesLocals};
    ghost use Rattle.vms_plain_control.specs.Common.{HasAllPeaks, SetAtMost, SetsEachAtMost, SetsOnly};
    ghost use Rattle.vms_text.specs.declared.acts.Act.TheVariants.{Dead};

    /// Buries a dead CPU: what it has counted goes to the lowest-numbered CPU that is online, what it holds of percpu
    /// counters to the shared parts, and it is folded and becomes absent (`vm_events_fold_cpu` and `vmstat_cpu_dead` of
    /// mm/vmstat.c, `percpu_counter_cpu_dead` of lib/percpu_counter.c).
    pub fn bury<N: Rule, P: Rule>(&mut self, rules: &Rules<N, P>, header: &Header, cpu: CpuId)
        requires header { IsHeader header.now }
        requires numbers { IsSmallState header.now.layout (2 ^ 61) self.old.pages }
        requires full { HasAllPeaks header.now.layout self.old.peaks }
        requires some_online { HasOnline header.now.layout self.old.pages.cpu }
        requires room { SetAtMost header.now.layout (most_sets - 1) self.old.pages }
        requires cpu { IsCpu header.now.layout cpu.number }
        requires dead { cpu_at self.old.pages cpu.number ≡ DeadCpu }
        requires was_dead { state_at self.old.opening cpu.number ≡ DeadCpu }
        requires was_online { HasOnline header.now.layout self.old.opening }
        requires opening { length self.old.opening ≡ header.now.layout.cpus }
        requires few { header.now.layout.cpus ≤ 128 }
        requires events { HasWords self.old.events header.now.layout.cpus }
        requires words { (c k : ℕ) → IsCpu header.now.layout c → IsEvent k → word_at self.old.events c k < 2 ^ 62 }
        requires counters { (j : ℕ) → j < counters_of self.old.counters → HasRoomFor self.old.counters j }
        requires one_batch_each { counters_of self.old.counters ≡ length header.now.counters }
        requires few_counters { counters_of self.old.counters < 2 ^ 32 }
        requires locals { HasLocals self.old.counters (cpu.number + 1) }
        ensures pages { (folded : State) × FoldsCpu header.now.layout false cpu.number self.old.pages folded
            × SetsOnly (with_cpu folded cpu.number Absent) self.new.pages }
        ensures events { (into : CpuId) × (state_at self.old.opening into.number ≡ Online)
            × ((b : ℕ) → b < into.number → state_at self.old.opening b ≢ Online)
            × MovesWords cpu.number into.number self.old.events self.new.events }
        ensures counters { MovesLocals cpu.number self.old.counters self.new.counters }
        ensures opening { self.new.opening ≡ self.old.opening }
        ensures sets { SetsEachAtMost header.now.layout 1 self.old.pages self.new.pages }
        ensures full { HasAllPeaks header.now.layout self.new.peaks }
        ensures goes_on { (item : Item) → item.lane ≡ Control → item.act ≡ Dead cpu →
            GoesOnAlways header.now (P.answers rules.now.pressure) (N.answers rules.now.normal) item self.old self.new
            None }
    {
        event_laws();
        vms_plain_events::call(
            &mut self.events,
            self.opening.as_slice(),
            None,
            EventCall::FoldDead(cpu),
        );
        vms_plain_pcpu::fold_dead(&mut self.counters, cpu);
        vms_plain_control::bury(&mut self.pages, &mut self.peaks, header, rules, cpu);
    }
}
