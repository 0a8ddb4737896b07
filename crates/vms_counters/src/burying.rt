ghost use Rattle.std.specs.Prelude.{◌≡◌, IsTrue, ◌↔◌, MatchResult};
ghost use Rattle.vms_base.specs.declared.kinds.CpuState.TheVariants.{Dead};
ghost use Rattle.vms_counters.specs.Burials.{BuriesDead, RefusesBurial};
ghost use Rattle.vms_counters.specs.Handles.{IsControlHandle, control_of};

use crate::control_handles::ControlHandle;
use crate::errors::BuryError;
use crate::rating::MOST_SETS;
use crate::shared::SharedCounters;
use std::sync::Wait;
use vms_base::{CpuId, CpuState};
use vms_burial::ControlPasses;
use vms_calc::{Rule, Rules};

impl ControlHandle {
    /// Buries a CPU that is dead (`page_alloc_cpu_dead` of mm/page_alloc.c and `percpu_counter_cpu_dead` of
    /// lib/percpu_counter.c): its differentials, its events and its local parts move, it becomes absent, and then the
    /// thresholds are refreshed. The call looks first whether the CPU is dead, and waits for the locks of the percpu
    /// counters alone.
    pub fn bury<R: Wait, N: Rule, P: Rule>(
        &mut self,
        rt: &R,
        rules: &Rules<N, P>,
        cpu: CpuId,
    ) -> Result<(), BuryError>
        ensures made { MatchResult result (λ _. BuriesDead (N.answers rules.now.normal) self.new self.old cpu)
            (RefusesBurial self.new self.old cpu) }
        ensures same { self.new.tables ≡ self.old.tables }
    {
        bury_dead(rt, &self.shared, &mut self.passes, rules, cpu)
    }
}

/// Buries a CPU that is dead.
fn bury_dead<R: Wait, N: Rule, P: Rule>(
    rt: &R,
    shared: &SharedCounters,
    passes: &mut ControlPasses,
    rules: &Rules<N, P>,
    cpu: CpuId,
) -> Result<(), BuryError>
    requires { IsControlHandle shared.now.header shared.now.tables passes.old }
    ensures between { IsControlHandle shared.now.header shared.now.tables passes.new }
    ensures made { MatchResult result (λ _. BuriesDead (N.answers rules.now.normal)
        (control_of shared.now.header shared.now.tables passes.new)
        (control_of shared.now.header shared.now.tables passes.old) cpu)
        (RefusesBurial (control_of shared.now.header shared.now.tables passes.new)
        (control_of shared.now.header shared.now.tables passes.old) cpu) }
{
    let SharedCounters { header, tables } = shared;
    let table = &tables.pages;
    if cpu.number >= table.layout().cpus() {
        return Err(BuryError::NoCpu(cpu.number));
    }
    if !is_dead(table.load_state(&mut passes.page, cpu)) {
        return Err(BuryError::NotDead(cpu.number));
    }
    if table.most_sets(&passes.page) >= MOST_SETS {
        return Err(BuryError::TooOften);
    }
    vms_burial::bury(rt, tables, passes, header, rules, cpu);
    Ok(())
}

fn is_dead(state: CpuState) -> bool
    ensures { IsTrue result ↔ (state ≡ Dead) }
{
    match state {
        CpuState::Dead => true,
        CpuState::Online | CpuState::Absent => false,
    }
}
