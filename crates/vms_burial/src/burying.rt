ghost use Rattle.std.specs.Prelude.{◌≡◌, suc, ◌<◌, ◌≤◌, ◌^◌, false, List, [], ◌∷◌, ◌++◌};
ghost use Rattle.vms_base.specs.declared.kinds.CpuState.TheVariants.{Dead};
ghost use Rattle.vms_world.specs.Common.{IsHeader, IsCpu, IsFold, Buries, Step, SetO, cpu_at, pages, most_sets, own};
ghost use Rattle.vms_core.specs.Own.{CarriesNothing};
ghost use Rattle.vms_core.specs.Pages.{state_after};
ghost use Rattle.vms_pcpu_core.specs.States.{counters_of};
ghost use Rattle.vms_seats.specs.Common.{Made};
ghost use Rattle.vms_burial.specs.Burials.{IsBuried, FoldsDeadEvents, FoldsDeadLocals};
ghost use Rattle.vms_burial.specs.Passes.{AreAlike, passes_of};
ghost use Rattle.vms_tables.specs.Common.{AreFrom, AreTables};
ghost use Rattle.vms_words.specs.Common.{largest_sets};

use crate::passes::ControlPasses;
use crate::rules::Least;
use std::sync::Wait;
use vms_base::{CpuId, Header};
use vms_calc::{Rule, Rules};
use vms_calls::{control_passes_know_by_own_steps, thresholds_may_be_set};
use vms_control::refresh_thresholds;
use vms_core::laws_are_kept;
use vms_count::fold;
use vms_tables::Tables;
use vms_words::Caller;

/// Folds a dead CPU in all tables, and makes it absent.
fn take_away<R: Wait>(rt: &R, tables: &Tables, passes: &mut ControlPasses, cpu: CpuId)
    requires alike { AreAlike tables.now }
    requires passes { AreFrom tables.now (passes_of passes.old) }
    requires few { counters_of tables.now.counters.facts.base < 2 ^ 32 }
    requires cpu { IsCpu tables.now.pages.facts.layout cpu.number }
    requires dead { cpu_at (state_after tables.now.pages.facts passes.old.page.seen) cpu.number ≡ Dead }
    requires nothing { CarriesNothing tables.now.pages.facts.layout
        (own passes.old.page.seen passes.old.page.number) }
    ensures page { (steps : List Step) × IsFold tables.now.pages.facts.layout false cpu steps
        × Made pages passes.new.page passes.old.page (steps ++ (SetO cpu ∷ [])) }
    ensures event { FoldsDeadEvents tables.now.events.facts passes.new.event passes.old.event cpu }
    ensures pcpu { FoldsDeadLocals tables.now.counters.facts passes.new.pcpu passes.old.pcpu cpu }
    ensures buried { IsBuried passes.new cpu }
    ensures carries { CarriesNothing tables.now.pages.facts.layout
        (own passes.new.page.seen passes.new.page.number) }
    ensures sets { largest_sets tables.now.pages.facts.layout
        (state_after tables.now.pages.facts passes.new.page.seen)
        ≡ largest_sets tables.now.pages.facts.layout
        (state_after tables.now.pages.facts passes.old.page.seen) }
{
    thresholds_may_be_set::<Least>();
    laws_are_kept();
    passes.page.is_live();
    fold(&tables.pages, &mut passes.page, cpu);
    tables.events.fold_events(&mut passes.event, cpu);
    tables.counters.fold_dead(rt, &mut passes.pcpu, cpu);
    tables.pages.set_absent(&mut passes.page, cpu);
}

/// Buries a dead CPU (`page_alloc_cpu_dead` of mm/page_alloc.c and `percpu_counter_cpu_dead` of lib/percpu_counter.c):
/// its differentials, its events and its local parts move, it becomes absent, and then the thresholds are refreshed.
/// The call waits for the locks of the percpu counters alone. When it returns all that the CPU had has moved once,
/// whoever else folded it. Linux folds the events first.
pub fn bury<R: Wait, N: Rule, P: Rule>(
    rt: &R,
    tables: &Tables,
    passes: &mut ControlPasses,
    header: &Header,
    rules: &Rules<N, P>,
    cpu: CpuId,
)
    requires header { IsHeader header.now }
    requires tables { AreTables header.now tables.now }
    requires passes { AreFrom tables.now (passes_of passes.old) }
    requires cpu { IsCpu tables.now.pages.facts.layout cpu.number }
    requires dead { cpu_at (state_after tables.now.pages.facts passes.old.page.seen) cpu.number ≡ Dead }
    requires nothing { CarriesNothing tables.now.pages.facts.layout
        (own passes.old.page.seen passes.old.page.number) }
    requires room { largest_sets tables.now.pages.facts.layout
        (state_after tables.now.pages.facts passes.old.page.seen) < most_sets }
    ensures page { (steps : List Step) × Buries tables.now.pages.facts (N.answers rules.now.normal) cpu
        passes.old.page.number passes.old.page.seen steps × Made pages passes.new.page passes.old.page steps }
    ensures event { FoldsDeadEvents tables.now.events.facts passes.new.event passes.old.event cpu }
    ensures pcpu { FoldsDeadLocals tables.now.counters.facts passes.new.pcpu passes.old.pcpu cpu }
    ensures buried { IsBuried passes.new cpu }
    ensures carries { CarriesNothing tables.now.pages.facts.layout
        (own passes.new.page.seen passes.new.page.number) }
    ensures sets { largest_sets tables.now.pages.facts.layout
        (state_after tables.now.pages.facts passes.new.page.seen)
        ≤ suc (largest_sets tables.now.pages.facts.layout
        (state_after tables.now.pages.facts passes.old.page.seen)) }
{
    control_passes_know_by_own_steps();
    laws_are_kept();
    passes.page.is_live();
    take_away(rt, tables, passes, cpu);
    refresh_thresholds(&tables.pages, &mut passes.page, header, rules);
}
