ghost use Rattle.std.specs.Prelude.{◌≡◌, All, IfOk};
ghost use Rattle.vms_answers.specs.Common.{answers_of, merged, HasPlace, told_by};
ghost use Rattle.vms_world.specs.Common.{IsHeader, left_by};
ghost use Rattle.vms_phase.specs.Common.{HaveFactsOf, histories_of};
ghost use Rattle.vms_run.specs.Rules.{AreKernelRules};
ghost use Rattle.vms_run.specs.Runners.{MayRun};
ghost use Rattle.vms_run.specs.Threads.{makes_on_threads};

use std::alloc::Global;
use std::sync::Wait;
use std::thread::Threads;
use vms_base::{Header, Memory};
use vms_calc::{Rule, Rules};
use vms_jobs::Gate;
use vms_phase::{PhaseDone, run_phase};
use vms_script::PhaseScript;
use vms_world::World;

/// Runs the lines of a phase from a world by these rules, which are the kernel's, each lane on a thread that is started
/// for it.
pub(crate) fn run_by<R: Threads + Wait + Sync, G: Gate, N: Rule + Sync, P: Rule + Sync>(
    rt: &R,
    alloc: Global,
    gate: &G,
    header: &Header,
    normal: N,
    pressure: P,
    world: World,
    script: &PhaseScript,
) -> Result<PhaseDone, Memory>
    requires header { IsHeader header.now }
    requires start { MayRun header.now world script.now }
    requires rules { AreKernelRules N.accepts N.answers P.accepts P.answers normal pressure }
    ensures makes { IfOk result (λ done. makes_on_threads header.now world script.now (histories_of done.histories)) }
    ensures facts { IfOk result (λ done. HaveFactsOf header.now world done.histories) }
    ensures world { IfOk result (λ done.
        done.world ≡ left_by header.now world script.now (histories_of done.histories)) }
    ensures answers { IfOk result (λ done. answers_of header.now world script.now (histories_of done.histories)
        ≡ merged script.now (told_by done.lanes.items)) }
    ensures places { IfOk result (λ done. All (λ item. HasPlace done.lanes.items item.lane) script.now) }
{
    let rules = Rules::make(normal, pressure);
    run_phase(rt, alloc, gate, header, &rules, world, script)
}
