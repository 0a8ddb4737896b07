use crate::{PhaseMaker, PhaseRunner};
use std::alloc::Global;
use std::marker::Model;
use std::sync::Wait;
use vms_base::{Header, Memory};
use vms_calc::Rule;
use vms_phase::{LaneDone, PhaseDone};
use vms_script::PhaseScript;
use vms_standing::{Starts, Work};
use vms_standing_phase::{LaneCrew, StandingJob, run_standing_phase};
use vms_world::World;

/// The most lines of a phase whose lanes are made by threads that stand, and for which the lines are copied. A longer
/// phase is run apart: what its threads cost to start is little beside its lines, and a copy would be much.
const MOST_COPIED: usize = 16_384;

/// What makes the phases of a run, by rules of thresholds which are the kernel's: each lane on a thread that stands
/// while a scope is open, or on one that is started for a long phase.
#[derive(Drop)]
pub(crate) struct StandingMaker<
    's,
    'w,
    E,
    C: Starts<E>,
    W: Work<StandingJob<N, P>, Result<LaneDone, Memory>>,
    R,
    N: Rule + Copy,
    P: Rule + Copy,
    L: PhaseRunner,
> {
    pub(crate) rt: &'w R,
    pub(crate) alloc: Global,
    pub(crate) normal: N,
    pub(crate) pressure: P,
    pub(crate) crew: LaneCrew<'s, 'w, E, C, W, N, P>,
    pub(crate) apart: L,
}

impl<
    's,
    'w,
    E,
    C: Starts<E>,
    W: Work<StandingJob<N, P>, Result<LaneDone, Memory>>,
    R,
    N: Rule + Copy,
    P: Rule + Copy,
    L: PhaseRunner,
> Model for StandingMaker<'s, 'w, E, C, W, R, N, P, L> {
    ghost use Rattle.vms_run.specs.Rules.{AreKernelRules};
    ghost use Rattle.vms_run.specs.Runners.{RunsPhases};

    ghost Value = { Unit {0} };

    ghost view = { λ maker. tt };

    ghost invariant = { λ maker. AreKernelRules N.accepts N.answers P.accepts P.answers maker.normal maker.pressure
        × RunsPhases (L.accepts maker.apart) (L.returns maker.apart) };
}

impl<
    's,
    'w,
    E,
    C: Starts<E>,
    W: Work<StandingJob<N, P>, Result<LaneDone, Memory>>,
    R: Wait,
    N: Rule + Copy,
    P: Rule + Copy,
    L: PhaseRunner,
> PhaseMaker for StandingMaker<'s, 'w, E, C, W, R, N, P, L> {
    fn make(
        &mut self,
        header: &Header,
        world: World,
        script: &PhaseScript,
    ) -> Result<PhaseDone, Memory> {
        if MOST_COPIED < script.len() {
            return self.apart.run(header, world, script);
        }
        make_by_crew(
            self.rt,
            self.alloc,
            &mut self.crew,
            self.normal,
            self.pressure,
            header,
            world,
            script,
        )
    }
}

ghost use Rattle.std.specs.Prelude.{◌≡◌, All, IfOk};
ghost use Rattle.vms_answers.specs.Common.{answers_of, merged, HasPlace, told_by};
ghost use Rattle.vms_world.specs.Common.{IsHeader, left_by};
ghost use Rattle.vms_phase.specs.Common.{HaveFactsOf, histories_of};
ghost use Rattle.vms_run.specs.Rules.{AreKernelRules};
ghost use Rattle.vms_run.specs.Runners.{MayRun};
ghost use Rattle.vms_run.specs.Threads.{makes_on_threads};

/// Makes the lines of a phase from a world by these rules, which are the kernel's, each lane on a thread of the crew.
fn make_by_crew<E, C, W, R, N, P>(
    rt: &R,
    alloc: Global,
    crew: &mut LaneCrew<'_, '_, E, C, W, N, P>,
    normal: N,
    pressure: P,
    header: &Header,
    world: World,
    script: &PhaseScript,
) -> Result<PhaseDone, Memory>
where
    C: Starts<E>,
    W: Work<StandingJob<N, P>, Result<LaneDone, Memory>>,
    R: Wait,
    N: Rule + Copy,
    P: Rule + Copy,
    requires rules { AreKernelRules N.accepts N.answers P.accepts P.answers normal pressure }
    requires header { IsHeader header.now }
    requires start { MayRun header.now world script.now }
    ensures makes { IfOk result (λ done. makes_on_threads header.now world script.now (histories_of done.histories)) }
    ensures facts { IfOk result (λ done. HaveFactsOf header.now world done.histories) }
    ensures world { IfOk result (λ done.
        done.world ≡ left_by header.now world script.now (histories_of done.histories)) }
    ensures answers { IfOk result (λ done. answers_of header.now world script.now (histories_of done.histories)
        ≡ merged script.now (told_by done.lanes.items)) }
    ensures places { IfOk result (λ done. All (λ item. HasPlace done.lanes.items item.lane) script.now) }
{
    run_standing_phase(rt, alloc, crew, header, normal, pressure, world, script)
}
