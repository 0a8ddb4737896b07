use vms_base::{Header, Memory};
use vms_phase::PhaseDone;
use vms_script::PhaseScript;
use vms_world::World;

/// What runs the lines of a phase from a world. Every closure over them is one.
pub trait PhaseRunner: Drop {
    ghost use Rattle.std.specs.Prelude.{List, Result};
    ghost use Rattle.vms_world.specs.Common.{Memory, Header, Item};
    ghost use Rattle.vms_phase.specs.declared.phases.PhaseDone.{PhaseDone};
    ghost use Rattle.vms_world.specs.declared.worlds.World.{World};

    // The runner may be called with these lines of a phase from this world.
    ghost accepts: { Self → Header → World → List Item → Type 0 };

    // The last is what it may return then.
    ghost returns: { Self → Header → World → List Item → Result PhaseDone Memory → Type 0 };

    fn run(&self, header: &Header, world: World, script: &PhaseScript) -> Result<PhaseDone, Memory>
        requires { accepts self.now header.now world script.now }
        ensures { returns self.now header.now world script.now result };
}

impl<F: Fn(&Header, World, &PhaseScript) -> Result<PhaseDone, Memory>> PhaseRunner for F {
    ghost use Rattle.vms_run.specs.Runners.{AcceptsPhase, ReturnsPhase};

    ghost accepts = { AcceptsPhase F.Fn };

    ghost returns = { ReturnsPhase F.Fn };

    fn run(
        &self,
        header: &Header,
        world: World,
        script: &PhaseScript,
    ) -> Result<PhaseDone, Memory> {
        self(header, world, script)
    }
}

ghost use Rattle.std.specs.Prelude.{IfOk};
ghost use Rattle.vms_world.specs.Common.{IsHeader};
ghost use Rattle.vms_run.specs.Runners.{IsRun, MayRun};

/// What runs the phases of a trace one after another, and keeps what it needs from one to the next.
pub trait PhaseMaker: Drop {
    fn make(
        &mut self,
        header: &Header,
        world: World,
        script: &PhaseScript,
    ) -> Result<PhaseDone, Memory>
        requires header { IsHeader header.now }
        requires start { MayRun header.now world script.now }
        ensures { IfOk result (IsRun header.now world script.now) };
}
