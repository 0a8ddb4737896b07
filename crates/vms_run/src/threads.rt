use crate::PhaseMaker;
use crate::handing::hand_on;
use crate::run_phases::{Histories, RunPhase};
use std::alloc::Global;
use std::marker::Model;
use vms_base::{Header, Memory};
use vms_memo::Memo;
use vms_phase::PhaseDone;
use vms_replay::{Engine, WaitPrinter};
use vms_script::PhaseScript;
use vms_world::World;

/// The engine that has each phase run, with a thread for each lane that has lines, and keeps the phases.
#[derive(Drop)]
pub struct OnThreads<F: PhaseMaker> {
    maker: F,
    histories: Histories,
}

impl<F: PhaseMaker> Model for OnThreads<F> {
    ghost use Rattle.std.specs.Prelude.{List};
    ghost use Rattle.vms_replay.specs.Common.{PastPhase};

    ghost Value = { List PastPhase };

    ghost view = { λ engine. engine.histories };
}

impl<F: PhaseMaker> OnThreads<F> {
    ghost use Rattle.std.specs.Prelude.{◌≡◌};

    /// The engine of this maker, after these phases.
    pub fn make(maker: F, histories: Histories) -> OnThreads<F>
        ensures { result ≡ histories }
    {
        OnThreads { maker, histories }
    }

    /// The phases that were made.
    pub fn into_histories(self) -> Histories
        ensures { result ≡ self }
    {
        let OnThreads {
            maker: _,
            histories,
        } = self;
        histories
    }
}

impl<F: PhaseMaker> Engine for OnThreads<F> {
    ghost use Rattle.std.specs.Prelude.{Some};
    ghost use Rattle.vms_run.specs.Threads.{makes_on_threads};

    ghost Makes = { makes_on_threads };

    ghost made = { λ engine. Some engine };

    fn makes_lines() {}

    fn run_phase(
        &mut self,
        alloc: Global,
        world: World,
        header: &Header,
        script: &PhaseScript,
        printer: &mut WaitPrinter,
    ) -> Result<World, Memory> {
        let made = run_one(&mut self.maker, alloc, world, header, script, printer);
        self.histories.keep(made)
    }
}

ghost use Rattle.std.specs.Prelude.{IfOk};
ghost use Rattle.vms_world.specs.Common.{IsHeader};
ghost use Rattle.vms_replay.specs.Common.{Prints};
ghost use Rattle.vms_run.specs.Runners.{IsOneRun, MayRun};

/// Has a phase run, and hands on what its lines answered. Returns the world that it leaves, and the phase.
fn run_one<F: PhaseMaker>(
    maker: &mut F,
    alloc: Global,
    world: World,
    header: &Header,
    script: &PhaseScript,
    printer: &mut WaitPrinter,
) -> Result<(World, RunPhase), Memory>
    requires header { IsHeader header.now }
    requires may { MayRun header.now world script.now }
    ensures { IfOk result (λ made. IsOneRun header.now world script.now
        (λ told. Prints header.now printer.old told printer.new) made.0 made.1) }
{
    let before = Memo::of(alloc, &world)?;
    let lines = Memo::of(alloc, script)?;
    let PhaseDone {
        world,
        lanes,
        histories,
    } = maker.make(header, world, script)?;
    hand_on(alloc, header, script.as_slice(), lanes.as_slice(), printer)?;
    let phase = RunPhase {
        world: before,
        script: lines,
        histories,
    };
    Ok((world, phase))
}
