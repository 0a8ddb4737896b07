use crate::engines::GroupEngine;
use crate::runners::GroupRunner;
use crate::runs::{GroupRun, GroupRuns};
use std::alloc::Global;
use std::marker::Model;
use vms_base::Memory;
use vms_group_core::Tree;
use vms_group_phase::{GroupItem, GroupPhaseDone, GroupWorld, NumberedValue};
use vms_memo::Memo;

/// The engine that has each phase run, with a thread for each lane that has lines, and keeps the phases.
#[derive(Drop)]
pub(crate) struct OnThreads<F: GroupRunner> {
    alloc: Global,
    runner: F,
    runs: GroupRuns,
}

impl<F: GroupRunner> Model for OnThreads<F> {
    ghost use Rattle.vms_groups.specs.GroupRunners.{Running, RunsPhases};

    ghost Value = { Running F };

    ghost view = { λ engine. record { runner = engine.runner; made = engine.runs } };

    ghost invariant = { λ engine. RunsPhases (F.accepts engine.runner) (F.returns engine.runner) };
}

impl<F: GroupRunner> OnThreads<F> {
    ghost use Rattle.std.specs.Prelude.{◌≡◌};
    ghost use Rattle.vms_groups.specs.GroupRunners.{RunsPhases};

    /// The engine of this runner, after these phases.
    pub(crate) fn make(alloc: Global, runner: F, runs: GroupRuns) -> OnThreads<F>
        requires { RunsPhases (F.accepts runner) (F.returns runner) }
        ensures { result ≡ record { runner = runner; made = runs } }
    {
        OnThreads {
            alloc,
            runner,
            runs,
        }
    }

    /// The phases that were made.
    pub(crate) fn into_runs(self) -> GroupRuns
        ensures { result ≡ self.made }
    {
        let OnThreads {
            alloc: _,
            runner: _,
            runs,
        } = self;
        runs
    }
}

impl<F: GroupRunner> GroupEngine for OnThreads<F> {
    ghost use Rattle.std.specs.Prelude.{Some};

    ghost made = { λ engine. Some engine.made };

    fn make_phase(
        &mut self,
        tree: &Tree,
        world: GroupWorld,
        items: Vec<GroupItem>,
    ) -> Result<(GroupWorld, Vec<NumberedValue>), Memory> {
        let (world, values, run) = run_one(self.alloc, &self.runner, tree, world, items)?;
        self.runs.keep(run)?;
        Ok((world, values))
    }
}

ghost use Rattle.std.specs.Prelude.{◌≡◌, IfOk};
ghost use Rattle.vms_group_phase.specs.Common.{group_values, left_group_world};
ghost use Rattle.vms_groups.specs.GroupRunners.{MayRun, RunsPhases};
ghost use Rattle.vms_groups.specs.PastPhases.{IsPhaseFrom};

/// Has a phase run. Returns the world that it leaves, what its lines answered with a value, and the phase.
fn run_one<F: GroupRunner>(
    alloc: Global,
    runner: &F,
    tree: &Tree,
    world: GroupWorld,
    items: Vec<GroupItem>,
) -> Result<(GroupWorld, Vec<NumberedValue>, GroupRun), Memory>
    requires runner { RunsPhases (F.accepts runner.now) (F.returns runner.now) }
    requires may { MayRun tree.now world items.items }
    ensures from { IfOk result (λ made. IsPhaseFrom tree.now world items.items made.2) }
    ensures world { IfOk result (λ made. made.0 ≡ left_group_world tree.now world items.items made.2.events) }
    ensures told { IfOk result (λ made. made.1.items ≡ group_values tree.now world items.items made.2.events) }
{
    let lines = Memo::of(alloc, &items)?;
    let GroupPhaseDone {
        world,
        values,
        history,
    } = runner.run(tree, world, items.as_slice())?;
    let run = GroupRun {
        items: lines,
        history,
    };
    Ok((world, values, run))
}
