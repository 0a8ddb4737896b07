ghost use Rattle.std.specs.Prelude.{IfOk};
ghost use Rattle.vms_groups.specs.GroupAnswers.{AnswersGroups, AnswersWith};
ghost use Rattle.vms_groups.specs.GroupRunners.{IsRun, MayRun, RunsPhases};

use crate::engines::GroupEngine;
use crate::jobs::GroupsJob;
use crate::laws::phases_lead_through_texts;
use crate::runners::GroupRunner;
use crate::runs::GroupRuns;
use crate::threads::OnThreads;
use std::alloc::Global;
use std::mem::replace;
use std::thread::Threads;
use vms_base::Memory;
use vms_group_core::Tree;
use vms_group_phase::{Gate, GroupItem, GroupPhaseDone, GroupWorld, run_group_phase};
use vms_io::{Sink, Source};
use vms_stream::{Status, stream};

/// The command `groups`: makes each phase of a trace of groups with a thread for each lane, writes refusals, values and
/// reports in the order of its lines, and appends the phases to those that were made before. Each lane calls the gate
/// before each of its lines.
pub fn tool_groups<R: Threads + Sync, G: Gate, S: Source, K: Sink>(
    rt: &R,
    alloc: Global,
    src: &mut S,
    out: &mut K,
    gate: &G,
    made: &mut GroupRuns,
) -> Status
    ensures { AnswersGroups made.old made.new S.remaining S.faults S.calls K.written K.faults K.calls src.old src.new
        out.old out.new result }
{
    let kept = replace(made, GroupRuns::make(alloc));
    let (status, runs) = run_by(
        alloc,
        |tree: &Tree, world: GroupWorld, items: &[GroupItem]| -> Result<GroupPhaseDone, Memory>
            requires { MayRun tree.now world items.now }
            ensures { IfOk result (IsRun tree.now world items.now) }
        { run_group_phase(rt, alloc, gate, tree, world, items) },
        kept,
        src,
        out,
    );
    *made = runs;
    status
}

/// Runs a trace whose phases this runner runs, and hands back the phases that were kept before with those that were
/// made.
fn run_by<F: GroupRunner, S: Source, K: Sink>(
    alloc: Global,
    runner: F,
    kept: GroupRuns,
    src: &mut S,
    out: &mut K,
) -> (Status, GroupRuns)
    requires { RunsPhases (F.accepts runner) (F.returns runner) }
    ensures { AnswersGroups kept result.1 S.remaining S.faults S.calls K.written K.faults K.calls src.old src.new
        out.old out.new result.0 }
{
    let (status, engine) = run_trace(alloc, OnThreads::make(alloc, runner, kept), src, out);
    (status, engine.into_runs())
}

/// Runs a trace whose phases the engine makes. The engine comes back.
fn run_trace<E: GroupEngine, S: Source, K: Sink>(
    alloc: Global,
    engine: E,
    src: &mut S,
    out: &mut K,
) -> (Status, E)
    ensures { AnswersWith (E.made engine) (E.made result.1) S.remaining S.faults S.calls K.written K.faults K.calls
        src.old src.new out.old out.new result.0 }
{
    phases_lead_through_texts();
    stream(alloc, &mut GroupsJob::begin(alloc), engine, src, out)
}
