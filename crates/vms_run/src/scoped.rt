use crate::run_phases::Histories;
use crate::running::run_by;
use crate::standing::StandingMaker;
use crate::threads::OnThreads;
use crate::{PhaseMaker, PhaseRunner};
use core::scope::ScopeEnv;
use std::alloc::Global;
use std::sync::Wait;
use std::thread;
use std::thread::{Scope, Threads};
use vms_base::{Header, Memory};
use vms_calc::Rule;
use vms_io::{Sink, Source};
use vms_jobs::Gate;
use vms_lane::Host;
use vms_phase::{LaneDone, PhaseDone};
use vms_replay::replay_trace;
use vms_script::PhaseScript;
use vms_standing::{
    Crew, InScope, JobQueue, StandingThreads, Starts, Work, no_threads, run_in_scope, start,
};
use vms_standing_phase::{StandingJob, make_job};
use vms_stream::Status;
use vms_world::World;

/// A run that is made in a scope, in which the threads of its lanes stand.
#[derive(Drop)]
struct ScopedRun<'w, 'a, 'b, R, W, N: Rule, P: Rule, C, L, S, K> {
    rt: &'w R,
    alloc: Global,
    normal: N,
    pressure: P,
    begin: C,
    work: &'w W,
    threads: LaneThreads<N, P>,
    apart: L,
    kept: Histories,
    src: &'a mut S,
    out: &'b mut K,
}

impl<
    'w,
    'a,
    'b,
    E,
    R: Wait,
    W: Work<StandingJob<N, P>, Result<LaneDone, Memory>>,
    N: Rule + Copy,
    P: Rule + Copy,
    C: Starts<E>,
    L: PhaseRunner,
    S: Source,
    K: Sink,
> InScope<E> for ScopedRun<'w, 'a, 'b, R, W, N, P, C, L, S, K> {
    ghost use Rattle.std.specs.Prelude.{◌≡◌, Some};
    ghost use Rattle.vms_replay.specs.Common.{AnswersReplayed};
    ghost use Rattle.vms_run.specs.Rules.{AreKernelRules};
    ghost use Rattle.vms_run.specs.Runners.{RunsPhases};
    ghost use Rattle.vms_run.specs.Threads.{makes_on_threads};

    type Output = (Status, Histories, &'a mut S, &'b mut K);

    ghost may_run = { λ run. C.may_start run.begin × W.may_make run.work.now
        × RunsPhases (L.accepts run.apart) (L.returns run.apart)
        × AreKernelRules N.accepts N.answers P.accepts P.answers run.normal run.pressure };

    ghost gives = { λ run r. (r.2.ghost_name ≡ run.src.ghost_name) × (r.3.ghost_name ≡ run.out.ghost_name)
        × AnswersReplayed makes_on_threads (Some run.kept) (Some r.1) S.remaining S.faults S.calls K.written K.faults
        K.calls run.src.now r.2.now run.out.now r.3.now r.0 };

    fn run<'s>(self, scope: &'s Scope<'s, E>) -> (Status, Histories, &'a mut S, &'b mut K) {
        let ScopedRun {
            rt,
            alloc,
            normal,
            pressure,
            begin,
            work,
            threads,
            apart,
            kept,
            src,
            out,
        } = self;
        let crew = Crew::new(scope, begin, work, threads);
        let maker = StandingMaker {
            rt,
            alloc,
            normal,
            pressure,
            crew,
            apart,
        };
        let (status, made) = run_trace(alloc, maker, kept, src, out);
        (status, made, src, out)
    }
}

ghost use Rattle.std.specs.Prelude.{IfOk, Some};
ghost use Rattle.vms_world.specs.Common.{IsHeader};
ghost use Rattle.vms_replay.specs.Common.{AnswersReplayed};
ghost use Rattle.vms_run.specs.Rules.{AreKernelRules};
ghost use Rattle.vms_run.specs.Runners.{IsRun, MayRun, RunsPhases};
ghost use Rattle.vms_run.specs.Threads.{makes_on_threads};
ghost use Rattle.vms_standing_phase.specs.Lanes.{MayBeMade, WasMade};

/// Runs a trace whose phases this makes, and hands back the phases that were kept before with those that were made.
fn run_trace<F: PhaseMaker, S: Source, K: Sink>(
    alloc: Global,
    maker: F,
    kept: Histories,
    src: &mut S,
    out: &mut K,
) -> (Status, Histories)
    ensures { AnswersReplayed makes_on_threads (Some kept) (Some result.1) S.remaining S.faults S.calls K.written
        K.faults K.calls src.old src.new out.old out.new result.0 }
{
    let (status, engine) = replay_trace(alloc, OnThreads::make(maker, kept), src, out);
    (status, engine.into_histories())
}

/// The threads of the lanes of a run.
type LaneThreads<N, P> = StandingThreads<StandingJob<N, P>, Result<LaneDone, Memory>>;

/// The queue from which they take lanes.
type LaneQueue<N, P> = JobQueue<StandingJob<N, P>, Result<LaneDone, Memory>>;

/// Runs a trace in a scope, by these rules, which are the kernel's. Hands back the phases that were kept before with
/// those that were made.
pub(crate) fn run_scoped<R, G, N, P, S, K>(
    rt: &R,
    alloc: Global,
    gate: &G,
    normal: N,
    pressure: P,
    kept: Histories,
    src: &mut S,
    out: &mut K,
) -> (Status, Histories)
where
    R: Threads + Wait + Sync,
    G: Gate,
    N: Rule + Copy + Send + Sync,
    P: Rule + Copy + Send + Sync,
    S: Source,
    K: Sink,
    requires { AreKernelRules N.accepts N.answers P.accepts P.answers normal pressure }
    ensures { AnswersReplayed makes_on_threads (Some kept) (Some result.1) S.remaining S.faults S.calls K.written
        K.faults K.calls src.old src.new out.old out.new result.0 }
{
    let host = Host { rt, alloc, gate };
    let work = |job: StandingJob<N, P>| -> Result<LaneDone, Memory>
        requires { MayBeMade N.accepts N.answers P.accepts P.answers job }
        ensures { WasMade P.answers N.answers job result }
    { make_job(&host, job) };
    run_worked(rt, alloc, gate, normal, pressure, &work, kept, src, out)
}

/// The same with what makes a lane.
fn run_worked<R, G, W, N, P, S, K>(
    rt: &R,
    alloc: Global,
    gate: &G,
    normal: N,
    pressure: P,
    work: &W,
    kept: Histories,
    src: &mut S,
    out: &mut K,
) -> (Status, Histories)
where
    R: Threads + Wait + Sync,
    G: Gate,
    W: Work<StandingJob<N, P>, Result<LaneDone, Memory>> + Sync,
    N: Rule + Copy + Send + Sync,
    P: Rule + Copy + Send + Sync,
    S: Source,
    K: Sink,
    requires work { W.may_make work.now }
    requires rules { AreKernelRules N.accepts N.answers P.accepts P.answers normal pressure }
    ensures { AnswersReplayed makes_on_threads (Some kept) (Some result.1) S.remaining S.faults S.calls K.written
        K.faults K.calls src.old src.new out.old out.new result.0 }
{
    let (threads, queue) = no_threads(alloc);
    run_queued(
        rt, alloc, gate, normal, pressure, work, threads, &queue, kept, src, out,
    )
}

/// The same with the threads that stand, and with the queue that they take jobs from.
fn run_queued<'w, R, G, W, N, P, S, K>(
    rt: &'w R,
    alloc: Global,
    gate: &'w G,
    normal: N,
    pressure: P,
    work: &'w W,
    threads: LaneThreads<N, P>,
    queue: &'w LaneQueue<N, P>,
    kept: Histories,
    src: &mut S,
    out: &mut K,
) -> (Status, Histories)
where
    R: Threads + Wait + Sync,
    G: Gate,
    W: Work<StandingJob<N, P>, Result<LaneDone, Memory>> + Sync,
    N: Rule + Copy + Send + Sync,
    P: Rule + Copy + Send + Sync,
    S: Source,
    K: Sink,
    requires work { W.may_make work.now }
    requires rules { AreKernelRules N.accepts N.answers P.accepts P.answers normal pressure }
    ensures { AnswersReplayed makes_on_threads (Some kept) (Some result.1) S.remaining S.faults S.calls K.written
        K.faults K.calls src.old src.new out.old out.new result.0 }
{
    run_begun(
        thread::scope_env(),
        rt,
        alloc,
        normal,
        pressure,
        |scope|
            requires { W.may_make work.now }
        { start(scope, rt, work, queue) },
        work,
        threads,
        |header: &Header, world: World, script: &PhaseScript| -> Result<PhaseDone, Memory>
            requires { IsHeader header.now × MayRun header.now world script.now
                × AreKernelRules N.accepts N.answers P.accepts P.answers normal pressure }
            ensures { IfOk result (IsRun header.now world script.now) }
        { run_by(rt, alloc, gate, header, normal, pressure, world, script) },
        kept,
        src,
        out,
    )
}

/// The same with a closure that starts a thread, with the threads that stand, and with what runs long phases.
fn run_begun<'w, E, C, R, W, N, P, L, S, K>(
    env: ScopeEnv<E>,
    rt: &'w R,
    alloc: Global,
    normal: N,
    pressure: P,
    begin: C,
    work: &'w W,
    threads: LaneThreads<N, P>,
    apart: L,
    kept: Histories,
    src: &mut S,
    out: &mut K,
) -> (Status, Histories)
where
    C: for<'s> Fn(&'s Scope<'s, E>) -> bool + Drop,
    R: Threads + Wait,
    W: Work<StandingJob<N, P>, Result<LaneDone, Memory>>,
    N: Rule + Copy,
    P: Rule + Copy,
    L: PhaseRunner,
    S: Source,
    K: Sink,
    requires begin { C.IsAlwaysCallable begin }
    requires work { W.may_make work.now }
    requires runs { RunsPhases (L.accepts apart) (L.returns apart) }
    requires rules { AreKernelRules N.accepts N.answers P.accepts P.answers normal pressure }
    ensures { AnswersReplayed makes_on_threads (Some kept) (Some result.1) S.remaining S.faults S.calls K.written
        K.faults K.calls src.old src.new out.old out.new result.0 }
{
    let run = ScopedRun {
        rt,
        alloc,
        normal,
        pressure,
        begin,
        work,
        threads,
        apart,
        kept,
        src,
        out,
    };
    let (status, made, src, out) = run_in_scope(env, rt, run);
    // By these what came back is known to be what the parameters lent.
    let _ = src;
    let _ = out;
    (status, made)
}
