ghost use Rattle.std.specs.Prelude.{Some};
ghost use Rattle.vms_gen.specs.Common.{InRange};
ghost use Rattle.vms_replay.specs.Common.{AnswersReplayed};
ghost use Rattle.vms_run.specs.MadeTexts.{AnswersMade};
ghost use Rattle.vms_run.specs.Threads.{makes_on_threads};

use crate::run_phases::Histories;
use crate::scoped::run_scoped;
use std::alloc::Global;
use std::mem::replace;
use std::sync::Wait;
use std::thread::Threads;
use vms_base::ZoneSize;
use vms_calc::{normal_threshold, pressure_threshold};
use vms_gen::{MadeSource, Numbers};
use vms_io::{Sink, Source};
use vms_jobs::Gate;
use vms_stream::Status;

/// The command `run`: makes each phase of a trace with a thread for each lane, writes refusals, answers and reports in
/// the order of its lines, and appends the phases to the histories.
pub fn tool_run<R: Threads + Wait + Sync, G: Gate, S: Source, K: Sink>(
    rt: &R,
    alloc: Global,
    src: &mut S,
    out: &mut K,
    gate: &G,
    histories: &mut Histories,
) -> Status
    ensures { AnswersReplayed makes_on_threads (Some histories.old) (Some histories.new) S.remaining S.faults S.calls
        K.written K.faults K.calls src.old src.new out.old out.new result }
{
    let kept = replace(histories, Histories::make(alloc));
    let (status, made) = run_scoped(
        rt,
        alloc,
        gate,
        |size: &ZoneSize, online: u32| normal_threshold(size, online),
        |size: &ZoneSize, online: u32| pressure_threshold(size, online),
        kept,
        src,
        out,
    );
    *histories = made;
    status
}

/// The command `gen`: does what `run` does, with the trace that is made from these numbers.
pub fn tool_gen<R: Threads + Wait + Sync, G: Gate, K: Sink>(
    rt: &R,
    alloc: Global,
    numbers: Numbers,
    out: &mut K,
    gate: &G,
    histories: &mut Histories,
) -> Status
    requires { InRange numbers }
    ensures { AnswersMade numbers histories.old histories.new K.written K.faults K.calls out.old out.new result }
{
    let mut src = MadeSource::make(numbers);
    tool_run(rt, alloc, &mut src, out, gate, histories)
}
