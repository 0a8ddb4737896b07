ghost use Rattle.vms_stream.specs.Common.{TakesAndWrites};
ghost use Rattle.vms_replay.specs.FileOrders.{SaysReplay};
ghost use Rattle.vms_replay.specs.ReplayAnswers.{AnswersReplayed};

use crate::{Engine, FileOrder, Replay, phases_lead_through_texts};
use std::alloc::Global;
use vms_command::follow;
use vms_io::{Sink, Source};
use vms_stream::Status;

/// Replays a trace whose phases an engine makes, and writes refusals, answers and reports in the order of its lines.
/// The engine comes back.
pub fn replay_trace<E: Engine, S: Source, K: Sink>(
    alloc: Global,
    engine: E,
    src: &mut S,
    out: &mut K,
) -> (Status, E)
    ensures { AnswersReplayed E.Makes (E.made engine) (E.made result.1) S.remaining S.faults S.calls K.written K.faults
        K.calls src.old src.new out.old out.new result.0 }
{
    phases_lead_through_texts::<E>();
    follow::<Replay<E>, S, K>(alloc, engine, src, out)
}

/// The command `replay`: makes each phase of a trace in file order, and writes refusals, answers and reports in the
/// order of its lines.
pub fn tool_replay<S: Source, K: Sink>(alloc: Global, src: &mut S, out: &mut K) -> Status
    ensures { TakesAndWrites S.remaining S.faults S.calls K.written K.faults K.calls src.old src.new out.old out.new
        result SaysReplay }
{
    replay_trace(alloc, FileOrder, src, out).0
}
