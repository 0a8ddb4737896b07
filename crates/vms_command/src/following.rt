ghost use Rattle.vms_stream.specs.Common.{AnswersPhased, waiting};
ghost use Rattle.vms_command.specs.Bodies.{shown_given};
ghost use Rattle.vms_command.specs.Commands.{following};

use crate::Body;
use crate::trace_jobs::TraceJob;
use std::alloc::Global;
use vms_io::{Sink, Source};
use vms_stream::{Status, stream};

/// The command whose body is `B`, over a trace whose phases the engine makes. The engine comes back.
pub fn follow<B: Body, S: Source, K: Sink>(
    alloc: Global,
    engine: B::Engine,
    src: &mut S,
    out: &mut K,
) -> (Status, B::Engine)
    ensures { AnswersPhased (waiting (following B.command)) (shown_given B.Shows) (B.made engine) (B.made result.1)
        S.remaining S.faults S.calls K.written K.faults K.calls src.old src.new out.old out.new result.0 }
{
    stream(alloc, &mut TraceJob::<B>::begin(alloc), engine, src, out)
}
