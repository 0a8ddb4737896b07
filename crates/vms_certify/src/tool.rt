ghost use Rattle.vms_stream.specs.Common.{TakesAndWrites};
ghost use Rattle.vms_certifying.specs.Answers.{SaysCertified};
ghost use Rattle.vms_certify.specs.KernelRules.{kernel_rules};

use std::alloc::Global;
use vms_history_judge::Judge;
use vms_io::{Sink, Source};
use vms_line_walks::LineWalk;
use vms_stream::Status;

/// The command `certify`, by the kernel's rules of thresholds: says whether the history after a trace is one of the
/// trace, or the first line at fault. What was due where a history is refused is written to the notes: no clause speaks
/// of it.
pub fn tool_certify<S: Source, K: Sink, N: Sink>(
    alloc: Global,
    src: &mut S,
    out: &mut K,
    notes: &mut N,
) -> Status
    ensures { TakesAndWrites S.remaining S.faults S.calls K.written K.faults K.calls src.old src.new out.old out.new
        result (SaysCertified kernel_rules) }
{
    vms_certifying::tool_certify::<Judge<LineWalk>, S, K, N>(alloc, src, out, notes)
}
