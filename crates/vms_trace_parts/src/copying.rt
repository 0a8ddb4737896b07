ghost use Rattle.std.specs.Prelude.{[], Some};
ghost use Rattle.vms_command.specs.Common.{following, shown_given};
ghost use Rattle.vms_stream.specs.Common.{AnswersPhased, waiting};
ghost use Rattle.vms_trace_parts.specs.Copying.{copying, shown_by_copy};
ghost use Rattle.vms_trace_parts.specs.Parts.{parts_of};

use crate::bodies::TraceCopy;
use crate::parts::TraceParts;
use std::alloc::Global;
use vms_command::follow;
use vms_io::{Sink, Source};
use vms_stream::Status;

/// Copies a trace: writes it in its one spelling, without the lines that are blank or don't count, and keeps its parts,
/// in as much memory as their lines take.
pub fn copy_trace<S: Source, K: Sink>(
    alloc: Global,
    src: &mut S,
    out: &mut K,
) -> (Status, TraceParts)
    ensures { AnswersPhased (waiting (following copying)) (shown_given shown_by_copy) (Some [])
        (Some (parts_of result.1)) S.remaining S.faults S.calls K.written K.faults K.calls src.old src.new out.old
        out.new result.0 }
{
    follow::<TraceCopy, S, K>(alloc, TraceParts::none(alloc), src, out)
}
