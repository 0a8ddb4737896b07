ghost use Rattle.vms_stream.specs.Common.{TakesAndWrites};
ghost use Rattle.vms_record.specs.Answers.{SaysRecord};

use crate::histories::write_history;
use std::alloc::Global;
use vms_io::{Sink, Source};
use vms_stream::Status;
use vms_trace_parts::{TraceParts, copies_texts, copy_trace};

/// The command `record`: copies a trace, and writes after it the page events that its lines make in their order. Its
/// output is written in pieces; what is kept are the lane lines and the boundary lines of the trace.
pub fn tool_record<S: Source, K: Sink>(alloc: Global, src: &mut S, out: &mut K) -> Status
    ensures { TakesAndWrites S.remaining S.faults S.calls K.written K.faults K.calls src.old src.new out.old out.new
        result SaysRecord }
{
    copies_texts::<S>();
    let (ended, parts) = copy_trace(alloc, src, out);
    record_after(ended, alloc, &parts, out)
}

ghost use Rattle.std.specs.Prelude.{◌≢◌};
ghost use Rattle.vms_trace_parts.specs.Common.{parts_of};
ghost use Rattle.vms_record.specs.Histories.{AfterCopy, AreParts, MayFollow, RecordsAfter};

/// Writes the history of a trace whose copy ended so. Where its end wasn't reached nothing follows.
fn record_after<K: Sink>(ended: Status, alloc: Global, parts: &TraceParts, out: &mut K) -> Status
    requires { MayFollow ended (parts_of parts.now) }
    ensures { AfterCopy K.written K.faults K.calls ended (parts_of parts.now) out.old out.new result }
{
    match ended {
        Status::Done => record_parts(Status::Done, alloc, parts, out),
        Status::Refused => record_parts(Status::Refused, alloc, parts, out),
        _ => ended,
    }
}

/// Writes the history of a whole trace, whose copy ended so.
fn record_parts<K: Sink>(ended: Status, alloc: Global, parts: &TraceParts, out: &mut K) -> Status
    requires parts { AreParts (parts_of parts.now) }
    requires ended { ended ≢ Status.WriteFault }
    ensures { RecordsAfter K.written K.faults K.calls ended (parts_of parts.now) out.old out.new result }
{
    match write_history(alloc, parts, out) {
        Ok(()) => ended,
        Err(status) => status,
    }
}
