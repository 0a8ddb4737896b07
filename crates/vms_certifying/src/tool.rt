ghost use Rattle.vms_stream.specs.Common.{TakesAndWrites};
ghost use Rattle.vms_certifying.specs.Answers.{SaysCertified};

use crate::HistoryJudge;
use crate::jobs::CertifyJob;
use crate::verdicts::Verdicts;
use std::alloc::Global;
use vms_io::{Sink, Source, write_all};
use vms_stream::{Status, stream};

/// The command `certify`: says whether the history after a trace is one of the trace, or the first line at fault. What
/// was due where a history is refused is written to the notes: no clause speaks of it, and a failure is ignored.
pub fn tool_certify<J: HistoryJudge, S: Source, K: Sink, N: Sink>(
    alloc: Global,
    src: &mut S,
    out: &mut K,
    notes: &mut N,
) -> Status
    ensures { TakesAndWrites S.remaining S.faults S.calls K.written K.faults K.calls src.old src.new out.old out.new
        result (SaysCertified J.rules) }
{
    let mut job = CertifyJob::<J>::begin(alloc);
    let (status, _verdicts) = stream(alloc, &mut job, Verdicts::none(), src, out);
    if status == Status::NotCertified {
        let _written = write_all(notes, job.note());
    }
    status
}
