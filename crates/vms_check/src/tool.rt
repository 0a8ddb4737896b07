ghost use Rattle.vms_stream.specs.Common.{TakesAndWrites, Says};
ghost use Rattle.vms_check.specs.Checking.{check, shown_by_check};

use crate::bodies::CheckBody;
use std::alloc::Global;
use vms_command::follow;
use vms_io::{Sink, Source};
use vms_stream::Status;

/// The command `check`: writes a trace in its one spelling, and a comment in the place of each line that doesn't count
/// and at the end.
pub fn tool_check<S: Source, K: Sink>(alloc: Global, src: &mut S, out: &mut K) -> Status
    ensures { TakesAndWrites S.remaining S.faults S.calls K.written K.faults K.calls src.old src.new out.old
        out.new result
        (Says check shown_by_check) }
{
    follow::<CheckBody, S, K>(alloc, (), src, out).0
}
