//! What was made and not written yet.

ghost use Rattle.std.specs.Prelude.{◌≡◌, ◌⊎◌, ◌≤◌, [], length, IfErr, OnOk};
ghost use Rattle.vms_stream.specs.Common.{CountsWrites};
ghost use Rattle.vms_recording.specs.Written.{WritesFront, most_waiting};

use vms_io::{Sink, write_all};
use vms_stream::Status;

/// The most bytes that wait between two lines of a phase.
const MOST_WAITING: usize = 1 << 16;

/// Writes what waits, if it is more than 64 KiB.
pub(crate) fn write_above<K: Sink>(waiting: &mut Vec<u8>, out: &mut K) -> Result<(), Status>
    ensures writes { WritesFront waiting.old.items (K.written out.old) (K.written out.new)
        (λ rest. OnOk result (waiting.new.items ≡ rest)) }
    ensures few { OnOk result (length waiting.new.items ≤ most_waiting) }
    ensures cause { IfErr result (λ status. status ≡ Status.WriteFault) }
    ensures counts { CountsWrites K.written K.faults K.calls result out.old out.new }
{
    if waiting.len() > MOST_WAITING {
        write_waiting(waiting, out)?;
    }
    Ok(())
}

/// Writes what waits. Then nothing waits.
pub(crate) fn write_waiting<K: Sink>(waiting: &mut Vec<u8>, out: &mut K) -> Result<(), Status>
    ensures writes { WritesFront waiting.old.items (K.written out.old) (K.written out.new)
        (λ rest. OnOk result (waiting.new.items ≡ rest)) }
    ensures empty { OnOk result (waiting.new.items ≡ []) }
    ensures cause { IfErr result (λ status. status ≡ Status.WriteFault) }
    ensures counts { CountsWrites K.written K.faults K.calls result out.old out.new }
{
    write_all(out, waiting.as_slice())?;
    waiting.clear();
    Ok(())
}
