ghost use Rattle.std.specs.Prelude.{◌≡◌, ◌⊎◌, List, ℕ, OnOk, IfErr};
ghost use Rattle.vms_stream.specs.Taking.{TakesText, WritesFront};
ghost use Rattle.vms_stream.specs.Courses.{CountsWrites};
ghost use Rattle.vms_text.specs.Common.{lines_of};

use crate::{Job, Status};
use vms_io::{Sink, write_all};
use vms_text::split_line;

/// The most bytes that wait between two lines.
const MOST_WAITING: usize = 1 << 16;

/// Takes the lines of a text up to one that stops the command, and writes what waits wherever it is more than 64 KiB.
/// The last line may lack its newline.
pub(crate) fn take_lines<J: Job, K: Sink>(
    job: &mut J,
    engine: &mut J::Engine,
    text: &[u8],
    waiting: &mut Vec<u8>,
    out: &mut K,
) -> Result<Option<Status>, Status>
    requires { (s : J.State) × J.Stands job.old s }
    ensures takes { TakesText J.behavior (J.Stands job.old) (J.Stands job.new) (J.made engine.old) (J.made engine.new)
        (lines_of text.now) result waiting.old.items waiting.new.items (K.written out.old) (K.written out.new) }
    ensures cause { IfErr result (λ status. (status ≡ Status.Memory) ⊎ (status ≡ Status.WriteFault)) }
    ensures counts { CountsWrites K.written K.faults K.calls result out.old out.new }
{
    let mut rest = text;
    'lines: while !rest.is_empty() {
        let (line, after) = split_line(rest);
        if let Some(halt) = job.take_line(engine, line, waiting)? {
            return Ok(Some(halt));
        }
        write_above(waiting, out)?;
        rest = after;
    }
    Ok(None)
}

/// Writes what waits, if it is more than 64 KiB.
fn write_above<K: Sink>(waiting: &mut Vec<u8>, out: &mut K) -> Result<(), Status>
    ensures writes { WritesFront waiting.old.items (K.written out.old) (K.written out.new)
        (λ rest. OnOk result (waiting.new.items ≡ rest)) }
    ensures cause { IfErr result (λ status. status ≡ Status.WriteFault) }
    ensures counts { CountsWrites K.written K.faults K.calls result out.old out.new }
{
    if waiting.len() > MOST_WAITING {
        write_all(out, waiting.as_slice())?;
        waiting.clear();
    }
    Ok(())
}
