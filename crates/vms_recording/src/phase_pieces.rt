//! The page events of a phase, written in pieces.

ghost use Rattle.std.specs.Prelude.{◌≡◌, ◌⊎◌, ◌≤◌, [], IfErr, OnOk, length};
ghost use Rattle.vms_core.specs.Pages.{History};
ghost use Rattle.vms_phase_lines.specs.Common.{FitPages, IsWriting};
ghost use Rattle.vms_stream.specs.Common.{CountsWrites};
ghost use Rattle.vms_world.specs.Common.{IsHeader, State as StateOf};
ghost use Rattle.vms_recording.specs.PhaseParts.{WritesLines, WritesPhase, WritesRest};
ghost use Rattle.vms_recording.specs.Written.{most_waiting};

use crate::waiting_bytes::write_above;
use std::alloc::Global;
use vms_base::Header;
use vms_core::State;
use vms_io::Sink;
use vms_phase_lines::PhaseWriter;
use vms_stream::Status;
use vms_text::Item;

/// Makes the lines of the page events of a phase, which begins with these page counters, and writes what waits wherever
/// it is more than 64 KiB after a line of the phase. Returns the page counters with which the next phase begins.
pub(crate) fn write_pieces<K: Sink>(
    waiting: &mut Vec<u8>,
    alloc: Global,
    header: &Header,
    base: State,
    items: &[Item],
    out: &mut K,
) -> Result<State, Status>
    requires header { IsHeader header.now }
    requires fit { FitPages header.now base items.now }
    ensures writes { WritesPhase header.now base items.now waiting.old.items waiting.new.items (K.written out.old)
        (K.written out.new) result }
    ensures few { OnOk result (length waiting.new.items ≤ most_waiting) }
    ensures cause { IfErr result (λ status. (status ≡ Status.Memory) ⊎ (status ≡ Status.WriteFault)) }
    ensures counts { CountsWrites K.written K.faults K.calls result out.old out.new }
{
    let phase = PhaseWriter::begin(waiting, alloc, header, base, items)?;
    write_begun(phase, waiting, header, items, out)
}

/// Does so with a phase that has begun.
fn write_begun<K: Sink>(
    mut phase: PhaseWriter,
    waiting: &mut Vec<u8>,
    header: &Header,
    items: &[Item],
    out: &mut K,
) -> Result<State, Status>
    requires header { IsHeader header.now }
    requires writing { (s : StateOf) × (h : History) × IsWriting header.now s items.now [] h phase }
    ensures writes { (s : StateOf) (h : History) → IsWriting header.now s items.now [] h phase →
        WritesRest header.now s items.now h waiting.old.items waiting.new.items (K.written out.old)
        (K.written out.new) result }
    ensures few { OnOk result (length waiting.new.items ≤ most_waiting) }
    ensures cause { IfErr result (λ status. (status ≡ Status.Memory) ⊎ (status ≡ Status.WriteFault)) }
    ensures counts { CountsWrites K.written K.faults K.calls result out.old out.new }
{
    write_lines(&mut phase, waiting, header, items, out)?;
    let pages = phase.end(waiting)?;
    write_above(waiting, out)?;
    Ok(pages)
}

/// Makes the lines of a phase's page events from its first line to its last.
fn write_lines<K: Sink>(
    phase: &mut PhaseWriter,
    waiting: &mut Vec<u8>,
    header: &Header,
    items: &[Item],
    out: &mut K,
) -> Result<(), Status>
    requires header { IsHeader header.now }
    requires writing { (s : StateOf) × (h : History) × IsWriting header.now s items.now [] h phase.old }
    ensures writes { (s : StateOf) (h : History) → IsWriting header.now s items.now [] h phase.old →
        WritesLines header.now s items.now h waiting.old.items waiting.new.items (K.written out.old)
        (K.written out.new) phase.new result }
    ensures cause { IfErr result (λ status. (status ≡ Status.Memory) ⊎ (status ≡ Status.WriteFault)) }
    ensures counts { CountsWrites K.written K.faults K.calls result out.old out.new }
{
    for item in items {
        phase.write_line(waiting, header, item)?;
        write_above(waiting, out)?;
    }
    Ok(())
}
