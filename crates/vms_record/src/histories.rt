ghost use Rattle.std.specs.Prelude.{◌≡◌, ◌⊎◌, ℕ, List, [], ◌++◌, IfErr, map};
ghost use Rattle.vms_core.specs.Pages.{History};
ghost use Rattle.vms_world.specs.Common.{IsHeader, Segment, Start, State as StateOf, first_start, AreSegments};
ghost use Rattle.vms_world.specs.Common.{phase_if_any};
ghost use Rattle.vms_stream.specs.Common.{CountsWrites};
ghost use Rattle.vms_recording.specs.Common.{IsRecording};
ghost use Rattle.vms_trace_parts.specs.Common.{part_of, parts_of, segments_of_begin, segments_of_part};
ghost use Rattle.vms_trace_parts.specs.Common.{segments_of_parts};
ghost use Rattle.vms_record.specs.Histories.{AreParts, HasPassed, MayRecordPart, RecordsPart, RecordsParts};
ghost use Rattle.vms_record.specs.Histories.{RecordsSegments, WritesFirstLine};

use std::alloc::Global;
use vms_base::Header;
use vms_io::{Sink, write_all};
use vms_recorded::recorded_histories_go_on;
use vms_recording::HistoryWriter;
use vms_script::PhaseScript;
use vms_stream::Status;
use vms_trace_parts::{Part, TraceParts};
use vms_written_lines::push_history_line;

/// Writes the history of these parts of a trace, from its first line on.
pub(crate) fn write_history<K: Sink>(
    alloc: Global,
    parts: &TraceParts,
    out: &mut K,
) -> Result<(), Status>
    requires { AreParts (parts_of parts.now) }
    ensures records { RecordsParts (parts_of parts.now) (K.written out.old) (K.written out.new) result }
    ensures cause { IfErr result (λ status. (status ≡ Status.Memory) ⊎ (status ≡ Status.WriteFault)) }
    ensures counts { CountsWrites K.written K.faults K.calls result out.old out.new }
{
    let Some(header) = parts.header() else {
        unreachable!();
    };
    write_first_line(alloc, out)?;
    write_parts(alloc, header, parts.as_slice(), out)
}

/// Writes the line that a history begins with.
fn write_first_line<K: Sink>(alloc: Global, out: &mut K) -> Result<(), Status>
    ensures writes { WritesFirstLine (K.written out.old) (K.written out.new) result }
    ensures cause { IfErr result (λ status. (status ≡ Status.Memory) ⊎ (status ≡ Status.WriteFault)) }
    ensures counts { CountsWrites K.written K.faults K.calls result out.old out.new }
{
    let mut line = Vec::new(alloc);
    push_history_line(&mut line)?;
    write_all(out, line.as_slice())?;
    Ok(())
}

/// Writes the histories of these parts' phases.
fn write_parts<K: Sink>(
    alloc: Global,
    header: &Header,
    parts: &[Part],
    out: &mut K,
) -> Result<(), Status>
    requires header { IsHeader header.now }
    requires stand { AreSegments header.now first_start (segments_of_parts (map part_of parts.now)) }
    ensures records { RecordsSegments header.now (segments_of_parts (map part_of parts.now)) (K.written out.old)
        (K.written out.new) result }
    ensures cause { IfErr result (λ status. (status ≡ Status.Memory) ⊎ (status ≡ Status.WriteFault)) }
    ensures counts { CountsWrites K.written K.faults K.calls result out.old out.new }
{
    let mut writer = HistoryWriter::begin(alloc, header)?;
    write_begun(&mut writer, header, parts, out)
}

/// Writes the histories of these parts' phases, by a writer that has begun.
fn write_begun<K: Sink>(
    writer: &mut HistoryWriter,
    header: &Header,
    parts: &[Part],
    out: &mut K,
) -> Result<(), Status>
    requires header { IsHeader header.now }
    requires recording { (s : StateOf) × IsRecording header.now [] [] first_start s [] writer.old }
    requires stand { AreSegments header.now first_start (segments_of_parts (map part_of parts.now)) }
    ensures records { RecordsSegments header.now (segments_of_parts (map part_of parts.now)) (K.written out.old)
        (K.written out.new) result }
    ensures cause { IfErr result (λ status. (status ≡ Status.Memory) ⊎ (status ≡ Status.WriteFault)) }
    ensures counts { CountsWrites K.written K.faults K.calls result out.old out.new }
{
    recorded_histories_go_on();
    write_each(writer, header, parts, out)?;
    writer.flush(out)
}

/// Writes the history of one part after another. What is left waits.
fn write_each<K: Sink>(
    writer: &mut HistoryWriter,
    header: &Header,
    parts: &[Part],
    out: &mut K,
) -> Result<(), Status>
    requires header { IsHeader header.now }
    requires recording { (s : StateOf) × IsRecording header.now [] [] first_start s [] writer.old }
    requires stand { AreSegments header.now first_start (segments_of_parts (map part_of parts.now)) }
    ensures records { RecordsPart header.now [] (segments_of_parts (map part_of parts.now)) [] [] writer.new
        (K.written out.old) (K.written out.new) result }
    ensures cause { IfErr result (λ status. (status ≡ Status.Memory) ⊎ (status ≡ Status.WriteFault)) }
    ensures counts { CountsWrites K.written K.faults K.calls result out.old out.new }
{
    for part in parts {
        write_part(writer, header, part, out)?;
    }
    Ok(())
}

/// Writes the history of a part's phase, if it has one, past the boundary line that the part begins with.
fn write_part<K: Sink>(
    writer: &mut HistoryWriter,
    header: &Header,
    part: &Part,
    out: &mut K,
) -> Result<(), Status>
    requires header { IsHeader header.now }
    requires recording { MayRecordPart header.now (segments_of_part (part_of part.now)) writer.old }
    ensures records { (segments : List Segment) (hs : List History) (start : Start) (s : StateOf) (written : List ℕ)
        (after : List Segment) → IsRecording header.now segments hs start s written writer.old →
        AreSegments header.now start (segments_of_part (part_of part.now) ++ after) →
        RecordsPart header.now segments (segments_of_part (part_of part.now)) after written writer.new
        (K.written out.old) (K.written out.new) result }
    ensures cause { IfErr result (λ status. (status ≡ Status.Memory) ⊎ (status ≡ Status.WriteFault)) }
    ensures counts { CountsWrites K.written K.faults K.calls result out.old out.new }
{
    pass_boundary(writer, header, part);
    write_script(writer, header, part.script(), out)
}

/// Passes the boundary line that a part begins with, if it begins with one.
fn pass_boundary(writer: &mut HistoryWriter, header: &Header, part: &Part)
    requires header { IsHeader header.now }
    requires recording { MayRecordPart header.now (segments_of_begin (part_of part.now).begin) writer.old }
    ensures { (segments : List Segment) (hs : List History) (start : Start) (s : StateOf) (written : List ℕ)
        (after : List Segment) → IsRecording header.now segments hs start s written writer.old →
        AreSegments header.now start (segments_of_begin (part_of part.now).begin ++ after) →
        HasPassed header.now (segments ++ segments_of_begin (part_of part.now).begin) hs written after writer.new }
{
    if let Some((_, boundary)) = part.boundary() {
        writer.cross(header, boundary);
    }
}

/// Writes the history of a phase of these lines, if there are any.
fn write_script<K: Sink>(
    writer: &mut HistoryWriter,
    header: &Header,
    script: &PhaseScript,
    out: &mut K,
) -> Result<(), Status>
    requires header { IsHeader header.now }
    requires recording { MayRecordPart header.now (phase_if_any script.now) writer.old }
    ensures records { (segments : List Segment) (hs : List History) (start : Start) (s : StateOf) (written : List ℕ)
        (after : List Segment) → IsRecording header.now segments hs start s written writer.old →
        AreSegments header.now start (phase_if_any script.now ++ after) →
        RecordsPart header.now segments (phase_if_any script.now) after written writer.new
        (K.written out.old) (K.written out.new) result }
    ensures cause { IfErr result (λ status. (status ≡ Status.Memory) ⊎ (status ≡ Status.WriteFault)) }
    ensures counts { CountsWrites K.written K.faults K.calls result out.old out.new }
{
    if script.is_empty() {
        return Ok(());
    }
    writer.write_phase(header, script, out)
}
