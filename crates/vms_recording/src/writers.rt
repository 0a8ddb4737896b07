use crate::phase_pieces::write_pieces;
use crate::waiting_bytes::write_waiting;
use std::alloc::Global;
use vms_base::{Header, Memory};
use vms_core::State;
use vms_io::Sink;
use vms_page_crossings::{cross, first_pages};
use vms_recorded::recorded_histories_go_on;
use vms_script::PhaseScript;
use vms_stream::Status;
use vms_text::Boundary;

/// Writes the recorded history of a text, segment by segment: the lines that stand after the line `history 1`. They are
/// written in pieces of more than 64 KiB; what is left waits for the next ones.
///
/// A writer that has failed in a phase has no page counters any more, and writes nothing.
#[derive(Drop)]
pub struct HistoryWriter {
    alloc: Global,
    /// What the next segment begins with.
    pub(crate) pages: Option<State>,
    /// What was made and not written yet.
    pub(crate) waiting: Vec<u8>,
}

impl HistoryWriter {
    ghost use Rattle.std.specs.Prelude.{◌≡◌, ◌⊎◌, ℕ, List, [], ◌∷◌, ◌++◌, IfErr, IfOk, Ok};
    ghost use Rattle.vms_core.specs.Pages.{History};
    ghost use Rattle.vms_stream.specs.Common.{CountsWrites};
    ghost use Rattle.vms_text.specs.declared.acts.Line.TheVariants.{Boundary as BoundaryLine};
    ghost use Rattle.vms_world.specs.Common.{Between, Fits, Header as HeaderOf, IsHeader, IsLineOf, Segment, Start};
    ghost use Rattle.vms_world.specs.Common.{State as StateOf, allowed_from, first_start, start_past};
    ghost use Rattle.vms_recording.specs.Recording.{Flushes, IsRecording, RecordsPhase};

    /// Before the first segment, with the page counters that a run begins with.
    pub fn begin(alloc: Global, header: &Header) -> Result<HistoryWriter, Memory>
        requires { IsHeader header.now }
        ensures { IfOk result (λ writer. (s : StateOf) × IsRecording header.now [] [] first_start s [] writer) }
    {
        recorded_histories_go_on();
        let pages = first_pages(alloc, header)?;
        Ok(HistoryWriter {
            alloc,
            pages: Some(pages),
            waiting: Vec::new(alloc),
        })
    }

    /// Records a phase of lines that fit, and writes what waits wherever it is more than 64 KiB after a line of the
    /// phase.
    pub fn write_phase<K: Sink>(
        &mut self,
        header: &Header,
        script: &PhaseScript,
        out: &mut K,
    ) -> Result<(), Status>
        requires header { IsHeader header.now }
        requires recording { (segments : List Segment) × (hs : List History) × (start : Start) × (s : StateOf)
            × (written : List ℕ) × IsRecording header.now segments hs start s written self.old
            × Fits header.now start script.now }
        ensures records { (segments : List Segment) (hs : List History) (start : Start) (s : StateOf)
            (written : List ℕ) → IsRecording header.now segments hs start s written self.old →
            Fits header.now start script.now → RecordsPhase header.now segments hs start s written script.now self.new
            (K.written out.old) (K.written out.new) result }
        ensures cause { IfErr result (λ status. (status ≡ Status.Memory) ⊎ (status ≡ Status.WriteFault)) }
        ensures counts { CountsWrites K.written K.faults K.calls result out.old out.new }
    {
        let Some(base) = self.pages.take() else {
            unreachable!();
        };
        let items = script.as_slice();
        let pages = write_pieces(&mut self.waiting, self.alloc, header, base, items, out)?;
        self.pages = Some(pages);
        recorded_histories_go_on();
        Ok(())
    }

    /// Records a boundary line that counts. It has no line in a written history.
    pub fn cross(&mut self, header: &Header, boundary: Boundary)
        requires header { IsHeader header.now }
        requires recording { (segments : List Segment) × (hs : List History) × (start : Start) × (s : StateOf)
            × (written : List ℕ) × IsRecording header.now segments hs start s written self.old
            × IsLineOf header.now (BoundaryLine boundary)
            × (allowed_from header.now start (BoundaryLine boundary) ≡ Ok (BoundaryLine boundary)) }
        ensures { (segments : List Segment) (hs : List History) (start : Start) (s : StateOf) (written : List ℕ)
            (number : ℕ) → IsRecording header.now segments hs start s written self.old →
            IsLineOf header.now (BoundaryLine boundary) →
            allowed_from header.now start (BoundaryLine boundary) ≡ Ok (BoundaryLine boundary) →
            (next : StateOf) × IsRecording header.now (segments ++ Between number boundary ∷ []) hs
            (start_past (BoundaryLine boundary) start) next written self.new }
    {
        recorded_histories_go_on();
        let Some(pages) = &mut self.pages else {
            unreachable!();
        };
        cross(pages, header, boundary);
    }

    /// Writes what waits. Then nothing waits.
    pub fn flush<K: Sink>(&mut self, out: &mut K) -> Result<(), Status>
        ensures flushes { (header : HeaderOf) (segments : List Segment) (hs : List History) (start : Start)
            (s : StateOf) (written : List ℕ) → IsRecording header segments hs start s written self.old →
            Flushes header segments hs start s written self.new (K.written out.old) (K.written out.new) result }
        ensures cause { IfErr result (λ status. status ≡ Status.WriteFault) }
        ensures counts { CountsWrites K.written K.faults K.calls result out.old out.new }
    {
        write_waiting(&mut self.waiting, out)
    }
}
