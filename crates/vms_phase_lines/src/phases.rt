ghost use Rattle.std.specs.Prelude.{◌≡◌, ◌∷◌, [], ◌++◌, All, IfOk, List, OnErr, OnOk};
ghost use Rattle.vms_text.specs.Writing.{Begins};
ghost use Rattle.vms_core.specs.Pages.{History, state_after};
ghost use Rattle.vms_world.specs.Common.{Header as HeaderOf, IsBase, IsHeader, IsLaneOf, Item as ItemOf};
ghost use Rattle.vms_world.specs.Common.{State as StateOf, facts_of, lanes_of, settled};
ghost use Rattle.vms_file_order.specs.Common.{opening_of, page_passes};
ghost use Rattle.vms_plain_control.specs.Common.{KnowsPeaks};
ghost use Rattle.vms_written_lines.specs.Spelling.{phase_line};
ghost use Rattle.vms_phase_lines.specs.Fitting.{FitPages};
ghost use Rattle.vms_phase_lines.specs.Lanes.{HaveBegun};
ghost use Rattle.vms_phase_lines.specs.Lines.{event_lines};
ghost use Rattle.vms_phase_lines.specs.Phases.{IsPhaseInOrder, IsWriting};

use crate::calls::write_by_formulas;
use crate::lanes::{LanePasses, owner_of};
use std::alloc::Global;
use vms_base::{Header, Memory};
use vms_core::{Plain, State};
use vms_plain_control::Peaks;
use vms_text::Item;
use vms_world::page_call;
use vms_written_lines::push_phase_line;

/// A phase whose page events are written, line by line of the phase.
#[derive(Debug, Drop)]
pub struct PhaseWriter {
    pub(crate) pages: Plain,
    pub(crate) peaks: Peaks,
    pub(crate) lanes: LanePasses,
}

impl PhaseWriter {
    /// Begins a phase of these lines with these page counters: appends the line that says so, and those of the events
    /// that begin a pass for each lane with lines.
    pub fn begin(
        out: &mut Vec<u8>,
        alloc: Global,
        header: &Header,
        base: State,
        items: &[Item],
    ) -> Result<PhaseWriter, Memory>
        requires header { IsHeader header.now }
        requires fit { FitPages header.now base items.now }
        ensures ok { IfOk result (λ writer. (h : History) × IsWriting header.now base items.now [] h writer
            × (out.new.items ≡ out.old.items ++ (phase_line ++ event_lines h))) }
        ensures err { OnErr result (Begins out.old.items out.new.items) }
    {
        let lanes = open(out, alloc, header, items)?;
        PhaseWriter::make(alloc, header, base, lanes)
    }

    /// Before the first line, where the passes have begun.
    fn make(
        alloc: Global,
        header: &Header,
        base: State,
        lanes: LanePasses,
    ) -> Result<PhaseWriter, Memory>
        requires { IsBase (facts_of header.now base) }
        ensures { IfOk result (λ writer. (writer.lanes ≡ lanes) × (writer.pages ≡ base)
            × KnowsPeaks (facts_of header.now base) [] writer.peaks) }
    {
        let peaks = Peaks::make(alloc, &header.layout, &base)?;
        Ok(PhaseWriter {
            pages: Plain::make(base),
            peaks,
            lanes,
        })
    }

    /// Appends the lines of the events that the next line of the phase makes.
    pub fn write_line(
        &mut self,
        out: &mut Vec<u8>,
        header: &Header,
        item: &Item,
    ) -> Result<(), Memory>
        requires header { IsHeader header.now }
        requires writing { (base : StateOf) × (all : List ItemOf) × (items : List ItemOf) × (left : List ItemOf)
            × (h : History) × IsWriting header.now base all items h self.old × (all ≡ items ++ item.now ∷ left) }
        ensures ok { OnOk result ((base : StateOf) (all items left : List ItemOf) (h : History) →
            IsWriting header.now base all items h self.old → all ≡ items ++ item.now ∷ left → (more : History)
            × IsWriting header.now base all (items ++ item.now ∷ []) (more ++ h) self.new
            × (out.new.items ≡ out.old.items ++ event_lines more)) }
        ensures err { OnErr result (Begins out.old.items out.new.items) }
    {
        let lane = item.lane.lane();
        let Some(call) = page_call(lane, item.act) else {
            return Ok(());
        };
        let pass = self.lanes.pass(header, lane);
        let owner = owner_of(lane);
        write_by_formulas(
            out,
            pass,
            &mut self.pages,
            &mut self.peaks,
            header,
            owner,
            call,
        )
    }

    /// Appends the lines of the events that end the passes, once all lines are made. Returns the page counters with
    /// which the next phase begins.
    pub fn end(self, out: &mut Vec<u8>) -> Result<State, Memory>
        requires { (header : HeaderOf) × (base : StateOf) × (items : List ItemOf) × (h : History)
            × IsWriting header base items items h self }
        ensures ok { IfOk result (λ next. (header : HeaderOf) (base : StateOf) (items : List ItemOf) (h : History) →
            IsWriting header base items items h self → (more : History)
            × IsPhaseInOrder header base items (more ++ h)
            × (out.new.items ≡ out.old.items ++ event_lines more)
            × (next ≡ settled (state_after (facts_of header base) (more ++ h)))) }
        ensures err { OnErr result (Begins out.old.items out.new.items) }
    {
        self.lanes.end(out)?;
        Ok(self.settled())
    }

    /// The page counters with which the next phase begins.
    fn settled(self) -> State
        ensures { result ≡ settled self.pages }
    {
        self.pages.settle()
    }
}

/// Appends the line that begins a phase, and those of the events that begin a pass for each lane with lines.
fn open(
    out: &mut Vec<u8>,
    alloc: Global,
    header: &Header,
    items: &[Item],
) -> Result<LanePasses, Memory>
    requires header { IsHeader header.now }
    requires items { All (λ item. IsLaneOf header.now item.lane) items.now }
    ensures begins { IfOk result (HaveBegun header.now (lanes_of header.now.layout items.now)) }
    ensures lines { OnOk result (out.new.items ≡ out.old.items ++ (phase_line
        ++ event_lines (opening_of page_passes (lanes_of header.now.layout items.now)))) }
    ensures err { OnErr result (Begins out.old.items out.new.items) }
{
    push_phase_line(out)?;
    LanePasses::begin(out, alloc, header, items)
}
