ghost use Rattle.std.specs.Prelude.{◌≡◌, ◌^◌, ◌<◌, ◌++◌, ◌∷◌, [], All, IfOk, List, OnErr, OnOk, false, if◌then◌else◌};
ghost use Rattle.std.specs.Prelude.{length, ℕ, true};
ghost use Rattle.vms_text.specs.Writing.{Begins};
ghost use Rattle.vms_world.specs.Common.{IsHeader, IsLaneOf, Lane as LaneOf, is_among, lanes_of, owner_of};
ghost use Rattle.vms_file_order.specs.Common.{closing_of, page_passes, pass_of};
ghost use Rattle.vms_phase_lines.specs.Lanes.{HaveBegun, OpensLanes, ShowsLined, slot_of};
ghost use Rattle.vms_phase_lines.specs.Lines.{event_lines};

use std::alloc::Global;
use vms_base::{CpuId, Header, Memory, Row};
use vms_core::Step;
use vms_text::{Item, Lane};
use vms_written_lines::push_event_line;

/// The slot of a lane: the number of its CPU, or the number of CPUs for the control lane.
#[inline]
fn slot_of(cpus: u32, lane: Lane) -> usize
    ensures { result ≡ slot_of cpus lane }
{
    match lane {
        Lane::Cpu(cpu) => cpu.number as usize,
        Lane::Control => cpus as usize,
    }
}

/// The CPU that the pass of a lane owns.
#[inline]
pub(crate) fn owner_of(lane: Lane) -> Option<CpuId>
    ensures { result ≡ owner_of lane }
{
    match lane {
        Lane::Cpu(cpu) => Some(cpu),
        Lane::Control => None,
    }
}

/// The passes of the lanes that have lines.
#[derive(Debug, Drop)]
pub(crate) struct LanePasses {
    /// By slot the number of the lane's pass, or 0 where the lane has no line.
    pub(crate) passes: Row<u32>,
    /// How many lanes have lines.
    pub(crate) begun: u32,
}

impl LanePasses {
    /// Begins a pass for each lane that has lines: for those of the CPUs in ascending order, and then for the control
    /// lane. Appends the lines of that.
    pub(crate) fn begin(
        out: &mut Vec<u8>,
        alloc: Global,
        header: &Header,
        items: &[Item],
    ) -> Result<LanePasses, Memory>
        requires header { IsHeader header.now }
        requires items { All (λ item. IsLaneOf header.now item.lane) items.now }
        ensures ok { IfOk result (λ lanes. OpensLanes header.now (lanes_of header.now.layout items.now) lanes
            out.old.items out.new.items) }
        ensures err { OnErr result (Begins out.old.items out.new.items) }
    {
        let cpus = header.layout.cpus();
        let lined = lined(alloc, header, items)?;
        let mut lanes = LanePasses::none(alloc, header)?;
        for number in 0..cpus {
            let lane = Lane::Cpu(CpuId { number });
            lanes.begin_if(out, header, lane, lined.get(number as usize))?;
        }
        lanes.begin_if(out, header, Lane::Control, lined.get(cpus as usize))?;
        Ok(lanes)
    }

    /// No lane has lines.
    fn none(alloc: Global, header: &Header) -> Result<LanePasses, Memory>
        requires { IsHeader header.now }
        ensures { IfOk result (HaveBegun header.now []) }
    {
        let passes = Row::filled(alloc, header.layout.cpus() as usize + 1, 0)?;
        Ok(LanePasses { passes, begun: 0 })
    }

    /// Begins the pass of the next lane, if it has lines.
    fn begin_if(
        &mut self,
        out: &mut Vec<u8>,
        header: &Header,
        lane: Lane,
        has_lines: bool,
    ) -> Result<(), Memory>
        requires header { IsHeader header.now }
        requires lane { IsLaneOf header.now lane }
        requires opens { (lanes : List LaneOf) × (first : List ℕ) × (is_among lane lanes ≡ false)
            × (length lanes < 2 ^ 31) × OpensLanes header.now lanes self.old first out.old.items }
        ensures ok { OnOk result ((lanes : List LaneOf) (first : List ℕ) → is_among lane lanes ≡ false →
            OpensLanes header.now lanes self.old first out.old.items →
            OpensLanes header.now (lanes ++ (if has_lines then lane ∷ [] else [])) self.new first out.new.items) }
        ensures err { OnErr result (Begins out.old.items out.new.items) }
    {
        if !has_lines {
            return Ok(());
        }
        let pass = self.begun + 1;
        push_event_line(out, 0, &Step::Split(pass, owner_of(lane)))?;
        self.passes.set(slot_of(header.layout.cpus(), lane), pass);
        self.begun = pass;
        Ok(())
    }

    /// The number of the pass of a lane that has lines.
    #[inline]
    pub(crate) fn pass(&self, header: &Header, lane: Lane) -> u32
        requires lane { IsLaneOf header.now lane }
        requires begun { (lanes : List LaneOf) × HaveBegun header.now lanes self.now }
        ensures { (lanes : List LaneOf) → HaveBegun header.now lanes self.now → is_among lane lanes ≡ true →
            result ≡ pass_of lanes lane }
    {
        self.passes.get(slot_of(header.layout.cpus(), lane))
    }

    /// Appends the lines of the events that end the passes, in the order in which they began.
    pub(crate) fn end(&self, out: &mut Vec<u8>) -> Result<(), Memory>
        ensures ok { OnOk result ((lanes : List LaneOf) → self.now.begun ≡ length lanes →
            out.new.items ≡ out.old.items ++ event_lines (closing_of page_passes lanes [])) }
        ensures err { OnErr result (Begins out.old.items out.new.items) }
    {
        for ended in 0..self.begun {
            push_event_line(out, 0, &Step::Join(ended + 1))?;
        }
        Ok(())
    }
}

/// By slot whether the lane has a line.
fn lined(alloc: Global, header: &Header, items: &[Item]) -> Result<Row<bool>, Memory>
    requires header { IsHeader header.now }
    requires items { All (λ item. IsLaneOf header.now item.lane) items.now }
    ensures { IfOk result (ShowsLined header.now items.now) }
{
    let cpus = header.layout.cpus();
    let mut lined = Row::filled(alloc, cpus as usize + 1, false)?;
    for item in items {
        lined.set(slot_of(cpus, item.lane.lane()), true);
    }
    Ok(lined)
}
