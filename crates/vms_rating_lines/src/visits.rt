//! The lines of visits of zones, by the marks that were found and by what stands after them.

ghost use Rattle.std.specs.Prelude.{◌≡◌, ◌++◌, OnErr, OnOk, length};
ghost use Rattle.vms_text.specs.Common.{Begins};
ghost use Rattle.vms_calls.specs.Common.{HasShape, IsPlace, IsZone, in_turn, state_steps, is_online as tells_online};
ghost use Rattle.vms_rating_lines.specs.Lines.{step_lines};
ghost use Rattle.vms_rating_lines.specs.ToldSteps.{acknowledged_told, sets_told, thresholds_told, visit_told};

use vms_base::{CpuId, CpuState, Layout, Memory, PlaceId};
use vms_core::{MarkRead, Plain, Step};
use vms_written_lines::push_event_line;

/// The loads of the states of all CPUs.
pub(crate) fn write_states(
    out: &mut Vec<u8>,
    caller: u32,
    pages: &Plain,
    layout: &Layout,
) -> Result<(), Memory>
    requires shaped { HasShape layout.now pages.now }
    ensures ok { OnOk result (out.new.items
        ≡ out.old.items ++ step_lines caller (in_turn state_steps 0 pages.now.cpu)) }
    ensures err { OnErr result (Begins out.old.items out.new.items) }
{
    for number in 0..layout.cpus() {
        let cpu = CpuId { number };
        push_event_line(out, caller, &Step::LoadO(cpu, pages.load_state(cpu)))?;
    }
    Ok(())
}

/// The lines of a visit of a zone, which is spared or rated.
pub(crate) fn write_visit(
    out: &mut Vec<u8>,
    caller: u32,
    pages: &Plain,
    layout: &Layout,
    zone: PlaceId,
    found: MarkRead,
    spared: bool,
) -> Result<(), Memory>
    requires shaped { HasShape layout.now pages.now }
    requires zone { IsZone layout.now zone.number }
    ensures ok { OnOk result (out.new.items
        ≡ out.old.items ++ step_lines caller (visit_told pages.now found spared zone.number)) }
    ensures err { OnErr result (Begins out.old.items out.new.items) }
{
    write_acknowledged(out, caller, pages, layout, zone)?;
    push_event_line(out, caller, &Step::LoadM(zone, found.mark, found.number))?;
    if !spared {
        write_sets(out, caller, pages, layout, zone, found.mark)?;
    }
    Ok(())
}

/// The loads of what the online CPUs acknowledged last of a zone.
fn write_acknowledged(
    out: &mut Vec<u8>,
    caller: u32,
    pages: &Plain,
    layout: &Layout,
    zone: PlaceId,
) -> Result<(), Memory>
    requires shaped { HasShape layout.now pages.now }
    requires zone { IsZone layout.now zone.number }
    ensures ok { OnOk result (out.new.items
        ≡ out.old.items ++ step_lines caller (acknowledged_told pages.now zone.number)) }
    ensures err { OnErr result (Begins out.old.items out.new.items) }
{
    for number in 0..layout.cpus() {
        let cpu = CpuId { number };
        if is_online(pages.load_state(cpu)) {
            let newest = pages.load_acknowledged(cpu, zone);
            push_event_line(out, caller, &Step::LoadA(cpu, zone, newest))?;
        }
    }
    Ok(())
}

/// The sets of a zone's mark, if it is another than the one that was found, and of its thresholds.
fn write_sets(
    out: &mut Vec<u8>,
    caller: u32,
    pages: &Plain,
    layout: &Layout,
    zone: PlaceId,
    found: u64,
) -> Result<(), Memory>
    requires shaped { HasShape layout.now pages.now }
    requires zone { IsZone layout.now zone.number }
    ensures ok { OnOk result (out.new.items
        ≡ out.old.items ++ step_lines caller (sets_told pages.now found zone.number)) }
    ensures err { OnErr result (Begins out.old.items out.new.items) }
{
    let mark = pages.load_mark(zone).mark;
    if mark != found {
        push_event_line(out, caller, &Step::SetM(zone, mark))?;
    }
    write_thresholds(out, caller, pages, layout, zone)
}

/// The sets of a place's thresholds on the online CPUs.
pub(crate) fn write_thresholds(
    out: &mut Vec<u8>,
    caller: u32,
    pages: &Plain,
    layout: &Layout,
    place: PlaceId,
) -> Result<(), Memory>
    requires shaped { HasShape layout.now pages.now }
    requires place { IsPlace layout.now place.number }
    ensures ok { OnOk result (out.new.items
        ≡ out.old.items ++ step_lines caller (thresholds_told pages.now place.number)) }
    ensures err { OnErr result (Begins out.old.items out.new.items) }
{
    for number in 0..layout.cpus() {
        let cpu = CpuId { number };
        if is_online(pages.load_state(cpu)) {
            let threshold = pages.load_threshold(cpu, place).t;
            push_event_line(out, caller, &Step::SetT(cpu, place, threshold))?;
        }
    }
    Ok(())
}

#[inline]
fn is_online(state: CpuState) -> bool
    ensures { result ≡ tells_online state }
{
    match state {
        CpuState::Online => true,
        CpuState::Dead | CpuState::Absent => false,
    }
}
