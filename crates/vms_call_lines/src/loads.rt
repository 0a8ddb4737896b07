//! Single loads: each appends the line of its event.

ghost use Rattle.std.specs.Prelude.{◌≡◌, ◌<◌, ◌/◌, ◌++◌, IfOk, OnErr, length};
ghost use Rattle.std.specs.Int.{w64};
ghost use Rattle.std.specs.Int.RustNames.{FitsSigned};
ghost use Rattle.vms_text.specs.Common.{Begins};
ghost use Rattle.vms_calls.specs.Common.{LoadD, LoadG, LoadM, LoadO, LoadS, LoadT, TellsGroup, counters_of, cpu_at};
ghost use Rattle.vms_calls.specs.Common.{places_of, threshold_at, threshold_sets_at, mark_at, mark_sets_at, system_at};
ghost use Rattle.vms_calls.specs.Common.{value_at, zones_of};
ghost use Rattle.vms_written_lines.specs.Spelling.{event_line};
ghost use Rattle.vms_written_lines.specs.WideSteps.{widened};

use vms_base::{CounterId, CpuId, CpuState, Diffs, GroupId, ItemId, Memory, PlaceId};
use vms_core::{MarkRead, Plain, Step, Threshold};
use vms_written_lines::push_event_line;

/// The global value of a counter.
pub(crate) fn load_value(
    out: &mut Vec<u8>,
    caller: u32,
    pages: &Plain,
    counter: CounterId,
) -> Result<i64, Memory>
    requires { counter.number < counters_of pages.now }
    ensures fits { IfOk result (λ v. FitsSigned w64 v) }
    ensures load { IfOk result (λ v. (v ≡ value_at pages.now counter.number)
        × (out.new.items ≡ out.old.items ++ event_line caller (widened (LoadG counter v)))) }
    ensures err { OnErr result (Begins out.old.items out.new.items) }
{
    let value = pages.load_place(counter);
    push_event_line(out, caller, &Step::LoadG(counter, value))?;
    Ok(value)
}

/// The system-wide value of an item.
pub(crate) fn load_system(
    out: &mut Vec<u8>,
    caller: u32,
    pages: &Plain,
    item: ItemId,
) -> Result<i64, Memory>
    requires { item.number < length pages.now.system }
    ensures fits { IfOk result (λ v. FitsSigned w64 v) }
    ensures load { IfOk result (λ v. (v ≡ system_at pages.now item.number)
        × (out.new.items ≡ out.old.items ++ event_line caller (widened (LoadS item v)))) }
    ensures err { OnErr result (Begins out.old.items out.new.items) }
{
    let value = pages.load_system(item);
    push_event_line(out, caller, &Step::LoadS(item, value))?;
    Ok(value)
}

/// A CPU's differentials in a group.
pub(crate) fn load_group(
    out: &mut Vec<u8>,
    caller: u32,
    pages: &Plain,
    cpu: CpuId,
    group: GroupId,
) -> Result<Diffs, Memory>
    requires cpu { cpu.number < length pages.now.cpu }
    requires group { group.number < counters_of pages.now / 8 }
    ensures ok { IfOk result (λ list. TellsGroup pages.now cpu.number group.number list.values
        × (out.new.items ≡ out.old.items ++ event_line caller (widened (LoadD cpu group list)))) }
    ensures err { OnErr result (Begins out.old.items out.new.items) }
{
    let list = pages.load_diffs(cpu, group);
    push_event_line(out, caller, &Step::LoadD(cpu, group, list))?;
    Ok(list)
}

/// The drift mark of a zone.
pub(crate) fn load_mark(
    out: &mut Vec<u8>,
    caller: u32,
    pages: &Plain,
    zone: PlaceId,
) -> Result<MarkRead, Memory>
    requires { zone.number < zones_of pages.now }
    ensures ok { IfOk result (λ read. (read.mark ≡ mark_at pages.now zone.number)
        × (read.number ≡ mark_sets_at pages.now zone.number)
        × (out.new.items ≡ out.old.items ++ event_line caller (widened (LoadM zone read.mark read.number)))) }
    ensures err { OnErr result (Begins out.old.items out.new.items) }
{
    let read = pages.load_mark(zone);
    push_event_line(out, caller, &Step::LoadM(zone, read.mark, read.number))?;
    Ok(read)
}

/// The state of a CPU.
pub(crate) fn load_state(
    out: &mut Vec<u8>,
    caller: u32,
    pages: &Plain,
    cpu: CpuId,
) -> Result<CpuState, Memory>
    requires { cpu.number < length pages.now.cpu }
    ensures ok { IfOk result (λ x. (x ≡ cpu_at pages.now cpu.number)
        × (out.new.items ≡ out.old.items ++ event_line caller (widened (LoadO cpu x)))) }
    ensures err { OnErr result (Begins out.old.items out.new.items) }
{
    let state = pages.load_state(cpu);
    push_event_line(out, caller, &Step::LoadO(cpu, state))?;
    Ok(state)
}

/// The threshold of a CPU in a place.
pub(crate) fn load_threshold(
    out: &mut Vec<u8>,
    caller: u32,
    pages: &Plain,
    cpu: CpuId,
    place: PlaceId,
) -> Result<Threshold, Memory>
    requires cpu { cpu.number < length pages.now.cpu }
    requires place { place.number < places_of pages.now }
    ensures ok { IfOk result (λ read. (read.t ≡ threshold_at pages.now cpu.number place.number)
        × (read.number ≡ threshold_sets_at pages.now cpu.number place.number)
        × (out.new.items ≡ out.old.items ++ event_line caller (widened (LoadT place read.t read.number)))) }
    ensures err { OnErr result (Begins out.old.items out.new.items) }
{
    let read = pages.load_threshold(cpu, place);
    push_event_line(out, caller, &Step::LoadT(place, read.t, read.number))?;
    Ok(read)
}
