//! A change of a counter.

ghost use Rattle.std.specs.Prelude.{◌≡◌, ◌≤◌, ◌^◌, ◌++◌, OnErr, OnOk, Some, unsigned_abs};
ghost use Rattle.std.specs.Int.{w64};
ghost use Rattle.std.specs.Int.RustNames.{FitsSigned};
ghost use Rattle.vms_text.specs.Common.{Begins};
ghost use Rattle.vms_calls.specs.Common.{HasShape, IsCounter, IsCpu, State, carried_by, entry};
ghost use Rattle.vms_plans.specs.Common.{carrying, change_plan};
ghost use Rattle.vms_rating_lines.specs.Lines.{step_lines};
ghost use Rattle.vms_call_lines.specs.Lines.{WritesWay};

use crate::loads::{load_group, load_threshold};
use vms_base::{CounterId, CpuId, Diffs, Layout, Memory, Mode};
use vms_core::{Plain, Step, overstep};
use vms_written_lines::push_event_line;

/// A change of a counter of a CPU by its owner, by `delta` pages.
pub(crate) fn write_change(
    out: &mut Vec<u8>,
    caller: u32,
    pages: &Plain,
    layout: &Layout,
    cpu: CpuId,
    counter: CounterId,
    delta: i64,
    mode: Mode,
) -> Result<(), Memory>
    requires shaped { HasShape layout.now pages.now }
    requires cpu { IsCpu layout.now cpu.number }
    requires counter { IsCounter layout.now counter.number }
    requires delta { unsigned_abs delta ≤ 2 ^ 48 }
    ensures ok { OnOk result ((next : State) × WritesWay (Some cpu) (change_plan layout.now cpu counter delta mode)
        pages.now caller out.old.items out.new.items (tt {0}) next) }
    ensures err { OnErr result (Begins out.old.items out.new.items) }
{
    let read = load_threshold(out, caller, pages, cpu, layout.place_of(counter))?;
    let list = load_group(out, caller, pages, cpu, layout.group(counter))?;
    push_event_line(out, caller, &Step::Put(counter, list, read.t, delta, mode))?;
    let moved = moved(counter, &list, read.t, delta, mode);
    write_move(out, caller, layout, counter, moved)?;
    Ok(())
}

/// What a change carries to the global values, from the list that it put a differential into, under this threshold.
fn moved(counter: CounterId, list: &Diffs, t: u32, delta: i64, mode: Mode) -> i64
    requires { unsigned_abs delta ≤ 2 ^ 48 }
    ensures value { result ≡ carried_by mode t (entry list.now.values counter.number) delta }
    ensures fits { FitsSigned w64 result }
{
    let sum = list.values[(counter.number % 8) as usize] + delta;
    if sum.unsigned_abs() <= t as u64 {
        return 0;
    }
    sum + overstep(mode, t)
}

/// The additions of what a change carries: none of 0.
fn write_move(
    out: &mut Vec<u8>,
    caller: u32,
    layout: &Layout,
    counter: CounterId,
    moved: i64,
) -> Result<(), Memory>
    requires { IsCounter layout.now counter.number }
    ensures ok { OnOk result (out.new.items
        ≡ out.old.items ++ step_lines caller (carrying layout.now counter moved)) }
    ensures err { OnErr result (Begins out.old.items out.new.items) }
{
    if moved == 0 {
        return Ok(());
    }
    push_event_line(out, caller, &Step::AddG(counter, moved))?;
    push_event_line(out, caller, &Step::AddS(layout.item_of(counter), moved))?;
    Ok(())
}
