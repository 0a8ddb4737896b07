//! The calls that look at values.

ghost use Rattle.std.specs.Prelude.{◌≡◌, ◌+◌, ◌*◌, ◌<◌, ◌≤◌, ◌^◌, ◌+ℤ◌, ℕ, ℤ, suc, IfOk, OnErr, OnOk, Option, length};
ghost use Rattle.std.specs.Prelude.{unsigned_abs};
ghost use Rattle.vms_text.specs.Common.{Begins};
ghost use Rattle.vms_calls.specs.Common.{CpuId, IsCounter, IsCpu, IsLayout, at_least_zero, counters_of};
ghost use Rattle.vms_calls.specs.Common.{is_online as tells_online};
ghost use Rattle.vms_plain_pages.specs.Common.{IsSmallState};
ghost use Rattle.vms_plans.specs.Common.{looks_plan, snapshot_plan, system_plan, value_plan};
ghost use Rattle.vms_call_lines.specs.Lines.{BeginsWriting, WritesWay};

use crate::loads::{load_group, load_state, load_system, load_value};
use vms_base::{CounterId, CpuId, CpuState, ItemId, Layout, Memory};
use vms_core::Plain;

/// The global value of a counter, in pages, and 0 where it is negative.
pub(crate) fn write_value(
    out: &mut Vec<u8>,
    caller: u32,
    pages: &Plain,
    counter: CounterId,
) -> Result<u64, Memory>
    requires { counter.number < counters_of pages.now }
    ensures ok { IfOk result (λ answer. (who : Option CpuId) →
        WritesWay who (value_plan counter) pages.now caller out.old.items out.new.items answer pages.now) }
    ensures err { OnErr result (Begins out.old.items out.new.items) }
{
    let value = load_value(out, caller, pages, counter)?;
    Ok(clamped(value))
}

/// The system-wide value of an item, in pages, and 0 where it is negative.
pub(crate) fn write_system(
    out: &mut Vec<u8>,
    caller: u32,
    pages: &Plain,
    item: ItemId,
) -> Result<u64, Memory>
    requires { item.number < length pages.now.system }
    ensures ok { IfOk result (λ answer. (who : Option CpuId) →
        WritesWay who (system_plan item) pages.now caller out.old.items out.new.items answer pages.now) }
    ensures err { OnErr result (Begins out.old.items out.new.items) }
{
    let value = load_system(out, caller, pages, item)?;
    Ok(clamped(value))
}

/// The global value of a counter with what the online CPUs have not folded yet, in pages, and 0 where that is negative.
pub(crate) fn write_snapshot(
    out: &mut Vec<u8>,
    caller: u32,
    pages: &Plain,
    layout: &Layout,
    counter: CounterId,
) -> Result<u64, Memory>
    requires room { IsSmallState layout.now (2 ^ 61) pages.now }
    requires counter { IsCounter layout.now counter.number }
    ensures writes { IfOk result (λ answer. (who : Option CpuId) → WritesWay who (snapshot_plan layout.now counter)
        pages.now caller out.old.items out.new.items answer pages.now) }
    ensures is_layout { OnOk result (IsLayout layout.now) }
    ensures err { OnErr result (Begins out.old.items out.new.items) }
{
    let mut sum = load_value(out, caller, pages, counter)?;
    for number in 0..layout.cpus() {
        sum += write_look(out, caller, pages, layout, CpuId { number }, counter)?;
    }
    Ok(clamped(sum))
}

/// A look at a CPU: its differential of a counter where it is online, in pages, and else 0.
fn write_look(
    out: &mut Vec<u8>,
    caller: u32,
    pages: &Plain,
    layout: &Layout,
    cpu: CpuId,
    counter: CounterId,
) -> Result<i64, Memory>
    requires room { IsSmallState layout.now (2 ^ 61) pages.now }
    requires cpu { IsCpu layout.now cpu.number }
    requires counter { IsCounter layout.now counter.number }
    ensures bound { IfOk result (λ found. unsigned_abs found ≤ 128) }
    ensures look { IfOk result (λ found. (who : Option CpuId) (n : ℕ) (sum : ℤ) → BeginsWriting who
        (looks_plan counter cpu.number (suc n) sum) pages.now caller out.old.items out.new.items
        (looks_plan counter (suc cpu.number) n (sum +ℤ found)) pages.now) }
    ensures err { OnErr result (Begins out.old.items out.new.items) }
{
    let state = load_state(out, caller, pages, cpu)?;
    if !is_online(state) {
        return Ok(0);
    }
    let list = load_group(out, caller, pages, cpu, layout.group(counter))?;
    Ok(list.values[(counter.number % 8) as usize])
}

#[inline]
fn is_online(state: CpuState) -> bool
    ensures { result ≡ tells_online state }
{
    match state {
        CpuState::Online => true,
        CpuState::Dead | CpuState::Absent => false,
    }
}

#[inline]
pub(crate) fn clamped(pages: i64) -> u64
    ensures { result ≡ at_least_zero pages }
{
    pages.max(0) as u64
}
