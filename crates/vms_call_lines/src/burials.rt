//! The burial of a dead CPU.

ghost use Rattle.std.specs.Prelude.{◌≡◌, ◌-◌, ◌^◌, false, OnErr, OnOk};
ghost use Rattle.vms_text.specs.Common.{Begins};
ghost use Rattle.vms_calls.specs.Common.{Absent, Buries, Dead, HasOnline, IsCpu, IsHeader, State, cpu_at, facts_of};
ghost use Rattle.vms_calls.specs.Common.{most_sets, with_cpu};
ghost use Rattle.vms_plain_pages.specs.Common.{FoldsCpu, IsSmallState};
ghost use Rattle.vms_plain_control.specs.Common.{HasAllPeaks, SetAtMost, SetsEachAtMost, SetsOnly};
ghost use Rattle.vms_call_lines.specs.Calls.{UnladenWrites};
ghost use Rattle.vms_call_lines.specs.Folds.{WritesRemoval};

use crate::folds::write_fold;
use vms_base::{CpuId, Header, Layout, Memory};
use vms_calc::{Rule, Rules};
use vms_calls::folds_may_be_made;
use vms_core::{Plain, Step};
use vms_plain_control::Peaks;
use vms_rating_lines::write_refresh;
use vms_written_lines::push_event_line;

/// Buries a dead CPU, as `vms_plain_control::bury` does.
pub(crate) fn write_burial<N: Rule, P: Rule>(
    out: &mut Vec<u8>,
    caller: u32,
    pages: &mut Plain,
    peaks: &mut Peaks,
    header: &Header,
    rules: &Rules<N, P>,
    cpu: CpuId,
) -> Result<(), Memory>
    requires header { IsHeader header.now }
    requires numbers { IsSmallState header.now.layout (2 ^ 61) pages.old }
    requires full { HasAllPeaks header.now.layout peaks.old }
    requires some_online { HasOnline header.now.layout pages.old.cpu }
    requires room { SetAtMost header.now.layout (most_sets - 1) pages.old }
    requires cpu { IsCpu header.now.layout cpu.number }
    requires dead { cpu_at pages.old cpu.number ≡ Dead }
    ensures writes { OnOk result (UnladenWrites header.now
        (λ base p h steps. Buries (facts_of header.now base) (N.answers rules.now.normal) cpu p h steps)
        caller pages.old peaks.old pages.new peaks.new out.old.items out.new.items) }
    ensures folds { OnOk result ((folded : State) × FoldsCpu header.now.layout false cpu.number pages.old folded
        × SetsOnly (with_cpu folded cpu.number Absent) pages.new) }
    ensures sets { OnOk result (SetsEachAtMost header.now.layout 1 pages.old pages.new) }
    ensures full { OnOk result (HasAllPeaks header.now.layout peaks.new) }
    ensures err { OnErr result (Begins out.old.items out.new.items) }
{
    folds_may_be_made();
    write_removal(out, caller, pages, &header.layout, cpu)?;
    write_refresh(out, caller, pages, peaks, header, rules)
}

/// Folds a dead CPU and makes it absent.
fn write_removal(
    out: &mut Vec<u8>,
    caller: u32,
    pages: &mut Plain,
    layout: &Layout,
    cpu: CpuId,
) -> Result<(), Memory>
    requires numbers { IsSmallState layout.now (2 ^ 61) pages.old }
    requires cpu { IsCpu layout.now cpu.number }
    requires dead { cpu_at pages.old cpu.number ≡ Dead }
    ensures ok { OnOk result (WritesRemoval layout.now cpu caller pages.old pages.new out.old.items out.new.items) }
    ensures err { OnErr result (Begins out.old.items out.new.items) }
{
    write_fold(out, caller, pages, layout, cpu, false)?;
    push_event_line(out, caller, &Step::SetO(cpu))?;
    pages.set_absent(cpu);
    Ok(())
}
