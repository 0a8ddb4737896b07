ghost use Rattle.std.specs.Prelude.{◌≡◌, ◌-◌, ◌^◌, false, None};
ghost use Rattle.vms_calls.specs.Common.{Absent, Dead, HasOnline, IsHeader, IsCpu, State, HasShape, cpu_at, with_cpu};
ghost use Rattle.vms_calls.specs.Common.{most_sets, IsFold, facts_of, Buries};
ghost use Rattle.vms_plain_pages.specs.Common.{IsSmallState, CallLeadsAlone, FoldsCpu};
ghost use Rattle.vms_plain_control.specs.Control.{MakesUnladenCall};
ghost use Rattle.vms_plain_control.specs.KnownPeaks.{HasAllPeaks};
ghost use Rattle.vms_plain_control.specs.RatedPlaces.{RefreshesPlaces};
ghost use Rattle.vms_plain_control.specs.SetCounts.{SetAtMost, SetsEachAtMost, SetsOnly};

use crate::{Peaks, refresh};
use vms_base::{CpuId, Header, Layout};
use vms_calc::{Rule, Rules};
use vms_calls::folds_may_be_made;
use vms_core::Plain;
use vms_plain_pages::fold;

/// Buries a dead CPU: it is folded and becomes absent, and then the thresholds are refreshed (`cpu_vm_stats_fold` of
/// mm/vmstat.c, which `page_alloc_cpu_dead` calls, and `vmstat_cpu_dead`).
pub fn bury<N: Rule, P: Rule>(
    pages: &mut Plain,
    peaks: &mut Peaks,
    header: &Header,
    rules: &Rules<N, P>,
    cpu: CpuId,
)
    requires header { IsHeader header.now }
    requires numbers { IsSmallState header.now.layout (2 ^ 61) pages.old }
    requires full { HasAllPeaks header.now.layout peaks.old }
    requires some_online { HasOnline header.now.layout pages.old.cpu }
    requires room { SetAtMost header.now.layout (most_sets - 1) pages.old }
    requires cpu { IsCpu header.now.layout cpu.number }
    requires dead { cpu_at pages.old cpu.number ≡ Dead }
    ensures makes { MakesUnladenCall header.now (λ base p h steps. Buries (facts_of header.now base)
        (N.answers rules.now.normal) cpu p h steps)
        pages.old peaks.old pages.new peaks.new }
    ensures folds { (folded : State) × FoldsCpu header.now.layout false cpu.number pages.old folded
        × SetsOnly (with_cpu folded cpu.number Absent) pages.new }
    ensures places { (folded : State) × FoldsCpu header.now.layout false cpu.number pages.old folded
        × RefreshesPlaces header.now (N.answers rules.now.normal) (with_cpu folded cpu.number Absent) peaks.old
        pages.new peaks.new }
    ensures sets { SetsEachAtMost header.now.layout 1 pages.old pages.new }
    ensures shaped { HasShape header.now.layout pages.new }
    ensures full { HasAllPeaks header.now.layout peaks.new }
{
    folds_may_be_made();
    take_away(pages, &header.layout, cpu);
    refresh(pages, peaks, header, rules);
}

/// Folds a dead CPU and makes it absent.
fn take_away(pages: &mut Plain, layout: &Layout, cpu: CpuId)
    requires numbers { IsSmallState layout.now (2 ^ 61) pages.old }
    requires cpu { IsCpu layout.now cpu.number }
    requires dead { cpu_at pages.old cpu.number ≡ Dead }
    ensures { (folded : State) × FoldsCpu layout.now false cpu.number pages.old folded
        × CallLeadsAlone None (IsFold layout.now false cpu) pages.old folded
        × (pages.new ≡ with_cpu folded cpu.number Absent) }
{
    fold(pages, layout, cpu, false);
    pages.set_absent(cpu);
}
