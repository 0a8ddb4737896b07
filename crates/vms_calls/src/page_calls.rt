ghost use Rattle.vms_history.specs.Common.{GivesThresholds};
ghost use Rattle.vms_calls.specs.PageCalls.{MakesPageCalls, PageCallsSpend, TellsPageCall};

use crate::{Balance, ThresholdRules, Verdict};
use vms_base::{CounterId, CpuId, ItemId, Mode, PlaceId, WaterMark};

/// A call on the page counters. A change is made by a pass that owns a CPU. The calls that set thresholds, a burial and
/// a turn of kswapd are made by the control pass, and the others by every pass.
#[derive(Clone, Copy, Debug, PartialEq, Eq)]
pub enum PageCall {
    /// Changes a counter of the own CPU by so many pages (`mod_zone_state`, `inc_zone_state` and `dec_zone_state` of
    /// mm/vmstat.c, and the same of nodes).
    Change(CounterId, i64, Mode),
    /// Folds the differentials of a CPU into the global values (`refresh_cpu_vm_stats` and `cpu_vm_stats_fold` of
    /// mm/vmstat.c).
    Fold(CpuId),
    /// Tests a watermark of a zone for allocations up to a highest zone index (`zone_watermark_ok_safe` of
    /// mm/page_alloc.c).
    Test(PlaceId, WaterMark, u32),
    /// Looks at a counter of a zone or a node (`zone_page_state` of include/linux/vmstat.h).
    Value(CounterId),
    /// Looks at a counter with all differentials (`zone_page_state_snapshot` of include/linux/vmstat.h).
    Snapshot(CounterId),
    /// Looks at a system-wide value (`global_zone_page_state` of include/linux/vmstat.h).
    System(ItemId),
    /// Gives the zones of a node the thresholds for pressure (`set_pgdat_percpu_threshold` of mm/vmstat.c).
    SetPressure(PlaceId),
    /// Gives the zones of a node the normal thresholds.
    SetNormal(PlaceId),
    /// Folds a dead CPU, makes it absent and refreshes all thresholds.
    Bury(CpuId),
    /// A turn of kswapd on a node, for blocks of an order and a highest zone index (`kswapd_try_to_sleep` of
    /// mm/vmscan.c).
    Turn(PlaceId, u32, u32),
}

/// What a call on the page counters answers.
#[derive(Clone, Copy, Debug, PartialEq, Eq)]
pub enum PageAnswer {
    /// That it is made.
    Done,
    /// Whether a zone has free pages enough.
    Tested(Verdict),
    /// A counter in pages, as a reader sees it.
    Value(u64),
    /// A counter in pages with all differentials.
    Snapshot(u64),
    /// A system-wide value in pages.
    System(u64),
    /// Whether a node is balanced.
    Balanced(Balance),
}

/// A pass that may make a call may make its steps, whatever others do between them. After them it carries what it
/// carried before, and has changed each counter by what the call spends. The steps tell the call's answer, and where
/// they end among further steps.
pub fn page_calls_keep_their_laws<R: ThresholdRules>()
    ensures may { GivesThresholds R.pressure → GivesThresholds R.normal → MakesPageCalls R.pressure R.normal }
    ensures spends { PageCallsSpend R.pressure R.normal }
    ensures tells { TellsPageCall R.pressure R.normal }
{}
