use crate::rises::Rises;
use vms_base::CpuId;
use vms_cells::{Grid, Tally};
use vms_group_core::GroupState;

/// What stands after a history of a tree of groups.
#[derive(Debug, Drop)]
pub struct GroupRegisters {
    pub(crate) state: GroupState,
    /// What a CPU has spent, by CPU and group.
    pub(crate) spent: Grid<u64>,
    /// What the pass in a slot carries for the value of a group, by slot and group.
    pub(crate) carried: Tally,
    pub(crate) rises: Rises,
}

ghost use Rattle.std.specs.Prelude.{◌≡◌, ◌<◌, length, slice_index_or, pos, slice_set};
ghost use Rattle.vms_history.specs.Common.{cell};

/// Where the pending word of a CPU for a group stands.
#[inline]
fn place(state: &GroupState, groups: usize, cpu: CpuId, group: u32) -> usize
    requires { cell groups cpu.number group < length state.now.pending }
    ensures { result ≡ cell groups cpu.number group }
{
    let _ = state.pending.len();
    cpu.number as usize * groups + group as usize
}

#[inline]
pub(crate) fn pending(state: &GroupState, groups: usize, cpu: CpuId, group: u32) -> i64
    requires { cell groups cpu.number group < length state.now.pending }
    ensures { result ≡ slice_index_or state.now.pending (cell groups cpu.number group) (pos 0) }
{
    state.pending.get(place(state, groups, cpu, group))
}

#[inline]
pub(crate) fn set_pending(state: &mut GroupState, groups: usize, cpu: CpuId, group: u32, value: i64)
    requires { cell groups cpu.number group < length state.old.pending }
    ensures { state.new ≡ record state.old {
      pending = slice_set state.old.pending (cell groups cpu.number group) value;
    } }
{
    let at = place(state, groups, cpu, group);
    state.pending.set(at, value);
}
