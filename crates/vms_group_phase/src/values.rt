ghost use Rattle.std.specs.Prelude.{◌≡◌, ℕ, suc, ◌<◌, ◌≤◌, [], All, IfOk, length, pos, slice_index, slice_index_or};
ghost use Rattle.std.specs.Prelude.{slice_set};
ghost use Rattle.vms_group_phase.specs.Lanes.{taken_after, values_of};
ghost use Rattle.vms_group_phase.specs.Lines.{asking, lane_lines};

use crate::items::{GroupItem, NumberedValue};
use crate::lanes::LaneValues;
use std::alloc::Global;
use vms_base::{CpuId, Memory, Row};
use vms_group_core::GroupCall;

/// The values that the lines of a phase ask for, in the order of the lines, from what each lane found, by CPU.
pub(crate) fn values_in_order(
    alloc: Global,
    lanes: &[LaneValues],
    items: &[GroupItem],
) -> Result<Vec<NumberedValue>, Memory>
    requires cpus { All (λ item. item.cpu.number < length lanes.now) items.now }
    requires enough { All (λ item. length (asking (lane_lines item.cpu.number items.now))
        ≤ length (values_of lanes.now item.cpu.number)) items.now }
    ensures { IfOk result (λ values. values.items ≡ taken_after (values_of lanes.now) [] items.now) }
{
    let mut counts = Row::filled(alloc, lanes.len(), 0)?;
    let mut values = Vec::new(alloc);
    for item in items {
        if let GroupCall::Value(_) = item.call {
            values.push(NumberedValue {
                number: item.number,
                value: next_value(lanes, &mut counts, item.cpu),
            })?;
        }
    }
    Ok(values)
}

/// The next value of a CPU's lane. `counts` has how many of each lane were taken.
#[inline]
fn next_value(lanes: &[LaneValues], counts: &mut Row<usize>, cpu: CpuId) -> i64
    requires cpu { cpu.number < length lanes.now }
    requires one_each { length counts.old ≡ length lanes.now }
    requires left { slice_index counts.old cpu.number < length (values_of lanes.now cpu.number) }
    ensures value { result ≡ slice_index_or (values_of lanes.now cpu.number) (slice_index counts.old cpu.number)
        (pos 0) }
    ensures counts { counts.new ≡ slice_set counts.old cpu.number (suc (slice_index counts.old cpu.number)) }
{
    let lane = cpu.number as usize;
    let next = counts.get(lane);
    let value = lanes[lane].items[next];
    counts.set(lane, next + 1);
    value
}
