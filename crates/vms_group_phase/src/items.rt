use vms_base::CpuId;
use vms_group_core::GroupCall;

/// A line of a lane, with its number in the trace, counted from 1.
#[derive(Clone, Copy, Debug, PartialEq, Eq)]
pub struct GroupItem {
    pub number: u32,
    /// The CPU of the lane.
    pub cpu: CpuId,
    pub call: GroupCall,
}

/// What a line that asks for a value answers, with the number of the line.
#[derive(Clone, Copy, Debug, PartialEq, Eq)]
pub struct NumberedValue {
    pub number: u32,
    pub value: i64,
}
