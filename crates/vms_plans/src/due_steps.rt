use vms_base::{CounterId, CpuId, Diffs, GroupId, ItemId, Mode, PlaceId};
use vms_core::Step;

/// A step that is due in a call. What a load or a take tells is left open, and so is whether an exchange wins: the step
/// is named up to there.
#[derive(Clone, Copy, Debug, PartialEq, Eq)]
pub enum DueStep {
    /// This step.
    Makes(Step),
    /// A load of the own threshold of a place.
    LoadsThreshold(PlaceId),
    /// A load of a CPU's eight differentials of a group.
    LoadsGroup(CpuId, GroupId),
    /// The exchange of the list that was found in a group, which wins or loses: the counter, the list, the threshold,
    /// the change and its mode.
    Exchanges(CounterId, Diffs, u32, i64, Mode),
    /// The exchange of eight zeros, which wins: the counter, the threshold, the change and its mode.
    ExchangesZeros(CounterId, u32, i64, Mode),
    /// The take of a CPU's eight differentials of a group.
    Takes(CpuId, GroupId),
    /// A load of a global value.
    LoadsValue(CounterId),
    /// A load of a system-wide value.
    LoadsSystem(ItemId),
    /// A load of a zone's drift mark.
    LoadsMark(PlaceId),
    /// A load of a CPU's state.
    LoadsState(CpuId),
    /// A load of what a CPU acknowledged last of a zone.
    LoadsAcknowledged(CpuId, PlaceId),
}
