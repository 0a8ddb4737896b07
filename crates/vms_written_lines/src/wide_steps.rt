use vms_base::{CounterId, CpuId, CpuState, GroupId, ItemId, Mode, PlaceId};

/// A step on the page counters with its numbers as a line gives them: the kinds and the arguments are those of `Step`.
/// A number that fits 64 bits may be out of the range that the step has for it.
#[derive(Clone, Copy, Debug, PartialEq, Eq)]
pub enum WideStep {
    LoadT(PlaceId, u64, u64),
    LoadD(CpuId, GroupId, [i64; 8]),
    Put(CounterId, [i64; 8], u64, i64, Mode),
    Miss(GroupId, [i64; 8]),
    AddG(CounterId, i64),
    AddS(ItemId, i64),
    Take(CpuId, GroupId, [i64; 8]),
    LoadG(CounterId, i64),
    LoadS(ItemId, i64),
    LoadM(PlaceId, u64, u64),
    LoadO(CpuId, CpuState),
    SetT(CpuId, PlaceId, u64),
    SetM(PlaceId, u64),
    SetO(CpuId),
    SetA(PlaceId, u64),
    LoadA(CpuId, PlaceId, Option<u64>),
    Split(u64, Option<CpuId>),
    Join(u64),
}
