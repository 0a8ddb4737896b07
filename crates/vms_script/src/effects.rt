use crate::volumes::NewVolume;
use vms_base::{CpuId, CpuState};

/// What a line that counts changes in a judge.
#[derive(Clone, Copy)]
pub(crate) enum Effect {
    Nothing,
    /// Another state of a CPU.
    State(CpuId, CpuState),
    /// Another volume of a CPU on a page counter.
    Counter(NewVolume),
    /// The same on an event.
    Event(NewVolume),
    /// The same on a percpu counter.
    Pcpu(NewVolume),
}
