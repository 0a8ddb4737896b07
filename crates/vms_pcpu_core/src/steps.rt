use crate::PcpuState;
use vms_base::{CpuId, CpuState, Layout, PcpuId, Row};

/// What is known of the percpu counters from the start.
#[derive(Debug, Drop)]
pub struct PcpuFacts {
    pub layout: Layout,
    /// Whether each CPU is online, dead or absent; it stays so.
    pub cpus: Row<CpuState>,
    /// The numbers that its histories begin with, under free locks.
    pub base: PcpuState,
}

/// One atomic step on the percpu counters. A load tells the number that stands; "own" is the CPU that the acting pass
/// owns.
#[derive(Clone, Copy, Debug, PartialEq, Eq)]
pub enum PcpuStep {
    /// Adds to the own local part.
    AddL(PcpuId, i64),
    /// Loads a CPU's local part.
    LoadL(PcpuId, CpuId, i64),
    /// Loads the shared part.
    LoadC(PcpuId, i64),
    /// Takes the lock, which was free.
    Won(PcpuId),
    /// Finds the lock held.
    Missed(PcpuId),
    /// Takes the own local part, or that of a dead CPU, which becomes 0.
    TakeL(PcpuId, CpuId, i64),
    /// Adds to the shared part.
    AddC(PcpuId, i64),
    /// Gives the lock back.
    Unlock(PcpuId),
    /// Begins a pass, which owns a CPU or is the control pass.
    Split(u32, Option<CpuId>),
    /// Ends a pass.
    Join(u32),
}

/// A step on the percpu counters with the number of its pass.
pub type Event = vms_history::Event<PcpuStep>;
