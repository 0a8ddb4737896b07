use vms_base::{Memory, Overflow};

/// Why no handle was begun.
#[derive(Clone, Copy, Debug, PartialEq, Eq, thiserror::Error)]
pub enum BeginError {
    /// The layout has no such CPU, or it isn't online.
    #[error("CPU {0} isn't online")]
    NotOnline(u32),
    /// A handle that hasn't ended owns the CPU.
    #[error("CPU {0} has a handle")]
    HasHandle(u32),
    /// A control handle hasn't ended.
    #[error("there is a control handle")]
    HasControl,
    #[error("{0}")]
    Memory(Memory),
}

/// Why a call of a handle made nothing.
#[derive(Clone, Copy, Debug, PartialEq, Eq, thiserror::Error)]
pub enum CallError {
    /// The layout has no such counter.
    #[error("there is no counter {0}")]
    NoCounter(u32),
    /// The layout has no such system-wide value.
    #[error("there is no item {0}")]
    NoItem(u32),
    /// The layout has no such CPU.
    #[error("there is no CPU {0}")]
    NoCpu(u32),
    /// The layout has no such zone.
    #[error("there is no zone {0}")]
    NoZone(u32),
    /// The layout has no such node.
    #[error("there is no node {0}")]
    NoNode(u32),
    /// No zone has such an index: they are 0 to 3.
    #[error("there is no zone index {0}")]
    NoZoneIndex(u32),
    /// No block has such an order: they are 0 to 10.
    #[error("there is no order {0}")]
    NoOrder(u32),
    /// A threshold or a mark was set 2,000,000 times.
    #[error("thresholds were set too often")]
    TooOften,
    /// No event has such a number: they are 0 to 7.
    #[error("there is no event {0}")]
    NoEvent(u32),
    /// The header declares no such percpu counter.
    #[error("there is no percpu counter {0}")]
    NoPcpu(u32),
    /// A limit, or a number that a percpu counter is compared with, is further from 0 than 2^60.
    #[error("the number is further from 0 than 2^60")]
    TooFar,
    /// The CPU would have changed the counter by more than 2^48 in absolute sum: by pages, counts or amounts.
    #[error("{0}")]
    TooMuch(Overflow),
    /// Others held the lock of the percpu counter, and the call doesn't wait.
    #[error("others hold the counter's lock")]
    Held,
}

/// Why a CPU wasn't buried.
#[derive(Clone, Copy, Debug, PartialEq, Eq, thiserror::Error)]
pub enum BuryError {
    /// The layout has no such CPU.
    #[error("there is no CPU {0}")]
    NoCpu(u32),
    /// The CPU is online or absent.
    #[error("CPU {0} isn't dead")]
    NotDead(u32),
    /// A threshold or a mark was set 2,000,000 times.
    #[error("thresholds were set too often")]
    TooOften,
}
