use vms_base::Row;
use vms_core::State;
use vms_event_core::EventState;
use vms_pcpu_core::PcpuState;

/// By how much each CPU has changed each thing since the run began, in absolute sum, by CPU and then thing.
#[derive(Debug, Drop)]
pub struct Volumes {
    /// Of the page counters, in pages of 4096 bytes.
    pub pages: Row<u64>,
    pub events: Row<u64>,
    /// Of the percpu counters, in the order in which the header declares them.
    pub counters: Row<u64>,
}

/// All that stands between two phases of a run.
#[derive(Debug, Drop)]
pub struct World {
    /// The page counters, and whether each CPU is online, dead or absent.
    pub pages: State,
    pub events: EventState,
    pub counters: PcpuState,
    pub volumes: Volumes,
}
