use vms_base::Row;

/// The percpu counters (`struct percpu_counter` of the kernel).
#[derive(Debug, Drop)]
pub struct PcpuState {
    /// What a local part may reach, by counter.
    pub batch: Row<u32>,
    /// The shared parts, by counter.
    pub count: Row<i64>,
    /// The local parts, by CPU and then counter.
    pub local: Row<i64>,
}
