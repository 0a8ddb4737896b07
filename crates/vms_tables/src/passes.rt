use vms_event::{EventCaller, EventPass};
use vms_pcpu::PcpuPass;
use vms_words::{Caller, CpuPass};

/// The passes of a CPU's lane: one in each table, which own the lane's CPU. Contracts see in each the pass, and what
/// its CPU has changed each thing by since the run began, in absolute sum.
#[derive(Drop)]
pub struct CpuPasses {
    pub page: CpuPass,
    pub event: EventPass,
    pub pcpu: PcpuPass,
}

impl CpuPasses {
    ghost use Rattle.vms_tables.specs.Passes.{AreLive, passes_of};

    /// What holds of the passes at any time: they live in the legal histories that they have seen.
    #[inline]
    pub fn are_live(&self)
        ensures { AreLive (passes_of self.now) }
    {
        self.page.is_live();
        self.event.is_live();
        self.pcpu.is_ready();
    }
}
