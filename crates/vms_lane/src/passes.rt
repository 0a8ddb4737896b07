ghost use Rattle.vms_burial.specs.Common.{passes_of};
ghost use Rattle.vms_tables.specs.Common.{AreLive};

use vms_burial::ControlPasses;
use vms_tables::CpuPasses;
use vms_words::Caller;

/// The passes of a lane: one in each table.
#[derive(Drop)]
pub enum LanePasses {
    /// Those of a CPU's lane, which own the CPU.
    Cpu(CpuPasses),
    /// Those of the control lane, which own no CPU.
    Control(ControlPasses),
}

impl LanePasses {
    ghost use Rattle.vms_lane.specs.LanePasses.{passes_in};
    ghost use Rattle.vms_tables.specs.Common.{AreLive};

    /// What holds of the passes at any time: they live in the legal histories that they have seen.
    #[inline]
    pub fn are_live(&self)
        ensures { AreLive (passes_in self.now) }
    {
        match self {
            LanePasses::Cpu(passes) => passes.are_live(),
            LanePasses::Control(passes) => control_passes_are_live(passes),
        }
    }
}

/// The same of control passes.
#[inline]
pub(crate) fn control_passes_are_live(passes: &ControlPasses)
    ensures { AreLive (passes_of passes.now) }
{
    passes.page.is_live();
    passes.event.is_control();
    passes.pcpu.is_ready();
}
