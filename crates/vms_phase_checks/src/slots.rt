//! The lane whose pass stands in a slot.

ghost use Rattle.std.specs.Prelude.{◌≡◌};
ghost use Rattle.vms_registers.specs.Slots.{slot_of};
ghost use Rattle.vms_world.specs.Common.{owner_of};
ghost use Rattle.vms_phase_checks.specs.Slots.{lane_for};

use vms_base::CpuId;
use vms_text::Lane;

/// The lane whose pass owns a CPU, or the control lane.
#[inline]
pub(crate) fn lane_for(who: Option<CpuId>) -> Lane
    ensures { result ≡ lane_for who }
{
    match who {
        Some(cpu) => Lane::Cpu(cpu),
        None => Lane::Control,
    }
}

/// The slot of a pass that owns a CPU, or of the control pass.
#[inline]
pub(crate) fn slot_for(cpus: u32, who: Option<CpuId>) -> u32
    ensures { result ≡ slot_of cpus who }
{
    match who {
        Some(cpu) => cpu.number,
        None => cpus,
    }
}

/// The CPU that the pass of a lane owns.
#[inline]
pub(crate) fn owner_for(lane: Lane) -> Option<CpuId>
    ensures { result ≡ owner_of lane }
{
    match lane {
        Lane::Cpu(cpu) => Some(cpu),
        Lane::Control => None,
    }
}
