ghost use Rattle.std.specs.Prelude.{◌≡◌, IfOk};
ghost use Rattle.vms_world.specs.Common.{Absent, IsHeader, IsCpu, normal_threshold_of, IsThresholdRule, cpu_at};
ghost use Rattle.vms_world.specs.Common.{started, IsWorldOf};
ghost use Rattle.vms_text.specs.declared.acts.Boundary.TheVariants.{Online};
ghost use Rattle.vms_replay.specs.KernelRules.{GoesBy, normal_zones};
ghost use Rattle.vms_replay.specs.MadePhases.{crossed};

use std::alloc::Global;
use vms_base::{CpuId, Header, Memory, ZoneSize};
use vms_calc::{Rule, Rules, normal_threshold, pressure_threshold};
use vms_hotplug::{bring_up, start};
use vms_world::World;

/// The world that a run begins with, under the thresholds of the kernel's rules.
pub(crate) fn first_world(alloc: Global, header: &Header) -> Result<World, Memory>
    requires { IsHeader header.now }
    ensures { IfOk result (λ w. w ≡ started header.now (normal_zones header.now header.now.layout.cpus)) }
{
    start_by(
        alloc,
        header,
        |size: &ZoneSize, online: u32| normal_threshold(size, online),
        |size: &ZoneSize, online: u32| pressure_threshold(size, online),
    )
}

fn start_by<N: Rule, P: Rule>(
    alloc: Global,
    header: &Header,
    normal: N,
    pressure: P,
) -> Result<World, Memory>
    requires header { IsHeader header.now }
    requires normal { IsThresholdRule (N.accepts normal) (N.answers normal) }
    requires pressure { IsThresholdRule (P.accepts pressure) (P.answers pressure) }
    requires exact { GoesBy normal_threshold_of (N.answers normal) }
    ensures { IfOk result (λ w. w ≡ started header.now (normal_zones header.now header.now.layout.cpus)) }
{
    start(alloc, header, &Rules::make(normal, pressure))
}

/// Brings an absent CPU up, under the thresholds of the kernel's rules.
pub(crate) fn bring_cpu_up(world: &mut World, header: &Header, cpu: CpuId)
    requires header { IsHeader header.now }
    requires world { IsWorldOf header.now world.old }
    requires cpu { IsCpu header.now.layout cpu.number }
    requires absent { cpu_at world.old.pages cpu.number ≡ Absent }
    ensures { world.new ≡ crossed header.now (Online cpu) world.old }
{
    bring_up_by(
        world,
        header,
        cpu,
        |size: &ZoneSize, online: u32| normal_threshold(size, online),
        |size: &ZoneSize, online: u32| pressure_threshold(size, online),
    );
}

fn bring_up_by<N: Rule, P: Rule>(
    world: &mut World,
    header: &Header,
    cpu: CpuId,
    normal: N,
    pressure: P,
)
    requires header { IsHeader header.now }
    requires world { IsWorldOf header.now world.old }
    requires cpu { IsCpu header.now.layout cpu.number }
    requires absent { cpu_at world.old.pages cpu.number ≡ Absent }
    requires normal { IsThresholdRule (N.accepts normal) (N.answers normal) }
    requires pressure { IsThresholdRule (P.accepts pressure) (P.answers pressure) }
    requires exact { GoesBy normal_threshold_of (N.answers normal) }
    ensures { world.new ≡ crossed header.now (Online cpu) world.old }
{
    bring_up(world, header, &Rules::make(normal, pressure), cpu);
}
