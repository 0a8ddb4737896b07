ghost use Rattle.std.specs.Prelude.{◌≡◌, ◌≢◌, ℕ, ◌<◌, length, List};
ghost use Rattle.vms_world.specs.Common.{Header, Absent, IsCpu, cpu_at, with_cpu, brought_up, taken_down, AreAnswers};
ghost use Rattle.vms_world.specs.Common.{count_online, IsWorldOf};
ghost use Rattle.vms_base.specs.declared.kinds.CpuState.TheVariants.{Online};

use crate::refreshing::refresh;
use vms_base::{CpuId, CpuState, Header};
use vms_calc::{Rule, Rules};
use vms_world::World;

/// Takes an online CPU down, which isn't the only one. It is dead until it is buried: its thresholds, its differentials
/// and the marks stay, as between `vmstat_cpu_down_prep` and `vmstat_cpu_dead` of mm/vmstat.c.
pub fn take_down(world: &mut World, cpu: CpuId)
    requires cpu { cpu.number < length world.old.pages.cpu }
    requires online { cpu_at world.old.pages cpu.number ≡ Online }
    requires other { (d : ℕ) × (d ≢ cpu.number) × (cpu_at world.old.pages d ≡ Online) }
    ensures dead { world.new ≡ taken_down cpu.number world.old }
    ensures stays { (header : Header) → IsWorldOf header world.old → IsWorldOf header world.new }
{
    world.pages.cpu.set(cpu.number as usize, CpuState::Dead);
}

/// Brings an absent CPU up. Every online CPU, this one too, gets the thresholds that the normal rule answers for so
/// many, and each zone a mark that covers them (`vmstat_cpu_online` and `refresh_zone_stat_thresholds` of mm/vmstat.c).
/// The rule is asked once for each zone.
pub fn bring_up<N: Rule, P: Rule>(
    world: &mut World,
    header: &Header,
    rules: &Rules<N, P>,
    cpu: CpuId,
)
    requires world { IsWorldOf header.now world.old }
    requires cpu { IsCpu header.now.layout cpu.number }
    requires absent { cpu_at world.old.pages cpu.number ≡ Absent }
    ensures online { (zones : List ℕ) × AreAnswers header.now (N.answers rules.now.normal)
        (count_online (with_cpu world.old.pages cpu.number Online).cpu) zones
        × (world.new ≡ brought_up header.now zones cpu.number world.old) }
    ensures stays { IsWorldOf header.now world.new }
{
    rules.tells();
    world.pages.cpu.set(cpu.number as usize, CpuState::Online);
    refresh(&mut world.pages, header, rules);
}
