ghost use Rattle.std.specs.Prelude.{IfOk};
ghost use Rattle.vms_world.specs.Common.{IsHeader, IsThresholdRule, IsWorldOf};

use crate::machines::{closes, read_header};
use std::alloc::Global;
use std::sync::Wait;
use std::test::Fail;
use vms_base::{CpuId, CpuState, Header, ZoneSize};
use vms_calc::{Rule, Rules, normal_threshold, pressure_threshold};
use vms_counters::{BuryError, Counters};
use vms_hotplug::{start, take_down};
use vms_world::World;

/// Two CPUs and a zone.
const TWO_CPUS: &str = "vmtrace 1\ncpus 2\nzone 0 Normal 262144 100 125 150\ngo\n";

const FIRST: CpuId = CpuId { number: 0 };

const SECOND: CpuId = CpuId { number: 1 };

const THIRD: CpuId = CpuId { number: 2 };

/// What the burials of a CPU that is online, of one that isn't there, and twice of a dead one answer.
type Told = [Result<(), BuryError>; 4];

/// Takes the second of two CPUs down.
fn take_second_down(world: &mut World) -> Result<(), Fail>
    ensures { (header : Header) → IsWorldOf header world.old → IsWorldOf header world.new }
{
    if world.pages.cpu.len() != 2 {
        return Err(Fail::new("there aren't two CPUs"));
    }
    match (world.pages.cpu_at(FIRST), world.pages.cpu_at(SECOND)) {
        (CpuState::Online, CpuState::Online) => {
            take_down(world, SECOND);
            Ok(())
        }
        _ => Err(Fail::new("a CPU isn't online")),
    }
}

/// The world in which the machine's second CPU is dead.
fn world_with_dead<N: Rule, P: Rule>(
    alloc: Global,
    header: &Header,
    rules: &Rules<N, P>,
) -> Result<World, Fail>
    requires { IsHeader header.now }
    ensures { IfOk result (IsWorldOf header.now) }
{
    let mut world = start(alloc, header, rules)?;
    match take_second_down(&mut world) {
        Ok(()) => Ok(world),
        Err(error) => {
            drop(world);
            Err(error)
        }
    }
}

/// Counters of the machine with its second CPU dead.
fn opened<N: Rule, P: Rule>(alloc: Global, rules: &Rules<N, P>) -> Result<Counters, Fail> {
    let header = read_header(alloc, TWO_CPUS)?;
    match world_with_dead(alloc, &header, rules) {
        Ok(world) => Ok(Counters::open_at(alloc, header, world)?),
        Err(error) => {
            drop(header);
            Err(error)
        }
    }
}

/// What the burials answer.
fn bury_each<R: Wait, N: Rule, P: Rule>(
    rt: &R,
    counters: &mut Counters,
    rules: &Rules<N, P>,
) -> Result<Told, Fail> {
    let mut control = counters.begin_control()?;
    let told = [
        control.bury(rt, rules, FIRST),
        control.bury(rt, rules, THIRD),
        control.bury(rt, rules, SECOND),
        control.bury(rt, rules, SECOND),
    ];
    counters.end_control(control);
    Ok(told)
}

/// Whether a handle may begin on a CPU. It is ended again.
fn may_begin(counters: &mut Counters, cpu: CpuId) -> bool {
    match counters.begin(cpu) {
        Ok(handle) => {
            counters.end(handle);
            true
        }
        Err(_why) => false,
    }
}

/// What the burials answer under these rules. Afterwards a handle may begin on the first CPU alone, and the counters
/// close.
fn buried_by<R: Wait, N: Rule, P: Rule>(
    rt: &R,
    alloc: Global,
    normal: N,
    pressure: P,
) -> Result<Told, Fail>
    requires normal { IsThresholdRule (N.accepts normal) (N.answers normal) }
    requires pressure { IsThresholdRule (P.accepts pressure) (P.answers pressure) }
{
    let rules = Rules::make(normal, pressure);
    let mut counters = opened(alloc, &rules)?;
    let told = bury_each(rt, &mut counters, &rules);
    let first = may_begin(&mut counters, FIRST);
    let second = may_begin(&mut counters, SECOND);
    let closed = closes(counters);
    let told = told?;
    if !first || second || !closed {
        return Err(Fail::new("a handle begins where it can't, or none does where it can"));
    }
    Ok(told)
}

/// A dead CPU is buried once, and no other.
#[test]
fn a_dead_cpu_is_buried(rt: HostRuntime) -> Result<(), Fail> {
    let told = buried_by(
        &rt,
        rt.alloc(),
        |size: &ZoneSize, online: u32| normal_threshold(size, online),
        |size: &ZoneSize, online: u32| pressure_threshold(size, online),
    )?;
    assert_eq!(rt;
        told[0],
        Err(BuryError::NotDead(0)),
        "of a CPU that is online"
    );
    assert_eq!(rt; told[1], Err(BuryError::NoCpu(2)), "of no CPU");
    assert_eq!(rt; told[2], Ok(()), "of a dead CPU");
    assert_eq!(rt;
        told[3],
        Err(BuryError::NotDead(1)),
        "of a CPU that is absent"
    );
    Ok(())
}
