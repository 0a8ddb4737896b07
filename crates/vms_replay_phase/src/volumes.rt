ghost use Rattle.std.specs.Prelude.{◌≡◌, ◌+◌, ◌<◌, ◌≤◌, ◌^◌, length};
ghost use Rattle.vms_world.specs.Common.{IsCounter, IsCpu, cell, counter_count, IsEvent, event_count, IsLineOf, Cpu};
ghost use Rattle.vms_world.specs.Common.{volume_in};
ghost use Rattle.vms_replay_phase.specs.Spending.{AreVolumesOf, volumes_raised, spent_by_act, spent_by_line};
ghost use Rattle.vms_text.specs.declared.acts.Line.TheVariants.{Lane as LaneLine};

use vms_base::{CounterId, CpuId, EventId, Header, PcpuId, Row};
use vms_text::{Act, Lane};
use vms_world::Volumes;

/// How many events are counted.
const EVENTS: usize = 8;

/// Adds what a line spends to the volumes of its CPU: a limited addition its amount, whatever it answers.
#[inline]
pub(crate) fn spend(volumes: &mut Volumes, header: &Header, lane: Lane, act: Act)
    requires volumes { AreVolumesOf header.now volumes.old }
    requires line { IsLineOf header.now (LaneLine lane act) }
    ensures { volumes.new ≡ spent_by_line header.now lane act volumes.old }
{
    match lane {
        Lane::Cpu(cpu) => spend_act(volumes, header, cpu, act),
        Lane::Control => {}
    }
}

/// Adds what an act of a CPU spends to the CPU's volumes.
#[inline]
fn spend_act(volumes: &mut Volumes, header: &Header, cpu: CpuId, act: Act)
    requires volumes { AreVolumesOf header.now volumes.old }
    requires line { IsLineOf header.now (LaneLine (Cpu cpu) act) }
    ensures { volumes.new ≡ spent_by_act header.now cpu.number act volumes.old }
{
    match act {
        Act::Mod(counter, pages) => {
            spend_pages(volumes, header, cpu, counter, pages.unsigned_abs())
        }
        Act::Inc(counter) => spend_pages(volumes, header, cpu, counter, 1),
        Act::Dec(counter) => spend_pages(volumes, header, cpu, counter, 1),
        Act::Ev(event, n) => spend_events(volumes, header, cpu, event, n),
        Act::Cnt(counter, amount) => {
            spend_counters(volumes, header, cpu, counter, amount.unsigned_abs())
        }
        Act::Lim(counter, _, amount) => {
            spend_counters(volumes, header, cpu, counter, amount.unsigned_abs())
        }
        _ => {}
    }
}

#[inline]
fn spend_pages(volumes: &mut Volumes, header: &Header, cpu: CpuId, counter: CounterId, size: u64)
    requires volumes { AreVolumesOf header.now volumes.old }
    requires cpu { IsCpu header.now.layout cpu.number }
    requires counter { IsCounter header.now.layout counter.number }
    requires size { size ≤ 2 ^ 63 }
    ensures { volumes.new ≡ record volumes.old {
      pages = volumes_raised (counter_count header.now.layout) cpu.number counter.number size
          volumes.old.pages;
    } }
{
    let width = header.layout.counters() as usize;
    raise(&mut volumes.pages, width, cpu, counter.number, size);
}

#[inline]
fn spend_events(volumes: &mut Volumes, header: &Header, cpu: CpuId, event: EventId, n: u64)
    requires volumes { AreVolumesOf header.now volumes.old }
    requires cpu { IsCpu header.now.layout cpu.number }
    requires event { IsEvent event.number }
    requires size { n ≤ 2 ^ 63 }
    ensures { volumes.new ≡ record volumes.old {
      events = volumes_raised event_count cpu.number event.number n volumes.old.events;
    } }
{
    raise(&mut volumes.events, EVENTS, cpu, event.number, n);
}

#[inline]
fn spend_counters(volumes: &mut Volumes, header: &Header, cpu: CpuId, counter: PcpuId, size: u64)
    requires volumes { AreVolumesOf header.now volumes.old }
    requires cpu { IsCpu header.now.layout cpu.number }
    requires counter { counter.number < length header.now.counters }
    requires size { size ≤ 2 ^ 63 }
    ensures { volumes.new ≡ record volumes.old {
      counters = volumes_raised (length header.now.counters) cpu.number counter.number size
          volumes.old.counters;
    } }
{
    let width = header.counters.len();
    raise(&mut volumes.counters, width, cpu, counter.number, size);
}

/// Adds a size to the volume of a CPU on one of so many things.
#[inline]
fn raise(volumes: &mut Row<u64>, width: usize, cpu: CpuId, thing: u32, size: u64)
    requires within { cell width cpu.number thing < length volumes.old }
    requires room { volume_in volumes.old width cpu.number thing + size < 2 ^ 64 }
    ensures { volumes.new ≡ volumes_raised width cpu.number thing size volumes.old }
{
    let _ = volumes.len();
    let at = cpu.number as usize * width + thing as usize;
    let sum = volumes.get(at) + size;
    volumes.set(at, sum);
}
