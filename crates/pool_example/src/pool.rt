ghost use Rattle.vms_calls.specs.Common.{IsThresholdRule};
ghost use Rattle.pool_example.specs.Taking.{IsStill};

use anyhow::{Result, bail};
use std::alloc::Global;
use std::thread::{Threads, join_mut};
use vms_base::{CounterId, ZoneSize};
use vms_calc::{Rule, Rules, normal_threshold, pressure_threshold};
use vms_counters::{CallError, Counters, Handle};
use vms_header::parse_header;

/// One zone of 1 GiB with two CPUs, of which 400 pages are free. The threshold is 20 pages.
const MACHINE: &str =
    "vmtrace 1\ncpus 2\nzone 0 Normal 262144 100 125 150\nbase 0 Normal nr_free_pages 400\ngo\n";

/// The zone's free pages.
const FREE: CounterId = CounterId { number: 0 };

/// Counters of the machine, with the kernel's thresholds.
pub(crate) fn opened(alloc: Global) -> Result<Counters> {
    opened_by(
        alloc,
        |size: &ZoneSize, online: u32| normal_threshold(size, online),
        |size: &ZoneSize, online: u32| pressure_threshold(size, online),
    )
}

fn opened_by<N: Rule, P: Rule>(alloc: Global, normal: N, pressure: P) -> Result<Counters>
    requires normal { IsThresholdRule (N.accepts normal) (N.answers normal) }
    requires pressure { IsThresholdRule (P.accepts pressure) (P.answers pressure) }
{
    let text = MACHINE.as_bytes();
    if text.len() > 1 << 26 {
        bail!("no header is as long as this text");
    }
    let (header, _lines, _bytes) = parse_header(alloc, text)?;
    Ok(Counters::open(alloc, header, &Rules::make(normal, pressure))?)
}

/// Two threads take pages at the same time, each by a handle.
pub(crate) fn take_both<R: Threads>(
    rt: &R,
    first: &mut Handle,
    second: &mut Handle,
    pages: u32,
) -> Result<(), CallError>
    ensures first { IsStill first.new first.old }
    ensures second { IsStill second.new second.old }
{
    let (one, other) = join_mut(
        rt,
        &mut || { take(first, pages) },
        &mut || { take(second, pages) },
    );
    one?;
    other
}

/// Takes pages one after another.
fn take(handle: &mut Handle, pages: u32) -> Result<(), CallError>
    ensures { IsStill handle.new handle.old }
{
    for _ in 0..pages {
        handle.dec(FREE)?;
    }
    Ok(())
}
