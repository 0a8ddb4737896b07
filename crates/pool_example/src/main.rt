//! A pool of pages that two threads take from, each by a handle of its own, and what the answers of watermark tests
//! mean while the CPUs hide what they have taken.
#![tactic(auto)]

ghost use Rattle.pool_example.specs.Taking.{IsStill};

mod answers;
mod pool;

use crate::answers::tell;
use crate::pool::{opened, take_both};
use anyhow::Result;
use std::thread::Threads;
use vms_base::CpuId;
use vms_counters::{Counters, Handle};

fn main(rt: HostRuntime) -> Result<()> {
    let mut counters = opened(rt.alloc())?;
    let used = use_pool(&rt, &mut counters);
    let closed = closes(counters);
    used?;
    println!(rt; "closed: {closed}")?;
    Ok(())
}

/// Begins a handle for each of the two CPUs, and ends both when the pool is used up.
fn use_pool<R: Threads + Print>(rt: &R, counters: &mut Counters) -> Result<()> {
    let mut first = counters.begin(CpuId { number: 0 })?;
    let mut second = counters.begin(CpuId { number: 1 })?;
    let used = use_up(rt, &mut first, &mut second);
    counters.end(first);
    counters.end(second);
    used
}

/// Takes pages of the pool until few are left, and tests its watermarks in between.
fn use_up<R: Threads + Print>(rt: &R, first: &mut Handle, second: &mut Handle) -> Result<()>
    ensures first { IsStill first.new first.old }
    ensures second { IsStill second.new second.old }
{
    let mut left: u64 = 400;
    for taken in [90, 15, 19, 20, 10] {
        take_both(rt, first, second, taken)?;
        left = left.saturating_sub(2 * u64::from(taken));
        println!(rt; "{left} pages are left")?;
        tell(rt, first)?;
    }
    Ok(())
}

/// Whether the counters close, which they do where no handle is out.
fn closes(counters: Counters) -> bool {
    match counters.close() {
        Ok(closed) => {
            drop(closed);
            true
        }
        Err(open) => {
            drop(open);
            false
        }
    }
}
