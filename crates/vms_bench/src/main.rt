//! Makes changes of shared counters on threads, and writes what the counters are then, which is the same whatever the
//! schedule. `bench/words.py` measures how long that takes.
#![tactic(auto)]

mod changes;
mod events;
mod locals;
mod pages;
mod requests;

use crate::events::count_events;
use crate::locals::add_locals;
use crate::pages::change_pages;
use crate::requests::{Kind, Request, read_request};
use anyhow::Result;

/// How many CPUs the machine has.
pub(crate) const CPUS: u32 = 64;

fn main(rt: HostRuntime) -> Result<()> {
    let Request {
        kind,
        changes,
        threads,
        distance,
    } = read_request(&rt)?;
    match kind {
        Kind::Events => {
            let total = count_events(&rt, rt.alloc(), changes, threads, distance)?;
            println!(rt; "counted {total}")?;
        }
        Kind::Locals => {
            let sum = add_locals(&rt, rt.alloc(), changes, threads, distance)?;
            println!(rt; "sum {sum}")?;
        }
        Kind::Pages => {
            let (value, system) = change_pages(&rt, rt.alloc(), changes, threads, distance)?;
            println!(rt; "value {value}, system-wide {system}")?;
        }
    }
    Ok(())
}
