//! Makes calls on page counters on threads, and writes what they come to, which is the same whatever the schedule.
//! `bench/words.py` measures how long that takes.
#![tactic(auto)]

mod changes;
mod requests;
mod watermarks;

use crate::changes::change_counter;
use crate::requests::{Kind, Request, read_request};
use crate::watermarks::{Tally, test_watermark};
use anyhow::Result;

fn main(rt: HostRuntime) -> Result<()> {
    let Request {
        kind,
        calls,
        threads,
        distance,
    } = read_request(&rt)?;
    match kind {
        Kind::Changes(change) => {
            let (value, system) = change_counter(
                &rt,
                rt.alloc(),
                change,
                calls,
                threads,
                distance,
            )?;
            println!(rt; "value {value}, system-wide {system}")?;
        }
        Kind::Tests { cpus, free } => {
            let Tally {
                yes,
                snapshots,
                free,
            } = test_watermark(&rt, rt.alloc(), cpus, free, calls, threads, distance)?;
            println!(rt; "yes {yes}, by snapshots {snapshots}, free pages {free}")?;
        }
    }
    Ok(())
}
