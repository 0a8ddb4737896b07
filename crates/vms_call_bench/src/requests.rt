use anyhow::{Context, Result, bail};
use std::env;
use std::env::Env;
use vms_bench_base::Distance;

/// Which calls threads make.
#[derive(Clone, Copy, Debug)]
pub(crate) enum Kind {
    /// Changes of a counter.
    Changes(Change),
    /// Tests of the zone's watermark on a machine of so many CPUs, of which each counter has this value, in pages.
    Tests { cpus: u32, free: u32 },
}

/// What one change is.
#[derive(Clone, Copy, Debug)]
pub(crate) enum Change {
    /// An addition to the counter.
    Add,
    /// An addition to the counter and a fold of the pass's CPU.
    AddAndFold,
}

/// What the words after the program's name ask for.
#[derive(Clone, Copy, Debug)]
pub(crate) struct Request {
    pub kind: Kind,
    /// How many calls each thread makes.
    pub calls: u64,
    pub threads: u32,
    pub distance: Distance,
}

const USAGE: &str =
    "usage: vms_call_bench adds|folds|watermarks|snapshots4|snapshots64|snapshots128 CALLS THREADS near|apart";

/// Free pages well above the zone's drift mark.
const PLENTY: u32 = 100_000;

/// Free pages between the zone's watermarks and its drift mark.
const FEW: u32 = 40_000;

/// The request of the words after the program's name.
pub(crate) fn read_request<R: Env + AllocGlobal>(rt: &R) -> Result<Request> {
    let words: Vec<String> = env::args(rt)?.skip(1).collect(rt.alloc())?;
    let [kind, calls, threads, distance] = words.as_slice() else {
        bail!("{USAGE}");
    };
    let Some(kind) = kind_of(kind.as_str()) else {
        bail!("{USAGE}");
    };
    let calls = calls.as_str().parse::<u64>().context(USAGE)?;
    let threads = threads.as_str().parse::<u32>().context(USAGE)?;
    let distance = match distance.as_str() {
        "near" => Distance::Near,
        "apart" => Distance::Apart,
        _ => bail!("{USAGE}"),
    };
    Ok(Request {
        kind,
        calls,
        threads,
        distance,
    })
}

/// The kind of a word.
fn kind_of(word: &str) -> Option<Kind> {
    match word {
        "adds" => Some(Kind::Changes(Change::Add)),
        "folds" => Some(Kind::Changes(Change::AddAndFold)),
        "watermarks" => Some(Kind::Tests {
            cpus: 64,
            free: PLENTY,
        }),
        "snapshots4" => Some(Kind::Tests { cpus: 4, free: FEW }),
        "snapshots64" => Some(Kind::Tests {
            cpus: 64,
            free: FEW,
        }),
        "snapshots128" => Some(Kind::Tests {
            cpus: 128,
            free: FEW,
        }),
        _ => None,
    }
}
