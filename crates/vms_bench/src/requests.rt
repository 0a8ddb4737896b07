use anyhow::{Context, Result, bail};
use std::env;
use std::env::Env;
use vms_bench_base::Distance;

/// On which counters threads make changes.
#[derive(Clone, Copy, Debug, PartialEq, Eq)]
pub(crate) enum Kind {
    Events,
    Locals,
    Pages,
}

/// What the words after the program's name ask for.
#[derive(Clone, Copy, Debug, PartialEq, Eq)]
pub(crate) struct Request {
    pub kind: Kind,
    /// How many changes each thread makes.
    pub changes: u64,
    pub threads: u32,
    pub distance: Distance,
}

const USAGE: &str = "usage: vms_bench events|locals|pages CHANGES THREADS near|apart";

/// The request of the words after the program's name.
pub(crate) fn read_request<R: Env + AllocGlobal>(rt: &R) -> Result<Request> {
    let words: Vec<String> = env::args(rt)?.skip(1).collect(rt.alloc())?;
    let [kind, changes, threads, distance] = words.as_slice() else {
        bail!("{USAGE}");
    };
    let kind = match kind.as_str() {
        "events" => Kind::Events,
        "locals" => Kind::Locals,
        "pages" => Kind::Pages,
        _ => bail!("{USAGE}"),
    };
    let changes = changes.as_str().parse::<u64>().context(USAGE)?;
    let threads = threads.as_str().parse::<u32>().context(USAGE)?;
    let distance = match distance.as_str() {
        "near" => Distance::Near,
        "apart" => Distance::Apart,
        _ => bail!("{USAGE}"),
    };
    Ok(Request {
        kind,
        changes,
        threads,
        distance,
    })
}
