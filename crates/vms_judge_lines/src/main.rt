//! Judges histories that a line of numbers gives each, event by event, and writes a line of verdicts for each.
#![tactic(auto)]

mod events;
mod groups;
mod judging;
mod names;
mod numbers;
mod pages;
mod percpu;

use crate::judging::Verdicts;
use crate::numbers::Numbers;
use anyhow::{Result, bail};
use std::alloc::Global;
use std::io;
use std::io::{BufRead, BufReader, BufWriter, Write};
use std::process::ExitCode;

fn main(rt: HostRuntime) -> ExitCode {
    match judge_input(&rt) {
        Ok(()) => ExitCode::SUCCESS,
        Err(error) => {
            // nobody is left to tell where this fails
            let _ = eprintln!(rt; "vms_judge_lines: {error:#}");
            ExitCode::from(2)
        }
    }
}

fn judge_input<R: Input + Print + AllocGlobal>(rt: &R) -> Result<()> {
    let lines = BufReader::new(rt.alloc(), rt.reader())?.lines(rt.alloc());
    let mut out = BufWriter::new(rt.alloc(), io::writer(rt))?;
    for line in lines {
        let verdicts = judge_line(rt.alloc(), line?.as_str())?;
        writeln!(out, "{verdicts}")?;
    }
    out.flush()?;
    Ok(())
}

/// Judges the history of a line, which begins with the name of its table.
fn judge_line(alloc: Global, line: &str) -> Result<Verdicts> {
    let mut numbers = Numbers::of_line(line);
    match numbers.table() {
        Some("pages") => pages::judge_line(alloc, numbers),
        Some("events") => events::judge_line(alloc, numbers),
        Some("percpu") => percpu::judge_line(alloc, numbers),
        Some("groups") => groups::judge_line(alloc, numbers),
        _ => bail!("a line begins with the name of a table: pages, events, percpu or groups"),
    }
}
