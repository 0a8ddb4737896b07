//! The words of a history without events.

ghost use Rattle.std.specs.Prelude.{◌≡◌, [], IfOk};
ghost use Rattle.vms_page_words.specs.Words.{KeepsWords};

use crate::PageWords;
use std::alloc::Global;
use vms_base::{CpuState, Memory, Row};
use vms_core::{Facts, State};

impl PageWords {
    /// The words of a history without events. Takes memory by the layout alone.
    pub fn open(alloc: Global, facts: &Facts) -> Result<PageWords, Memory>
        ensures { IfOk result (λ words. KeepsWords facts.now [] words) }
    {
        let (place, system, diff) = values(alloc, &facts.base)?;
        let (threshold, mark, cpu) = settings(alloc, &facts.base)?;
        let (acknowledged, threshold_sets, mark_sets) = tallies(alloc, &facts.base)?;
        Ok(PageWords {
            place,
            system,
            diff,
            threshold,
            mark,
            cpu,
            acknowledged,
            threshold_sets,
            mark_sets,
        })
    }
}

/// The global values, the system-wide values and the differentials of a base.
fn values(alloc: Global, base: &State) -> Result<(Row<i64>, Row<i64>, Row<i64>), Memory>
    ensures { IfOk result (λ made. (made.0 ≡ base.now.place) × (made.1 ≡ base.now.system) × (made.2 ≡ base.now.diff)) }
{
    let place = Row::from_slice(alloc, base.place.as_slice())?;
    let system = Row::from_slice(alloc, base.system.as_slice())?;
    let diff = Row::from_slice(alloc, base.diff.as_slice())?;
    Ok((place, system, diff))
}

/// The thresholds, the marks and the states of the CPUs of a base.
fn settings(alloc: Global, base: &State) -> Result<(Row<u32>, Row<u64>, Row<CpuState>), Memory>
    ensures { IfOk result (λ made. (made.0 ≡ base.now.threshold) × (made.1 ≡ base.now.mark)
        × (made.2 ≡ base.now.cpu)) }
{
    let threshold = Row::from_slice(alloc, base.threshold.as_slice())?;
    let mark = Row::from_slice(alloc, base.mark.as_slice())?;
    let cpu = Row::from_slice(alloc, base.cpu.as_slice())?;
    Ok((threshold, mark, cpu))
}

/// What was acknowledged, and how often each threshold and each mark was set.
fn tallies(alloc: Global, base: &State) -> Result<(Row<Option<u32>>, Row<u64>, Row<u64>), Memory>
    ensures { IfOk result (λ made. (made.0 ≡ base.now.acknowledged) × (made.1 ≡ base.now.threshold_sets)
        × (made.2 ≡ base.now.mark_sets)) }
{
    let acknowledged = Row::from_slice(alloc, base.acknowledged.as_slice())?;
    let threshold_sets = widened(alloc, base.threshold_sets.as_slice())?;
    let mark_sets = widened(alloc, base.mark_sets.as_slice())?;
    Ok((acknowledged, threshold_sets, mark_sets))
}

/// A row of the same numbers.
fn widened(alloc: Global, numbers: &[u32]) -> Result<Row<u64>, Memory>
    ensures { IfOk result (λ row. row ≡ numbers.now) }
{
    let mut row = Row::filled(alloc, numbers.len(), 0)?;
    for at in 0..numbers.len() {
        row.set(at, numbers[at] as u64);
    }
    Ok(row)
}
