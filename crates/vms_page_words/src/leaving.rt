//! The state that the next phase begins with.

ghost use Rattle.std.specs.Prelude.{◌≡◌, IfOk, map};
ghost use Rattle.vms_core.specs.Common.{settled};
ghost use Rattle.vms_page_words.specs.Words.{state_of};

use crate::PageWords;
use std::alloc::Global;
use vms_base::{Memory, Row};
use vms_core::State;

impl PageWords {
    /// The numbers that stand, as the next phase begins with them: nothing acknowledged, and nothing set.
    pub fn settled(&self, alloc: Global) -> Result<State, Memory>
        ensures { IfOk result (λ s. s ≡ settled (state_of self.now)) }
    {
        let place = Row::from_slice(alloc, self.place.as_slice())?;
        let system = Row::from_slice(alloc, self.system.as_slice())?;
        let diff = Row::from_slice(alloc, self.diff.as_slice())?;
        let threshold = Row::from_slice(alloc, self.threshold.as_slice())?;
        let mark = Row::from_slice(alloc, self.mark.as_slice())?;
        let cpu = Row::from_slice(alloc, self.cpu.as_slice())?;
        let acknowledged = copies(alloc, &self.acknowledged, None)?;
        let threshold_sets = copies(alloc, &self.threshold_sets, 0)?;
        let mark_sets = copies(alloc, &self.mark_sets, 0)?;
        Ok(State {
            place,
            system,
            diff,
            threshold,
            mark,
            cpu,
            acknowledged,
            threshold_sets,
            mark_sets,
        })
    }
}

/// As many copies of a value as a row is long.
fn copies<T: Drop, V: Copy>(alloc: Global, row: &Row<T>, value: V) -> Result<Row<V>, Memory>
    ensures { IfOk result (λ made. made ≡ map (λ _. value) row.now) }
{
    let made = Row::filled(alloc, row.len(), value)?;
    Ok(made)
}
