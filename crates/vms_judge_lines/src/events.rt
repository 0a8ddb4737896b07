use crate::judging::{Verdicts, judge_each};
use crate::names::read_layout;
use crate::numbers::{FromNumbers, Numbers};
use anyhow::{Result, bail};
use std::alloc::Global;
use vms_event_core::{Event, EventFacts, EventState, EventStep};
use vms_event_registers::EventRegisters;

/// Judges a history of event counters.
pub(crate) fn judge_line(alloc: Global, mut numbers: Numbers<'_>) -> Result<Verdicts> {
    let facts = EventFacts {
        layout: read_layout(alloc, &mut numbers)?,
        cpus: numbers.read_row(alloc)?,
        base: EventState {
            words: numbers.read_row(alloc)?,
        },
    };
    let events = numbers.read_list::<Event>(alloc)?;
    numbers.end()?;
    Ok(judge_each::<EventRegisters>(alloc, &facts, events.as_slice())?)
}

impl FromNumbers for EventStep {
    fn from_numbers(numbers: &mut Numbers<'_>) -> Result<EventStep> {
        Ok(match numbers.read::<u32>()? {
            0 => EventStep::AddE(numbers.read()?, numbers.read()?),
            1 => EventStep::LoadE(numbers.read()?, numbers.read()?, numbers.read()?),
            2 => EventStep::TakeE(numbers.read()?, numbers.read()?, numbers.read()?),
            3 => EventStep::AddF(numbers.read()?, numbers.read()?, numbers.read()?),
            4 => EventStep::Split(numbers.read()?, numbers.read()?),
            5 => EventStep::Join(numbers.read()?),
            other => bail!("{other} is no kind of a step on event counters"),
        })
    }
}
