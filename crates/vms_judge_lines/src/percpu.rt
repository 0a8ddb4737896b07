use crate::judging::{Verdicts, judge_each};
use crate::names::read_layout;
use crate::numbers::{FromNumbers, Numbers};
use anyhow::{Result, bail};
use std::alloc::Global;
use vms_pcpu_core::{Event, PcpuFacts, PcpuState, PcpuStep};
use vms_pcpu_registers::PcpuRegisters;

/// Judges a history of percpu counters.
pub(crate) fn judge_line(alloc: Global, mut numbers: Numbers<'_>) -> Result<Verdicts> {
    let facts = PcpuFacts {
        layout: read_layout(alloc, &mut numbers)?,
        cpus: numbers.read_row(alloc)?,
        base: PcpuState {
            batch: numbers.read_row(alloc)?,
            count: numbers.read_row(alloc)?,
            local: numbers.read_row(alloc)?,
        },
    };
    let events = numbers.read_list::<Event>(alloc)?;
    numbers.end()?;
    Ok(judge_each::<PcpuRegisters>(alloc, &facts, events.as_slice())?)
}

impl FromNumbers for PcpuStep {
    fn from_numbers(numbers: &mut Numbers<'_>) -> Result<PcpuStep> {
        Ok(match numbers.read::<u32>()? {
            0 => PcpuStep::AddL(numbers.read()?, numbers.read()?),
            1 => PcpuStep::LoadL(numbers.read()?, numbers.read()?, numbers.read()?),
            2 => PcpuStep::LoadC(numbers.read()?, numbers.read()?),
            3 => PcpuStep::Won(numbers.read()?),
            4 => PcpuStep::Missed(numbers.read()?),
            5 => PcpuStep::TakeL(numbers.read()?, numbers.read()?, numbers.read()?),
            6 => PcpuStep::AddC(numbers.read()?, numbers.read()?),
            7 => PcpuStep::Unlock(numbers.read()?),
            8 => PcpuStep::Split(numbers.read()?, numbers.read()?),
            9 => PcpuStep::Join(numbers.read()?),
            other => bail!("{other} is no kind of a step on percpu counters"),
        })
    }
}
