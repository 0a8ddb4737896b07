ghost use Rattle.std.specs.Prelude.{IfOk};
ghost use Rattle.vms_group_core.specs.Common.{groups};
ghost use Rattle.vms_judge_lines.specs.Verdicts.{IsSaid};

use crate::judging::{Verdicts, judge_each};
use crate::numbers::{FromNumbers, Numbers};
use anyhow::{Result, bail};
use std::alloc::Global;
use vms_base::Memory;
use vms_group_core::{Event, GroupFacts, GroupState, GroupStep, Tree};
use vms_group_registers::{BoundedFacts, GroupRegisters, room_is_all_that_is_asked};

/// Judges a history of a tree of groups.
pub(crate) fn judge_line(alloc: Global, mut numbers: Numbers<'_>) -> Result<Verdicts> {
    let cpus = numbers.read()?;
    let facts = GroupFacts {
        tree: Tree {
            parents: numbers.read_row(alloc)?,
            cpus,
        },
        base: GroupState {
            value: numbers.read_row(alloc)?,
            up: numbers.read_row(alloc)?,
            pending: numbers.read_row(alloc)?,
        },
    };
    let events = numbers.read_list::<Event>(alloc)?;
    numbers.end()?;
    Ok(judge_groups(alloc, facts, events.as_slice())?)
}

/// Judges each event, with room for as many amounts that rise as there are events.
fn judge_groups(alloc: Global, facts: GroupFacts, events: &[Event]) -> Result<Verdicts, Memory>
    ensures { IfOk result (IsSaid groups facts events.now) }
{
    let bounded = BoundedFacts {
        groups: facts,
        room: events.len(),
    };
    room_is_all_that_is_asked();
    judge_each::<GroupRegisters>(alloc, &bounded, events)
}

impl FromNumbers for GroupStep {
    fn from_numbers(numbers: &mut Numbers<'_>) -> Result<GroupStep> {
        Ok(match numbers.read::<u32>()? {
            0 => GroupStep::AddP(numbers.read()?, numbers.read()?),
            1 => GroupStep::TakeP(numbers.read()?, numbers.read()?, numbers.read()?),
            2 => GroupStep::TakeU(numbers.read()?, numbers.read()?),
            3 => GroupStep::AddV(numbers.read()?, numbers.read()?),
            4 => GroupStep::AddU(numbers.read()?, numbers.read()?),
            5 => GroupStep::LoadV(numbers.read()?, numbers.read()?),
            6 => GroupStep::Split(numbers.read()?, numbers.read()?),
            7 => GroupStep::Join(numbers.read()?),
            other => bail!("{other} is no kind of a step on a tree of groups"),
        })
    }
}
