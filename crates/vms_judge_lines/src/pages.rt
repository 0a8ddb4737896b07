ghost use Rattle.std.specs.Prelude.{IfOk};
ghost use Rattle.vms_history.specs.Common.{IsByte};

use crate::judging::{Verdicts, judge_each};
use crate::names::read_layout;
use crate::numbers::{FromNumbers, Numbers};
use anyhow::{Result, bail};
use std::alloc::Global;
use vms_base::{Diffs, Mode, ZoneSize};
use vms_core::{Acks, Event, Facts, Longs, Marks, Smalls, State, States, Step};
use vms_page_registers::PageRegisters;

/// Judges a history of page counters.
pub(crate) fn judge_line(alloc: Global, mut numbers: Numbers<'_>) -> Result<Verdicts> {
    let facts = Facts {
        layout: read_layout(alloc, &mut numbers)?,
        sizes: numbers.read_row(alloc)?,
        base: read_state(alloc, &mut numbers)?,
    };
    let events = numbers.read_list::<Event>(alloc)?;
    numbers.end()?;
    Ok(judge_each::<PageRegisters>(alloc, &facts, events.as_slice())?)
}

/// The nine lists of a state, three at a time: a function with nine calls that may fail takes long to prove.
fn read_state(alloc: Global, numbers: &mut Numbers<'_>) -> Result<State> {
    let values = read_values(alloc, numbers)?;
    let settings = read_settings(alloc, numbers)?;
    let counts = read_counts(alloc, numbers)?;
    Ok(State {
        place: values.place,
        system: values.system,
        diff: values.diff,
        threshold: settings.threshold,
        mark: settings.mark,
        cpu: settings.cpu,
        acknowledged: counts.acknowledged,
        threshold_sets: counts.threshold_sets,
        mark_sets: counts.mark_sets,
    })
}

/// The first three lists of a state.
#[derive(Drop)]
struct Values {
    place: Longs,
    system: Longs,
    diff: Longs,
}

fn read_values(alloc: Global, numbers: &mut Numbers<'_>) -> Result<Values> {
    Ok(Values {
        place: numbers.read_row(alloc)?,
        system: numbers.read_row(alloc)?,
        diff: numbers.read_row(alloc)?,
    })
}

/// The next three.
#[derive(Drop)]
struct Settings {
    threshold: Smalls,
    mark: Marks,
    cpu: States,
}

fn read_settings(alloc: Global, numbers: &mut Numbers<'_>) -> Result<Settings> {
    Ok(Settings {
        threshold: numbers.read_row(alloc)?,
        mark: numbers.read_row(alloc)?,
        cpu: numbers.read_row(alloc)?,
    })
}

/// The last three.
#[derive(Drop)]
struct Counts {
    acknowledged: Acks,
    threshold_sets: Smalls,
    mark_sets: Smalls,
}

fn read_counts(alloc: Global, numbers: &mut Numbers<'_>) -> Result<Counts> {
    Ok(Counts {
        acknowledged: numbers.read_row(alloc)?,
        threshold_sets: numbers.read_row(alloc)?,
        mark_sets: numbers.read_row(alloc)?,
    })
}

impl FromNumbers for ZoneSize {
    fn from_numbers(numbers: &mut Numbers<'_>) -> Result<ZoneSize> {
        Ok(ZoneSize {
            managed: numbers.read()?,
            min: numbers.read()?,
            low: numbers.read()?,
            high: numbers.read()?,
        })
    }
}

impl FromNumbers for Mode {
    fn from_numbers(numbers: &mut Numbers<'_>) -> Result<Mode> {
        match numbers.read::<u32>()? {
            0 => Ok(Mode::Mod),
            1 => Ok(Mode::Inc),
            2 => Ok(Mode::Dec),
            other => bail!("{other} is no mode of a change"),
        }
    }
}

/// Eight numbers, each of which has to fit a signed byte.
impl FromNumbers for Diffs {
    fn from_numbers(numbers: &mut Numbers<'_>) -> Result<Diffs> {
        let mut values = [0; 8];
        for k in 0..8 {
            values[k] = read_byte(numbers)?;
        }
        Ok(Diffs { values })
    }
}

fn read_byte(numbers: &mut Numbers<'_>) -> Result<i64>
    ensures { IfOk result IsByte }
{
    let number = numbers.read::<i64>()?;
    if number < -128 || number > 127 {
        bail!("{number} is no differential");
    }
    Ok(number)
}

impl FromNumbers for Step {
    fn from_numbers(numbers: &mut Numbers<'_>) -> Result<Step> {
        Ok(match numbers.read::<u32>()? {
            0 => Step::LoadT(numbers.read()?, numbers.read()?, numbers.read()?),
            1 => Step::LoadD(numbers.read()?, numbers.read()?, numbers.read()?),
            2 => Step::Put(
                numbers.read()?,
                numbers.read()?,
                numbers.read()?,
                numbers.read()?,
                numbers.read()?,
            ),
            3 => Step::Miss(numbers.read()?, numbers.read()?),
            4 => Step::AddG(numbers.read()?, numbers.read()?),
            5 => Step::AddS(numbers.read()?, numbers.read()?),
            6 => Step::Take(numbers.read()?, numbers.read()?, numbers.read()?),
            7 => Step::LoadG(numbers.read()?, numbers.read()?),
            8 => Step::LoadS(numbers.read()?, numbers.read()?),
            9 => Step::LoadM(numbers.read()?, numbers.read()?, numbers.read()?),
            10 => Step::LoadO(numbers.read()?, numbers.read()?),
            11 => Step::SetT(numbers.read()?, numbers.read()?, numbers.read()?),
            12 => Step::SetM(numbers.read()?, numbers.read()?),
            13 => Step::SetO(numbers.read()?),
            14 => Step::SetA(numbers.read()?, numbers.read()?),
            15 => Step::LoadA(numbers.read()?, numbers.read()?, numbers.read()?),
            16 => Step::Split(numbers.read()?, numbers.read()?),
            17 => Step::Join(numbers.read()?),
            other => bail!("{other} is no kind of a step on page counters"),
        })
    }
}
