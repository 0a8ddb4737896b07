ghost use Rattle.std.specs.Prelude.{◌≡◌, ◌+◌, ◌^◌, ◌<◌, List, ◌∷◌, length, IfOk, MatchBool};
ghost use Rattle.vms_history.specs.declared.events.Event.{Event};
ghost use Rattle.vms_history.specs.Common.{IsLegal};
ghost use Rattle.vms_registers.specs.Shows.{Shows};
ghost use Rattle.vms_judge_lines.specs.Verdicts.{IsSaid};

use std::alloc::Global;
use std::fmt;
use vms_base::Memory;
use vms_history::Event;
use vms_registers::{Registers, TableRegisters};

/// What is said of a history.
#[derive(Debug, Drop)]
pub(crate) enum Verdicts {
    /// No history may begin with the facts.
    NoBase,
    /// Whether each event was taken, and whether all passes had ended then.
    Judged(Vec<bool>, bool),
}

impl fmt::Display for Verdicts {
    fn fmt<W: fmt::Write>(&self, f: &mut fmt::Formatter<W>) -> fmt::Result {
        match self {
            Verdicts::NoBase => write!(f, "no base"),
            Verdicts::Judged(taken, ended) => {
                for is_taken in taken {
                    f.write_str(if *is_taken { "1" } else { "0" })?;
                }
                f.write_str(if *ended { " ended" } else { " open" })
            }
        }
    }
}

/// Judges each event after those before it that were taken, the oldest first, and takes it where it is legal.
pub(crate) fn judge_each<T: TableRegisters>(
    alloc: Global,
    facts: &T::Facts,
    events: &[Event<T::Step>],
) -> Result<Verdicts, Memory>
    ensures { IfOk result (IsSaid T.machine facts.now events.now) }
{
    let Some(mut registers) = Registers::<T>::open(alloc, facts)? else {
        return Ok(Verdicts::NoBase);
    };
    let mut taken = Vec::new(alloc);
    for i in 0..events.len() {
        let is_taken = take_if_legal(&mut registers, facts, &events[i]);
        taken.push(is_taken)?;
    }
    Ok(Verdicts::Judged(taken, registers.all_ended(facts)))
}

/// Goes on with an event where it is legal, and tells whether it is.
fn take_if_legal<T: TableRegisters>(
    registers: &mut Registers<T>,
    facts: &T::Facts,
    event: &Event<T::Step>,
) -> bool
    requires { (h : List (Event T.Step)) × Shows T.machine T.cpus_of T.Keeps facts.now h registers.old
        × (length h + 1 < 2 ^ 64) }
    ensures { (h : List (Event T.Step)) → Shows T.machine T.cpus_of T.Keeps facts.now h registers.old →
        length h + 1 < 2 ^ 64 → MatchBool result
        (IsLegal T.machine facts.now (event.now ∷ h)
        × Shows T.machine T.cpus_of T.Keeps facts.now (event.now ∷ h) registers.new)
        ((¬ IsLegal T.machine facts.now (event.now ∷ h))
        × Shows T.machine T.cpus_of T.Keeps facts.now h registers.new) }
{
    if !registers.judges(facts, event.caller as u64, &event.step) {
        return false;
    }
    registers.take(facts, event.caller, &event.step);
    true
}
