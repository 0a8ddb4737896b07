ghost use Rattle.std.specs.Prelude.{IfOk};
ghost use Rattle.vms_judge.specs.Common.{IsVerdict};

use crate::{Registers, TableRegisters};
use std::alloc::Global;
use vms_base::Memory;
use vms_history::Event;
use vms_judge::Verdict;

/// Judges events, the oldest first, in time that grows with their number.
pub fn judge<T: TableRegisters>(
    alloc: Global,
    facts: &T::Facts,
    events: &[Event<T::Step>],
) -> Result<Verdict, Memory>
    ensures { IfOk result (IsVerdict T.machine facts.now events.now) }
{
    let Some(mut registers) = Registers::<T>::open(alloc, facts)? else {
        return Ok(Verdict::NoBase);
    };
    for i in 0..events.len() {
        let event = &events[i];
        if !registers.judges(facts, event.caller as u64, &event.step) {
            return Ok(Verdict::Illegal(i));
        }
        registers.take(facts, event.caller, &event.step);
    }
    if registers.all_ended(facts) {
        Ok(Verdict::Complete)
    } else {
        Ok(Verdict::Open)
    }
}
