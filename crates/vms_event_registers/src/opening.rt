//! The registers of a history without events.

ghost use Rattle.std.specs.Prelude.{ℕ, IfOk, []};
ghost use Rattle.vms_history.specs.Common.{IsCpu};
ghost use Rattle.vms_event_core.specs.Common.{IsBase, IsLowestOnline};
ghost use Rattle.vms_event_registers.specs.Keeps.{KeepsEvents};

use crate::EventRegisters;
use crate::bases::state_of;
use crate::registers::EVENTS;
use std::alloc::Global;
use vms_base::{CpuId, CpuState, Memory, Row};
use vms_cells::{Grid, Tally};
use vms_event_core::{EventFacts, EventState};

pub(crate) fn opened(alloc: Global, facts: &EventFacts) -> Result<EventRegisters, Memory>
    requires { IsBase facts.now }
    ensures { IfOk result (λ r. (held : ℕ → ℕ) → KeepsEvents facts.now [] held r) }
{
    let cpus = facts.layout.cpus() as usize;
    let words = Row::from_slice(alloc, facts.base.words.as_slice())?;
    let spent = Grid::filled(alloc, cpus, EVENTS, 0)?;
    let carried = Tally::zeros(alloc, cpus + 1, EVENTS)?;
    Ok(EventRegisters {
        state: EventState { words },
        lowest: lowest_online(facts),
        spent,
        carried,
    })
}

/// The lowest-numbered CPU that is online.
fn lowest_online(facts: &EventFacts) -> CpuId
    requires { IsBase facts.now }
    ensures lowest { IsLowestOnline facts.now result.number }
    ensures within { IsCpu facts.now.layout result.number }
{
    for number in 0..facts.layout.cpus() {
        if state_of(facts, CpuId { number }) == CpuState::Online {
            return CpuId { number };
        }
    }
    CpuId { number: 0 }
}
