//! The registers of a history without events.

ghost use Rattle.std.specs.Prelude.{◌≡◌, ℕ, IfOk, []};
ghost use Rattle.vms_pcpu_core.specs.Common.{IsBase, cpu_at};
ghost use Rattle.vms_pcpu_registers.specs.Keeps.{KeepsPercpu};

use crate::PcpuRegisters;
use std::alloc::Global;
use vms_base::{CpuId, CpuState, Memory, Row};
use vms_cells::{Grid, Tally};
use vms_pcpu_core::{PcpuFacts, PcpuState};

pub(crate) fn opened(alloc: Global, facts: &PcpuFacts) -> Result<PcpuRegisters, Memory>
    requires { IsBase facts.now }
    ensures { IfOk result (λ r. (held : ℕ → ℕ) → KeepsPercpu facts.now [] held r) }
{
    let cpus = facts.layout.cpus() as usize;
    let counters = facts.base.batch.len();
    let numbers = copied(alloc, &facts.base)?;
    let held = Row::filled(alloc, counters, false)?;
    let spent = Grid::filled(alloc, cpus, counters, 0)?;
    let carried = Grid::filled(alloc, cpus + 1, counters, 0)?;
    let locks = Tally::zeros(alloc, cpus + 1, counters)?;
    Ok(PcpuRegisters {
        numbers,
        held,
        spent,
        carried,
        locks,
    })
}

fn copied(alloc: Global, numbers: &PcpuState) -> Result<PcpuState, Memory>
    ensures { IfOk result (λ copy. copy ≡ numbers.now) }
{
    let batch = Row::from_slice(alloc, numbers.batch.as_slice())?;
    let count = Row::from_slice(alloc, numbers.count.as_slice())?;
    let local = Row::from_slice(alloc, numbers.local.as_slice())?;
    Ok(PcpuState {
        batch,
        count,
        local,
    })
}

/// Whether a CPU is online, dead or absent. One past the list is absent.
#[inline]
pub(crate) fn cpu_state(facts: &PcpuFacts, cpu: CpuId) -> CpuState
    ensures { result ≡ cpu_at facts.now cpu.number }
{
    let at = cpu.number as usize;
    if at < facts.cpus.len() {
        facts.cpus.get(at)
    } else {
        CpuState::Absent
    }
}
