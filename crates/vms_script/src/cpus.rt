ghost use Rattle.std.specs.Prelude.{◌≡◌, ℕ, ◌+◌, ◌<◌, ◌≤◌, length, replicate, slice_index_or, slice_set, IfOk};
ghost use Rattle.vms_script.specs.Cpus.{online_count};
ghost use Rattle.vms_base.specs.Common.{is_online};
ghost use Rattle.vms_base.specs.declared.kinds.CpuState.TheVariants.{Online};

use std::alloc::Global;
use vms_base::{CpuId, CpuState, Memory, Row};

/// The state of each CPU.
#[derive(Drop)]
pub(crate) struct CpuStates {
    pub(crate) states: Row<CpuState>,
    /// How many of them are online.
    pub(crate) online: u32,
}

impl CpuStates {
    /// The states of this many CPUs, which are all online.
    pub(crate) fn make(alloc: Global, cpus: u32) -> Result<CpuStates, Memory>
        ensures { IfOk result (λ made. made ≡ record { states = replicate cpus Online; online = cpus }) }
    {
        Ok(CpuStates {
            states: Row::filled(alloc, cpus as usize, CpuState::Online)?,
            online: cpus,
        })
    }

    #[inline]
    pub(crate) fn get(&self, cpu: CpuId) -> CpuState
        requires { cpu.number < length self.now.states }
        ensures { slice_index_or self.now.states cpu.number Online ≡ result }
    {
        self.states.get(cpu.number as usize)
    }

    #[inline]
    pub(crate) fn is_online(&self, cpu: CpuId) -> bool
        requires { cpu.number < length self.now.states }
        ensures { result ≡ is_online (slice_index_or self.now.states cpu.number Online) }
    {
        counts_online(self.get(cpu)) == 1
    }

    /// Gives a CPU another state.
    pub(crate) fn set(&mut self, cpu: CpuId, state: CpuState)
        requires cpu { cpu.number < length self.old.states }
        requires counted { online_count (slice_index_or self.old.states cpu.number Online) ≤ self.old.online }
        requires few { self.old.online ≤ 128 }
        ensures states { self.new.states ≡ slice_set self.old.states cpu.number state }
        ensures online { self.new.online + online_count (slice_index_or self.old.states cpu.number Online)
            ≡ self.old.online + online_count state }
    {
        let before = counts_online(self.get(cpu));
        self.states.set(cpu.number as usize, state);
        self.online = self.online - before + counts_online(state);
    }
}

/// 1 for a CPU that is online, and 0 for another.
#[inline]
fn counts_online(state: CpuState) -> u32
    ensures { result ≡ online_count state }
{
    match state {
        CpuState::Online => 1,
        CpuState::Dead | CpuState::Absent => 0,
    }
}
