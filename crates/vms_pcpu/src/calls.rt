ghost use Rattle.std.specs.Prelude.{◌≡◌, ◌^◌, Some, slice_index};
ghost use Rattle.vms_pcpu_core.specs.Common.{IsOwnersCall, IsPcpuCall, IsWithin, LeavesVolume, NamesKnown};
ghost use Rattle.vms_pcpu.specs.CallVolumes.{with_spent};
ghost use Rattle.vms_pcpu.specs.IdlePasses.{MakesCall};
ghost use Rattle.vms_seats.specs.Common.{IsFrom};

use crate::passes::PcpuPass;
use crate::tables::PcpuTable;
use std::sync::Wait;
use vms_pcpu_core::{PcpuAnswer, PcpuCall};

impl PcpuTable {
    /// Makes a call on the pass's CPU, and answers it. It waits for the counter's lock where the call does. The volume
    /// grows by what the call may add, whatever it answers.
    pub fn call<R: Wait>(&self, rt: &R, pass: &mut PcpuPass, call: PcpuCall) -> PcpuAnswer
        requires table { IsFrom pass.old.pass self.now }
        requires known { NamesKnown self.now.facts call }
        requires within { IsWithin (2 ^ 60) call }
        requires owners { IsOwnersCall call }
        requires room { LeavesVolume (slice_index pass.old.volume) call }
        ensures made { MakesCall pass.new.pass pass.old.pass
            (λ own steps. IsPcpuCall self.now.facts (Some own) call steps result) }
        ensures volume { pass.new.volume ≡ with_spent call pass.old.volume }
    {
        match call {
            PcpuCall::Add(counter, amount) => match self.add(rt, pass, counter, amount) {
                Ok(()) => PcpuAnswer::Done,
                Err(_) => unreachable!(),
            },
            PcpuCall::LimitedAdd(counter, limit, amount) => {
                match self.limited_add(rt, pass, counter, limit, amount) {
                    Ok(made) => PcpuAnswer::Limited(made),
                    Err(_) => unreachable!(),
                }
            }
            PcpuCall::Compare(counter, rhs) => {
                PcpuAnswer::Compared(self.compare(rt, pass, counter, rhs))
            }
            PcpuCall::Sum(counter) => PcpuAnswer::Total(self.sum(rt, pass, counter)),
            PcpuCall::Read(counter) => PcpuAnswer::Count(self.read(pass, counter)),
            PcpuCall::Sync(counter) => {
                self.sync(rt, pass, counter);
                PcpuAnswer::Done
            }
            PcpuCall::FoldDead(_) => PcpuAnswer::Done,
        }
    }
}
