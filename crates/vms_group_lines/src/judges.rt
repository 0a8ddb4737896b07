use crate::parsing::read_line;
use crate::{GroupCause, GroupHeader, GroupLine};
use std::alloc::Global;
use vms_base::{CpuId, Memory, Row};
use vms_group_core::GroupCall;

/// The most by which one CPU changes one group over a trace, in absolute sum.
const MOST_VOLUME: u64 = 1 << 48;

/// Decides the lines of a body by the lines above them. It keeps the CPUs' volumes, and no line.
#[derive(Drop)]
pub struct GroupJudge {
    /// By how much each CPU has changed each group, in absolute sum, by CPU and then group.
    pub(crate) volumes: Row<u64>,
}

impl GroupJudge {
    ghost use Rattle.std.specs.Prelude.{◌≡◌, ◌+◌, ◌<◌, [], List, IfOk, if◌then◌else◌, length, nat_lt, slice_index_or};
    ghost use Rattle.std.specs.Prelude.{slice_set, Ok, Err};
    ghost use Rattle.vms_history.specs.Common.{most_volume};
    ghost use Rattle.vms_group_lines.specs.declared.causes.GroupCause.TheVariants.{Overflow};
    ghost use Rattle.vms_group_lines.specs.declared.lines.GroupLine.{GroupLine};
    ghost use Rattle.vms_group_lines.specs.Headers.{IsGroupHeader};
    ghost use Rattle.vms_group_lines.specs.Judging.{judged_group, with_group_line};
    ghost use Rattle.vms_group_lines.specs.JudgeStates.{Decides, GroupJudgeStands, SomeGroupJudge};
    ghost use Rattle.vms_group_lines.specs.Lines.{IsGroupLineOf};

    /// A judge before the first line of a body with this header.
    pub fn make(alloc: Global, header: &GroupHeader) -> Result<GroupJudge, Memory>
        requires { IsGroupHeader header.now }
        ensures { IfOk result (λ judge. GroupJudgeStands header.now [] judge) }
    {
        let count = header.tree.cpus as usize * header.tree.parents.len();
        Ok(GroupJudge {
            volumes: Row::filled(alloc, count, 0)?,
        })
    }

    /// Decides a line of the body, without its end, by the lines above that count: what it says, or the first cause
    /// why it doesn't count.
    pub fn judge(&mut self, header: &GroupHeader, line: &[u8]) -> Result<GroupLine, GroupCause>
        requires header { IsGroupHeader header.now }
        requires judge { SomeGroupJudge header.now self.old }
        ensures { (lines : List GroupLine) → GroupJudgeStands header.now lines self.old
            → (result ≡ judged_group header.now lines line.now)
            × GroupJudgeStands header.now (with_group_line result lines) self.new }
    {
        let said = read_line(header, line)?;
        self.allow(header, said)?;
        Ok(said)
    }

    /// Decides a line that was read.
    fn allow(&mut self, header: &GroupHeader, line: GroupLine) -> Result<(), GroupCause>
        requires header { IsGroupHeader header.now }
        requires line { IsGroupLineOf header.now line }
        requires judge { SomeGroupJudge header.now self.old }
        ensures { Decides header.now line self.old self.new result }
    {
        match line {
            GroupLine::Lane(cpu, call) => self.allow_call(header, cpu, call),
            GroupLine::Blank | GroupLine::Sync | GroupLine::Report => Ok(()),
        }
    }

    /// Decides a call of a CPU's lane.
    fn allow_call(
        &mut self,
        header: &GroupHeader,
        cpu: CpuId,
        call: GroupCall,
    ) -> Result<(), GroupCause>
        requires header { IsGroupHeader header.now }
        requires line { IsGroupLineOf header.now (GroupLine.Lane cpu call) }
        requires judge { SomeGroupJudge header.now self.old }
        ensures { Decides header.now (GroupLine.Lane cpu call) self.old self.new result }
    {
        match call {
            GroupCall::Change(group, amount) => {
                let index = cpu.number as usize * header.tree.parents.len() + group as usize;
                self.spend(index, amount.unsigned_abs())
            }
            GroupCall::Flush(_) | GroupCall::Value(_) => Ok(()),
        }
    }

    /// Adds a size to a volume, unless it would exceed 2^48.
    fn spend(&mut self, index: usize, size: u64) -> Result<(), GroupCause>
        requires { index < length self.old.volumes }
        ensures result { result ≡ if nat_lt most_volume (slice_index_or self.old.volumes index 0 + size)
            then Err Overflow else Ok tt }
        ensures volumes { self.new.volumes
            ≡ if nat_lt most_volume (slice_index_or self.old.volumes index 0 + size) then self.old.volumes
            else slice_set self.old.volumes index (slice_index_or self.old.volumes index 0 + size) }
    {
        let volume = self.volumes.get(index).saturating_add(size);
        if volume > MOST_VOLUME {
            return Err(GroupCause::Overflow);
        }
        self.volumes.set(index, volume);
        Ok(())
    }
}
