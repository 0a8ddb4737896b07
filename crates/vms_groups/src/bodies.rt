use crate::engines::GroupEngine;
use crate::open_phases::OpenPhase;
use crate::tallies::Tally;
use std::alloc::Global;
use vms_base::Memory;
use vms_command::{status_at_end, write_done_line};
use vms_group_lines::{GroupHeader, GroupJudge, judged_group_lines_fit};
use vms_stream::Status;

/// The command on its way through a body. It keeps what later lines are judged by, and the lines of the open phase.
#[derive(Drop)]
pub(crate) struct GroupBody {
    pub(crate) header: GroupHeader,
    pub(crate) judge: GroupJudge,
    pub(crate) tally: Tally,
    pub(crate) phase: OpenPhase,
}

impl GroupBody {
    ghost use Rattle.std.specs.Prelude.{◌≡◌, ◌≤◌, suc, [], IfOk};
    ghost use Rattle.vms_command.specs.Common.{most_lines};
    ghost use Rattle.vms_group_lines.specs.Common.{IsGroupHeader};
    ghost use Rattle.vms_stream.specs.Common.{ClosesPhased, TakesPhased, Waiting, waiting};
    ghost use Rattle.vms_groups.specs.GroupStates.{BodyStands, InBody, InSomeBody};
    ghost use Rattle.vms_groups.specs.GroupTexts.{GroupsState, first_kept, groups_texts, shown_by_groups};
    ghost use Rattle.vms_groups.specs.PastPhases.{PastGroupPhase};

    /// Begins before the first line.
    pub(crate) fn begin(alloc: Global, header: GroupHeader) -> Result<GroupBody, Memory>
        requires { IsGroupHeader header }
        ensures header { IfOk result (λ body. body.header ≡ header) }
        ensures stands { IfOk result (BodyStands (first_kept header) []) }
    {
        let judge = GroupJudge::make(alloc, &header)?;
        let phase = OpenPhase::begin(alloc, &header)?;
        Ok(GroupBody {
            header,
            judge,
            tally: Tally::zero(),
            phase,
        })
    }

    /// Judges the line of this number, and appends what is printed of it.
    pub(crate) fn take_line<E: GroupEngine>(
        &mut self,
        engine: &mut E,
        number: u32,
        line: &[u8],
        out: &mut Vec<u8>,
    ) -> Result<Option<Status>, Memory>
        requires body { (now : Waiting GroupsState PastGroupPhase) × InBody number self.old now }
        requires most { number ≤ most_lines }
        ensures { TakesPhased (waiting groups_texts) (InBody number self.old) (InBody (suc number) self.new)
            (E.made engine.old) (E.made engine.new) line.now result out.old.items out.new.items }
    {
        judged_group_lines_fit();
        let judged = self.judge.judge(&self.header, line);
        if let Some(halt) = self.tally.count(judged) {
            return Ok(Some(halt));
        }
        self.phase.take(engine, &self.header, number, judged, out)?;
        Ok(None)
    }

    /// Appends what is printed at the end of the trace, and says how the command ends.
    pub(crate) fn end<E: GroupEngine>(
        &mut self,
        engine: &mut E,
        out: &mut Vec<u8>,
    ) -> Result<Status, Memory>
        requires { (now : Waiting GroupsState PastGroupPhase) × InSomeBody self.old now }
        ensures { ClosesPhased (waiting groups_texts) (InSomeBody self.old) shown_by_groups (E.made engine.old)
            (E.made engine.new) result out.old.items out.new.items }
    {
        self.phase.end(engine, &self.header, out)?;
        write_done_line(out, self.tally.accepted, self.tally.refused)?;
        Ok(status_at_end(self.tally.refused))
    }
}
