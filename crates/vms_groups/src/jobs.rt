use crate::bodies::GroupBody;
use crate::engines::GroupEngine;
use crate::printing::write_header_line;
use std::alloc::Global;
use std::marker::PhantomData;
use std::mem::replace;
use vms_base::Memory;
use vms_group_lines::{GroupHeadReader, GroupHeadStep, GroupReadError};
use vms_stream::{Job, Status};

/// The most lines of a trace.
const MOST_LINES: u32 = 1_000_000;

/// The command on its way through a trace.
#[derive(Drop)]
pub(crate) struct GroupsJob<E> {
    pub(crate) alloc: Global,
    /// The number of the line that comes next, counted from 1.
    pub(crate) line: u32,
    pub(crate) work: Work,
    pub(crate) engine: PhantomData<E>,
}

/// What the command is at work on.
#[derive(Drop)]
pub(crate) enum Work {
    Header(GroupHeadReader),
    Body(GroupBody),
    /// Nothing is read any more: the header was refused, or memory ran out.
    Stopped,
}

impl<E: GroupEngine> GroupsJob<E> {
    ghost use Rattle.std.specs.Prelude.{◌≡◌, ◌≤◌, IfOk, OnOk};
    ghost use Rattle.vms_command.specs.Common.{most_lines};
    ghost use Rattle.vms_group_lines.specs.declared.stages.GroupStage.{GroupStage};
    ghost use Rattle.vms_group_lines.specs.Common.{group_head_line};
    ghost use Rattle.vms_stream.specs.Common.{TakesPhased, Waiting, waiting};
    ghost use Rattle.vms_groups.specs.GroupStates.{IsHead, StandsAt, TakesHeadLine};
    ghost use Rattle.vms_groups.specs.GroupTexts.{GroupsState, groups_texts};
    ghost use Rattle.vms_groups.specs.PastPhases.{PastGroupPhase};

    /// Before the first line.
    pub(crate) fn begin(alloc: Global) -> GroupsJob<E>
        ensures { StandsAt result (waiting groups_texts).start }
    {
        GroupsJob {
            alloc,
            line: 1,
            work: Work::Header(GroupHeadReader::make(alloc)),
            engine: PhantomData,
        }
    }

    /// Takes a line within the limit.
    fn take_within(
        &mut self,
        engine: &mut E,
        line: &[u8],
        out: &mut Vec<u8>,
    ) -> Result<Option<Status>, Memory>
        requires stands { (now : Waiting GroupsState PastGroupPhase) × StandsAt self.old now }
        requires within { self.old.line ≤ most_lines }
        ensures { TakesPhased (waiting groups_texts) (StandsAt self.old) (StandsAt self.new) (E.made engine.old)
            (E.made engine.new) line.now result out.old.items out.new.items }
    {
        let number = self.line;
        self.line += 1;
        if let Work::Body(body) = &mut self.work {
            return body.take_line(engine, number, line, out);
        }
        self.take_header_line(number, line, out)
    }

    /// Takes the line of this number, which stands in the header.
    fn take_header_line(
        &mut self,
        number: u32,
        line: &[u8],
        out: &mut Vec<u8>,
    ) -> Result<Option<Status>, Memory>
        ensures work { IfOk result (λ halt. (stage : GroupStage) → IsHead stage self.old.work →
            TakesHeadLine number (group_head_line stage line.now) halt out.old.items out.new.items self.new.work) }
        ensures line { OnOk result (self.new.line ≡ self.old.line) }
    {
        let work = replace(&mut self.work, Work::Stopped);
        let (work, halt) = step_work(self.alloc, work, number, line, out)?;
        self.work = work;
        Ok(halt)
    }
}

impl<E: GroupEngine> Job for GroupsJob<E> {
    ghost use Rattle.vms_stream.specs.Common.{Waiting, waiting};
    ghost use Rattle.vms_groups.specs.GroupStates.{StandsAt};
    ghost use Rattle.vms_groups.specs.GroupTexts.{GroupsState, groups_texts, shown_by_groups};
    ghost use Rattle.vms_groups.specs.PastPhases.{PastGroupPhase};

    type Engine = E;

    ghost State = { Waiting GroupsState PastGroupPhase };

    ghost Outcome = { PastGroupPhase };

    ghost behavior = { waiting groups_texts };

    ghost made = { E.made };

    ghost Stands = { StandsAt };

    ghost Shows = { shown_by_groups };

    fn take_line(
        &mut self,
        engine: &mut E,
        line: &[u8],
        out: &mut Vec<u8>,
    ) -> Result<Option<Status>, Memory> {
        if self.line > MOST_LINES {
            return Ok(Some(Status::TooLong));
        }
        self.take_within(engine, line, out)
    }

    fn end(&mut self, engine: &mut E, out: &mut Vec<u8>) -> Result<Status, Memory> {
        match &mut self.work {
            Work::Header(reader) => {
                write_header_line(out, self.line, reader.missing())?;
                Ok(Status::Header)
            }
            Work::Body(body) => body.end(engine, out),
            Work::Stopped => Ok(Status::Done),
        }
    }
}

ghost use Rattle.std.specs.Prelude.{IfOk};
ghost use Rattle.vms_group_lines.specs.declared.stages.GroupStage.{GroupStage};
ghost use Rattle.vms_group_lines.specs.Common.{group_head_line};
ghost use Rattle.vms_groups.specs.GroupStates.{IsHead, TakesHeadLine};

/// Takes the line of this number, where a header is read.
fn step_work(
    alloc: Global,
    work: Work,
    number: u32,
    line: &[u8],
    out: &mut Vec<u8>,
) -> Result<(Work, Option<Status>), Memory>
    ensures { IfOk result (λ took. (stage : GroupStage) → IsHead stage work →
        TakesHeadLine number (group_head_line stage line.now) took.1 out.old.items out.new.items took.0) }
{
    match work {
        Work::Header(reader) => step_header(alloc, reader, number, line, out),
        Work::Body(body) => Ok((Work::Body(body), None)),
        Work::Stopped => Ok((Work::Stopped, None)),
    }
}

/// Takes a step of the header's reader with the line of this number, and appends what is printed of it.
fn step_header(
    alloc: Global,
    reader: GroupHeadReader,
    number: u32,
    line: &[u8],
    out: &mut Vec<u8>,
) -> Result<(Work, Option<Status>), Memory>
    ensures { IfOk result (λ took. TakesHeadLine number (group_head_line reader line.now) took.1 out.old.items
        out.new.items took.0) }
{
    match reader.read(line) {
        Ok(GroupHeadStep::Goes(reader)) => Ok((Work::Header(reader), None)),
        Ok(GroupHeadStep::Ends(header)) => {
            let body = GroupBody::begin(alloc, header)?;
            Ok((Work::Body(body), None))
        }
        Err(GroupReadError::Refused(cause)) => {
            write_header_line(out, number, cause)?;
            Ok((Work::Stopped, Some(Status::Header)))
        }
        Err(GroupReadError::Memory) => Err(Memory),
    }
}
