use crate::header_lines::stage_line;
use crate::parsing::MOST_LINE;
use crate::stages::{GroupStage, HeadStep};
use crate::{GroupCause, GroupHeader, GroupReadError};
use arrayvec::ArrayVec;
use std::alloc::Global;
use std::marker::Model;
use vms_text::{cut_line, is_ignored};

/// Reads a header of groups line by line, and keeps of its lines what they say, not their text.
#[derive(Drop)]
pub struct GroupHeadReader {
    alloc: Global,
    stage: GroupStage,
}

impl Model for GroupHeadReader {
    ghost use Rattle.vms_group_lines.specs.declared.stages.GroupStage.{GroupStage};

    ghost Value = { GroupStage };

    ghost use Rattle.vms_group_lines.specs.Stages.{IsGroupStage};

    ghost view = { λ reader. reader.stage };

    ghost invariant = { λ reader. IsGroupStage reader.stage };
}

/// What a line made of a header.
#[derive(Drop)]
pub enum GroupHeadStep {
    /// The header goes on.
    Goes(GroupHeadReader),
    /// The line is `go`: the header is whole.
    Ends(GroupHeader),
}

impl GroupHeadReader {
    ghost use Rattle.std.specs.Prelude.{◌≡◌, IfOk};
    ghost use Rattle.vms_group_lines.specs.declared.stages.GroupStage.TheVariants.{Opening};
    ghost use Rattle.vms_group_lines.specs.HeadLines.{group_head_line, group_missing};
    ghost use Rattle.vms_group_lines.specs.Steps.{StepsTo, EndsValid};

    /// A reader that has read nothing.
    pub fn make(alloc: Global) -> GroupHeadReader
        ensures { result ≡ Opening }
    {
        GroupHeadReader {
            alloc,
            stage: GroupStage::Opening,
        }
    }

    /// Reads a line, without its end. A line at fault ends the reader. Only what the lines declare takes memory.
    pub fn read(self, line: &[u8]) -> Result<GroupHeadStep, GroupReadError>
        ensures step { StepsTo (group_head_line self line.now) result }
        ensures valid { IfOk result EndsValid }
    {
        if line.len() > MOST_LINE {
            return Err(GroupReadError::Refused(GroupCause::LineTooLong));
        }
        if is_ignored(line) {
            return Ok(GroupHeadStep::Goes(self));
        }
        let GroupHeadReader { alloc, stage } = self;
        let mut words = ArrayVec::new();
        let clean = cut_line(&mut words, line);
        match stage_line(alloc, stage, clean, words.as_slice())? {
            HeadStep::Goes(stage) => Ok(GroupHeadStep::Goes(GroupHeadReader { alloc, stage })),
            HeadStep::Ends(header) => Ok(GroupHeadStep::Ends(header)),
        }
    }

    /// Why a text that ends here has no header.
    pub fn missing(&self) -> GroupCause
        ensures { result ≡ group_missing self.now }
    {
        match &self.stage {
            GroupStage::Opening => GroupCause::BadMagic,
            GroupStage::Versioned => GroupCause::MissingGo,
            GroupStage::Declaring(_) => GroupCause::MissingGo,
        }
    }
}
