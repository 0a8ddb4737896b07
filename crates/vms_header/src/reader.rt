use crate::drafts::{HeadStep, Stage};
use crate::headers::make_header;
use crate::stages::stage_line;
use crate::{HeaderCause, ReadError};
use std::alloc::Global;
use std::marker::Model;
use vms_base::Header;
use vms_text::{cut_words, is_clean, is_ignored};

/// Reads a header line by line, and keeps of its lines what they say, not their text.
#[derive(Drop)]
pub struct HeaderReader {
    alloc: Global,
    stage: Stage,
}

impl Model for HeaderReader {
    ghost use Rattle.vms_header.specs.Stages.{Stage};

    ghost Value = { Stage };

    ghost use Rattle.vms_header.specs.DraftFacts.{IsStage};
    ghost use Rattle.vms_header.specs.Readers.{stage_of};

    ghost view = { λ reader. stage_of reader.stage };

    ghost invariant = { λ reader. IsStage (stage_of reader.stage) };
}

/// What a line made of a header.
#[derive(Drop)]
pub enum HeaderStep {
    /// The header goes on.
    Goes(HeaderReader),
    /// The line is `go`: the header is whole.
    Ends(Header),
}

impl HeaderReader {
    ghost use Rattle.std.specs.Prelude.{◌≡◌, IfOk};
    ghost use Rattle.vms_header.specs.Stages.{head_line, missing};
    ghost use Rattle.vms_header.specs.Stages.Stage.{Opening};
    ghost use Rattle.vms_header.specs.Steps.{StepsTo, IsStepWritable};

    /// A reader that has read nothing.
    pub fn make(alloc: Global) -> HeaderReader
        ensures { result ≡ Opening }
    {
        HeaderReader {
            alloc,
            stage: Stage::Opening,
        }
    }

    /// Reads a line, without its end. A line at fault ends the reader. Only what the lines declare takes memory.
    pub fn read(self, line: &[u8]) -> Result<HeaderStep, ReadError>
        ensures step { StepsTo (head_line self line.now) result }
        ensures writable { IfOk result IsStepWritable }
    {
        if line.len() > 200 {
            return Err(ReadError::Refused(HeaderCause::LineTooLong));
        }
        if is_ignored(line) {
            return Ok(HeaderStep::Goes(self));
        }
        let HeaderReader { alloc, stage } = self;
        let words = cut_words(line);
        match stage_line(alloc, stage, is_clean(line), words.as_slice())? {
            HeadStep::Goes(stage) => Ok(HeaderStep::Goes(HeaderReader { alloc, stage })),
            HeadStep::Ends(draft) => Ok(HeaderStep::Ends(make_header(alloc, draft)?)),
        }
    }

    /// Why a text that ends here has no header.
    pub fn missing(&self) -> HeaderCause
        ensures { result ≡ missing self.now }
    {
        match &self.stage {
            Stage::Opening => HeaderCause::BadMagic,
            Stage::Versioned(_) => HeaderCause::MissingGo,
            Stage::Drafting(_) => HeaderCause::MissingGo,
        }
    }
}
