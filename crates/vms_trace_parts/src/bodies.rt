use crate::copies::copied_header;
use crate::parts::{Part, PartBegin, TraceParts};
use std::alloc::Global;
use std::mem::replace;
use vms_base::{Header, Memory};
use vms_check::write_accepted;
use vms_command::{Body, status_at_end};
use vms_header::write_header;
use vms_line::{Act, Boundary, Item, Lane, Line};
use vms_script::{JudgedLine, PhaseScript};
use vms_stream::Status;
use vms_text::KeptLane;

/// The body of a copy on its way through a trace, with the part so far.
#[derive(Drop)]
pub(crate) struct TraceCopy {
    pub(crate) alloc: Global,
    /// The boundary line that the part begins with, and its number. There is none in the first part.
    pub(crate) boundary: Option<(u32, Boundary)>,
    /// The lane lines of the part so far.
    pub(crate) items: Vec<Item>,
}

impl TraceCopy {
    ghost use Rattle.std.specs.Prelude.{◌≡◌, ◌≤◌, ◌++◌, ◌∷◌, [], List, IfOk, MatchResult, Ok, OnOk};
    ghost use Rattle.vms_base.specs.Common.{IsHeader};
    ghost use Rattle.vms_base.specs.declared.headers.Header.{Header};
    ghost use Rattle.vms_text.specs.Common.{IsKeepableLane};
    ghost use Rattle.vms_text.specs.declared.acts.Line.{Line};
    ghost use Rattle.vms_script.specs.Common.{IsPhaseScript};
    ghost use Rattle.vms_command.specs.Common.{SomeLine, most_lines};
    ghost use Rattle.vms_trace_parts.specs.Parts.{TracePart, begin_of, parts_of};
    ghost use Rattle.vms_trace_parts.specs.BodyStates.{StandsBefore, TakesLine, held_begin, held_part};

    /// Takes the line of this number, which counts.
    fn take(
        &mut self,
        parts: &mut TraceParts,
        header: &Header,
        number: u32,
        line: &Line,
    ) -> Result<(), Memory>
        requires header { IsHeader header.now }
        requires line { SomeLine (StandsBefore self.old) header.now number (Ok line.now) }
        requires most { number ≤ most_lines }
        ensures { TakesLine header.now number (Ok line.now) self.old self.new (parts_of parts.old) (parts_of parts.new)
            result }
    {
        match *line {
            Line::Blank => Ok(()),
            Line::Lane(lane, act) => self.keep(number, lane, act),
            Line::Boundary(boundary) => self.pass(parts, header, number, boundary),
        }
    }

    /// Keeps a line of a lane.
    fn keep(&mut self, number: u32, lane: Lane, act: Act) -> Result<(), Memory>
        requires { IsKeepableLane lane }
        ensures { (header : Header) (parts : List TracePart) →
            TakesLine header number (Ok (Line.Lane lane act)) self.old self.new parts parts result }
    {
        self.items.push(Item {
            number,
            lane: KeptLane::of(lane),
            act,
        })?;
        Ok(())
    }

    /// Ends the part, and begins the next one with the boundary line of this number.
    fn pass(
        &mut self,
        parts: &mut TraceParts,
        header: &Header,
        number: u32,
        boundary: Boundary,
    ) -> Result<(), Memory>
        requires { IsPhaseScript self.old.items.items }
        ensures { TakesLine header.now number (Ok (Line.Boundary boundary)) self.old self.new (parts_of parts.old)
            (parts_of parts.new) result }
    {
        self.end_part(parts, header)?;
        self.boundary = Some((number, boundary));
        Ok(())
    }

    /// Adds the part to those before it.
    fn end_part(&mut self, parts: &mut TraceParts, header: &Header) -> Result<(), Memory>
        requires { IsPhaseScript self.old.items.items }
        ensures added { MatchResult result
            (λ _. parts_of parts.new ≡ parts_of parts.old ++ held_part header.now self.old ∷ [])
            (λ _. parts_of parts.new ≡ parts_of parts.old) }
        ensures emptied { OnOk result (self.new.items.items ≡ []) }
    {
        let begin = self.begin(header)?;
        let items = replace(&mut self.items, Vec::new(self.alloc));
        parts.add(Part {
            begin,
            script: PhaseScript::make(items),
        })
    }

    /// Where the part begins.
    fn begin(&self, header: &Header) -> Result<PartBegin, Memory>
        ensures { IfOk result (λ begin. begin_of begin ≡ held_begin header.now self.now.boundary) }
    {
        match self.boundary {
            None => {
                let copy = copied_header(self.alloc, header)?;
                Ok(PartBegin::AfterHeader(Box::new(self.alloc, copy)?))
            }
            Some((number, boundary)) => Ok(PartBegin::WithBoundary(number, boundary)),
        }
    }
}

impl Body for TraceCopy {
    ghost use Rattle.std.specs.Prelude.{Some};
    ghost use Rattle.vms_trace_parts.specs.BodyStates.{StandsBefore};
    ghost use Rattle.vms_trace_parts.specs.Copying.{copying, shown_by_copy};
    ghost use Rattle.vms_trace_parts.specs.Parts.{TracePart, parts_of};

    type Engine = TraceParts;

    ghost Kept = { TracePart };

    ghost Outcome = { TracePart };

    ghost command = { copying };

    ghost made = { λ parts. Some (parts_of parts) };

    ghost Stands = { StandsBefore };

    ghost Shows = { shown_by_copy };

    fn begin(alloc: Global, header: &Header, out: &mut Vec<u8>) -> Result<TraceCopy, Memory> {
        write_header(out, header)?;
        Ok(TraceCopy {
            alloc,
            boundary: None,
            items: Vec::new(alloc),
        })
    }

    fn take_line(
        &mut self,
        parts: &mut TraceParts,
        header: &Header,
        number: u32,
        judged: &JudgedLine<'_>,
        out: &mut Vec<u8>,
    ) -> Result<(), Memory> {
        match &judged.said {
            Ok(line) => {
                write_accepted(out, header, line, judged.spelled)?;
                self.take(parts, header, number, line)
            }
            Err(_) => Ok(()),
        }
    }

    fn end(
        &mut self,
        parts: &mut TraceParts,
        header: &Header,
        _accepted: u32,
        refused: u32,
        _out: &mut Vec<u8>,
    ) -> Result<Status, Memory> {
        self.end_part(parts, header)?;
        Ok(status_at_end(refused))
    }
}
