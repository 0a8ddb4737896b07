ghost use Rattle.std.specs.Prelude.{◌≡◌, ◌++◌, ◌∷◌, [], List, None, IfNone, IfSome, MatchResult, map};
ghost use Rattle.vms_trace_parts.specs.Parts.{boundary_of, header_in, part_of, parts_of};

use std::alloc::Global;
use vms_base::{Header, Memory};
use vms_line::Boundary;
use vms_script::PhaseScript;

const _: () = prove!(size_of::<Part>() == 40);

/// Where a part begins.
#[derive(Debug, Drop)]
pub(crate) enum PartBegin {
    /// After the header of the trace.
    AfterHeader(Box<Header>),
    /// With the boundary line of this number, counted from 1.
    WithBoundary(u32, Boundary),
}

/// A part of a trace: from its header or from a boundary line on, up to the next boundary line that counts.
#[derive(Debug, Drop)]
pub struct Part {
    pub(crate) begin: PartBegin,
    pub(crate) script: PhaseScript,
}

impl Part {
    /// The boundary line that the part begins with, and its number. There is none in the first part.
    pub fn boundary(&self) -> Option<(u32, Boundary)>
        ensures { result ≡ boundary_of (part_of self.now).begin }
    {
        match &self.begin {
            PartBegin::AfterHeader(_) => None,
            PartBegin::WithBoundary(number, boundary) => Some((*number, *boundary)),
        }
    }

    /// The lane lines of the part that count. There may be none.
    pub fn script(&self) -> &PhaseScript
        ensures { result.now ≡ (part_of self.now).items }
    {
        &self.script
    }
}

/// The parts of a trace, in the order of the text.
#[derive(Debug, Drop)]
pub struct TraceParts {
    pub(crate) parts: Vec<Part>,
}

impl TraceParts {
    /// Of a trace of which nothing was read.
    pub(crate) fn none(alloc: Global) -> TraceParts
        ensures { parts_of result ≡ [] }
    {
        TraceParts {
            parts: Vec::new(alloc),
        }
    }

    /// Adds the next part.
    pub(crate) fn add(&mut self, part: Part) -> Result<(), Memory>
        ensures { MatchResult result
            (λ _. parts_of self.new ≡ parts_of self.old ++ part_of part ∷ [])
            (λ _. parts_of self.new ≡ parts_of self.old) }
    {
        self.parts.push(part)?;
        Ok(())
    }

    /// The parts.
    pub fn as_slice(&self) -> &[Part]
        ensures { map part_of result.now ≡ parts_of self.now }
    {
        self.parts.as_slice()
    }

    /// The header of the trace, which its first part begins after.
    pub fn header(&self) -> Option<&Header>
        ensures some { IfSome result (λ header. header_in (parts_of self.now) ≡ Some header.now) }
        ensures none { IfNone result (header_in (parts_of self.now) ≡ None) }
    {
        match &self.parts.first()?.begin {
            PartBegin::AfterHeader(header) => Some(&**header),
            PartBegin::WithBoundary(..) => None,
        }
    }
}
