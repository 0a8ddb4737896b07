use crate::HistoryJudge;
use crate::written_parts::WrittenPart;
use std::alloc::Global;
use std::mem::replace;
use vms_base::{Header, Memory};
use vms_line::{Act, Boundary, Item, Lane, Line, LineCause};
use vms_script::{LineJudge, PhaseScript, boundaries_cut, lines_make_one_phase};
use vms_stream::Status;
use vms_text::KeptLane;

/// The most phases that have a lane line.
const MOST_PHASES: u32 = 10_000;

/// The most reports.
const MOST_REPORTS: u32 = 1_000;

/// A trace that is read, up to the line that ends it. It keeps the lines of the open phase, and of the others what the
/// judge of the history keeps.
#[derive(Drop)]
pub(crate) struct TracePart<J> {
    pub(crate) alloc: Global,
    pub(crate) header: Header,
    pub(crate) judge: LineJudge,
    /// The lines of the open phase.
    pub(crate) items: Vec<Item>,
    /// How many phases have a lane line.
    pub(crate) phases: u32,
    pub(crate) reports: u32,
    /// How many lines don't count.
    pub(crate) refused: u32,
    pub(crate) history: J,
}

impl<J: HistoryJudge> TracePart<J> {
    ghost use Rattle.std.specs.Prelude.{◌≡◌, ◌≢◌, ◌≤◌, ◌+◌, ℕ, [], List, IfOk, OnOk, Ok, length, true};
    ghost use Rattle.vms_base.specs.Common.{IsHeader};
    ghost use Rattle.vms_script.specs.Common.{NumberedLine};
    ghost use Rattle.vms_text.specs.Common.{IsKeepableLane};
    ghost use Rattle.vms_command.specs.Common.{IsJudgedAfter, LinesAbove};
    ghost use Rattle.vms_command.specs.Limits.{is_report};
    ghost use Rattle.vms_certifying.specs.TraceParts.{HasCrossed, HasEnded, KeepsLines, KeepsNext, KeepsTrace};
    ghost use Rattle.vms_certifying.specs.TraceParts.{SomeLines, TakesTraceLine};
    ghost use Rattle.vms_certifying.specs.WrittenParts.{KeepsWritten};

    /// Before the first line of a body.
    pub(crate) fn begin(alloc: Global, header: Header) -> Result<TracePart<J>, Memory>
        requires { IsHeader header }
        ensures { IfOk result (λ part. (part.header ≡ header) × ((first : ℕ) → KeepsTrace J.Gathers first [] part)) }
    {
        let judge = LineJudge::make(alloc, &header)?;
        let history = J::make(alloc, &header)?;
        Ok(TracePart {
            alloc,
            header,
            judge,
            items: Vec::new(alloc),
            phases: 0,
            reports: 0,
            refused: 0,
            history,
        })
    }

    /// Takes the line of this number, unless it exceeds a limit.
    pub(crate) fn take_line(&mut self, number: u32, line: &[u8]) -> Result<Option<Status>, Memory>
        requires { (first : ℕ) × (texts : List (List ℕ)) × KeepsTrace J.Gathers first texts self.old
            × (length texts ≤ 1000000) }
        ensures { IfOk result (λ halt. (first : ℕ) (texts : List (List ℕ)) → number ≡ first + length texts →
            KeepsTrace J.Gathers first texts self.old →
            TakesTraceLine J.Gathers line.now halt self.old self.new first texts) }
    {
        let said = self.judge.judge(&self.header, line).said;
        self.take_judged(number, said)
    }

    /// Takes the line of this number, of which this was judged.
    fn take_judged(
        &mut self,
        number: u32,
        said: Result<Line, LineCause>,
    ) -> Result<Option<Status>, Memory>
        requires lines { SomeLines J.Gathers self.old }
        requires judged { (above : LinesAbove) × IsJudgedAfter self.old.header above said }
        ensures { IfOk result (λ halt. (lines : List NumberedLine) (above : LinesAbove) →
            KeepsLines J.Gathers lines above self.old →
            KeepsNext J.Gathers number said halt self.old self.new lines above) }
    {
        match said {
            Ok(line) => self.take_counted(number, line),
            Err(_) => {
                self.refused += 1;
                Ok(None)
            }
        }
    }

    /// Takes the line of this number, which counts.
    fn take_counted(&mut self, number: u32, line: Line) -> Result<Option<Status>, Memory>
        requires lines { SomeLines J.Gathers self.old }
        requires judged { (above : LinesAbove) × IsJudgedAfter self.old.header above (Ok line) }
        ensures { IfOk result (λ halt. (lines : List NumberedLine) (above : LinesAbove) →
            KeepsLines J.Gathers lines above self.old →
            KeepsNext J.Gathers number (Ok line) halt self.old self.new lines above) }
    {
        match line {
            Line::Blank => Ok(None),
            Line::Lane(lane, act) => self.keep(number, lane, act),
            Line::Boundary(boundary) => self.pass(number, boundary),
        }
    }

    /// Keeps a line of a lane for the open phase, or opens one.
    fn keep(&mut self, number: u32, lane: Lane, act: Act) -> Result<Option<Status>, Memory>
        requires { IsKeepableLane lane }
        ensures { IfOk result (λ halt. (lines : List NumberedLine) (above : LinesAbove) →
            KeepsLines J.Gathers lines above self.old →
            KeepsNext J.Gathers number (Ok (Line.Lane lane act)) halt self.old self.new lines above) }
    {
        if self.items.is_empty() {
            return self.open(number, lane, act);
        }
        self.items.push(Item {
            number,
            lane: KeptLane::of(lane),
            act,
        })?;
        Ok(None)
    }

    /// Opens a phase with a line of a lane, unless there are too many.
    fn open(&mut self, number: u32, lane: Lane, act: Act) -> Result<Option<Status>, Memory>
        requires lane { IsKeepableLane lane }
        requires none { self.old.items.items ≡ [] }
        ensures { IfOk result (λ halt. (lines : List NumberedLine) (above : LinesAbove) →
            KeepsLines J.Gathers lines above self.old →
            KeepsNext J.Gathers number (Ok (Line.Lane lane act)) halt self.old self.new lines above) }
    {
        if self.phases >= MOST_PHASES {
            return Ok(Some(Status::TooLong));
        }
        self.items.push(Item {
            number,
            lane: KeptLane::of(lane),
            act,
        })?;
        self.phases += 1;
        Ok(None)
    }

    /// Goes past a boundary line, where the open phase ends, unless it is a report too many.
    fn pass(&mut self, number: u32, boundary: Boundary) -> Result<Option<Status>, Memory>
        requires { SomeLines J.Gathers self.old }
        ensures { IfOk result (λ halt. (lines : List NumberedLine) (above : LinesAbove) →
            KeepsLines J.Gathers lines above self.old →
            KeepsNext J.Gathers number (Ok (Line.Boundary boundary)) halt self.old self.new lines above) }
    {
        boundaries_cut();
        if is_report(boundary) {
            return self.report(number, boundary);
        }
        self.cross(boundary)?;
        Ok(None)
    }

    /// Goes past a report, unless it is one too many.
    fn report(&mut self, number: u32, boundary: Boundary) -> Result<Option<Status>, Memory>
        requires report { is_report boundary ≡ true }
        requires lines { SomeLines J.Gathers self.old }
        ensures { IfOk result (λ halt. (lines : List NumberedLine) (above : LinesAbove) →
            KeepsLines J.Gathers lines above self.old →
            KeepsNext J.Gathers number (Ok (Line.Boundary boundary)) halt self.old self.new lines above) }
    {
        boundaries_cut();
        if self.reports >= MOST_REPORTS {
            return Ok(Some(Status::TooLong));
        }
        self.cross(boundary)?;
        self.reports += 1;
        Ok(None)
    }

    /// Ends the open phase, and goes past a boundary line.
    fn cross(&mut self, boundary: Boundary) -> Result<(), Memory>
        requires { SomeLines J.Gathers self.old }
        ensures crosses { OnOk result ((lines : List NumberedLine) (above : LinesAbove) →
            KeepsLines J.Gathers lines above self.old →
            HasCrossed J.Gathers boundary self.old self.new lines) }
        ensures reports { OnOk result (self.new.reports ≡ self.old.reports) }
    {
        self.end_phase()?;
        self.history.add_boundary(boundary)?;
        Ok(())
    }

    /// Ends the open phase, if one is open.
    fn end_phase(&mut self) -> Result<(), Memory>
        requires { SomeLines J.Gathers self.old }
        ensures { OnOk result ((lines : List NumberedLine) (above : LinesAbove) →
            KeepsLines J.Gathers lines above self.old → HasEnded J.Gathers self.old self.new lines) }
    {
        lines_make_one_phase();
        if self.items.is_empty() {
            return Ok(());
        }
        self.close_phase()
    }

    /// Ends the open phase.
    fn close_phase(&mut self) -> Result<(), Memory>
        requires open { self.old.items.items ≢ [] }
        requires lines { SomeLines J.Gathers self.old }
        ensures { OnOk result ((lines : List NumberedLine) (above : LinesAbove) →
            KeepsLines J.Gathers lines above self.old → HasEnded J.Gathers self.old self.new lines) }
    {
        lines_make_one_phase();
        let items = replace(&mut self.items, Vec::new(self.alloc));
        self.history.add_phase(PhaseScript::make(items))?;
        Ok(())
    }

    /// Begins with the history. The line that ends the trace was the last.
    pub(crate) fn end(self) -> Result<WrittenPart<J>, Memory>
        requires { (first : ℕ) × (texts : List (List ℕ)) × KeepsTrace J.Gathers first texts self
            × (length texts ≤ 1000000) }
        ensures { IfOk result (λ part. (first : ℕ) (texts : List (List ℕ)) → KeepsTrace J.Gathers first texts self →
            (part.header ≡ self.header) × KeepsWritten J.Accepts first texts [] part) }
    {
        let mut part = self;
        part.end_phase()?;
        let TracePart {
            header,
            refused,
            history,
            ..
        } = part;
        let mut history = history;
        history.begin(&header);
        Ok(WrittenPart {
            header,
            refused,
            history,
        })
    }
}

ghost use Rattle.std.specs.Prelude.{◌≡◌};
ghost use Rattle.vms_command.specs.Limits.{is_report};

/// Whether a boundary line is a report.
fn is_report(boundary: Boundary) -> bool
    ensures { result ≡ is_report boundary }
{
    matches!(boundary, Boundary::Report(_))
}
