use crate::{BoundaryAt, CheckError};
use std::alloc::Global;
use vms_base::{Header, Memory};
use vms_core::State;
use vms_page_crossings::{cross, first_pages};
use vms_phase_checks::{DueEvent, EventCause, LaneWalk, PhaseCheck};
use vms_script::PhaseScript;
use vms_written_lines::{WideStep, WrittenLine, push_event_line, read_line};

/// How many phases and page events a written history has.
#[derive(Clone, Copy, Debug, PartialEq, Eq)]
pub struct Counted {
    pub phases: u32,
    pub events: u32,
}

/// The lines of a written history so far, as far as the next one is judged by them.
#[derive(Drop)]
pub struct HistoryCheck<W> {
    pub(crate) alloc: Global,
    /// The boundary lines of the text, and the lines of its phases.
    pub(crate) bounds: Vec<BoundaryAt>,
    pub(crate) phases: Vec<PhaseScript>,
    /// How many boundary lines were crossed.
    pub(crate) crossed: usize,
    /// How many phases have begun.
    pub(crate) begun: u32,
    /// The phase that began last.
    pub(crate) phase: Option<PhaseCheck<W>>,
    /// How many events there are in all phases.
    pub(crate) events: u32,
    /// How many lines were taken.
    pub(crate) lines: u32,
}

impl<W: LaneWalk> HistoryCheck<W> {
    ghost use Rattle.std.specs.Prelude.{◌≡◌, ◌<◌, ◌≤◌, ◌↔◌, [], List, IfOk, IsTrue, MatchResult, drop, length, reverse};
    ghost use Rattle.vms_core.specs.Pages.{History};
    ghost use Rattle.vms_world.specs.Common.{Segment, Header as HeaderOf, IsHeader, first_start};
    ghost use Rattle.vms_written.specs.Common.{IsWrittenHistory};
    ghost use Rattle.vms_written_lines.specs.declared.lines.WrittenLine.TheVariants.{Event, Phase};
    ghost use Rattle.vms_written_lines.specs.Lines.{read_line};
    ghost use Rattle.vms_phase_checks.specs.declared.faults.EventCause.TheVariants.{Incomplete};
    ghost use Rattle.vms_history_checks.specs.Accepts.{Accepts, IsAt, IsWholeAt, events_in};
    ghost use Rattle.vms_history_checks.specs.Bounds.{BeginsWithNoBoundary, MayStandInTurn, bounds_of, scripts_of};
    ghost use Rattle.vms_history_checks.specs.Leads.{HasLed};
    ghost use Rattle.vms_history_checks.specs.Says.{MaySay, Says};

    /// A check before the first line after `history 1`, of a text with these boundary lines and these lines of phases,
    /// each where the other stand between them.
    pub fn make(
        alloc: Global,
        header: &Header,
        bounds: Vec<BoundaryAt>,
        phases: Vec<PhaseScript>,
    ) -> HistoryCheck<W>
        requires header { IsHeader header.now }
        ensures fresh { result.lines ≡ 0 }
        ensures accepts { (segments : List Segment) → MayStandInTurn header.now first_start segments →
            bounds.items ≡ bounds_of 0 segments → phases.items ≡ scripts_of segments →
            Accepts W.Stands W.pressure W.normal header.now segments [] result }
    {
        HistoryCheck {
            alloc,
            bounds,
            phases,
            crossed: 0,
            begun: 0,
            phase: None,
            events: 0,
            lines: 0,
        }
    }

    /// Takes the next line, without its newline. A line at fault is refused with its first cause, and where there is no
    /// memory the line isn't taken. Nothing changes then.
    pub fn step(&mut self, header: &Header, line: &[u8]) -> Result<(), CheckError>
        requires header { IsHeader header.now }
        requires check { MaySay W.Stands W.pressure W.normal header.now self.old }
        requires few { self.old.lines < 1000000 }
        ensures { (segments : List Segment) (hs : List History) →
            Accepts W.Stands W.pressure W.normal header.now segments hs self.old →
            Says W.Stands W.pressure W.normal header.now segments hs (read_line header.now.layout line.now) self.old
            self.new result }
    {
        match read_line(&header.layout, line) {
            None => Err(CheckError::Fault(EventCause::BadEvent)),
            Some(WrittenLine::Blank) => {
                self.lines += 1;
                Ok(())
            }
            Some(WrittenLine::Phase) => self.begin(header),
            Some(WrittenLine::Event(caller, step)) => self.take(header, caller, &step),
        }
    }

    /// Whether the lines so far are a whole written history, and how long it is.
    pub fn finish(&self) -> Result<Counted, EventCause>
        requires { (header : HeaderOf) × IsHeader header × MaySay W.Stands W.pressure W.normal header self.now }
        ensures { (header : HeaderOf) (segments : List Segment) (hs : List History) → IsHeader header →
            Accepts W.Stands W.pressure W.normal header segments hs self.now →
            MatchResult result
            (λ counted. IsWrittenHistory header W.pressure W.normal segments (reverse hs)
            × (counted.phases ≡ length hs) × (counted.events ≡ events_in hs))
            (λ cause. (cause ≡ Incomplete)
            × (¬ IsWrittenHistory header W.pressure W.normal segments (reverse hs))) }
    {
        if self.begun as usize != self.phases.len() {
            return Err(EventCause::Incomplete);
        }
        if !self.is_whole() {
            return Err(EventCause::Incomplete);
        }
        Ok(Counted {
            phases: self.begun,
            events: self.events,
        })
    }

    /// Appends `due: ` and the line that is due where this line is at fault, or where the input ends if there is none:
    /// of a caller whose pass lives the event that is due of it, else that of the first lane whose lines aren't over,
    /// else `phase`, or `nothing` where no phase is left. Nothing is appended where a number can't be told. No clause
    /// speaks of it.
    pub fn push_due(
        &self,
        header: &Header,
        line: Option<&[u8]>,
        out: &mut Vec<u8>,
    ) -> Result<(), Memory>
        requires header { IsHeader header.now }
        requires check { MaySay W.Stands W.pressure W.normal header.now self.now }
    {
        match self.due_at(header, line) {
            DueEvent::Event(caller, step) => {
                out.extend_from_slice(b"due: ")?;
                push_event_line(out, caller, &step)
            }
            DueEvent::Nothing => {
                out.extend_from_slice(due_after_phases(self.begun as usize == self.phases.len()))?;
                Ok(())
            }
            DueEvent::Untold => Ok(()),
        }
    }

    /// The event that is due in place of a line, or at the end of the input.
    fn due_at(&self, header: &Header, line: Option<&[u8]>) -> DueEvent
        requires header { IsHeader header.now }
        requires check { MaySay W.Stands W.pressure W.normal header.now self.now }
    {
        let Some(phase) = &self.phase else {
            return DueEvent::Nothing;
        };
        let due = match caller_of(header, line) {
            Some(caller) => phase.due_of(header, caller),
            None => DueEvent::Nothing,
        };
        match due {
            DueEvent::Nothing => phase.first_due(header),
            told => told,
        }
    }

    /// How many lines were taken.
    #[inline]
    pub fn lines(&self) -> u32
        ensures { result ≡ self.now.lines }
    {
        self.lines
    }

    /// Takes a line that says that a phase begins.
    fn begin(&mut self, header: &Header) -> Result<(), CheckError>
        requires header { IsHeader header.now }
        requires check { MaySay W.Stands W.pressure W.normal header.now self.old }
        requires few { self.old.lines < 1000000 }
        ensures { (segments : List Segment) (hs : List History) →
            Accepts W.Stands W.pressure W.normal header.now segments hs self.old →
            Says W.Stands W.pressure W.normal header.now segments hs (Some Phase) self.old self.new result }
    {
        if self.begun as usize == self.phases.len() {
            return Err(CheckError::Fault(EventCause::NotInScript));
        }
        if !self.is_whole() {
            return Err(CheckError::Fault(EventCause::Incomplete));
        }
        let mut pages = self.ended_pages(header)?;
        let crossed = self.cross_all(header, &mut pages);
        let items = self.phases[self.begun as usize].as_slice();
        let phase = PhaseCheck::open(self.alloc, header, pages, items)?;
        self.phase = Some(phase);
        self.crossed = crossed;
        self.begun += 1;
        self.lines += 1;
        Ok(())
    }

    /// Takes a line that says that a pass makes a step.
    fn take(&mut self, header: &Header, caller: u64, step: &WideStep) -> Result<(), CheckError>
        requires header { IsHeader header.now }
        requires check { MaySay W.Stands W.pressure W.normal header.now self.old }
        requires few { self.old.lines < 1000000 }
        ensures { (segments : List Segment) (hs : List History) →
            Accepts W.Stands W.pressure W.normal header.now segments hs self.old →
            Says W.Stands W.pressure W.normal header.now segments hs (Some (Event caller step.now)) self.old self.new
            result }
    {
        let Some(phase) = &mut self.phase else {
            return Err(CheckError::Fault(EventCause::BadEvent));
        };
        match phase.take(header, caller, step) {
            Ok(()) => {
                self.events += 1;
                self.lines += 1;
                Ok(())
            }
            Err(cause) => Err(CheckError::Fault(cause)),
        }
    }

    /// Whether the phase that began last is whole, if there is one.
    fn is_whole(&self) -> bool
        requires { (header : HeaderOf) × MaySay W.Stands W.pressure W.normal header self.now }
        ensures { (header : HeaderOf) (segments : List Segment) (hs : List History) (left : List Segment)
            (at : IsAt W.Stands W.pressure W.normal header segments hs self.now.phase left) →
            IsTrue result ↔ IsWholeAt W.Stands W.pressure W.normal header segments hs self.now.phase left at }
    {
        match &self.phase {
            None => true,
            Some(phase) => phase.is_whole(),
        }
    }

    /// The page counters that a run begins with, or as the phase that began last leaves them.
    fn ended_pages(&self, header: &Header) -> Result<State, Memory>
        requires header { IsHeader header.now }
        ensures { (segments : List Segment) (hs : List History) (left : List Segment)
            (at : IsAt W.Stands W.pressure W.normal header.now segments hs self.now.phase left) →
            MayStandInTurn header.now first_start segments →
            IsWholeAt W.Stands W.pressure W.normal header.now segments hs self.now.phase left at →
            IfOk result (HasLed header.now W.pressure W.normal segments hs left) }
    {
        match &self.phase {
            None => first_pages(self.alloc, header),
            Some(phase) => phase.settled(self.alloc),
        }
    }

    /// Crosses the boundary lines before the next phase, and answers how many were crossed by then.
    fn cross_all(&self, header: &Header, pages: &mut State) -> usize
        requires header { IsHeader header.now }
        requires may { (segments : List Segment) × (hs : List History) × (left : List Segment)
            × HasLed header.now W.pressure W.normal segments hs left pages.old
            × (drop self.now.crossed self.now.bounds.items ≡ bounds_of self.now.begun left)
            × (self.now.crossed ≤ length self.now.bounds.items) }
        ensures within { result ≤ length self.now.bounds.items }
        ensures led { (segments : List Segment) (hs : List History) (left : List Segment) →
            HasLed header.now W.pressure W.normal segments hs left pages.old →
            drop self.now.crossed self.now.bounds.items ≡ bounds_of self.now.begun left → (next : List Segment)
            × HasLed header.now W.pressure W.normal segments hs next pages.new
            × (drop result self.now.bounds.items ≡ bounds_of self.now.begun next)
            × (scripts_of next ≡ scripts_of left) × BeginsWithNoBoundary next }
    {
        let mut crossed = self.crossed;
        while crossed < self.bounds.len() && self.bounds[crossed].after <= self.begun {
            cross(pages, header, self.bounds[crossed].boundary);
            crossed += 1;
        }
        crossed
    }
}

/// The caller of the event that a line says, if it says one.
fn caller_of(header: &Header, line: Option<&[u8]>) -> Option<u64> {
    match read_line(&header.layout, line?) {
        Some(WrittenLine::Event(caller, _)) => Some(caller),
        _ => None,
    }
}

/// What is due where no event is: a phase, or nothing where none is left.
fn due_after_phases(have_all_begun: bool) -> &'static [u8] {
    if have_all_begun {
        b"due: nothing\n"
    } else {
        b"due: phase\n"
    }
}
