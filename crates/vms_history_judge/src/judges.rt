use std::alloc::Global;
use std::mem::replace;
use vms_base::{Header, Memory};
use vms_certifying::{Counted, HistoryJudge, JudgeError};
use vms_history_checks::{BoundaryAt, CheckError, HistoryCheck};
use vms_phase_checks::LaneWalk;
use vms_script::PhaseScript;
use vms_text::Boundary;

/// The segments of a trace, and the check of the history after it once that has begun.
#[derive(Drop)]
pub struct Judge<W> {
    pub(crate) alloc: Global,
    pub(crate) bounds: Vec<BoundaryAt>,
    pub(crate) phases: Vec<PhaseScript>,
    pub(crate) check: Option<HistoryCheck<W>>,
}

impl<W: LaneWalk> HistoryJudge for Judge<W> {
    ghost use Rattle.vms_history_judge.specs.Judges.{AcceptsLines, GathersSegments};
    ghost use Rattle.vms_history_judge.specs.WrittenRules.{written_rules};

    ghost rules = { written_rules W.pressure W.normal };

    ghost Gathers = { GathersSegments };

    ghost Accepts = { AcceptsLines W.Stands W.pressure W.normal };

    fn make(alloc: Global, _header: &Header) -> Result<Judge<W>, Memory> {
        Ok(Judge {
            alloc,
            bounds: Vec::new(alloc),
            phases: Vec::new(alloc),
            check: None,
        })
    }

    fn add_phase(&mut self, script: PhaseScript) -> Result<(), Memory> {
        self.phases.push(script)?;
        Ok(())
    }

    fn add_boundary(&mut self, boundary: Boundary) -> Result<(), Memory> {
        let after = count_of(&self.phases);
        self.bounds.push(BoundaryAt { after, boundary })?;
        Ok(())
    }

    fn begin(&mut self, header: &Header) {
        let bounds = replace(&mut self.bounds, Vec::new(self.alloc));
        let phases = replace(&mut self.phases, Vec::new(self.alloc));
        self.check = Some(HistoryCheck::make(self.alloc, header, bounds, phases));
    }

    fn step(&mut self, header: &Header, line: &[u8]) -> Result<(), JudgeError> {
        match &mut self.check {
            Some(check) => take(check, header, line),
            None => Err(JudgeError::Memory),
        }
    }

    fn finish(&self, header: &Header) -> Option<Counted> {
        match &self.check {
            Some(check) => counted_of(check, header),
            None => None,
        }
    }

    fn push_due(
        &self,
        header: &Header,
        line: Option<&[u8]>,
        out: &mut Vec<u8>,
    ) -> Result<(), Memory> {
        match &self.check {
            Some(check) => check.push_due(header, line, out),
            None => Ok(()),
        }
    }
}

ghost use Rattle.std.specs.Prelude.{◌≡◌, ◌<◌, ◌≤◌, ◌+◌, List, MatchOption, MatchResult, OnErr, Some, reverse, length};
ghost use Rattle.vms_core.specs.Pages.{History};
ghost use Rattle.vms_world.specs.Common.{IsHeader, Segment};
ghost use Rattle.vms_written.specs.Common.{IsWrittenHistory};
ghost use Rattle.vms_written_lines.specs.Lines.{read_line};
ghost use Rattle.vms_history_checks.specs.Accepts.{Accepts, events_in};
ghost use Rattle.vms_history_checks.specs.Said.{with_said};
ghost use Rattle.vms_history_checks.specs.Says.{MaySay};
ghost use Rattle.vms_history_judge.specs.Takes.{IsSaidFault};

/// How many phases there are.
fn count_of(phases: &Vec<PhaseScript>) -> u32
    requires { length phases.now.items ≤ 1000000 }
    ensures { result ≡ length phases.now.items }
{
    phases.len() as u32
}

/// Takes a line, unless it is at fault.
fn take<W: LaneWalk>(
    check: &mut HistoryCheck<W>,
    header: &Header,
    line: &[u8],
) -> Result<(), JudgeError>
    requires header { IsHeader header.now }
    requires check { MaySay W.Stands W.pressure W.normal header.now check.old }
    requires few { check.old.lines < 1000000 }
    ensures same { OnErr result (check.new ≡ check.old) }
    ensures judged { (segments : List Segment) (hs : List History) →
        Accepts W.Stands W.pressure W.normal header.now segments hs check.old →
        MatchResult result
        (λ _. (next : List History) × (with_said (read_line header.now.layout line.now) hs ≡ Some next)
        × Accepts W.Stands W.pressure W.normal header.now segments next check.new
        × (check.new.lines ≡ check.old.lines + 1))
        (IsSaidFault W.pressure W.normal header.now segments hs (read_line header.now.layout line.now)) }
{
    match check.step(header, line) {
        Ok(()) => Ok(()),
        Err(error) => Err(judge_error(error)),
    }
}

ghost use Rattle.vms_history_judge.specs.Takes.{same_error};

/// Why a line wasn't taken.
fn judge_error(error: CheckError) -> JudgeError
    ensures { result ≡ same_error error }
{
    match error {
        CheckError::Fault(cause) => JudgeError::Fault(cause),
        CheckError::Memory => JudgeError::Memory,
    }
}

/// How long a history is, if it is whole.
fn counted_of<W: LaneWalk>(check: &HistoryCheck<W>, header: &Header) -> Option<Counted>
    requires header { IsHeader header.now }
    requires check { MaySay W.Stands W.pressure W.normal header.now check.now }
    ensures { (segments : List Segment) (hs : List History) →
        Accepts W.Stands W.pressure W.normal header.now segments hs check.now →
        MatchOption result (¬ IsWrittenHistory header.now W.pressure W.normal segments (reverse hs))
        (λ counted. IsWrittenHistory header.now W.pressure W.normal segments (reverse hs)
        × (counted.phases ≡ length hs) × (counted.events ≡ events_in hs)) }
{
    match check.finish() {
        Ok(counted) => Some(Counted {
            phases: counted.phases,
            events: counted.events,
        }),
        Err(_) => None,
    }
}
