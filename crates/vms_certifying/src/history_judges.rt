ghost use Rattle.std.specs.Prelude.{◌≡◌, ◌<◌, ◌≤◌, ℕ, List, [], ◌∷◌, ◌++◌, IfOk, MatchOption, MatchResult, OnErr, OnOk};
ghost use Rattle.std.specs.Prelude.{length};
ghost use Rattle.vms_base.specs.Common.{IsHeader};
ghost use Rattle.vms_base.specs.declared.headers.Header.{Header};
ghost use Rattle.vms_script.specs.Common.{AreSegments, Between, Phase, Segment, first_start};
ghost use Rattle.vms_certifying.specs.HistoryRules.{HistoryRules};
ghost use Rattle.vms_certifying.specs.Judging.{IsJudgeError, IsNeverWhole};

use crate::JudgeError;
use std::alloc::Global;
use vms_base::{Header, Memory};
use vms_script::PhaseScript;
use vms_text::Boundary;

/// How many phases and events a history has.
#[derive(Clone, Copy, Debug, PartialEq, Eq)]
pub struct Counted {
    pub phases: u32,
    pub events: u32,
}

/// What judges the lines after `history 1`. It is given the trace first, segment by segment.
pub trait HistoryJudge: Drop + Sized {
    ghost rules: { HistoryRules };

    // it was given these segments of a trace
    ghost Gathers: { Header → List Segment → Self → Type 0 };

    // of a trace with these segments it has taken these lines
    ghost Accepts: { Header → List Segment → List (List ℕ) → Self → Type 0 };

    /// Before the first segment.
    fn make(alloc: Global, header: &Header) -> Result<Self, Memory>
        requires { IsHeader header.now }
        ensures { IfOk result (Gathers header.now []) };

    /// Is given the next segment, a phase with these lines.
    fn add_phase(&mut self, script: PhaseScript) -> Result<(), Memory>
        ensures { OnOk result ((header : Header) (segments : List Segment) → Gathers header segments self.old →
            Gathers header (segments ++ Phase script ∷ []) self.new) };

    /// Is given the next segment, a boundary line.
    fn add_boundary(&mut self, boundary: Boundary) -> Result<(), Memory>
        requires { (header : Header) × (segments : List Segment) × Gathers header segments self.old
            × (length segments ≤ 1000000) }
        ensures { OnOk result ((header : Header) (segments : List Segment) (n : ℕ) → Gathers header segments self.old →
            Gathers header (segments ++ Between n boundary ∷ []) self.new) };

    /// Begins with the history: there are no further segments.
    fn begin(&mut self, header: &Header)
        requires { IsHeader header.now }
        ensures { (segments : List Segment) → Gathers header.now segments self.old →
            AreSegments header.now first_start segments → Accepts header.now segments [] self.new };

    /// Takes the next line, without its newline, unless it is at fault. Nothing changes then.
    fn step(&mut self, header: &Header, line: &[u8]) -> Result<(), JudgeError>
        requires header { IsHeader header.now }
        requires stands { (segments : List Segment) × (lines : List (List ℕ))
            × Accepts header.now segments lines self.old × (length lines < 1000000) }
        ensures judged { (segments : List Segment) (lines : List (List ℕ)) →
            Accepts header.now segments lines self.old →
            MatchResult result
            (λ _. rules.Begins header.now segments (lines ++ line.now ∷ [])
            × Accepts header.now segments (lines ++ line.now ∷ []) self.new)
            (IsJudgeError rules header.now segments lines line.now) }
        ensures same { OnErr result (self.new ≡ self.old) };

    /// How long the history is that the lines so far are, if they are a whole one.
    fn finish(&self, header: &Header) -> Option<Counted>
        requires header { IsHeader header.now }
        requires stands { (segments : List Segment) × (lines : List (List ℕ))
            × Accepts header.now segments lines self.now }
        ensures { (segments : List Segment) (lines : List (List ℕ)) → Accepts header.now segments lines self.now →
            MatchOption result (IsNeverWhole rules header.now segments lines)
            (λ counted. rules.IsWhole header.now segments lines counted.phases counted.events) };

    /// Appends the line that says what is due where this line is at fault, or where the input ends if there is none.
    /// Nothing is appended where that can't be told. No clause speaks of it.
    fn push_due(
        &self,
        header: &Header,
        line: Option<&[u8]>,
        out: &mut Vec<u8>,
    ) -> Result<(), Memory>
        requires header { IsHeader header.now }
        requires stands { (segments : List Segment) × (lines : List (List ℕ))
            × Accepts header.now segments lines self.now };
}
