use vms_base::Memory;
use vms_phase_checks::EventCause;

/// What was judged of a line after `history 1`, or at the end of the input.
#[derive(Clone, Copy, Debug, PartialEq, Eq)]
pub enum Verdict {
    /// The line goes on with the history.
    Taken,
    /// The lines are a whole history, of so many phases and events.
    Whole(u32, u32),
    /// The line is the first at fault.
    Refused(EventCause),
}

/// The verdicts so far, the last one of which may end the command.
#[derive(Clone, Copy, Debug)]
pub(crate) struct Verdicts {
    /// How many lines were taken.
    pub(crate) taken: u32,
    pub(crate) last: Option<Verdict>,
}

impl Verdicts {
    ghost use Rattle.std.specs.Prelude.{◌≡◌, ◌∷◌, [], ◌++◌, MatchResult};
    ghost use Rattle.vms_certifying.specs.Verdicts.{verdicts_of};

    /// Before the first line.
    pub(crate) fn none() -> Verdicts
        ensures { verdicts_of result ≡ [] }
    {
        Verdicts {
            taken: 0,
            last: None,
        }
    }

    /// Adds a verdict, unless the last one ended the command, or there are too many.
    pub(crate) fn add(&mut self, verdict: Verdict) -> Result<(), Memory>
        ensures { MatchResult result
            (λ _. verdicts_of self.new ≡ verdicts_of self.old ++ verdict ∷ [])
            (λ _. self.new ≡ self.old) }
    {
        if self.last.is_some() || self.taken == u32::MAX {
            return Err(Memory);
        }
        match verdict {
            Verdict::Taken => self.taken += 1,
            _ => self.last = Some(verdict),
        }
        Ok(())
    }
}
