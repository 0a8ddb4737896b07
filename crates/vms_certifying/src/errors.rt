use vms_base::Memory;
use vms_phase_checks::EventCause;

/// Why a line of a written history wasn't taken.
#[derive(Clone, Copy, Debug, PartialEq, Eq, thiserror::Error)]
pub enum JudgeError {
    #[error("the line is at fault")]
    Fault(EventCause),
    #[error("out of memory")]
    Memory,
}

impl From<Memory> for JudgeError {
    ghost use Rattle.std.specs.Prelude.{◌≡◌};
    ghost use Rattle.vms_certifying.specs.declared.errors.JudgeError.TheVariants as errors;

    ghost from_gives = { λ _ error. error ≡ errors.Memory };

    fn from(_error: Memory) -> JudgeError {
        JudgeError::Memory
    }
}
