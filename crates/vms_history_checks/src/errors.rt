use vms_base::Memory;
use vms_phase_checks::EventCause;

/// Why a line wasn't taken. The check is as it was then.
#[derive(Clone, Copy, Debug, PartialEq, Eq, thiserror::Error)]
pub enum CheckError {
    #[error("the line is at fault")]
    Fault(EventCause),
    /// A phase begins, and there is no memory for its registers.
    #[error("out of memory")]
    Memory,
}

impl From<Memory> for CheckError {
    ghost use Rattle.std.specs.Prelude.{◌≡◌};
    ghost use Rattle.vms_history_checks.specs.declared.errors.CheckError.TheVariants as errors;

    ghost from_gives = { λ _ error. error ≡ errors.Memory };

    fn from(_error: Memory) -> CheckError {
        CheckError::Memory
    }
}
