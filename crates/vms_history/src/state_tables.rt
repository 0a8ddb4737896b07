ghost use Rattle.std.specs.Prelude.{ℕ, List};
ghost use Rattle.vms_history.specs.declared.events.Event.{Event};
ghost use Rattle.vms_history.specs.Legal.{Machine};
ghost use Rattle.vms_history.specs.InRow.{ByState, IsByState};

/// A table whose steps tell and do what the state decides, and the CPU that their caller owns.
pub trait StateTable {
    /// What is known of the table from the start.
    type Facts;

    /// One atomic operation.
    type Step;

    ghost State: { Type 0 };

    ghost machine: { Machine Self.Facts Self.Step State };

    // The numbers that a step names stand when it is made.
    ghost Tells: { Self.Facts → List (Event Self.Step) → ℕ → Self.Step → Type 0 };

    ghost by_state: { ByState Self.Step State };

    ghost is_by_state: { IsByState machine Tells by_state };
}
