ghost use Rattle.std.specs.Prelude.{◌≡◌, ℕ, List, Option, None};
ghost use Rattle.vms_history.specs.Common.{CpuId, Machine, IsQuiet, Begins, Ends};

use std::marker::Brand;

/// A table whose state stands in shared 64-bit words. Its machine says what its steps do and ask.
pub trait Ledger {
    /// What is known of the table from the start.
    type Facts;

    /// One atomic operation.
    type Step;

    ghost State: { Type 0 };

    ghost machine: { Machine Self.Facts Self.Step State };

    // What begins or ends a pass leaves the table as it is.
    ghost quiet: { IsQuiet machine };

    // The words that show a state.
    ghost shown: { Self.Facts → State → List ℕ };

    // The step that a call makes which planned this one and finds this number.
    ghost told: { Self.Step → ℕ → Self.Step };

    // The step by which a pass with this number begins, which owns a CPU or is the control pass.
    ghost begins: { ℕ → Option CpuId → Self.Step };

    ghost begins_it: { (q : ℕ) (who : Option CpuId) → machine.role (begins q who) ≡ Begins q who };

    // The step by which the pass with this number ends.
    ghost ends: { ℕ → Self.Step };

    ghost ends_it: { (q : ℕ) → machine.role (ends q) ≡ Ends q };

    // Any facts. A seat that knows nothing any more has them in its view.
    ghost blank: { Self.Facts };
}

// Which step is made, by the number that is found. Each call picks its own.
pub(crate) trait Plan<K> {
    ghost step: { ℕ → Option K };
}

impl<K> Plan<K> for Brand {
    ghost step = { λ found. None };
}

// Which CPU a pass owns that begins. Each call picks its own.
pub(crate) trait Owner {
    ghost cpu: { Option CpuId };
}

impl Owner for Brand {
    ghost cpu = { None };
}
