ghost use Rattle.std.specs.Prelude.{◌≢◌, ℕ, ◌+◌, ◌<◌, ◌⊎◌, ◌≡◌};
ghost use Rattle.vms_history.specs.Common.{Extends};
ghost use Rattle.vms_pcpu_core.specs.declared.steps.PcpuFacts.{PcpuFacts};
ghost use Rattle.vms_pcpu_core.specs.declared.steps.PcpuStep.{PcpuStep};
ghost use Rattle.vms_pcpu_core.specs.Common.{History, IsLegal, KeepsLaws};
ghost use Rattle.vms_pcpu.specs.SharedWords.{count_place, local_place, lock_place};
ghost use Rattle.vms_rows.specs.Common.{line_of};
ghost use Rattle.vms_seats.specs.Common.{Pass};

use crate::passes::{PcpuControl, PcpuPass};
use crate::tables::PcpuMain;
use vms_pcpu_core::laws_are_kept;

/// A pass of the percpu counters: one that owns a CPU, the control pass or the main pass.
pub trait AnyPcpuPass {
    // The pass that it is.
    ghost pass: { Self → Pass PcpuFacts PcpuStep };

    /// What a pass has seen is legal.
    fn has_seen_legal(&self)
        ensures { IsLegal (pass self.now).facts (pass self.now).seen };
}

impl AnyPcpuPass for PcpuPass {
    ghost pass = { λ p. p.pass };

    fn has_seen_legal(&self) {
        self.cpu();
    }
}

impl AnyPcpuPass for PcpuControl {
    ghost pass = { λ p. p };

    fn has_seen_legal(&self) {
        self.is_ready();
    }
}

impl AnyPcpuPass for PcpuMain {
    ghost pass = { λ p. p };

    fn has_seen_legal(&self) {
        self.is_main();
    }
}

/// While others act too, at every moment of what a pass has seen, no amount is lost or counted twice: the shared part
/// of a counter, its local parts and what callers carry for it add up to its true total, which is the base and all
/// amounts since. A local part is at most its batch, a lock has at most one holder, and nothing is carried for a
/// counter whose lock is free. So it is with the other laws of the percpu counters.
pub fn totals_are_kept<P: AnyPcpuPass>(pass: &P)
    ensures { (moment : History) → Extends (P.pass pass.now).seen moment →
        KeepsLaws (P.pass pass.now).facts moment }
{
    pass.has_seen_legal();
    laws_are_kept();
}

/// In whichever word of a line of 64 bytes the first word of a table of so many counters stands: local parts of two
/// CPUs stand in two lines, the shared part or the lock of a counter stands in no line with those of another counter,
/// and neither with a local part.
pub fn cpus_share_no_line()
    ensures cpus { (counters start c d i j : ℕ) → i < counters → j < counters → c ≢ d →
        line_of (start + local_place counters c i) ≢ line_of (start + local_place counters d j) }
    ensures pairs { (start i j p q : ℕ) → (p ≡ count_place i) ⊎ (p ≡ lock_place i) →
        (q ≡ count_place j) ⊎ (q ≡ lock_place j) → i ≢ j → line_of (start + p) ≢ line_of (start + q) }
    ensures apart { (counters start c i j p : ℕ) → (p ≡ count_place i) ⊎ (p ≡ lock_place i) →
        i < counters → line_of (start + p) ≢ line_of (start + local_place counters c j) }
{}
