ghost use Rattle.std.specs.Prelude.{◌≡◌, ℕ, ◌<◌, ◌≤◌, List, Option, length, IfOk};
ghost use Rattle.std.specs.Io.KnownBytes.{WriteAppends};
ghost use Rattle.vms_io.specs.Faults.{CountsFaults, one_call_more};

use crate::Failed;

/// What takes bytes.
pub trait Sink {
    // The bytes that were written, where the sink tells them.
    ghost written: { Self → Option (List ℕ) };

    // How many calls failed.
    ghost faults: { Self → ℕ };

    // How many calls were made.
    ghost calls: { Self → ℕ };

    /// Takes the front of `bytes`, and says how many of them. A device that takes none has failed.
    fn write(&mut self, bytes: &[u8]) -> Result<usize, Failed>
        requires { 0 < length bytes.now }
        ensures some { IfOk result (λ n. (1 ≤ n) × (n ≤ length bytes.now)) }
        ensures bytes { WriteAppends (written self.old) (written self.new) result bytes.now }
        ensures faults { CountsFaults (faults self.old) (faults self.new) result }
        ensures calls { calls self.new ≡ one_call_more (calls self.old) };
}
