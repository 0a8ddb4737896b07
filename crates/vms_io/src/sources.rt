ghost use Rattle.std.specs.Prelude.{◌≡◌, ℕ, ◌<◌, ◌≤◌, List, Option, length, IfOk};
ghost use Rattle.std.specs.Io.KnownBytes.{ReadConsumes};
ghost use Rattle.vms_io.specs.Faults.{CountsFaults, one_call_more};

use crate::Failed;

/// What gives bytes.
pub trait Source {
    // The bytes that are left, where the source tells them.
    ghost remaining: { Self → Option (List ℕ) };

    // How many calls failed.
    ghost faults: { Self → ℕ };

    // How many calls were made.
    ghost calls: { Self → ℕ };

    /// Reads into the front of `buf`, and says how many bytes: 0 at the end of the input. A read that was
    /// interrupted is tried again, and is no fault.
    fn read(&mut self, buf: &mut [u8]) -> Result<usize, Failed>
        requires { 0 < length buf.old }
        ensures room { IfOk result (λ n. n ≤ length buf.new) }
        ensures bytes { ReadConsumes (remaining self.old) (remaining self.new) result buf.new }
        ensures faults { CountsFaults (faults self.old) (faults self.new) result }
        ensures calls { calls self.new ≡ one_call_more (calls self.old) };
}
