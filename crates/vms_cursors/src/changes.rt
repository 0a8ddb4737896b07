ghost use Rattle.std.specs.Prelude.{◌≤◌, unsigned_abs};
ghost use Rattle.vms_calls.specs.Common.{most_volume};

use vms_base::{CounterId, CpuId, Mode};

/// A change of a counter by the owner of a CPU, by so many pages.
#[derive(Clone, Copy, Debug, PartialEq, Eq)]
pub struct Change {
    pub cpu: CpuId,
    pub counter: CounterId,
    pub delta: i64,
    pub mode: Mode,
    pub ghost affordable: { unsigned_abs delta ≤ most_volume },
}
