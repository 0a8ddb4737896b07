ghost use Rattle.std.specs.Prelude.{◌≡◌, ◌≤◌, ◌<◌, ◌+◌, ◌^◌, ◌↔◌, IsTrue};
ghost use Rattle.vms_history.specs.Common.{Covers};

use vms_base::ZoneSize;

/// Whether a mark covers what CPUs hide of a zone, in pages.
pub fn covers(size: ZoneSize, mark: u64, hidden: u128) -> bool
    requires { hidden ≤ 2 ^ 96 }
    ensures { IsTrue result ↔ Covers size mark hidden }
{
    if mark == 0 {
        hidden <= size.low.saturating_sub(size.min) as u128
    } else {
        size.high as u128 + hidden <= mark as u128
    }
}
