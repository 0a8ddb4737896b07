ghost use Rattle.std.specs.Prelude.{◌≡◌, ℕ, ◌<◌, ◌≤◌, length};
ghost use Rattle.vms_calls.specs.Common.{is_online as tells_online, IsCpu, IsPlace, most_threshold, HasShape};
ghost use Rattle.vms_calls.specs.Common.{threshold_sets_at, most_sets};
ghost use Rattle.vms_plain_control.specs.OnlineCpus.{online_in, with_place_thresholds};

use vms_base::{CpuId, CpuState, Layout, PlaceId};
use vms_core::Plain;

#[inline]
pub(crate) fn is_online(state: CpuState) -> bool
    ensures { result ≡ tells_online state }
{
    match state {
        CpuState::Online => true,
        CpuState::Dead | CpuState::Absent => false,
    }
}

/// How many CPUs are online.
pub(crate) fn count_online(pages: &Plain, layout: &Layout) -> u32
    requires shaped { HasShape layout.now pages.now }
    ensures count { result ≡ length (online_in pages.now) }
    ensures most { result ≤ layout.now.cpus }
{
    let mut count = 0;
    for number in 0..layout.cpus() {
        if is_online(pages.load_state(CpuId { number })) {
            count += 1;
        }
    }
    count
}

/// Gives the online CPUs a threshold of a place, in pages.
pub(crate) fn set_thresholds(pages: &mut Plain, layout: &Layout, place: PlaceId, threshold: u32)
    requires shaped { HasShape layout.now pages.old }
    requires place { IsPlace layout.now place.number }
    requires least { 1 ≤ threshold }
    requires most { threshold ≤ most_threshold }
    requires sets { (c : ℕ) → IsCpu layout.now c → threshold_sets_at pages.old c place.number < most_sets }
    ensures { pages.new
        ≡ with_place_thresholds place.number threshold (online_in pages.old) pages.old }
{
    for number in 0..layout.cpus() {
        let cpu = CpuId { number };
        if is_online(pages.load_state(cpu)) {
            pages.set_threshold(cpu, place, threshold);
        }
    }
}
