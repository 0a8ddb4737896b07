ghost use Rattle.std.specs.Prelude.{◌≡◌, ℕ, ◌≤◌};
ghost use Rattle.vms_world.specs.Common.{IsValidSize};
ghost use Rattle.vms_cursors.specs.RatingCalls.{choice_in};

use vms_base::ZoneSize;
use vms_calls::Chosen;
use vms_cursors::RatingCall;
use vms_own_acts::RuleFunctions;

/// The thresholds that a call chooses for a zone.
pub(crate) fn choose<R: RuleFunctions>(call: RatingCall, size: &ZoneSize, online: u32) -> Chosen
    requires size { IsValidSize size.now }
    requires most_online { online ≤ 128 }
    ensures chosen { choice_in call R.pressure R.normal size.now online result.threshold result.usual }
    ensures only { (t usual : ℕ) → choice_in call R.pressure R.normal size.now online t usual →
        (t ≡ result.threshold) × (usual ≡ result.usual) }
{
    let usual = R::normal_answer(size, online);
    let threshold = match call {
        RatingCall::Pressure(_) => R::pressure_answer(size, online),
        RatingCall::Normal(_) | RatingCall::Refresh => usual,
    };
    Chosen { threshold, usual }
}
