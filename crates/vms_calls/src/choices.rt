ghost use Rattle.std.specs.Prelude.{◌≡◌, ◌≤◌};
ghost use Rattle.vms_history.specs.Common.{IsValidSize, most_threshold};
ghost use Rattle.vms_calls.specs.Choices.{choice_of, is_spared};

use vms_base::ZoneSize;
use vms_calc::{Rule, Rules};

/// Which call gives thresholds to zones.
#[derive(Clone, Copy, Debug, PartialEq, Eq)]
pub enum Rating {
    /// The one that sets pressure thresholds on a node.
    Pressure,
    /// The one that sets normal thresholds on a node.
    Normal,
    /// The one that sets normal thresholds everywhere.
    Refresh,
}

/// The thresholds that rules answered for a zone, in pages.
#[derive(Clone, Copy, Debug, PartialEq, Eq)]
pub struct Chosen {
    /// The one that is set.
    pub threshold: u32,
    /// The one that Linux's mark is for.
    pub usual: u32,
}

/// Whether a zone with this mark keeps its thresholds.
#[inline]
pub fn spares(rating: Rating, mark: u64) -> bool
    ensures { result ≡ is_spared rating mark }
{
    match rating {
        Rating::Pressure | Rating::Normal => mark == 0,
        Rating::Refresh => false,
    }
}

/// Asks each rule once that the call goes by.
pub fn choose<N: Rule, P: Rule>(
    rules: &Rules<N, P>,
    rating: Rating,
    size: &ZoneSize,
    online: u32,
) -> Chosen
    requires size { IsValidSize size.now }
    requires least_online { 1 ≤ online }
    requires most_online { online ≤ 128 }
    ensures chosen { choice_of rating (P.answers rules.now.pressure) (N.answers rules.now.normal) size.now online
        result.threshold result.usual }
    ensures least { 1 ≤ result.threshold }
    ensures most { result.threshold ≤ most_threshold }
    ensures least_usual { 1 ≤ result.usual }
    ensures usual { result.usual ≤ most_threshold }
{
    let usual = rules.normal(size, online);
    let threshold = match rating {
        Rating::Pressure => rules.pressure(size, online),
        Rating::Normal | Rating::Refresh => usual,
    };
    Chosen { threshold, usual }
}
