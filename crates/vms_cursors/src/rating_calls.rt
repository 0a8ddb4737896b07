ghost use Rattle.std.specs.Prelude.{◌≡◌, ◌<◌, length, nat_eq};
ghost use Rattle.vms_calls.specs.Common.{IsLayout, IsNode, node_number, node_of_zone};
ghost use Rattle.vms_cursors.specs.RatingCalls.{IsRatingWithin};
ghost use Rattle.vms_cursors.specs.RatingCalls as called;

use vms_base::{Layout, PlaceId};

/// A call that gives thresholds: to the zones of a node, or to all zones and nodes.
#[derive(Clone, Copy, Debug, PartialEq, Eq)]
pub enum RatingCall {
    /// Pressure thresholds on a node.
    Pressure(PlaceId),
    /// Normal thresholds on a node.
    Normal(PlaceId),
    /// Normal thresholds everywhere.
    Refresh,
}

impl RatingCall {
    /// Whether the call visits a zone.
    pub fn visits(self, layout: &Layout, zone: u32) -> bool
        requires layout { IsLayout layout.now }
        requires within { IsRatingWithin layout.now self }
        requires zone { zone < length layout.now.zones }
        ensures { result ≡ called.visits layout.now self zone }
    {
        match self {
            RatingCall::Pressure(node) | RatingCall::Normal(node) => is_on(layout, zone, node),
            RatingCall::Refresh => true,
        }
    }

    /// Whether the call leaves a zone with this mark as it is.
    pub fn spares(self, mark: u64) -> bool
        ensures { result ≡ called.spares self mark }
    {
        match self {
            RatingCall::Pressure(_) | RatingCall::Normal(_) => mark == 0,
            RatingCall::Refresh => false,
        }
    }
}

/// Whether a zone is on a node.
fn is_on(layout: &Layout, zone: u32, node: PlaceId) -> bool
    requires layout { IsLayout layout.now }
    requires node { IsNode layout.now node.number }
    requires zone { zone < length layout.now.zones }
    ensures { result ≡ nat_eq (node_of_zone layout.now zone) (node_number layout.now node) }
{
    let number = layout.nodes()[node.number as usize - layout.zones().len()];
    layout.zones()[zone as usize].node == number
}
