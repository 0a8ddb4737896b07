use vms_base::PlaceId;

/// A turn of kswapd on a node.
#[derive(Clone, Copy, Debug, PartialEq, Eq)]
pub struct Turn {
    pub node: PlaceId,
    /// The order of the blocks that are asked for.
    pub order: u32,
    /// The highest zone index.
    pub most: u32,
}
