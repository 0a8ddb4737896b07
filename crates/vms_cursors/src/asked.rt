use vms_base::PlaceId;

/// What the rules of thresholds are asked for.
#[derive(Clone, Copy, Debug, PartialEq, Eq)]
pub struct Asked {
    pub zone: PlaceId,
    /// The mark that was found, in pages.
    pub mark: u64,
    /// How many CPUs are online.
    pub online: u32,
}
