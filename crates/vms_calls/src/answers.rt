use vms_base::PlaceId;

/// What a test of a watermark answers.
#[derive(Clone, Copy, Debug, PartialEq, Eq)]
pub struct Verdict {
    /// The free pages that this rests on.
    pub free: u64,
    /// Whether the zone has more free pages than the watermark and the zone's reserve ask for.
    pub yes: bool,
    /// Whether no snapshot was made.
    pub fast: bool,
}

/// What a test of a zone for blocks of an order answers.
#[derive(Clone, Copy, Debug, PartialEq, Eq)]
pub struct OrderVerdict {
    /// The free pages that this rests on.
    pub free: u64,
    /// The order of the free block that was found: none where none was looked for.
    pub area: Option<u32>,
    /// Whether the zone passed.
    pub yes: bool,
    /// Whether no snapshot of the free pages was made.
    pub fast: bool,
}

/// What a test whether a node is balanced answers.
#[derive(Clone, Copy, Debug, PartialEq, Eq)]
pub enum Balance {
    /// The node is balanced: the first zone that passed, and the verdict of its test.
    Yes(PlaceId, OrderVerdict),
    /// No zone passed.
    No,
}
