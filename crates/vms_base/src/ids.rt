/// A CPU, counted from 0.
#[derive(Clone, Copy, Debug, PartialEq, Eq, PartialOrd, Ord)]
pub struct CpuId {
    pub number: u32,
}

/// A zone or a node: first the zones by node number and zone index, then the nodes by node number.
#[derive(Clone, Copy, Debug, PartialEq, Eq, PartialOrd, Ord)]
pub struct PlaceId {
    pub number: u32,
}

/// One item of one place: the number of positions times the place, plus the item's position.
#[derive(Clone, Copy, Debug, PartialEq, Eq, PartialOrd, Ord)]
pub struct CounterId {
    pub number: u32,
}

/// A system-wide value: first those of the zone items by position, then those of the node items.
#[derive(Clone, Copy, Debug, PartialEq, Eq, PartialOrd, Ord)]
pub struct ItemId {
    pub number: u32,
}

/// One of the eight event counters.
#[derive(Clone, Copy, Debug, PartialEq, Eq, PartialOrd, Ord)]
pub struct EventId {
    pub number: u32,
}

/// A percpu counter, in the order in which the header declares them.
#[derive(Clone, Copy, Debug, PartialEq, Eq, PartialOrd, Ord)]
pub struct PcpuId {
    pub number: u32,
}

/// Eight counters of one place whose differentials share a word: counters `8 * number` to `8 * number + 7`.
#[derive(Clone, Copy, Debug, PartialEq, Eq, PartialOrd, Ord)]
pub struct GroupId {
    pub number: u32,
}
