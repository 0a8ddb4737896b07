/// A zone's kind, in the order of the kernel's zone index.
#[derive(Clone, Copy, Debug, Default, PartialEq, Eq, PartialOrd, Ord)]
pub enum ZoneKind {
    #[default]
    Dma,
    Dma32,
    Normal,
    Movable,
}

/// A zone: a node's memory of one kind. Zones are ordered by node and then by kind.
#[derive(Clone, Copy, Debug, Default, PartialEq, Eq, PartialOrd, Ord)]
pub struct ZoneName {
    pub node: u32,
    pub kind: ZoneKind,
}

impl ZoneName {
    ghost use Rattle.std.specs.Prelude.{◌≡◌};
    ghost use Rattle.vms_base.specs.Places.{rank_of};

    /// Four times the node plus the kind's zone index: zones are ordered as these numbers are.
    #[inline]
    pub fn rank(self) -> u64
        ensures { result ≡ rank_of self }
    {
        4 * u64::from(self.node) + self.kind as u64
    }
}

/// A zone's managed pages and its three watermarks, in pages of 4096 bytes.
#[derive(Clone, Copy, Debug, PartialEq, Eq)]
pub struct ZoneSize {
    pub managed: u64,
    pub min: u64,
    pub low: u64,
    pub high: u64,
}

/// How far a change that passes the threshold oversteps: the mode of `mod_zone_state` of mm/vmstat.c.
#[derive(Clone, Copy, Debug, PartialEq, Eq)]
pub enum Mode {
    /// `mod_zone_page_state`: not at all.
    Mod,
    /// `inc_zone_page_state`: by half a threshold upwards.
    Inc,
    /// `dec_zone_page_state`: by half a threshold downwards.
    Dec,
}

/// Whether a CPU runs. A dead CPU is offline, and its differentials aren't folded yet.
#[derive(Clone, Copy, Debug, PartialEq, Eq)]
pub enum CpuState {
    Online,
    Dead,
    Absent,
}

/// One of a zone's three watermarks.
#[derive(Clone, Copy, Debug, PartialEq, Eq)]
pub enum WaterMark {
    Min,
    Low,
    High,
}
