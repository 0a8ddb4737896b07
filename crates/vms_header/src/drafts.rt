use arrayvec::ArrayVec;
use vms_base::{Decl, ItemDecl, ZoneName, ZoneSize};

/// A zone with its size. The marks are 0 where a `watermarks` line gives them.
#[derive(Clone, Copy, Debug)]
pub struct Zone {
    pub name: ZoneName,
    pub size: ZoneSize,
}

impl Default for Zone {
    fn default() -> Zone {
        Zone {
            name: ZoneName::default(),
            size: ZoneSize {
                managed: 0,
                min: 0,
                low: 0,
                high: 0,
            },
        }
    }
}

/// What a `watermarks` line says: `min_free_kbytes`, and `watermark_scale_factor` in ten-thousandths of a zone.
#[derive(Clone, Copy, Debug)]
pub struct Share {
    pub kbytes: u64,
    pub scale: u32,
}

/// What a counter begins with, in pages.
#[derive(Clone, Copy, Debug)]
pub struct Base {
    pub counter: u32,
    pub value: i64,
}

/// The kinds of lines after `cpus`, in their order.
#[derive(Clone, Copy, Debug)]
pub enum Section {
    Cpus,
    Watermarks,
    Items,
    Zones,
    Bases,
    Counters,
}

/// What the lines of a header say, up to one after `cpus`.
#[derive(Debug, Drop)]
pub struct Draft {
    /// Whether the version is 2.
    pub wide: bool,
    pub cpus: u32,
    /// The section of the last line that isn't blank.
    pub section: Section,
    pub share: Option<Share>,
    pub items: Vec<ItemDecl>,
    /// By node and then by kind.
    pub zones: ArrayVec<Zone, 16>,
    /// In the order of their lines.
    pub bases: Vec<Base>,
    pub counters: Vec<Decl>,
}

/// How far a header was read.
#[derive(Debug, Drop)]
pub enum Stage {
    Opening,
    /// Whether the version is 2.
    Versioned(bool),
    Drafting(Draft),
}

/// What a line makes of a stage.
#[derive(Debug, Drop)]
pub enum HeadStep {
    Goes(Stage),
    /// The `go` line.
    Ends(Draft),
}
