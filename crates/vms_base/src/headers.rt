use crate::{Layout, Row, ZoneSize};

/// The sizes by zone.
pub type Sizes = Row<ZoneSize>;

/// The values that the counters begin with, in pages, by counter.
pub type Bases = Row<i64>;

/// The bytes of a name: 1 to 16 of `a` to `z`, `0` to `9` and `_`, the first a letter.
pub type Name = Row<u8>;

/// A percpu counter of the header.
#[derive(Debug, Drop)]
pub struct Decl {
    pub name: Name,
    /// What a local part may reach before it moves to the count: 1 to 65,536.
    pub batch: u32,
}

/// The percpu counters, in the order of their lines.
pub type Decls = Row<Decl>;

/// An item that a header of version 2 adds to the eight of a class.
#[derive(Debug, Drop)]
pub struct ItemDecl {
    pub name: Name,
    /// Whether the item is one of the nodes; otherwise it is one of the zones.
    pub node: bool,
    /// Whether the trace gives its amounts in bytes; otherwise in pages.
    pub bytes: bool,
}

/// The items that a header adds, in the order of their lines.
pub type ItemDecls = Row<ItemDecl>;

/// What a trace says before its `go` line.
#[derive(Debug, Drop)]
pub struct Header {
    pub layout: Layout,
    pub sizes: Sizes,
    pub bases: Bases,
    pub counters: Decls,
    pub items: ItemDecls,
}
