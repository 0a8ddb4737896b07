ghost use Rattle.std.specs.Prelude.{◌≡◌, map, slice_get, Some, if◌then◌else◌};
ghost use Rattle.vms_base.specs.Names.{zone_items, node_items, event_names, kind_names};
ghost use Rattle.vms_base.specs.Places.{zone_index};

use crate::ZoneKind;

static ZONE_ITEMS: [&str; 8] = [
    "nr_free_pages",
    "nr_zone_inactive_anon",
    "nr_zone_active_anon",
    "nr_zone_inactive_file",
    "nr_zone_active_file",
    "nr_zone_unevictable",
    "nr_zone_write_pending",
    "nr_mlock",
];

static NODE_ITEMS: [&str; 8] = [
    "nr_inactive_anon",
    "nr_active_anon",
    "nr_inactive_file",
    "nr_active_file",
    "nr_unevictable",
    "nr_anon_pages",
    "nr_file_pages",
    "nr_dirty",
];

static EVENTS: [&str; 8] = [
    "pgpgin",
    "pgpgout",
    "pswpin",
    "pswpout",
    "pgfree",
    "pgactivate",
    "pgdeactivate",
    "pgfault",
];

/// The names of the fixed items of a node, or else of a zone, by position.
pub fn item_names(node: bool) -> &'static [&'static str]
    ensures { map (λ name. name.now) result.now ≡ (if node then node_items else zone_items) }
{
    if node { &NODE_ITEMS } else { &ZONE_ITEMS }
}

/// The names of the events, by number.
pub fn event_names() -> &'static [&'static str]
    ensures { map (λ name. name.now) result.now ≡ event_names }
{
    &EVENTS
}

/// The name that a trace gives to a kind of zones.
pub fn kind_name(kind: ZoneKind) -> &'static str
    ensures { slice_get kind_names (zone_index kind) ≡ Some result.now }
{
    match kind {
        ZoneKind::Dma => "DMA",
        ZoneKind::Dma32 => "DMA32",
        ZoneKind::Normal => "Normal",
        ZoneKind::Movable => "Movable",
    }
}
