use crate::sorting::{copied_items, index_of_node, index_of_zone, nodes_of, sorted_zones};
use crate::{CounterId, GroupId, ItemId, PlaceId, ZoneName};
use arrayvec::ArrayVec;
use std::marker::Model;

/// The zones and nodes of a machine, its number of CPUs, and how many items a place has.
#[derive(Debug, Drop)]
pub struct Layout {
    zones: ArrayVec<ZoneName, 16>,
    nodes: ArrayVec<u32, 16>,
    cpus: u32,
    positions: u32,
}

impl Model for Layout {
    ghost use Rattle.vms_base.specs.Places.{Shape, IsLayout};

    ghost Value = { Shape };

    ghost view = { λ l. record {
      zones = l.zones.items;
      nodes = l.nodes.items;
      cpus = l.cpus;
      positions = l.positions;
    } };

    ghost invariant = { λ l. IsLayout (record {
      zones = l.zones.items;
      nodes = l.nodes.items;
      cpus = l.cpus;
      positions = l.positions;
    }) };
}

/// Why zones and a number of CPUs make no layout. Of the causes that hold, the first is told.
#[derive(Clone, Copy, Debug, PartialEq, Eq, thiserror::Error)]
pub enum LayoutError {
    #[error("no zone")]
    NoZone,
    #[error("more than 16 zones")]
    TooManyZones,
    #[error("one zone twice")]
    DoubledZone,
    #[error("a number of CPUs that is out of range")]
    BadCpus,
}

impl Layout {
    ghost use Rattle.std.specs.Prelude.{◌≡◌, ℕ, ◌+◌, ◌*◌, ◌/◌, ◌%◌, ◌<◌, ◌≤◌, ◌↔◌, length, map, option_map, Contains};
    ghost use Rattle.std.specs.Prelude.{All, IsSome, IfSome, Some, MatchResult};
    ghost use Rattle.vms_base.specs.Places.{Shape, IsLayout, place_count, counter_count, group_count, item_count};
    ghost use Rattle.vms_base.specs.Places.{place_of, item_of, group_of, first_of_group, counter_at, zone_place};
    ghost use Rattle.vms_base.specs.Places.{node_place, zone_at, node_at, LaysOut, IsRefused, IsWidth};

    /// The layout of these zones, in any order, and of 1 to 64 CPUs, with eight items a place.
    pub fn make(zones: &[ZoneName], cpus: u32) -> Result<Layout, LayoutError>
        requires { All (λ zone. zone.node ≤ 15) zones.now }
        ensures { MatchResult result (LaysOut zones.now cpus 8) (IsRefused 64 zones.now cpus) }
    {
        Layout::with_positions(zones, cpus, 64, 8)
    }

    /// The layout of these zones, in any order, and of 1 to 128 CPUs, with sixteen items a place.
    pub fn make_wide(zones: &[ZoneName], cpus: u32) -> Result<Layout, LayoutError>
        requires { All (λ zone. zone.node ≤ 15) zones.now }
        ensures { MatchResult result (LaysOut zones.now cpus 16) (IsRefused 128 zones.now cpus) }
    {
        Layout::with_positions(zones, cpus, 128, 16)
    }

    fn with_positions(
        zones: &[ZoneName],
        cpus: u32,
        most_cpus: u32,
        positions: u32,
    ) -> Result<Layout, LayoutError>
        requires nodes { All (λ zone. zone.node ≤ 15) zones.now }
        requires widths { IsWidth positions most_cpus }
        ensures { MatchResult result (LaysOut zones.now cpus positions) (IsRefused most_cpus zones.now cpus) }
    {
        if zones.is_empty() {
            return Err(LayoutError::NoZone);
        }
        if zones.len() > 16 {
            return Err(LayoutError::TooManyZones);
        }
        let zones = sorted_zones(zones)?;
        if cpus == 0 || cpus > most_cpus {
            return Err(LayoutError::BadCpus);
        }
        let nodes = nodes_of(zones.as_slice());
        Ok(Layout {
            zones,
            nodes,
            cpus,
            positions,
        })
    }

    /// A copy of the layout, which takes no memory.
    pub fn copied(&self) -> Layout
        ensures { result ≡ self.now }
    {
        Layout {
            zones: copied_items(&self.zones),
            nodes: copied_items(&self.nodes),
            cpus: self.cpus,
            positions: self.positions,
        }
    }

    /// The zones, by node and then by kind.
    #[inline]
    pub fn zones(&self) -> &[ZoneName]
        ensures value { result.now ≡ self.now.zones }
        ensures is_layout { IsLayout self.now }
    {
        self.zones.as_slice()
    }

    /// The numbers of the nodes that have a zone, in ascending order.
    #[inline]
    pub fn nodes(&self) -> &[u32]
        ensures value { result.now ≡ self.now.nodes }
        ensures is_layout { IsLayout self.now }
    {
        self.nodes.as_slice()
    }

    /// How many CPUs the machine has, whatever their state.
    #[inline]
    pub fn cpus(&self) -> u32
        ensures value { result ≡ self.now.cpus }
        ensures is_layout { IsLayout self.now }
    {
        self.cpus
    }

    /// How many counters a place has: 8, or 16 in a wide layout.
    #[inline]
    pub fn positions(&self) -> u32
        ensures value { result ≡ self.now.positions }
        ensures is_layout { IsLayout self.now }
    {
        self.positions
    }

    /// The number of zones and nodes.
    #[inline]
    pub fn places(&self) -> u32
        ensures value { result ≡ place_count self.now }
        ensures is_layout { IsLayout self.now }
    {
        (self.zones.len() + self.nodes.len()) as u32
    }

    /// The number of counters.
    #[inline]
    pub fn counters(&self) -> u32
        ensures value { result ≡ counter_count self.now }
        ensures is_layout { IsLayout self.now }
    {
        self.positions * self.places()
    }

    /// The number of groups of eight counters.
    #[inline]
    pub fn groups(&self) -> u32
        ensures value { result ≡ group_count self.now }
        ensures is_layout { IsLayout self.now }
    {
        self.counters() / 8
    }

    /// The number of system-wide values.
    #[inline]
    pub fn items(&self) -> u32
        ensures value { result ≡ item_count self.now }
        ensures is_layout { IsLayout self.now }
    {
        2 * self.positions
    }

    /// The place of a zone, if the layout has it.
    pub fn zone(&self, name: ZoneName) -> Option<PlaceId>
        ensures value { option_map (λ place. place.number) result ≡ zone_place self.now name }
        ensures known { IsSome result ↔ Contains self.now.zones name }
        ensures place { IfSome result (λ place. zone_at self.now place.number ≡ Some name) }
    {
        index_of_zone(self.zones.as_slice(), name).map(|index| PlaceId {
            number: index as u32,
        })
    }

    /// The place of a node, if one of its zones stands in the layout.
    pub fn node(&self, number: u32) -> Option<PlaceId>
        ensures value { option_map (λ place. place.number) result ≡ node_place self.now number }
        ensures known { IsSome result ↔ Contains self.now.nodes number }
        ensures place { IfSome result (λ place. node_at self.now place.number ≡ Some number) }
    {
        let zones = self.zones.len();
        index_of_node(self.nodes.as_slice(), number).map(|index| PlaceId {
            number: (zones + index) as u32,
        })
    }

    /// The place of a counter.
    #[inline]
    pub fn place_of(&self, counter: CounterId) -> PlaceId
        ensures value { result.number ≡ place_of self.now counter.number }
        ensures bound { counter.number < counter_count self.now → result.number < place_count self.now }
        ensures is_layout { IsLayout self.now }
    {
        PlaceId {
            number: counter.number / self.positions,
        }
    }

    /// The system-wide value that a counter adds to.
    #[inline]
    pub fn item_of(&self, counter: CounterId) -> ItemId
        ensures value { result.number ≡ item_of self.now counter.number }
        ensures bound { result.number < item_count self.now }
        ensures is_layout { IsLayout self.now }
    {
        let position = counter.number % self.positions;
        let number = if counter.number / self.positions < self.zones.len() as u32 {
            position
        } else {
            self.positions + position
        };
        ItemId { number }
    }

    /// The counter at a position of a place.
    #[inline]
    pub fn counter(&self, place: PlaceId, position: u32) -> CounterId
        requires place { place.number < place_count self.now }
        requires position { position < self.now.positions }
        ensures value { result.number ≡ counter_at self.now place.number position }
        ensures bound { result.number < counter_count self.now }
        ensures is_layout { IsLayout self.now }
    {
        CounterId {
            number: self.positions * place.number + position,
        }
    }

    /// The place of a group's counters.
    #[inline]
    pub fn place_of_group(&self, group: GroupId) -> PlaceId
        requires { group.number < group_count self.now }
        ensures value { result.number ≡ place_of self.now (first_of_group group.number) }
        ensures bound { result.number < place_count self.now }
        ensures is_layout { IsLayout self.now }
    {
        let positions = self.positions;
        PlaceId {
            number: 8 * group.number / positions,
        }
    }

    /// The group of a counter.
    #[inline]
    pub fn group(&self, counter: CounterId) -> GroupId
        requires { counter.number < counter_count self.now }
        ensures value { result.number ≡ group_of counter.number }
        ensures bound { result.number < group_count self.now }
        ensures is_layout { IsLayout self.now }
    {
        // The layout's bounds are known once a field is read.
        let _ = &self.positions;
        GroupId {
            number: counter.number / 8,
        }
    }
}
