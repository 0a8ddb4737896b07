use vms_base::{CounterId, CpuId, GroupId, ItemId, Layout, PlaceId};
use vms_rows::row_width;

/// What a word of the table holds.
#[derive(Clone, Copy)]
pub(crate) enum Spot {
    /// The global value of a counter.
    Value(CounterId),
    /// The system-wide value of an item.
    System(ItemId),
    /// A CPU's eight differentials of a group.
    Group(CpuId, GroupId),
    /// A CPU's threshold of a place, and how often it was set.
    Threshold(CpuId, PlaceId),
    /// A zone's drift mark, and how often it was set.
    Mark(PlaceId),
    /// Whether a CPU is online, dead or absent.
    Cpu(CpuId),
    /// What a CPU acknowledged last of a zone.
    Acknowledgement(CpuId, PlaceId),
}

/// Where the words of each kind begin, those of a CPU in its row.
#[derive(Clone, Copy)]
pub(crate) struct Blocks {
    pub systems: usize,
    pub marks: usize,
    /// How many words are of no CPU.
    pub shared: usize,
    /// Where the row of CPU 0 begins.
    pub rows: usize,
    pub thresholds: usize,
    pub acknowledgements: usize,
    pub state: usize,
    /// How many words stand from the begin of a row to that of the next one.
    pub width: usize,
    pub end: usize,
}

impl Blocks {
    ghost use Rattle.std.specs.Prelude.{◌≡◌, ◌<◌, ◌^◌};
    ghost use Rattle.vms_calls.specs.Common.{IsCpu, IsLayout};
    ghost use Rattle.vms_words.specs.Spots.{blocks_of, groups_start, place_in, spot_before, spot_in_row, IsSpot};

    /// The blocks of a layout's table.
    pub fn of(layout: &Layout) -> Blocks
        ensures { result ≡ blocks_of layout.now }
    {
        let zones = layout.zones().len();
        let systems = layout.counters() as usize;
        let marks = systems + layout.items() as usize;
        let shared = marks + zones;
        let rows = row_width(shared);
        let thresholds = layout.groups() as usize;
        let acknowledgements = thresholds + layout.places() as usize;
        let state = acknowledgements + zones;
        let width = row_width(state + 1);
        Blocks {
            systems,
            marks,
            shared,
            rows,
            thresholds,
            acknowledgements,
            state,
            width,
            end: rows + layout.cpus() as usize * width,
        }
    }

    /// The place of a word among all words.
    #[inline]
    pub fn place_of(&self, layout: &Layout, spot: Spot) -> usize
        requires layout { IsLayout layout.now }
        requires laid { self.now ≡ blocks_of layout.now }
        requires spot { IsSpot layout.now spot }
        ensures value { result ≡ place_in self.now spot }
        ensures within { result < self.now.end }
    {
        match spot {
            Spot::Value(counter) => counter.number as usize,
            Spot::System(item) => self.systems + item.number as usize,
            Spot::Mark(zone) => self.marks + zone.number as usize,
            Spot::Group(cpu, group) => {
                cell_from(self.rows, self.width, cpu, group.number as usize)
            }
            Spot::Threshold(cpu, place) => {
                let thing = self.thresholds + place.number as usize;
                cell_from(self.rows, self.width, cpu, thing)
            }
            Spot::Acknowledgement(cpu, zone) => {
                let thing = self.acknowledgements + zone.number as usize;
                cell_from(self.rows, self.width, cpu, thing)
            }
            Spot::Cpu(cpu) => cell_from(self.rows, self.width, cpu, self.state),
        }
    }

    /// The place of a CPU's first group among all words.
    pub fn first_group(&self, layout: &Layout, cpu: CpuId) -> usize
        requires layout { IsLayout layout.now }
        requires laid { self.now ≡ blocks_of layout.now }
        requires cpu { IsCpu layout.now cpu.number }
        ensures { result ≡ groups_start layout.now cpu.number }
    {
        cell_from(self.rows, self.width, cpu, 0)
    }

    /// What the word at a place before the rows holds; none where it stays 0.
    pub fn before_rows(&self, place: usize) -> Option<Spot>
        requires { place < 2 ^ 32 }
        ensures { result ≡ spot_before self.now place }
    {
        if place < self.systems {
            return Some(Spot::Value(CounterId {
                number: place as u32,
            }));
        }
        if place < self.marks {
            return Some(Spot::System(ItemId {
                number: (place - self.systems) as u32,
            }));
        }
        if place < self.shared {
            return Some(Spot::Mark(PlaceId {
                number: (place - self.marks) as u32,
            }));
        }
        None
    }

    /// What the word at a place of a CPU's row holds; none where it stays 0.
    pub fn in_row(&self, cpu: CpuId, place: usize) -> Option<Spot>
        requires place { place < 2 ^ 32 }
        requires state { self.now.state < 2 ^ 32 }
        ensures { result ≡ spot_in_row self.now cpu.number place }
    {
        if place < self.thresholds {
            return Some(Spot::Group(
                cpu,
                GroupId {
                    number: place as u32,
                },
            ));
        }
        if place < self.acknowledgements {
            return Some(Spot::Threshold(
                cpu,
                PlaceId {
                    number: (place - self.thresholds) as u32,
                },
            ));
        }
        if place < self.state {
            return Some(Spot::Acknowledgement(
                cpu,
                PlaceId {
                    number: (place - self.acknowledgements) as u32,
                },
            ));
        }
        if place < self.state + 1 {
            return Some(Spot::Cpu(cpu));
        }
        None
    }
}

ghost use Rattle.std.specs.Prelude.{◌≡◌, ◌+◌, ◌/◌, ◌%◌, ◌<◌, ◌^◌};
ghost use Rattle.vms_base.specs.Places as places;

/// The place of a thing of a CPU in rows that begin at a place.
#[inline]
pub(crate) fn cell_from(start: usize, width: usize, cpu: CpuId, thing: usize) -> usize
    requires { start + places.cell width cpu.number thing < 2 ^ 63 }
    ensures { result ≡ start + places.cell width cpu.number thing }
{
    start + (cpu.number as usize * width + thing)
}

/// The CPU and the thing of a cell, where each CPU has so many.
pub(crate) fn row_and_column(cell: usize, width: usize) -> (CpuId, u32)
    requires { (0 < width) × (cell < 2 ^ 32) }
    ensures cpu { result.0.number ≡ cell / width }
    ensures thing { result.1 ≡ cell % width }
{
    let cpu = CpuId {
        number: (cell / width) as u32,
    };
    (cpu, (cell % width) as u32)
}
