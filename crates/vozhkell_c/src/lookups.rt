ghost use Rattle.std.specs.Prelude.{◌≡◌, ℕ};
ghost use Rattle.vozhkell_c.specs.Lookups.{Finds, find_counter, find_item, find_place};

use crate::held_counters::HeldCounters;
use crate::statuses::{MADE, NO_NAME, NO_PLACE, NULL};
use std::alloc::Global;
use vms_base::{Header, PlaceId};
use vms_text::{class_position, is_node, place_named};

/// The number of a place, by its node and the word that a trace has for it: `DMA`, `DMA32`, `Normal` or `Movable` for a
/// zone, `node` for the node.
#[unsafe(no_mangle)]
pub extern "C" fn vozhkell_c_place(
    alloc: Global,
    counters: &mut HeldCounters,
    node: u32,
    word: &[u8],
    place: &mut u32,
) -> i32
    ensures { Finds (find_place node word.now) counters.new.value counters.old.value place.new place.old result }
{
    let Some(room) = counters.take(alloc) else {
        return NULL;
    };
    let found = match &*room {
        Some(own) => find_place(own.header(), node, word),
        None => unreachable!(),
    };
    counters.put(room);
    match found {
        Ok(number) => {
            *place = number;
            MADE
        }
        Err(status) => status,
    }
}

/// The number of a counter, by its place and the name of its item.
#[unsafe(no_mangle)]
pub extern "C" fn vozhkell_c_counter(
    alloc: Global,
    counters: &mut HeldCounters,
    place: u32,
    name: &[u8],
    counter: &mut u32,
) -> i32
    ensures { Finds (find_counter place name.now) counters.new.value counters.old.value counter.new counter.old result }
{
    let Some(room) = counters.take(alloc) else {
        return NULL;
    };
    let found = match &*room {
        Some(own) => find_counter(own.header(), place, name),
        None => unreachable!(),
    };
    counters.put(room);
    match found {
        Ok(number) => {
            *counter = number;
            MADE
        }
        Err(status) => status,
    }
}

/// The number of a system-wide value, by the class and the name of its item.
#[unsafe(no_mangle)]
pub extern "C" fn vozhkell_c_item(
    alloc: Global,
    counters: &mut HeldCounters,
    node: bool,
    name: &[u8],
    item: &mut u32,
) -> i32
    ensures { Finds (find_item node name.now) counters.new.value counters.old.value item.new item.old result }
{
    let Some(room) = counters.take(alloc) else {
        return NULL;
    };
    let found = match &*room {
        Some(own) => find_item(own.header(), node, name),
        None => unreachable!(),
    };
    counters.put(room);
    match found {
        Ok(number) => {
            *item = number;
            MADE
        }
        Err(status) => status,
    }
}

fn find_place(header: &Header, node: u32, word: &[u8]) -> Result<u32, i32>
    ensures { result ≡ find_place node word.now header.now }
{
    match place_named(&header.layout, u64::from(node), word) {
        Some(place) => Ok(place.number),
        None => Err(NO_PLACE),
    }
}

fn find_counter(header: &Header, place: u32, name: &[u8]) -> Result<u32, i32>
    ensures { result ≡ find_counter place name.now header.now }
{
    let layout = &header.layout;
    if place >= layout.places() {
        return Err(NO_PLACE);
    }
    let place = PlaceId { number: place };
    match class_position(is_node(layout, place), header.items.as_slice(), name) {
        Some(position) if position < layout.positions() as usize => {
            Ok(layout.counter(place, position as u32).number)
        }
        _ => Err(NO_NAME),
    }
}

fn find_item(header: &Header, node: bool, name: &[u8]) -> Result<u32, i32>
    ensures { result ≡ find_item node name.now header.now }
{
    let positions = header.layout.positions();
    match class_position(node, header.items.as_slice(), name) {
        Some(position) if position < positions as usize => {
            let position = position as u32;
            Ok(if node { positions + position } else { position })
        }
        _ => Err(NO_NAME),
    }
}
