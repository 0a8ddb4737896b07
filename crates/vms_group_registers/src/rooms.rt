ghost use Rattle.std.specs.Prelude.{◌≡◌, ◌≤◌, ◌+◌, ◌<◌, ◌^◌, ℕ, max, reverse};
ghost use Rattle.vms_group_core.specs.Common.{parent_of};
ghost use Rattle.vms_group_registers.specs.Bounded.{HadRoom, rising_after, risen as risen_by};

use vms_group_core::{Event, GroupStep, Tree};

/// How many amounts rise at once at most while these events are made, the oldest first, by what the steps say: so much
/// room is enough to judge them.
pub fn most_rising(tree: &Tree, events: &[Event]) -> usize
    ensures enough { HadRoom tree.now result (reverse events.now) }
    ensures least { (room : ℕ) → HadRoom tree.now room (reverse events.now) → result ≤ room }
{
    let mut count = 0;
    let mut most = 0;
    for event in events {
        count = rising(tree, &event.step, count);
        most = larger(most, count);
    }
    most
}

#[inline]
fn larger(first: usize, second: usize) -> usize
    ensures { result ≡ max first second }
{
    if first < second { second } else { first }
}

/// How many amounts rise after a step.
fn rising(tree: &Tree, step: &GroupStep, count: usize) -> usize
    requires { count + 1 < 2 ^ 64 }
    ensures value { result ≡ rising_after tree.now step.now count }
    ensures most { result ≤ count + 1 }
{
    match *step {
        GroupStep::AddV(group, _) => risen(tree, group, count),
        GroupStep::AddU(_, _) => count.saturating_sub(1),
        _ => count,
    }
}

fn risen(tree: &Tree, group: u32, count: usize) -> usize
    requires { count + 1 < 2 ^ 64 }
    ensures value { result ≡ risen_by (parent_of tree.now group) count }
    ensures most { result ≤ count + 1 }
{
    let at = group as usize;
    if at >= tree.parents.len() {
        return count;
    }
    match tree.parents.get(at) {
        Some(_) => count + 1,
        None => count,
    }
}
