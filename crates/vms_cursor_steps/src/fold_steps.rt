//! The steps of a fold.

ghost use Rattle.std.specs.Prelude.{◌≡◌, ◌≢◌, ℕ, ◌+◌, ◌-◌, ◌*◌, ◌/◌, ◌<◌, ◌≤◌, [], false, IfSome, IsTrue, Option, Some};
ghost use Rattle.std.specs.Prelude.{drop, length, pos, replicate, slice_index_or, ◌+ℤ◌, IsSome, true};
ghost use Rattle.vms_calls.specs.Common.{IsLayout, acknowledges, entries_of, first_of_group, in_turn, item_count};
ghost use Rattle.vms_calls.specs.Common.{place_count, to_place};
ghost use Rattle.vms_cursors.specs.Cursors.{GoesOn};
ghost use Rattle.vms_cursors.specs.Folds.{IsFoldWithin, fold_at, items_left};
ghost use Rattle.vms_cursors.specs.StepReadings.{acknowledged_in, added_in, added_to_item_in, number_in, taken_in};
ghost use Rattle.vms_cursors.specs.Totals.{total_at};
ghost use Rattle.vms_cursors.specs.declared.fold_positions.FoldPosition.TheVariants.{Groups};
ghost use Rattle.vms_cursor_steps.specs.FoldSteps.{IsNextEntry, IsNextGroup, IsNextItem};

use vms_base::{Diffs, Layout};
use vms_core::Step;
use vms_cursors::{
    Fold, FoldPosition, Taken, groups_through, is_acknowledged, some_entry, some_item,
};

/// Goes on by a step, if this is the step that is due: whether it went on. Where it didn't, nothing changes.
pub(crate) fn fold_on(at: &mut FoldPosition, fold: Fold, layout: &Layout, step: &Step) -> bool
    requires layout { IsLayout layout.now }
    requires within { IsFoldWithin layout.now at.old }
    ensures goes { IsTrue result →
        GoesOn (fold_at layout.now fold at.old) step.now (fold_at layout.now fold at.new) }
    ensures same { result ≡ false → at.new ≡ at.old }
    ensures within { IsFoldWithin layout.now at.new }
{
    add_on(at, fold, layout, step)
        || take_on(at, fold, layout, step)
        || first_take_on(at, fold, layout, step)
        || load_on(at, fold, layout, step)
        || acknowledge_on(at, fold, layout, step)
        || next_on(at, fold, layout, step)
}

/// Goes on by an addition after which only a number changes.
fn add_on(at: &mut FoldPosition, fold: Fold, layout: &Layout, step: &Step) -> bool
    requires layout { IsLayout layout.now }
    requires within { IsFoldWithin layout.now at.old }
    ensures goes { IsTrue result →
        GoesOn (fold_at layout.now fold at.old) step.now (fold_at layout.now fold at.new) }
    ensures same { result ≡ false → at.new ≡ at.old }
    ensures within { IsFoldWithin layout.now at.new }
{
    match at {
        FoldPosition::Entries(taken, _, _, list, n) => match added_entry(taken, list, *n, step) {
            Some(of) => {
                *n = of + 1;
                true
            }
            None => false,
        },
        FoldPosition::Items(taken, item) => match added_item(taken, *item, layout, step) {
            Some(of) => {
                *item = of + 1;
                true
            }
            None => false,
        },
        _ => false,
    }
}

/// Goes on by the take of the next group after all entries of a list were added.
fn take_on(at: &mut FoldPosition, fold: Fold, layout: &Layout, step: &Step) -> bool
    requires layout { IsLayout layout.now }
    requires within { IsFoldWithin layout.now at.old }
    ensures goes { IsTrue result →
        GoesOn (fold_at layout.now fold at.old) step.now (fold_at layout.now fold at.new) }
    ensures same { result ≡ false → at.new ≡ at.old }
    ensures within { IsFoldWithin layout.now at.new }
{
    match at {
        FoldPosition::Entries(taken, place, number, list, n) => {
            let Some(more) = taken_list(taken, fold, step) else {
                return false;
            };
            if some_entry(list, *n) < 8 {
                return false;
            }
            match group_place(taken, *place, *number, fold, layout) {
                Some(of) => {
                    add_list(taken, layout, &more);
                    *place = of;
                    *list = more;
                    *n = 0;
                    true
                }
                None => false,
            }
        }
        _ => false,
    }
}

/// Goes on by the take of the first group of a place.
fn first_take_on(at: &mut FoldPosition, fold: Fold, layout: &Layout, step: &Step) -> bool
    requires layout { IsLayout layout.now }
    requires within { IsFoldWithin layout.now at.old }
    ensures goes { IsTrue result →
        GoesOn (fold_at layout.now fold at.old) step.now (fold_at layout.now fold at.new) }
    ensures same { result ≡ false → at.new ≡ at.old }
    ensures within { IsFoldWithin layout.now at.new }
{
    match at {
        FoldPosition::Groups(taken, place, number) => {
            let Some(list) = taken_list(taken, fold, step) else {
                return false;
            };
            match group_place(taken, *place, *number, fold, layout) {
                Some(of) => {
                    let mut more = *taken;
                    add_list(&mut more, layout, &list);
                    let later = FoldPosition::Entries(more, of, *number, list, 0);
                    *at = later;
                    true
                }
                None => false,
            }
        }
        _ => false,
    }
}

/// Goes on by the load of the threshold of a place.
fn load_on(at: &mut FoldPosition, fold: Fold, layout: &Layout, step: &Step) -> bool
    requires layout { IsLayout layout.now }
    requires within { IsFoldWithin layout.now at.old }
    ensures goes { IsTrue result →
        GoesOn (fold_at layout.now fold at.old) step.now (fold_at layout.now fold at.new) }
    ensures same { result ≡ false → at.new ≡ at.old }
    ensures within { IsFoldWithin layout.now at.new }
{
    match at {
        FoldPosition::Places(taken, place) => match number_loaded(*place, fold, layout, step) {
            Some(number) => {
                let later = FoldPosition::Groups(*taken, *place, Some(number));
                *at = later;
                true
            }
            None => false,
        },
        _ => false,
    }
}

/// Goes on by the acknowledgement of the threshold of a place, after its last list.
fn acknowledge_on(at: &mut FoldPosition, fold: Fold, layout: &Layout, step: &Step) -> bool
    requires layout { IsLayout layout.now }
    requires within { IsFoldWithin layout.now at.old }
    ensures goes { IsTrue result →
        GoesOn (fold_at layout.now fold at.old) step.now (fold_at layout.now fold at.new) }
    ensures same { result ≡ false → at.new ≡ at.old }
    ensures within { IsFoldWithin layout.now at.new }
{
    match at {
        FoldPosition::Entries(taken, place, number, list, n) => {
            if !is_acknowledgement(*place, *number, step) {
                return false;
            }
            if some_entry(list, *n) < 8 || taken.groups < groups_through(layout, *place) {
                return false;
            }
            let later = FoldPosition::Places(*taken, *place + 1);
            *at = later;
            true
        }
        _ => false,
    }
}

/// Goes on by a step of any kind.
fn next_on(at: &mut FoldPosition, fold: Fold, layout: &Layout, step: &Step) -> bool
    requires layout { IsLayout layout.now }
    requires within { IsFoldWithin layout.now at.old }
    ensures goes { IsTrue result →
        GoesOn (fold_at layout.now fold at.old) step.now (fold_at layout.now fold at.new) }
    ensures same { result ≡ false → at.new ≡ at.old }
    ensures within { IsFoldWithin layout.now at.new }
{
    match at.next(fold, layout, *step) {
        Some(later) => {
            *at = later;
            true
        }
        None => false,
    }
}

/// The next entry that isn't 0, where the step adds it to its counter: none elsewhere.
fn added_entry(taken: &Taken, list: &Diffs, from: u32, step: &Step) -> Option<u32>
    requires { 0 < taken.now.groups }
    ensures { IfSome result (λ n. IsNextEntry list.now from n
        × (added_in (first_of_group (taken.now.groups - 1) + n) step.now
        ≡ Some (slice_index_or list.now.values n (pos 0)))) }
{
    let Step::AddG(counter, amount) = *step else {
        return None;
    };
    let next = some_entry(list, from);
    if next >= 8 || amount != list.values[next as usize] {
        return None;
    }
    if counter.number / 8 + 1 == taken.groups && counter.number % 8 == next {
        Some(next)
    } else {
        None
    }
}

/// The next item for which something was taken, where the step adds it: none elsewhere.
fn added_item(taken: &Taken, from: u32, layout: &Layout, step: &Step) -> Option<u32>
    ensures { IfSome result (λ i. IsNextItem layout.now taken.now from i
        × (added_to_item_in i step.now ≡ Some (total_at taken.now.totals i))) }
{
    let Step::AddS(item, amount) = *step else {
        return None;
    };
    let next = some_item(taken, from, layout);
    if next >= layout.items() || amount != taken.totals[next as usize] {
        return None;
    }
    if item.number == next {
        Some(next)
    } else {
        None
    }
}

/// The list that a step takes from the next group: none where the step is another.
fn taken_list(taken: &Taken, fold: Fold, step: &Step) -> Option<Diffs>
    ensures { IfSome result (λ w. taken_in fold.cpu.number taken.now.groups step.now ≡ Some w) }
{
    match *step {
        Step::Take(cpu, group, list)
            if cpu.number == fold.cpu.number && group.number == taken.groups => Some(list),
        _ => None,
    }
}

/// The place of the group that is to be taken next, where the groups of a place are being taken: none where another
/// step is due.
fn group_place(
    taken: &Taken,
    place: u32,
    number: Option<u32>,
    fold: Fold,
    layout: &Layout,
) -> Option<u32>
    requires layout { IsLayout layout.now }
    requires within { IsFoldWithin layout.now (Groups taken.now place number) }
    ensures { IfSome result (λ of. IsNextGroup layout.now fold taken.now place number of) }
{
    if taken.groups < groups_through(layout, place) {
        return Some(place);
    }
    let next = place + 1;
    if next >= layout.places() {
        return None;
    }
    if is_acknowledged(fold, layout, next) {
        return None;
    }
    match number {
        Some(_) => None,
        None => Some(next),
    }
}

/// The number of the threshold that a step loads, where a place has one that is acknowledged: none elsewhere.
fn number_loaded(place: u32, fold: Fold, layout: &Layout, step: &Step) -> Option<u32>
    ensures { IfSome result (λ a. (place < place_count layout.now)
        × (acknowledges layout.now fold.is_own place ≡ true) × (number_in place step.now ≡ Some a)) }
{
    if place >= layout.places() || !is_acknowledged(fold, layout, place) {
        return None;
    }
    match *step {
        Step::LoadT(of, _, number) if of.number == place => Some(number),
        _ => None,
    }
}

/// Whether a step acknowledges the threshold of a place by this number.
fn is_acknowledgement(place: u32, number: Option<u32>, step: &Step) -> bool
    ensures { IsTrue result → IsSome number × (acknowledged_in place step.now ≡ number) }
{
    match *step {
        Step::SetA(of, set) if of.number == place => number == Some(set),
        _ => false,
    }
}

/// Adds the list that was taken from the next group.
fn add_list(taken: &mut Taken, layout: &Layout, list: &Diffs)
    requires { taken.old.groups < 64 }
    ensures groups { taken.new.groups ≡ taken.old.groups + 1 }
    ensures totals { (i : ℕ) → total_at taken.new.totals i
        ≡ total_at taken.old.totals i +ℤ entries_of layout.now i taken.old.groups list.now }
    ensures whole { length list.now.values ≡ 8 }
{
    if list.values == [0; 8] {
        taken.groups += 1;
    } else {
        *taken = taken.add(layout, *list);
    }
}
