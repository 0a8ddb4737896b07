ghost use Rattle.std.specs.Prelude.{◌≡◌, ◌≢◌, ℕ, ◌+◌, ◌-◌, ◌*◌, ◌/◌, ◌<◌, ◌≤◌, [], IfSome, IsNone, Some, drop, pos};
ghost use Rattle.std.specs.Prelude.{length, slice_index_or};
ghost use Rattle.vms_calls.specs.Common.{IsLayout, acknowledges, first_of_group, in_turn, item_count, place_count};
ghost use Rattle.vms_calls.specs.Common.{to_place};
ghost use Rattle.vms_cursors.specs.Cursors.{GoesOn, IsDue, HasEnded, Stops};
ghost use Rattle.vms_cursors.specs.Folds.{IsFoldWithin, fold_at, items_left};
ghost use Rattle.vms_cursors.specs.Totals.{total_at};
ghost use Rattle.vms_cursors.specs.declared.fold_positions.FoldPosition.TheVariants.{Places, Groups, Entries, Items};

use crate::Fold;
use crate::readings::{acknowledged_in, added_in, added_to_item_in, number_in, taken_in};
use crate::taken::Taken;
use vms_base::{CounterId, CpuId, Diffs, GroupId, ItemId, Layout, PlaceId};
use vms_core::Step;
use vms_plans::DueStep;

/// Where a fold stands: what it took, and what of it was added. Places, groups, entries and items come in order, and no
/// step is made for an entry or an item of 0.
#[derive(Clone, Copy, Debug, PartialEq, Eq)]
pub enum FoldPosition {
    /// The places before this one are folded.
    Places(Taken, u32),
    /// The place is being folded, and each list that was taken is added to its counters. The number is that of the own
    /// threshold, where that is to be acknowledged after the groups of the place.
    Groups(Taken, u32, Option<u32>),
    /// The same, but of the list that was taken last only the entries before this one are added to their counters.
    Entries(Taken, u32, Option<u32>, Diffs, u32),
    /// All places are folded, and the items before this one have got what was taken for them.
    Items(Taken, u32),
}

impl FoldPosition {
    /// The step that is due: none where the fold has ended.
    pub fn due(self, fold: Fold, layout: &Layout) -> Option<DueStep>
        requires layout { IsLayout layout.now }
        requires within { IsFoldWithin layout.now self }
        ensures due { IfSome result (λ due. IsDue (fold_at layout.now fold self) due) }
        ensures ended { IsNone result → HasEnded (fold_at layout.now fold self) (tt {0}) }
    {
        match self {
            FoldPosition::Places(taken, place) => due_place(taken, place, fold, layout),
            FoldPosition::Groups(taken, place, number) => {
                due_group(taken, place, number, fold, layout)
            }
            FoldPosition::Entries(taken, place, number, list, n) => {
                due_entry(taken, place, number, list, n, fold, layout)
            }
            FoldPosition::Items(taken, item) => due_item(taken, item, fold, layout),
        }
    }

    /// The position after a step: none where the step isn't the one that is due.
    pub fn next(self, fold: Fold, layout: &Layout, step: Step) -> Option<FoldPosition>
        requires layout { IsLayout layout.now }
        requires within { IsFoldWithin layout.now self }
        ensures goes { IfSome result
            (λ later. GoesOn (fold_at layout.now fold self) step (fold_at layout.now fold later)) }
        ensures stops { IsNone result → Stops (fold_at layout.now fold self) step }
        ensures within { IfSome result (λ later. IsFoldWithin layout.now later) }
    {
        match self {
            FoldPosition::Places(taken, place) => after_place(taken, place, fold, layout, step),
            FoldPosition::Groups(taken, place, number) => {
                after_group(taken, place, number, fold, layout, step)
            }
            FoldPosition::Entries(taken, place, number, list, n) => {
                after_entry(taken, place, number, list, n, fold, layout, step)
            }
            FoldPosition::Items(taken, item) => after_item(taken, item, fold, layout, step),
        }
    }
}

/// The first entry from this one on that isn't 0: 8 where there is none.
pub fn some_entry(list: &Diffs, from: u32) -> u32
    ensures same { (k : ℕ) → in_turn to_place (k + from) (drop from list.now.values)
        ≡ in_turn to_place (k + result) (drop result list.now.values) }
    ensures some { result < 8 → slice_index_or list.now.values result (pos 0) ≢ pos 0 }
    ensures most { result ≤ 8 }
    ensures whole { length list.now.values ≡ 8 }
{
    for n in from..8 {
        if list.values[n as usize] != 0 {
            return n;
        }
    }
    8
}

/// The first item from this one on for which something was taken: the number of items where there is none.
pub fn some_item(taken: &Taken, from: u32, layout: &Layout) -> u32
    ensures same { items_left layout.now taken.now [] from (item_count layout.now - from)
        ≡ items_left layout.now taken.now [] result (item_count layout.now - result) }
    ensures some { result < item_count layout.now → total_at taken.now.totals result ≢ pos 0 }
    ensures most { result ≤ item_count layout.now }
{
    for i in from..layout.items() {
        if taken.totals[i as usize] != 0 {
            return i;
        }
    }
    layout.items()
}

/// The addition of the next entry of a list, or what is due after the list.
fn due_entry(
    taken: Taken,
    place: u32,
    number: Option<u32>,
    list: Diffs,
    from: u32,
    fold: Fold,
    layout: &Layout,
) -> Option<DueStep>
    requires layout { IsLayout layout.now }
    requires within { IsFoldWithin layout.now (Entries taken place number list from) }
    ensures due { IfSome result (λ due. IsDue (fold_at layout.now fold (Entries taken place number list from)) due) }
    ensures ended { IsNone result →
        HasEnded (fold_at layout.now fold (Entries taken place number list from)) (tt {0}) }
{
    let n = some_entry(&list, from);
    if n < 8 {
        return Some(DueStep::Makes(Step::AddG(entry_counter(&taken, n), list.values[n as usize])));
    }
    due_group(taken, place, number, fold, layout)
}

/// The counter of an entry of the list that was taken last.
fn entry_counter(taken: &Taken, n: u32) -> CounterId
    requires some { 0 < taken.now.groups }
    requires few { taken.now.groups ≤ 64 }
    requires entry { n < 8 }
    ensures { result.number ≡ first_of_group (taken.now.groups - 1) + n }
{
    CounterId {
        number: 8 * (taken.groups - 1) + n,
    }
}

/// The take of the next group of a place, or what is due after the groups.
fn due_group(
    taken: Taken,
    place: u32,
    number: Option<u32>,
    fold: Fold,
    layout: &Layout,
) -> Option<DueStep>
    requires layout { IsLayout layout.now }
    requires within { IsFoldWithin layout.now (Groups taken place number) }
    ensures due { IfSome result (λ due. IsDue (fold_at layout.now fold (Groups taken place number)) due) }
    ensures ended { IsNone result → HasEnded (fold_at layout.now fold (Groups taken place number)) (tt {0}) }
{
    if taken.groups < groups_through(layout, place) {
        return Some(DueStep::Takes(
            fold.cpu,
            GroupId {
                number: taken.groups,
            },
        ));
    }
    match number {
        Some(number) => Some(DueStep::Makes(Step::SetA(PlaceId { number: place }, number))),
        None => due_place(taken, place + 1, fold, layout),
    }
}

/// How many groups the places up to this one have.
pub fn groups_through(layout: &Layout, place: u32) -> u32
    requires layout { IsLayout layout.now }
    requires place { place < place_count layout.now }
    ensures { result ≡ layout.now.positions / 8 * (place + 1) }
{
    layout.positions() / 8 * (place + 1)
}

/// Whether the threshold of a place is loaded and acknowledged.
pub fn is_acknowledged(fold: Fold, layout: &Layout, place: u32) -> bool
    ensures { result ≡ acknowledges layout.now fold.is_own place }
{
    fold.is_own && (place as usize) < layout.zones().len()
}

/// The load of the threshold of a place or the take of its first group, or the addition to an item after all places.
fn due_place(taken: Taken, place: u32, fold: Fold, layout: &Layout) -> Option<DueStep>
    requires layout { IsLayout layout.now }
    requires within { IsFoldWithin layout.now (Places taken place) }
    ensures due { IfSome result (λ due. IsDue (fold_at layout.now fold (Places taken place)) due) }
    ensures ended { IsNone result → HasEnded (fold_at layout.now fold (Places taken place)) (tt {0}) }
{
    if place >= layout.places() {
        return due_item(taken, 0, fold, layout);
    }
    if is_acknowledged(fold, layout, place) {
        return Some(DueStep::LoadsThreshold(PlaceId { number: place }));
    }
    Some(DueStep::Takes(
        fold.cpu,
        GroupId {
            number: taken.groups,
        },
    ))
}

/// The addition to the next item, where there is one.
fn due_item(taken: Taken, from: u32, fold: Fold, layout: &Layout) -> Option<DueStep>
    ensures due { IfSome result (λ due. IsDue (fold_at layout.now fold (Items taken from)) due) }
    ensures ended { IsNone result → HasEnded (fold_at layout.now fold (Items taken from)) (tt {0}) }
{
    let i = some_item(&taken, from, layout);
    if i < layout.items() {
        return Some(DueStep::Makes(Step::AddS(ItemId { number: i }, taken.totals[i as usize])));
    }
    None
}

fn after_entry(
    taken: Taken,
    place: u32,
    number: Option<u32>,
    list: Diffs,
    from: u32,
    fold: Fold,
    layout: &Layout,
    step: Step,
) -> Option<FoldPosition>
    requires layout { IsLayout layout.now }
    requires within { IsFoldWithin layout.now (Entries taken place number list from) }
    ensures goes { IfSome result (λ later. GoesOn (fold_at layout.now fold (Entries taken place number list from)) step
        (fold_at layout.now fold later)) }
    ensures stops { IsNone result → Stops (fold_at layout.now fold (Entries taken place number list from)) step }
    ensures within { IfSome result (λ later. IsFoldWithin layout.now later) }
{
    let n = some_entry(&list, from);
    if n >= 8 {
        return after_group(taken, place, number, fold, layout, step);
    }
    match added_in(entry_counter(&taken, n), step) {
        Some(added) if added == list.values[n as usize] => {
            Some(FoldPosition::Entries(taken, place, number, list, n + 1))
        }
        _ => None,
    }
}

fn after_group(
    taken: Taken,
    place: u32,
    number: Option<u32>,
    fold: Fold,
    layout: &Layout,
    step: Step,
) -> Option<FoldPosition>
    requires layout { IsLayout layout.now }
    requires within { IsFoldWithin layout.now (Groups taken place number) }
    ensures goes { IfSome result (λ later. GoesOn (fold_at layout.now fold (Groups taken place number)) step
        (fold_at layout.now fold later)) }
    ensures stops { IsNone result → Stops (fold_at layout.now fold (Groups taken place number)) step }
    ensures within { IfSome result (λ later. IsFoldWithin layout.now later) }
{
    if taken.groups < groups_through(layout, place) {
        return after_take(taken, place, number, fold, layout, step);
    }
    match number {
        Some(number) => after_acknowledgement(taken, place, number, fold, layout, step),
        None => after_place(taken, place + 1, fold, layout, step),
    }
}

/// The position after the take of the next group of a place.
fn after_take(
    taken: Taken,
    place: u32,
    number: Option<u32>,
    fold: Fold,
    layout: &Layout,
    step: Step,
) -> Option<FoldPosition>
    requires layout { IsLayout layout.now }
    requires within { IsFoldWithin layout.now (Groups taken place number) }
    requires more { taken.groups < layout.now.positions / 8 * (place + 1) }
    ensures goes { IfSome result (λ later. GoesOn (fold_at layout.now fold (Groups taken place number)) step
        (fold_at layout.now fold later)) }
    ensures stops { IsNone result → Stops (fold_at layout.now fold (Groups taken place number)) step }
    ensures within { IfSome result (λ later. IsFoldWithin layout.now later) }
{
    let group = GroupId {
        number: taken.groups,
    };
    match taken_in(fold.cpu, group, step) {
        Some(list) => Some(FoldPosition::Entries(taken.add(layout, list), place, number, list, 0)),
        None => None,
    }
}

/// The position after the acknowledgement of the threshold of a place.
fn after_acknowledgement(
    taken: Taken,
    place: u32,
    number: u32,
    fold: Fold,
    layout: &Layout,
    step: Step,
) -> Option<FoldPosition>
    requires layout { IsLayout layout.now }
    requires within { IsFoldWithin layout.now (Groups taken place (Some number)) }
    requires last { layout.now.positions / 8 * (place + 1) ≤ taken.groups }
    ensures goes { IfSome result (λ later. GoesOn (fold_at layout.now fold (Groups taken place (Some number))) step
        (fold_at layout.now fold later)) }
    ensures stops { IsNone result → Stops (fold_at layout.now fold (Groups taken place (Some number))) step }
    ensures within { IfSome result (λ later. IsFoldWithin layout.now later) }
{
    match acknowledged_in(PlaceId { number: place }, step) {
        Some(of) if of == number => Some(FoldPosition::Places(taken, place + 1)),
        _ => None,
    }
}

fn after_place(
    taken: Taken,
    place: u32,
    fold: Fold,
    layout: &Layout,
    step: Step,
) -> Option<FoldPosition>
    requires layout { IsLayout layout.now }
    requires within { IsFoldWithin layout.now (Places taken place) }
    ensures goes { IfSome result (λ later. GoesOn (fold_at layout.now fold (Places taken place)) step
        (fold_at layout.now fold later)) }
    ensures stops { IsNone result → Stops (fold_at layout.now fold (Places taken place)) step }
    ensures within { IfSome result (λ later. IsFoldWithin layout.now later) }
{
    if place >= layout.places() {
        return after_item(taken, 0, fold, layout, step);
    }
    if !is_acknowledged(fold, layout, place) {
        return after_take(taken, place, None, fold, layout, step);
    }
    match number_in(PlaceId { number: place }, step) {
        Some(number) => Some(FoldPosition::Groups(taken, place, Some(number))),
        None => None,
    }
}

fn after_item(
    taken: Taken,
    from: u32,
    fold: Fold,
    layout: &Layout,
    step: Step,
) -> Option<FoldPosition>
    ensures goes { IfSome result (λ later. GoesOn (fold_at layout.now fold (Items taken from)) step
        (fold_at layout.now fold later)) }
    ensures stops { IsNone result → Stops (fold_at layout.now fold (Items taken from)) step }
    ensures within { IfSome result (λ later. IsFoldWithin layout.now later) }
{
    let i = some_item(&taken, from, layout);
    if i >= layout.items() {
        return None;
    }
    match added_to_item_in(ItemId { number: i }, step) {
        Some(added) if added == taken.totals[i as usize] => {
            Some(FoldPosition::Items(taken, i + 1))
        }
        _ => None,
    }
}
