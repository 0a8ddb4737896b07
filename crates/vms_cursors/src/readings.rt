ghost use Rattle.std.specs.Prelude.{◌≡◌, ◌↔◌, IfSome, IsNone, IsTrue};
ghost use Rattle.vms_calls.specs.Common.{Diffs, Put, SetO};
ghost use Rattle.vms_cursors.specs.StepReadings as told;

use crate::Change;
use vms_base::{CounterId, CpuId, CpuState, Diffs, GroupId, ItemId, PlaceId};
use vms_core::{MarkRead, Step};

/// What a step tells as a load of the own threshold of a place.
pub fn threshold_in(place: PlaceId, step: Step) -> Option<u32>
    ensures { result ≡ told.threshold_in place.number step }
{
    match step {
        Step::LoadT(of, t, _) if of.number == place.number => Some(t),
        _ => None,
    }
}

/// What a step tells as a load of a CPU's differentials of a group.
pub fn group_in(cpu: CpuId, group: GroupId, step: Step) -> Option<Diffs>
    ensures { result ≡ told.group_in cpu.number group.number step }
{
    match step {
        Step::LoadD(of, loaded, list) if of.number == cpu.number && loaded.number == group.number =>
            Some(list),
        _ => None,
    }
}

/// The list that a step puts a changed differential into, where it is the exchange of a change under this threshold.
pub fn list_in(change: &Change, t: u32, step: Step) -> Option<Diffs>
    ensures put { IfSome result
        (λ w. Put change.now.counter w t change.now.delta change.now.mode ≡ step) }
    ensures other { IsNone result →
        (w : Diffs) → Put change.now.counter w t change.now.delta change.now.mode ≡ step → ⊥ }
{
    let Step::Put(counter, list, threshold, delta, mode) = step else {
        return None;
    };
    if counter.number != change.counter.number || threshold != t {
        return None;
    }
    if delta != change.delta || mode != change.mode {
        return None;
    }
    Some(list)
}

/// The list that was found before, where a step is an exchange of a group that lost.
pub fn missed_in(group: GroupId, step: Step) -> Option<Diffs>
    ensures { result ≡ told.missed_in group.number step }
{
    match step {
        Step::Miss(of, list) if of.number == group.number => Some(list),
        _ => None,
    }
}

/// What a step adds to the global value of a counter.
pub fn added_in(counter: CounterId, step: Step) -> Option<i64>
    ensures { result ≡ told.added_in counter.number step }
{
    match step {
        Step::AddG(to, amount) if to.number == counter.number => Some(amount),
        _ => None,
    }
}

/// What a step adds to the system-wide value of an item.
pub fn added_to_item_in(item: ItemId, step: Step) -> Option<i64>
    ensures { result ≡ told.added_to_item_in item.number step }
{
    match step {
        Step::AddS(to, amount) if to.number == item.number => Some(amount),
        _ => None,
    }
}

/// What a step tells as a load of the global value of a counter.
pub fn value_in(counter: CounterId, step: Step) -> Option<i64>
    ensures { result ≡ told.value_in counter.number step }
{
    match step {
        Step::LoadG(of, value) if of.number == counter.number => Some(value),
        _ => None,
    }
}

/// What a step tells as a load of the system-wide value of an item.
pub fn system_in(item: ItemId, step: Step) -> Option<i64>
    ensures { result ≡ told.system_in item.number step }
{
    match step {
        Step::LoadS(of, value) if of.number == item.number => Some(value),
        _ => None,
    }
}

/// What a step tells as a load of a zone's drift mark.
pub fn mark_in(zone: PlaceId, step: Step) -> Option<MarkRead>
    ensures { result ≡ told.mark_in zone.number step }
{
    match step {
        Step::LoadM(of, mark, number) if of.number == zone.number => {
            Some(MarkRead { mark, number })
        }
        _ => None,
    }
}

/// What a step tells as a load of a CPU's state.
pub fn state_in(cpu: CpuId, step: Step) -> Option<CpuState>
    ensures { result ≡ told.state_in cpu.number step }
{
    match step {
        Step::LoadO(of, state) if of.number == cpu.number => Some(state),
        _ => None,
    }
}

/// Whether two lists have the same entries.
pub fn same_list(first: Diffs, second: Diffs) -> bool
    ensures { IsTrue result ↔ (first ≡ second) }
{
    first.values == second.values
}

/// What a step tells as a load of the own threshold of a place: how often it was set.
pub fn number_in(place: PlaceId, step: Step) -> Option<u32>
    ensures { result ≡ told.number_in place.number step }
{
    match step {
        Step::LoadT(of, _, number) if of.number == place.number => Some(number),
        _ => None,
    }
}

/// What a step acknowledges of a place: how often its threshold was set.
pub fn acknowledged_in(place: PlaceId, step: Step) -> Option<u32>
    ensures { result ≡ told.acknowledged_in place.number step }
{
    match step {
        Step::SetA(of, number) if of.number == place.number => Some(number),
        _ => None,
    }
}

/// What a step tells as a take of a CPU's differentials of a group.
pub fn taken_in(cpu: CpuId, group: GroupId, step: Step) -> Option<Diffs>
    ensures { result ≡ told.taken_in cpu.number group.number step }
{
    match step {
        Step::Take(of, taken, list) if of.number == cpu.number && taken.number == group.number =>
            Some(list),
        _ => None,
    }
}

/// What a step tells as a load of what a CPU acknowledged last of a zone.
pub fn number_told_in(cpu: CpuId, zone: PlaceId, step: Step) -> Option<Option<u32>>
    ensures { result ≡ told.number_told_in cpu.number zone.number step }
{
    match step {
        Step::LoadA(of, loaded, number)
            if of.number == cpu.number && loaded.number == zone.number => { Some(number) }
        _ => None,
    }
}

/// The mark that a step sets in a zone.
pub fn set_mark_in(zone: PlaceId, step: Step) -> Option<u64>
    ensures { result ≡ told.set_mark_in zone.number step }
{
    match step {
        Step::SetM(of, mark) if of.number == zone.number => Some(mark),
        _ => None,
    }
}

/// The threshold that a step sets on a CPU in a place.
pub fn set_threshold_in(cpu: CpuId, place: PlaceId, step: Step) -> Option<u32>
    ensures { result ≡ told.set_threshold_in cpu.number place.number step }
{
    match step {
        Step::SetT(of, set, t) if of.number == cpu.number && set.number == place.number => Some(t),
        _ => None,
    }
}

/// Whether a step makes this CPU absent.
pub fn is_removal(cpu: CpuId, step: Step) -> bool
    ensures { IsTrue result ↔ (SetO cpu ≡ step) }
{
    match step {
        Step::SetO(of) => of.number == cpu.number,
        _ => false,
    }
}
