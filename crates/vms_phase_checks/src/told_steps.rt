//! The step that is due, by the numbers that stand.

ghost use Rattle.vms_core.specs.Cells.{HasShape};
ghost use Rattle.vms_page_words.specs.Words.{state_of};

use vms_base::{CounterId, CpuId, Diffs, GroupId, ItemId, PlaceId};
use vms_core::{Facts, Step};
use vms_page_words::PageWords;
use vms_plans::DueStep;
use vms_text::Lane;
use vms_written_lines::WideStep;

/// The step of a lane's pass that is due, where no other caller acts before it: it tells what stands, and an exchange
/// wins if the list that was found stands. None where something is named that the layout hasn't.
pub(crate) fn told_step(words: &PageWords, facts: &Facts, lane: Lane, due: DueStep) -> Option<Step>
    requires { HasShape facts.now.layout (state_of words.now) }
{
    match due {
        DueStep::Makes(step) => Some(step),
        DueStep::LoadsThreshold(place) => told_threshold(words, facts, lane, place),
        DueStep::LoadsGroup(cpu, group) => {
            let list = told_group(words, facts, cpu, group)?;
            WideStep::LoadD(cpu, group, list).narrow()
        }
        DueStep::Exchanges(counter, list, threshold, delta, mode) => {
            let wins = Step::Put(counter, list, threshold, delta, mode);
            told_exchange(words, facts, lane, counter, list, wins)
        }
        DueStep::ExchangesZeros(counter, threshold, delta, mode) => Some(Step::Put(
            counter,
            Diffs::zeros(),
            threshold,
            delta,
            mode,
        )),
        DueStep::Takes(cpu, group) => {
            let list = told_group(words, facts, cpu, group)?;
            WideStep::Take(cpu, group, list).narrow()
        }
        DueStep::LoadsValue(counter) => told_value(words, facts, counter),
        DueStep::LoadsSystem(item) => told_system(words, facts, item),
        DueStep::LoadsMark(zone) => told_mark(words, facts, zone),
        DueStep::LoadsState(cpu) => told_state(words, facts, cpu),
        DueStep::LoadsAcknowledged(cpu, zone) => told_acknowledged(words, facts, cpu, zone),
    }
}

fn told_threshold(words: &PageWords, facts: &Facts, lane: Lane, place: PlaceId) -> Option<Step>
    requires { HasShape facts.now.layout (state_of words.now) }
{
    let Lane::Cpu(cpu) = lane else {
        return None;
    };
    if cpu.number >= facts.layout.cpus() || place.number >= facts.layout.places() {
        return None;
    }
    let threshold = words.threshold(facts, cpu, place);
    let sets = words.threshold_sets(facts, cpu, place);
    WideStep::LoadT(place, u64::from(threshold), sets).narrow()
}

fn told_group(words: &PageWords, facts: &Facts, cpu: CpuId, group: GroupId) -> Option<[i64; 8]>
    requires { HasShape facts.now.layout (state_of words.now) }
{
    if cpu.number >= facts.layout.cpus() || group.number >= facts.layout.groups() {
        return None;
    }
    Some(words.group(facts, cpu, group))
}

/// The exchange of the list that was found in the group of a counter, which wins if this list stands.
fn told_exchange(
    words: &PageWords,
    facts: &Facts,
    lane: Lane,
    counter: CounterId,
    list: Diffs,
    wins: Step,
) -> Option<Step>
    requires { HasShape facts.now.layout (state_of words.now) }
{
    let Lane::Cpu(cpu) = lane else {
        return None;
    };
    if counter.number >= facts.layout.counters() {
        return None;
    }
    let group = facts.layout.group(counter);
    let told = told_group(words, facts, cpu, group)?;
    if told == list.values {
        Some(wins)
    } else {
        Some(Step::Miss(group, list))
    }
}

fn told_value(words: &PageWords, facts: &Facts, counter: CounterId) -> Option<Step>
    requires { HasShape facts.now.layout (state_of words.now) }
{
    if counter.number >= facts.layout.counters() {
        return None;
    }
    Some(Step::LoadG(counter, words.value(facts, counter)))
}

fn told_system(words: &PageWords, facts: &Facts, item: ItemId) -> Option<Step>
    requires { HasShape facts.now.layout (state_of words.now) }
{
    if item.number >= facts.layout.items() {
        return None;
    }
    Some(Step::LoadS(item, words.system(facts, item)))
}

fn told_mark(words: &PageWords, facts: &Facts, zone: PlaceId) -> Option<Step>
    requires { HasShape facts.now.layout (state_of words.now) }
{
    if zone.number as usize >= facts.layout.zones().len() {
        return None;
    }
    let mark = words.mark(facts, zone);
    let sets = words.mark_sets(facts, zone);
    WideStep::LoadM(zone, mark, sets).narrow()
}

fn told_state(words: &PageWords, facts: &Facts, cpu: CpuId) -> Option<Step>
    requires { HasShape facts.now.layout (state_of words.now) }
{
    if cpu.number >= facts.layout.cpus() {
        return None;
    }
    Some(Step::LoadO(cpu, words.cpu(facts, cpu)))
}

fn told_acknowledged(words: &PageWords, facts: &Facts, cpu: CpuId, zone: PlaceId) -> Option<Step>
    requires { HasShape facts.now.layout (state_of words.now) }
{
    if cpu.number >= facts.layout.cpus() || zone.number as usize >= facts.layout.zones().len() {
        return None;
    }
    Some(Step::LoadA(cpu, zone, words.acknowledged(facts, cpu, zone)))
}
