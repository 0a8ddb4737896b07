ghost use Rattle.std.specs.Prelude.{◌≡◌, ◌/◌, ◌%◌, ◌^◌, ◌<◌, ◌≤◌, IfSome};
ghost use Rattle.vms_calls.specs.Common.{AreBytes, IsOpening};
ghost use Rattle.vms_words.specs.Shown as words;
ghost use Rattle.vms_words.specs.Told.{acknowledgement_told, cpu_told};
ghost use Rattle.vms_words.specs.Spots.{IsSpot};

use crate::spots::Spot;
use vms_base::{CpuState, Layout, encode, pack};
use vms_core::{MarkRead, State, Threshold};

/// The word of a threshold that was set so many times.
#[inline]
pub(crate) fn threshold_word(threshold: Threshold) -> u64
    ensures { result ≡ words.threshold_word threshold.t threshold.number }
{
    u64::from(threshold.t) + (1 << 32) * u64::from(threshold.number)
}

/// The threshold that a word shows.
#[inline]
pub(crate) fn threshold_of(word: u64) -> Threshold
    ensures t { result.t ≡ word % 2 ^ 32 }
    ensures number { result.number ≡ word / 2 ^ 32 }
{
    Threshold {
        t: (word % (1 << 32)) as u32,
        number: (word / (1 << 32)) as u32,
    }
}

/// The word of a mark that was set so many times.
#[inline]
pub(crate) fn mark_word(mark: MarkRead) -> u64
    requires mark { mark.mark < 2 ^ 43 }
    requires number { mark.number < 2 ^ 21 }
    ensures { result ≡ words.packed_mark mark.mark mark.number }
{
    mark.mark + (1 << 43) * u64::from(mark.number)
}

/// The mark that a word shows.
#[inline]
pub(crate) fn mark_of(word: u64) -> MarkRead
    ensures mark { result.mark ≡ word % 2 ^ 43 }
    ensures number { result.number ≡ word / 2 ^ 43 }
{
    MarkRead {
        mark: word % (1 << 43),
        number: (word / (1 << 43)) as u32,
    }
}

/// The word of a CPU's state.
#[inline]
pub(crate) fn cpu_word(state: CpuState) -> u64
    ensures { result ≡ words.cpu_word state }
{
    match state {
        CpuState::Online => 0,
        CpuState::Dead => 1,
        CpuState::Absent => 2,
    }
}

/// The state that a word shows.
#[inline]
pub(crate) fn cpu_of(word: u64) -> CpuState
    ensures { result ≡ cpu_told word }
{
    match word {
        0 => CpuState::Online,
        1 => CpuState::Dead,
        _ => CpuState::Absent,
    }
}

/// The word of what a CPU acknowledged.
#[inline]
pub(crate) fn acknowledgement_word(number: Option<u32>) -> u64
    ensures { result ≡ words.acknowledgement_word number }
{
    match number {
        None => 0,
        Some(number) => u64::from(number) + 1,
    }
}

/// What a CPU acknowledged, by the word that shows it.
#[inline]
pub(crate) fn acknowledged_of(word: u64) -> Option<u32>
    requires { word ≤ 2 ^ 32 }
    ensures { result ≡ acknowledgement_told word }
{
    match word {
        0 => None,
        _ => Some((word - 1) as u32),
    }
}

/// The word that shows one number of a state in which nothing was set yet, or the one between rows.
pub(crate) fn word_by(layout: &Layout, state: &State, spot: Option<Spot>) -> u64
    requires opening { IsOpening layout.now state.now }
    requires bytes { AreBytes state.now.diff }
    requires spot { IfSome spot (IsSpot layout.now) }
    ensures { result ≡ words.word_by state.now spot }
{
    match spot {
        None => 0,
        Some(spot) => word_of(layout, state, spot),
    }
}

/// The word that shows one number of a state in which nothing was set yet.
fn word_of(layout: &Layout, state: &State, spot: Spot) -> u64
    requires opening { IsOpening layout.now state.now }
    requires bytes { AreBytes state.now.diff }
    requires spot { IsSpot layout.now spot }
    ensures { result ≡ words.spot_word state.now spot }
{
    match spot {
        Spot::Value(counter) => encode(state.value_at(counter)),
        Spot::System(item) => encode(state.system_at(item)),
        Spot::Group(cpu, group) => pack(&state.diffs_at(layout, cpu, group)),
        Spot::Threshold(cpu, place) => threshold_word(state.threshold_at(layout, cpu, place)),
        Spot::Mark(zone) => mark_word(state.mark_at(zone)),
        Spot::Cpu(cpu) => cpu_word(state.cpu_at(cpu)),
        Spot::Acknowledgement(cpu, zone) => {
            acknowledgement_word(state.acknowledged_at(layout, cpu, zone))
        }
    }
}
