ghost use Rattle.std.specs.Prelude.{◌≡◌, IfSome, Some};
ghost use Rattle.vms_written_lines.specs.WideSteps.{are_bytes, diffs_of, is_byte, small, small_if_any, step_of};
ghost use Rattle.vms_written_lines.specs.WideSteps.{widened};

use crate::WideStep;
use vms_base::Diffs;
use vms_core::Step;

impl WideStep {
    /// The step of these numbers. None where one is out of the range that the step has for it.
    pub fn narrow(&self) -> Option<Step>
        ensures value { result ≡ step_of self.now }
        ensures back { IfSome result (λ step. widened step ≡ self.now) }
    {
        Some(match *self {
            WideStep::LoadT(place, threshold, sets) => {
                Step::LoadT(place, small(threshold)?, small(sets)?)
            }
            WideStep::LoadD(cpu, group, list) => Step::LoadD(cpu, group, diffs_of(list)?),
            WideStep::Put(counter, list, threshold, delta, mode) => {
                Step::Put(counter, diffs_of(list)?, small(threshold)?, delta, mode)
            }
            WideStep::Miss(group, list) => Step::Miss(group, diffs_of(list)?),
            WideStep::AddG(counter, amount) => Step::AddG(counter, amount),
            WideStep::AddS(item, amount) => Step::AddS(item, amount),
            WideStep::Take(cpu, group, list) => Step::Take(cpu, group, diffs_of(list)?),
            WideStep::LoadG(counter, value) => Step::LoadG(counter, value),
            WideStep::LoadS(item, value) => Step::LoadS(item, value),
            WideStep::LoadM(place, mark, sets) => Step::LoadM(place, mark, small(sets)?),
            WideStep::LoadO(cpu, state) => Step::LoadO(cpu, state),
            WideStep::SetT(cpu, place, threshold) => Step::SetT(cpu, place, small(threshold)?),
            WideStep::SetM(place, mark) => Step::SetM(place, mark),
            WideStep::SetO(cpu) => Step::SetO(cpu),
            WideStep::SetA(place, sets) => Step::SetA(place, small(sets)?),
            WideStep::LoadA(cpu, place, sets) => Step::LoadA(cpu, place, small_if_any(sets)?),
            WideStep::Split(pass, cpu) => Step::Split(small(pass)?, cpu),
            WideStep::Join(pass) => Step::Join(small(pass)?),
        })
    }
}

/// A step's numbers as a line gives them.
pub fn widen(step: &Step) -> WideStep
    ensures value { result ≡ widened step.now }
    ensures back { step_of result ≡ Some step.now }
{
    match *step {
        Step::LoadT(place, threshold, sets) => {
            WideStep::LoadT(place, wide(threshold), wide(sets))
        }
        Step::LoadD(cpu, group, list) => WideStep::LoadD(cpu, group, values_of(list)),
        Step::Put(counter, list, threshold, delta, mode) => {
            WideStep::Put(counter, values_of(list), wide(threshold), delta, mode)
        }
        Step::Miss(group, list) => WideStep::Miss(group, values_of(list)),
        Step::AddG(counter, amount) => WideStep::AddG(counter, amount),
        Step::AddS(item, amount) => WideStep::AddS(item, amount),
        Step::Take(cpu, group, list) => WideStep::Take(cpu, group, values_of(list)),
        Step::LoadG(counter, value) => WideStep::LoadG(counter, value),
        Step::LoadS(item, value) => WideStep::LoadS(item, value),
        Step::LoadM(place, mark, sets) => WideStep::LoadM(place, mark, wide(sets)),
        Step::LoadO(cpu, state) => WideStep::LoadO(cpu, state),
        Step::SetT(cpu, place, threshold) => WideStep::SetT(cpu, place, wide(threshold)),
        Step::SetM(place, mark) => WideStep::SetM(place, mark),
        Step::SetO(cpu) => WideStep::SetO(cpu),
        Step::SetA(place, sets) => WideStep::SetA(place, wide(sets)),
        Step::LoadA(cpu, place, sets) => WideStep::LoadA(cpu, place, wide_if_any(sets)),
        Step::Split(pass, cpu) => WideStep::Split(wide(pass), cpu),
        Step::Join(pass) => WideStep::Join(wide(pass)),
    }
}

/// A number of 32 bits.
#[inline]
fn small(number: u64) -> Option<u32>
    ensures value { result ≡ small number }
    ensures same { IfSome result (λ n. n ≡ number) }
{
    u32::try_from(number).ok()
}

/// The same of a number, if there is one.
#[inline]
fn small_if_any(number: Option<u64>) -> Option<Option<u32>>
    ensures value { result ≡ small_if_any number }
    ensures same { IfSome result (λ n. n ≡ number) }
{
    match number {
        Some(number) => Some(Some(small(number)?)),
        None => Some(None),
    }
}

/// A number of 32 bits as one of 64.
#[inline]
fn wide(number: u32) -> u64
    ensures value { result ≡ number }
    ensures back { small result ≡ Some number }
{
    u64::from(number)
}

/// The same of a number, if there is one.
#[inline]
fn wide_if_any(number: Option<u32>) -> Option<u64>
    ensures value { result ≡ number }
    ensures back { small_if_any result ≡ Some number }
{
    match number {
        Some(number) => Some(wide(number)),
        None => None,
    }
}

/// The numbers of a list.
#[inline]
fn values_of(list: Diffs) -> [i64; 8]
    ensures value { result ≡ list.values }
    ensures back { diffs_of result ≡ Some list }
{
    list.values
}

/// Differentials that fit a byte each.
#[inline]
fn diffs_of(values: [i64; 8]) -> Option<Diffs>
    ensures value { result ≡ diffs_of values }
    ensures same { IfSome result (λ list. list.values ≡ values) }
{
    if are_bytes(&values) {
        Some(Diffs { values })
    } else {
        None
    }
}

fn are_bytes(values: &[i64]) -> bool
    ensures { result ≡ are_bytes values.now }
{
    values.iter().all(|value| is_byte(*value))
}

#[inline]
fn is_byte(value: i64) -> bool
    ensures { result ≡ is_byte value }
{
    -128 <= value && value <= 127
}
