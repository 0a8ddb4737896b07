use crate::{Longs, State};
use std::marker::Model;
use vms_base::{CpuId, Row};

mod loads;
mod moves;
mod sets;

/// The page counters as plain data of one thread. A call makes one step on them, and `change` the steps of a whole
/// change.
#[derive(Debug, Drop)]
pub struct Plain {
    state: State,
    /// How many counters a CPU has differentials for.
    counters: usize,
    /// How many places a CPU has thresholds for.
    places: usize,
}

impl Model for Plain {
    ghost use Rattle.vms_core.specs.declared.states.State.{State};
    ghost use Rattle.vms_core.specs.Plain.{IsPlain};

    ghost Value = { State };

    ghost view = { λ plain. plain.state };

    ghost invariant = { λ plain. IsPlain plain.state plain.counters plain.places };
}

impl Plain {
    ghost use Rattle.std.specs.Prelude.{◌≡◌};
    ghost use Rattle.vms_core.specs.Bases.{settled};
    ghost use Rattle.vms_core.specs.Plain.{IsPlainBase};

    pub fn make(base: State) -> Plain
        requires { IsPlainBase base }
        ensures { result ≡ base }
    {
        let cpus = base.cpu.len();
        Plain {
            counters: base.diff.len() / cpus,
            places: base.threshold.len() / cpus,
            state: base,
        }
    }

    #[inline]
    pub fn state(&self) -> &State
        ensures { result.now ≡ self.now }
    {
        &self.state
    }

    /// The state as the next phase begins with it: nothing acknowledged, and nothing set.
    pub fn settle(self) -> State
        ensures { result ≡ settled self }
    {
        let mut state = self.state;
        clear(&mut state.acknowledged, None);
        clear(&mut state.threshold_sets, 0);
        clear(&mut state.mark_sets, 0);
        state
    }
}

ghost use Rattle.std.specs.Prelude.{◌≡◌, ◌+◌, ◌^◌, ◌<◌, ◌≤◌, length, map, take, drop};
ghost use Rattle.vms_base.specs.Places as places;
ghost use Rattle.vms_core.specs.Cells.{zeroed};

/// Where the number of a CPU for one of `width` things stands in a list.
#[inline]
pub(crate) fn cell(width: usize, cpu: CpuId, thing: usize) -> usize
    requires { places.cell width cpu.number thing < 2 ^ 63 }
    ensures { result ≡ places.cell width cpu.number thing }
{
    cpu.number as usize * width + thing
}

/// The eight numbers of a list from a place on.
#[inline]
pub(crate) fn eight_from(numbers: &[i64], start: usize) -> [i64; 8]
    requires { start + 8 ≤ length numbers.now }
    ensures { result ≡ take 8 (drop start numbers.now) }
{
    let mut eight = [0; 8];
    eight.copy_from_slice(&numbers[start..start + 8]);
    eight
}

/// Makes the eight numbers of a list from a place on 0.
#[inline]
fn zero_eight(numbers: &mut Longs, start: usize)
    requires within { start + 8 ≤ length numbers.old }
    requires fits { length numbers.old < 2 ^ 63 }
    ensures { numbers.new ≡ zeroed numbers.old start 8 }
{
    for n in 0..8 {
        numbers.set(start + n, 0);
    }
}

/// Makes all items of a row the same.
fn clear<T: Copy>(row: &mut Row<T>, value: T)
    ensures { row.new ≡ map (λ _. value) row.old }
{
    for at in 0..row.len() {
        row.set(at, value);
    }
}
