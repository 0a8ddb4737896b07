//! Whether a history may begin with these facts, and which CPUs passes may own.

ghost use Rattle.std.specs.Prelude.{◌≡◌, ◌*◌, ◌↔◌, ℕ, IsTrue, length};
ghost use Rattle.vms_history.specs.Common.{HasOnline, IsCpu, IsLayout};
ghost use Rattle.vms_pcpu_core.specs.Common.{HasLengths, IsBase, IsCounterBase, IsLocalBase, IsPcpu, MayOwn};
ghost use Rattle.vms_pcpu_core.specs.Common.{counters_of, local_at};

use crate::opening::cpu_state;
use vms_base::{CpuId, CpuState};
use vms_pcpu_core::PcpuFacts;

/// What a batch may be at most.
const MOST_BATCH: u32 = 1 << 16;

/// What a shared part of a base may be at most, in absolute size.
const MOST_COUNT: u64 = 1 << 60;

/// Whether a history may begin with these facts.
pub(crate) fn is_base(facts: &PcpuFacts) -> bool
    ensures { IsTrue result ↔ IsBase facts.now }
{
    if !has_lengths(facts) {
        return false;
    }
    if !has_online(facts) {
        return false;
    }
    if !counters_fit(facts) {
        return false;
    }
    locals_fit(facts)
}

fn has_lengths(facts: &PcpuFacts) -> bool
    ensures value { IsTrue result ↔ HasLengths facts.now }
    ensures layout { IsLayout facts.now.layout }
{
    let counters = facts.base.batch.len();
    let cpus = facts.layout.cpus();
    if facts.cpus.len() != cpus as usize {
        return false;
    }
    if facts.base.count.len() != counters {
        return false;
    }
    facts.base.local.len() as u128 == u128::from(cpus) * counters as u128
}

fn has_online(facts: &PcpuFacts) -> bool
    ensures { IsTrue result ↔ HasOnline facts.now.layout facts.now.cpus }
{
    for c in 0..facts.layout.cpus() {
        if cpu_state(facts, CpuId { number: c }) == CpuState::Online {
            return true;
        }
    }
    false
}

fn counters_fit(facts: &PcpuFacts) -> bool
    requires { HasLengths facts.now }
    ensures { IsTrue result ↔ ((j : ℕ) → IsPcpu facts.now j → IsCounterBase facts.now j) }
{
    for j in 0..facts.base.batch.len() {
        if !counter_fits(facts, j) {
            return false;
        }
    }
    true
}

fn counter_fits(facts: &PcpuFacts, j: usize) -> bool
    requires lengths { HasLengths facts.now }
    requires counter { IsPcpu facts.now j }
    ensures { IsTrue result ↔ IsCounterBase facts.now j }
{
    let batch = facts.base.batch.get(j);
    if batch < 1 {
        return false;
    }
    if batch > MOST_BATCH {
        return false;
    }
    facts.base.count.get(j).unsigned_abs() <= MOST_COUNT
}

fn locals_fit(facts: &PcpuFacts) -> bool
    requires { HasLengths facts.now }
    ensures { IsTrue result ↔
        ((c : ℕ) → IsCpu facts.now.layout c → (j : ℕ) → IsPcpu facts.now j → IsLocalBase facts.now c j) }
{
    for c in 0..facts.layout.cpus() {
        if !row_fits(facts, c) {
            return false;
        }
    }
    true
}

fn row_fits(facts: &PcpuFacts, c: u32) -> bool
    requires lengths { HasLengths facts.now }
    requires cpu { IsCpu facts.now.layout c }
    ensures { IsTrue result ↔ ((j : ℕ) → IsPcpu facts.now j → IsLocalBase facts.now c j) }
{
    for j in 0..facts.base.batch.len() {
        if !local_fits(facts, c, j) {
            return false;
        }
    }
    true
}

fn local_fits(facts: &PcpuFacts, c: u32, j: usize) -> bool
    requires lengths { HasLengths facts.now }
    requires cpu { IsCpu facts.now.layout c }
    requires counter { IsPcpu facts.now j }
    ensures { IsTrue result ↔ IsLocalBase facts.now c j }
{
    let local = base_local(facts, c as usize, j);
    if local.unsigned_abs() > facts.base.batch.get(j) as u64 {
        return false;
    }
    if cpu_state(facts, CpuId { number: c }) != CpuState::Absent {
        return true;
    }
    local == 0
}

/// The local part of a CPU for a counter in the base.
fn base_local(facts: &PcpuFacts, cpu: usize, counter: usize) -> i64
    requires full { length facts.now.base.local ≡ facts.now.layout.cpus * counters_of facts.now.base }
    requires cpu { IsCpu facts.now.layout cpu }
    requires counter { IsPcpu facts.now counter }
    ensures { result ≡ local_at facts.now.base cpu counter }
{
    let counters = facts.base.batch.len();
    let _length = facts.base.local.len();
    let at = cpu * counters + counter;
    facts.base.local.get(at)
}

/// Whether a pass may begin that owns this CPU, or for `None` a control pass.
pub(crate) fn may_own(facts: &PcpuFacts, who: Option<CpuId>) -> bool
    ensures { IsTrue result ↔ MayOwn facts.now who }
{
    match who {
        Some(cpu) => {
            cpu.number < facts.layout.cpus() && cpu_state(facts, cpu) == CpuState::Online
        }
        None => true,
    }
}
