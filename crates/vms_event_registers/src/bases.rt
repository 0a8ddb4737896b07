//! Whether a history may begin with these facts, and which CPUs passes may own.

ghost use Rattle.std.specs.Prelude.{◌≡◌, ◌↔◌, ℕ, IsTrue, length, pos, ◌≤ℤ◌};
ghost use Rattle.vms_history.specs.Common.{HasOnline, IsLayout, IsCpu, Online, Absent};
ghost use Rattle.vms_event_core.specs.Bases as bases;
ghost use Rattle.vms_event_core.specs.Common.{HasShape, IsEvent, MayOwn, sum_of_words, word_at};

use crate::registers::word;
use vms_base::{CpuId, CpuState, EventId};
use vms_event_core::EventFacts;

/// Whether a CPU is online, dead or absent. One that the layout doesn't have is absent.
#[inline]
pub(crate) fn state_of(facts: &EventFacts, c: CpuId) -> CpuState
    ensures { result ≡ bases.cpu_at facts.now c.number }
{
    let at = c.number as usize;
    if at < facts.cpus.len() {
        facts.cpus.get(at)
    } else {
        CpuState::Absent
    }
}

/// Whether a CPU is online.
fn is_online(facts: &EventFacts, c: CpuId) -> bool
    ensures { IsTrue result ↔ (bases.cpu_at facts.now c.number ≡ Online) }
{
    match state_of(facts, c) {
        CpuState::Online => true,
        _ => false,
    }
}

/// Whether the facts have a state for each CPU, and a word for each CPU and event.
fn has_shape(facts: &EventFacts) -> bool
    ensures fits { IsTrue result ↔
        (length facts.now.cpus ≡ facts.now.layout.cpus) × HasShape facts.now.layout facts.now.base }
    ensures is_layout { IsLayout facts.now.layout }
{
    let cpus = facts.layout.cpus() as usize;
    facts.cpus.len() == cpus && facts.base.words.len() == cpus * 8
}

/// Whether some CPU is online.
fn has_online(facts: &EventFacts) -> bool
    ensures { IsTrue result ↔ HasOnline facts.now.layout facts.now.cpus }
{
    for number in 0..facts.layout.cpus() {
        if is_online(facts, CpuId { number }) {
            return true;
        }
    }
    false
}

/// Whether a CPU has counted nothing in the base.
fn has_no_count(facts: &EventFacts, c: CpuId) -> bool
    requires shaped { HasShape facts.now.layout facts.now.base }
    requires cpu { IsCpu facts.now.layout c.number }
    ensures { IsTrue result ↔ ((k : ℕ) → IsEvent k → word_at facts.now.base c.number k ≡ 0) }
{
    for number in 0..8 {
        if word(&facts.base, c, EventId { number }) != 0 {
            return false;
        }
    }
    true
}

/// Whether a CPU may have its words of the base: an absent CPU has zeros alone.
fn may_have_words(facts: &EventFacts, c: CpuId) -> bool
    requires shaped { HasShape facts.now.layout facts.now.base }
    requires cpu { IsCpu facts.now.layout c.number }
    ensures { IsTrue result ↔ (bases.cpu_at facts.now c.number ≡ Absent →
        (k : ℕ) → IsEvent k → word_at facts.now.base c.number k ≡ 0) }
{
    match state_of(facts, c) {
        CpuState::Absent => has_no_count(facts, c),
        _ => true,
    }
}

/// Whether each absent CPU has counted nothing in the base.
fn absent_have_no_count(facts: &EventFacts) -> bool
    requires { HasShape facts.now.layout facts.now.base }
    ensures { IsTrue result ↔ ((c k : ℕ) → IsCpu facts.now.layout c → bases.cpu_at facts.now c ≡ Absent →
        IsEvent k → word_at facts.now.base c k ≡ 0) }
{
    for number in 0..facts.layout.cpus() {
        if !may_have_words(facts, CpuId { number }) {
            return false;
        }
    }
    true
}

/// The sum of the words of an event in the base.
fn base_sum(facts: &EventFacts, k: EventId) -> u128
    requires shaped { HasShape facts.now.layout facts.now.base }
    requires event { IsEvent k.number }
    ensures { pos result ≡ sum_of_words facts.now.layout facts.now.base k.number }
{
    let mut sum: u128 = 0;
    for number in 0..facts.layout.cpus() {
        sum += u128::from(word(&facts.base, CpuId { number }, k));
    }
    sum
}

/// Whether the words of each event are small enough in sum.
fn sums_fit(facts: &EventFacts) -> bool
    requires { HasShape facts.now.layout facts.now.base }
    ensures { IsTrue result ↔ ((k : ℕ) → IsEvent k →
        sum_of_words facts.now.layout facts.now.base k ≤ℤ pos bases.most_in_base) }
{
    for number in 0..8 {
        if base_sum(facts, EventId { number }) > 1 << 60 {
            return false;
        }
    }
    true
}

/// Whether a history may begin with the facts.
pub(crate) fn is_base(facts: &EventFacts) -> bool
    ensures { IsTrue result ↔ bases.IsBase facts.now }
{
    if !has_shape(facts) {
        return false;
    }
    if !has_online(facts) {
        return false;
    }
    if !absent_have_no_count(facts) {
        return false;
    }
    sums_fit(facts)
}

/// Whether a pass may begin that owns this CPU, or for `None` a control pass.
pub(crate) fn may_own(facts: &EventFacts, who: Option<CpuId>) -> bool
    ensures { IsTrue result ↔ MayOwn facts.now who }
{
    match who {
        Some(c) => c.number < facts.layout.cpus() && is_online(facts, c),
        None => true,
    }
}
