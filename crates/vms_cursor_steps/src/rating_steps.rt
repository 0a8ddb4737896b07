//! The steps of a call that gives thresholds.

ghost use Rattle.std.specs.Prelude.{◌≡◌, ℕ, ◌-◌, ◌<◌, false, IfSome, IsTrue, Option, Some};
ghost use Rattle.vms_calls.specs.Common.{CpuState as StateOf, IsLayout, is_online as tells_online};
ghost use Rattle.vms_cursors.specs.OnlineCpus.{flagged};
ghost use Rattle.vms_cursors.specs.RatingCalls.{IsRatingWithin};
ghost use Rattle.vms_cursors.specs.RatingClauses.{RatingGoes};
ghost use Rattle.vms_cursors.specs.Ratings.{IsAnswered, IsPositionWithin};
ghost use Rattle.vms_cursors.specs.StepReadings.{mark_in, number_told_in, set_threshold_in, state_in};
ghost use Rattle.vms_cursor_steps.specs.RatingSteps.{IsNextOnline, RatesOn};

use vms_base::{CpuState, Layout};
use vms_calls::ThresholdRules;
use vms_core::{MarkRead, Step};
use vms_cursors::{OnlineCpus, RatingCall, RatingPosition};

/// Goes on by a step, if this is the step that is due and no rule is asked: whether it went on. Where it didn't,
/// nothing changes.
pub(crate) fn rate_on<R: ThresholdRules>(
    at: &mut RatingPosition,
    call: RatingCall,
    layout: &Layout,
    step: &Step,
) -> bool
    requires layout { IsLayout layout.now }
    requires call { IsRatingWithin layout.now call }
    requires within { IsPositionWithin layout.now at.old }
    ensures goes { IsTrue result → RatingGoes layout.now R.pressure R.normal call at.old step.now at.new }
    ensures same { result ≡ false → at.new ≡ at.old }
    ensures within { IsPositionWithin layout.now at.new }
{
    direct_on::<R>(at, call, layout, step) || next_on::<R>(at, call, layout, step)
}

/// Goes on by a step of any kind, unless a rule is asked.
fn next_on<R: ThresholdRules>(
    at: &mut RatingPosition,
    call: RatingCall,
    layout: &Layout,
    step: &Step,
) -> bool
    requires layout { IsLayout layout.now }
    requires call { IsRatingWithin layout.now call }
    requires within { IsPositionWithin layout.now at.old }
    ensures goes { IsTrue result → RatingGoes layout.now R.pressure R.normal call at.old step.now at.new }
    ensures same { result ≡ false → at.new ≡ at.old }
    ensures within { IsPositionWithin layout.now at.new }
{
    if !is_answered(at) {
        return false;
    }
    match at.next::<R>(call, layout, *step) {
        Some(later) => {
            *at = later;
            true
        }
        None => false,
    }
}

/// Whether no rule is asked.
pub(crate) fn is_answered(at: &RatingPosition) -> bool
    ensures { IsTrue result → IsAnswered at.now }
{
    match at {
        RatingPosition::Asks(_, _, _) => false,
        _ => true,
    }
}

/// Goes on by a step after which the position is known at once, if this is the step that is due: whether it went on.
/// Where it didn't, nothing changes.
pub(crate) fn direct_on<R: ThresholdRules>(
    at: &mut RatingPosition,
    call: RatingCall,
    layout: &Layout,
    step: &Step,
) -> bool
    requires layout { IsLayout layout.now }
    requires within { IsPositionWithin layout.now at.old }
    ensures goes { IsTrue result → RatesOn layout.now R.pressure R.normal call at.old step.now at.new }
    ensures same { result ≡ false → at.new ≡ at.old }
    ensures within { IsPositionWithin layout.now at.new }
{
    cpu_on::<R>(at, call, layout, step) || mark_on::<R>(at, call, layout, step)
}

/// Goes on by the load of a zone's mark, after what the last CPU acknowledged.
fn mark_on<R: ThresholdRules>(
    at: &mut RatingPosition,
    call: RatingCall,
    layout: &Layout,
    step: &Step,
) -> bool
    requires layout { IsLayout layout.now }
    requires within { IsPositionWithin layout.now at.old }
    ensures goes { IsTrue result → RatesOn layout.now R.pressure R.normal call at.old step.now at.new }
    ensures same { result ≡ false → at.new ≡ at.old }
    ensures within { IsPositionWithin layout.now at.new }
{
    match at {
        RatingPosition::Numbers(seen, zone, cpu) => {
            let Some(read) = mark_read(*zone, step) else {
                return false;
            };
            if !is_over(&seen.online, *cpu, layout) {
                return false;
            }
            if call.spares(read.mark) {
                let later = RatingPosition::Zones(seen.with(*zone, 0), *zone + 1);
                *at = later;
                return true;
            }
            let later = RatingPosition::Asks(*seen, *zone, read.mark);
            *at = later;
            true
        }
        _ => false,
    }
}

/// The mark of a zone that a step loads: none where the step is another.
fn mark_read(zone: u32, step: &Step) -> Option<MarkRead>
    ensures { IfSome result (λ read. mark_in zone step.now ≡ Some read) }
{
    match *step {
        Step::LoadM(of, mark, number) if of.number == zone => Some(MarkRead { mark, number }),
        _ => None,
    }
}

/// Whether no CPU from one on was found online.
fn is_over(online: &OnlineCpus, from: u32, layout: &Layout) -> bool
    requires { IsLayout layout.now }
    ensures { IsTrue result → flagged online.now.flags from (layout.now.cpus - from)
        ≡ flagged online.now.flags layout.now.cpus (layout.now.cpus - layout.now.cpus) }
{
    online.next(from, layout.cpus()) >= layout.cpus()
}

/// Goes on by the load of a CPU's state or of what it acknowledged, or by the set of its threshold, if this is the step
/// that is due: whether it went on. Where it didn't, nothing changes.
fn cpu_on<R: ThresholdRules>(
    at: &mut RatingPosition,
    call: RatingCall,
    layout: &Layout,
    step: &Step,
) -> bool
    requires layout { IsLayout layout.now }
    requires within { IsPositionWithin layout.now at.old }
    ensures goes { IsTrue result → RatesOn layout.now R.pressure R.normal call at.old step.now at.new }
    ensures same { result ≡ false → at.new ≡ at.old }
    ensures answered { IsAnswered at.old → IsAnswered at.new }
    ensures within { IsPositionWithin layout.now at.new }
{
    match at {
        RatingPosition::States(online, cpu) => match state_told(*cpu, layout, step) {
            Some(is_online) => {
                *online = online.with(*cpu, is_online);
                *cpu += 1;
                true
            }
            None => false,
        },
        RatingPosition::Numbers(seen, zone, cpu) => {
            match acknowledged(&seen.online, *zone, *cpu, layout, step) {
                Some(of) => {
                    *cpu = of + 1;
                    true
                }
                None => false,
            }
        }
        RatingPosition::Thresholds(seen, zone, threshold, cpu) => {
            match set_on(&seen.online, *zone, *threshold, *cpu, layout, step) {
                Some(of) => {
                    *cpu = of + 1;
                    true
                }
                None => false,
            }
        }
        _ => false,
    }
}

/// Whether the CPU whose state is due was found online: none where the step isn't the load of its state.
fn state_told(cpu: u32, layout: &Layout, step: &Step) -> Option<bool>
    ensures { IfSome result (λ b. (cpu < layout.now.cpus) × (x : StateOf) × (state_in cpu step.now ≡ Some x)
        × (b ≡ tells_online x)) }
{
    if cpu >= layout.cpus() {
        return None;
    }
    match *step {
        Step::LoadO(of, state) if of.number == cpu => Some(state == CpuState::Online),
        _ => None,
    }
}

/// The next online CPU from one on, where the step loads what it acknowledged last of a zone: none elsewhere.
fn acknowledged(
    online: &OnlineCpus,
    zone: u32,
    from: u32,
    layout: &Layout,
    step: &Step,
) -> Option<u32>
    requires { IsLayout layout.now }
    ensures { IfSome result (λ c. IsNextOnline online.now layout.now.cpus from c
        × ((told : Option ℕ) × (number_told_in c zone step.now ≡ Some told))) }
{
    let next = online.next(from, layout.cpus());
    if next >= layout.cpus() {
        return None;
    }
    match *step {
        Step::LoadA(of, place, _) if of.number == next && place.number == zone => Some(next),
        _ => None,
    }
}

/// The next online CPU from one on, where the step sets its threshold of a zone to this one: none elsewhere.
fn set_on(
    online: &OnlineCpus,
    zone: u32,
    threshold: u32,
    from: u32,
    layout: &Layout,
    step: &Step,
) -> Option<u32>
    requires { IsLayout layout.now }
    ensures { IfSome result (λ c. IsNextOnline online.now layout.now.cpus from c
        × (set_threshold_in c zone step.now ≡ Some threshold)) }
{
    let next = online.next(from, layout.cpus());
    if next >= layout.cpus() {
        return None;
    }
    match *step {
        Step::SetT(of, place, t) if of.number == next && place.number == zone && t == threshold => {
            Some(next)
        }
        _ => None,
    }
}
