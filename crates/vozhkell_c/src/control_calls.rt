ghost use Rattle.std.specs.Prelude.{◌≡◌, ℕ};
ghost use Rattle.vms_world.specs.Common.{IsThresholdRule};
ghost use Rattle.vozhkell_c.specs.Calls.{Calls, Tells};
ghost use Rattle.vozhkell_c.specs.ControlCalls.{IsNormal, IsPressed, IsRefreshed, IsTurned};
ghost use Rattle.vozhkell_c.specs.EventCalls.{IsEventSum};
ghost use Rattle.vozhkell_c.specs.HandleCalls.{IsFolded, IsSnap, IsValue, WithEvents, WithPages};
ghost use Rattle.vozhkell_c.specs.Openings.{GoesByNormal, GoesByPressure};
ghost use Rattle.vozhkell_c.specs.OrderCalls.{shown_balance};
ghost use Rattle.vozhkell_c.specs.Statuses as told;

use crate::held_control::HeldControl;
use crate::order_calls::{BalanceAnswer, balance_answer};
use crate::statuses::{MADE, NULL, call_status};
use std::alloc::Global;
use vms_base::{CounterId, CpuId, EventId, PlaceId, ZoneSize};
use vms_calc::{Rule, Rules, normal_threshold, pressure_threshold};
use vms_calls::Balance;
use vms_counters::{CallError, ControlHandle};

// The calls of the control handle. It sets thresholds by the kernel's rules.

/// Folds a CPU by the control handle: its differentials move to the global values.
#[unsafe(no_mangle)]
pub extern "C" fn vozhkell_c_control_fold(alloc: Global, control: &mut HeldControl, cpu: u32) -> i32
    ensures { Calls told.call_status (WithPages (IsFolded (record { number = cpu })))
        control.new.value control.old.value result }
{
    let Some(mut room) = control.take(alloc) else {
        return NULL;
    };
    let made = match &mut *room {
        Some(own) => own.fold(CpuId { number: cpu }),
        None => unreachable!(),
    };
    control.put(room);
    match made {
        Ok(()) => MADE,
        Err(error) => call_status(error),
    }
}

/// The global value of a counter by the control handle, in pages, and 0 where it is negative.
#[unsafe(no_mangle)]
pub extern "C" fn vozhkell_c_control_value(
    alloc: Global,
    control: &mut HeldControl,
    counter: u32,
    pages: &mut u64,
) -> i32
    ensures { Tells told.call_status (λ value. value) (WithPages (IsValue (record { number = counter })))
        control.new.value control.old.value pages.new pages.old result }
{
    let Some(mut room) = control.take(alloc) else {
        return NULL;
    };
    let made = match &mut *room {
        Some(own) => own.value(CounterId { number: counter }),
        None => unreachable!(),
    };
    control.put(room);
    match made {
        Ok(value) => {
            *pages = value;
            MADE
        }
        Err(error) => call_status(error),
    }
}

/// A snapshot of a counter by the control handle, in pages, and 0 where it is negative.
#[unsafe(no_mangle)]
pub extern "C" fn vozhkell_c_control_snapshot(
    alloc: Global,
    control: &mut HeldControl,
    counter: u32,
    pages: &mut u64,
) -> i32
    ensures { Tells told.call_status (λ value. value) (WithPages (IsSnap (record { number = counter })))
        control.new.value control.old.value pages.new pages.old result }
{
    let Some(mut room) = control.take(alloc) else {
        return NULL;
    };
    let made = match &mut *room {
        Some(own) => own.snapshot(CounterId { number: counter }),
        None => unreachable!(),
    };
    control.put(room);
    match made {
        Ok(value) => {
            *pages = value;
            MADE
        }
        Err(error) => call_status(error),
    }
}

/// How often the CPUs that are online have counted an event, by the control handle.
#[unsafe(no_mangle)]
pub extern "C" fn vozhkell_c_control_events(
    alloc: Global,
    control: &mut HeldControl,
    event: u32,
    times: &mut u64,
) -> i32
    ensures { Tells told.call_status (λ sum. sum) (WithEvents (IsEventSum (record { number = event })))
        control.new.value control.old.value times.new times.old result }
{
    let Some(mut room) = control.take(alloc) else {
        return NULL;
    };
    let made = match &mut *room {
        Some(own) => own.events(EventId { number: event }),
        None => unreachable!(),
    };
    control.put(room);
    match made {
        Ok(sum) => {
            *times = sum;
            MADE
        }
        Err(error) => call_status(error),
    }
}

/// Sets the pressure thresholds of a node's zones.
#[unsafe(no_mangle)]
pub extern "C" fn vozhkell_c_set_pressure(
    alloc: Global,
    control: &mut HeldControl,
    node: u32,
) -> i32
    ensures { Calls told.call_status (WithPages (IsPressed (record { number = node })))
        control.new.value control.old.value result }
{
    let Some(mut room) = control.take(alloc) else {
        return NULL;
    };
    let made = match &mut *room {
        Some(own) => set_pressure(
            own,
            PlaceId { number: node },
            |size: &ZoneSize, online: u32| normal_threshold(size, online),
            |size: &ZoneSize, online: u32| pressure_threshold(size, online),
        ),
        None => unreachable!(),
    };
    control.put(room);
    match made {
        Ok(()) => MADE,
        Err(error) => call_status(error),
    }
}

/// Sets the normal thresholds of a node's zones again.
#[unsafe(no_mangle)]
pub extern "C" fn vozhkell_c_set_normal(alloc: Global, control: &mut HeldControl, node: u32) -> i32
    ensures { Calls told.call_status (WithPages (IsNormal (record { number = node })))
        control.new.value control.old.value result }
{
    let Some(mut room) = control.take(alloc) else {
        return NULL;
    };
    let made = match &mut *room {
        Some(own) => set_normal(
            own,
            PlaceId { number: node },
            |size: &ZoneSize, online: u32| normal_threshold(size, online),
            |size: &ZoneSize, online: u32| pressure_threshold(size, online),
        ),
        None => unreachable!(),
    };
    control.put(room);
    match made {
        Ok(()) => MADE,
        Err(error) => call_status(error),
    }
}

/// Gives each zone its normal threshold, and each node the largest of its zones.
#[unsafe(no_mangle)]
pub extern "C" fn vozhkell_c_refresh(alloc: Global, control: &mut HeldControl) -> i32
    ensures { Calls told.call_status (WithPages IsRefreshed) control.new.value control.old.value result }
{
    let Some(mut room) = control.take(alloc) else {
        return NULL;
    };
    let made = match &mut *room {
        Some(own) => refresh(
            own,
            |size: &ZoneSize, online: u32| normal_threshold(size, online),
            |size: &ZoneSize, online: u32| pressure_threshold(size, online),
        ),
        None => unreachable!(),
    };
    control.put(room);
    match made {
        Ok(()) => MADE,
        Err(error) => call_status(error),
    }
}

/// Takes a turn of kswapd on a node.
#[unsafe(no_mangle)]
pub extern "C" fn vozhkell_c_kswapd_turn(
    alloc: Global,
    control: &mut HeldControl,
    node: u32,
    order: u32,
    most: u32,
    answer: &mut BalanceAnswer,
) -> i32
    ensures { Tells told.call_status shown_balance (WithPages (IsTurned (record { number = node }) order most))
        control.new.value control.old.value answer.new answer.old result }
{
    let Some(mut room) = control.take(alloc) else {
        return NULL;
    };
    let made = match &mut *room {
        Some(own) => kswapd_turn(
            own,
            PlaceId { number: node },
            order,
            most,
            |size: &ZoneSize, online: u32| normal_threshold(size, online),
            |size: &ZoneSize, online: u32| pressure_threshold(size, online),
        ),
        None => unreachable!(),
    };
    control.put(room);
    match made {
        Ok(balance) => {
            *answer = balance_answer(balance);
            MADE
        }
        Err(error) => call_status(error),
    }
}

fn set_pressure<N: Rule, P: Rule>(
    own: &mut ControlHandle,
    node: PlaceId,
    normal: N,
    pressure: P,
) -> Result<(), CallError>
    requires normal { IsThresholdRule (N.accepts normal) (N.answers normal) }
    requires pressure { IsThresholdRule (P.accepts pressure) (P.answers pressure) }
    requires by_normal { GoesByNormal (N.answers normal) }
    requires by_pressure { GoesByPressure (P.answers pressure) }
    ensures { WithPages (IsPressed node) own.new own.old result }
{
    own.set_pressure(&Rules::make(normal, pressure), node)
}

fn set_normal<N: Rule, P: Rule>(
    own: &mut ControlHandle,
    node: PlaceId,
    normal: N,
    pressure: P,
) -> Result<(), CallError>
    requires normal { IsThresholdRule (N.accepts normal) (N.answers normal) }
    requires pressure { IsThresholdRule (P.accepts pressure) (P.answers pressure) }
    requires by_normal { GoesByNormal (N.answers normal) }
    ensures { WithPages (IsNormal node) own.new own.old result }
{
    own.set_normal(&Rules::make(normal, pressure), node)
}

fn refresh<N: Rule, P: Rule>(
    own: &mut ControlHandle,
    normal: N,
    pressure: P,
) -> Result<(), CallError>
    requires normal { IsThresholdRule (N.accepts normal) (N.answers normal) }
    requires pressure { IsThresholdRule (P.accepts pressure) (P.answers pressure) }
    requires by_normal { GoesByNormal (N.answers normal) }
    ensures { WithPages IsRefreshed own.new own.old result }
{
    own.refresh_thresholds(&Rules::make(normal, pressure))
}

fn kswapd_turn<N: Rule, P: Rule>(
    own: &mut ControlHandle,
    node: PlaceId,
    order: u32,
    most: u32,
    normal: N,
    pressure: P,
) -> Result<Balance, CallError>
    requires normal { IsThresholdRule (N.accepts normal) (N.answers normal) }
    requires pressure { IsThresholdRule (P.accepts pressure) (P.answers pressure) }
    requires by_normal { GoesByNormal (N.answers normal) }
    requires by_pressure { GoesByPressure (P.answers pressure) }
    ensures { WithPages (IsTurned node order most) own.new own.old result }
{
    own.kswapd_turn(&Rules::make(normal, pressure), node, order, most)
}
