ghost use Rattle.vms_counters.specs.Opened.{BeginsControl, BeginsHandle, EndsControl, EndsHandle};
ghost use Rattle.vms_counters.specs.Refusals.{RefusesControl, RefusesHandle};
ghost use Rattle.vozhkell_c.specs.Openings.{AreOfEachOther, BeginsFrom, BeginsIn, EndsFrom};

use crate::held_control::HeldControl;
use crate::held_counters::HeldCounters;
use crate::held_handle::HeldHandle;
use crate::statuses::{IN_USE, MADE, NO_MEMORY, NULL, begin_status};
use std::alloc::Global;
use vms_base::CpuId;
use vms_counters::Counters;

/// Begins a handle that owns a CPU, into a variable that holds nothing.
#[unsafe(no_mangle)]
pub extern "C" fn vozhkell_c_begin(
    alloc: Global,
    counters: &mut HeldCounters,
    cpu: u32,
    handle: &mut HeldHandle,
) -> i32
    ensures { BeginsFrom (λ new old. BeginsHandle new old (record { number = cpu }))
        (λ new old. RefusesHandle new old (record { number = cpu })) counters.new.value counters.old.value
        handle.new.value handle.old.value result }
{
    let Some(mut room) = counters.take(alloc) else {
        return NULL;
    };
    let status = match &mut *room {
        Some(own) => begin_in(alloc, own, cpu, handle),
        None => unreachable!(),
    };
    counters.put(room);
    status
}

/// The memory of the handle is taken first, so that a handle which was begun has its place.
fn begin_in(alloc: Global, own: &mut Counters, cpu: u32, handle: &mut HeldHandle) -> i32
    ensures { BeginsIn (λ new old. BeginsHandle new old (record { number = cpu }))
        (λ new old. RefusesHandle new old (record { number = cpu })) own.new own.old handle.new.value handle.old.value
        result }
{
    if let Some(room) = handle.take(alloc) {
        handle.put(room);
        return IN_USE;
    }
    let Ok(mut room) = Box::new(alloc, None) else {
        return NO_MEMORY;
    };
    match own.begin(CpuId { number: cpu }) {
        Ok(begun) => {
            let _none = Box::replace(&mut room, Some(begun));
            handle.put(room);
            MADE
        }
        Err(error) => begin_status(error),
    }
}

/// Ends a handle that these counters began. Its variable holds nothing then.
#[unsafe(no_mangle)]
pub extern "C" fn vozhkell_c_end(
    alloc: Global,
    counters: &mut HeldCounters,
    handle: &mut HeldHandle,
) -> i32
    requires { AreOfEachOther handle.old.value counters.old.value }
    ensures { EndsFrom EndsHandle counters.new.value counters.old.value handle.new.value handle.old.value result }
{
    let Some(mut room) = counters.take(alloc) else {
        return NULL;
    };
    let Some(ending) = handle.take(alloc) else {
        counters.put(room);
        return NULL;
    };
    match (&mut *room, Box::into_inner(ending)) {
        (Some(own), Some(ended)) => own.end(ended),
        _ => unreachable!(),
    }
    counters.put(room);
    MADE
}

/// Begins the control handle, into a variable that holds nothing.
#[unsafe(no_mangle)]
pub extern "C" fn vozhkell_c_begin_control(
    alloc: Global,
    counters: &mut HeldCounters,
    control: &mut HeldControl,
) -> i32
    ensures { BeginsFrom BeginsControl RefusesControl counters.new.value counters.old.value control.new.value
        control.old.value result }
{
    let Some(mut room) = counters.take(alloc) else {
        return NULL;
    };
    let status = match &mut *room {
        Some(own) => begin_control_in(alloc, own, control),
        None => unreachable!(),
    };
    counters.put(room);
    status
}

fn begin_control_in(alloc: Global, own: &mut Counters, control: &mut HeldControl) -> i32
    ensures { BeginsIn BeginsControl RefusesControl own.new own.old control.new.value control.old.value result }
{
    if let Some(room) = control.take(alloc) {
        control.put(room);
        return IN_USE;
    }
    let Ok(mut room) = Box::new(alloc, None) else {
        return NO_MEMORY;
    };
    match own.begin_control() {
        Ok(begun) => {
            let _none = Box::replace(&mut room, Some(begun));
            control.put(room);
            MADE
        }
        Err(error) => begin_status(error),
    }
}

/// Ends a control handle that these counters began. Its variable holds nothing then.
#[unsafe(no_mangle)]
pub extern "C" fn vozhkell_c_end_control(
    alloc: Global,
    counters: &mut HeldCounters,
    control: &mut HeldControl,
) -> i32
    requires { AreOfEachOther control.old.value counters.old.value }
    ensures { EndsFrom EndsControl counters.new.value counters.old.value control.new.value control.old.value result }
{
    let Some(mut room) = counters.take(alloc) else {
        return NULL;
    };
    let Some(ending) = control.take(alloc) else {
        counters.put(room);
        return NULL;
    };
    match (&mut *room, Box::into_inner(ending)) {
        (Some(own), Some(ended)) => own.end_control(ended),
        _ => unreachable!(),
    }
    counters.put(room);
    MADE
}
