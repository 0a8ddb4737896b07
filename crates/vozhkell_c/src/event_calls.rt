ghost use Rattle.std.specs.Prelude.{◌≡◌, ℕ, ℤ};
ghost use Rattle.vozhkell_c.specs.Calls.{Calls, Tells};
ghost use Rattle.vozhkell_c.specs.EventCalls.{IsAdded, IsCounted, IsEventSum, IsLimited, IsRead, IsSummed, IsSynced};
ghost use Rattle.vozhkell_c.specs.HandleCalls.{WithEvents, WithPcpu, as_number};
ghost use Rattle.vozhkell_c.specs.Statuses as told;

use crate::held_handle::HeldHandle;
use crate::statuses::{MADE, NULL, call_status};
use std::alloc::Global;
use vms_base::{EventId, PcpuId};
use vms_counters::{CallError, Handle};

// The calls of a handle on events and on percpu counters. None waits for a lock: one that needs it and finds it held by
// others answers that.

/// Counts an event a number of times on the handle's CPU.
#[unsafe(no_mangle)]
pub extern "C" fn vozhkell_c_count_event(
    alloc: Global,
    handle: &mut HeldHandle,
    event: u32,
    times: u64,
) -> i32
    ensures { Calls told.call_status (WithEvents (IsCounted (record { number = event }) times))
        handle.new.value handle.old.value result }
{
    let Some(mut room) = handle.take(alloc) else {
        return NULL;
    };
    let made = match &mut *room {
        Some(own) => own.count_event(EventId { number: event }, times),
        None => unreachable!(),
    };
    handle.put(room);
    match made {
        Ok(()) => MADE,
        Err(error) => call_status(error),
    }
}

/// How often the CPUs that are online have counted an event.
#[unsafe(no_mangle)]
pub extern "C" fn vozhkell_c_events(
    alloc: Global,
    handle: &mut HeldHandle,
    event: u32,
    times: &mut u64,
) -> i32
    ensures { Tells told.call_status (λ sum. sum) (WithEvents (IsEventSum (record { number = event })))
        handle.new.value handle.old.value times.new times.old result }
{
    let Some(mut room) = handle.take(alloc) else {
        return NULL;
    };
    let made = match &mut *room {
        Some(own) => own.events(EventId { number: event }),
        None => unreachable!(),
    };
    handle.put(room);
    match made {
        Ok(sum) => {
            *times = sum;
            MADE
        }
        Err(error) => call_status(error),
    }
}

/// The shared part of a percpu counter, without what the CPUs hold.
#[unsafe(no_mangle)]
pub extern "C" fn vozhkell_c_percpu_read(
    alloc: Global,
    handle: &mut HeldHandle,
    counter: u32,
    value: &mut i64,
) -> i32
    ensures { Tells told.call_status (λ count. count) (WithPcpu (IsRead (record { number = counter })))
        handle.new.value handle.old.value value.new value.old result }
{
    let Some(mut room) = handle.take(alloc) else {
        return NULL;
    };
    let made = match &mut *room {
        Some(own) => own.percpu_read(PcpuId { number: counter }),
        None => unreachable!(),
    };
    handle.put(room);
    match made {
        Ok(count) => {
            *value = count;
            MADE
        }
        Err(error) => call_status(error),
    }
}

/// Adds an amount to a percpu counter on the handle's CPU.
#[unsafe(no_mangle)]
pub extern "C" fn vozhkell_c_try_percpu_add(
    alloc: Global,
    handle: &mut HeldHandle,
    counter: u32,
    amount: i64,
) -> i32
    ensures { Calls told.call_status (WithPcpu (IsAdded (record { number = counter }) amount))
        handle.new.value handle.old.value result }
{
    let Some(mut room) = handle.take(alloc) else {
        return NULL;
    };
    let made = match &mut *room {
        Some(own) => own.try_percpu_add(PcpuId { number: counter }, amount),
        None => unreachable!(),
    };
    handle.put(room);
    match made {
        Ok(()) => MADE,
        Err(error) => call_status(error),
    }
}

/// Adds an amount to a percpu counter where the counter then keeps a limit, and says whether it does.
#[unsafe(no_mangle)]
pub extern "C" fn vozhkell_c_try_percpu_limited_add(
    alloc: Global,
    handle: &mut HeldHandle,
    counter: u32,
    limit: i64,
    amount: i64,
    yes: &mut u32,
) -> i32
    ensures { Tells told.call_status as_number (WithPcpu (IsLimited (record { number = counter }) limit amount))
        handle.new.value handle.old.value yes.new yes.old result }
{
    let Some(mut room) = handle.take(alloc) else {
        return NULL;
    };
    let made = match &mut *room {
        Some(own) => limited_add(own, PcpuId { number: counter }, limit, amount),
        None => unreachable!(),
    };
    handle.put(room);
    match made {
        Ok(answer) => {
            *yes = u32::from(answer);
            MADE
        }
        Err(error) => call_status(error),
    }
}

/// Moves the local part of the handle's CPU to the shared part of a percpu counter.
#[unsafe(no_mangle)]
pub extern "C" fn vozhkell_c_try_percpu_sync(
    alloc: Global,
    handle: &mut HeldHandle,
    counter: u32,
) -> i32
    ensures { Calls told.call_status (WithPcpu (IsSynced (record { number = counter })))
        handle.new.value handle.old.value result }
{
    let Some(mut room) = handle.take(alloc) else {
        return NULL;
    };
    let made = match &mut *room {
        Some(own) => own.try_percpu_sync(PcpuId { number: counter }),
        None => unreachable!(),
    };
    handle.put(room);
    match made {
        Ok(()) => MADE,
        Err(error) => call_status(error),
    }
}

/// The shared part of a percpu counter and the local parts of all CPUs.
#[unsafe(no_mangle)]
pub extern "C" fn vozhkell_c_try_percpu_sum(
    alloc: Global,
    handle: &mut HeldHandle,
    counter: u32,
    value: &mut i64,
) -> i32
    ensures { Tells told.call_status (λ sum. sum) (WithPcpu (IsSummed (record { number = counter })))
        handle.new.value handle.old.value value.new value.old result }
{
    let Some(mut room) = handle.take(alloc) else {
        return NULL;
    };
    let made = match &mut *room {
        Some(own) => own.try_percpu_sum(PcpuId { number: counter }),
        None => unreachable!(),
    };
    handle.put(room);
    match made {
        Ok(sum) => {
            *value = sum;
            MADE
        }
        Err(error) => call_status(error),
    }
}

fn limited_add(
    own: &mut Handle,
    counter: PcpuId,
    limit: i64,
    amount: i64,
) -> Result<bool, CallError>
    ensures { WithPcpu (IsLimited counter limit amount) own.new own.old result }
{
    own.try_percpu_limited_add(counter, limit, amount)
}
