ghost use Rattle.std.specs.Prelude.{◌≡◌, ℕ, ℤ};
ghost use Rattle.vozhkell_c.specs.Calls.{Calls, Tells};
ghost use Rattle.vozhkell_c.specs.HandleCalls.{IsAdd, IsDec, IsFolded, IsInc, IsSnap, IsSystem, IsValue, Tests};
ghost use Rattle.vozhkell_c.specs.HandleCalls.{WithPages, mark_of};
ghost use Rattle.vozhkell_c.specs.Statuses as told;

use crate::held_handle::HeldHandle;
use crate::statuses::{MADE, NO_MARK, NULL, call_status};
use std::alloc::Global;
use vms_base::{CounterId, CpuId, ItemId, PlaceId, WaterMark};

// The calls of a handle. Each takes it out of its variable for the call, and puts it back.

/// Changes a counter by a number of pages on the handle's CPU.
#[unsafe(no_mangle)]
pub extern "C" fn vozhkell_c_add(
    alloc: Global,
    handle: &mut HeldHandle,
    counter: u32,
    pages: i64,
) -> i32
    ensures { Calls told.call_status (WithPages (IsAdd (record { number = counter }) pages))
        handle.new.value handle.old.value result }
{
    let Some(mut room) = handle.take(alloc) else {
        return NULL;
    };
    let made = match &mut *room {
        Some(own) => own.add(CounterId { number: counter }, pages),
        None => unreachable!(),
    };
    handle.put(room);
    match made {
        Ok(()) => MADE,
        Err(error) => call_status(error),
    }
}

/// Adds a page to a counter.
#[unsafe(no_mangle)]
pub extern "C" fn vozhkell_c_inc(alloc: Global, handle: &mut HeldHandle, counter: u32) -> i32
    ensures { Calls told.call_status (WithPages (IsInc (record { number = counter }))) handle.new.value handle.old.value
        result }
{
    let Some(mut room) = handle.take(alloc) else {
        return NULL;
    };
    let made = match &mut *room {
        Some(own) => own.inc(CounterId { number: counter }),
        None => unreachable!(),
    };
    handle.put(room);
    match made {
        Ok(()) => MADE,
        Err(error) => call_status(error),
    }
}

/// Takes a page from a counter.
#[unsafe(no_mangle)]
pub extern "C" fn vozhkell_c_dec(alloc: Global, handle: &mut HeldHandle, counter: u32) -> i32
    ensures { Calls told.call_status (WithPages (IsDec (record { number = counter }))) handle.new.value handle.old.value
        result }
{
    let Some(mut room) = handle.take(alloc) else {
        return NULL;
    };
    let made = match &mut *room {
        Some(own) => own.dec(CounterId { number: counter }),
        None => unreachable!(),
    };
    handle.put(room);
    match made {
        Ok(()) => MADE,
        Err(error) => call_status(error),
    }
}

/// Folds a CPU: its differentials move to the global values.
#[unsafe(no_mangle)]
pub extern "C" fn vozhkell_c_fold(alloc: Global, handle: &mut HeldHandle, cpu: u32) -> i32
    ensures { Calls told.call_status (WithPages (IsFolded (record { number = cpu }))) handle.new.value handle.old.value
        result }
{
    let Some(mut room) = handle.take(alloc) else {
        return NULL;
    };
    let made = match &mut *room {
        Some(own) => own.fold(CpuId { number: cpu }),
        None => unreachable!(),
    };
    handle.put(room);
    match made {
        Ok(()) => MADE,
        Err(error) => call_status(error),
    }
}

/// The global value of a counter, in pages, and 0 where it is negative.
#[unsafe(no_mangle)]
pub extern "C" fn vozhkell_c_value(
    alloc: Global,
    handle: &mut HeldHandle,
    counter: u32,
    pages: &mut u64,
) -> i32
    ensures { Tells told.call_status (λ value. value) (WithPages (IsValue (record { number = counter })))
        handle.new.value handle.old.value pages.new pages.old result }
{
    let Some(mut room) = handle.take(alloc) else {
        return NULL;
    };
    let made = match &mut *room {
        Some(own) => own.value(CounterId { number: counter }),
        None => unreachable!(),
    };
    handle.put(room);
    match made {
        Ok(value) => {
            *pages = value;
            MADE
        }
        Err(error) => call_status(error),
    }
}

/// The system-wide value of an item, in pages, and 0 where it is negative.
#[unsafe(no_mangle)]
pub extern "C" fn vozhkell_c_system_value(
    alloc: Global,
    handle: &mut HeldHandle,
    item: u32,
    pages: &mut u64,
) -> i32
    ensures { Tells told.call_status (λ value. value) (WithPages (IsSystem (record { number = item })))
        handle.new.value handle.old.value pages.new pages.old result }
{
    let Some(mut room) = handle.take(alloc) else {
        return NULL;
    };
    let made = match &mut *room {
        Some(own) => own.system_value(ItemId { number: item }),
        None => unreachable!(),
    };
    handle.put(room);
    match made {
        Ok(value) => {
            *pages = value;
            MADE
        }
        Err(error) => call_status(error),
    }
}

/// A snapshot of a counter, in pages, and 0 where it is negative.
#[unsafe(no_mangle)]
pub extern "C" fn vozhkell_c_snapshot(
    alloc: Global,
    handle: &mut HeldHandle,
    counter: u32,
    pages: &mut u64,
) -> i32
    ensures { Tells told.call_status (λ value. value) (WithPages (IsSnap (record { number = counter })))
        handle.new.value handle.old.value pages.new pages.old result }
{
    let Some(mut room) = handle.take(alloc) else {
        return NULL;
    };
    let made = match &mut *room {
        Some(own) => own.snapshot(CounterId { number: counter }),
        None => unreachable!(),
    };
    handle.put(room);
    match made {
        Ok(value) => {
            *pages = value;
            MADE
        }
        Err(error) => call_status(error),
    }
}

/// What a test of a watermark answers.
#[repr(C)]
#[derive(Clone, Copy)]
pub struct WatermarkAnswer {
    /// The free pages that the answer rests on.
    pub free: u64,
    /// 1 where the zone has more than the watermark and the zone's reserve ask for, else 0.
    pub yes: u32,
    /// 1 where no snapshot was made, else 0.
    pub fast: u32,
}

/// Tests whether a zone has more free pages than a watermark asks for.
#[unsafe(no_mangle)]
pub extern "C" fn vozhkell_c_watermark_ok(
    alloc: Global,
    handle: &mut HeldHandle,
    zone: u32,
    mark: u32,
    most: u32,
    answer: &mut WatermarkAnswer,
) -> i32
    ensures { Tests (record { number = zone }) mark most handle.new.value handle.old.value answer.new answer.old
        result }
{
    let Some(mark) = mark_of(mark) else {
        return NO_MARK;
    };
    let Some(mut room) = handle.take(alloc) else {
        return NULL;
    };
    let made = match &mut *room {
        Some(own) => own.watermark_ok(PlaceId { number: zone }, mark, most),
        None => unreachable!(),
    };
    handle.put(room);
    match made {
        Ok(verdict) => {
            *answer = WatermarkAnswer {
                free: verdict.free,
                yes: u32::from(verdict.yes),
                fast: u32::from(verdict.fast),
            };
            MADE
        }
        Err(error) => call_status(error),
    }
}

/// The watermark of a number.
pub(crate) fn mark_of(number: u32) -> Option<WaterMark>
    ensures { result ≡ mark_of number }
{
    match number {
        0 => Some(WaterMark::Min),
        1 => Some(WaterMark::Low),
        2 => Some(WaterMark::High),
        _ => None,
    }
}
