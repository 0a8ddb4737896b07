ghost use Rattle.std.specs.Prelude.{◌≡◌, ℕ};
ghost use Rattle.vozhkell_c.specs.Calls.{Tells};
ghost use Rattle.vozhkell_c.specs.HandleCalls.{IsBalanced, WithPages};
ghost use Rattle.vozhkell_c.specs.OrderCalls.{TestsOrder, shown_balance, shown_order};
ghost use Rattle.vozhkell_c.specs.Statuses as told;

use crate::handle_calls::mark_of;
use crate::held_handle::HeldHandle;
use crate::statuses::{MADE, NO_MARK, NULL, call_status};
use std::alloc::Global;
use vms_base::PlaceId;
use vms_calls::{Balance, OrderVerdict};

// The calls of a handle that ask for free blocks of an order.

/// What a test for free blocks answers.
#[repr(C)]
#[derive(Clone, Copy, Drop)]
pub struct OrderAnswer {
    /// The free pages that it rests on.
    pub free: u64,
    /// 1 where the zone passed, else 0.
    pub yes: u32,
    /// 1 where no snapshot of the free pages was made, else 0.
    pub fast: u32,
    /// The order of the free block that was found, and 2^32 - 1 where none was.
    pub order: u32,
}

/// What a balance test of a node, or a turn of kswapd, answers.
#[repr(C)]
#[derive(Clone, Copy, Drop)]
pub struct BalanceAnswer {
    /// The free pages that the test of the zone rests on which passed, and 0 where none did.
    pub free: u64,
    /// 1 where the node is balanced, else 0.
    pub yes: u32,
    /// The first zone that passed, and 0 where none did.
    pub zone: u32,
}

/// Tests whether a zone has more free pages than a watermark asks for and a free block of an order.
#[unsafe(no_mangle)]
pub extern "C" fn vozhkell_c_zone_ok(
    alloc: Global,
    handle: &mut HeldHandle,
    zone: u32,
    mark: u32,
    order: u32,
    most: u32,
    answer: &mut OrderAnswer,
) -> i32
    ensures { TestsOrder (record { number = zone }) mark order most handle.new.value handle.old.value answer.new
        answer.old result }
{
    let Some(mark) = mark_of(mark) else {
        return NO_MARK;
    };
    let Some(mut room) = handle.take(alloc) else {
        return NULL;
    };
    let made = match &mut *room {
        Some(own) => own.zone_ok(PlaceId { number: zone }, mark, order, most),
        None => unreachable!(),
    };
    handle.put(room);
    match made {
        Ok(verdict) => {
            *answer = order_answer(verdict);
            MADE
        }
        Err(error) => call_status(error),
    }
}

/// Tests whether a node is balanced for an order.
#[unsafe(no_mangle)]
pub extern "C" fn vozhkell_c_balanced(
    alloc: Global,
    handle: &mut HeldHandle,
    node: u32,
    order: u32,
    most: u32,
    answer: &mut BalanceAnswer,
) -> i32
    ensures { Tells told.call_status shown_balance (WithPages (IsBalanced (record { number = node }) order most))
        handle.new.value handle.old.value answer.new answer.old result }
{
    let Some(mut room) = handle.take(alloc) else {
        return NULL;
    };
    let made = match &mut *room {
        Some(own) => own.balanced(PlaceId { number: node }, order, most),
        None => unreachable!(),
    };
    handle.put(room);
    match made {
        Ok(balance) => {
            *answer = balance_answer(balance);
            MADE
        }
        Err(error) => call_status(error),
    }
}

/// What C is shown of a test for free blocks.
fn order_answer(verdict: OrderVerdict) -> OrderAnswer
    ensures { result ≡ shown_order verdict }
{
    OrderAnswer {
        free: verdict.free,
        yes: u32::from(verdict.yes),
        fast: u32::from(verdict.fast),
        order: verdict.area.unwrap_or(u32::MAX),
    }
}

/// What C is shown of a balance.
pub(crate) fn balance_answer(balance: Balance) -> BalanceAnswer
    ensures { result ≡ shown_balance balance }
{
    match balance {
        Balance::Yes(zone, verdict) => BalanceAnswer {
            free: verdict.free,
            yes: 1,
            zone: zone.number,
        },
        Balance::No => BalanceAnswer {
            free: 0,
            yes: 0,
            zone: 0,
        },
    }
}
