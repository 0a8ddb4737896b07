//! Counters for C: the functions behind those of `vozhkell.h`, over `vms_counters`. Each answers a status. A
//! variable of C owns what is on the heap.
#![tactic(auto)]

mod beginning;
mod control_calls;
mod event_calls;
mod handle_calls;
mod held_control;
mod held_counters;
mod held_handle;
mod lookups;
mod loose;
mod opening;
mod order_calls;
mod statuses;
