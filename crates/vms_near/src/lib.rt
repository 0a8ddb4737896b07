//! How near an answer is to the truth: by what the CPUs may hide, and by what callers have in flight.
#![tactic(auto)]

mod flight;
mod summing;
mod values;

pub use flight::calls_fly_little;
pub use summing::snapshots_sum_nearly;
pub use values::{
    hiding_is_bounded, item_hiding_is_bounded, system_values_tell_nearly, values_tell_nearly,
};
