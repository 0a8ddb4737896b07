//! The reports on a world, byte for byte: `/proc/vmstat`, `/proc/zoneinfo`, the totals over all CPUs, and the percpu
//! counters.
#![tactic(auto)]

mod all_cpus;
mod counters;
mod items;
mod lines;
mod reports;
mod rooms;
mod totals;
mod vmstat;
mod zoneinfo;

pub use counters::write_counters;
pub use reports::write_report;
pub use totals::write_totals;
pub use vmstat::write_vmstat;
pub use zoneinfo::write_zoneinfo;
