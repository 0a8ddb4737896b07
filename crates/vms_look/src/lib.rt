//! What reclaim code asks of the page counters while threads change them: values, snapshots, and whether a zone has
//! pages enough. Each call makes single loads, with no wait, no refusal and no memory. The test goes by the drift mark,
//! as those of `compaction_ready` and `pgdat_balanced` in Linux 6.1; the page allocator's own tests ignore it.
#![tactic(auto)]

mod laws;
mod values;
mod watermarks;

pub use laws::{AnyPagePass, marks_bound_zones, totals_are_kept, values_tell_true_pages};
pub use values::{place_value, snapshot, system_value};
pub use watermarks::{FreePages, free_pages, watermark_ok};
