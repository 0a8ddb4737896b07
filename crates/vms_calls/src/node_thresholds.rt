ghost use Rattle.std.specs.Prelude.{◌≡◌, ℕ, ◌<◌, ◌≤◌, Contains, length, slice_index_or};
ghost use Rattle.vms_history.specs.Common.{most_threshold};
ghost use Rattle.vms_calls.specs.Ratings.{largest_on};

use vms_base::Layout;

/// The largest threshold of the zones of a node, in pages.
pub fn node_threshold(layout: &Layout, thresholds: &[u32], node: u32) -> u32
    requires length { length thresholds.now ≡ length layout.now.zones }
    requires node { Contains layout.now.nodes node }
    requires least { (g : ℕ) → g < length layout.now.zones → 1 ≤ slice_index_or thresholds.now g 0 }
    requires most { (g : ℕ) → g < length layout.now.zones → slice_index_or thresholds.now g 0 ≤ most_threshold }
    ensures value { result ≡ largest_on layout.now thresholds.now node }
    ensures least { 1 ≤ result }
    ensures most { result ≤ most_threshold }
{
    let mut largest = 0;
    for g in 0..layout.zones().len() {
        if layout.zones()[g].node == node {
            largest = largest.max(thresholds[g]);
        }
    }
    largest
}
