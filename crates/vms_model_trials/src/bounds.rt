ghost use Rattle.std.specs.Prelude.{◌≡◌, ◌*◌, max, pos, negsuc, [], ◌∷◌, None};
ghost use Rattle.vms_base.specs.Thresholds.{normal_threshold_of, pressure_threshold_of};
ghost use Rattle.vms_calls.specs.Common.{CpuId, Dec, acknowledged_at, carried, carried_of_item, cover_mark_of, gap_of};
ghost use Rattle.vms_calls.specs.Common.{linux_mark_of, mark_at, online, own, state_after};
ghost use Rattle.vms_calls.specs.declared.page_calls.PageCall.TheVariants.{Change, Fold};
ghost use Rattle.vms_drift.specs.NewestThresholds.{online_cpus, online_thresholds};
ghost use Rattle.vms_drift.specs.PresentCpus.{most_hidden, parts_of, present_cpus};
ghost use Rattle.vms_drift.specs.RatedMarks.{raised_thresholds};
ghost use Rattle.vms_drift.specs.Transit.{most_carried, most_carried_of_item};
ghost use Rattle.vms_model_trials.specs.Machines.{four_cpus, size, sized, with_dead, with_narrow_gap, with_two_zones};
ghost use Rattle.vms_model_trials.specs.Moments.{Acknowledged, HasLeast, HasMost, Stands, StandsInAll, snapshot_error};
ghost use Rattle.vms_model_trials.specs.Stories.{AreLists, after_lines, free, list_of};
ghost use Rattle.vms_near.specs.Snapshots.{hidden_by_dead, online_looks};

use crate::stories::{FOUR_ONLINE, NARROW_GAP, ONE_DEAD, TWO_ZONES};

/// A zone's free pages are as far from the truth as its slack and what is carried allow. Under the mark of 650 four
/// CPUs hide 125 pages each, and 125 more are carried: 1,000 is told of 1,625. Under no mark they hide 24, the pages
/// between `min` and `low`. A dead CPU hides its part, until it is absent and the mark is 210.
pub fn slack_is_reached()
    ensures lists { AreLists }
    ensures hidden { (l : AreLists) → Stands four_cpus (after_lines l FOUR_ONLINE 17) (pos 1000) (pos 1500) 500 0 }
    ensures carried { (l : AreLists) → Stands four_cpus (after_lines l FOUR_ONLINE 23) (pos 1000) (pos 1625) 500 125 }
    ensures below { (l : AreLists) → Stands four_cpus (after_lines l FOUR_ONLINE 39) (pos 1125) (pos 625) 500 0 }
    ensures unmarked { (l : AreLists) → Stands four_cpus (after_lines l FOUR_ONLINE 93) (pos 624) (pos 648) 24 0 }
    ensures carried_below { (l : AreLists) → Stands four_cpus (after_lines l FOUR_ONLINE 119) (pos 104) (pos 74) 24 6 }
    ensures dead { (l : AreLists) → Stands with_dead (after_lines l ONE_DEAD 1) (pos 1000) (pos 1080) 80 0 }
    ensures absent { (l : AreLists) → Stands with_dead (after_lines l ONE_DEAD 14) (pos 1020) (pos 1080) 60 0 }
{}

/// Four tests by the value are as far from the truth as may be, on either side: a yes that tells 1,000 pages of 1,500,
/// one that tells 1,125 of 625, a yes under no mark that tells 624 of 600, and a no for `low` that tells 104 of 128,
/// though 128 is more than `low`. So are the values beside which pages are carried.
pub fn tests_reach_both_bounds()
    ensures yes_with_more { (l : AreLists) → HasMost four_cpus (after_lines l FOUR_ONLINE 18) 1000 }
    ensures yes_with_less { (l : AreLists) → HasLeast four_cpus (after_lines l FOUR_ONLINE 39) 1125 }
    ensures unmarked_with_more { (l : AreLists) → HasMost four_cpus (after_lines l FOUR_ONLINE 93) 624 }
    ensures unmarked_with_less { (l : AreLists) → HasLeast four_cpus (after_lines l FOUR_ONLINE 100) 624 }
    ensures no_with_more { (l : AreLists) → HasMost four_cpus (after_lines l FOUR_ONLINE 110) 104 }
    ensures carried_with_more { (l : AreLists) → HasMost four_cpus (after_lines l FOUR_ONLINE 23) 1000 }
    ensures carried_with_less { (l : AreLists) → HasLeast four_cpus (after_lines l FOUR_ONLINE 119) 104 }
{}

/// A snapshot is 1,000 pages from the truth where each of four CPUs goes from 125 to -125 before it is looked at, 250
/// pages for each. Where nobody changes anything it is the truth, with what a dead CPU hides.
pub fn snapshots_reach_their_bound()
    ensures looked { (l : AreLists) → 250 * online_looks (online (list_of l (negsuc 124))
        ∷ online (list_of l (negsuc 124)) ∷ online (list_of l (negsuc 124)) ∷ online (list_of l (negsuc 124)) ∷ [])
        ≡ 1000 }
    ensures far { (l : AreLists) → snapshot_error four_cpus (after_lines l FOUR_ONLINE 25) (pos 1125)
        (online (list_of l (negsuc 124)) ∷ online (list_of l (negsuc 124)) ∷ online (list_of l (negsuc 124))
        ∷ online (list_of l (negsuc 124)) ∷ []) ≡ 1000 }
    ensures exact { (l : AreLists) → snapshot_error four_cpus (after_lines l FOUR_ONLINE 41) (pos 1125)
        (online (list_of l (negsuc 124)) ∷ online (list_of l (negsuc 124)) ∷ online (list_of l (negsuc 124))
        ∷ online (list_of l (negsuc 124)) ∷ []) ≡ 0 }
    ensures dead { (l : AreLists) → hidden_by_dead with_dead.layout
        (state_after with_dead (after_lines l ONE_DEAD 1)) 0 ≡ pos 20 }
    ensures exact_with_dead { (l : AreLists) → snapshot_error with_dead (after_lines l ONE_DEAD 1) (pos 1000)
        (online (list_of l (pos 20)) ∷ online (list_of l (pos 20)) ∷ online (list_of l (pos 20)) ∷ []) ≡ 0 }
{}

/// The bound by the CPUs that are present is reached: four CPUs hide 500 pages of a counter, and 1,000 of an item that
/// two zones have. A CPU that is absent counts no more.
pub fn present_bound_is_reached()
    ensures four { (l : AreLists) →
        most_hidden four_cpus.layout (state_after four_cpus (after_lines l FOUR_ONLINE 17)) ≡ 500 }
    ensures system { (l : AreLists) → StandsInAll four_cpus (after_lines l FOUR_ONLINE 17) (pos 1000) (pos 1500) }
    ensures dead { (l : AreLists) →
        most_hidden with_dead.layout (state_after with_dead (after_lines l ONE_DEAD 1)) ≡ 500 }
    ensures absent { (l : AreLists) →
        most_hidden with_dead.layout (state_after with_dead (after_lines l ONE_DEAD 14)) ≡ 375 }
    ensures two_parts { (l : AreLists) → parts_of with_two_zones.layout 0
        * most_hidden with_two_zones.layout (state_after with_two_zones (after_lines l TWO_ZONES 1)) ≡ 1000 }
    ensures two_zones { (l : AreLists) →
        StandsInAll with_two_zones (after_lines l TWO_ZONES 1) (pos 1000) (pos 2000) }
{}

/// Once each CPU acknowledged the threshold of 6, the thresholds that stand bound the free pages, and four CPUs reach
/// them with 24 pages. Before, the same thresholds stand and 313 pages are hidden. Where fewer pages than CPUs are
/// between `min` and `low`, each CPU may hide one.
pub fn newest_thresholds_are_reached()
    ensures first { (l : AreLists) → Acknowledged four_cpus (after_lines l FOUR_ONLINE 81) 0 }
    ensures second { (l : AreLists) → Acknowledged four_cpus (after_lines l FOUR_ONLINE 81) 1 }
    ensures third { (l : AreLists) → Acknowledged four_cpus (after_lines l FOUR_ONLINE 81) 2 }
    ensures fourth { (l : AreLists) → Acknowledged four_cpus (after_lines l FOUR_ONLINE 81) 3 }
    ensures thresholds { (l : AreLists) → online_thresholds four_cpus.layout
        (state_after four_cpus (after_lines l FOUR_ONLINE 81)) 0 ≡ 24 }
    ensures pressure { pressure_threshold_of size 4 ≡ 6 }
    ensures most { (l : AreLists) → max (gap_of size)
        (online_cpus four_cpus.layout (state_after four_cpus (after_lines l FOUR_ONLINE 81))) ≡ 24 }
    ensures stands { (l : AreLists) → Stands four_cpus (after_lines l FOUR_ONLINE 81) (pos 624) (pos 648) 500 0 }
    ensures early { (l : AreLists) → online_thresholds four_cpus.layout
        (state_after four_cpus (after_lines l FOUR_ONLINE 57)) 0 ≡ 24 }
    ensures unacknowledged { (l : AreLists) →
        acknowledged_at (state_after four_cpus (after_lines l FOUR_ONLINE 57)) 0 0 ≡ None }
    ensures stands_early { (l : AreLists) →
        Stands four_cpus (after_lines l FOUR_ONLINE 57) (pos 937) (pos 624) 500 0 }
    ensures narrow_pressure { pressure_threshold_of (sized 102) 4 ≡ 1 }
    ensures narrow_most { (l : AreLists) → max (gap_of (sized 102))
        (online_cpus with_narrow_gap.layout (state_after with_narrow_gap (after_lines l NARROW_GAP 20))) ≡ 4 }
    ensures narrow { (l : AreLists) →
        Stands with_narrow_gap (after_lines l NARROW_GAP 20) (pos 1000) (pos 1004) 4 0 }
{}

/// Inside a change by one page a pass carries 188 pages, its size and 187. Inside a fold it carries 125 of a counter,
/// and 250 of an item that two zones have.
pub fn carried_amounts_are_reached()
    ensures change { (l : AreLists) → carried 0 (own (after_lines l FOUR_ONLINE 51) 1) ≡ negsuc 187 }
    ensures most_of_change { most_carried (Change free (negsuc 0) Dec) 0 ≡ 188 }
    ensures change_of_item { (l : AreLists) →
        carried_of_item four_cpus.layout 0 (own (after_lines l FOUR_ONLINE 51) 1) ≡ negsuc 187 }
    ensures most_of_item { most_carried_of_item four_cpus.layout (Change free (negsuc 0) Dec) 0 ≡ 188 }
    ensures fold { (l : AreLists) → carried 0 (own (after_lines l TWO_ZONES 2) 1) ≡ pos 125 }
    ensures most_of_fold { (c : CpuId) → most_carried (Fold c) 0 ≡ 125 }
    ensures fold_of_item { (l : AreLists) →
        carried_of_item with_two_zones.layout 0 (own (after_lines l TWO_ZONES 5) 1) ≡ pos 250 }
    ensures most_of_fold_of_item { (c : CpuId) → most_carried_of_item with_two_zones.layout (Fold c) 0 ≡ 250 }
    ensures afterwards { (l : AreLists) →
        carried_of_item with_two_zones.layout 0 (own (after_lines l TWO_ZONES 7) 1) ≡ pos 0 }
{}

/// A visit by the rule for pressure leaves the mark 270: Linux's for the normal threshold of 30 on four CPUs, which
/// covers the 24 pages that they may hide once they acknowledged thresholds of 6. While thresholds of 125 stand they
/// may hide 500, and the mark stays at 650.
pub fn marks_come_to_stand()
    ensures normal { normal_threshold_of size 4 ≡ 30 }
    ensures linux { linux_mark_of size 4 30 ≡ 270 }
    ensures lowered { (l : AreLists) → raised_thresholds four_cpus (after_lines l FOUR_ONLINE 81) 0 6 ≡ 24 }
    ensures covered { cover_mark_of size 270 24 ≡ 270 }
    ensures before { (l : AreLists) → mark_at (state_after four_cpus (after_lines l FOUR_ONLINE 81)) 0 ≡ 650 }
    ensures after { (l : AreLists) → mark_at (state_after four_cpus (after_lines l FOUR_ONLINE 91)) 0 ≡ 270 }
    ensures raised { (l : AreLists) → raised_thresholds four_cpus (after_lines l FOUR_ONLINE 81) 0 30 ≡ 120 }
    ensures raised_mark { cover_mark_of size 270 120 ≡ 270 }
    ensures large { (l : AreLists) → raised_thresholds four_cpus (after_lines l FOUR_ONLINE 53) 0 6 ≡ 500 }
    ensures large_mark { cover_mark_of size 270 500 ≡ 650 }
{}
