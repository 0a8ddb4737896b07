ghost use Rattle.std.specs.Prelude.{◌≡◌, ◌≢◌, ℕ, ◌+◌, Some, None};
ghost use Rattle.vms_calls.specs.Common.{Shape};
ghost use Rattle.vms_rows.specs.Common.{line_of};
ghost use Rattle.vms_words.specs.declared.spots.Spot.{Spot};
ghost use Rattle.vms_words.specs.Spots.{IsSpot, cpu_of_spot, place_in, blocks_of};

/// Words of two CPUs stand in two lines of 64 bytes, in whichever word of a line the first word of a layout's table
/// stands. Neither stands in a line with a global value, a system-wide one or a mark.
pub fn cpus_share_no_line()
    ensures cpus { (shape : Shape) (start c d : ℕ) (one other : Spot) → IsSpot shape one → IsSpot shape other →
        cpu_of_spot one ≡ Some c → cpu_of_spot other ≡ Some d → c ≢ d →
        line_of (start + place_in (blocks_of shape) one) ≢ line_of (start + place_in (blocks_of shape) other) }
    ensures shared { (shape : Shape) (start c : ℕ) (one other : Spot) → IsSpot shape one → IsSpot shape other →
        cpu_of_spot one ≡ Some c → cpu_of_spot other ≡ None →
        line_of (start + place_in (blocks_of shape) one) ≢ line_of (start + place_in (blocks_of shape) other) }
{}
