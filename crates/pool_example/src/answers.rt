ghost use Rattle.pool_example.specs.Taking.{IsStill};

use anyhow::Result;
use vms_base::{PlaceId, WaterMark};
use vms_calls::Verdict;
use vms_counters::Handle;

const ZONE: PlaceId = PlaceId { number: 0 };

/// The highest zone index that a request may use: that of zone Normal.
const MOST: u32 = 2;

/// How far a test without a snapshot can be off while nobody moves pages: the zone's drift mark of 190 less `high`.
const SLACK: u64 = 40;

/// Tests the zone's watermarks, and prints what each answer means.
pub(crate) fn tell<R: Print>(rt: &R, handle: &mut Handle) -> Result<()>
    ensures { IsStill handle.new handle.old }
{
    tell_one(rt, handle, "min", WaterMark::Min)?;
    tell_one(rt, handle, "low", WaterMark::Low)?;
    tell_one(rt, handle, "high", WaterMark::High)
}

fn tell_one<R: Print>(rt: &R, handle: &mut Handle, name: &str, mark: WaterMark) -> Result<()>
    ensures { IsStill handle.new handle.old }
{
    let Verdict { free, yes, fast } = handle.watermark_ok(ZONE, mark, MOST)?;
    let answer = if yes { "yes" } else { "no" };
    if fast {
        let least = free.saturating_sub(SLACK);
        let most = free.saturating_add(SLACK);
        println!(rt;
            "  {name}: {answer} by the value {free}, so from {least} to {most} pages are free"
        )?;
    } else {
        println!(rt; "  {name}: {answer} by a snapshot, so {free} pages are free")?;
    }
    Ok(())
}
