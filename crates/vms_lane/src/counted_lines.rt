ghost use Rattle.std.specs.Prelude.{◌≡◌, ◌<◌, suc, All, IfOk};
ghost use Rattle.vms_answers.specs.Common.{lane_place};
ghost use Rattle.vms_world.specs.Common.{IsPhaseScript};
ghost use Rattle.vms_lane.specs.Counts.{AreCounted};

use std::alloc::Global;
use std::marker::Model;
use vms_answers::place_of;
use vms_base::{Header, Memory, Row};
use vms_script::PhaseScript;
use vms_text::{Item, Lane};

/// The lines of a phase, with how many of them each lane has. All lanes are counted in one go through the lines.
#[derive(Drop)]
pub struct CountedLines<'a> {
    pub(crate) script: &'a PhaseScript,
    counts: Row<usize>,
}

impl<'a> Model for CountedLines<'a> {
    ghost use Rattle.std.specs.Prelude.{List};
    ghost use Rattle.vms_world.specs.Common.{Item};
    ghost use Rattle.vms_lane.specs.Counts.{AreCounted};

    ghost Value = { List Item };

    ghost view = { λ lines. lines.script.now };

    ghost invariant = { λ lines. AreCounted lines.counts lines.script.now };
}

impl<'a> CountedLines<'a> {
    ghost use Rattle.std.specs.Prelude.{◌≡◌, All, IfOk, length};
    ghost use Rattle.vms_world.specs.Common.{IsPhaseScript, IsLaneOf, lane_items};

    /// The lines of a phase, counted.
    pub fn of(
        alloc: Global,
        header: &Header,
        script: &'a PhaseScript,
    ) -> Result<CountedLines<'a>, Memory>
        requires lanes { All (λ item. IsLaneOf header.now item.lane) script.now }
        ensures { IfOk result (λ lines. lines ≡ script.now) }
    {
        let counts = count_lines(alloc, header.layout.cpus(), script.as_slice())?;
        Ok(CountedLines { script, counts })
    }

    /// How many lines a lane has.
    pub fn count_of(&self, lane: Lane) -> usize
        ensures count { result ≡ length (lane_items lane self.now) }
        ensures kept { IsPhaseScript self.now }
    {
        let place = place_of(lane);
        if place < self.counts.len() {
            self.counts.get(place)
        } else {
            0
        }
    }
}

/// How many of these lines each lane has, in the lane's place.
fn count_lines(alloc: Global, cpus: u32, items: &[Item]) -> Result<Row<usize>, Memory>
    requires kept { IsPhaseScript items.now }
    requires lanes { All (λ item. lane_place item.lane < suc cpus) items.now }
    ensures { IfOk result (λ counts. AreCounted counts items.now) }
{
    let mut counts = Row::filled(alloc, cpus as usize + 1, 0)?;
    for item in items {
        let place = place_of(item.lane.lane());
        let count = counts.get(place);
        counts.set(place, count + 1);
    }
    Ok(counts)
}
