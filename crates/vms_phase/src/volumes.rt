ghost use Rattle.std.specs.Prelude.{◌≡◌, ℕ, ◌+◌, ◌*◌, ◌<◌, ◌≤◌, [], ◌∷◌, All, length, nat_eq, if◌then◌else◌};
ghost use Rattle.std.specs.Prelude.{slice_index_or};
ghost use Rattle.vms_phase.specs.KeptVolumes.{AreGivenBack, HasOwn, HaveAll};
ghost use Rattle.vms_world.specs.Common.{volume_in};

use crate::lane_joins::JoinedLane;
use vms_base::{CpuId, Header, Row, Volume};
use vms_text::Lane;
use vms_world::Volumes;

/// How many events are counted.
const EVENTS: usize = 8;

/// Takes over the volumes that the passes of lanes had in the end, each lane's for its CPU. Those of other CPUs stay.
pub fn keep_volumes(header: &Header, volumes: &mut Volumes, lanes: &[JoinedLane])
    requires all { HaveAll header.now volumes.old }
    requires own { All (λ one. HasOwn header.now one.lane one.volumes) lanes.now }
    ensures { AreGivenBack header.now lanes.now volumes.new volumes.old }
{
    for lane in lanes {
        keep_lane(header, volumes, lane);
    }
}

/// Takes over the volumes of a lane's CPU, if it is of one.
fn keep_lane(header: &Header, volumes: &mut Volumes, lane: &JoinedLane)
    requires all { HaveAll header.now volumes.old }
    requires own { HasOwn header.now lane.now.lane lane.now.volumes }
    ensures { AreGivenBack header.now (lane.now ∷ []) volumes.new volumes.old }
{
    match lane.lane {
        Lane::Cpu(cpu) => match &lane.volumes {
            Some(own) => {
                let counters = header.layout.counters() as usize;
                keep_row(&mut volumes.pages, counters, cpu, &own.page);
                keep_row(&mut volumes.events, EVENTS, cpu, &own.event);
                keep_row(&mut volumes.counters, header.counters.len(), cpu, &own.pcpu);
            }
            None => {}
        },
        Lane::Control => {}
    }
}

/// Takes over the volumes of a CPU on each of `width` things.
fn keep_row(volumes: &mut Row<u64>, width: usize, cpu: CpuId, own: &Volume)
    requires own { length own.now ≡ width }
    requires within { cpu.number * width + width ≤ length volumes.old }
    ensures one_each { length volumes.new ≡ length volumes.old }
    ensures each { (c k : ℕ) → k < width → volume_in volumes.new width c k ≡
        if nat_eq cpu.number c then slice_index_or own.now k 0 else volume_in volumes.old width c k }
{
    let _ = volumes.len();
    let start = cpu.number as usize * width;
    for k in 0..width {
        volumes.set(start + k, own.get(k));
    }
}
