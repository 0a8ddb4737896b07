ghost use Rattle.std.specs.Prelude.{ℕ, List};
ghost use Rattle.vms_world.specs.Common.{Header, CpuId, IsCpu, Fits, lane_items, Start, Item, Cpu};
ghost use Rattle.vms_file_order.specs.Common.{IsStartOf};
ghost use Rattle.vms_lane.specs.Common.{acts_in};
ghost use Rattle.vms_phase.specs.declared.jobs.LaneJob.{LaneJob};
ghost use Rattle.vms_phase.specs.Jobs.{IsJob, MayRunJob};
ghost use Rattle.vms_phase.specs.Rooms.{LeaveRoom};
ghost use Rattle.vms_tables.specs.declared.tables.Tables.{Tables};
ghost use Rattle.vms_world.specs.declared.worlds.World.{World};

/// Where a script fits a start of a world, the volumes of each CPU leave room for the lines of its lane.
pub fn fitting_lanes_have_room()
    ensures { (header : Header) (w : World) (start : Start) (items : List Item) → IsStartOf header start w →
        Fits header start items → (c : CpuId) → IsCpu header.layout c.number →
        LeaveRoom header w c.number (acts_in (lane_items (Cpu c) items)) }
{}

/// Where a script fits a start of the world that the tables were made from, the job of each lane of a CPU may be run.
pub fn fitting_jobs_may_run()
    ensures { (header : Header) (tables : Tables) (w : World) (start : Start) (items : List Item) (number : ℕ)
        (c : CpuId) (job : LaneJob) → IsStartOf header start w → Fits header start items →
        IsCpu header.layout c.number → IsJob header tables w items number (Cpu c) job →
        MayRunJob header tables job }
{}
