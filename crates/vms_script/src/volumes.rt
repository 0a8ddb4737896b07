ghost use Rattle.std.specs.Prelude.{◌≡◌, ◌+◌, ◌*◌, ◌<◌, ◌^◌, nat_lt, if◌then◌else◌, length, replicate, IfOk, Ok, Err};
ghost use Rattle.vms_line.specs.declared.causes.LineCause.TheVariants.{Overflow};
ghost use Rattle.vms_script.specs.JudgeStates.{HasCell, new_volume, volume_at, with_new_volume};
ghost use Rattle.vms_base.specs.Common.{most_volume};

use std::alloc::Global;
use vms_base::{CpuId, Memory, Row};
use vms_line::LineCause;

/// The most by which one CPU changes one counter, event or percpu counter over a run, in absolute sum.
const MOST_VOLUME: u64 = 1 << 48;

/// A volume that takes the place of another in a table.
#[derive(Clone, Copy)]
pub(crate) struct NewVolume {
    pub(crate) index: usize,
    pub(crate) volume: u64,
}

/// By how much each CPU has changed each thing, in absolute sum, by CPU and then thing.
#[derive(Drop)]
pub(crate) struct VolumeTable {
    pub(crate) width: usize,
    pub(crate) sums: Row<u64>,
}

impl VolumeTable {
    /// No volume yet, of any CPU.
    pub(crate) fn make(alloc: Global, cpus: usize, width: usize) -> Result<VolumeTable, Memory>
        requires { cpus * width < 2 ^ 32 }
        ensures { IfOk result (λ table. table ≡ record { width = width; sums = replicate (cpus * width) 0 }) }
    {
        Ok(VolumeTable {
            width,
            sums: Row::filled(alloc, cpus * width, 0)?,
        })
    }

    /// A CPU's volume on a thing with a size more, unless it would exceed 2^48.
    #[inline(always)]
    pub(crate) fn with_size(
        &self,
        cpu: CpuId,
        thing: u32,
        size: u64,
    ) -> Result<NewVolume, LineCause>
        requires { HasCell self.now cpu.number thing }
        ensures { result ≡ if nat_lt most_volume (volume_at self.now cpu.number thing + size)
            then Err Overflow else Ok (new_volume self.now cpu.number thing size) }
    {
        let index = cpu.number as usize * self.width + thing as usize;
        let volume = self.sums.get(index).saturating_add(size);
        if volume > MOST_VOLUME {
            return Err(LineCause::Overflow);
        }
        Ok(NewVolume { index, volume })
    }

    /// Puts a volume in the place of another.
    #[inline(always)]
    pub(crate) fn put(&mut self, new: NewVolume)
        requires { new.index < length self.old.sums }
        ensures { self.new ≡ with_new_volume self.old new }
    {
        self.sums.set(new.index, new.volume);
    }
}
