ghost use Rattle.std.specs.Prelude.{◌≡◌, ◌<◌};
ghost use Rattle.vms_history.specs.Common.{IsCpu};
ghost use Rattle.vms_pcpu_core.specs.Common.{IsPcpu, counters_of};
ghost use Rattle.vms_pcpu.specs.SharedWords as words;
ghost use Rattle.vms_rows.specs.Rows as rows;

use crate::tables::PcpuTable;
use vms_base::{CpuId, PcpuId};
use vms_rows::row_width;

/// How many words the row of a counter takes, which has its shared part and its lock.
#[inline]
pub(crate) fn pair_width() -> usize
    ensures { result ≡ rows.row_width 2 }
{
    row_width(2)
}

impl PcpuTable {
    /// Where the word of a counter's shared part stands.
    #[inline]
    pub(crate) fn count_place(&self, counter: PcpuId) -> usize
        requires { IsPcpu self.now.facts counter.number }
        ensures place { result ≡ words.count_place counter.number }
        ensures within { result < self.now.table.words }
    {
        let row = counter.number as usize;
        prove!(row < self.facts.base.batch.len());
        row * pair_width()
    }

    /// Where the word of a counter's lock stands.
    #[inline]
    pub(crate) fn lock_place(&self, counter: PcpuId) -> usize
        requires { IsPcpu self.now.facts counter.number }
        ensures place { result ≡ words.lock_place counter.number }
        ensures within { result < self.now.table.words }
    {
        let row = counter.number as usize;
        prove!(row < self.facts.base.batch.len());
        row * pair_width() + 1
    }

    /// Where the word of a CPU's local part stands.
    #[inline]
    pub(crate) fn local_place(&self, cpu: CpuId, counter: PcpuId) -> usize
        requires counter { IsPcpu self.now.facts counter.number }
        requires cpu { IsCpu self.now.facts.layout cpu.number }
        ensures place { result ≡ words.local_place (counters_of self.now.facts.base) cpu.number counter.number }
        ensures within { result < self.now.table.words }
    {
        let counters = self.facts.base.batch.len();
        counters * pair_width()
            + (cpu.number as usize * row_width(counters) + counter.number as usize)
    }
}
