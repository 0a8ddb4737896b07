ghost use Rattle.std.specs.Prelude.{◌≡◌, ◌<◌};
ghost use Rattle.vms_group_core.specs.Common.{IsGroup, IsTreeCpu};
ghost use Rattle.vms_group.specs.SharedWords as words;

use crate::tables::GroupTable;
use vms_base::CpuId;
use vms_group_core::Tree;

/// How many words that stay 0 stand after the words of a row, so that no line of 64 bytes has words of two rows.
pub(crate) const GAP: usize = 7;

/// How many words a row takes.
#[inline]
pub(crate) fn row_width(tree: &Tree) -> usize
    ensures { result ≡ words.row_width tree.now }
{
    tree.parents.len() + GAP
}

impl GroupTable {
    /// Where the word of a group's value stands.
    #[inline]
    pub(crate) fn value_place(&self, group: u32) -> usize
        requires { IsGroup self.now.facts.tree group }
        ensures place { result ≡ group }
        ensures within { result < self.now.table.words }
    {
        let place = group as usize;
        prove!(place < self.facts.tree.parents.len());
        place
    }

    /// Where the word stands that is pending for a group from its children.
    #[inline]
    pub(crate) fn up_place(&self, group: u32) -> usize
        requires { IsGroup self.now.facts.tree group }
        ensures place { result ≡ words.up_place self.now.facts.tree group }
        ensures within { result < self.now.table.words }
    {
        row_width(&self.facts.tree) + group as usize
    }

    /// Where the word stands that is pending for a group from a CPU.
    #[inline]
    pub(crate) fn pending_place(&self, cpu: CpuId, group: u32) -> usize
        requires cpu { IsTreeCpu self.now.facts.tree cpu.number }
        requires group { IsGroup self.now.facts.tree group }
        ensures place { result ≡ words.pending_place self.now.facts.tree cpu.number group }
        ensures within { result < self.now.table.words }
    {
        let width = row_width(&self.facts.tree);
        2 * width + (cpu.number as usize * width + group as usize)
    }
}
