ghost use Rattle.std.specs.Prelude.{◌≢◌, ℕ, ◌+◌};
ghost use Rattle.vms_group_core.specs.declared.steps.GroupFacts.{GroupFacts};
ghost use Rattle.vms_group_core.specs.declared.steps.GroupStep.{GroupStep};
ghost use Rattle.vms_group_core.specs.declared.trees.Tree.{Tree};
ghost use Rattle.vms_group_core.specs.Common.{History, IsGroup, IsLegal, KeepsLaws};
ghost use Rattle.vms_history.specs.Common.{Extends};
ghost use Rattle.vms_group.specs.SharedWords.{line_of, pending_place, up_place};
ghost use Rattle.vms_seats.specs.Common.{Pass};

use crate::passes::GroupPass;
use crate::tables::GroupMain;
use vms_group_core::laws_are_kept;

/// A pass of a tree of groups: one that owns a CPU, or the main pass.
pub trait AnyGroupPass {
    // The pass that it is.
    ghost pass: { Self → Pass GroupFacts GroupStep };

    /// What a pass has seen is legal.
    fn has_seen_legal(&self)
        ensures { IsLegal (pass self.now).facts (pass self.now).seen };
}

impl AnyGroupPass for GroupPass {
    ghost pass = { λ p. p.pass };

    fn has_seen_legal(&self) {
        self.cpu();
    }
}

impl AnyGroupPass for GroupMain {
    ghost pass = { λ p. p };

    fn has_seen_legal(&self) {
        self.is_main();
    }
}

/// While others act too, at every moment of what a pass has seen, no change is lost and none is counted twice: the
/// value of a group, what is pending in its subtree and what callers carry there add up to what stood there in the base
/// and all changes since. So it is with the other laws of a tree of groups.
pub fn totals_are_kept<P: AnyGroupPass>(pass: &P)
    ensures { (moment : History) → Extends (P.pass pass.now).seen moment →
        KeepsLaws (P.pass pass.now).facts moment }
{
    pass.has_seen_legal();
    laws_are_kept();
}

/// Words that two CPUs change stand in two lines of 64 bytes, in whichever word of a line the first word of the tree
/// stands. Neither stands in a line with a value, nor with what is pending from children.
pub fn cpus_share_no_line()
    ensures cpus { (tree : Tree) (start c d g k : ℕ) → IsGroup tree g → IsGroup tree k → c ≢ d →
        line_of (start + pending_place tree c g) ≢ line_of (start + pending_place tree d k) }
    ensures values { (tree : Tree) (start c g k : ℕ) → IsGroup tree g → IsGroup tree k →
        line_of (start + pending_place tree c g) ≢ line_of (start + k) }
    ensures children { (tree : Tree) (start c g k : ℕ) → IsGroup tree g → IsGroup tree k →
        line_of (start + pending_place tree c g) ≢ line_of (start + up_place tree k) }
{}
