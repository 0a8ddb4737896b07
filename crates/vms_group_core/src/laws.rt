ghost use Rattle.std.specs.Prelude.{◌≡◌, ◌≢◌, ◌≤◌, ℕ, ◌<◌, pos, ◌+ℤ◌, true, false, Some, None, List, [], ◌++◌};
ghost use Rattle.vms_history.specs.Common.{CpuId, own, after, total, begun_in, lives_in, owner_in};
ghost use Rattle.vms_group_core.specs.declared.steps.GroupFacts.{GroupFacts};
ghost use Rattle.vms_group_core.specs.declared.steps.GroupStep.{GroupStep};
ghost use Rattle.vms_group_core.specs.declared.trees.Tree.{Tree};
ghost use Rattle.vms_group_core.specs.Trees.{IsTree, IsGroup, parent_of, in_subtree};
ghost use Rattle.vms_group_core.specs.Words.{size_of};
ghost use Rattle.vms_group_core.specs.Totals.{changed, spent};
ghost use Rattle.vms_group_core.specs.Steps.{role};
ghost use Rattle.vms_group_core.specs.Histories.{History, IsLegal, IsComplete};
ghost use Rattle.vms_group_core.specs.Laws.{KeepsLaws};
ghost use Rattle.vms_group_core.specs.Endings.{HoldsTotals, LeavesRoom, BeginsAgain, IsPaid, StaysWithinVolumes};
ghost use Rattle.vms_group_core.specs.Endings.{ending, spent_by_now};
ghost use Rattle.vms_group_core.specs.CallLaws.{HasMade, KeepsSpending};
ghost use Rattle.vms_group_core.specs.Bases.{IsBase, fresh};

/// A group is in its own subtree. Any other group is in it if its parent is, and a group without a parent or one that
/// is declared above is not.
pub fn subtrees_go_by_parents()
    ensures itself { (tree : Tree) (g : ℕ) → IsTree tree → IsGroup tree g → in_subtree tree g g ≡ true }
    ensures child { (tree : Tree) (g x y : ℕ) → IsTree tree → IsGroup tree x → x ≢ g →
        parent_of tree x ≡ Some y → in_subtree tree g x ≡ in_subtree tree g y }
    ensures top { (tree : Tree) (g x : ℕ) → IsTree tree → IsGroup tree x → x ≢ g →
        parent_of tree x ≡ None → in_subtree tree g x ≡ false }
    ensures above { (tree : Tree) (g x : ℕ) → IsTree tree → IsGroup tree x → x < g →
        in_subtree tree g x ≡ false }
{}

/// All laws of a tree of groups hold at every moment of a legal history, after each of its steps.
pub fn laws_are_kept()
    ensures { (facts : GroupFacts) (more h : History) → IsLegal facts (more ++ h) → KeepsLaws facts h }
{}

/// Once every pass has ended, nobody carries anything, and a group's value and what is pending in its subtree are its
/// true total.
pub fn complete_histories_hold_totals()
    ensures { (facts : GroupFacts) (h : History) → IsComplete facts h → HoldsTotals facts h }
{}

/// A complete history leaves a base, with which the next history may begin, as long as its words are small. They are
/// where all histories together keep to the CPUs' volumes.
pub fn complete_histories_leave_bases()
    ensures small { (facts : GroupFacts) (h : History) → IsComplete facts h → LeavesRoom facts h →
        BeginsAgain facts h }
    ensures within_volumes { (facts : GroupFacts) (h : History) (earlier : ℕ → ℕ → ℕ) → IsComplete facts h →
        IsPaid facts earlier → StaysWithinVolumes facts earlier h →
        BeginsAgain facts h × IsPaid (ending facts h) (spent_by_now earlier h) }
{}

/// Words that are all 0 are a base for any tree, and nothing was spent for them.
pub fn zeros_are_a_base()
    ensures base { (tree : Tree) → IsTree tree → IsBase (fresh tree) }
    ensures paid { (tree : Tree) → IsTree tree → IsPaid (fresh tree) (λ c g. 0) }
{}

/// While a pass owns a CPU, the CPU spends what the pass's own steps change in size, and no more.
pub fn owners_spend_by_own_steps()
    ensures { (facts : GroupFacts) (later earlier : History) (p : ℕ) (steps : List GroupStep) (c : CpuId) →
        HasMade facts later earlier p steps → owner_in role earlier p ≡ Some c →
        (g : ℕ) → pos (spent later c.number g)
        ≡ pos (spent earlier c.number g) +ℤ total (changed size_of g) (after p steps []) }
{}

/// While a pass that owns a CPU lives, what the CPU has spent is known to the pass: no step of others changes it.
pub fn spending_is_known()
    ensures { (facts : GroupFacts) (m h : History) (p : ℕ) → IsLegal facts (m ++ h) →
        lives_in role (m ++ h) p ≡ true → p ≤ begun_in role h → own m p ≡ [] → KeepsSpending (m ++ h) h p }
{}
