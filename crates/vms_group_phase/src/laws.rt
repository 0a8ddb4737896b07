ghost use Rattle.std.specs.Prelude.{◌≡◌, ℕ, List, ◌+ℤ◌};
ghost use Rattle.vms_history.specs.Common.{Extends};
ghost use Rattle.vms_group_core.specs.declared.trees.Tree.{Tree};
ghost use Rattle.vms_group_core.specs.Common.{History, IsGroup, IsTree, KeepsLaws, state_after, value_at};
ghost use Rattle.vms_group_phase.specs.declared.items.GroupItem.{GroupItem};
ghost use Rattle.vms_group_phase.specs.declared.worlds.GroupWorld.{GroupWorld};
ghost use Rattle.vms_group_phase.specs.Phases.{IsGroupPhase};
ghost use Rattle.vms_group_phase.specs.Lines.{plain_group_sum};
ghost use Rattle.vms_group_phase.specs.Worlds.{FitGroups, IsGroupWorld, first_group_world, group_facts};
ghost use Rattle.vms_group_phase.specs.Worlds.{left_group_world, pending_in};

use vms_group_core::{
    complete_histories_hold_totals, complete_histories_leave_bases, laws_are_kept, zeros_are_a_base,
};

/// At every moment of a phase all laws of a tree of groups hold.
pub fn group_phases_keep_laws()
    ensures { (tree : Tree) (w : GroupWorld) (items : List GroupItem) (h moment : History) →
        IsGroupPhase tree w items h → Extends h moment → KeepsLaws (group_facts tree w) moment }
{
    laws_are_kept();
}

/// A phase may begin with the first world, and with the one that a phase of fitting lines leaves.
pub fn group_phases_lead_on()
    ensures first { (tree : Tree) → IsTree tree → IsGroupWorld tree (first_group_world tree) }
    ensures next { (tree : Tree) (w : GroupWorld) (items : List GroupItem) (h : History) → IsGroupWorld tree w →
        FitGroups tree w items → IsGroupPhase tree w items h →
        IsGroupWorld tree (left_group_world tree w items h) }
{
    zeros_are_a_base();
    complete_histories_leave_bases();
}

/// Whatever the interleaving, a phase adds to the value of a group and what is pending in its subtree the plain sum of
/// the changes that its lines make there.
pub fn group_phases_add_their_lines()
    ensures { (tree : Tree) (w : GroupWorld) (items : List GroupItem) (h : History) → FitGroups tree w items →
        IsGroupPhase tree w items h → (g : ℕ) → IsGroup tree g →
        value_at (state_after (group_facts tree w) h) g +ℤ pending_in tree (state_after (group_facts tree w) h) g
        ≡ value_at w.words g +ℤ pending_in tree w.words g +ℤ plain_group_sum tree items g }
{
    complete_histories_hold_totals();
}
