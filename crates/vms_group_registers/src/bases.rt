//! Whether a history may begin with facts.

ghost use Rattle.std.specs.Prelude.{◌≡◌, ◌↔◌, ◌<◌, ◌≤◌, ◌+◌, ◌*◌, ◌^◌, ℕ, pos, ◌≤ℤ◌, Some, IsTrue, if◌then◌else◌};
ghost use Rattle.vms_group_core.specs.Common.{HasShape, IsBase, IsGroup, IsTree, in_subtree as in_subtree_of};
ghost use Rattle.vms_group_core.specs.Common.{most_in_base, parent_of, pending_at, pending_of, size_of};
ghost use Rattle.vms_group_core.specs.Common.{standing as standing_of};

use vms_group_core::{GroupFacts, GroupState, Tree};

/// What the sizes of all that stands in a subtree may come to.
const MOST_IN_BASE: u128 = 1 << 60;

/// Whether a history may begin with these facts.
pub(crate) fn is_base(facts: &GroupFacts) -> bool
    ensures { IsTrue result ↔ IsBase facts.now }
{
    if !is_tree(&facts.tree) {
        return false;
    }
    if !is_shaped(&facts.tree, &facts.base) {
        return false;
    }
    sums_fit(facts)
}

fn is_tree(tree: &Tree) -> bool
    ensures { IsTrue result ↔ IsTree tree.now }
{
    let groups = tree.parents.len();
    if groups < 1 || groups > 64 {
        return false;
    }
    if tree.cpus < 1 || tree.cpus > 64 {
        return false;
    }
    parents_above(tree)
}

fn parents_above(tree: &Tree) -> bool
    ensures { IsTrue result ↔ ((g : ℕ) (parent : ℕ) → parent_of tree.now g ≡ Some parent → parent < g) }
{
    for group in 0..tree.parents.len() {
        if !parent_above(tree, group) {
            return false;
        }
    }
    true
}

fn parent_above(tree: &Tree, group: usize) -> bool
    requires { IsGroup tree.now group }
    ensures { IsTrue result ↔ ((parent : ℕ) → parent_of tree.now group ≡ Some parent → parent < group) }
{
    match tree.parents.get(group) {
        Some(parent) => (parent as usize) < group,
        None => true,
    }
}

fn is_shaped(tree: &Tree, base: &GroupState) -> bool
    requires { IsTree tree.now }
    ensures { IsTrue result ↔ HasShape tree.now base.now }
{
    let groups = tree.parents.len();
    if base.value.len() != groups {
        return false;
    }
    if base.up.len() != groups {
        return false;
    }
    base.pending.len() == tree.cpus as usize * groups
}

fn sums_fit(facts: &GroupFacts) -> bool
    requires tree { IsTree facts.now.tree }
    requires shaped { HasShape facts.now.tree facts.now.base }
    ensures { IsTrue result ↔ ((g : ℕ) → IsGroup facts.now.tree g →
        standing_of size_of facts.now.tree facts.now.base g ≤ℤ pos most_in_base) }
{
    for group in 0..facts.tree.parents.len() {
        if standing(facts, group) > MOST_IN_BASE {
            return false;
        }
    }
    true
}

/// The sizes of a group's value and of all that is pending in its subtree, in sum.
fn standing(facts: &GroupFacts, group: usize) -> u128
    requires tree { IsTree facts.now.tree }
    requires shaped { HasShape facts.now.tree facts.now.base }
    requires group { IsGroup facts.now.tree group }
    ensures { pos result ≡ standing_of size_of facts.now.tree facts.now.base group }
{
    let mut sum = facts.base.value.get(group).unsigned_abs() as u128;
    for below in 0..facts.tree.parents.len() {
        sum += standing_in(facts, group, below);
    }
    sum
}

/// The sizes of what is pending for a group, where it is in the subtree of another, and else 0.
fn standing_in(facts: &GroupFacts, group: usize, below: usize) -> u128
    requires tree { IsTree facts.now.tree }
    requires shaped { HasShape facts.now.tree facts.now.base }
    requires below { IsGroup facts.now.tree below }
    ensures value { pos result ≡ (if in_subtree_of facts.now.tree group below
        then pending_of size_of facts.now.tree facts.now.base below else pos 0) }
    ensures most { result ≤ 2 ^ 70 }
{
    if in_subtree(&facts.tree, group, below) {
        pending(facts, below)
    } else {
        0
    }
}

/// The sizes of what is pending for a group from all CPUs and from its children.
fn pending(facts: &GroupFacts, group: usize) -> u128
    requires tree { IsTree facts.now.tree }
    requires shaped { HasShape facts.now.tree facts.now.base }
    requires group { IsGroup facts.now.tree group }
    ensures value { pos result ≡ pending_of size_of facts.now.tree facts.now.base group }
    ensures most { result ≤ 2 ^ 70 }
{
    let mut sum = facts.base.up.get(group).unsigned_abs() as u128;
    for cpu in 0..facts.tree.cpus {
        sum += pending_from(facts, cpu, group) as u128;
    }
    sum
}

fn pending_from(facts: &GroupFacts, cpu: u32, group: usize) -> u64
    requires shaped { HasShape facts.now.tree facts.now.base }
    requires cpu { cpu < facts.now.tree.cpus }
    requires group { IsGroup facts.now.tree group }
    ensures value { pos result ≡ size_of (pending_at facts.now.tree facts.now.base cpu group) }
    ensures most { result ≤ 2 ^ 63 }
{
    let _ = facts.base.pending.len();
    let at = cpu as usize * facts.tree.parents.len() + group;
    facts.base.pending.get(at).unsigned_abs()
}

/// Whether a group is in the subtree of another.
fn in_subtree(tree: &Tree, group: usize, below: usize) -> bool
    requires tree { IsTree tree.now }
    requires below { IsGroup tree.now below }
    ensures { result ≡ in_subtree_of tree.now group below }
{
    let mut at = below;
    while at != group {
        match tree.parents.get(at) {
            Some(parent) => at = parent as usize,
            None => return false,
        }
    }
    true
}
