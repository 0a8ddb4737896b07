ghost use Rattle.std.specs.Prelude.{◌≡◌, ◌≤◌, ◌*◌, ◌^◌, pos, unsigned_abs, if◌then◌else◌};
ghost use Rattle.vms_group_core.specs.Common.{HasShape, IsGroup, IsTree, IsTreeCpu, as_is, in_subtree};
ghost use Rattle.vms_group_core.specs.Common.{pending_at as pending_word, pending_of as pending_words};
ghost use Rattle.vms_group_report.specs.Reports.{pending_under as pending_below};

use vms_group_core::{GroupState, Tree};

/// What is pending in the subtree of a group, from all CPUs and from children.
pub(crate) fn pending_under(tree: &Tree, words: &GroupState, group: u32) -> i128
    requires tree { IsTree tree.now }
    requires shaped { HasShape tree.now words.now }
    ensures value { result ≡ pending_below tree.now words.now group }
    ensures bound { unsigned_abs result ≤ 2 ^ 80 }
{
    let mut sum: i128 = 0;
    for number in 0..tree.parents.len() {
        sum += pending_within(tree, words, group, number as u32);
    }
    sum
}

/// What is pending for a group that is in the subtree of another, and nothing for a group that isn't.
fn pending_within(tree: &Tree, words: &GroupState, top: u32, group: u32) -> i128
    requires tree { IsTree tree.now }
    requires shaped { HasShape tree.now words.now }
    requires group { IsGroup tree.now group }
    ensures value { result
        ≡ (if in_subtree tree.now top group then pending_words as_is tree.now words.now group else pos 0) }
    ensures bound { unsigned_abs result ≤ 65 * 2 ^ 63 }
{
    if is_in_subtree(tree, top, group) {
        pending_of(tree, words, group)
    } else {
        0
    }
}

/// Whether a group is in the subtree of another.
fn is_in_subtree(tree: &Tree, top: u32, group: u32) -> bool
    requires tree { IsTree tree.now }
    requires group { IsGroup tree.now group }
    ensures { result ≡ in_subtree tree.now top group }
{
    if group == top {
        return true;
    }
    match tree.parents.get(group as usize) {
        None => false,
        Some(parent) => is_in_subtree(tree, top, parent),
    }
}

/// What is pending for a group from all CPUs and from its children.
fn pending_of(tree: &Tree, words: &GroupState, group: u32) -> i128
    requires tree { IsTree tree.now }
    requires shaped { HasShape tree.now words.now }
    requires group { IsGroup tree.now group }
    ensures value { result ≡ pending_words as_is tree.now words.now group }
    ensures bound { unsigned_abs result ≤ 65 * 2 ^ 63 }
{
    let mut sum = i128::from(words.up.get(group as usize));
    for cpu in 0..tree.cpus {
        sum += pending_at(tree, words, cpu, group);
    }
    sum
}

/// What is pending for a group from a CPU.
fn pending_at(tree: &Tree, words: &GroupState, cpu: u32, group: u32) -> i128
    requires tree { IsTree tree.now }
    requires shaped { HasShape tree.now words.now }
    requires cpu { IsTreeCpu tree.now cpu }
    requires group { IsGroup tree.now group }
    ensures value { result ≡ pending_word tree.now words.now cpu group }
    ensures bound { unsigned_abs result ≤ 2 ^ 63 }
{
    let at = cpu as usize * tree.parents.len() + group as usize;
    i128::from(words.pending.get(at))
}
