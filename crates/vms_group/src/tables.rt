ghost use Rattle.std.specs.Prelude.{◌≡◌, ℕ, ◌+◌, ◌*◌, ◌≤◌, ◌<◌, ◌++◌, ◌^◌, pos, false, [], length, IfOk, OnOk};
ghost use Rattle.std.specs.Prelude.{slice_index, slice_index_or};
ghost use Rattle.vms_history.specs.Common.{signed_of_word, lives_in, cell};
ghost use Rattle.vms_group_core.specs.Common.{IsBase, IsTree, IsGroup, IsTreeCpu, group_count, state_after, role};
ghost use Rattle.vms_group.specs.SharedWords.{shown, row_of, pending_place, word_count};
ghost use Rattle.vms_seats.specs.Common.{IsFrom};

use crate::ledgers::SharedGroups;
use crate::places::{GAP, row_width};
use std::alloc::Global;
use std::marker::Model;
use vms_base::{Memory, Row, decode, encode};
use vms_group_core::{GroupFacts, GroupState, Tree};
use vms_seats::{Closing, History, Main, Words};

/// The main pass of a tree of groups, which begins and ends the others.
pub type GroupMain = Main<SharedGroups>;

/// The history of a phase on a tree of groups, which is legal and complete. It stores no event.
pub type GroupHistory = History<SharedGroups>;

/// A tree of groups while threads change it. Contracts see which words it has, and the facts that its history begins
/// with: the tree, and the words at the start.
#[derive(Drop)]
pub struct GroupTable {
    pub(crate) facts: GroupFacts,
    pub(crate) words: Words<SharedGroups>,
}

impl Model for GroupTable {
    ghost use Rattle.vms_group_core.specs.declared.steps.GroupFacts.{GroupFacts};
    ghost use Rattle.vms_seats.specs.Common.{Shared};
    ghost use Rattle.vms_group.specs.SharedWords.{AreMadeFor};

    ghost Value = { Shared GroupFacts };

    ghost view = { λ t. t.words };

    ghost invariant = { λ t. AreMadeFor t.facts t.words };
}

impl GroupTable {
    /// The groups of a tree with these words. All memory of a phase is taken here.
    pub fn make(
        alloc: Global,
        tree: &Tree,
        base: &GroupState,
    ) -> Result<(GroupTable, GroupMain), Memory>
        requires { IsBase (record { tree = tree.now; base = base.now }) }
        ensures table { IfOk result (λ made. made.0.facts ≡ record { tree = tree.now; base = base.now }) }
        ensures main { IfOk result (λ made. IsFrom made.1 made.0 × (made.1.seen ≡ [])) }
    {
        let facts = opening_facts(alloc, tree, base)?;
        let first = opening_words(alloc, &facts)?;
        let (words, main) = Words::make(alloc, &facts, first.as_slice())?;
        Ok((GroupTable { facts, words }, main))
    }

    /// The tree.
    #[inline]
    pub fn tree(&self) -> &Tree
        ensures { result.now ≡ self.now.facts.tree }
    {
        &self.facts.tree
    }

    /// Closes the words, once every other pass has ended, and writes what they are then. The history is what the main
    /// pass has seen.
    pub fn close(self, main: GroupMain, into: &mut GroupState) -> GroupHistory
        requires table { IsFrom main self }
        requires ended { (q : ℕ) → lives_in role main.seen q ≡ false }
        ensures history { result ≡ record { facts = self.facts; events = main.seen } }
        ensures state { into.new ≡ state_after self.facts main.seen }
    {
        let GroupTable { facts, words } = self;
        let GroupFacts { tree, base } = facts;
        let GroupState {
            mut value,
            mut up,
            mut pending,
        } = base;
        let groups = tree.parents.len();
        let closing = words.close(main);
        fill(&closing, 0, &mut value, 0, groups);
        fill(&closing, row_width(&tree), &mut up, 0, groups);
        fill_cpus(&closing, &tree, &mut pending);
        *into = GroupState { value, up, pending };
        closing.leave()
    }
}

/// What a phase on a tree of groups begins with.
fn opening_facts(alloc: Global, tree: &Tree, base: &GroupState) -> Result<GroupFacts, Memory>
    ensures { IfOk result (λ facts. facts ≡ record { tree = tree.now; base = base.now }) }
{
    let parents = Row::from_slice(alloc, tree.parents.as_slice())?;
    let value = Row::from_slice(alloc, base.value.as_slice())?;
    let up = Row::from_slice(alloc, base.up.as_slice())?;
    let pending = Row::from_slice(alloc, base.pending.as_slice())?;
    Ok(GroupFacts {
        tree: Tree {
            parents,
            cpus: tree.cpus,
        },
        base: GroupState { value, up, pending },
    })
}

/// The words that show a base.
fn opening_words(alloc: Global, facts: &GroupFacts) -> Result<Vec<u64>, Memory>
    requires { IsBase facts.now }
    ensures { IfOk result (λ words. words.items ≡ shown facts.now facts.now.base) }
{
    let base = &facts.base;
    let groups = facts.tree.parents.len();
    let pending = base.pending.as_slice();
    let mut words = Vec::new(alloc);
    push_row(&mut words, base.value.as_slice())?;
    push_row(&mut words, base.up.as_slice())?;
    for cpu in 0..facts.tree.cpus as usize {
        let start = cpu * groups;
        push_row(&mut words, &pending[start..start + groups])?;
    }
    Ok(words)
}

/// Appends the words of numbers, and the words that stay 0 after them.
fn push_row(words: &mut Vec<u64>, numbers: &[i64]) -> Result<(), Memory>
    ensures { OnOk result (words.new.items ≡ words.old.items ++ row_of numbers.now) }
{
    for number in numbers {
        words.push(encode(*number))?;
    }
    words.extend_from_slice(&[0; GAP])?;
    Ok(())
}

/// Fills `count` numbers of a row, from `at` on, with those in the words from `start` on.
fn fill(closing: &Closing<SharedGroups>, start: usize, row: &mut Row<i64>, at: usize, count: usize)
    requires within { start + count
        ≤ length (shown closing.now.facts (state_after closing.now.facts closing.now.events)) }
    requires room { at + count ≤ length row.old }
    requires fits { (start + count < 2 ^ 64) × (at + count < 2 ^ 64) }
    ensures len { length row.new ≡ length row.old }
    ensures each { (n : ℕ) → n < count → slice_index_or row.new (at + n) (pos 0) ≡ signed_of_word
        (slice_index (shown closing.now.facts (state_after closing.now.facts closing.now.events)) (start + n)) }
    ensures before { (n : ℕ) → n < at → slice_index_or row.new n (pos 0) ≡ slice_index_or row.old n (pos 0) }
{
    for n in 0..count {
        row.set(at + n, decode(closing.word(start + n)));
    }
}

/// Fills what is pending from CPUs with the numbers in the words of all CPUs.
fn fill_cpus(closing: &Closing<SharedGroups>, tree: &Tree, pending: &mut Row<i64>)
    requires tree { IsTree tree.now }
    requires within { word_count tree.now
        ≤ length (shown closing.now.facts (state_after closing.now.facts closing.now.events)) }
    requires room { length pending.old ≡ tree.now.cpus * group_count tree.now }
    ensures len { length pending.new ≡ length pending.old }
    ensures each { (c g : ℕ) → IsTreeCpu tree.now c → IsGroup tree.now g →
        slice_index_or pending.new (cell (group_count tree.now) c g) (pos 0) ≡ signed_of_word (slice_index
        (shown closing.now.facts (state_after closing.now.facts closing.now.events)) (pending_place tree.now c g)) }
{
    let groups = tree.parents.len();
    let width = row_width(tree);
    for cpu in 0..tree.cpus as usize {
        let start = 2 * width + cpu * width;
        fill(closing, start, pending, cpu * groups, groups);
    }
}
