ghost use Rattle.std.specs.Prelude.{◌≡◌, ◌≤◌, ◌++◌, ◌+ℤ◌, ◌^◌, length, unsigned_abs, OnErr, OnOk};
ghost use Rattle.vms_group_core.specs.Common.{HasShape, IsGroup, IsTree, as_is, group_count, standing, value_at};
ghost use Rattle.vms_group_report.specs.Reports.{group_lines, group_words, pending_under as pending_below};
ghost use Rattle.vms_text.specs.Common.{sentence, Begins};

use crate::pendings::pending_under;
use itoa::Buffer;
use vms_base::{Memory, Name};
use vms_group_core::{GroupState, Tree};
use vms_text::{Word, write_words};

/// Appends a line for each group of a tree, in order of declaration: `NAME value V pending P total T`, where V is the
/// group's value, P all that is pending in its subtree, and T both in sum. After a failure `out` may end in a part of
/// it.
pub fn write_group_report(
    out: &mut Vec<u8>,
    names: &[Name],
    tree: &Tree,
    words: &GroupState,
) -> Result<(), Memory>
    requires tree { IsTree tree.now }
    requires shaped { HasShape tree.now words.now }
    requires names { length names.now ≡ group_count tree.now }
    ensures ok { OnOk result (out.new.items ≡ out.old.items
        ++ group_lines names.now tree.now words.now (standing as_is tree.now words.now)) }
    ensures err { OnErr result (Begins out.old.items out.new.items) }
{
    for (number, name) in names.iter().enumerate() {
        write_group(out, name, tree, words, number as u32)?;
    }
    Ok(())
}

/// Appends the line of a group of this name.
fn write_group(
    out: &mut Vec<u8>,
    name: &Name,
    tree: &Tree,
    words: &GroupState,
    group: u32,
) -> Result<(), Memory>
    requires tree { IsTree tree.now }
    requires shaped { HasShape tree.now words.now }
    requires group { IsGroup tree.now group }
    ensures ok { OnOk result (out.new.items ≡ out.old.items ++ sentence (group_words name.now
        (value_at words.now group) (pending_below tree.now words.now group)
        (standing as_is tree.now words.now group))) }
    ensures err { OnErr result (Begins out.old.items out.new.items) }
{
    let value = words.value.get(group as usize);
    let pending = pending_under(tree, words, group);
    write_numbers(out, name.as_slice(), value, pending)
}

/// Appends `NAME value V pending P total T`, where T is V and P in sum.
fn write_numbers(out: &mut Vec<u8>, name: &[u8], value: i64, pending: i128) -> Result<(), Memory>
    requires { unsigned_abs pending ≤ 2 ^ 80 }
    ensures ok { OnOk result (out.new.items
        ≡ out.old.items ++ sentence (group_words name.now value pending (value +ℤ pending))) }
    ensures err { OnErr result (Begins out.old.items out.new.items) }
{
    let mut pending_buffer = Buffer::new();
    let mut total_buffer = Buffer::new();
    let total = i128::from(value) + pending;
    write_words(
        out,
        &[
            Word::Text(name),
            Word::Text(b"value"),
            Word::Signed(value),
            Word::Text(b"pending"),
            Word::Text(pending_buffer.format(pending).as_bytes()),
            Word::Text(b"total"),
            Word::Text(total_buffer.format(total).as_bytes()),
        ],
    )
}
