ghost use Rattle.std.specs.Prelude.{◌≡◌, ◌∷◌, ◌++◌, [], IfOk, map};
ghost use Rattle.vms_group_lines.specs.HeadLines.{are_magic, cpus_line, declaring_line, go_row, group_row, magic_line};
ghost use Rattle.vms_group_lines.specs.HeadLines.{stage_line, with_cpus, with_group};
ghost use Rattle.vms_group_lines.specs.Stages.{IsGroupDraft, IsGroupStage, first_draft};
ghost use Rattle.vms_group_lines.specs.Steps.{IsRead};

use crate::names::{group_field, has_name};
use crate::stages::{GroupStage, HeadStep};
use crate::{GroupCause, GroupHeader, GroupReadError};
use std::alloc::Global;
use vms_base::{Memory, Row};
use vms_group_core::Tree;
use vms_text::{is_name, read_unsigned};

/// The most groups of a trace.
const MOST_GROUPS: usize = 64;

/// Reads the words of a line that isn't ignored; `clean` says whether each of its bytes is one of a trace.
pub(crate) fn stage_line(
    alloc: Global,
    stage: GroupStage,
    clean: bool,
    words: &[&[u8]],
) -> Result<HeadStep, GroupReadError>
    requires { IsGroupStage stage }
    ensures { IsRead (stage_line stage clean (map (λ word. word.now) words.now)) result }
{
    match stage {
        GroupStage::Opening => Ok(magic_line(clean, words)?),
        GroupStage::Versioned => {
            if clean {
                cpus_line(alloc, words)
            } else {
                Err(GroupReadError::Refused(GroupCause::Malformed))
            }
        }
        GroupStage::Declaring(header) => {
            if clean {
                declaring_line(alloc, header, words)
            } else {
                Err(GroupReadError::Refused(GroupCause::Malformed))
            }
        }
    }
}

/// Reads `vmgroups 1`.
fn magic_line(clean: bool, words: &[&[u8]]) -> Result<HeadStep, GroupCause>
    ensures { result ≡ magic_line clean (map (λ word. word.now) words.now) }
{
    if !are_magic(words) {
        return Err(GroupCause::BadMagic);
    }
    if !clean {
        return Err(GroupCause::Malformed);
    }
    Ok(HeadStep::Goes(GroupStage::Versioned))
}

fn are_magic(words: &[&[u8]]) -> bool
    ensures { result ≡ are_magic (map (λ word. word.now) words.now) }
{
    words.len() == 2 && words[0] == b"vmgroups".as_slice() && words[1] == b"1".as_slice()
}

/// Reads `cpus N`.
fn cpus_line(alloc: Global, words: &[&[u8]]) -> Result<HeadStep, GroupReadError>
    ensures { IsRead (cpus_line (map (λ word. word.now) words.now)) result }
{
    if words.len() != 2 {
        return Err(GroupReadError::Refused(GroupCause::Malformed));
    }
    cpus_of(alloc, words[0], words[1])
}

fn cpus_of(alloc: Global, word: &[u8], number: &[u8]) -> Result<HeadStep, GroupReadError>
    ensures { IsRead (cpus_line (word.now ∷ number.now ∷ [])) result }
{
    if word != b"cpus".as_slice() {
        return Err(GroupReadError::Refused(GroupCause::Malformed));
    }
    let cpus = read_unsigned(number).ok_or(GroupCause::BadNumber)?;
    with_cpus(alloc, cpus)
}

fn with_cpus(alloc: Global, cpus: u64) -> Result<HeadStep, GroupReadError>
    ensures { IsRead (with_cpus cpus) result }
{
    if 1 <= cpus && cpus <= 64 {
        Ok(HeadStep::Goes(GroupStage::Declaring(first_draft(alloc, cpus as u32))))
    } else {
        Err(GroupReadError::Refused(GroupCause::BadCpus))
    }
}

/// So many CPUs, and no group yet.
fn first_draft(alloc: Global, cpus: u32) -> GroupHeader
    ensures { result ≡ first_draft cpus }
{
    GroupHeader {
        tree: Tree {
            parents: Row::make(Vec::new(alloc)),
            cpus,
        },
        names: Row::make(Vec::new(alloc)),
    }
}

/// Reads a line after `cpus`.
fn declaring_line(
    alloc: Global,
    header: GroupHeader,
    words: &[&[u8]],
) -> Result<HeadStep, GroupReadError>
    requires { IsGroupDraft header }
    ensures { IsRead (declaring_line header (map (λ word. word.now) words.now)) result }
{
    match words {
        [] => Err(GroupReadError::Refused(GroupCause::Malformed)),
        [word, fields @ ..] => verb_line(alloc, header, word, fields),
    }
}

/// Reads a line of this first word.
fn verb_line(
    alloc: Global,
    header: GroupHeader,
    word: &[u8],
    fields: &[&[u8]],
) -> Result<HeadStep, GroupReadError>
    requires { IsGroupDraft header }
    ensures { IsRead (declaring_line header (word.now ∷ map (λ field. field.now) fields.now)) result }
{
    if word == b"group".as_slice() {
        let header = group_row(alloc, header, fields)?;
        Ok(HeadStep::Goes(GroupStage::Declaring(header)))
    } else if word == b"go".as_slice() {
        Ok(go_row(header, fields)?)
    } else {
        Err(GroupReadError::Refused(GroupCause::Malformed))
    }
}

/// Reads `go`.
fn go_row(header: GroupHeader, fields: &[&[u8]]) -> Result<HeadStep, GroupCause>
    ensures { result ≡ go_row header (map (λ field. field.now) fields.now) }
{
    if !fields.is_empty() {
        return Err(GroupCause::Malformed);
    }
    if header.tree.parents.len() == 0 {
        return Err(GroupCause::Malformed);
    }
    Ok(HeadStep::Ends(header))
}

/// Reads `group NAME` or `group NAME PARENT`.
fn group_row(
    alloc: Global,
    header: GroupHeader,
    fields: &[&[u8]],
) -> Result<GroupHeader, GroupReadError>
    requires { IsGroupDraft header }
    ensures { IsRead (group_row header (map (λ field. field.now) fields.now)) result }
{
    match fields {
        [name] => top_group(alloc, header, name),
        [name, parent] => child_group(alloc, header, name, parent),
        _ => Err(GroupReadError::Refused(GroupCause::Malformed)),
    }
}

/// Reads `NAME` after `group`.
fn top_group(alloc: Global, header: GroupHeader, name: &[u8]) -> Result<GroupHeader, GroupReadError>
    ensures { IsRead (group_row header (name.now ∷ [])) result }
{
    if is_name(name) {
        with_group(alloc, header, name, None)
    } else {
        Err(GroupReadError::Refused(GroupCause::BadName))
    }
}

/// Reads `NAME PARENT` after `group`.
fn child_group(
    alloc: Global,
    header: GroupHeader,
    name: &[u8],
    parent: &[u8],
) -> Result<GroupHeader, GroupReadError>
    requires { IsGroupDraft header }
    ensures { IsRead (group_row header (name.now ∷ parent.now ∷ [])) result }
{
    if is_name(name) {
        let parent = group_field(&header, parent)?;
        with_group(alloc, header, name, Some(parent))
    } else {
        Err(GroupReadError::Refused(GroupCause::BadName))
    }
}

/// Declares one group more, unless another has its name or there are 64.
fn with_group(
    alloc: Global,
    header: GroupHeader,
    name: &[u8],
    parent: Option<u32>,
) -> Result<GroupHeader, GroupReadError>
    ensures { IsRead (with_group header name.now parent) result }
{
    if has_name(header.names.as_slice(), name) {
        return Err(GroupReadError::Refused(GroupCause::DoubledGroup));
    }
    if header.tree.parents.len() >= MOST_GROUPS {
        return Err(GroupReadError::Refused(GroupCause::TooManyGroups));
    }
    let GroupHeader { tree, names } = header;
    Ok(GroupHeader {
        tree: Tree {
            parents: with_one_more(tree.parents, parent)?,
            cpus: tree.cpus,
        },
        names: with_one_more(names, Row::from_slice(alloc, name)?)?,
    })
}

/// The row with one item more.
fn with_one_more<T: Drop>(row: Row<T>, item: T) -> Result<Row<T>, Memory>
    ensures { IfOk result (λ longer. longer ≡ row ++ item ∷ []) }
{
    let mut items = row.into_items();
    items.push(item).map_err(Memory::from)?;
    Ok(Row::make(items))
}
