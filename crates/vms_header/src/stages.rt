ghost use Rattle.std.specs.Prelude.{◌≡◌, ◌^◌, ◌<◌, ◌≤◌, ◌∷◌, [], codes, if◌then◌else◌, length, map, IfOk, Ok, Err};
ghost use Rattle.std.specs.Prelude.{Result};
ghost use Rattle.arrayvec.specs.ArrayVec.{array_vec_len};
ghost use Rattle.vms_header.specs.DraftFacts.{IsStage, IsDraft};
ghost use Rattle.vms_header.specs.declared.causes.HeaderCause.{HeaderCause};
ghost use Rattle.vms_header.specs.declared.causes.HeaderCause.TheVariants.{Malformed};
ghost use Rattle.vms_header.specs.Drafts.{first_draft, most_cpus};
ghost use Rattle.vms_header.specs.Stages.{are_words, cpus_line, draft_line, go_row, going, is_due, stage_line};
ghost use Rattle.vms_header.specs.Stages.{version_line, with_cpus};
ghost use Rattle.vms_header.specs.Stages.Stage.{Versioned};
ghost use Rattle.vms_header.specs.Stages.HeadStep.{Goes};
ghost use Rattle.vms_header.specs.Sections.{any_zone_row, base_row, counter_row, item_row, watermarks_row};
ghost use Rattle.vms_header.specs.Readers.{draft_of, section_of, stage_of, step_of, IsSameRead, IsSameAnswer};

use crate::drafts::{Draft, HeadStep, Section, Stage};
use crate::sections::{any_zone_row, base_row, counter_row, item_row, watermarks_row};
use crate::values::any_number;
use crate::{HeaderCause, ReadError};
use arrayvec::ArrayVec;
use std::alloc::Global;

/// Reads the words of a line that isn't ignored; `clean` says whether each of its bytes is one of a trace.
pub(crate) fn stage_line(
    alloc: Global,
    stage: Stage,
    clean: bool,
    words: &[&[u8]],
) -> Result<HeadStep, ReadError>
    requires { IsStage (stage_of stage) }
    ensures { IsSameRead step_of
        (stage_line (stage_of stage) clean (map (λ word. word.now) words.now)) result }
{
    match stage {
        Stage::Opening => Ok(version_line(clean, words)?),
        Stage::Versioned(wide) => {
            if clean {
                cpus_line(alloc, wide, words)
            } else {
                Err(ReadError::Refused(HeaderCause::Malformed))
            }
        }
        Stage::Drafting(draft) => {
            if clean {
                draft_line(alloc, draft, words)
            } else {
                Err(ReadError::Refused(HeaderCause::Malformed))
            }
        }
    }
}

/// Reads `vmtrace 1` or `vmtrace 2`.
fn version_line(clean: bool, words: &[&[u8]]) -> Result<HeadStep, HeaderCause>
    ensures { IsSameAnswer step_of (version_line clean (map (λ word. word.now) words.now)) result }
{
    if is_version(words, b"1") {
        versioned(clean, false)
    } else if is_version(words, b"2") {
        versioned(clean, true)
    } else {
        Err(HeaderCause::BadMagic)
    }
}

fn versioned(clean: bool, wide: bool) -> Result<HeadStep, HeaderCause>
    ensures { IsSameAnswer step_of
        (if clean then Ok (Goes (Versioned wide)) else Err Malformed) result }
{
    if clean {
        Ok(HeadStep::Goes(Stage::Versioned(wide)))
    } else {
        Err(HeaderCause::Malformed)
    }
}

fn is_version(words: &[&[u8]], number: &[u8]) -> bool
    ensures { result ≡ are_words (map (λ word. word.now) words.now) (codes "vmtrace" ∷ number.now ∷ []) }
{
    words.len() == 2 && words[0] == b"vmtrace".as_slice() && words[1] == number
}

/// Reads `cpus N`.
fn cpus_line(alloc: Global, wide: bool, words: &[&[u8]]) -> Result<HeadStep, ReadError>
    ensures { IsSameRead step_of (cpus_line wide (map (λ word. word.now) words.now)) result }
{
    if words.len() != 2 {
        return Err(ReadError::Refused(HeaderCause::Malformed));
    }
    cpus_of(alloc, wide, words[0], words[1])
}

fn cpus_of(alloc: Global, wide: bool, word: &[u8], number: &[u8]) -> Result<HeadStep, ReadError>
    ensures { IsSameRead step_of (cpus_line wide (word.now ∷ number.now ∷ [])) result }
{
    if word != b"cpus".as_slice() {
        return Err(ReadError::Refused(HeaderCause::Malformed));
    }
    let cpus = any_number(number)?;
    with_cpus(alloc, wide, cpus)
}

fn with_cpus(alloc: Global, wide: bool, cpus: u64) -> Result<HeadStep, ReadError>
    ensures { IsSameRead step_of (with_cpus wide cpus) result }
{
    if 1 <= cpus && cpus <= most_cpus(wide) {
        Ok(HeadStep::Goes(Stage::Drafting(first_draft(alloc, wide, cpus as u32))))
    } else {
        Err(ReadError::Refused(HeaderCause::BadCpus))
    }
}

fn most_cpus(wide: bool) -> u64
    ensures value { result ≡ most_cpus wide }
    ensures most { result ≤ 128 }
{
    if wide { 128 } else { 64 }
}

/// The draft after the line `cpus`.
fn first_draft(alloc: Global, wide: bool, cpus: u32) -> Draft
    ensures { draft_of result ≡ first_draft wide cpus }
{
    Draft {
        wide,
        cpus,
        section: Section::Cpus,
        share: None,
        items: Vec::new(alloc),
        zones: ArrayVec::new(),
        bases: Vec::new(alloc),
        counters: Vec::new(alloc),
    }
}

/// Reads a line after `cpus`.
fn draft_line(alloc: Global, draft: Draft, words: &[&[u8]]) -> Result<HeadStep, ReadError>
    requires { IsDraft (draft_of draft) }
    ensures { IsSameRead step_of
        (draft_line (draft_of draft) (map (λ word. word.now) words.now)) result }
{
    match words {
        [] => Err(ReadError::Refused(HeaderCause::Malformed)),
        [word, fields @ ..] => verb_line(alloc, draft, word, fields),
    }
}

/// Reads a line of this first word, which has to be due.
fn verb_line(
    alloc: Global,
    draft: Draft,
    word: &[u8],
    fields: &[&[u8]],
) -> Result<HeadStep, ReadError>
    requires { IsDraft (draft_of draft) }
    ensures { IsSameRead step_of
        (draft_line (draft_of draft) (word.now ∷ map (λ field. field.now) fields.now)) result }
{
    if word == b"watermarks".as_slice() {
        if is_due(&draft, Section::Cpus) {
            watermarks_line(draft, fields)
        } else {
            Err(ReadError::Refused(HeaderCause::Malformed))
        }
    } else if word == b"item".as_slice() {
        if draft.wide && is_due(&draft, Section::Items) {
            item_line(alloc, draft, fields)
        } else {
            Err(ReadError::Refused(HeaderCause::Malformed))
        }
    } else if word == b"zone".as_slice() {
        if is_due(&draft, Section::Zones) {
            zone_line(draft, fields)
        } else {
            Err(ReadError::Refused(HeaderCause::Malformed))
        }
    } else if word == b"base".as_slice() {
        if is_due(&draft, Section::Bases) {
            base_line(draft, fields)
        } else {
            Err(ReadError::Refused(HeaderCause::Malformed))
        }
    } else if word == b"counter".as_slice() {
        counter_line(alloc, draft, fields)
    } else if word == b"go".as_slice() {
        go_row(draft, fields)
    } else {
        Err(ReadError::Refused(HeaderCause::Malformed))
    }
}

/// Whether a line of a section may follow the draft's lines.
fn is_due(draft: &Draft, section: Section) -> bool
    ensures { result ≡ is_due (draft_of draft.now) (section_of section) }
{
    draft.section as u8 <= section as u8
}

fn watermarks_line(draft: Draft, fields: &[&[u8]]) -> Result<HeadStep, ReadError>
    ensures { IsSameRead step_of
        (going (watermarks_row (draft_of draft) (map (λ field. field.now) fields.now))) result }
{
    let draft = watermarks_row(draft, fields)?;
    Ok(HeadStep::Goes(Stage::Drafting(draft)))
}

fn item_line(alloc: Global, draft: Draft, fields: &[&[u8]]) -> Result<HeadStep, ReadError>
    ensures { IsSameRead step_of
        (going (item_row (draft_of draft) (map (λ field. field.now) fields.now))) result }
{
    let draft = item_row(alloc, draft, fields)?;
    Ok(HeadStep::Goes(Stage::Drafting(draft)))
}

fn zone_line(draft: Draft, fields: &[&[u8]]) -> Result<HeadStep, ReadError>
    ensures { IsSameRead step_of
        (going (any_zone_row (draft_of draft) draft.share (map (λ field. field.now) fields.now))) result }
{
    let draft = any_zone_row(draft, fields)?;
    Ok(HeadStep::Goes(Stage::Drafting(draft)))
}

fn base_line(draft: Draft, fields: &[&[u8]]) -> Result<HeadStep, ReadError>
    requires { IsDraft (draft_of draft) }
    ensures { IsSameRead step_of
        (going (base_row (draft_of draft) (map (λ field. field.now) fields.now))) result }
{
    let draft = base_row(draft, fields)?;
    Ok(HeadStep::Goes(Stage::Drafting(draft)))
}

fn counter_line(alloc: Global, draft: Draft, fields: &[&[u8]]) -> Result<HeadStep, ReadError>
    ensures { IsSameRead step_of
        (going (counter_row (draft_of draft) (map (λ field. field.now) fields.now))) result }
{
    let draft = counter_row(alloc, draft, fields)?;
    Ok(HeadStep::Goes(Stage::Drafting(draft)))
}

/// Reads `go`.
fn go_row(draft: Draft, fields: &[&[u8]]) -> Result<HeadStep, ReadError>
    ensures { IsSameRead step_of
        (go_row (draft_of draft) (map (λ field. field.now) fields.now)) result }
{
    if !fields.is_empty() {
        return Err(ReadError::Refused(HeaderCause::Malformed));
    }
    if draft.zones.is_empty() {
        return Err(ReadError::Refused(HeaderCause::NoZone));
    }
    Ok(HeadStep::Ends(draft))
}
