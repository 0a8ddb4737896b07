ghost use Rattle.std.specs.Prelude.{◌≡◌, ◌≤◌, [], ◌∷◌, map, IfOk};
ghost use Rattle.vms_header.specs.Sections.{header_number, any_number, class_field, kind_field, unit_field};
ghost use Rattle.vms_header.specs.Sections.{value_field};
ghost use Rattle.vms_header.specs.Values.{share_words, zone_name, read_zone, unmarked_zone_words, zone_size};

use crate::HeaderCause;
use crate::drafts::{Share, Zone};
use vms_base::{ZoneKind, ZoneName, ZoneSize};
use vms_text::{kind_named, read_signed, read_unsigned, read_within};

/// Reads `KBYTES SCALE`, where SCALE is 10 if it is left out.
pub(crate) fn share_words(fields: &[&[u8]]) -> Result<Share, HeaderCause>
    ensures { result ≡ share_words (map (λ field. field.now) fields.now) }
{
    match fields.len() {
        1 => share_of(fields[0], b"10"),
        2 => share_of(fields[0], fields[1]),
        _ => Err(HeaderCause::Malformed),
    }
}

fn share_of(kbytes: &[u8], scale: &[u8]) -> Result<Share, HeaderCause>
    ensures { result ≡ share_words (kbytes.now ∷ scale.now ∷ []) }
{
    Ok(Share {
        kbytes: number_in(0, 1 << 40, kbytes)?,
        scale: number_in(1, 3000, scale)? as u32,
    })
}

/// Reads `NODE KIND MANAGED MIN LOW HIGH`.
pub(crate) fn zone_words(fields: &[&[u8]]) -> Result<Zone, HeaderCause>
    ensures { result ≡ read_zone (map (λ field. field.now) fields.now) }
{
    if fields.len() != 6 {
        return Err(HeaderCause::Malformed);
    }
    zone_of(
        fields[0], fields[1], fields[2], fields[3], fields[4], fields[5],
    )
}

fn zone_of(
    node: &[u8],
    kind: &[u8],
    managed: &[u8],
    min: &[u8],
    low: &[u8],
    high: &[u8],
) -> Result<Zone, HeaderCause>
    ensures { result
        ≡ read_zone (node.now ∷ kind.now ∷ managed.now ∷ min.now ∷ low.now ∷ high.now ∷ []) }
{
    Ok(Zone {
        name: zone_name(node, kind)?,
        size: zone_size(managed, min, low, high)?,
    })
}

/// Reads `NODE KIND MANAGED`, where a `watermarks` line gives the marks.
pub(crate) fn unmarked_zone_words(fields: &[&[u8]]) -> Result<Zone, HeaderCause>
    ensures { result ≡ unmarked_zone_words (map (λ field. field.now) fields.now) }
{
    if fields.len() != 3 {
        return Err(HeaderCause::Malformed);
    }
    unmarked_zone_of(fields[0], fields[1], fields[2])
}

fn unmarked_zone_of(node: &[u8], kind: &[u8], managed: &[u8]) -> Result<Zone, HeaderCause>
    ensures { result ≡ unmarked_zone_words (node.now ∷ kind.now ∷ managed.now ∷ []) }
{
    Ok(Zone {
        name: zone_name(node, kind)?,
        size: ZoneSize {
            managed: number_in(1, 1 << 40, managed)?,
            min: 0,
            low: 0,
            high: 0,
        },
    })
}

fn zone_name(node: &[u8], kind: &[u8]) -> Result<ZoneName, HeaderCause>
    ensures { result ≡ zone_name node.now kind.now }
{
    Ok(ZoneName {
        node: number_in(0, 15, node)? as u32,
        kind: kind_field(kind)?,
    })
}

fn zone_size(managed: &[u8], min: &[u8], low: &[u8], high: &[u8]) -> Result<ZoneSize, HeaderCause>
    ensures { result ≡ zone_size managed.now min.now low.now high.now }
{
    Ok(ZoneSize {
        managed: number_in(1, 1 << 40, managed)?,
        min: number_in(0, 1 << 40, min)?,
        low: number_in(0, 1 << 40, low)?,
        high: number_in(0, 1 << 40, high)?,
    })
}

/// A number from `least` to `most`.
fn number_in(least: u64, most: u64, word: &[u8]) -> Result<u64, HeaderCause>
    ensures value { result ≡ header_number least most word.now }
    ensures within { IfOk result (λ number. (least ≤ number) × (number ≤ most)) }
{
    read_within(word, least, most).ok_or(HeaderCause::BadNumber)
}

/// A number of 64 bits.
pub(crate) fn any_number(word: &[u8]) -> Result<u64, HeaderCause>
    ensures { result ≡ any_number word.now }
{
    read_unsigned(word).ok_or(HeaderCause::BadNumber)
}

/// The class that a word names: whether it is that of the nodes.
pub(crate) fn class_field(word: &[u8]) -> Result<bool, HeaderCause>
    ensures { result ≡ class_field word.now }
{
    match word {
        b"zone" => Ok(false),
        b"node" => Ok(true),
        _ => Err(HeaderCause::UnknownName),
    }
}

/// Whether an item is in bytes, as the word after its name says.
pub(crate) fn unit_field(word: &[u8]) -> Result<bool, HeaderCause>
    ensures { result ≡ unit_field word.now }
{
    match word {
        b"bytes" => Ok(true),
        _ => Err(HeaderCause::UnknownName),
    }
}

/// The kind of zones that a word names.
fn kind_field(word: &[u8]) -> Result<ZoneKind, HeaderCause>
    ensures { result ≡ kind_field word.now }
{
    kind_named(word).ok_or(HeaderCause::UnknownName)
}

/// A base value, in pages.
pub(crate) fn value_field(word: &[u8]) -> Result<i64, HeaderCause>
    ensures { result ≡ value_field word.now }
{
    let value = read_signed(word).ok_or(HeaderCause::BadNumber)?;
    if value.unsigned_abs() <= 1 << 48 {
        Ok(value)
    } else {
        Err(HeaderCause::BadNumber)
    }
}
