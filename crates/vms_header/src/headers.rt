ghost use Rattle.std.specs.Prelude.{◌≡◌, ◌<◌, ◌≤◌, ◌^◌, ◌*◌, All, IfOk, IfSome, length, reverse};
ghost use Rattle.arrayvec.specs.ArrayVec.{array_vec_len};
ghost use Rattle.vms_header.specs.DraftFacts.{IsDraft, IsShare, IsSized};
ghost use Rattle.vms_header.specs.Drafts.{bases_of, header_of, managed_pages, sizes_under, size_under};
ghost use Rattle.vms_header.specs.Laws.{IsWritable};
ghost use Rattle.vms_header.specs.Readers.{draft_of};

use crate::drafts::{Base, Draft, Share, Zone};
use crate::layouts::layout_of;
use std::alloc::Global;
use vms_base::{Bases, Header, Memory, Row, Sizes, ZoneSize};
use vms_calc::zone_marks;

/// The header of a draft.
pub(crate) fn make_header(alloc: Global, draft: Draft) -> Result<Header, Memory>
    requires draft { IsDraft (draft_of draft) }
    requires some { 0 < array_vec_len draft.zones }
    ensures { IfOk result (λ header. header ≡ header_of (draft_of draft)) }
{
    let layout = layout_of(&draft);
    let sizes = sizes_under(alloc, draft.share, draft.zones.as_slice())?;
    let bases = bases_of(alloc, layout.counters() as usize, draft.bases.as_slice())?;
    Ok(Header {
        layout,
        sizes,
        bases,
        counters: Row::make(draft.counters),
        items: Row::make(draft.items),
    })
}

/// The sizes of the zones, with the marks of a `watermarks` line if there is one.
fn sizes_under(alloc: Global, share: Option<Share>, zones: &[Zone]) -> Result<Sizes, Memory>
    requires share { IfSome share IsShare }
    requires zones { All (λ zone. IsSized zone.size) zones.now }
    requires most { length zones.now ≤ 16 }
    ensures { IfOk result (λ sizes. sizes ≡ sizes_under share zones.now) }
{
    let total = managed_pages(zones);
    let mut sizes = Vec::with_capacity(alloc, zones.len())?;
    for zone in zones {
        sizes.push(size_under(share, zone.size, total))?;
    }
    Ok(Row::make(sizes))
}

/// A zone's size, of so many pages in all zones.
fn size_under(share: Option<Share>, size: ZoneSize, total: u64) -> ZoneSize
    requires share { IfSome share IsShare }
    requires size { IsSized size }
    requires within { size.managed ≤ total }
    requires most { total ≤ 2 ^ 44 }
    ensures { result ≡ size_under share size total }
{
    match share {
        None => size,
        Some(share) => zone_marks(share.kbytes, share.scale, size.managed, total),
    }
}

/// All managed pages.
fn managed_pages(zones: &[Zone]) -> u64
    requires zones { All (λ zone. IsSized zone.size) zones.now }
    requires most { length zones.now ≤ 16 }
    ensures value { result ≡ managed_pages zones.now }
    ensures most { result ≤ 2 ^ 40 * length zones.now }
{
    let mut total = 0;
    for zone in zones {
        total += zone.size.managed;
    }
    total
}

/// The base values of so many counters, 0 where no line says one.
fn bases_of(alloc: Global, count: usize, bases: &[Base]) -> Result<Bases, Memory>
    requires { All (λ base. base.counter < count) bases.now }
    ensures { IfOk result (λ values. values ≡ bases_of count (reverse bases.now)) }
{
    let mut values = Row::filled(alloc, count, 0)?;
    for base in bases {
        values.set(base.counter as usize, base.value);
    }
    Ok(values)
}
