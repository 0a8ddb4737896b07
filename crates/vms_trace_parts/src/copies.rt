ghost use Rattle.std.specs.Prelude.{◌≡◌, IfOk};

use std::alloc::Global;
use vms_base::{Decl, Decls, Header, ItemDecl, ItemDecls, Memory, Row};

/// The same header.
pub(crate) fn copied_header(alloc: Global, header: &Header) -> Result<Header, Memory>
    ensures { IfOk result (λ copy. copy ≡ header.now) }
{
    Ok(Header {
        layout: header.layout.copied(),
        sizes: Row::from_slice(alloc, header.sizes.as_slice())?,
        bases: Row::from_slice(alloc, header.bases.as_slice())?,
        counters: copied_counters(alloc, header.counters.as_slice())?,
        items: copied_items(alloc, header.items.as_slice())?,
    })
}

fn copied_counters(alloc: Global, counters: &[Decl]) -> Result<Decls, Memory>
    ensures { IfOk result (λ copies. copies ≡ counters.now) }
{
    let mut copies = Vec::with_capacity(alloc, counters.len())?;
    for decl in counters {
        let name = Row::from_slice(alloc, decl.name.as_slice())?;
        copies.push(Decl {
            name,
            batch: decl.batch,
        })?;
    }
    Ok(Row::make(copies))
}

fn copied_items(alloc: Global, items: &[ItemDecl]) -> Result<ItemDecls, Memory>
    ensures { IfOk result (λ copies. copies ≡ items.now) }
{
    let mut copies = Vec::with_capacity(alloc, items.len())?;
    for decl in items {
        let name = Row::from_slice(alloc, decl.name.as_slice())?;
        copies.push(ItemDecl {
            name,
            node: decl.node,
            bytes: decl.bytes,
        })?;
    }
    Ok(Row::make(copies))
}
