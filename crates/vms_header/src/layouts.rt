ghost use Rattle.std.specs.Prelude.{◌≡◌, ◌<◌, ◌≤◌, All, map, length, MatchResult};
ghost use Rattle.arrayvec.specs.ArrayVec.{array_vec_len};
ghost use Rattle.vms_base.specs.Common.{IsRefused, LaysOut};
ghost use Rattle.vms_header.specs.DraftFacts.{IsDraft};
ghost use Rattle.vms_header.specs.Drafts.{most_cpus, names_of, positions_of, shape_of};
ghost use Rattle.vms_header.specs.Readers.{draft_of};

use crate::drafts::{Draft, Zone};
use arrayvec::ArrayVec;
use vms_base::{Layout, LayoutError, ZoneName};

/// The layout of a draft.
pub(crate) fn layout_of(draft: &Draft) -> Layout
    requires draft { IsDraft (draft_of draft.now) }
    requires some { 0 < array_vec_len draft.now.zones }
    ensures { result ≡ shape_of (draft_of draft.now) }
{
    let names = names_of(draft.zones.as_slice());
    match make_layout(names.as_slice(), draft.cpus, draft.wide) {
        Ok(layout) => layout,
        Err(_) => unreachable!(),
    }
}

fn names_of(zones: &[Zone]) -> ArrayVec<ZoneName, 16>
    requires { length zones.now ≤ 16 }
    ensures { result.items ≡ names_of zones.now }
{
    let mut names = ArrayVec::new();
    for zone in zones {
        names.push(zone.name);
    }
    names
}

fn make_layout(zones: &[ZoneName], cpus: u32, wide: bool) -> Result<Layout, LayoutError>
    requires { All (λ zone. zone.node ≤ 15) zones.now }
    ensures { MatchResult result (LaysOut zones.now cpus (positions_of wide))
        (IsRefused (most_cpus wide) zones.now cpus) }
{
    if wide {
        Layout::make_wide(zones, cpus)
    } else {
        Layout::make(zones, cpus)
    }
}
