//! Places, numbers and the data of a trace's header, as every crate of the counters uses them.
#![tactic(auto)]

mod failures;
mod groups;
mod headers;
mod ids;
mod kinds;
mod names;
mod numbers;
mod packing;
mod places;
mod rows;
mod sorting;
mod spending;

pub use failures::Memory;
pub use groups::Diffs;
pub use headers::{Bases, Decl, Decls, Header, ItemDecl, ItemDecls, Name, Sizes};
pub use ids::{CounterId, CpuId, EventId, GroupId, ItemId, PcpuId, PlaceId};
pub use kinds::{CpuState, Mode, WaterMark, ZoneKind, ZoneName, ZoneSize};
pub use names::{event_names, item_names, kind_name};
pub use numbers::{decode, decode_encode, encode, fls, push_number};
pub use packing::{pack, unpack, unpack_pack};
pub use places::{Layout, LayoutError};
pub use rows::Row;
pub use spending::{CpuVolumes, Overflow, Volume, Volumes};
