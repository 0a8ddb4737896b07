//! The marks that a rating finds.

ghost use Rattle.std.specs.Prelude.{◌≡◌, ℕ};
ghost use Rattle.vms_calls.specs.Common.{HasShape, IsZone};
ghost use Rattle.vms_rating_lines.specs.ToldSteps.{AreMarks};

use vms_base::{Layout, PlaceId};
use vms_core::{MarkRead, Plain};

/// The mark of each zone, as a load tells it.
pub(crate) fn load_marks(pages: &Plain, layout: &Layout) -> [MarkRead; 16]
    requires shaped { HasShape layout.now pages.now }
    ensures { AreMarks layout.now pages.now result }
{
    let mut marks = [MarkRead { mark: 0, number: 0 }; 16];
    for zone in 0..layout.zones().len() {
        marks[zone] = pages.load_mark(PlaceId {
            number: zone as u32,
        });
    }
    marks
}
