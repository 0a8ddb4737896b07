ghost use Rattle.std.specs.Prelude.{◌≡◌, ℕ, Some};
ghost use Rattle.vms_core.specs.Pages.{History, IsLegal};
ghost use Rattle.vms_cursors.specs.Calls.{IsReady, IsWithin, cursor_at};
ghost use Rattle.vms_cursors.specs.Cursors.{IsSame};
ghost use Rattle.vms_world.specs.Common.{Control, IsHeader, Lane, State, facts_of, own};
ghost use Rattle.vms_own_acts.specs.Common.{IsHistoryFor};
ghost use Rattle.vms_walks.specs.Askings.{asking_of};
ghost use Rattle.vms_walks.specs.Walks.{IsOfLane};

use crate::ZonePeaks;
use crate::askings::{Asking, rules_asked};
use crate::hidden_pages::{covering_mark, hidden_with};
use crate::rules::choose;
use vms_base::{Header, PlaceId};
use vms_cursors::Cursor;
use vms_own_acts::RuleFunctions;

/// Makes a cursor the same one after the rules answered, if they are asked.
pub(crate) fn settle<R: RuleFunctions, K: ZonePeaks>(
    cursor: &mut Cursor,
    header: &Header,
    peaks: &K,
)
    requires header { IsHeader header.now }
    requires within { IsWithin header.now.layout cursor.old }
    requires kept { (base : State) × (h : History) × IsLegal (facts_of header.now base) h
        × K.Keeps peaks.now (facts_of header.now base) h }
    ensures same { (base : State) (lane : Lane) (p : ℕ) (h : History) → IsHistoryFor header.now base lane p h →
        K.Keeps peaks.now (facts_of header.now base) h → IsOfLane lane cursor.old →
        IsSame (cursor_at header.now base p R.pressure R.normal (own h p) cursor.old)
        (cursor_at header.now base p R.pressure R.normal (own h p) cursor.new) }
    ensures ready { IsReady cursor.new }
    ensures within { IsWithin header.now.layout cursor.new }
    ensures of_lane { (lane : Lane) → IsOfLane lane cursor.old → IsOfLane lane cursor.new }
{
    match rules_asked(cursor) {
        Some(asking) => *cursor = answered::<R, K>(cursor, asking, header, peaks),
        None => {}
    }
}

/// The same cursor of a control pass once the rules answered.
fn answered<R: RuleFunctions, K: ZonePeaks>(
    cursor: &Cursor,
    asking: Asking,
    header: &Header,
    peaks: &K,
) -> Cursor
    requires header { IsHeader header.now }
    requires within { IsWithin header.now.layout cursor.now }
    requires asked { asking_of cursor.now ≡ Some asking }
    requires kept { (base : State) × (h : History) × IsLegal (facts_of header.now base) h
        × K.Keeps peaks.now (facts_of header.now base) h }
    ensures same { (base : State) (p : ℕ) (h : History) → IsHistoryFor header.now base Control p h →
        K.Keeps peaks.now (facts_of header.now base) h →
        IsSame (cursor_at header.now base p R.pressure R.normal (own h p) cursor.now)
        (cursor_at header.now base p R.pressure R.normal (own h p) result) }
    ensures ready { IsReady result }
    ensures within { IsWithin header.now.layout result }
    ensures of_lane { (lane : Lane) → IsOfLane lane cursor.now → IsOfLane lane result }
{
    let size = header.sizes.get(asking.zone as usize);
    let zone = PlaceId {
        number: asking.zone,
    };
    let online = asking.seen.online.count(header.layout.cpus());
    let chosen = choose::<R>(asking.call, &size, online);
    let hidden = hidden_with(
        peaks,
        &header.layout,
        zone,
        &asking.seen.online,
        chosen.threshold,
    );
    let mark = covering_mark(&size, online, chosen.usual, hidden);
    cursor.answer::<R>(chosen, mark)
}
