ghost use Rattle.std.specs.Prelude.{◌≡◌, suc, ◌<◌, ◌∷◌, [], drop, length, map, option_map, option_to_list, IfSome};
ghost use Rattle.std.specs.Prelude.{IfNone};
ghost use Rattle.vms_answers.specs.ToldAnswers.{answer_of_kept};
ghost use Rattle.vms_answers.specs.Merging.{taken_answer, with_told};
ghost use Rattle.vms_answers.specs.Told.{HasPlace, left_of, lane_place as place_in_lists};
ghost use Rattle.vms_world.specs.Common.{Lane as LaneOf};

use crate::NumberedAnswer;
use vms_base::Row;
use vms_text::{Item, Lane};

/// What the lines of one lane answered, in their order. A list of them has those of the control lane first, and then
/// those of the CPUs by number.
#[derive(Debug, Drop)]
pub struct LaneAnswers {
    pub items: Vec<NumberedAnswer>,
}

/// Takes the next answer of the lane of a line, if it is the line's own. `counts` has how many answers of each lane
/// were taken, by the same places.
#[inline]
pub fn take_answer(
    lanes: &[LaneAnswers],
    counts: &mut Row<usize>,
    item: &Item,
) -> Option<NumberedAnswer>
    requires place { HasPlace lanes.now item.now.lane }
    requires one_each { length counts.old ≡ length lanes.now }
    ensures one_each { length counts.new ≡ length lanes.now }
    ensures answer { option_to_list (option_map answer_of_kept result)
        ≡ (taken_answer item.now.number (left_of lanes.now counts.old item.now.lane)).0 }
    ensures left { (lane : LaneOf) → left_of lanes.now counts.new lane
        ≡ with_told item.now.lane
        (taken_answer item.now.number (left_of lanes.now counts.old item.now.lane)).1
        (left_of lanes.now counts.old) lane }
{
    let place = place_of(item.lane.lane());
    let next = counts.get(place);
    let answer = own_answer(lanes[place].items.as_slice(), next, item.number)?;
    counts.set(place, next + 1);
    Some(answer)
}

/// The next answer, if it is that of the line of this number.
#[inline]
fn own_answer(answers: &[NumberedAnswer], next: usize, number: u32) -> Option<NumberedAnswer>
    ensures within { IfSome result (λ answer. next < length answers.now) }
    ensures some { IfSome result
        (λ answer. taken_answer number (drop next (map answer_of_kept answers.now))
        ≡ (answer_of_kept answer ∷ [], drop (suc next) (map answer_of_kept answers.now))) }
    ensures none { IfNone result (taken_answer number (drop next (map answer_of_kept answers.now))
        ≡ ([], drop next (map answer_of_kept answers.now))) }
{
    let answer = answers.get(next)?;
    if answer.number() == number {
        Some(*answer)
    } else {
        None
    }
}

/// Where the answers of a lane stand in such a list, counted from 0.
#[inline]
pub fn place_of(lane: Lane) -> usize
    ensures { result ≡ place_in_lists lane }
{
    match lane {
        Lane::Control => 0,
        Lane::Cpu(cpu) => cpu.number as usize + 1,
    }
}
