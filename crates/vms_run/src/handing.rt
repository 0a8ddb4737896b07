ghost use Rattle.std.specs.Prelude.{◌≡◌, ◌++◌, [], List, All, OnOk, length};
ghost use Rattle.vms_answers.specs.Common.{NumberedAnswer, merged, taken_answer, with_told, HasPlace, left_of, told_by};
ghost use Rattle.vms_world.specs.Common.{Lane};

use std::alloc::Global;
use vms_answers::{LaneAnswers, take_answer};
use vms_base::{Header, Memory, Row};
use vms_replay_phase::AnswerTaker;
use vms_text::Item;

/// Hands the answers of lanes on to what takes them, in the order of these lines: each line takes the next answer of
/// its lane, if that is its own.
pub fn hand_on<A: AnswerTaker>(
    alloc: Global,
    header: &Header,
    items: &[Item],
    lanes: &[LaneAnswers],
    taker: &mut A,
) -> Result<(), Memory>
    requires places { All (λ item. HasPlace lanes.now item.lane) items.now }
    requires taker { A.Takes header.now taker.old [] taker.old }
    ensures { OnOk result (A.Takes header.now taker.old (merged items.now (told_by lanes.now)) taker.new) }
{
    let mut counts = Row::filled(alloc, lanes.len(), 0)?;
    for item in items {
        hand_line(header, item, lanes, &mut counts, taker)?;
    }
    Ok(())
}

/// Hands on the answer of a line, if the next answer of its lane is its own.
#[inline]
fn hand_line<A: AnswerTaker>(
    header: &Header,
    item: &Item,
    lanes: &[LaneAnswers],
    counts: &mut Row<usize>,
    taker: &mut A,
) -> Result<(), Memory>
    requires place { HasPlace lanes.now item.now.lane }
    requires one_each { length counts.old ≡ length lanes.now }
    ensures one_each { length counts.new ≡ length lanes.now }
    ensures takes { OnOk result ((first : A) (before : List NumberedAnswer) →
        A.Takes header.now first before taker.old → A.Takes header.now first
        (before ++ (taken_answer item.now.number (left_of lanes.now counts.old item.now.lane)).0)
        taker.new) }
    ensures left { (lane : Lane) → left_of lanes.now counts.new lane
        ≡ with_told item.now.lane
        (taken_answer item.now.number (left_of lanes.now counts.old item.now.lane)).1
        (left_of lanes.now counts.old) lane }
{
    match take_answer(lanes, counts, item) {
        Some(numbered) => taker.take(header, numbered.number(), &numbered.answer()),
        None => Ok(()),
    }
}
