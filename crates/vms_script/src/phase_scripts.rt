ghost use Rattle.std.specs.Prelude.{◌≡◌, count_by, IfOk};
ghost use Rattle.vms_script.specs.PhaseScripts.{is_lane, lane_items};

use crate::{LaneItem, LaneScript};
use std::alloc::Global;
use std::marker::Model;
use vms_base::Memory;
use vms_line::{Item, Lane};

/// The lane lines of a phase that count, in the order of the text: at most 1,000,000, with ascending numbers.
#[derive(Debug, Drop)]
pub struct PhaseScript {
    items: Vec<Item>,
}

impl Model for PhaseScript {
    ghost use Rattle.std.specs.Prelude.{List};
    ghost use Rattle.vms_text.specs.declared.acts.Item.{Item};
    ghost use Rattle.vms_script.specs.PhaseScripts.{IsPhaseScript};

    ghost Value = { List Item };

    ghost view = { λ script. script.items.items };

    ghost invariant = { λ script. IsPhaseScript script.items.items };
}

impl PhaseScript {
    ghost use Rattle.std.specs.Prelude.{◌≡◌, [], length, ◌↔◌, IsTrue, IfOk};
    ghost use Rattle.vms_script.specs.PhaseScripts.{IsPhaseScript, lane_items};

    /// The script of these lines.
    #[inline]
    pub fn make(items: Vec<Item>) -> PhaseScript
        requires { IsPhaseScript items.items }
        ensures { result ≡ items.items }
    {
        PhaseScript { items }
    }

    #[inline]
    pub fn as_slice(&self) -> &[Item]
        ensures items { result.now ≡ self.now }
        ensures kept { IsPhaseScript self.now }
    {
        self.items.as_slice()
    }

    #[inline]
    pub fn len(&self) -> usize
        ensures { result ≡ length self.now }
    {
        self.items.len()
    }

    #[inline]
    pub fn is_empty(&self) -> bool
        ensures { IsTrue result ↔ (self.now ≡ []) }
    {
        self.items.is_empty()
    }

    /// The lines themselves.
    #[inline]
    pub fn into_items(self) -> Vec<Item>
        ensures { result.items ≡ self }
    {
        let PhaseScript { items } = self;
        items
    }

    /// How many lines a lane has.
    pub fn count_of(&self, lane: Lane) -> usize
        ensures { result ≡ length (lane_items lane self.now) }
    {
        lane_count(self.items.as_slice(), lane)
    }

    /// The lines of a lane.
    pub fn lane_script(&self, alloc: Global, lane: Lane) -> Result<LaneScript, Memory>
        ensures { IfOk result (λ script. script ≡ lane_items lane self.now) }
    {
        let items = items_of_lane(alloc, self.items.as_slice(), lane)?;
        Ok(LaneScript::make(items))
    }
}

/// The lines of a lane among these.
fn items_of_lane(alloc: Global, items: &[Item], lane: Lane) -> Result<Vec<LaneItem>, Memory>
    ensures { IfOk result (λ found. found.items ≡ lane_items lane items.now) }
{
    let mut found = Vec::with_capacity(alloc, lane_count(items, lane))?;
    for item in items {
        if is_of(lane, item) {
            found.push(LaneItem {
                number: item.number,
                act: item.act,
            })?;
        }
    }
    Ok(found)
}

/// How many of these lines are of a lane.
fn lane_count(items: &[Item], lane: Lane) -> usize
    ensures { result ≡ count_by (λ item. is_lane lane item.lane) items.now }
{
    items.iter().filter(|item| is_of(lane, item)).count()
}

/// Whether a line is one of a lane.
#[inline]
pub fn is_of(lane: Lane, item: &Item) -> bool
    ensures { result ≡ is_lane lane item.now.lane }
{
    match (lane, item.lane.lane()) {
        (Lane::Cpu(cpu), Lane::Cpu(other)) => cpu.number == other.number,
        (Lane::Control, Lane::Control) => true,
        _ => false,
    }
}
