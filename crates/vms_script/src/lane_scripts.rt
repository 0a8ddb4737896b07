use std::marker::Model;
use vms_line::Act;

/// A line of a lane that is known.
#[derive(Clone, Copy, Debug, PartialEq, Eq)]
pub struct LaneItem {
    /// The number of the line in the text, counted from 1.
    pub number: u32,
    pub act: Act,
}

/// The lines of one lane in a phase, in the order of the text: at most 1,000,000, with ascending numbers.
#[derive(Debug, Drop)]
pub struct LaneScript {
    items: Vec<LaneItem>,
}

impl Model for LaneScript {
    ghost use Rattle.std.specs.Prelude.{List};
    ghost use Rattle.vms_script.specs.declared.lane_scripts.LaneItem.{LaneItem};
    ghost use Rattle.vms_script.specs.PhaseScripts.{IsLaneScript};

    ghost Value = { List LaneItem };

    ghost view = { λ script. script.items.items };

    ghost invariant = { λ script. IsLaneScript script.items.items };
}

impl LaneScript {
    ghost use Rattle.std.specs.Prelude.{◌≡◌, [], length, ◌↔◌, IsTrue};
    ghost use Rattle.vms_script.specs.PhaseScripts.{IsLaneScript};

    /// The script of these lines.
    #[inline]
    pub fn make(items: Vec<LaneItem>) -> LaneScript
        requires { IsLaneScript items.items }
        ensures { result ≡ items.items }
    {
        LaneScript { items }
    }

    #[inline]
    pub fn as_slice(&self) -> &[LaneItem]
        ensures items { result.now ≡ self.now }
        ensures kept { IsLaneScript self.now }
    {
        self.items.as_slice()
    }

    #[inline]
    pub fn len(&self) -> usize
        ensures { result ≡ length self.now }
    {
        self.items.len()
    }

    #[inline]
    pub fn is_empty(&self) -> bool
        ensures { IsTrue result ↔ (self.now ≡ []) }
    {
        self.items.is_empty()
    }
}
