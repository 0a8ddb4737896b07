use crate::counted_lines::CountedLines;
use std::marker::Model;
use vms_script::PhaseScript;
use vms_text::Lane;

/// The lines of one lane among those of a phase, in the order of the text. They stay where they stand: a lane passes
/// over the lines of others.
#[derive(Drop)]
pub struct LaneLines<'a> {
    pub(crate) lane: Lane,
    pub(crate) script: &'a PhaseScript,
    count: usize,
}

impl<'a> Model for LaneLines<'a> {
    ghost use Rattle.std.specs.Prelude.{◌≡◌, List, length};
    ghost use Rattle.vms_world.specs.Common.{LaneItem, lane_items};

    ghost Value = { List LaneItem };

    ghost view = { λ lines. lane_items lines.lane lines.script.now };

    ghost invariant = { λ lines. lines.count ≡ length (lane_items lines.lane lines.script.now) };
}

impl<'a> LaneLines<'a> {
    ghost use Rattle.std.specs.Prelude.{◌≡◌, [], length, ◌↔◌, IsTrue};
    ghost use Rattle.vms_world.specs.Common.{IsPhaseScript, lane_items};

    /// The lines of a lane among those of a phase, which were counted.
    #[inline]
    pub fn of(counted: &CountedLines<'a>, lane: Lane) -> LaneLines<'a>
        ensures lines { result ≡ lane_items lane counted.now }
        ensures kept { IsPhaseScript counted.now }
    {
        LaneLines {
            lane,
            script: counted.script,
            count: counted.count_of(lane),
        }
    }

    /// The lines of a lane among those of a phase, of which it has `count`.
    #[inline]
    pub fn with_count(script: &'a PhaseScript, lane: Lane, count: usize) -> LaneLines<'a>
        requires { count ≡ length (lane_items lane script.now) }
        ensures { result ≡ lane_items lane script.now }
    {
        LaneLines {
            lane,
            script,
            count,
        }
    }

    /// How many lines the lane has.
    #[inline]
    pub fn len(&self) -> usize
        ensures { result ≡ length self.now }
    {
        self.count
    }

    #[inline]
    pub fn is_empty(&self) -> bool
        ensures { IsTrue result ↔ (self.now ≡ []) }
    {
        self.count == 0
    }
}
