ghost use Rattle.std.specs.Prelude.{IfSome, IsNone};
ghost use Rattle.vms_cursors.specs.Cursors.{GoesOn, IsDue, HasEnded, Stops};
ghost use Rattle.vms_cursors.specs.Loads.{load_answer, system_at, value_at};

use crate::readings::{system_in, value_in};
use vms_base::{CounterId, ItemId};
use vms_core::Step;
use vms_plans::DueStep;

/// Where a call stands that loads one value, of a counter or of an item.
#[derive(Clone, Copy, Debug, PartialEq, Eq)]
pub enum LoadPosition {
    /// The value is to be loaded.
    Begun,
    /// The value was loaded.
    Loaded(i64),
}

impl LoadPosition {
    /// The step that is due in a look at a counter: none where the look has ended.
    pub fn due_value(self, counter: CounterId) -> Option<DueStep>
        ensures due { IfSome result (λ due. IsDue (value_at counter self) due) }
        ensures ended { IsNone result → HasEnded (value_at counter self) (load_answer self) }
    {
        match self {
            LoadPosition::Begun => Some(DueStep::LoadsValue(counter)),
            LoadPosition::Loaded(_) => None,
        }
    }

    /// The position after a step in a look at a counter: none where the step isn't the one that is due.
    pub fn next_value(self, counter: CounterId, step: Step) -> Option<LoadPosition>
        ensures goes { IfSome result (λ later. GoesOn (value_at counter self) step (value_at counter later)) }
        ensures stops { IsNone result → Stops (value_at counter self) step }
    {
        match self {
            LoadPosition::Begun => match value_in(counter, step) {
                Some(value) => Some(LoadPosition::Loaded(value)),
                None => None,
            },
            LoadPosition::Loaded(_) => None,
        }
    }

    /// The step that is due in a look at an item: none where the look has ended.
    pub fn due_system(self, item: ItemId) -> Option<DueStep>
        ensures due { IfSome result (λ due. IsDue (system_at item self) due) }
        ensures ended { IsNone result → HasEnded (system_at item self) (load_answer self) }
    {
        match self {
            LoadPosition::Begun => Some(DueStep::LoadsSystem(item)),
            LoadPosition::Loaded(_) => None,
        }
    }

    /// The position after a step in a look at an item: none where the step isn't the one that is due.
    pub fn next_system(self, item: ItemId, step: Step) -> Option<LoadPosition>
        ensures goes { IfSome result (λ later. GoesOn (system_at item self) step (system_at item later)) }
        ensures stops { IsNone result → Stops (system_at item self) step }
    {
        match self {
            LoadPosition::Begun => match system_in(item, step) {
                Some(value) => Some(LoadPosition::Loaded(value)),
                None => None,
            },
            LoadPosition::Loaded(_) => None,
        }
    }
}
