use std::alloc::Global;
use vms_groups::GroupRuns;
use vms_run::Histories as RunHistories;

/// The phases that commands have made on threads so far.
#[derive(Drop)]
pub struct Histories {
    /// Those of `run` and `gen`.
    pub phases: RunHistories,
    /// Those of `groups`.
    pub groups: GroupRuns,
}

impl Histories {
    ghost use Rattle.std.specs.Prelude.{◌≡◌};
    ghost use Rattle.vms_tool.specs.Answers.{no_phases};

    /// No phase. It takes no memory.
    pub fn make(alloc: Global) -> Histories
        ensures { result ≡ no_phases }
    {
        Histories {
            phases: RunHistories::make(alloc),
            groups: GroupRuns::make(alloc),
        }
    }
}
