use std::alloc::Global;
use std::marker::Model;
use vms_base::Memory;
use vms_group::GroupHistory;
use vms_group_phase::GroupItem;
use vms_memo::Memo;

/// A phase that was run: its lines, and its history. It stores none of them, and contracts see them.
#[derive(Drop)]
pub struct GroupRun {
    pub(crate) items: Memo<Vec<GroupItem>>,
    pub(crate) history: GroupHistory,
}

impl Model for GroupRun {
    ghost use Rattle.std.specs.Prelude.{vec_items};
    ghost use Rattle.vms_groups.specs.PastPhases.{PastGroupPhase};

    ghost Value = { PastGroupPhase };

    ghost view = { λ run. record {
      items = vec_items run.items;
      facts = run.history.facts;
      events = run.history.events;
    } };
}

/// The phases of groups that were run so far, the oldest first.
#[derive(Drop)]
pub struct GroupRuns {
    runs: Vec<GroupRun>,
}

impl Model for GroupRuns {
    ghost use Rattle.std.specs.Prelude.{List, vec_items};
    ghost use Rattle.vms_groups.specs.PastPhases.{PastGroupPhase};

    ghost Value = { List PastGroupPhase };

    ghost view = { λ made. vec_items made.runs };
}

ghost use Rattle.std.specs.Prelude.{◌≡◌, ◌++◌, ◌∷◌, [], length, OnErr, OnOk};

impl GroupRun {
    /// The history of the phase, with what its table was told.
    pub fn history(&self) -> &GroupHistory
        ensures events { result.now.events ≡ self.now.events }
        ensures facts { result.now.facts ≡ self.now.facts }
    {
        &self.history
    }
}

impl GroupRuns {
    /// No phase. It takes no memory.
    pub fn make(alloc: Global) -> GroupRuns
        ensures { result ≡ [] }
    {
        GroupRuns {
            runs: Vec::new(alloc),
        }
    }

    /// How many phases were run.
    pub fn len(&self) -> usize
        ensures { result ≡ length self.now }
    {
        self.runs.len()
    }

    /// The phases, the oldest first.
    pub fn as_slice(&self) -> &[GroupRun]
        ensures { result.now ≡ self.now }
    {
        self.runs.as_slice()
    }

    /// Appends a phase that was run.
    pub(crate) fn keep(&mut self, run: GroupRun) -> Result<(), Memory>
        ensures ok { OnOk result (self.new ≡ self.old ++ run ∷ []) }
        ensures err { OnErr result (self.new ≡ self.old) }
    {
        self.runs.push(run)?;
        Ok(())
    }
}
