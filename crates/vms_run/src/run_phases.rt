use std::alloc::Global;
use std::marker::Model;
use vms_base::Memory;
use vms_memo::Memo;
use vms_phase::ClosedHistories;
use vms_script::PhaseScript;
use vms_world::World;

/// A phase that was run: the world that it began with, its lines, and its histories. It stores none of them, and
/// contracts see them.
#[derive(Drop)]
pub struct RunPhase {
    pub(crate) world: Memo<World>,
    pub(crate) script: Memo<PhaseScript>,
    pub(crate) histories: ClosedHistories,
}

impl Model for RunPhase {
    ghost use Rattle.vms_replay.specs.Common.{PastPhase};

    ghost Value = { PastPhase };

    ghost use Rattle.vms_phase.specs.Common.{histories_of};
    ghost use Rattle.vms_run.specs.RunPhases.{facts_told};

    ghost view = { λ phase. record {
      world = phase.world;
      items = phase.script;
      facts = facts_told phase.histories;
      histories = histories_of phase.histories;
    } };
}

/// The phases that runs have made so far, the oldest first.
#[derive(Drop)]
pub struct Histories {
    phases: Vec<RunPhase>,
}

impl Model for Histories {
    ghost use Rattle.std.specs.Prelude.{List, vec_items};
    ghost use Rattle.vms_replay.specs.Common.{PastPhase};

    ghost Value = { List PastPhase };

    ghost view = { λ made. vec_items made.phases };
}

ghost use Rattle.std.specs.Prelude.{◌≡◌, ◌++◌, ◌∷◌, [], length, IfOk, IsOk, OnErr};
ghost use Rattle.vms_phase.specs.Common.{histories_of};
ghost use Rattle.vms_run.specs.RunPhases.{facts_told};

impl RunPhase {
    /// The histories of the phase in the three tables, each with what its table was told.
    pub fn histories(&self) -> &ClosedHistories
        ensures events { histories_of result.now ≡ self.now.histories }
        ensures facts { facts_told result.now ≡ self.now.facts }
    {
        &self.histories
    }
}

impl Histories {
    /// No phase. It takes no memory.
    pub fn make(alloc: Global) -> Histories
        ensures { result ≡ [] }
    {
        Histories {
            phases: Vec::new(alloc),
        }
    }

    /// How many phases were made.
    pub fn len(&self) -> usize
        ensures { result ≡ length self.now }
    {
        self.phases.len()
    }

    /// The phases, the oldest first.
    pub fn as_slice(&self) -> &[RunPhase]
        ensures { result.now ≡ self.now }
    {
        self.phases.as_slice()
    }

    /// Appends a phase that was run, unless it was lost for want of memory, and returns the world that it left.
    pub(crate) fn keep(&mut self, made: Result<(World, RunPhase), Memory>) -> Result<World, Memory>
        ensures ok { IfOk result (λ left. IfOk made (λ one. (left ≡ one.0) × (self.new ≡ self.old ++ one.1 ∷ []))) }
        ensures made { IsOk result → IsOk made }
        ensures err { OnErr result (self.new ≡ self.old) }
    {
        let (world, phase) = made?;
        self.phases.push(phase)?;
        Ok(world)
    }
}
