ghost use Rattle.std.specs.Prelude.{◌≡◌, Some};
ghost use Rattle.vms_history.specs.Common.{IsFree};
ghost use Rattle.vms_group_core.specs.declared.steps.GroupStep.TheVariants.{Split, Join};
ghost use Rattle.vms_group_core.specs.Common.{groups, MayOwn, role};
ghost use Rattle.vms_group.specs.CpuPasses.{HoldsSpending, IsCpuPass};
ghost use Rattle.vms_seats.specs.Common.{HasBegun, HasEnded, IsFrom, IsLive};

use crate::ledgers::SharedGroups;
use crate::tables::{GroupMain, GroupTable};
use std::marker::Model;
use vms_base::{CpuId, Volume};
use vms_seats::Worker;

/// A pass that owns a CPU. Between two calls it carries nothing. Contracts see in it the pass, and what its CPU has
/// changed each group by since the run began, in absolute sum.
#[derive(Drop)]
pub struct GroupPass {
    pub(crate) worker: Worker<SharedGroups>,
    pub(crate) cpu: CpuId,
    pub(crate) volume: Volume,
}

impl Model for GroupPass {
    ghost use Rattle.vms_group.specs.CpuPasses.{CpuPass, IsCpuPass};

    ghost Value = { CpuPass };

    ghost view = { λ p. record { pass = p.worker; volume = p.volume } };

    ghost invariant = { λ p. IsCpuPass p.worker p.cpu p.volume };
}

impl GroupTable {
    /// Begins a pass that owns a CPU, with the volumes that the CPU has by then.
    pub fn cpu_pass(&self, main: &mut GroupMain, cpu: CpuId, volume: Volume) -> GroupPass
        requires table { IsFrom main.old self.now }
        requires known { MayOwn main.old.facts (Some cpu) }
        requires free { IsFree role main.old.seen (Some cpu) }
        requires volume { HoldsSpending main.old.facts.tree main.old.seen cpu.number volume }
        ensures begun { HasBegun groups Split main.new main.old result.pass (Some cpu) }
        ensures volume { result.volume ≡ volume }
    {
        let worker = main.begin(&self.words, Some(cpu));
        GroupPass {
            worker,
            cpu,
            volume,
        }
    }

    /// Ends a pass that owns a CPU, and gives the CPU's volumes back.
    pub fn join_cpu(&self, main: &mut GroupMain, pass: GroupPass) -> Volume
        requires table { IsFrom main.old self.now × IsFrom pass.pass self.now }
        ensures ended { HasEnded groups Join main.new main.old pass.pass }
        ensures volume { result ≡ pass.volume }
    {
        let GroupPass {
            worker,
            cpu: _,
            volume,
        } = pass;
        main.end(&self.words, worker);
        volume
    }
}

impl GroupPass {
    /// The CPU that the pass owns, and what holds of the pass between two calls.
    #[inline]
    pub fn cpu(&self) -> CpuId
        ensures { IsCpuPass self.now.pass result self.now.volume }
    {
        self.cpu
    }
}
