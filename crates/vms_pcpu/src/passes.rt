ghost use Rattle.std.specs.Prelude.{◌≡◌, Some, None};
ghost use Rattle.vms_history.specs.Common.{IsFree};
ghost use Rattle.vms_pcpu_core.specs.declared.steps.PcpuStep.TheVariants.{Split, Join};
ghost use Rattle.vms_pcpu_core.specs.Common.{percpu, MayOwn, role};
ghost use Rattle.vms_pcpu.specs.IdlePasses.{HoldsSpending, IsReady};
ghost use Rattle.vms_seats.specs.Common.{HasBegun, HasEnded, IsFrom};

use crate::ledgers::SharedPcpu;
use crate::tables::{PcpuMain, PcpuTable};
use std::marker::Model;
use vms_base::{CpuId, Volume};
use vms_seats::Worker;

/// A pass that owns a CPU. Between two calls it holds no lock and carries nothing. Contracts see in it the pass, and
/// what its CPU has changed each counter by since the run began, in absolute sum.
#[derive(Drop)]
pub struct PcpuPass {
    pub(crate) worker: Worker<SharedPcpu>,
    pub(crate) cpu: CpuId,
    pub(crate) volume: Volume,
}

impl Model for PcpuPass {
    ghost use Rattle.vms_pcpu.specs.IdlePasses.{CpuPass, IsCpuPass};

    ghost Value = { CpuPass };

    ghost view = { λ p. record { pass = p.worker; volume = p.volume } };

    ghost invariant = { λ p. IsCpuPass p.worker p.cpu p.volume };
}

/// The control pass. Between two calls it holds no lock and carries nothing.
#[derive(Drop)]
pub struct PcpuControl {
    pub(crate) worker: Worker<SharedPcpu>,
}

impl Model for PcpuControl {
    ghost use Rattle.std.specs.Prelude.{◌≡◌, None};
    ghost use Rattle.vms_pcpu_core.specs.declared.steps.PcpuFacts.{PcpuFacts};
    ghost use Rattle.vms_pcpu_core.specs.declared.steps.PcpuStep.{PcpuStep};
    ghost use Rattle.vms_pcpu.specs.IdlePasses.{IsReady};
    ghost use Rattle.vms_seats.specs.Common.{Pass};

    ghost Value = { Pass PcpuFacts PcpuStep };

    ghost view = { λ p. p.worker };

    ghost invariant = { λ p. IsReady p.worker × (p.worker.cpu ≡ None) };
}

impl PcpuTable {
    /// Begins a pass that owns a CPU, with the volumes that the CPU has by then.
    pub fn cpu_pass(&self, main: &mut PcpuMain, cpu: CpuId, volume: Volume) -> PcpuPass
        requires table { IsFrom main.old self.now }
        requires online { MayOwn main.old.facts (Some cpu) }
        requires free { IsFree role main.old.seen (Some cpu) }
        requires volume { HoldsSpending main.old.facts main.old.seen cpu.number volume }
        ensures begun { HasBegun percpu Split main.new main.old result.pass (Some cpu) }
        ensures volume { result.volume ≡ volume }
    {
        let worker = main.begin(&self.words, Some(cpu));
        PcpuPass {
            worker,
            cpu,
            volume,
        }
    }

    /// Begins the control pass.
    pub fn control_pass(&self, main: &mut PcpuMain) -> PcpuControl
        requires table { IsFrom main.old self.now }
        requires free { IsFree role main.old.seen None }
        ensures begun { HasBegun percpu Split main.new main.old result None }
    {
        let worker = main.begin(&self.words, None);
        PcpuControl { worker }
    }

    /// Ends a pass that owns a CPU, and gives the CPU's volumes back.
    pub fn join_cpu(&self, main: &mut PcpuMain, pass: PcpuPass) -> Volume
        requires table { IsFrom main.old self.now × IsFrom pass.pass self.now }
        ensures ended { HasEnded percpu Join main.new main.old pass.pass }
        ensures volume { result ≡ pass.volume }
    {
        let PcpuPass {
            worker,
            cpu: _,
            volume,
        } = pass;
        main.end(&self.words, worker);
        volume
    }

    /// Ends the control pass.
    pub fn join_control(&self, main: &mut PcpuMain, pass: PcpuControl)
        requires table { IsFrom main.old self.now × IsFrom pass self.now }
        ensures ended { HasEnded percpu Join main.new main.old pass }
    {
        let PcpuControl { worker } = pass;
        main.end(&self.words, worker);
    }
}

impl PcpuPass {
    /// The CPU that the pass owns, and what holds of the pass between two calls.
    #[inline]
    pub fn cpu(&self) -> CpuId
        ensures owns { self.now.pass.cpu ≡ Some result }
        ensures ready { IsReady self.now.pass }
        ensures holds { HoldsSpending self.now.pass.facts self.now.pass.seen result.number self.now.volume }
    {
        self.cpu
    }

    /// What holds of the pass between two calls.
    #[inline]
    pub fn is_ready(&self)
        ensures { IsReady self.now.pass }
    {
        self.worker.is_live();
    }
}

impl PcpuControl {
    /// What holds of the pass between two calls.
    pub fn is_ready(&self)
        ensures ready { IsReady self.now }
        ensures none { self.now.cpu ≡ None }
    {
        self.worker.is_live();
    }
}
