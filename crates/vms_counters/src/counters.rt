ghost use Rattle.std.specs.Prelude.{◌≡◌, ◌<◌, ◌↔◌, All, IfOk, IfErr, IsSome, IsTrue, MatchResult, None, Some, length};
ghost use Rattle.std.specs.Prelude.{replicate, slice_index_or, slice_set};
ghost use Rattle.vms_world.specs.Common.{IsHeader, IsWorldOf};
ghost use Rattle.vms_tables.specs.Common.{mains_of, AreFrom, AreMadeFrom, AreTables, HaveSeenNothing};
ghost use Rattle.vms_base.specs.declared.kinds.CpuState.TheVariants.{Online};
ghost use Rattle.vms_counters.specs.Opened.{AreClosed, AreOpened, AreOpenedAt, BeginsControl, BeginsHandle};
ghost use Rattle.vms_counters.specs.Opened.{EndsControl, EndsHandle, IsOf, no_volumes as no_volumes_of};
ghost use Rattle.vms_counters.specs.Refusals.{RefusesControl, RefusesHandle};

use crate::closing::{Closed, close_tables};
use crate::control_handles::ControlHandle;
use crate::errors::BeginError;
use crate::handles::Handle;
use crate::passes::{begin_control_passes, begin_passes, end_control_passes, end_passes};
use crate::shared::SharedCounters;
use std::alloc::Global;
use std::marker::Model;
use std::sync::Arc;
use vms_base::{CpuId, CpuState, CpuVolumes, Header, Memory, Row};
use vms_calc::{Rule, Rules};
use vms_event::EventCaller;
use vms_hotplug::start;
use vms_tables::{MainPasses, Tables};
use vms_words::Caller;
use vms_world::World;

/// How many events are counted.
pub(crate) const EVENTS: usize = 8;

/// Open counters. They begin and end the handles by which threads change them.
#[derive(Drop)]
pub struct Counters {
    shared: Arc<SharedCounters, Global>,
    mains: MainPasses,
    /// What each CPU has changed by, in absolute sum; none while a handle has it.
    volumes: Vec<Option<CpuVolumes>>,
    /// Whether the control handle may begin.
    control: bool,
    /// Where the last state is written. Until then it tells which CPUs are online.
    last: World,
}

impl Model for Counters {
    ghost use Rattle.vms_counters.specs.Opened.{Opened};

    ghost Value = { Opened };

    ghost use Rattle.std.specs.Arc.{arc_value};
    ghost use Rattle.vms_counters.specs.Opened.{AreCounters};
    ghost use Rattle.vms_tables.specs.Common.{mains_of};

    ghost view = { λ c. record {
      header = (arc_value c.shared).header;
      tables = (arc_value c.shared).tables;
      mains = mains_of c.mains;
      volumes = c.volumes.items;
      control = c.control;
    } };

    ghost invariant = { λ c. AreCounters (arc_value c.shared).header (arc_value c.shared).tables c.last
        (mains_of c.mains) c.volumes.items c.control };
}

impl Counters {
    /// Counters with the layout, the sizes and the values of a header, with every CPU online and the thresholds that
    /// the normal rule answers. Their words are taken here.
    pub fn open<N: Rule, P: Rule>(
        alloc: Global,
        header: Header,
        rules: &Rules<N, P>,
    ) -> Result<Counters, Memory>
        requires { IsHeader header }
        ensures { IfOk result (AreOpened header (N.answers rules.now.normal)) }
    {
        let world = start(alloc, &header, rules)?;
        Counters::open_at(alloc, header, world)
    }

    /// Counters that begin with a world of the header: with what it counts, its thresholds, and the CPUs online, dead
    /// and absent as they are there. Their words are taken here.
    pub fn open_at(alloc: Global, header: Header, world: World) -> Result<Counters, Memory>
        requires valid { IsHeader header }
        requires world { IsWorldOf header world }
        ensures { IfOk result (AreOpenedAt header world) }
    {
        let volumes = first_volumes(alloc, &header)?;
        let (tables, mains) = Tables::make(alloc, &header, &world)?;
        Counters::over(alloc, header, world, volumes, tables, mains)
    }

    /// Counters over the tables that were made of the world.
    fn over(
        alloc: Global,
        header: Header,
        world: World,
        volumes: Vec<Option<CpuVolumes>>,
        tables: Tables,
        mains: MainPasses,
    ) -> Result<Counters, Memory>
        requires valid { IsHeader header }
        requires world { IsWorldOf header world }
        requires volumes { volumes.items ≡ replicate header.layout.cpus (Some (no_volumes_of header)) }
        requires tables { AreTables header tables }
        requires made { AreMadeFrom world tables }
        requires of { AreFrom tables (mains_of mains) }
        requires nothing { HaveSeenNothing (mains_of mains) }
        ensures { IfOk result (AreOpenedAt header world) }
    {
        let shared = Arc::new(alloc, SharedCounters { header, tables })?;
        Ok(Counters {
            shared,
            mains,
            volumes,
            control: true,
            last: world,
        })
    }

    /// The header that the counters were opened with.
    pub fn header(&self) -> &Header
        ensures { result.now ≡ self.now.header }
    {
        &self.shared.header
    }

    /// Begins a handle that owns a CPU.
    pub fn begin(&mut self, cpu: CpuId) -> Result<Handle, BeginError>
        ensures { MatchResult result (BeginsHandle self.new self.old cpu) (RefusesHandle self.new self.old cpu) }
    {
        let at = cpu.number as usize;
        if at >= self.volumes.len() {
            return Err(BeginError::NotOnline(cpu.number));
        }
        if !is_online(self.last.pages.cpu_at(cpu)) {
            return Err(BeginError::NotOnline(cpu.number));
        }
        if self.volumes[at].is_none() {
            return Err(BeginError::HasHandle(cpu.number));
        }
        let Ok(shared) = Arc::try_clone(&self.shared) else {
            return Err(BeginError::Memory(Memory));
        };
        let volumes = take_kept(&mut self.volumes, at);
        let passes = begin_passes(&shared.tables, &mut self.mains, cpu, volumes);
        Ok(Handle {
            shared,
            cpu,
            passes,
        })
    }

    /// Ends a handle that these counters began.
    pub fn end(&mut self, handle: Handle)
        requires { IsOf handle self.old }
        ensures { EndsHandle self.new self.old handle }
    {
        let Handle {
            shared: _,
            cpu,
            passes,
        } = handle;
        passes.page.holds_spending();
        passes.pcpu.cpu();
        let volumes = end_passes(&self.shared.tables, &mut self.mains, passes);
        self.volumes[cpu.number as usize] = Some(volumes);
    }

    /// Begins the control handle, of which there is one at a time.
    pub fn begin_control(&mut self) -> Result<ControlHandle, BeginError>
        ensures { MatchResult result (BeginsControl self.new self.old) (RefusesControl self.new self.old) }
    {
        if !self.control {
            return Err(BeginError::HasControl);
        }
        let Ok(shared) = Arc::try_clone(&self.shared) else {
            return Err(BeginError::Memory(Memory));
        };
        let passes = begin_control_passes(&shared.tables, &mut self.mains);
        self.control = false;
        Ok(ControlHandle { shared, passes })
    }

    /// Ends a control handle that these counters began.
    pub fn end_control(&mut self, handle: ControlHandle)
        requires { IsOf handle self.old }
        ensures { EndsControl self.new self.old handle }
    {
        let ControlHandle { shared: _, passes } = handle;
        passes.page.is_live();
        passes.event.is_control();
        passes.pcpu.is_ready();
        end_control_passes(&self.shared.tables, &mut self.mains, passes);
        self.control = true;
    }

    /// Closes the counters. Where a handle hasn't ended they are given back as they are.
    pub fn close(self) -> Result<Closed, Counters>
        ensures ok { IfOk result (AreClosed self) }
        ensures err { IfErr result (λ back. back ≡ self) }
    {
        if !self.control || !all_kept(self.volumes.as_slice()) {
            return Err(self);
        }
        let Counters {
            shared,
            mains,
            volumes,
            control,
            last,
        } = self;
        match Arc::try_unwrap(shared) {
            Ok(SharedCounters { header: _, tables }) => Ok(close_tables(tables, mains, last)),
            Err(shared) => Err(Counters {
                shared,
                mains,
                volumes,
                control,
                last,
            }),
        }
    }
}

fn is_online(state: CpuState) -> bool
    ensures { IsTrue result ↔ (state ≡ Online) }
{
    match state {
        CpuState::Online => true,
        CpuState::Dead | CpuState::Absent => false,
    }
}

/// Whether the volumes of every CPU are kept.
fn all_kept(volumes: &[Option<CpuVolumes>]) -> bool
    ensures { IsTrue result ↔ All IsSome volumes.now }
{
    volumes.iter().all(|volume| volume.is_some())
}

/// Takes the volumes that are kept for a CPU.
fn take_kept(volumes: &mut Vec<Option<CpuVolumes>>, at: usize) -> CpuVolumes
    requires within { at < length volumes.old.items }
    requires kept { IsSome (slice_index_or volumes.old.items at None) }
    ensures value { slice_index_or volumes.old.items at None ≡ Some result }
    ensures after { volumes.new.items ≡ slice_set volumes.old.items at None }
{
    let Some(volume) = volumes[at].take() else {
        unreachable!();
    };
    volume
}

/// No CPU has changed anything.
fn first_volumes(alloc: Global, header: &Header) -> Result<Vec<Option<CpuVolumes>>, Memory>
    ensures { IfOk result (λ volumes. volumes.items
        ≡ replicate header.now.layout.cpus (Some (no_volumes_of header.now))) }
{
    let cpus = header.layout.cpus();
    let mut volumes = Vec::with_capacity(alloc, cpus as usize)?;
    for _cpu in 0..cpus {
        volumes.push(Some(no_volumes(alloc, header)?))?;
    }
    Ok(volumes)
}

/// A CPU has changed nothing.
fn no_volumes(alloc: Global, header: &Header) -> Result<CpuVolumes, Memory>
    ensures { IfOk result (λ volumes. volumes ≡ no_volumes_of header.now) }
{
    Ok(CpuVolumes {
        page: Row::filled(alloc, header.layout.counters() as usize, 0)?,
        event: Row::filled(alloc, EVENTS, 0)?,
        pcpu: Row::filled(alloc, header.counters.len(), 0)?,
    })
}
