ghost use Rattle.std.specs.Prelude.{◌≡◌, ℕ, List, IfOk};
ghost use Rattle.vms_text.specs.declared.acts.Boundary.TheVariants.{Online};
ghost use Rattle.vms_own_acts.specs.Common.{IsExactly};
ghost use Rattle.vms_world.specs.Common.{AreAnswers, IsHeader, IsThresholdRule, bare_pages, normal_threshold_of};
ghost use Rattle.vms_world.specs.Common.{refreshed};
ghost use Rattle.vms_written.specs.Common.{CrossesPages};
ghost use Rattle.vms_page_crossings.specs.Crossings.{GoesByKernel, MayCrossPages};

use std::alloc::Global;
use vms_base::{CpuId, CpuState, Header, Memory, ZoneSize};
use vms_calc::{Rule, Rules, normal_threshold, pressure_threshold};
use vms_core::State;
use vms_hotplug::{flush_pages, refresh, start_pages};
use vms_text::Boundary;

/// The page counters that a run begins with.
pub fn first_pages(alloc: Global, header: &Header) -> Result<State, Memory>
    requires { IsHeader header.now }
    ensures { IfOk result (λ s. (zones : List ℕ)
        × AreAnswers header.now (IsExactly normal_threshold_of) header.now.layout.cpus zones
        × (s ≡ refreshed header.now zones (bare_pages header.now))) }
{
    first_by(
        alloc,
        header,
        |size: &ZoneSize, online: u32| normal_threshold(size, online),
        |size: &ZoneSize, online: u32| pressure_threshold(size, online),
    )
}

fn first_by<N: Rule, P: Rule>(
    alloc: Global,
    header: &Header,
    normal: N,
    pressure: P,
) -> Result<State, Memory>
    requires header { IsHeader header.now }
    requires normal { IsThresholdRule (N.accepts normal) (N.answers normal) }
    requires pressure { IsThresholdRule (P.accepts pressure) (P.answers pressure) }
    requires exact { GoesByKernel (N.answers normal) }
    ensures { IfOk result (λ s. (zones : List ℕ)
        × AreAnswers header.now (IsExactly normal_threshold_of) header.now.layout.cpus zones
        × (s ≡ refreshed header.now zones (bare_pages header.now))) }
{
    start_pages(alloc, header, &Rules::make(normal, pressure))
}

/// Crosses a boundary line that counts.
pub fn cross(pages: &mut State, header: &Header, boundary: Boundary)
    requires header { IsHeader header.now }
    requires may { MayCrossPages header.now boundary pages.old }
    ensures { CrossesPages header.now (IsExactly normal_threshold_of) boundary pages.old pages.new }
{
    match boundary {
        Boundary::Offline(cpu) => pages.cpu.set(cpu.number as usize, CpuState::Dead),
        Boundary::Online(cpu) => bring_up(pages, header, cpu),
        Boundary::Flush => flush_pages(pages, &header.layout),
        Boundary::Sync => {}
        Boundary::Report(_) => {}
    }
}

/// Brings an absent CPU up.
fn bring_up(pages: &mut State, header: &Header, cpu: CpuId)
    requires header { IsHeader header.now }
    requires may { MayCrossPages header.now (Online cpu) pages.old }
    ensures { CrossesPages header.now (IsExactly normal_threshold_of) (Online cpu) pages.old pages.new }
{
    bring_up_by(
        pages,
        header,
        cpu,
        |size: &ZoneSize, online: u32| normal_threshold(size, online),
        |size: &ZoneSize, online: u32| pressure_threshold(size, online),
    );
}

fn bring_up_by<N: Rule, P: Rule>(
    pages: &mut State,
    header: &Header,
    cpu: CpuId,
    normal: N,
    pressure: P,
)
    requires header { IsHeader header.now }
    requires may { MayCrossPages header.now (Online cpu) pages.old }
    requires normal { IsThresholdRule (N.accepts normal) (N.answers normal) }
    requires pressure { IsThresholdRule (P.accepts pressure) (P.answers pressure) }
    requires exact { GoesByKernel (N.answers normal) }
    ensures { CrossesPages header.now (IsExactly normal_threshold_of) (Online cpu) pages.old pages.new }
{
    pages.cpu.set(cpu.number as usize, CpuState::Online);
    refresh(pages, header, &Rules::make(normal, pressure));
}
