ghost use Rattle.std.specs.Prelude.{◌≡◌, ℕ, ◌≤◌, List, length, All};
ghost use Rattle.vms_world.specs.Common.{is_online as tells_online, IsLayout, IsValidSize, AreAnswers, MayRefresh};
ghost use Rattle.vms_world.specs.Common.{count_online, refreshed};

use crate::settings::{set_marks, set_thresholds, zone_thresholds};
use vms_base::{CpuState, Header};
use vms_calc::{Rule, Rules};
use vms_core::State;

/// Gives the online CPUs the thresholds that the normal rule answers for so many, and each zone a mark that covers them
/// (`refresh_zone_stat_thresholds` of mm/vmstat.c). The rule is asked once for each zone.
pub fn refresh<N: Rule, P: Rule>(pages: &mut State, header: &Header, rules: &Rules<N, P>)
    requires layout { IsLayout header.now.layout }
    requires unrated { MayRefresh header.now.layout pages.old }
    requires one_size_each { length header.now.sizes ≡ length header.now.layout.zones }
    requires sizes { All IsValidSize header.now.sizes }
    ensures { (zones : List ℕ) × AreAnswers header.now (N.answers rules.now.normal) (count_online pages.old.cpu) zones
        × (pages.new ≡ refreshed header.now zones pages.old) }
{
    let online = online_cpus(pages.cpu.as_slice());
    let zones = zone_thresholds(header.sizes.as_slice(), online, rules);
    set_thresholds(
        &mut pages.threshold,
        &pages.cpu,
        &header.layout,
        zones.as_slice(),
    );
    set_marks(pages, header, online, zones.as_slice());
}

/// How many CPUs are online.
fn online_cpus(states: &[CpuState]) -> u32
    requires { length states.now ≤ 128 }
    ensures { result ≡ count_online states.now }
{
    states.iter().filter(|state| is_online(**state)).count() as u32
}

#[inline]
pub(crate) fn is_online(state: CpuState) -> bool
    ensures { result ≡ tells_online state }
{
    match state {
        CpuState::Online => true,
        CpuState::Dead | CpuState::Absent => false,
    }
}
