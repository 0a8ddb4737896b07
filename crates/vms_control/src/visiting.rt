ghost use Rattle.std.specs.Prelude.{◌≡◌, ℕ, ◌<◌, ◌≤◌, List, Option, length, suc};
ghost use Rattle.vms_calls.specs.Common.{IsZone, most_threshold, Visits, acknowledged_steps, Step, IsControl, pages};
ghost use Rattle.vms_calls.specs.Common.{rated_by};
ghost use Rattle.vms_calls.specs.declared.choices.Rating.TheVariants.{Refresh};
ghost use Rattle.vms_control.specs.Online.{FoundOnline};
ghost use Rattle.vms_control.specs.SetCounts.{MayStillSet, SetsAtMost, once};
ghost use Rattle.vms_seats.specs.Common.{IsFrom, Made};

use crate::rating::rate;
use vms_base::{CpuId, Header, PlaceId};
use vms_calc::{Rule, Rules};
use vms_calls::{Rating, choose, control_passes_know_by_own_steps, spares};
use vms_words::{Caller, ControlPass, PageTable};

/// Looks what was acknowledged of a zone and what its mark is, and gives it the thresholds of the call. Returns the
/// threshold, in pages, or 0 where none was set.
pub(crate) fn visit<N: Rule, P: Rule>(
    table: &PageTable,
    pass: &mut ControlPass,
    header: &Header,
    rules: &Rules<N, P>,
    zone: PlaceId,
    online: &[CpuId],
    rating: Rating,
) -> u32
    requires table { IsFrom pass.old table.now }
    requires sizes { header.now.sizes ≡ table.now.facts.sizes }
    requires zone { IsZone table.now.facts.layout zone.number }
    requires online { FoundOnline table.now.facts online.now }
    requires room { IsControl pass.old.seen pass.old.number →
        MayStillSet table.now.facts pass.old.seen zone.number }
    ensures made { (steps : List Step) × Visits table.now.facts pass.old.number online.now
        (rated_by rating (P.answers rules.now.pressure) (N.answers rules.now.normal) table.now.facts pass.old.number
        online.now) zone.number result pass.old.seen steps × Made pages pass.new pass.old steps }
    ensures control { IsControl pass.old.seen pass.old.number }
    ensures sets { SetsAtMost table.now.facts (once zone.number (suc zone.number))
        (once zone.number (suc zone.number)) pass.new.seen pass.old.seen }
    ensures least { rating ≡ Refresh → 1 ≤ result }
    ensures most { result ≤ most_threshold }
{
    // What a pass computed from peaks stands, whatever others did meanwhile.
    control_passes_know_by_own_steps();
    load_acknowledged(table, pass, zone, online);
    let found = table.load_mark(pass, zone).mark;
    if spares(rating, found) {
        return 0;
    }
    let size = header.sizes.get(zone.number as usize);
    let chosen = choose(rules, rating, &size, online.len() as u32);
    rate(table, pass, zone, &size, found, online, chosen);
    chosen.threshold
}

/// Looks what CPUs acknowledged of a zone. One that acknowledged the threshold that stands uses no larger one any more.
fn load_acknowledged(table: &PageTable, pass: &mut ControlPass, zone: PlaceId, online: &[CpuId])
    requires table { IsFrom pass.old table.now }
    requires zone { IsZone table.now.facts.layout zone.number }
    requires online { FoundOnline table.now.facts online.now }
    ensures made { (numbers : List (Option ℕ)) × (length numbers ≡ length online.now)
        × Made pages pass.new pass.old (acknowledged_steps zone.number online.now numbers) }
    ensures control { IsControl pass.old.seen pass.old.number }
{
    pass.is_live();
    for cpu in online {
        table.load_acknowledged(pass, *cpu, zone);
    }
}
