ghost use Rattle.std.specs.Prelude.{◌≡◌, ◌++◌, [], ◌∷◌, List, IfOk};
ghost use Rattle.vms_world.specs.Common.{IsHeader, Item, Gave, ArePlainTotals};

use crate::headers::{ONE_ZONE, header};
use std::alloc::Global;
use std::test::Fail;
use vms_base::{Header, Memory};
use vms_script::{FeedError, PageTotals, PhaseScript, Scripter, plain_totals};

/// The next phase of a scripter that holds no line, which has this lane line alone.
fn phase_of(scripter: &mut Scripter, header: &Header, line: &str) -> Result<PhaseScript, FeedError>
    requires header { IsHeader header.now }
    requires scripter { (phases : List (List Item)) × Gave header.now phases scripter.old }
    requires none { scripter.old.items.items ≡ [] }
    ensures gave { (phases : List (List Item)) → Gave header.now phases scripter.old →
        IfOk result (λ phase. Gave header.now (phases ++ phase ∷ []) scripter.new) }
    ensures none { IfOk result (λ _. scripter.new.items.items ≡ []) }
{
    scripter.feed(header, 1, line.as_bytes())?;
    Ok(scripter.take_phase())
}

/// The plain totals of the phases that a scripter gave.
fn totals_of(
    alloc: Global,
    header: &Header,
    scripter: &Scripter,
    phases: &[PhaseScript],
) -> Result<PageTotals, Memory>
    requires header { IsHeader header.now }
    requires gave { Gave header.now phases.now scripter.now }
    ensures { IfOk result (λ totals. ArePlainTotals header.now phases.now totals) }
{
    plain_totals(alloc, header, phases)
}

#[test]
fn adds_up_what_a_scripter_gave(rt: HostRuntime) -> Result<(), Fail> {
    let header = header(&rt, ONE_ZONE)?;
    let mut scripter = Scripter::make(rt.alloc(), &header)?;
    let first = phase_of(&mut scripter, &header, "c0 mod 0 Normal nr_free_pages 18")?;
    let second = phase_of(&mut scripter, &header, "c1 dec 0 Normal nr_free_pages")?;
    let phases = vec![in rt.alloc(); first, second]?;
    let totals = totals_of(rt.alloc(), &header, &scripter, phases.as_slice())?;
    assert_eq!(rt; totals.len(), header.layout.counters() as usize);
    assert_eq!(rt; totals.as_slice().first().copied(), Some(10_017));
    assert_eq!(rt; totals.as_slice().get(1).copied(), Some(0));
    Ok(())
}
