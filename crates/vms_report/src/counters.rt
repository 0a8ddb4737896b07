ghost use Rattle.std.specs.Prelude.{◌≡◌, ◌∷◌, [], ◌++◌, ◌<◌, codes, decimal, flat_map, length, map, OnErr, OnOk};
ghost use Rattle.std.specs.Fmt.{signed_decimal};
ghost use Rattle.vms_world.specs.Common.{present_from, count_at, local_at, Counters, sentence, spaced, IsWorldOf};
ghost use Rattle.vms_plain_pcpu.specs.Common.{total_in};
ghost use Rattle.vms_report.specs.Counters.{percpu_counter_words};
ghost use Rattle.vms_report.specs.Reports.{report_of};
ghost use Rattle.vms_text.specs.Writing.{Begins};

use crate::all_cpus::{counter_total, local};
use crate::lines::{is_present, push_next_number};
use vms_base::{CpuId, Decl, Header, Memory};
use vms_plain_pcpu::present_cpus_hold_all;
use vms_world::World;

/// Appends a line for each percpu counter (`struct percpu_counter` of the kernel): its batch, its shared part, the
/// local part of each CPU that is online or dead, and what these come to. After a failure `out` may end in a part of
/// the report.
pub fn write_counters(out: &mut Vec<u8>, header: &Header, world: &World) -> Result<(), Memory>
    requires { IsWorldOf header.now world.now }
    ensures ok { OnOk result (out.new.items ≡ out.old.items ++ report_of header.now world.now Counters) }
    ensures err { OnErr result (Begins out.old.items out.new.items) }
{
    let (counters, cpus) = (header.counters.len().min(16), header.layout.cpus() as usize);
    // A header declares at most 16. A line has at most 88 bytes, and 7 for each local part.
    out.reserve(counters * (88 + 7 * cpus))?;
    for (counter, decl) in header.counters.as_slice().iter().enumerate() {
        write_counter(out, header, world, counter, decl)?;
    }
    Ok(())
}

fn write_counter(
    out: &mut Vec<u8>,
    header: &Header,
    world: &World,
    counter: usize,
    decl: &Decl,
) -> Result<(), Memory>
    requires world { IsWorldOf header.now world.now }
    requires counter { counter < length header.now.counters }
    ensures ok { OnOk result
        (out.new.items ≡ out.old.items
        ++ sentence (percpu_counter_words world.now (counter, decl.now))) }
    ensures err { OnErr result (Begins out.old.items out.new.items) }
{
    push_shared(out, decl, world.counters.count.get(counter))?;
    push_locals(out, header, world, counter)?;
    push_sum(out, total(header, world, counter))
}

/// Appends `NAME batch B count C locals`.
fn push_shared(out: &mut Vec<u8>, decl: &Decl, count: i64) -> Result<(), Memory>
    ensures ok { OnOk result (out.new.items ≡ out.old.items ++ decl.now.name ++ spaced (codes "batch"
        ∷ decimal decl.now.batch ∷ codes "count" ∷ signed_decimal count ∷ codes "locals" ∷ [])) }
    ensures err { OnErr result (Begins out.old.items out.new.items) }
{
    out.extend_from_slice(decl.name.as_slice())?;
    out.extend_from_slice(b" batch")?;
    push_next_number(out, i64::from(decl.batch))?;
    out.extend_from_slice(b" count")?;
    push_next_number(out, count)?;
    out.extend_from_slice(b" locals")?;
    Ok(())
}

/// Appends the local part of each CPU that is present, each after a blank.
fn push_locals(
    out: &mut Vec<u8>,
    header: &Header,
    world: &World,
    counter: usize,
) -> Result<(), Memory>
    requires world { IsWorldOf header.now world.now }
    requires counter { counter < length header.now.counters }
    ensures ok { OnOk result (out.new.items ≡ out.old.items
        ++ spaced (map (λ cpu. signed_decimal (local_at world.now.counters cpu.number counter))
        (present_from 0 world.now.pages.cpu))) }
    ensures err { OnErr result (Begins out.old.items out.new.items) }
{
    for (number, state) in world.pages.cpu.as_slice().iter().enumerate() {
        let cpu = CpuId {
            number: number as u32,
        };
        if is_present(*state) {
            push_next_number(out, local(&world.counters, &header.layout, cpu, counter))?;
        }
    }
    Ok(())
}

/// The shared part of a counter and the local part of each CPU that is present. An absent CPU has none.
fn total(header: &Header, world: &World, counter: usize) -> i64
    requires world { IsWorldOf header.now world.now }
    requires counter { counter < length header.now.counters }
    ensures { result ≡ total_in world.now.counters world.now.pages.cpu counter }
{
    present_cpus_hold_all();
    counter_total(&world.counters, &header.layout, counter)
}

/// Appends ` sum S`, and the byte that ends the line.
fn push_sum(out: &mut Vec<u8>, sum: i64) -> Result<(), Memory>
    ensures ok { OnOk result (out.new.items
        ≡ out.old.items ++ spaced (codes "sum" ∷ signed_decimal sum ∷ []) ++ 10 ∷ []) }
    ensures err { OnErr result (Begins out.old.items out.new.items) }
{
    out.extend_from_slice(b" sum")?;
    push_next_number(out, sum)?;
    out.push(b'\n')?;
    Ok(())
}
