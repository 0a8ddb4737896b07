ghost use Rattle.std.specs.Prelude.{◌≡◌, map};
ghost use Rattle.vms_base.specs.Common.{IsHeader};
ghost use Rattle.vms_line.specs.Forms.{amount_fields, change_fields, count_fields, counter_fields, event_fields};
ghost use Rattle.vms_line.specs.Forms.{limited_fields, marked_fields, name_fields, node_fields, number_fields};
ghost use Rattle.vms_line.specs.Forms.{one_cpu_fields, paged_fields, turn_fields, value_fields};

use crate::LineCause;
use crate::fields::{
    amount_field, counter_field, cpu_field, event_field, in_pages, index_field, index_under,
    limit_field, mark_named, node_field, number_up_to, page_counter, pcpu_field, system_field,
    zone_field,
};
use vms_base::{CounterId, CpuId, EventId, Header, ItemId, PcpuId, PlaceId, WaterMark};

/// `PLACE ITEM DELTA`: a counter, and an amount in pages.
pub(crate) fn change_fields(
    header: &Header,
    fields: &[&[u8]],
) -> Result<(CounterId, i64), LineCause>
    requires { IsHeader header.now }
    ensures { result ≡ change_fields header.now (map (λ word. word.now) fields.now) }
{
    let [node, kind, item, delta] = fields else {
        return Err(LineCause::Malformed);
    };
    let counter = counter_field(header, node, kind, item)?;
    let amount = amount_field(delta)?;
    let pages = in_pages(header, counter, amount)?;
    Ok((counter, pages))
}

/// `PLACE ITEM`: a counter that a trace gives in pages.
pub(crate) fn paged_fields(header: &Header, fields: &[&[u8]]) -> Result<CounterId, LineCause>
    requires { IsHeader header.now }
    ensures { result ≡ paged_fields header.now (map (λ word. word.now) fields.now) }
{
    let [node, kind, item] = fields else {
        return Err(LineCause::Malformed);
    };
    let counter = counter_field(header, node, kind, item)?;
    page_counter(header, counter)
}

/// `PLACE ITEM`: a counter.
pub(crate) fn counter_fields(header: &Header, fields: &[&[u8]]) -> Result<CounterId, LineCause>
    requires { IsHeader header.now }
    ensures { result ≡ counter_fields header.now (map (λ word. word.now) fields.now) }
{
    let [node, kind, item] = fields else {
        return Err(LineCause::Malformed);
    };
    counter_field(header, node, kind, item)
}

/// `EVENT`: an event.
pub(crate) fn event_fields(fields: &[&[u8]]) -> Result<EventId, LineCause>
    ensures { result ≡ event_fields (map (λ word. word.now) fields.now) }
{
    let [event] = fields else {
        return Err(LineCause::Malformed);
    };
    event_field(event)
}

/// `EVENT N`: an event, and how often it came.
pub(crate) fn count_fields(fields: &[&[u8]]) -> Result<(EventId, u64), LineCause>
    ensures { result ≡ count_fields (map (λ word. word.now) fields.now) }
{
    let [event, number] = fields else {
        return Err(LineCause::Malformed);
    };
    let event = event_field(event)?;
    let number = number_up_to((1 << 63) - 1, number)?;
    Ok((event, number))
}

/// `NAME`: a percpu counter.
pub(crate) fn name_fields(header: &Header, fields: &[&[u8]]) -> Result<PcpuId, LineCause>
    requires { IsHeader header.now }
    ensures { result ≡ name_fields header.now (map (λ word. word.now) fields.now) }
{
    let [name] = fields else {
        return Err(LineCause::Malformed);
    };
    pcpu_field(header, name)
}

/// `NAME AMOUNT`: a percpu counter, and an amount.
pub(crate) fn amount_fields(header: &Header, fields: &[&[u8]]) -> Result<(PcpuId, i64), LineCause>
    requires { IsHeader header.now }
    ensures { result ≡ amount_fields header.now (map (λ word. word.now) fields.now) }
{
    let [name, amount] = fields else {
        return Err(LineCause::Malformed);
    };
    let counter = pcpu_field(header, name)?;
    let amount = amount_field(amount)?;
    Ok((counter, amount))
}

/// `NAME NUMBER`: a percpu counter, and a number that it is compared with.
pub(crate) fn number_fields(header: &Header, fields: &[&[u8]]) -> Result<(PcpuId, i64), LineCause>
    requires { IsHeader header.now }
    ensures { result ≡ number_fields header.now (map (λ word. word.now) fields.now) }
{
    let [name, number] = fields else {
        return Err(LineCause::Malformed);
    };
    let counter = pcpu_field(header, name)?;
    let number = limit_field(number)?;
    Ok((counter, number))
}

/// `NAME LIMIT AMOUNT`: a percpu counter, a limit and an amount.
pub(crate) fn limited_fields(
    header: &Header,
    fields: &[&[u8]],
) -> Result<(PcpuId, i64, i64), LineCause>
    requires { IsHeader header.now }
    ensures { result ≡ limited_fields header.now (map (λ word. word.now) fields.now) }
{
    let [name, limit, amount] = fields else {
        return Err(LineCause::Malformed);
    };
    let counter = pcpu_field(header, name)?;
    let limit = limit_field(limit)?;
    let amount = amount_field(amount)?;
    Ok((counter, limit, amount))
}

/// `CPU`: a CPU.
pub(crate) fn one_cpu_fields(header: &Header, fields: &[&[u8]]) -> Result<CpuId, LineCause>
    ensures { result ≡ one_cpu_fields header.now (map (λ word. word.now) fields.now) }
{
    let [cpu] = fields else {
        return Err(LineCause::Malformed);
    };
    cpu_field(header, cpu)
}

/// `NODE`: a node.
pub(crate) fn node_fields(header: &Header, fields: &[&[u8]]) -> Result<PlaceId, LineCause>
    ensures { result ≡ node_fields header.now (map (λ word. word.now) fields.now) }
{
    let [node] = fields else {
        return Err(LineCause::Malformed);
    };
    node_field(header, node)
}

/// `ITEM`: a system-wide value.
pub(crate) fn value_fields(header: &Header, fields: &[&[u8]]) -> Result<ItemId, LineCause>
    requires { IsHeader header.now }
    ensures { result ≡ value_fields header.now (map (λ word. word.now) fields.now) }
{
    let [item] = fields else {
        return Err(LineCause::Malformed);
    };
    system_field(header, item)
}

/// `PLACE MARK IDX`: a zone, a watermark and the highest zone index; a mark that isn't listed is judged first.
pub(crate) fn marked_fields(
    header: &Header,
    fields: &[&[u8]],
) -> Result<(PlaceId, WaterMark, u32), LineCause>
    ensures { result ≡ marked_fields header.now (map (λ word. word.now) fields.now) }
{
    let [node, kind, mark, index] = fields else {
        return Err(LineCause::Malformed);
    };
    let mark = mark_named(mark).ok_or(LineCause::Malformed)?;
    let zone = zone_field(header, node, kind)?;
    let index = index_field(3, index)?;
    Ok((zone, mark, index))
}

/// `NODE ORDER IDX`: a node, an order and the highest zone index.
pub(crate) fn turn_fields(
    header: &Header,
    fields: &[&[u8]],
) -> Result<(PlaceId, u32, u32), LineCause>
    ensures { result ≡ turn_fields header.now (map (λ word. word.now) fields.now) }
{
    let [node, order, index] = fields else {
        return Err(LineCause::Malformed);
    };
    let node = node_field(header, node)?;
    let order = index_field(10, order)?;
    let index = index_field(3, index)?;
    let index = index_under(header, node, index)?;
    Ok((node, order, index))
}
