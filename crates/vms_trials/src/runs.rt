use crate::devices::Devices;
use std::alloc::Global;
use std::sync::Wait;
use std::thread::Threads;
use vms_base::Memory;
use vms_io::{MemSink, MemSource};
use vms_tool::{Gate, Histories, Status, tool};

/// Runs what the words name on a text: its status, and the devices as it left them. The lanes call this gate, and the
/// histories of phases on threads are appended to these.
pub fn run_at<R: Threads + Wait + Sync, G: Gate>(
    rt: &R,
    alloc: Global,
    words: &[&str],
    text: &[u8],
    devices: Devices<'_>,
    gate: &G,
    histories: &mut Histories,
) -> Result<(Status, MemSource, MemSink), Memory> {
    let mut owned = Vec::new(alloc);
    for word in words {
        owned.push(String::from_str(alloc, word)?)?;
    }
    let bytes = Vec::from_slice(alloc, text)?;
    let fails = Vec::from_slice(alloc, devices.failing_reads)?;
    let mut src = MemSource::make(bytes, devices.read.max(1), fails);
    let fails = Vec::from_slice(alloc, devices.failing_writes)?;
    let mut out = MemSink::make(alloc, devices.write.max(1), fails, devices.room)?;
    let mut notes = MemSink::make(alloc, 1, Vec::new(alloc), 0)?;
    let status = tool(
        rt,
        alloc,
        owned.as_slice(),
        &mut src,
        &mut out,
        &mut notes,
        gate,
        histories,
    );
    Ok((status, src, out))
}
