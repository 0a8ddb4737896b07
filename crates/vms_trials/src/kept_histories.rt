use crate::devices::{Devices, SOUND};
use crate::runs::run_at;
use crate::texts::{FIRST_PHASE, LANES, SECOND_PHASE};
use std::alloc::Global;
use std::sync::Wait;
use std::test::Fail;
use std::thread::Threads;
use vms_base::Memory;
use vms_tool::{Histories, OpenGate, Status};

/// A call, its status, and how many phases it appends to the histories.
struct Row<'a> {
    name: &'a str,
    words: &'a [&'a str],
    text: &'a [&'a str],
    devices: Devices<'a>,
    status: Status,
    appends: usize,
}

static ROWS: [Row<'static>; 9] = [
    Row {
        name: "two phases are run",
        words: &["run"],
        text: &[LANES, FIRST_PHASE, SECOND_PHASE],
        devices: SOUND,
        status: Status::Done,
        appends: 2,
    },
    Row {
        name: "they are replayed",
        words: &["replay"],
        text: &[LANES, FIRST_PHASE, SECOND_PHASE],
        devices: SOUND,
        status: Status::Done,
        appends: 0,
    },
    Row {
        name: "they are checked",
        words: &["check"],
        text: &[LANES, FIRST_PHASE, SECOND_PHASE],
        devices: SOUND,
        status: Status::Done,
        appends: 0,
    },
    Row {
        name: "a phase is open where a read fails",
        words: &["run"],
        text: &[LANES, FIRST_PHASE, "c0 fold 0\n"],
        devices: Devices {
            failing_reads: &[2],
            ..SOUND
        },
        status: Status::ReadFault,
        appends: 1,
    },
    Row {
        name: "the first write fails, after two phases",
        words: &["run"],
        text: &[LANES, FIRST_PHASE, SECOND_PHASE],
        devices: Devices {
            failing_writes: &[1],
            ..SOUND
        },
        status: Status::WriteFault,
        appends: 2,
    },
    Row {
        name: "a header is refused",
        words: &["run"],
        text: &["vmtrace 3\n", FIRST_PHASE],
        devices: SOUND,
        status: Status::Header,
        appends: 0,
    },
    Row {
        name: "boundary lines make no phase",
        words: &["run"],
        text: &[LANES, "sync\nflush\nreport totals\n"],
        devices: SOUND,
        status: Status::Done,
        appends: 0,
    },
    Row {
        name: "one line is made and run",
        words: &["gen", "1", "1", "1"],
        text: &[],
        devices: SOUND,
        status: Status::Done,
        appends: 1,
    },
    Row {
        name: "words name no command",
        words: &["gen", "1", "1"],
        text: &[LANES, FIRST_PHASE],
        devices: SOUND,
        status: Status::Words,
        appends: 0,
    },
];

/// Whether a row has its status, and appends as many phases to the histories as it should.
fn appends<R: Threads + Wait + Sync>(
    rt: &R,
    alloc: Global,
    row: &Row<'_>,
    histories: &mut Histories,
) -> Result<bool, Memory> {
    let before = histories.phases.len();
    let text = row.text.concat(alloc)?;
    let (status, _src, _out) = run_at(
        rt,
        alloc,
        row.words,
        text.as_bytes(),
        row.devices,
        &OpenGate,
        histories,
    )?;
    Ok(status == row.status && histories.phases.len().checked_sub(before) == Some(row.appends))
}

#[test]
fn each_phase_of_a_run_is_appended(rt: HostRuntime) -> Result<(), Fail> {
    let mut histories = Histories::make(rt.alloc());
    for row in &ROWS {
        assert!(rt;
            appends(&rt, rt.alloc(), row, &mut histories)?,
            "{}",
            row.name
        );
    }
    Ok(())
}
