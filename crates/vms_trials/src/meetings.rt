use crate::devices::SOUND;
use crate::runs::run_at;
use crate::texts::LANES;
use crossbeam_utils::Backoff;
use std::alloc::Global;
use std::sync::Wait;
use std::sync::atomic::{AtomicU64, Ordering};
use std::test::Fail;
use std::thread::Threads;
use vms_base::Memory;
use vms_tool::{Gate, Histories, Status};

/// How often a lane looks whether the other one has come, before it goes on alone.
const TURNS: u32 = 1_000_000;

/// A line of a lane.
#[derive(Clone, Copy)]
struct Stop {
    lane: u32,
    line: u32,
}

/// A stop, and what came of it: 0 or 1 in each word.
#[derive(Drop)]
struct Held {
    stop: Stop,
    /// The lane has come to it.
    come: AtomicU64,
    /// The other lane came to its own stop while this lane was held.
    met: AtomicU64,
}

impl Held {
    fn at(stop: Stop) -> Held {
        Held {
            stop,
            come: AtomicU64::new(0),
            met: AtomicU64::new(0),
        }
    }

    /// Notes that the lane has come, and holds it until the other has, or for so many turns.
    fn wait_for(&self, other: &Held) {
        self.come.store(1, Ordering::SeqCst);
        let backoff = Backoff::new();
        for _ in 0..TURNS {
            if other.come.load(Ordering::SeqCst) == 1 {
                self.met.store(1, Ordering::SeqCst);
                return;
            }
            backoff.snooze();
        }
    }
}

/// Holds two lanes up, each at a line of its own, until the other one has come to its line.
#[derive(Drop)]
struct Meeting {
    first: Held,
    second: Held,
}

impl Meeting {
    fn of(first: Stop, second: Stop) -> Meeting {
        Meeting {
            first: Held::at(first),
            second: Held::at(second),
        }
    }

    /// Whether each lane was at its line while the other one was at its own.
    fn took_place(&self) -> bool {
        self.first.met.load(Ordering::SeqCst) == 1 && self.second.met.load(Ordering::SeqCst) == 1
    }
}

impl Gate for Meeting {
    fn at(&self, lane: u32, line: u32) {
        if lane == self.first.stop.lane && line == self.first.stop.line {
            self.first.wait_for(&self.second);
        } else if lane == self.second.stop.lane && line == self.second.stop.line {
            self.second.wait_for(&self.first);
        }
    }
}

/// Lanes after `LANES`, and the second line of two of them in their last phase.
struct Row<'a> {
    name: &'a str,
    body: &'a str,
    first: Stop,
    second: Stop,
}

static ROWS: [Row<'static>; 5] = [
    Row {
        name: "the lanes of two CPUs, line by line",
        body: "c0 inc 0 Normal nr_mlock
c1 inc 0 Normal nr_mlock
c0 fold 1
c1 fold 0
",
        first: Stop { lane: 0, line: 10 },
        second: Stop { lane: 1, line: 11 },
    },
    Row {
        name: "the lanes of two CPUs, one after the other",
        body: "c1 cnt files 40
c1 sum files
c0 cnt files 40
c0 sum files
",
        first: Stop { lane: 1, line: 9 },
        second: Stop { lane: 0, line: 11 },
    },
    Row {
        name: "the lane of a CPU and the control lane",
        body: "c0 mod 0 Normal nr_free_pages 15
k pressure 0
c0 inc 0 Normal nr_free_pages
k normal 0
",
        first: Stop { lane: 0, line: 10 },
        second: Stop { lane: 2, line: 11 },
    },
    Row {
        name: "the lanes of two CPUs, in the second phase",
        body: "c0 inc 0 Normal nr_mlock
c1 inc 0 Normal nr_mlock
sync
c0 inc 0 Normal nr_mlock
c1 inc 0 Normal nr_mlock
c0 fold 1
c1 fold 0
",
        first: Stop { lane: 0, line: 13 },
        second: Stop { lane: 1, line: 14 },
    },
    Row {
        name: "the lane of a CPU and the control lane, in the third phase",
        body: "c0 inc 0 Normal nr_mlock
sync
c0 inc 0 Normal nr_mlock
c1 inc 0 Normal nr_mlock
sync
c1 inc 0 Normal nr_mlock
k pressure 0
c1 fold 0
k normal 0
",
        first: Stop { lane: 1, line: 15 },
        second: Stop { lane: 2, line: 16 },
    },
];

/// Whether the lanes of a row meet under a command.
fn meet<R: Threads + Wait + Sync>(
    rt: &R,
    alloc: Global,
    command: &str,
    row: &Row<'_>,
) -> Result<bool, Memory> {
    let text = [LANES, row.body].concat(alloc)?;
    let gate = Meeting::of(row.first, row.second);
    let mut histories = Histories::make(alloc);
    let (status, _src, _out) = run_at(
        rt,
        alloc,
        &[command],
        text.as_bytes(),
        SOUND,
        &gate,
        &mut histories,
    )?;
    Ok(status == Status::Done && gate.took_place())
}

#[test]
fn lanes_meet_at_their_second_lines(rt: HostRuntime) -> Result<(), Fail> {
    for row in &ROWS {
        assert!(rt; meet(&rt, rt.alloc(), "run", row)?, "{}", row.name);
        assert!(rt;
            !meet(&rt, rt.alloc(), "replay", row)?,
            "replay, {}",
            row.name
        );
    }
    Ok(())
}

/// Two lanes of a trace of groups, of two lines each.
const GROUPS: &str = "vmgroups 1
cpus 2
group root
go
c0 add root 1
c1 add root 2
c0 flush root
c1 flush root
";

#[test]
fn lanes_of_groups_meet_at_their_second_lines(rt: HostRuntime) -> Result<(), Fail> {
    let gate = Meeting::of(Stop { lane: 0, line: 7 }, Stop { lane: 1, line: 8 });
    let mut histories = Histories::make(rt.alloc());
    let (status, _src, _out) = run_at(
        &rt,
        rt.alloc(),
        &["groups"],
        GROUPS.as_bytes(),
        SOUND,
        &gate,
        &mut histories,
    )?;
    assert!(rt; status == Status::Done);
    assert!(rt; gate.took_place());
    Ok(())
}

/// Counts the lines of lanes.
#[derive(Drop)]
struct Tally {
    lines: AtomicU64,
    /// The numbers of the lines, and 1000 times those of their lanes, added up.
    sum: AtomicU64,
}

impl Gate for Tally {
    fn at(&self, lane: u32, line: u32) {
        self.lines.fetch_add(1, Ordering::SeqCst);
        self.sum
            .fetch_add(1000 * u64::from(lane) + u64::from(line), Ordering::SeqCst);
    }
}

#[test]
fn each_line_that_counts_comes_to_the_gate_once(rt: HostRuntime) -> Result<(), Fail> {
    let body = "c0 fold 0\nc9 fold 0\n\nc1 fold 0\nsync\nk fold 0\nk fold 1\n";
    let text = [LANES, body].concat(rt.alloc())?;
    let gate = Tally {
        lines: AtomicU64::new(0),
        sum: AtomicU64::new(0),
    };
    let mut histories = Histories::make(rt.alloc());
    let (status, _src, _out) = run_at(
        &rt,
        rt.alloc(),
        &["run"],
        text.as_bytes(),
        SOUND,
        &gate,
        &mut histories,
    )?;
    assert!(rt; status == Status::Refused);
    assert!(rt; gate.lines.load(Ordering::SeqCst) == 4);
    assert!(rt; gate.sum.load(Ordering::SeqCst) == 8 + 1011 + 2013 + 2014);
    Ok(())
}
