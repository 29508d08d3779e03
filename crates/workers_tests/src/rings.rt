//! Runs of the ring of two, against its text worked out by hand.
ghost use Rattle.std.specs.Prelude.{◌≡◌, ◌≤◌};

use fixtures::ring;
use std::alloc::{AllocGlobal, Global};
use std::io::{self, Write};
use std::process::Abort;
use std::sync::{Arc, Wait};
use std::thread::Threads;
use task_seed::{AnyTurns, Row, Setup, TableTurns};
use trace::{Counted, Form, Lines};
use workers::{Gate, Job, RunFault, Summary, Unheld, Window, groups_by_trial, run};

/// Component 0 has turns at the ticks 2 and 4, component 1 at 1 and 3.
pub(crate) const ROWS: [Row; 4] = [
    Row {
        component: 0,
        gap: 2,
        task: 0,
        choice: 0,
    },
    Row {
        component: 0,
        gap: 2,
        task: 0,
        choice: 0,
    },
    Row {
        component: 1,
        gap: 1,
        task: 0,
        choice: 0,
    },
    Row {
        component: 1,
        gap: 2,
        task: 0,
        choice: 0,
    },
];

// Each component has a turn at the tick 1.
const TWO: [Row; 2] = [
    Row {
        component: 0,
        gap: 1,
        task: 0,
        choice: 0,
    },
    Row {
        component: 1,
        gap: 1,
        task: 0,
        choice: 0,
    },
];

pub(crate) const TEXT: &str = "1 1 0 idle\n2 0 0 pass(1)\n3 1 1 pass(0)\n4 0 1 pass(1)\n";

const TRACE: &str = "2 0 0 pass(1)\n3 1 1 pass(0)\n4 0 1 pass(1)\n";

// A writer over memory that takes at most so many bytes in all, and so many a call.
#[derive(Drop)]
pub(crate) struct Narrow {
    pub(crate) held: Vec<u8>,
    pub(crate) room: usize,
    pub(crate) most: usize,
}

impl Write for Narrow {
    fn write(&mut self, piece: &[u8]) -> io::Result<usize> {
        let count = piece.len().min(self.room).min(self.most);
        self.held.extend_from_slice(&piece[..count])?;
        self.room -= count;
        Ok(count)
    }

    fn flush(&mut self) -> io::Result<()> {
        Ok(())
    }
}

// Its memory is taken here, if there is any.
pub(crate) fn page_of(alloc: Global, room: usize, most: usize) -> Counted<Narrow> {
    let held = match Vec::with_capacity(alloc, room) {
        Ok(held) => held,
        Err(_) => Vec::new(alloc),
    };
    Counted::new(Narrow { held, room, most })
}

/// A setup of the ring with the turns of a table.
pub(crate) fn ring_setup(
    rt: &(impl Abort + AllocGlobal),
    rows: &[Row],
    horizon: u64,
) -> Setup<AnyTurns> {
    let plan = ring(rt.alloc()).expect(rt, "memory for a plan");
    let turns = TableTurns::new(rt.alloc(), &plan, rows).expect(rt, "turns of the ring");
    Setup::new(plan, AnyTurns::Table(turns), horizon).expect(rt, "a setup")
}

/// All turns by so many workers, with so many entries in a row, within this window.
pub(crate) fn job_of(crew: (u16, u32), window: Option<Window>) -> Job
    ensures { (result.workers ≡ crew.0) × (result.budget ≡ crew.1) }
{
    Job {
        workers: crew.0,
        budget: crew.1,
        window,
        form: Form {
            lines: Lines::All,
            head: false,
        },
    }
}

// Runs the ring with these turns.
fn run_with<W: Write + Drop, G: Gate<AnyTurns>, R: Abort + Threads + Wait + Sync + AllocGlobal>(
    rt: &R,
    rows: &[Row],
    horizon: u64,
    job: Job,
    gate: &G,
    out: &mut Counted<W>,
) -> Result<Summary, RunFault>
    requires workers { (1 ≤ job.workers) × (job.workers ≤ 64) }
    requires budget { (1 ≤ job.budget) × (job.budget ≤ 65535) }
{
    let setup = Arc::new(rt.alloc(), ring_setup(rt, rows, horizon)).expect(rt, "memory for it");
    run(rt, rt.alloc(), setup, job, gate, out)
}

// Runs the ring with its turns.
pub(crate) fn run_ring<
    W: Write + Drop,
    G: Gate<AnyTurns>,
    R: Abort + Threads + Wait + Sync + AllocGlobal,
>(rt: &R, crew: (u16, u32), gate: &G, out: &mut Counted<W>) -> Result<Summary, RunFault>
    requires workers { (1 ≤ crew.0) × (crew.0 ≤ 64) }
    requires budget { (1 ≤ crew.1) × (crew.1 ≤ 65535) }
{
    run_with(rt, &ROWS, 1000, job_of(crew, None), gate, out)
}

pub(crate) fn assert_held(rt: &impl Abort, out: Counted<Narrow>, wanted: &[u8]) {
    assert_eq!(rt; out.into_inner().held.as_slice(), wanted);
}

#[test]
fn any_crew_writes_all(rt: HostRuntime) {
    for crew in [
        (1u16, 1u32),
        (1, 64),
        (2, 1),
        (2, 64),
        (3, 2),
        (5, 3),
        (8, 65535),
        (64, 1),
    ] {
        for window in [None, Some(Window::new(1)), Some(Window::new(65535))] {
            let mut out = page_of(rt.alloc(), 100, 100);
            let job = job_of(crew, window);
            let ran = run_with(&rt, &ROWS, 1000, job, &Unheld, &mut out);
            assert!(rt; ran == Ok(Summary { turns: 4 }));
            assert_held(&rt, out, TEXT.as_bytes());
        }
    }
}

#[test]
fn other_turns_and_lines(rt: HostRuntime) {
    let tables: [(&[Row], u64, Lines, u64, &str); 4] = [
        (&ROWS, 1000, Lines::Trace, 4, TRACE),
        (&ROWS, 0, Lines::All, 0, ""),
        (&TWO, 1000, Lines::All, 2, "1 0 0 pass(1)\n1 1 0 pass(0)\n"),
        (&[], 1000, Lines::All, 0, ""),
    ];
    for (rows, horizon, lines, count, wanted) in tables {
        let mut out = page_of(rt.alloc(), 100, 100);
        let form = Form { lines, head: false };
        let job = Job {
            form,
            ..job_of((2, 64), None)
        };
        let ran = run_with(&rt, rows, horizon, job, &Unheld, &mut out);
        assert!(rt; ran == Ok(Summary { turns: count }));
        assert_held(&rt, out, wanted.as_bytes());
    }
}

#[test]
fn a_run_that_is_over_within_the_trial_has_one_group(rt: HostRuntime) {
    let setup = Arc::new(rt.alloc(), ring_setup(&rt, &ROWS, 1000)).expect(&rt, "memory for it");
    for crew in [(1u16, 1u32), (2, 64), (64, 1)] {
        let groups = groups_by_trial(&rt, rt.alloc(), &setup, job_of(crew, None), 1000);
        assert_eq!(rt; groups, 1);
    }
}
