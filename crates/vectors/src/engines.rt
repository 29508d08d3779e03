//! The engines that take bytes: what they write, and what their reports say.

use crate::narrow::Narrow;
use command_line::Crew;
use commands::GivenTurns;
use commands::over_bytes::{check_source, drive_source, simulate_source};
use commands::report::Report;
use fixtures::Count;
use service::running::{Manner, run_source};
use std::alloc::Global;
use std::sync::Wait;
use std::thread::Threads;
use std::time::Clock;
use trace::{Counted, Form, Lines};

// The ring of two, and a table of its turns with what all of them write.
const RING: &str =
    "type Id = 0..1\nautomaton Node(me: Id, nx: Id, first: Bool)\nsignature\ninput pass(const me)\noutput pass(const nx)\nstates has: Bool := first\ntransitions\ninput pass(const me)\neff has := true\noutput pass(const nx)\npre has\neff has := false\ntasks { pass }\nautomaton Ring\ncomponents a: Node(0, 1, true); b: Node(1, 0, false)\n";

const ROWS: &str = "0 2 0 0\n0 2 0 0\n1 1 0 0\n1 2 0 0\n";

const TURNS: &str = "1 1 0 idle\n2 0 0 pass(1)\n3 1 1 pass(0)\n4 0 1 pass(1)\n";

// The third step is refused: its bound is above global virtual time, that of the message in flight.
const STEPS: &str = "process 1\nprocess 0\ncommit 3 1 1\ncommit 2 0 0\n";

// All turns, and no head.
const ALL: Form = Form {
    lines: Lines::All,
    head: false,
};

// The bytes of a source and of a table, the last tick, what is written and what is said.
const SIMULATED: [(&str, &str, u64, &str, &str); 7] = [
    (RING, ROWS, 4, TURNS, ""),
    (RING, ROWS, 1, "1 1 0 idle\n", ""),
    (RING, "0 1 1 0\n", 4, "", "refused 28 at 1\n"),
    (RING, "0 1 0 0\n0\n", 4_294_967_297, "", "refused 29 at 2\n"),
    (RING, ROWS, 4_294_967_297, "", "refused 26\n"),
    // The source is judged before the table.
    ("type\u{0}", "0 1 1 0\n", 4, "", "refused 3 at 4\n"),
    (RING, "", 4, "", ""),
];

// Whether an engine wrote this, and this is said of its report.
fn came_to(alloc: Global, report: &Report, out: Counted<Narrow>, text: &str, said: &str) -> bool {
    let mut err = Counted::new(Vec::new(alloc));
    report.tell(&mut err);
    let (out, err) = (out.into_inner(), err.into_inner());
    let is_right = out.held.as_slice() == text.as_bytes() && err.as_slice() == said.as_bytes();
    drop(out);
    drop(err);
    is_right
}

// Whether one thread, and three workers, write and say what a row wants.
fn are_simulated<R: Threads + Wait + Sync + Clock>(
    rt: &R,
    alloc: Global,
    row: &(&str, &str, u64, &str, &str),
) -> (bool, bool) {
    let (source, table, ticks, text, said) = *row;
    let (source, given) = (source.as_bytes(), GivenTurns::Table(table.as_bytes()));
    let crew = Crew {
        workers: 3,
        budget: 2,
        window: Some(2),
        groups: Some(3),
        stats: false,
    };
    let mut out = Counted::new(Narrow::wide(alloc));
    let report = simulate_source(alloc, source, given, ticks, ALL, &mut out);
    let alone = came_to(alloc, &report, out, text, said);
    let mut out = Counted::new(Narrow::wide(alloc));
    let manner = Manner {
        ticks,
        crew,
        form: ALL,
    };
    let report = run_source(rt, alloc, source, given, manner, &mut out);
    (alone, came_to(alloc, &report, out, text, said))
}

// Whether turns by this and these steps write and say this.
fn is_driven(alloc: Global, given: GivenTurns, steps: &str, text: &str, said: &str) -> bool {
    let (ring, steps) = (RING.as_bytes(), steps.as_bytes());
    let mut out = Counted::new(Narrow::wide(alloc));
    let report = drive_source(alloc, ring, given, 4, steps, ALL, &mut out);
    came_to(alloc, &report, out, text, said)
}

// Whether these actions have this report and this text.
fn is_checked(alloc: Global, actions: &str, wanted: &Report, text: &str) -> bool {
    let mut out = Counted::new(Narrow::wide(alloc));
    let report = check_source(alloc, RING.as_bytes(), actions.as_bytes(), &mut out);
    report == *wanted && came_to(alloc, &report, out, text, "")
}

fn tell<R: Eprint>(rt: &R, count: &mut Count, is_well: bool, name: &str) -> anyhow::Result<()> {
    count.add(is_well);
    if !is_well {
        eprintln!(rt; "engines: {name}: failed")?;
    }
    Ok(())
}

/// Calls the engines with bytes, and counts how often they write and say what they have to.
pub fn try_engines<R: Threads + Wait + Sync + Clock + Eprint>(
    rt: &R,
    alloc: Global,
    count: &mut Count,
) -> anyhow::Result<()> {
    for row in SIMULATED.iter() {
        let (alone, shared) = are_simulated(rt, alloc, row);
        tell(rt, count, alone, "reference")?;
        tell(rt, count, shared, "run")?;
    }
    let is_well = is_checked(alloc, "pass(1)\n", &Report::Done, "schedule\n");
    tell(rt, count, is_well, "check")?;
    let is_well = is_checked(alloc, "pass(0)\n", &Report::No, "not enabled at 0\n");
    tell(rt, count, is_well, "a wrong check")?;
    let given = GivenTurns::Table(ROWS.as_bytes());
    let is_well = is_driven(alloc, given, STEPS, "1 1 0 idle\n", "step 3 refused 34\n");
    tell(rt, count, is_well, "drive")?;
    let given = GivenTurns::Seed {
        seed: 1,
        stream: 0,
        gap: 0,
        from_zero: false,
    };
    let is_well = is_driven(alloc, given, "step", "", "refused 27\n");
    tell(rt, count, is_well, "a gap of 0")
}
