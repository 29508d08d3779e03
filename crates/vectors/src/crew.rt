//! Sources in 1 to 8 groups of components, each with a worker of its own, beside the one-thread simulator.

use crate::given::Given;
use crate::served::{Place, ask};
use cases::owned;
use fixtures::Count;
use std::alloc::Global;
use std::sync::Wait;
use std::thread::Threads;
use std::time::Clock;

// How often a source is run, in all.
const RUNS: u64 = 200;

const GROUPS: [&str; 8] = [
    "--groups=1",
    "--groups=2",
    "--groups=3",
    "--groups=4",
    "--groups=5",
    "--groups=6",
    "--groups=7",
    "--groups=8",
];

const BUDGETS: [&str; 5] = [
    "--budget=1",
    "--budget=2",
    "--budget=7",
    "--budget=64",
    "--budget=1000",
];

// Each for some runs of each source; the first stands for none.
const WINDOWS: [&str; 5] = [
    "",
    "--window=1",
    "--window=2",
    "--window=7",
    "--window=65535",
];

// The turns: far apart, or several of a component in one tick.
const TICKS: [&str; 2] = ["--ticks=500", "--ticks=60"];

const GAPS: [&str; 2] = ["--gap=20", "--gap=3"];

const LEAST_GAPS: [&str; 2] = ["--stream=0", "--from-zero"];

/// What the program writes to these words; nothing where it fails, or writes an error.
pub fn written<R: Threads + Wait + Sync + Clock>(
    rt: &R,
    alloc: Global,
    words: &[&str],
    source: &str,
) -> anyhow::Result<Vec<u8>> {
    let said = owned(alloc, words)?;
    let place = Place {
        room: usize::MAX,
        is_stuck: false,
        is_person: false,
    };
    let mut answer = ask(rt, alloc, said.as_slice(), Given::Source(source), place);
    if answer.status != 0 || !answer.err.is_empty() {
        answer.out.clear();
    }
    Ok(answer.out)
}

// Whether run number k of a source writes just what one thread does, and something.
fn is_same<R: Threads + Wait + Sync + Clock>(
    rt: &R,
    alloc: Global,
    k: u64,
    source: &str,
) -> anyhow::Result<bool> {
    let seed = format!(in alloc; "--seed={k}")?;
    is_same_by(rt, alloc, k, seed.as_str(), source)
}

// The same by the word of a seed.
fn is_same_by<R: Threads + Wait + Sync + Clock>(
    rt: &R,
    alloc: Global,
    k: u64,
    seed: &str,
    source: &str,
) -> anyhow::Result<bool> {
    let turns = (k / 35 % 2) as usize;
    let alone = [
        "reference",
        "F",
        seed,
        TICKS[turns],
        GAPS[turns],
        LEAST_GAPS[turns],
    ];
    let window = WINDOWS[(k / 7 % 5) as usize];
    let shared = [
        "run",
        "F",
        seed,
        TICKS[turns],
        GAPS[turns],
        LEAST_GAPS[turns],
        GROUPS[(k % 8) as usize],
        BUDGETS[(k % 5) as usize],
        window,
    ];
    let many = if window.is_empty() { 8 } else { 9 };
    let wanted = written(rt, alloc, &alone, source)?;
    let given = written(rt, alloc, &shared[..many], source)?;
    Ok(given.as_slice() == wanted.as_slice() && !wanted.is_empty())
}

/// Runs the sources in turn in 1 to 8 groups, 200 times in all, and counts how often the program writes just what it writes by one thread.
pub fn run_all<R: Threads + Wait + Sync + Clock + Eprint>(
    rt: &R,
    alloc: Global,
    texts: &[String],
    count: &mut Count,
) -> anyhow::Result<()> {
    if texts.is_empty() {
        return Ok(());
    }
    for k in 0..RUNS {
        let text = texts[(k % texts.len() as u64) as usize].as_str();
        let is_well = is_same(rt, alloc, k, text)?;
        count.add(is_well);
        if !is_well {
            eprintln!(rt; "run {k}: failed")?;
        }
    }
    Ok(())
}
