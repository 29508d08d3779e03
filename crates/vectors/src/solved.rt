//! Sources that a grammar gives, beside a simulator that makes each tuple of parameters.

use crate::crew::written;
use cases::{Grammar, plain_text};
use fixtures::Count;
use std::alloc::Global;
use std::sync::Wait;
use std::thread::Threads;
use std::time::Clock;

/// How many sources of a grammar are run, and how many where all are asked for.
pub const SOURCES: u64 = 2_500;

pub const ALL_SOURCES: u64 = 10_000;

// One of so many is run in two groups too.
const SHARED: u64 = 16;

// The last tick, and the word for it.
const TICKS: u64 = 40;

const TICKS_WORD: &str = "--ticks=40";

/// Runs so many sources of a grammar, and counts how often the program writes just what the plain simulator does. A source with which it doesn't is
/// told.
pub fn try_sources<R: Threads + Wait + Sync + Clock + Eprint>(
    rt: &R,
    alloc: Global,
    grammar: &str,
    sources: u64,
    count: &mut Count,
) -> anyhow::Result<()> {
    let grammar = Grammar::read(alloc, grammar)?;
    for number in 0..sources {
        let source = grammar.source(alloc, number)?;
        let is_well = is_same(rt, alloc, number, source.as_str())?;
        count.add(is_well);
        if !is_well {
            eprintln!(rt; "composition {number}: failed: {source}")?;
        }
    }
    Ok(())
}

// Whether one thread, and at times the workers of two groups, write what the plain simulator does, and something.
fn is_same<R: Threads + Wait + Sync + Clock>(
    rt: &R,
    alloc: Global,
    number: u64,
    source: &str,
) -> anyhow::Result<bool> {
    let wanted = plain_text(alloc, source, number, TICKS)?;
    let seed = format!(in alloc; "--seed={number}")?;
    if wanted.is_empty() || !is_written(rt, alloc, seed.as_str(), source, wanted.as_slice())? {
        return Ok(false);
    }
    if number % SHARED == 0 {
        return is_shared(rt, alloc, seed.as_str(), source, wanted.as_slice());
    }
    Ok(true)
}

fn is_written<R: Threads + Wait + Sync + Clock>(
    rt: &R,
    alloc: Global,
    seed: &str,
    source: &str,
    wanted: &[u8],
) -> anyhow::Result<bool> {
    let given = written(rt, alloc, &["reference", "F", seed, TICKS_WORD], source)?;
    Ok(given.as_slice() == wanted)
}

fn is_shared<R: Threads + Wait + Sync + Clock>(
    rt: &R,
    alloc: Global,
    seed: &str,
    source: &str,
    wanted: &[u8],
) -> anyhow::Result<bool> {
    let words = ["run", "F", seed, TICKS_WORD, "--groups=2"];
    let given = written(rt, alloc, &words, source)?;
    Ok(given.as_slice() == wanted)
}
