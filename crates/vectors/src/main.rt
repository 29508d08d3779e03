//! Feeds cases with known answers to the program's service, to the check of sources and to their composition, and counts those that come
//! out as they should.
//!
//! A line of a file of cases is one case in JSON. For the service: the words after the program's name, the files by their names (a
//! character is one byte; a list of texts is these one after another, each so often as a number before it says), what standard output and
//! standard error have to be (`null`: anything; `has`: this part), and the status; where it says so, how many bytes the output takes (`room`),
//! that it fails to flush (`stuck`), and how many seeds are looked at (`looked`). For the check: a source, with the number of its refusal
//! (`null`: it is accepted) and the token at which it stands. For the composition: the same under the name `composed`, and the number of the
//! component.
//!
//! A file whose name ends with `.ioa` is a source, which is run in 1 to 8 groups and has to come out as by one thread, 200 runs of all sources.
//!
//! A file whose name ends with `.grammar` gives 2,500 sources, or 10,000 with `all:` before its name, which have to come out as by a simulator that
//! makes each tuple of parameters.
//!
//! Two words name no file. `engines` calls the engines that take bytes. `lists` has `fixtures` drive worlds by twelve lists of steps whose replies
//! are known; worlds of four small compositions by a thousand random lists of steps, whose committed turns are compared with those of the
//! one-thread simulator; and their exchanges by 1,250 random lists of calls, a thousand of them with windows, whose turns are compared with those
//! of two simulators, and what is done and waits with the window's bounds.
#![tactic(auto)]

mod crew;
mod engines;
mod given;
mod narrow;
mod served;
mod solved;

use crate::crew::run_all;
use crate::engines::try_engines;
use crate::served::comes_out;
use crate::solved::{ALL_SOURCES, SOURCES, try_sources};
use cases::Case;
use fixtures::Count;
use fixtures::lists::try_lists;
use std::alloc::{AllocGlobal, Global};
use std::process::ExitCode;
use std::rt::Files;
use std::sync::Wait;
use std::thread::Threads;
use std::time::Clock;
use std::{env, fs};

fn main(rt: HostRuntime) -> anyhow::Result<ExitCode> {
    let alloc = rt.alloc();
    let mut count = Count {
        passed: 0,
        failed: 0,
    };
    let mut sources = Vec::new(alloc);
    for name in env::args(&rt)?.skip(1) {
        try_word(&rt, alloc, name.as_str(), &mut sources, &mut count)?;
    }
    run_all(&rt, alloc, sources.as_slice(), &mut count)?;
    println!(rt; "{} passed, {} failed", count.passed, count.failed)?;
    Ok(ExitCode::from(if count.failed == 0 { 0 } else { 1 }))
}

// Tries the lists, the engines, the cases of a file or the sources of a grammar; a source is kept.
fn try_word<R: AllocGlobal + Files + Threads + Wait + Sync + Clock + Eprint>(
    rt: &R,
    alloc: Global,
    word: &str,
    sources: &mut Vec<String>,
    count: &mut Count,
) -> anyhow::Result<()> {
    if word == "lists" {
        return try_lists(alloc, count);
    }
    if word == "engines" {
        return try_engines(rt, alloc, count);
    }
    if let Some(name) = word.strip_prefix("all:") {
        let text = fs::read_to_string(rt, name)?;
        return try_sources(rt, alloc, text.as_str(), ALL_SOURCES, count);
    }
    let text = fs::read_to_string(rt, word)?;
    if word.ends_with(".ioa") {
        return Ok(sources.push(text)?);
    }
    if word.ends_with(".grammar") {
        return try_sources(rt, alloc, text.as_str(), SOURCES, count);
    }
    try_all(rt, alloc, word, text.as_str(), count)
}

// Tries the cases of a file.
fn try_all<R: Threads + Wait + Sync + Clock + Eprint>(
    rt: &R,
    alloc: Global,
    name: &str,
    text: &str,
    count: &mut Count,
) -> anyhow::Result<()> {
    for (number, line) in text.lines().enumerate() {
        let is_well = has_passed(rt, alloc, line)?;
        count.add(is_well);
        if !is_well {
            eprintln!(rt; "{name}:{}: failed", number.saturating_add(1))?;
        }
    }
    Ok(())
}

fn has_passed<R: Threads + Wait + Sync + Clock>(
    rt: &R,
    alloc: Global,
    line: &str,
) -> anyhow::Result<bool> {
    let case = Case::read(alloc, line)?;
    let has_passed = comes_out(rt, alloc, &case);
    drop(case);
    Ok(has_passed?)
}
