//! The program `warp`.
#![tactic(auto)]

mod looks;
mod machine;
mod noted;
mod pace;
mod person;
mod progress;

use crate::looks::PacedLooks;
use crate::machine::{MachineFiles, STANDARD_INPUT};
use crate::noted::Noted;
use crate::pace::Paced;
use crate::person::{tell_failure, tell_unused};
use crate::progress::progress_of;
use commands::report::Report;
use service::serve::{serve, serve_person};
use std::alloc::Global;
use std::cell::Cell;
use std::env;
use std::io::{self, BufWriter, ErrorKind, IsTerminal, Write};
use std::process::ExitCode;
use trace::{Counted, write_text};

fn main(rt: HostRuntime) -> ExitCode {
    let alloc = rt.alloc();
    let is_person = rt.stderr().is_terminal();
    let mut err = Counted::new(rt.stderr());
    let words = match words_of(&rt) {
        Ok(words) => words,
        Err(error) => return refuse(&error, &mut err),
    };
    if names_input_twice(words.as_slice()) {
        let _ = write_text(b"standard input, `-`, can be named once\n", &mut err);
        return ExitCode::from(Report::Misused.status());
    }
    let progress = progress_of(alloc, words.as_slice());
    let pace = progress.pace(&rt);
    let capacity = if pace.is_some() { 1_024 } else { 32_768 };
    let failure = Cell::new(None);
    let paced = Paced::new(&rt, Noted::new(rt.stdout(), &failure), pace);
    let mut out = match BufWriter::with_capacity(alloc, capacity, paced) {
        Ok(out) => Counted::new(out),
        Err(error) => return refuse(&error, &mut err),
    };
    let looks = PacedLooks::new(&rt, progress.seed_count());
    let words = words.as_slice();
    if !is_person {
        let files = MachineFiles::new(&rt);
        let status = serve(&rt, alloc, words, &files, &looks, &mut out, &mut err);
        return ExitCode::from(status);
    }
    tell_unused(words, &mut err);
    let files = MachineFiles::keeping(&rt, alloc);
    let status = serve_person(&rt, alloc, words, &files, &looks, &mut out, &mut err);
    tell_failure(failure.get(), &mut err);
    ExitCode::from(status)
}

// The words after the program's name.
fn words_of(rt: &HostRuntime) -> io::Result<Vec<String>> {
    let mut words = Vec::new(rt.alloc());
    for word in env::args(rt)?.skip(1) {
        words.push(word)?;
    }
    Ok(words)
}

// Tells why no word is served: memory is wanted, or a word isn't text.
fn refuse<E: Write>(error: &io::Error, err: &mut Counted<E>) -> ExitCode {
    let report = if error.kind() == ErrorKind::OutOfMemory {
        Report::Fault(1)
    } else {
        let _ = write_text(b"a word of the command line is not UTF-8\n", err);
        Report::Misused
    };
    report.tell(err);
    ExitCode::from(report.status())
}

// Whether more than one file is to be standard input.
fn names_input_twice(words: &[String]) -> bool {
    let mut count: usize = 0;
    for word in words {
        if word.as_str() == STANDARD_INPUT {
            count = count.saturating_add(1);
        }
    }
    count > 1
}
