//! The words of the command line, served.
ghost use Rattle.std.specs.Prelude.{◌≡◌, ◌≢◌, ◌<◌, ◌⊎◌, false, true, ℕ, List, IfOk, length, map, string_bytes};
ghost use Rattle.clap.specs.declared.error.ErrorKind.TheVariants.{DisplayHelp, DisplayVersion};
ghost use Rattle.command_line.specs.Words.{HasFault, IsRefused};
ghost use Rattle.commands.specs.declared.report.Report.{Report};
ghost use Rattle.service.specs.Flushed.{IsFlushedWhere};
ghost use Rattle.commands.specs.Reports.{is_served, status_of};
ghost use Rattle.service.specs.Reports.{IsFlushedReport, IsReport, IsUnserved};
ghost use Rattle.service.specs.Told.{IsTold, IsToldPerson, IsWarned, SaysWhy};
ghost use Rattle.trace.specs.Went.{IsStopped, IsWritten};

use crate::asked::{do_asked, subject_of};
use clap::error::Error;
use command_line::{Refused, read_words, version};
use commands::Files;
use commands::reasons::{Cause, tell_reason};
use commands::report::Report;
use commands::writing::say;
use hunt::Looks;
use std::alloc::{AllocError, Global};
use std::io::Write;
use std::sync::Wait;
use std::thread::Threads;
use std::time::Clock;
use terms::Refusal;
use trace::{Counted, write_text};

/// Serves the words after the program's name: what is asked goes to `out`, as help and the version do, and `out` is flushed where all is done;
/// faults and what is wrong with the words go to `err`, up to the first write that fails there, and the answer is the exit status. A hunt tells
/// `looks` of each seed that was looked at. It may wait where `run` is asked for.
///
/// A flush that fails is the fault of a failed write (60). The lines of the steps that `drive` refused, and of what workers did, come after it.
pub fn serve<
    F: Files,
    L: Looks + Sync,
    W: Write + Drop,
    E: Write,
    R: Threads + Wait + Sync + Clock,
>(
    rt: &R,
    alloc: Global,
    words: &[String],
    files: &F,
    looks: &L,
    out: &mut Counted<W>,
    err: &mut Counted<E>,
) -> u8
    ensures status { (report : Report) × (result ≡ status_of report)
        × IsFlushedReport (map string_bytes words.now) (F.has files.now) (F.lacks files.now)
        (out.new ≡ out.old) (IsWritten W.contents out.old out.new)
        (IsStopped W.contents out.old out.new) report × IsTold E.contents err.old err.new report }
{
    let report = answer(rt, alloc, words, files, looks, out, err);
    report.tell(err);
    report.status()
}

/// Serves the words as [`serve`] does, where a person reads what goes to `err`. Behind the line of a refusal stands what `explain` tells of it, and
/// behind that of a file that isn't read its name and why. Of a failed write (60) nothing is said: whoever holds the writer knows why it failed.
///
/// For that a file may be read once more, and has to have what it had.
pub fn serve_person<
    F: Files,
    L: Looks + Sync,
    W: Write + Drop,
    E: Write,
    R: Threads + Wait + Sync + Clock,
>(
    rt: &R,
    alloc: Global,
    words: &[String],
    files: &F,
    looks: &L,
    out: &mut Counted<W>,
    err: &mut Counted<E>,
) -> u8
    ensures status { (report : Report) × (result ≡ status_of report)
        × IsFlushedReport (map string_bytes words.now) (F.has files.now) (F.lacks files.now)
        (out.new ≡ out.old) (IsWritten W.contents out.old out.new)
        (IsStopped W.contents out.old out.new) report
        × IsToldPerson E.contents (map string_bytes words.now) (F.has files.now)
        (F.lacks files.now) err.old err.new report }
{
    let report = answer(rt, alloc, words, files, looks, out, err);
    if is_cut(&report) {
        return report.status();
    }
    report.tell(err);
    tell_why(alloc, &report, words, files, err);
    report.status()
}

// Whether a write failed.
fn is_cut(report: &Report) -> bool
    ensures yes { result ≡ true → report.now ≡ Report.Fault 60 }
    ensures no { result ≡ false → report.now ≢ Report.Fault 60 }
{
    match report {
        Report::Fault(60) => true,
        _ => false,
    }
}

// Tells a person why, where the words ask for something.
fn tell_why<F: Files, E: Write>(
    alloc: Global,
    report: &Report,
    words: &[String],
    files: &F,
    err: &mut Counted<E>,
)
    ensures { SaysWhy E.contents (map string_bytes words.now) (F.has files.now) (F.lacks files.now)
        err.old err.new report.now }
{
    if let Some(cause) = Cause::of(report) {
        if let Ok(asked) = read_words(alloc, words) {
            tell_reason(alloc, cause, subject_of(asked), files, err);
        }
    }
}

fn answer<F: Files, L: Looks + Sync, W: Write + Drop, E: Write, R: Threads + Wait + Sync + Clock>(
    rt: &R,
    alloc: Global,
    words: &[String],
    files: &F,
    looks: &L,
    out: &mut Counted<W>,
    err: &mut Counted<E>,
) -> Report
    ensures report { IsFlushedReport (map string_bytes words.now) (F.has files.now)
        (F.lacks files.now) (out.new ≡ out.old) (IsWritten W.contents out.old out.new)
        (IsStopped W.contents out.old out.new) result }
    ensures warned { IsWarned E.contents err.old err.new result }
{
    let report = answer_words(rt, alloc, words, files, looks, out, err);
    flushed(report, out)
}

fn is_served(report: &Report) -> bool
    ensures { result ≡ is_served report.now }
{
    match report {
        Report::Done | Report::No | Report::Driven(_) | Report::Ran(_) | Report::Explained => true,
        Report::Refused(_, _) | Report::Fault(_) | Report::Misused => false,
    }
}

// Flushes the output where all is done; where the flush fails that is a failed write. Where not all is done, what is held goes out when the
// output is dropped.
fn flushed<W: Write>(report: Report, out: &mut Counted<W>) -> Report
    ensures report { (result ≡ report) ⊎ ((is_served report ≡ true) × (result ≡ Report.Fault 60)) }
    ensures out { IsFlushedWhere W.contents (is_served report) out.old out.new }
{
    if !is_served(&report) || out.flush() {
        report
    } else {
        Report::Fault(60)
    }
}

// The report, before the output is flushed.
fn answer_words<
    F: Files,
    L: Looks + Sync,
    W: Write + Drop,
    E: Write,
    R: Threads + Wait + Sync + Clock,
>(
    rt: &R,
    alloc: Global,
    words: &[String],
    files: &F,
    looks: &L,
    out: &mut Counted<W>,
    err: &mut Counted<E>,
) -> Report
    ensures report { IsReport (map string_bytes words.now) (F.has files.now) (F.lacks files.now)
        (out.new ≡ out.old) (IsWritten W.contents out.old out.new)
        (IsStopped W.contents out.old out.new) result }
    ensures warned { IsWarned E.contents err.old err.new result }
{
    match read_words(alloc, words) {
        Ok(asked) => do_asked(rt, alloc, asked, files, looks, out),
        Err(refused) => refuse(alloc, &refused, out, err),
    }
}

// Words that ask for nothing.
fn refuse<W: Write, E: Write>(
    alloc: Global,
    refused: &Refused,
    out: &mut Counted<W>,
    err: &mut Counted<E>,
) -> Report
    ensures report { (words : List (List ℕ)) → IsRefused words refused.now
        → IsUnserved words (out.new ≡ out.old) (IsWritten W.contents out.old out.new)
        (IsStopped W.contents out.old out.new) result }
    ensures warned { IsWarned E.contents err.old err.new result }
{
    match refused {
        Refused::NoMemory => Report::Fault(1),
        Refused::Help(error) => help(alloc, error, out),
        Refused::Version => tell_version(out),
        Refused::Words(error) => {
            let text = match text_of(alloc, error) {
                Ok(text) => text,
                Err(_) => return Report::Fault(1),
            };
            say(text.as_str().as_bytes(), err);
            Report::Misused
        }
    }
}

// The text of an error, or a line feed where it has none.
fn text_of(alloc: Global, error: &Error) -> Result<String, AllocError>
    ensures { IfOk result (λ text. 0 < length (string_bytes text)) }
{
    let mut text = format!(in alloc; "{error}")?;
    if text.is_empty() {
        text.push('\n')?;
    }
    Ok(text)
}

fn help<W: Write>(alloc: Global, error: &Error, out: &mut Counted<W>) -> Report
    ensures report { (words : List (List ℕ)) → HasFault words DisplayHelp
        → IsUnserved words (out.new ≡ out.old) (IsWritten W.contents out.old out.new)
        (IsStopped W.contents out.old out.new) result }
    ensures other { result ≢ Report.Misused }
{
    let text = match text_of(alloc, error) {
        Ok(text) => text,
        Err(_) => return Report::Fault(1),
    };
    match write_text(text.as_str().as_bytes(), out) {
        Ok(()) => Report::Done,
        Err(fault) => Report::Fault(fault.number()),
    }
}

fn tell_version<W: Write>(out: &mut Counted<W>) -> Report
    ensures report { (words : List (List ℕ)) → HasFault words DisplayVersion
        → IsUnserved words (out.new ≡ out.old) (IsWritten W.contents out.old out.new)
        (IsStopped W.contents out.old out.new) result }
    ensures other { result ≢ Report.Misused }
{
    match write_text(version().as_bytes(), out) {
        Ok(()) => Report::Done,
        Err(fault) => Report::Fault(fault.number()),
    }
}
