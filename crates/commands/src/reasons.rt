//! What a person is told of a report at length, behind its line.
ghost use Rattle.std.specs.Prelude.{◌≡◌, ◌<◌, ◌++◌, IfSome, OnErr, OnOk, Some, codes, length, option_map};
ghost use Rattle.trace.specs.Went.{IsWritten};
ghost use Rattle.commands.specs.Explained.{named};
ghost use Rattle.commands.specs.Reasons.{IsLargeReason, IsNamedBy, IsReason, IsRefusalReason, IsToldOr, IsUnreadReason, SaysAny, cause_of, cause_of_fault, line_on};
ghost use Rattle.commands.specs.Unread.{IsTooLarge};
ghost use Rattle.commands.specs.Written.{IsCut, IsSaid};

use crate::explaining::{Subject, first_refused, story_of};
use crate::files::{FileFault, Files};
use crate::reading::read_whole;
use crate::report::Report;
use crate::writing::say;
use std::alloc::Global;
use std::io::Write;
use trace::{Counted, WriteFault, write_text};

/// What is to be told at length.
#[derive(Clone, Copy, PartialEq, Eq)]
pub enum Cause {
    /// A file is refused, with this number.
    Refusal(u8),
    /// A file can't be read.
    Unread,
    /// A file is too large.
    Large,
}

impl Cause {
    /// What is to be told of a report, if anything is.
    pub fn of(report: &Report) -> Option<Cause>
        ensures { result ≡ cause_of report.now }
    {
        match report {
            Report::Refused(number, _) => Some(Cause::Refusal(*number)),
            Report::Fault(number) => cause_of_fault(*number),
            Report::Done | Report::No | Report::Driven(_) => None,
            Report::Ran(_) | Report::Explained | Report::Misused => None,
        }
    }
}

fn cause_of_fault(number: u8) -> Option<Cause>
    ensures { result ≡ cause_of_fault number }
{
    if number == 63 {
        Some(Cause::Unread)
    } else if number == 64 {
        Some(Cause::Large)
    } else {
        None
    }
}

/// Tells at length why one of these files is refused, or which of them isn't read and why. Nothing is told where memory is refused. The files are
/// read once more, so that they have to have what they had.
pub fn tell_reason<F: Files, E: Write>(
    alloc: Global,
    cause: Cause,
    subject: Subject,
    files: &F,
    err: &mut Counted<E>,
)
    ensures { SaysAny E.contents err.old err.new
        (IsReason (F.has files.now) (F.lacks files.now) subject.entry cause) }
{
    match cause {
        Cause::Refusal(number) => tell_refusal(alloc, number, subject, files, err),
        Cause::Unread => tell_unread(alloc, subject, files, err),
        Cause::Large => tell_large(alloc, subject, files, err),
    }
}

// Tells what `explain` tells of the files, or of the number.
fn tell_refusal<F: Files, E: Write>(
    alloc: Global,
    number: u8,
    subject: Subject,
    files: &F,
    err: &mut Counted<E>,
)
    ensures { SaysAny E.contents err.old err.new
        (IsRefusalReason (F.has files.now) (F.lacks files.now) subject.entry) }
{
    match first_refused(alloc, subject, files) {
        Ok(told) => tell_told(told, number, err),
        Err(_) => tell_number(number, err),
    }
}

// Tells what is told of the files, or else of the number.
fn tell_told<E: Write>(told: Option<Vec<u8>>, number: u8, err: &mut Counted<E>)
    ensures { SaysAny E.contents err.old err.new
        (IsToldOr (option_map (λ v. v.items) told)) }
{
    match told {
        Some(text) => say(text.as_slice(), err),
        None => tell_number(number, err),
    }
}

// Tells what there is to tell of a number.
fn tell_number<E: Write>(number: u8, err: &mut Counted<E>)
    ensures { SaysAny E.contents err.old err.new (λ text. 0 < length text) }
{
    if let Some(text) = story_of(number) {
        say(text.as_bytes(), err);
    }
}

// Tells of the first file that can't be read.
fn tell_unread<F: Files, E: Write>(alloc: Global, subject: Subject, files: &F, err: &mut Counted<E>)
    ensures { SaysAny E.contents err.old err.new
        (IsUnreadReason (F.lacks files.now) subject.entry) }
{
    if let Some(unread) = first_unread(alloc, subject, files) {
        say_line(unread.name, unread.fault.reason(), err);
    }
}

// A file that can't be read.
#[derive(Clone, Copy)]
struct Unread<'a> {
    name: &'a str,
    fault: FileFault,
}

fn first_unread<'a, F: Files>(alloc: Global, subject: Subject<'a>, files: &F) -> Option<Unread<'a>>
    ensures lacking { IfSome result (λ unread. F.lacks files.now unread.name.now) }
    ensures named { IfSome result (λ unread. IsNamedBy subject.entry unread.name.now) }
{
    if let Some(unread) = unread_at(alloc, Some(subject.source), files) {
        return Some(unread);
    }
    if let Some(unread) = unread_at(alloc, subject.table, files) {
        return Some(unread);
    }
    if let Some(unread) = unread_at(alloc, subject.steps, files) {
        return Some(unread);
    }
    unread_at(alloc, subject.actions, files)
}

// The file of this name, if it can't be read.
fn unread_at<'a, F: Files>(alloc: Global, name: Option<&'a str>, files: &F) -> Option<Unread<'a>>
    ensures lacking { IfSome result (λ unread. F.lacks files.now unread.name.now) }
    ensures named { IfSome result (λ unread. named name.entry ≡ Some unread.name.now) }
{
    let name = name?;
    match files.read(alloc, name, 1) {
        Ok(bytes) => {
            drop(bytes);
            None
        }
        Err(FileFault::NoMemory) => None,
        Err(fault) => Some(Unread { name, fault }),
    }
}

// Tells of the first file that is too large.
fn tell_large<F: Files, E: Write>(alloc: Global, subject: Subject, files: &F, err: &mut Counted<E>)
    ensures { SaysAny E.contents err.old err.new
        (IsLargeReason (F.has files.now) subject.entry) }
{
    if let Some(name) = first_large(alloc, subject, files) {
        say_line(name, "it has more than 16777216 bytes", err);
    }
}

// A source that is too large is refused for that, and no fault.
fn first_large<'a, F: Files>(alloc: Global, subject: Subject<'a>, files: &F) -> Option<&'a str>
    ensures large { IfSome result (λ name. IsTooLarge (F.has files.now name.now)) }
    ensures named { IfSome result (λ name. IsNamedBy subject.entry name.now) }
{
    if let Some(name) = large_at(alloc, subject.table, files) {
        return Some(name);
    }
    if let Some(name) = large_at(alloc, subject.steps, files) {
        return Some(name);
    }
    large_at(alloc, subject.actions, files)
}

// The name, if its file is too large.
fn large_at<'a, F: Files>(alloc: Global, name: Option<&'a str>, files: &F) -> Option<&'a str>
    ensures large { IfSome result (λ name. IsTooLarge (F.has files.now name.now)) }
    ensures named { IfSome result (λ found. named name.entry ≡ Some found.now) }
{
    let name = name?;
    match read_whole(alloc, name, files) {
        Err(64) => Some(name),
        _ => None,
    }
}

// Says a line on a file, and passes over a write that fails.
fn say_line<E: Write>(name: &str, reason: &str, err: &mut Counted<E>)
    ensures { IsSaid E.contents err.old err.new (line_on name.now reason.now) }
{
    let _ = write_name(name, reason, err);
}

#[tactic(auto, using(crate::proofs::Pieces::pieces))]
fn write_name<E: Write>(name: &str, reason: &str, err: &mut Counted<E>) -> Result<(), WriteFault>
    ensures ok { OnOk result (IsWritten E.contents err.old err.new
        (name.now ++ (codes ": " ++ (reason.now ++ codes "\n")))) }
    ensures err { OnErr result (IsCut E.contents err.old err.new
        (name.now ++ (codes ": " ++ (reason.now ++ codes "\n")))) }
{
    write_text(name.as_bytes(), err)?;
    write_reason(reason, err)
}

#[tactic(auto, using(crate::proofs::Pieces::pieces))]
fn write_reason<E: Write>(reason: &str, err: &mut Counted<E>) -> Result<(), WriteFault>
    ensures ok { OnOk result (IsWritten E.contents err.old err.new
        (codes ": " ++ (reason.now ++ codes "\n"))) }
    ensures err { OnErr result
        (IsCut E.contents err.old err.new (codes ": " ++ (reason.now ++ codes "\n"))) }
{
    write_text(b": ", err)?;
    write_end(reason, err)
}

#[tactic(auto, using(crate::proofs::Pieces::pieces))]
fn write_end<E: Write>(reason: &str, err: &mut Counted<E>) -> Result<(), WriteFault>
    ensures ok { OnOk result
        (IsWritten E.contents err.old err.new (reason.now ++ codes "\n")) }
    ensures err { OnErr result (IsCut E.contents err.old err.new (reason.now ++ codes "\n")) }
{
    write_text(reason.as_bytes(), err)?;
    write_text(b"\n", err)
}
