//! The engine of `explain`: what people are told of the first file that is refused.
ghost use Rattle.std.specs.Prelude.{◌≡◌, ◌≢◌, ◌<◌, ◌⊎◌, ℕ, IfErr, IfOk, IfSome, List, Some, length, option_map};
ghost use Rattle.ioa_tokens.specs.Bytes.{is_digit};
ghost use Rattle.compose.specs.Refusals.{source_number};
ghost use Rattle.trace.specs.Went.{IsStopped, IsWritten};
ghost use Rattle.explain.specs.Explanations.{IsExplanation};
ghost use Rattle.commands.specs.Explained.{AllTold, AreActions, AreBadActions, AreBadSteps, AreSteps, FilesTold, IsBadTable, IsExplainReport, IsStoryReport, IsTable, IsTellingReport, LacksAny, LaterTold, TellsReport, IsJudged, is_number, named};
ghost use Rattle.commands.specs.FileReports.{LacksTable};
ghost use Rattle.commands.specs.Parts.{IsMemory, IsRefusal};
ghost use Rattle.commands.specs.Unread.{IsFileFault};

use crate::files::Files;
use crate::reading::{SOURCE_BYTES, read_front, read_whole};
use crate::report::{Report, report_of};
use crate::setups::tabled;
use compose::source_laws::front_law;
use compose::{SourceError, compose_source};
use explain::{FileKind, explain_line, explain_source, story};
use plans::Plan;
use std::alloc::Global;
use std::io::Write;
use terms::Refusal;
use trace::{Counted, read_steps, read_trace, write_text};

/// The files of which people are told, by their names.
#[derive(Clone, Copy)]
pub struct Subject<'a> {
    pub source: &'a str,
    pub table: Option<&'a str>,
    pub steps: Option<&'a str>,
    pub actions: Option<&'a str>,
}

/// Tells of the first of the files that is refused, or of a number at length.
pub fn explain_files<F: Files, W: Write>(
    alloc: Global,
    subject: Subject,
    files: &F,
    out: &mut Counted<W>,
) -> Report
    ensures { IsExplainReport (F.has files.now) (F.lacks files.now) subject.entry.source.now
        (named subject.entry.table) (named subject.entry.steps) (named subject.entry.actions)
        (out.new ≡ out.old) (IsWritten W.contents out.old out.new)
        (IsStopped W.contents out.old out.new) result }
{
    if is_number(subject.source) {
        return tell_story(subject.source, out);
    }
    tell_files(alloc, subject, files, out)
}

fn tell_files<F: Files, W: Write>(
    alloc: Global,
    subject: Subject,
    files: &F,
    out: &mut Counted<W>,
) -> Report
    ensures { IsTellingReport
        (AllTold (F.has files.now) subject.entry.source.now (named subject.entry.table)
        (named subject.entry.steps) (named subject.entry.actions))
        (LacksAny (F.has files.now) (F.lacks files.now) subject.entry.source.now
        (named subject.entry.table) (named subject.entry.steps) (named subject.entry.actions))
        (out.new ≡ out.old) (IsWritten W.contents out.old out.new)
        (IsStopped W.contents out.old out.new) result }
{
    match first_refused(alloc, subject, files) {
        Ok(told) => tell(told, out),
        Err(number) => Report::Fault(number),
    }
}

fn is_digit(byte: u8) -> bool
    ensures { result ≡ is_digit byte }
{
    b'0' <= byte && byte <= b'9'
}

fn is_number(name: &str) -> bool
    ensures { result ≡ is_number name.now }
{
    name.as_bytes().iter().all(|byte| is_digit(*byte))
}

// Writes what there is to tell of a number, or that nothing has it.
fn tell_story<W: Write>(name: &str, out: &mut Counted<W>) -> Report
    ensures { IsStoryReport (IsWritten W.contents out.old out.new)
        (IsStopped W.contents out.old out.new) result }
{
    match story_of(name.parse::<u8>().unwrap_or(0)) {
        Some(text) => write_as(text, Report::Done, out),
        None => write_as(
            "no refusal and no fault has this number\n",
            Report::Explained,
            out,
        ),
    }
}

// Writes a text, after which this is reported.
fn write_as<W: Write>(text: &str, report: Report, out: &mut Counted<W>) -> Report
    requires some { 0 < length text.now }
    requires report { (report ≡ Report.Done) ⊎ (report ≡ Report.Explained) }
    ensures { IsStoryReport (IsWritten W.contents out.old out.new)
        (IsStopped W.contents out.old out.new) result }
{
    match write_text(text.as_bytes(), out) {
        Ok(()) => report,
        Err(fault) => Report::Fault(fault.number()),
    }
}

/// What there is to tell of a number.
pub(crate) fn story_of(number: u8) -> Option<&'static str>
    ensures { IfSome result (λ text. 0 < length text.now) }
{
    match story(number) {
        Some(text) if !text.is_empty() => Some(text),
        _ => None,
    }
}

// Writes what is told, or that there is no fault.
fn tell<W: Write>(told: Option<Vec<u8>>, out: &mut Counted<W>) -> Report
    ensures { IsTellingReport (λ t. t ≡ option_map (λ v. v.items) told) (λ number. ⊥)
        (out.new ≡ out.old) (IsWritten W.contents out.old out.new)
        (IsStopped W.contents out.old out.new) result }
{
    match told {
        Some(text) => match write_text(text.as_slice(), out) {
            Ok(()) => Report::Explained,
            Err(fault) => Report::Fault(fault.number()),
        },
        None => match write_text(b"no fault\n", out) {
            Ok(()) => Report::Done,
            Err(fault) => Report::Fault(fault.number()),
        },
    }
}

/// What is told of the first file that is refused, if one is, or the number of the fault for which a file isn't read.
pub(crate) fn first_refused<F: Files>(
    alloc: Global,
    subject: Subject,
    files: &F,
) -> Result<Option<Vec<u8>>, u8>
    ensures ok { IfOk result (λ told. AllTold (F.has files.now) subject.entry.source.now
        (named subject.entry.table) (named subject.entry.steps) (named subject.entry.actions)
        (option_map (λ v. v.items) told)) }
    ensures err { IfErr result (LacksAny (F.has files.now) (F.lacks files.now)
        subject.entry.source.now (named subject.entry.table) (named subject.entry.steps)
        (named subject.entry.actions)) }
{
    front_law();
    let source = match read_front(alloc, subject.source, SOURCE_BYTES, files) {
        Ok(source) => source,
        Err(number) => return Err(number),
    };
    match compose_source(alloc, source.as_slice()) {
        Ok(plan) => files_refused(alloc, &plan, subject, files),
        Err(refused) => source_refused(alloc, subject.source, source.as_slice(), refused),
    }
}

// What is told of a source that is refused.
fn source_refused(
    alloc: Global,
    name: &str,
    source: &[u8],
    refused: SourceError,
) -> Result<Option<Vec<u8>>, u8>
    ensures ok { IfOk result (λ told. (text : List ℕ) × (option_map (λ v. v.items) told ≡ Some text)
        × (source_number refused ≢ 1) × IsExplanation name.now source.now refused text) }
    ensures err { IfErr result IsMemory }
{
    if refused.number() == 1 {
        return Err(1);
    }
    match explain_source(alloc, name, source, refused) {
        Ok(text) => Ok(Some(text)),
        Err(_) => Err(1),
    }
}

// What is told of the further files, in the order table, steps, actions.
fn files_refused<F: Files>(
    alloc: Global,
    plan: &Plan,
    subject: Subject,
    files: &F,
) -> Result<Option<Vec<u8>>, u8>
    ensures ok { IfOk result (λ told. FilesTold (F.has files.now) plan.now
        (named subject.entry.table) (named subject.entry.steps) (named subject.entry.actions)
        (option_map (λ v. v.items) told)) }
    ensures err { IfErr result (λ number.
        LacksTable (F.has files.now) (F.lacks files.now) (named subject.entry.table) number
        ⊎ (LacksTable (F.has files.now) (F.lacks files.now) (named subject.entry.steps) number
        ⊎ LacksTable (F.has files.now) (F.lacks files.now) (named subject.entry.actions) number)) }
{
    match table_refused(alloc, plan, subject.table, files) {
        Ok(None) => later_refused(alloc, plan, subject, files),
        Ok(Some(text)) => Ok(Some(text)),
        Err(number) => Err(number),
    }
}

// What is told of the files behind the table.
fn later_refused<F: Files>(
    alloc: Global,
    plan: &Plan,
    subject: Subject,
    files: &F,
) -> Result<Option<Vec<u8>>, u8>
    ensures ok { IfOk result (λ told. LaterTold (F.has files.now) plan.now
        (named subject.entry.steps) (named subject.entry.actions)
        (option_map (λ v. v.items) told)) }
    ensures err { IfErr result (λ number.
        LacksTable (F.has files.now) (F.lacks files.now) (named subject.entry.steps) number
        ⊎ LacksTable (F.has files.now) (F.lacks files.now) (named subject.entry.actions) number) }
{
    match steps_refused(alloc, plan, subject.steps, files) {
        Ok(None) => actions_refused(alloc, plan, subject.actions, files),
        Ok(Some(text)) => Ok(Some(text)),
        Err(number) => Err(number),
    }
}

fn table_refused<F: Files>(
    alloc: Global,
    plan: &Plan,
    table: Option<&str>,
    files: &F,
) -> Result<Option<Vec<u8>>, u8>
    ensures ok { IfOk result (λ told. IsJudged (F.has files.now) (IsTable plan.now)
        (IsBadTable plan.now) (named table.entry) (option_map (λ v. v.items) told)) }
    ensures err { IfErr result
        (LacksTable (F.has files.now) (F.lacks files.now) (named table.entry)) }
{
    match table {
        Some(name) => named_table_refused(alloc, plan, name, files),
        None => Ok(None),
    }
}

fn named_table_refused<F: Files>(
    alloc: Global,
    plan: &Plan,
    name: &str,
    files: &F,
) -> Result<Option<Vec<u8>>, u8>
    ensures ok { IfOk result (λ told. IsJudged (F.has files.now) (IsTable plan.now)
        (IsBadTable plan.now) (Some name.now) (option_map (λ v. v.items) told)) }
    ensures err { IfErr result
        (IsFileFault (F.has files.now name.now) (F.lacks files.now name.now)) }
{
    let bytes = match read_whole(alloc, name, files) {
        Ok(bytes) => bytes,
        Err(number) => return Err(number),
    };
    match tabled(alloc, plan, bytes.as_slice()) {
        Ok(turns) => {
            drop(turns);
            Ok(None)
        }
        Err(report) => line_refused(
            alloc,
            plan,
            FileKind::Table,
            name,
            bytes.as_slice(),
            &report,
        ),
    }
}

fn steps_refused<F: Files>(
    alloc: Global,
    plan: &Plan,
    steps: Option<&str>,
    files: &F,
) -> Result<Option<Vec<u8>>, u8>
    ensures ok { IfOk result (λ told. IsJudged (F.has files.now) (AreSteps plan.now)
        (AreBadSteps plan.now) (named steps.entry) (option_map (λ v. v.items) told)) }
    ensures err { IfErr result
        (LacksTable (F.has files.now) (F.lacks files.now) (named steps.entry)) }
{
    match steps {
        Some(name) => named_steps_refused(alloc, plan, name, files),
        None => Ok(None),
    }
}

fn named_steps_refused<F: Files>(
    alloc: Global,
    plan: &Plan,
    name: &str,
    files: &F,
) -> Result<Option<Vec<u8>>, u8>
    ensures ok { IfOk result (λ told. IsJudged (F.has files.now) (AreSteps plan.now)
        (AreBadSteps plan.now) (Some name.now) (option_map (λ v. v.items) told)) }
    ensures err { IfErr result
        (IsFileFault (F.has files.now name.now) (F.lacks files.now name.now)) }
{
    let bytes = match read_whole(alloc, name, files) {
        Ok(bytes) => bytes,
        Err(number) => return Err(number),
    };
    match steps_read(alloc, plan, bytes.as_slice()) {
        Ok(()) => Ok(None),
        Err(report) => line_refused(
            alloc,
            plan,
            FileKind::Steps,
            name,
            bytes.as_slice(),
            &report,
        ),
    }
}

// Whether the bytes are steps, or the report on why not.
fn steps_read(alloc: Global, plan: &Plan, bytes: &[u8]) -> Result<(), Report>
    ensures ok { IfOk result (λ _. AreSteps plan.now bytes.now) }
    ensures err { IfErr result (IsRefusal (AreBadSteps plan.now bytes.now) IsMemory) }
{
    match read_steps(alloc, plan, bytes) {
        Ok(steps) => {
            drop(steps);
            Ok(())
        }
        Err(refused) => Err(report_of(&refused)),
    }
}

fn actions_refused<F: Files>(
    alloc: Global,
    plan: &Plan,
    actions: Option<&str>,
    files: &F,
) -> Result<Option<Vec<u8>>, u8>
    ensures ok { IfOk result (λ told. IsJudged (F.has files.now) (AreActions plan.now)
        (AreBadActions plan.now) (named actions.entry) (option_map (λ v. v.items) told)) }
    ensures err { IfErr result
        (LacksTable (F.has files.now) (F.lacks files.now) (named actions.entry)) }
{
    match actions {
        Some(name) => named_actions_refused(alloc, plan, name, files),
        None => Ok(None),
    }
}

fn named_actions_refused<F: Files>(
    alloc: Global,
    plan: &Plan,
    name: &str,
    files: &F,
) -> Result<Option<Vec<u8>>, u8>
    ensures ok { IfOk result (λ told. IsJudged (F.has files.now) (AreActions plan.now)
        (AreBadActions plan.now) (Some name.now) (option_map (λ v. v.items) told)) }
    ensures err { IfErr result
        (IsFileFault (F.has files.now name.now) (F.lacks files.now name.now)) }
{
    let bytes = match read_whole(alloc, name, files) {
        Ok(bytes) => bytes,
        Err(number) => return Err(number),
    };
    match actions_read(alloc, plan, bytes.as_slice()) {
        Ok(()) => Ok(None),
        Err(report) => line_refused(
            alloc,
            plan,
            FileKind::Trace,
            name,
            bytes.as_slice(),
            &report,
        ),
    }
}

// Whether the bytes are actions, or the report on why not.
fn actions_read(alloc: Global, plan: &Plan, bytes: &[u8]) -> Result<(), Report>
    ensures ok { IfOk result (λ _. AreActions plan.now bytes.now) }
    ensures err { IfErr result (IsRefusal (AreBadActions plan.now bytes.now) IsMemory) }
{
    match read_trace(alloc, plan, bytes) {
        Ok(actions) => {
            drop(actions);
            Ok(())
        }
        Err(refused) => Err(report_of(&refused)),
    }
}

// What is told of a file of lines that is refused so.
fn line_refused(
    alloc: Global,
    plan: &Plan,
    kind: FileKind,
    name: &str,
    bytes: &[u8],
    report: &Report,
) -> Result<Option<Vec<u8>>, u8>
    ensures ok { IfOk result (λ told. TellsReport name.now bytes.now report.now
        (option_map (λ v. v.items) told)) }
    ensures err { IfErr result IsMemory }
{
    match report {
        Report::Refused(number, place) => {
            match explain_line(alloc, plan, kind, name, bytes, *number, *place) {
                Ok(text) => Ok(Some(text)),
                Err(_) => Err(1),
            }
        }
        _ => Err(1),
    }
}
