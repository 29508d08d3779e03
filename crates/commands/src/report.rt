//! What the program answers, and how it says so.
ghost use Rattle.std.specs.Prelude.{◌≡◌, ◌⊎◌, OnErr, OnOk, Some, flat_map};
ghost use Rattle.commands.specs.Reports.{is_fault, line_of, refused_line, report_of, status_of};
ghost use Rattle.trace.specs.Went.{IsWritten};
ghost use Rattle.commands.specs.Written.{IsCut, IsSaid};

use crate::counts::write_stats;
use crate::driving::RefusedStep;
use crate::writing::{write_line, write_number};
use std::io::Write;
use steering::Stats;
use terms::Refusal;
use trace::{Counted, WriteFault};

/// How a call of the program ended.
#[derive(PartialEq, Eq, Drop)]
pub enum Report {
    /// Done.
    Done,
    /// `check` says no, which stands on standard output.
    No,
    /// All steps of a file were done or refused, these ones refused, and the committed turns stand on standard output.
    Driven(Vec<RefusedStep>),
    /// `run` is done, and what the workers did is told.
    Ran(Stats),
    /// `explain` told on standard output of what is refused.
    Explained,
    /// A source, turns, steps or actions were refused, with the refusal's number and its place, where it has one.
    Refused(u8, Option<usize>),
    /// A run fault, or a file that couldn't be read: 1 for want of memory, 40 and 41 for a refused lease, 60 for a failed write, 61 for a
    /// worker that wasn't started, 62 for turns out of place, 63 and 64 for files.
    Fault(u8),
    /// The words aren't those of the program, which was said when they were read.
    Misused,
}

impl Report {
    /// The exit status: 0, 1 for what was refused, 2 for words, 3 for faults, 4 where `check` says no.
    pub fn status(&self) -> u8
        ensures { result ≡ status_of self.now }
    {
        match self {
            Report::Done | Report::Driven(_) | Report::Ran(_) => 0,
            Report::Refused(_, _) | Report::Explained => 1,
            Report::Misused => 2,
            Report::Fault(_) => 3,
            Report::No => 4,
        }
    }

    /// Writes the line of a report, if it has one, or one for each refused step or each count, up to the first write that fails.
    pub fn tell<E: Write>(&self, err: &mut Counted<E>)
        ensures said { IsSaid E.contents err.old err.new (line_of self.now) }
        ensures quiet { (self.now ≡ Report.Done)
            ⊎ ((self.now ≡ Report.No)
            ⊎ ((self.now ≡ Report.Misused) ⊎ (self.now ≡ Report.Explained))) → err.new ≡ err.old }
    {
        match self {
            Report::Done | Report::No | Report::Misused | Report::Explained => {}
            Report::Driven(refused) => {
                let _ = write_steps(refused.as_slice(), err);
            }
            Report::Ran(stats) => {
                let _ = write_stats(stats, err);
            }
            Report::Refused(number, Some(place)) => {
                let _ = write_refused(u64::from(*number), *place as u64, err);
            }
            Report::Refused(number, None) => {
                let _ = write_line(b"refused ", u64::from(*number), err);
            }
            Report::Fault(number) => {
                let _ = write_line(b"fault ", u64::from(*number), err);
            }
        }
    }
}

// The line of a refusal with its place.
fn write_refused<E: Write>(number: u64, place: u64, err: &mut Counted<E>) -> Result<(), WriteFault>
    ensures ok { OnOk result (IsWritten E.contents err.old err.new
        (line_of (Report.Refused number (Some place)))) }
    ensures err { OnErr result
        (IsCut E.contents err.old err.new (line_of (Report.Refused number (Some place)))) }
{
    write_number(b"refused ", number, err)?;
    write_line(b" at ", place, err)
}

// The lines of refused steps.
fn write_steps<E: Write>(refused: &[RefusedStep], err: &mut Counted<E>) -> Result<(), WriteFault>
    ensures ok { OnOk result (IsWritten E.contents err.old err.new
        (flat_map refused_line refused.now)) }
    ensures err { OnErr result
        (IsCut E.contents err.old err.new (flat_map refused_line refused.now)) }
{
    let mut rest = refused;
    while let Some((step, later)) = rest.split_first() {
        write_step(step.step, u64::from(step.number), err)?;
        rest = later;
    }
    Ok(())
}

// The line of a refused step.
fn write_step<E: Write>(step: u64, number: u64, err: &mut Counted<E>) -> Result<(), WriteFault>
    ensures ok { OnOk result (IsWritten E.contents err.old err.new
        (refused_line (record { step = step; number = number }))) }
    ensures err { OnErr result
        (IsCut E.contents err.old err.new
        (refused_line (record { step = step; number = number }))) }
{
    write_number(b"step ", step, err)?;
    write_line(b" refused ", number, err)
}

/// The report of a refusal. Want of memory (1), what befalls a run (40 to 49), and what befalls writers, workers and files (from 60
/// on) are faults.
pub fn report_of<R: Refusal>(refusal: &R) -> Report
    ensures { result ≡ report_of (R.number_of refusal.now) (R.place_of refusal.now) }
{
    let number = refusal.number();
    if is_fault(number) {
        Report::Fault(number)
    } else {
        Report::Refused(number, refusal.place())
    }
}

fn is_fault(number: u8) -> bool
    ensures { result ≡ is_fault number }
{
    number == 1 || (number >= 40 && number <= 49) || number >= 60
}
