//! The engine of `hunt`.
ghost use Rattle.std.specs.Prelude.{◌≡◌, ◌++◌, codes, decimal, IfErr, IfOk, MatchBool, OnOk};
ghost use Rattle.trace.specs.Puts.{written_of};
ghost use Rattle.trace.specs.Went.{IsStopped, IsWritten};
ghost use Rattle.hunt.specs.Faults.{IsStoppedBy, IsUnhunted};
ghost use Rattle.hunt.specs.Hunts.{IsAnswered, IsCounted, IsNone, IsTold};
ghost use Rattle.hunt.specs.Seeds.{hunted};

use crate::counting::count_all;
use crate::course::Course;
use crate::fault::HuntFault;
use crate::looks::Looks;
use crate::searching::search;
use crate::seeds::number_line;
use std::alloc::{AllocError, Global};
use std::io::Write;
use std::thread::Threads;
use trace::{Counted, write_text};

// The line of a count.
fn count_text(alloc: Global, count: u64) -> Result<Vec<u8>, AllocError>
    ensures { IfOk result (λ text. text.items ≡ decimal count ++ codes "\n") }
{
    number_line(alloc, b"", count)
}

/// Looks through the seeds from `first` on and below `end` for the least one whose schedule has an action, and writes the line `seed N`
/// and the lines of its turns up to and including the first that did it; or the line `none`. The answer is whether there is one.
///
/// A schedule of a seed is that of the simulator on one thread that always takes the least key. The action is a name of actions, or an
/// action as a line of a trace has it. Workers only share the work: the answer is the same by any number of them; 0 is taken as 1.
/// What a worker holds grows with the turns of one seed. `looks` is told of each seed that was looked at.
///
/// # Errors
///
/// `Source`, `Action`, `Turns` and `Ticks` where the source, the action, the gap or the last tick is refused, in this order, and `NoMemory`;
/// then nothing is written. Of an empty range nothing is judged. `Write` where a write failed, with the number of the text's bytes that went out
/// before.
pub fn hunt<W: Write, R: Threads + Sync, L: Looks + Sync>(
    rt: &R,
    alloc: Global,
    source: &[u8],
    action: &str,
    course: Course,
    first: u64,
    end: u64,
    workers: u64,
    looks: &L,
    out: &mut Counted<W>,
) -> Result<bool, HuntFault>
    ensures answered { IfOk result (λ found. MatchBool found
        (IsTold (hunted source.now action.now course) first end
        (IsWritten W.contents out.old out.new))
        (IsNone (hunted source.now action.now course) first end
        (IsWritten W.contents out.old out.new))) }
    ensures err { IfErr result (IsUnhunted (hunted source.now action.now course) (out.new ≡ out.old)
        (λ failed. IsAnswered (hunted source.now action.now course) first end
        (λ text. IsStopped W.contents out.old out.new text (written_of failed)))) }
{
    match search(
        rt, alloc, source, action, course, first, end, workers, looks,
    ) {
        Ok(Some(find)) => tell(find.text.as_slice(), true, out),
        Ok(None) => tell(b"none\n", false, out),
        Err(fault) => Err(fault),
    }
}

// Writes an answer, and says again whether a seed was found.
fn tell<W: Write>(text: &[u8], found: bool, out: &mut Counted<W>) -> Result<bool, HuntFault>
    ensures found { IfOk result (λ answer. answer ≡ found) }
    ensures written { OnOk result (IsWritten W.contents out.old out.new text.now) }
    ensures stopped { IfErr result (IsStoppedBy (IsStopped W.contents out.old out.new text.now)) }
{
    match write_text(text, out) {
        Ok(()) => Ok(found),
        Err(fault) => Err(HuntFault::Write(fault)),
    }
}

/// Counts the seeds from `first` on and below `end` whose schedules have an action, and writes the line of their number. The rest is as for
/// [`hunt`], and no seed is given up.
///
/// # Errors
///
/// As those of [`hunt`].
pub fn count<W: Write, R: Threads + Sync, L: Looks + Sync>(
    rt: &R,
    alloc: Global,
    source: &[u8],
    action: &str,
    course: Course,
    first: u64,
    end: u64,
    workers: u64,
    looks: &L,
    out: &mut Counted<W>,
) -> Result<(), HuntFault>
    ensures counted { OnOk result (IsCounted (hunted source.now action.now course) first end
        (IsWritten W.contents out.old out.new)) }
    ensures err { IfErr result (IsUnhunted (hunted source.now action.now course) (out.new ≡ out.old)
        (λ failed. IsCounted (hunted source.now action.now course) first end
        (λ text. IsStopped W.contents out.old out.new text (written_of failed)))) }
{
    let count = match count_all(
        rt, alloc, source, action, course, first, end, workers, looks,
    ) {
        Ok(count) => count,
        Err(fault) => return Err(fault),
    };
    let text = match count_text(alloc, count) {
        Ok(text) => text,
        Err(_refused) => return Err(HuntFault::NoMemory),
    };
    match write_text(text.as_slice(), out) {
        Ok(()) => Ok(()),
        Err(fault) => Err(HuntFault::Write(fault)),
    }
}
