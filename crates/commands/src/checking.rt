//! The engine of `check`, for a plan and the bytes of actions.
ghost use Rattle.std.specs.Prelude.{◌≡◌, IfErr, IfOk};
ghost use Rattle.trace.specs.Went.{IsStopped, IsWritten};
ghost use Rattle.commands.specs.Judged.{IsJudged, IsUnjudged, verdict_text};

use crate::fault::CheckFault;
use itoa::Buffer;
use plans::Plan;
use reference::{Verdict, check_run};
use std::alloc::{AllocError, Global};
use std::io::Write;
use trace::{Counted, read_trace, write_text};

/// Reads actions, judges them by a composition, and writes the line of the verdict: `schedule`, `not enabled at K` or
/// `not an action at K`, where K is the number of the first action at fault, counted from 0.
///
/// # Errors
///
/// `Trace` with the refusal of the file, and `NoMemory`; then nothing is written. `Write` where a write failed, with the number of
/// the line's bytes that went out before.
pub fn check_trace<W: Write>(
    alloc: Global,
    plan: &Plan,
    trace: &[u8],
    out: &mut Counted<W>,
) -> Result<Verdict, CheckFault>
    ensures judged { IfOk result (λ verdict. IsJudged plan.now trace.now verdict
        (IsWritten W.contents out.old out.new)) }
    ensures unjudged { IfErr result
        (IsUnjudged plan.now trace.now (out.new ≡ out.old) (IsStopped W.contents out.old out.new)) }
{
    let actions = match read_trace(alloc, plan, trace) {
        Ok(actions) => actions,
        Err(refused) => return Err(CheckFault::Trace(refused)),
    };
    let verdict = match check_run(alloc, plan, actions.as_slice()) {
        Ok(verdict) => verdict,
        Err(_refused) => return Err(CheckFault::NoMemory),
    };
    let text = match verdict_text(alloc, verdict) {
        Ok(text) => text,
        Err(_refused) => return Err(CheckFault::NoMemory),
    };
    match write_text(text.as_slice(), out) {
        Ok(()) => Ok(verdict),
        Err(fault) => Err(CheckFault::Write(fault)),
    }
}

// The line of a verdict.
fn verdict_text(alloc: Global, verdict: Verdict) -> Result<Vec<u8>, AllocError>
    ensures { IfOk result (λ text. text.items ≡ verdict_text verdict) }
{
    let mut text = Vec::new(alloc);
    match verdict {
        Verdict::Schedule => text.extend_from_slice(b"schedule")?,
        Verdict::NotEnabled(at) => {
            text.extend_from_slice(b"not enabled at ")?;
            text.extend_from_slice(Buffer::new().format(at).as_bytes())?;
        }
        Verdict::NotAnAction(at) => {
            text.extend_from_slice(b"not an action at ")?;
            text.extend_from_slice(Buffer::new().format(at).as_bytes())?;
        }
    }
    text.push(b'\n')?;
    Ok(text)
}
