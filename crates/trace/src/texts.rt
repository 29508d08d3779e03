//! Texts that are there whole, and what stands in front of the lines of turns.
ghost use Rattle.std.specs.Prelude.{OnOk, IfErr, IfOk};
ghost use Rattle.trace.specs.Headed.{front_of};
ghost use Rattle.trace.specs.Heads.{head_text};
ghost use Rattle.trace.specs.Puts.{Puts, Stops, written_of};
ghost use Rattle.trace.specs.Went.{IsStopped, IsWritten};

use crate::counted::Counted;
use crate::fault::WriteFault;
use crate::lines::Lines;
use std::io::Write;

/// How turns are written.
#[derive(Clone, Copy)]
pub struct Form {
    /// Which ones.
    pub lines: Lines,
    /// The head of [`write_head`] stands in front of them.
    pub head: bool,
}

/// Writes a text, up to the first write that fails.
///
/// # Errors
///
/// `WriteFailed` where a write failed, with the number of the text's bytes that went out before; one more failure is counted.
pub fn write_text<W: Write>(text: &[u8], out: &mut Counted<W>) -> Result<(), WriteFault>
    ensures ok { OnOk result (IsWritten W.contents out.old out.new text.now) }
    ensures err { IfErr result
        (λ fault. IsStopped W.contents out.old out.new text.now (written_of fault)) }
{
    match out.write_piece(text) {
        Ok(()) => Ok(()),
        Err(written) => Err(WriteFault::WriteFailed(written as u64)),
    }
}

/// Writes the head of a file of turns, the 8 bytes `trace 2` and a line feed. With it in front, a file that is read has to have the
/// lines of turns alone, and these in the order of their keys.
///
/// # Errors
///
/// `WriteFailed` where a write failed, with the number of the 8 bytes that went out before; one more failure is counted.
pub fn write_head<W: Write>(out: &mut Counted<W>) -> Result<(), WriteFault>
    ensures ok { OnOk result (IsWritten W.contents out.old out.new head_text) }
    ensures err { IfErr result (Stops W.contents out.old out.new 0 head_text) }
{
    write_text(b"trace 2\n", out)
}

/// Writes the head where it is asked for, in front of all else, and answers how many bytes that were, 8 or 0. An error is that of
/// [`write_head`].
pub fn write_front<W: Write>(head: bool, out: &mut Counted<W>) -> Result<u64, WriteFault>
    ensures ok { IfOk result (λ after. Puts W.contents out.old out.new 0 after (front_of head)) }
    ensures err { IfErr result (Stops W.contents out.old out.new 0 (front_of head)) }
{
    if !head {
        return Ok(0);
    }
    match write_head(out) {
        Ok(()) => Ok(8),
        Err(fault) => Err(fault),
    }
}
