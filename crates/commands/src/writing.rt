//! Texts, each written up to the first write that fails.
ghost use Rattle.std.specs.Prelude.{◌++◌, OnErr, OnOk, codes, decimal};
ghost use Rattle.trace.specs.Went.{IsWritten};
ghost use Rattle.commands.specs.Written.{IsCut, IsSaid};

use itoa::Buffer;
use std::io::Write;
use trace::{Counted, WriteFault, write_text};

/// Writes a text, and passes over a write that fails.
pub fn say<W: Write>(text: &[u8], out: &mut Counted<W>)
    ensures { IsSaid W.contents out.old out.new text.now }
{
    let _ = write_text(text, out);
}

/// Writes a label and a number. A fault counts the bytes of one of them.
#[tactic(auto, using(crate::proofs::Pieces::pieces))]
pub(crate) fn write_number<W: Write>(
    label: &[u8],
    number: u64,
    out: &mut Counted<W>,
) -> Result<(), WriteFault>
    ensures ok { OnOk result (IsWritten W.contents out.old out.new (label.now ++ decimal number)) }
    ensures err { OnErr result (IsCut W.contents out.old out.new (label.now ++ decimal number)) }
{
    write_text(label, out)?;
    write_text(Buffer::new().format(number).as_bytes(), out)
}

/// The same with a line feed behind.
#[tactic(auto, using(crate::proofs::Pieces::pieces))]
pub(crate) fn write_line<W: Write>(
    label: &[u8],
    number: u64,
    out: &mut Counted<W>,
) -> Result<(), WriteFault>
    ensures ok { OnOk result (IsWritten W.contents out.old out.new
        ((label.now ++ decimal number) ++ codes "\n")) }
    ensures err { OnErr result
        (IsCut W.contents out.old out.new ((label.now ++ decimal number) ++ codes "\n")) }
{
    write_number(label, number, out)?;
    write_text(b"\n", out)
}
