//! The engine of `print`: a source in its layout.
ghost use Rattle.std.specs.Prelude.{◌≡◌, IfErr, OnOk};
ghost use Rattle.commands.specs.Printing.{IsPrinted, IsUnprinted};
ghost use Rattle.trace.specs.Went.{IsStopped, IsWritten};

use crate::fault::PrintFault;
use ioa_front::{print, read};
use std::alloc::Global;
use std::io::Write;
use trace::{Counted, write_text};

/// Reads a source and writes the layout of the tree that it spells.
///
/// # Errors
///
/// `Source` with the reader's refusal, and `NoMemory`; then nothing is written. `Write` where a write failed, with the number of the
/// layout's bytes that went out before.
pub fn print_source<W: Write>(
    alloc: Global,
    source: &[u8],
    out: &mut Counted<W>,
) -> Result<(), PrintFault>
    ensures printed { OnOk result (IsPrinted source.now (IsWritten W.contents out.old out.new)) }
    ensures unprinted { IfErr result
        (IsUnprinted source.now (out.new ≡ out.old) (IsStopped W.contents out.old out.new)) }
{
    let tree = match read(alloc, source) {
        Ok(tree) => tree,
        Err(refused) => return Err(PrintFault::Source(refused)),
    };
    let text = match print(alloc, &tree) {
        Ok(text) => text,
        Err(_refused) => return Err(PrintFault::NoMemory),
    };
    match write_text(text.as_slice(), out) {
        Ok(()) => Ok(()),
        Err(fault) => Err(PrintFault::Write(fault)),
    }
}
