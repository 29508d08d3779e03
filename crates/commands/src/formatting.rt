//! The engines of `format`: a source laid out as people write it.
ghost use Rattle.std.specs.Prelude.{◌≡◌, ◌≢◌, IfErr, IfOk, OnOk, false, true};
ghost use Rattle.commands.specs.Formatting.{IsFormatReport, IsFormatted, IsLaidOut, IsLayoutReport, IsUnformatted, IsUnlaid, layout_report};
ghost use Rattle.trace.specs.Went.{IsStopped, IsWritten};

use crate::fault::PrintFault;
use crate::files::Files;
use crate::reading::{SOURCE_BYTES, read_front};
use crate::report::{Report, report_of};
use ioa_front::read;
use ioa_layout::format;
use std::alloc::Global;
use std::io::Write;
use trace::{Counted, write_text};

/// Writes the source in a file as people lay it out, with its comments.
pub fn format_file<F: Files, W: Write>(
    alloc: Global,
    name: &str,
    files: &F,
    out: &mut Counted<W>,
) -> Report
    ensures { IsFormatReport (F.has files.now name.now) (F.lacks files.now name.now)
        (out.new ≡ out.old) (IsWritten W.contents out.old out.new)
        (IsStopped W.contents out.old out.new) result }
{
    let source = match read_front(alloc, name, SOURCE_BYTES, files) {
        Ok(source) => source,
        Err(number) => return Report::Fault(number),
    };
    match format_source(alloc, source.as_slice(), out) {
        Ok(()) => Report::Done,
        Err(fault) => report_of(&fault),
    }
}

/// Tells whether the source in a file is so laid out.
pub fn judge_layout<F: Files>(alloc: Global, name: &str, files: &F) -> Report
    ensures { IsLayoutReport (F.has files.now name.now) (F.lacks files.now name.now) result }
{
    let source = match read_front(alloc, name, SOURCE_BYTES, files) {
        Ok(source) => source,
        Err(number) => return Report::Fault(number),
    };
    match is_laid_out(alloc, source.as_slice()) {
        Ok(same) => layout_report(same),
        Err(fault) => report_of(&fault),
    }
}

fn layout_report(same: bool) -> Report
    ensures { result ≡ layout_report same }
{
    if same { Report::Done } else { Report::No }
}

/// Reads a source and writes it as people lay it out, with its comments.
///
/// # Errors
///
/// `Source` with the reader's refusal of the source, or of its layout, which may be too large, and `NoMemory`; then nothing is written. `Write` where
/// a write failed, with the number of the layout's bytes that went out before.
pub fn format_source<W: Write>(
    alloc: Global,
    source: &[u8],
    out: &mut Counted<W>,
) -> Result<(), PrintFault>
    ensures formatted { OnOk result
        (IsFormatted source.now (IsWritten W.contents out.old out.new)) }
    ensures unformatted { IfErr result
        (IsUnformatted source.now (out.new ≡ out.old) (IsStopped W.contents out.old out.new)) }
{
    let text = match laid_out(alloc, source) {
        Ok(text) => text,
        Err(fault) => return Err(fault),
    };
    match write_text(text.as_slice(), out) {
        Ok(()) => Ok(()),
        Err(fault) => Err(PrintFault::Write(fault)),
    }
}

// Whether a source is the text as which it is laid out.
fn is_laid_out(alloc: Global, source: &[u8]) -> Result<bool, PrintFault>
    ensures yes { IfOk result (λ same. same ≡ true → IsLaidOut source.now source.now) }
    ensures no { IfOk result (λ same. same ≡ false
        → IsFormatted source.now (λ text. text ≢ source.now)) }
    ensures err { IfErr result (λ fault. IsUnlaid source.now fault) }
{
    let text = match laid_out(alloc, source) {
        Ok(text) => text,
        Err(fault) => return Err(fault),
    };
    Ok(text.as_slice() == source)
}

// The text as which a source is laid out. It is read once more, since it may be too large where the source isn't.
fn laid_out(alloc: Global, source: &[u8]) -> Result<Vec<u8>, PrintFault>
    ensures ok { IfOk result (λ text. IsLaidOut source.now text.items) }
    ensures err { IfErr result (λ fault. IsUnlaid source.now fault) }
{
    let tree = match read(alloc, source) {
        Ok(tree) => tree,
        Err(refused) => return Err(PrintFault::Source(refused)),
    };
    drop(tree);
    let text = match format(alloc, source) {
        Ok(text) => text,
        Err(_refused) => return Err(PrintFault::NoMemory),
    };
    match read(alloc, text.as_slice()) {
        Ok(again) => {
            drop(again);
            Ok(text)
        }
        Err(refused) => Err(PrintFault::Source(refused)),
    }
}
