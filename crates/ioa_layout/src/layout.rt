//! The layout of a source.
ghost use Rattle.std.specs.Prelude.{IfOk, IfErr};
ghost use Rattle.std.specs.Str.{IsAscii};
ghost use Rattle.ioa_tokens.specs.Cutting.{IsFault};
ghost use Rattle.ioa_layout.specs.Laid.{IsLayout, ReadsAlike};

use crate::outline::gaps;
use crate::reading::items;
use crate::writing::written;
use ioa_tokens::{TokensError, tokens};
use std::alloc::Global;

/// Lays a source out. The answer has its tokens and its comments in their order, each with the bytes that the source
/// has for it, but for white space at the ends of comments. It ends with a line feed.
///
/// Refused is what `ioa_tokens::tokens` refuses, with the same place.
pub fn format(alloc: Global, source: &[u8]) -> Result<Vec<u8>, TokensError>
    ensures ok { IfOk result (λ text. IsLayout source.now text.items) }
    ensures tokens { IfOk result (λ text. ReadsAlike source.now text.items) }
    ensures err { IfErr result (λ e. IsFault source.now e) }
{
    let found = tokens(alloc, source)?;
    let seen = items(alloc, source, found.as_slice())?;
    let set = gaps(alloc, seen.as_slice())?;
    let text = written(alloc, seen.as_slice(), set.as_slice())?;
    Ok(text)
}
