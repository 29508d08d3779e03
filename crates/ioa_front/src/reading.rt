//! Bytes read as a source.
ghost use Rattle.std.specs.Prelude.{◌≡◌, ◌≤◌, length, IfOk, IfErr};
ghost use Rattle.ioa_tokens.specs.Layout.{layout};
ghost use Rattle.ioa_tokens.specs.Tokens.{placed};
ghost use Rattle.ioa_trees.specs.Spelling.{spell};
ghost use Rattle.ioa_trees.specs.Trees.{PlainSource};
ghost use Rattle.ioa_trees.specs.Views.{view_source};
ghost use Rattle.ioa_front.specs.Reading.{Gets, IsReadable, IsRefusal, Spells, most_bytes};
ghost use Rattle.ioa_front.specs.Theorem.{IsFound, left_at};

use crate::fault::ReadError;
use crate::readable::Source;
use ioa_phrases::{Stop, read_source};
use ioa_tokens::laws::{one_reading_law, read_back_law};
use ioa_tokens::{Token, tokens};
use ioa_trees::tree::SourceTree;
use std::alloc::Global;

/// The most bytes that a source may have.
pub const MOST_BYTES: usize = 65_536;

/// Reads a source: the tree that its bytes spell, parentheses kept, comments left out.
///
/// # Errors
///
/// `TooLarge` over 65,536 bytes; else `NotAscii` with the first byte of 128 or more; else `BadToken` with the first place at which no
/// token begins; else by the earliest token `Syntax` where no source goes on with it, or `TooDeep` where it stands inside of more than
/// 64 pairs and prefixes. A text that ends too early is refused as `Syntax` at its length. `NoMemory` may stand in place of any.
pub fn read(alloc: Global, source: &[u8]) -> Result<Source, ReadError>
    ensures size { IfOk result (λ s. length source.now ≤ most_bytes) }
    ensures spelled { IfOk result (λ s. Spells source.now (view_source s)) }
    ensures readable { IfOk result (λ s. IsReadable (view_source s)) }
    ensures only { (x : PlainSource) → IsReadable x → Spells source.now x
        → length source.now ≤ most_bytes → Gets x result }
    ensures again { (x : PlainSource) → IsReadable x → source.now ≡ layout (spell x)
        → length source.now ≤ most_bytes → Gets x result }
    ensures refused { IfErr result (λ e. IsRefusal source.now e) }
{
    let tree = read_tree(alloc, source)?;
    Ok(Source { tree })
}

// Reads the tree of a source.
fn read_tree(alloc: Global, source: &[u8]) -> Result<SourceTree, ReadError>
    ensures size { IfOk result (λ s. length source.now ≤ most_bytes) }
    ensures spelled { IfOk result (λ s. Spells source.now (view_source s)) }
    ensures readable { IfOk result (λ s. IsReadable (view_source s)) }
    ensures only { (x : PlainSource) → IsReadable x → Spells source.now x
        → length source.now ≤ most_bytes → Gets x result }
    ensures again { (x : PlainSource) → IsReadable x → source.now ≡ layout (spell x)
        → length source.now ≤ most_bytes → Gets x result }
    ensures refused { IfErr result (λ e. IsRefusal source.now e) }
{
    if source.len() > MOST_BYTES {
        return Err(ReadError::TooLarge);
    }
    one_reading_law();
    read_back_law();
    let found = tokens(alloc, source)?;
    read_found(alloc, found.as_slice(), source.len())
}

// Reads a source from its tokens; `end` is the number of its bytes.
fn read_found(alloc: Global, found: &[Token], end: usize) -> Result<SourceTree, ReadError>
    ensures { IsFound (placed found.now) end result }
{
    match read_source(alloc, found) {
        Ok(source) => Ok(source),
        Err(Stop::Memory) => Err(ReadError::NoMemory),
        Err(Stop::Syntax(left)) => Err(ReadError::Syntax(place_of(found, left, end))),
        Err(Stop::Deep(_)) => Err(ReadError::TooDeep),
    }
}

// The place of the first token of so many last ones.
fn place_of(found: &[Token], left: usize, end: usize) -> usize
    ensures { result ≡ left_at end (placed found.now) left }
{
    match found.get(found.len().saturating_sub(left)) {
        Some(token) => token.at,
        None => end,
    }
}
