//! From bytes to tokens with their places.
ghost use Rattle.std.specs.Prelude.{◌≡◌, ◌≤◌, ◌<◌, ◌+◌, ◌++◌, [], true, false, IfSome, IfNone, IfOk, IfErr, OnOk, MatchResult, List, length};
ghost use Rattle.std.specs.Str.{IsAscii};
ghost use Rattle.ioa_tokens.specs.Bytes.{IsFirstWide};
ghost use Rattle.ioa_tokens.specs.Tokens.{Tok, placed, toks_of};
ghost use Rattle.ioa_tokens.specs.Layout.{layout, AreProper};
ghost use Rattle.ioa_tokens.specs.Cutting.{IsTokens, IsFault, keep};
ghost use Rattle.ioa_tokens.specs.declared.fault.TokensError.TheVariants.{NoMemory};
ghost use Rattle.ioa_tokens.specs.Seen.{piece_of};

use crate::fault::TokensError;
use crate::find::{Found, front};
use crate::token::Token;
use std::alloc::Global;

// The first byte that isn't ASCII.
fn first_wide(bytes: &[u8]) -> Option<usize>
    ensures some { IfSome result (λ at. IsFirstWide bytes.now at) }
    ensures none { IfNone result (IsAscii bytes.now) }
{
    bytes.iter().position(|byte| *byte >= 128)
}

// Keeps a token with its place, and no blank or comment.
fn keep_found<'a>(
    tokens: &mut Vec<Token<'a>>,
    found: Found<'a>,
    at: usize,
) -> Result<(), TokensError>
    ensures ok { OnOk result (placed tokens.new.items ≡ placed tokens.old.items
        ++ keep (piece_of found.entry) at []) }
    ensures err { IfErr result (λ e. e ≡ NoMemory) }
{
    if let Found::Token(kind) = found {
        tokens.push(Token { kind, at })?;
    }
    Ok(())
}

// The tokens, piece by piece.
fn cut_source<'a>(alloc: Global, source: &'a [u8]) -> Result<Vec<Token<'a>>, TokensError>
    ensures ok { IfOk result (λ ts. IsAscii source.now × IsTokens source.now (placed ts.items)) }
    ensures err { IfErr result (λ e. IsFault source.now e) }
{
    if let Some(at) = first_wide(source) {
        return Err(TokensError::NotAscii(at));
    }
    let mut found = Vec::new(alloc);
    let mut at = 0;
    while at < source.len() {
        let (_, rest) = source.split_at(at);
        let Some((piece, len)) = front(rest) else {
            return Err(TokensError::BadToken(at));
        };
        keep_found(&mut found, piece, at)?;
        at += len;
    }
    Ok(found)
}

/// The tokens of a source, each with the place of its first byte. Between them stand blanks (space, tab, line feed,
/// carriage return) and comments, from `%` up to a line feed.
///
/// Refused are a byte of 128 or more, also in a comment, and else the first place at which neither a blank nor a comment
/// nor a token begins: a number over 9223372036854775807 or with a letter or `_` directly after it, or any other byte.
/// What a page has laid out is read as the tokens that were put on it.
pub fn tokens<'a>(alloc: Global, source: &'a [u8]) -> Result<Vec<Token<'a>>, TokensError>
    ensures ok { IfOk result (λ ts. IsAscii source.now × IsTokens source.now (placed ts.items)) }
    ensures err { IfErr result (λ e. IsFault source.now e) }
    ensures proper { IfOk result (λ ts. AreProper (toks_of ts.items)) }
    ensures again { (toks : List Tok) → AreProper toks → source.now ≡ layout toks
        → MatchResult result (λ ts. toks_of ts.items ≡ toks) (λ e. e ≡ NoMemory) }
{
    cut_source(alloc, source)
}
