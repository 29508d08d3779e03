// What stands at the front of the tokens.
ghost use Rattle.std.specs.Prelude.{◌≡◌, ◌≤◌, ◌+◌, false, true, ◌∷◌, length, IfOk, MatchOption, string_bytes};
ghost use Rattle.ioa_tokens.specs.Tokens.{Key, is, sees, tok_of, toks_of, same_word};
ghost use Rattle.ioa_phrases.specs.Reads.{Expects, Names, NamesInside, Numbers};

use crate::stop::Stop;
use ioa_tokens::{Kind, Token, Word};
use std::alloc::Global;

/// How many pairs and prefixes may stand around a token.
pub(crate) const MAX_DEPTH: u32 = 64;

fn same_word(a: Word, b: Word) -> bool
    ensures { result ≡ same_word a b }
{
    a == b
}

fn is(kind: &Kind, word: Word) -> bool
    ensures test { result ≡ is word (tok_of kind.now) }
    ensures key { result ≡ true → tok_of kind.now ≡ Key word }
{
    match kind {
        Kind::Word(found) => same_word(*found, word),
        _ => false,
    }
}

/// What follows this word, if it comes next.
pub(crate) fn past<'a, 'b>(tokens: &'b [Token<'a>], word: Word) -> Option<&'b [Token<'a>]>
    ensures cases { MatchOption result (sees word (toks_of tokens.now) ≡ false)
        (λ rest. toks_of tokens.now ≡ Key word ∷ toks_of rest.now) }
    ensures shorter { MatchOption result Unit (λ rest. length rest.now + 1 ≤ length tokens.now) }
{
    let (first, rest) = tokens.split_first()?;
    if is(&first.kind, word) {
        Some(rest)
    } else {
        None
    }
}

/// What follows this word, which has to come next.
pub(crate) fn expect<'a, 'b>(tokens: &'b [Token<'a>], word: Word) -> Result<&'b [Token<'a>], Stop>
    ensures cases { Expects (λ rest. toks_of rest.now) word (toks_of tokens.now) result }
    ensures shorter { IfOk result (λ rest. length rest.now + 1 ≤ length tokens.now) }
{
    past(tokens, word).ok_or(Stop::Syntax(tokens.len()))
}

/// The name that has to come next, and what follows it.
pub(crate) fn expect_name<'a, 'b>(
    alloc: Global,
    tokens: &'b [Token<'a>],
) -> Result<(String, &'b [Token<'a>]), Stop>
    ensures cases { Names (λ x. string_bytes x.0) (λ x. toks_of x.1.now)
        (toks_of tokens.now) result }
    ensures shorter { IfOk result (λ x. length x.1.now + 1 ≤ length tokens.now) }
{
    let Some((first, rest)) = tokens.split_first() else {
        return Err(Stop::Syntax(0));
    };
    let Kind::Name(name) = first.kind else {
        return Err(Stop::Syntax(tokens.len()));
    };
    Ok((String::from_str(alloc, name)?, rest))
}

// The number that has to come next, and what follows it.
pub(crate) fn expect_number<'a, 'b>(tokens: &'b [Token<'a>]) -> Result<(u64, &'b [Token<'a>]), Stop>
    ensures cases { Numbers (λ x. x.0) (λ x. toks_of x.1.now) (toks_of tokens.now) result }
    ensures shorter { IfOk result (λ x. length x.1.now + 1 ≤ length tokens.now) }
{
    let Some((first, rest)) = tokens.split_first() else {
        return Err(Stop::Syntax(0));
    };
    let Kind::Number(number) = first.kind else {
        return Err(Stop::Syntax(tokens.len()));
    };
    Ok((number, rest))
}

// The name that has to come next, as the first inside of a pair that stands this deep, and what follows it.
pub(crate) fn expect_inner_name<'a, 'b>(
    alloc: Global,
    tokens: &'b [Token<'a>],
    depth: u32,
) -> Result<(String, &'b [Token<'a>]), Stop>
    ensures cases { NamesInside (λ x. string_bytes x.0) (λ x. toks_of x.1.now) depth
        (toks_of tokens.now) result }
    ensures shorter { IfOk result (λ x. length x.1.now + 1 ≤ length tokens.now) }
{
    let Some((first, rest)) = tokens.split_first() else {
        return Err(Stop::Syntax(0));
    };
    let Kind::Name(name) = first.kind else {
        return Err(Stop::Syntax(tokens.len()));
    };
    if depth >= MAX_DEPTH {
        return Err(Stop::Deep(tokens.len()));
    }
    Ok((String::from_str(alloc, name)?, rest))
}
