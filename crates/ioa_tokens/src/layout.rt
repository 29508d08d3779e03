//! What stands between two tokens, and their text.
ghost use Rattle.std.specs.Prelude.{◌≡◌, ◌++◌, ◌∷◌, [], IfOk, OnOk, map};
ghost use Rattle.ioa_tokens.specs.Tokens.{Key, tok_of};
ghost use Rattle.ioa_tokens.specs.Layout.{begins_line, hugs_left, hugs_right, calls, is_tight, is_called, is_open, between, text_of, following, layout};

use crate::spelling::spelling;
use crate::token::Kind;
use crate::word::Word;
use itoa::Buffer;
use std::alloc::Global;
use terms::NoMemory;

// A line begins with the word.
fn begins_line(word: Word) -> bool
    ensures { result ≡ begins_line word }
{
    match word {
        Word::Type | Word::Automaton | Word::Signature | Word::Input | Word::Output => true,
        Word::Internal | Word::States | Word::Transitions | Word::Pre | Word::Eff => true,
        Word::Tasks | Word::Components | Word::Hidden => true,
        _ => false,
    }
}

// No space stands before the sign.
fn hugs_left(word: Word) -> bool
    ensures { result ≡ hugs_left word }
{
    match word {
        Word::Comma | Word::Semicolon | Word::Close | Word::CloseBracket => true,
        Word::Colon | Word::OpenBracket | Word::DotDot => true,
        _ => false,
    }
}

// No space stands after the token, whatever follows.
fn is_tight(token: Kind<'_>) -> bool
    ensures { result ≡ is_tight (tok_of token.entry) }
{
    match token {
        Kind::Word(Word::Open | Word::OpenBracket | Word::DotDot) => true,
        _ => false,
    }
}

// No space stands between the token and `(`.
fn is_called(token: Kind<'_>) -> bool
    ensures { result ≡ is_called (tok_of token.entry) }
{
    match token {
        Kind::Name(_) => true,
        Kind::Word(Word::Fill | Word::Head | Word::Tail | Word::Len | Word::Append) => true,
        _ => false,
    }
}

fn is_open(word: Word) -> bool
    ensures { result ≡ is_open word }
{
    match word {
        Word::Open => true,
        _ => false,
    }
}

// What stands between two tokens.
fn between(token: Kind<'_>, next: Kind<'_>) -> &'static str
    ensures { result.now ≡ between (tok_of token.entry) (tok_of next.entry) }
{
    match next {
        Kind::Word(word) if begins_line(word) => "\n",
        Kind::Word(word) if hugs_left(word) => "",
        Kind::Word(word) if is_called(token) && is_open(word) => "",
        _ if is_tight(token) => "",
        _ => " ",
    }
}

fn put(text: &mut Vec<u8>, piece: &str) -> Result<(), NoMemory>
    ensures { OnOk result (text.new.items ≡ text.old.items ++ piece.now) }
{
    Ok(text.extend_from_slice(piece.as_bytes())?)
}

// Writes a token's own text.
fn put_token(text: &mut Vec<u8>, token: Kind<'_>) -> Result<(), NoMemory>
    ensures { OnOk result (text.new.items ≡ text.old.items ++ text_of (tok_of token.entry)) }
{
    match token {
        Kind::Name(name) => put(text, name),
        Kind::Number(number) => put(text, Buffer::new().format(number)),
        Kind::Word(word) => put(text, spelling(word)),
    }
}

// Writes what stands between two tokens, and the second one.
fn put_next(text: &mut Vec<u8>, token: Kind<'_>, next: Kind<'_>) -> Result<(), NoMemory>
    ensures { OnOk result (text.new.items ≡ text.old.items
        ++ (between (tok_of token.entry) (tok_of next.entry) ++ text_of (tok_of next.entry))) }
{
    put(text, between(token, next))?;
    put_token(text, next)
}

// Writes the tokens that follow one that is written.
fn put_others(text: &mut Vec<u8>, first: Kind<'_>, others: &[Kind<'_>]) -> Result<(), NoMemory>
    ensures { OnOk result (text.new.items ++ 10 ∷ [] ≡ text.old.items
        ++ following (tok_of first.entry) (map tok_of others.now)) }
{
    let mut last = first;
    for next in others {
        put_next(text, last, *next)?;
        last = *next;
    }
    Ok(())
}

/// The text of the tokens: the first, each further one after what stands before it, and a line feed.
pub(crate) fn text_of_tokens(alloc: Global, tokens: &[Kind<'_>]) -> Result<Vec<u8>, NoMemory>
    ensures { IfOk result (λ bytes. bytes.items ≡ layout (map tok_of tokens.now)) }
{
    let mut text = Vec::new(alloc);
    if let Some((first, others)) = tokens.split_first() {
        put_token(&mut text, *first)?;
        put_others(&mut text, *first, others)?;
    }
    put(&mut text, "\n")?;
    Ok(text)
}
