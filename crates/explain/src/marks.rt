//! What is marked of a text.
ghost use Rattle.std.specs.Prelude.{◌≡◌, ◌≤◌, ◌==◌, IfSome, Some, None, length, option_map};
ghost use Rattle.std.specs.List.{prefix_len};
ghost use Rattle.ioa_tokens.specs.Bytes.{is_word_byte};
ghost use Rattle.ioa_tokens.specs.Tokens.{placed};
ghost use Rattle.explain.specs.Marks.{IsLineMark, is_pair, mark_at, token_place, width_of};

use excerpts::{Mark, column_at, line_at, line_of};
use ioa_tokens::Token;

fn is_word_byte(byte: u8) -> bool
    ensures { result ≡ is_word_byte byte }
{
    (b'a' <= byte && byte <= b'z')
        || (b'A' <= byte && byte <= b'Z')
        || (b'0' <= byte && byte <= b'9')
        || byte == b'_'
}

fn word_len(text: &[u8]) -> usize
    ensures { result ≡ prefix_len is_word_byte text.now }
{
    text.iter().take_while(|byte| is_word_byte(**byte)).count()
}

fn is_pair(first: u8, second: u8) -> bool
    ensures { result ≡ is_pair first second }
{
    (second == b'=' && (first == b':' || first == b'/' || first == b'<' || first == b'>'))
        || (first == b'.' && second == b'.')
}

// How many carets stand below what begins so.
fn width_of(text: &[u8]) -> usize
    ensures { result ≡ width_of text.now }
{
    if text.len() == 0 {
        return 1;
    }
    let first = text[0];
    if is_word_byte(first) {
        return word_len(text);
    }
    let second = if text.len() > 1 { text[1] } else { 0 };
    if is_pair(first, second) { 2 } else { 1 }
}

/// What begins at a place.
pub(crate) fn mark_at(text: &[u8], at: usize) -> Mark
    ensures { result ≡ mark_at text.now at }
{
    let (_, rest) = text.split_at(at.min(text.len()));
    Mark {
        at,
        width: width_of(rest),
    }
}

/// What begins at a place, where there is one.
pub(crate) fn mark_of(text: &[u8], at: Option<usize>) -> Option<Mark>
    ensures { result ≡ option_map (mark_at text.now) at }
{
    match at {
        Some(at) => Some(mark_at(text, at)),
        None => None,
    }
}

/// The place of a token.
pub(crate) fn token_place(tokens: &[Token], number: Option<usize>) -> Option<usize>
    ensures { result ≡ token_place (placed tokens.now) number }
{
    match number {
        Some(number) => match tokens.get(number) {
            Some(token) => Some(token.at),
            None => None,
        },
        None => None,
    }
}

// Where a line begins; the end of the text where there are fewer lines.
fn start_of_line(text: &[u8], line: usize) -> usize {
    let mut left = line;
    for (at, byte) in text.iter().enumerate() {
        if left <= 1 {
            return at;
        }
        if *byte == b'\n' {
            left -= 1;
        }
    }
    text.len()
}

/// A line of a text, if it has so many.
pub(crate) fn line_mark(text: &[u8], line: Option<usize>) -> Option<Mark>
    ensures { IsLineMark text.now line result }
{
    let wanted = line?;
    let at = start_of_line(text, wanted).min(text.len());
    if line_at(text, at) == wanted && column_at(text, at) == 1 {
        Some(Mark {
            at,
            width: line_of(text, at).len().max(1),
        })
    } else {
        None
    }
}
