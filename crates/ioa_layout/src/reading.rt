//! From bytes and their tokens to items.
ghost use Rattle.std.specs.Prelude.{◌≡◌, ◌≤◌, ◌<◌, ◌==◌, ◌||◌, ◌++◌, ◌∷◌, IfOk, OnOk, List, drop, length, take};
ghost use Rattle.std.specs.List.{prefix_len};
ghost use Rattle.ioa_tokens.specs.Bytes.{is_blank, is_in_line};
ghost use Rattle.ioa_tokens.specs.Tokens.{placed};
ghost use Rattle.ioa_tokens.specs.Cutting.{IsTokens, Part};
ghost use Rattle.ioa_layout.specs.Ink.{is_in_token, part_of, parts_of, tidy_comment};
ghost use Rattle.ioa_layout.specs.Lines.{flags_by, flags_of, is_below};
ghost use Rattle.ioa_layout.specs.Fronts.{AreOf, EndsLines, IsFront, IsRest, most_len, shown_by, token_len};

use crate::item::{Below, Ink, Item};
use ioa_tokens::Token;
use std::alloc::Global;
use terms::NoMemory;

fn is_blank(byte: u8) -> bool
    ensures { result ≡ is_blank byte }
{
    byte == b' ' || byte == b'\t' || byte == b'\n' || byte == b'\r'
}

fn is_in_token(byte: u8) -> bool
    ensures { result ≡ is_in_token byte }
{
    !is_blank(byte) && byte != b'%'
}

fn line_len(bytes: &[u8]) -> usize
    ensures value { result ≡ prefix_len is_in_line bytes.now }
    ensures within { result ≤ length bytes.now }
{
    bytes.iter().take_while(|byte| **byte != b'\n').count()
}

fn word_len(bytes: &[u8]) -> usize
    ensures value { result ≡ prefix_len is_in_token bytes.now }
    ensures within { result ≤ length bytes.now }
{
    bytes.iter().take_while(|byte| is_in_token(**byte)).count()
}

// Where something stands behind a blank.
fn below_after(blank: u8, below: Below) -> Below
    ensures { is_below result ≡ (is_below below || blank == 10) }
{
    if blank != b'\n' {
        return below;
    }
    match below {
        Below::SameLine => Below::NextLine,
        Below::LineEnds => Below::NextLine,
        Below::NextLine => Below::Further,
        Below::Further => Below::Further,
    }
}

// The comment at the front.
fn comment<'a>(bytes: &'a [u8], below: Below) -> Item<'a>
    ensures part { part_of result
        ≡ tidy_comment (take (prefix_len is_in_line bytes.now) bytes.now) }
    ensures below { result.below ≡ below }
{
    let (line, _) = bytes.split_at(line_len(bytes));
    Item {
        ink: Ink::Comment,
        text: line.trim_ascii_end(),
        below,
    }
}

// How far the next token is, or the end.
fn most_len(others: &[Token<'_>], at: usize, len: usize) -> usize
    ensures { result ≡ most_len (placed others.now) at len }
{
    match others.first() {
        Some(next) => next.at.saturating_sub(at),
        None => len,
    }
}

// The length of the token at the front, which stands at a place: up to a blank, a comment or the next token.
fn token_len(bytes: &[u8], others: &[Token<'_>], at: usize) -> usize
    ensures value { result ≡ token_len bytes.now (placed others.now) at }
    ensures within { result ≤ length bytes.now }
{
    word_len(bytes).min(most_len(others, at, bytes.len()))
}

// What begins the bytes at a place, where the tokens are left: an item, or a blank; its length; how many tokens it is;
// and where what follows stands.
fn found_at<'a>(
    bytes: &'a [u8],
    left: &[Token<'a>],
    at: usize,
    below: Below,
) -> (Option<Item<'a>>, usize, usize, Below)
    requires { 0 < length bytes.now }
    ensures found { (p : Part) (ps : List Part) → IsRest bytes.now at (placed left.now) (p ∷ ps)
        → IsFront at p ps (shown_by result.0) result.1 (placed (drop result.2 left.now)) }
    ensures lines { (p : Part) (ps : List Part) → IsRest bytes.now at (placed left.now) (p ∷ ps)
        → EndsLines p (is_below below) (flags_by result.0) (is_below result.3) }
    ensures within { result.2 ≤ length left.now }
{
    let first = bytes[0];
    if is_blank(first) {
        return (None, 1, 0, below_after(first, below));
    }
    if first == b'%' {
        let line = comment(bytes, below);
        return (Some(line), line_len(bytes), 0, Below::LineEnds);
    }
    let Some((token, others)) = left.split_first() else {
        return (None, 1, 0, below);
    };
    let len = token_len(bytes, others, at);
    let (text, _) = bytes.split_at(len);
    let item = Item {
        ink: Ink::Token(token.kind),
        text,
        below,
    };
    (Some(item), len, 1, Below::SameLine)
}

// Keeps the item, if there is one.
fn keep<'a>(items: &mut Vec<Item<'a>>, item: Option<Item<'a>>) -> Result<(), NoMemory>
    ensures shown { OnOk result (parts_of items.new.items
        ≡ parts_of items.old.items ++ shown_by item.entry) }
    ensures lines { OnOk result (flags_of items.new.items
        ≡ flags_of items.old.items ++ flags_by item.entry) }
{
    if let Some(item) = item {
        items.push(item)?;
    }
    Ok(())
}

/// The tokens and the comments of a source, these without white space at their ends.
pub(crate) fn items<'a>(
    alloc: Global,
    source: &'a [u8],
    tokens: &[Token<'a>],
) -> Result<Vec<Item<'a>>, NoMemory>
    requires { IsTokens source.now (placed tokens.now) }
    ensures { IfOk result (λ items. AreOf source.now (parts_of items.items) (flags_of items.items)) }
{
    let mut items = Vec::new(alloc);
    let mut below = Below::LineEnds;
    let mut at = 0;
    let mut read = 0;
    while at < source.len() {
        let (_, rest) = source.split_at(at);
        let (_, left) = tokens.split_at(read);
        let (item, len, count, next) = found_at(rest, left, at, below);
        keep(&mut items, item)?;
        below = next;
        read += count;
        at += len;
    }
    Ok(items)
}
