//! Tokens between brackets.

use crate::outline::word_at;
use ioa_tokens::{Token, Word};

fn opens(word: Option<Word>) -> bool {
    match word {
        Some(Word::Open | Word::OpenBracket) => true,
        _ => false,
    }
}

fn closes(word: Option<Word>) -> bool {
    match word {
        Some(Word::Close | Word::CloseBracket) => true,
        _ => false,
    }
}

fn depth_behind(depth: usize, is_deeper: bool, is_higher: bool) -> usize {
    if is_deeper {
        depth.saturating_add(1)
    } else if is_higher {
        depth.saturating_sub(1)
    } else {
        depth
    }
}

/// The number of the token behind the bracket that opens at one, or behind that comma of it which has this place, counted from 1; and
/// how many commas of it stand before.
pub(crate) fn walk_on(tokens: &[Token], open: usize, place: usize) -> (usize, usize) {
    let mut depth: usize = 0;
    let mut commas: usize = 0;
    for number in open..tokens.len() {
        let word = word_at(tokens, number);
        depth = depth_behind(depth, opens(word), closes(word));
        if depth == 1 && word == Some(Word::Comma) {
            commas = commas.saturating_add(1);
        }
        if depth == 0 || commas == place {
            return (number.saturating_add(1), commas);
        }
    }
    (tokens.len(), commas)
}

/// The bracket that is open before a token, if one is, and how many commas stand between them.
pub(crate) fn open_before(tokens: &[Token], at: usize) -> (Option<usize>, usize) {
    let mut depth: usize = 1;
    let mut commas: usize = 0;
    for back in 1..at {
        let number = at.saturating_sub(back);
        let word = word_at(tokens, number);
        depth = depth_behind(depth, closes(word), opens(word));
        if depth == 0 {
            return (Some(number), commas);
        }
        if depth == 1 && word == Some(Word::Comma) {
            commas = commas.saturating_add(1);
        }
    }
    (None, commas)
}

/// The first token of what stands at place k between the commas of a bracket.
pub(crate) fn piece_at(tokens: &[Token], open: usize, place: usize) -> Option<usize> {
    if !opens(word_at(tokens, open)) {
        return None;
    }
    let (first, commas) = walk_on(tokens, open, place);
    if commas == place { Some(first) } else { None }
}

/// The tokens from one up to another.
pub(crate) fn between<'t, 'a>(tokens: &'t [Token<'a>], from: usize, end: usize) -> &'t [Token<'a>] {
    let (front, _) = tokens.split_at(end.min(tokens.len()));
    let (_, piece) = front.split_at(from.min(front.len()));
    piece
}

/// The number of the token behind the head of an entry or transition that begins at one.
pub(crate) fn head_end(tokens: &[Token], at: usize) -> usize {
    let open = at.saturating_add(2);
    if word_at(tokens, open) == Some(Word::Open) {
        walk_on(tokens, open, usize::MAX).0
    } else {
        open
    }
}
