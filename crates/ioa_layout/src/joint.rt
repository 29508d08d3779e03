//! How two neighbours hold together.
ghost use Rattle.std.specs.Prelude.{◌≡◌};
ghost use Rattle.ioa_tokens.specs.Layout.{begins_line};
ghost use Rattle.ioa_layout.specs.Gaps.{level};

use crate::item::{Ink, Item, word_at};
use ioa_tokens::{Kind, Word};

/// How two neighbours hold together, from the loosest on.
#[derive(Clone, Copy, PartialEq, Eq, PartialOrd, Ord)]
pub(crate) enum Joint {
    /// A section, a declaration or a clause of a transition begins.
    Section,
    /// A branch ends, or the body of a loop.
    Branch,
    /// One of the two is a comment.
    Comment,
    /// A statement begins, or one item of a list of them.
    Statement,
    /// `or` follows.
    Alternative,
    /// The next part of a list or of a conjunction begins.
    Part,
    Space,
    /// A blank at which no line is broken, unless nothing else helps.
    Bound,
    /// Nothing stands between the two.
    Touch,
}

/// A line begins with the word.
pub(crate) fn begins_line(word: Word) -> bool
    ensures { result ≡ begins_line word }
{
    match word {
        Word::Type | Word::Automaton | Word::Signature | Word::Input | Word::Output => true,
        Word::Internal | Word::States | Word::Transitions | Word::Pre | Word::Eff => true,
        Word::Tasks | Word::Components | Word::Hidden => true,
        _ => false,
    }
}

/// How deep a section, a declaration or a clause stands.
pub(crate) fn level(word: Word) -> usize
    ensures { result ≡ level word }
{
    match word {
        Word::Type | Word::Automaton => 0,
        Word::Input | Word::Output | Word::Internal => 2,
        Word::Pre | Word::Eff => 3,
        _ => 1,
    }
}

/// The word ends a branch or the body of a loop.
pub(crate) fn ends_branch(word: Word) -> bool {
    match word {
        Word::Elseif | Word::Else | Word::Fi | Word::Od => true,
        _ => false,
    }
}

// No blank stands before the sign.
fn hugs_left(word: Word) -> bool {
    match word {
        Word::Comma | Word::Semicolon | Word::Close | Word::CloseBracket => true,
        Word::Colon | Word::OpenBracket | Word::DotDot => true,
        _ => false,
    }
}

// No blank stands behind the sign.
fn hugs_right(word: Word) -> bool {
    match word {
        Word::Open | Word::OpenBracket | Word::DotDot => true,
        _ => false,
    }
}

// A term may end there, so that `-` behind it takes the one from the other.
fn ends_term(ink: Ink<'_>) -> bool {
    match ink {
        Ink::Comment => false,
        Ink::Token(Kind::Name(_) | Kind::Number(_)) => true,
        Ink::Token(Kind::Word(Word::Close | Word::CloseBracket)) => true,
        Ink::Token(Kind::Word(Word::True | Word::False | Word::Empty)) => true,
        Ink::Token(Kind::Word(_)) => false,
    }
}

// No blank stands between the two before `(`.
fn is_called(ink: Ink<'_>) -> bool {
    match ink {
        Ink::Token(Kind::Name(_)) => true,
        Ink::Token(Kind::Word(Word::Fill | Word::Head | Word::Tail)) => true,
        Ink::Token(Kind::Word(Word::Len | Word::Append)) => true,
        _ => false,
    }
}

// At the place stands a `-` that negates what follows it.
fn is_prefix(items: &[Item<'_>], at: usize) -> bool {
    if word_at(items, at) != Some(Word::Minus) {
        return false;
    }
    let Some(before) = at.checked_sub(1) else {
        return true;
    };
    match items.get(before) {
        Some(item) => !ends_term(item.ink),
        None => true,
    }
}

// Nothing stands between the item at a place and the one before it.
fn touch(items: &[Item<'_>], at: usize) -> bool {
    let before = at.saturating_sub(1);
    let Some(first) = items.get(before) else {
        return false;
    };
    match word_at(items, at) {
        Some(word) if hugs_left(word) => return true,
        Some(Word::Open) if is_called(first.ink) => return true,
        _ => {}
    }
    match first.word() {
        Some(word) => hugs_right(word) || is_prefix(items, before),
        None => false,
    }
}

// What follows the word stands in its line.
fn holds_next(word: Word) -> bool {
    match word {
        Word::Plus | Word::Minus | Word::Times | Word::Mod | Word::Not | Word::And => true,
        Word::Or | Word::Equal | Word::NotEqual | Word::Less | Word::AtMost => true,
        Word::Greater | Word::AtLeast | Word::Colon | Word::Const | Word::If => true,
        Word::Elseif | Word::For | Word::OpenBrace => true,
        _ => begins_line(word),
    }
}

/// How the item at a place holds together with the one before it.
pub(crate) fn joint_at(items: &[Item<'_>], at: usize) -> Joint {
    let before = at.saturating_sub(1);
    let word = word_at(items, at);
    if word.is_some_and(begins_line) {
        return Joint::Section;
    }
    if word.is_some_and(ends_branch) {
        return Joint::Branch;
    }
    if is_comment_at(items, before) || is_comment_at(items, at) {
        return Joint::Comment;
    }
    if touch(items, at) {
        return Joint::Touch;
    }
    match (word_at(items, before), word) {
        (Some(Word::Then | Word::Else | Word::Do | Word::Semicolon), _) => Joint::Statement,
        (Some(Word::States | Word::Components), _) => Joint::Statement,
        (Some(Word::CloseBrace), Some(Word::OpenBrace)) => Joint::Statement,
        (Some(Word::Comma), _) => Joint::Part,
        (_, Some(Word::Or)) => Joint::Alternative,
        (_, Some(Word::And)) => Joint::Part,
        (_, Some(Word::Then | Word::Do | Word::Assign | Word::OpenBrace)) => Joint::Bound,
        (Some(word), _) if holds_next(word) => Joint::Bound,
        _ => Joint::Space,
    }
}

fn is_comment_at(items: &[Item<'_>], at: usize) -> bool {
    match items.get(at) {
        Some(item) => item.is_comment(),
        None => false,
    }
}
