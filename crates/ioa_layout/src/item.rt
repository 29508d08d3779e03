//! What a source has besides white space.

use ioa_tokens::{Kind, Word};

/// What is to be seen of a source.
#[derive(Clone, Copy)]
pub(crate) enum Ink<'a> {
    Token(Kind<'a>),
    Comment,
}

/// How far below its neighbour something stands.
#[derive(Clone, Copy, PartialEq, Eq)]
pub(crate) enum Below {
    SameLine,
    /// Where a comment or the begin of the text ends its line.
    LineEnds,
    NextLine,
    /// There are blank lines between.
    Further,
}

/// A token or a comment, with its bytes.
#[derive(Clone, Copy)]
pub(crate) struct Item<'a> {
    pub ink: Ink<'a>,
    pub text: &'a [u8],
    pub below: Below,
}

impl<'a> Item<'a> {
    /// The reserved word or sign that the item is.
    pub(crate) fn word(&self) -> Option<Word> {
        match self.ink {
            Ink::Token(Kind::Word(word)) => Some(word),
            _ => None,
        }
    }

    pub(crate) fn is_comment(&self) -> bool {
        match self.ink {
            Ink::Comment => true,
            Ink::Token(_) => false,
        }
    }
}

/// The reserved word or sign at a place; nothing where another item stands there, or none.
pub(crate) fn word_at(items: &[Item<'_>], at: usize) -> Option<Word> {
    items.get(at)?.word()
}
