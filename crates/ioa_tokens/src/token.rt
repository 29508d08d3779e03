//! Tokens.

use crate::word::Word;

/// What a token is. The text of a name is a part of the source.
#[derive(Clone, Copy, Debug, PartialEq, Eq)]
pub enum Kind<'a> {
    Name(&'a str),
    /// At most 9223372036854775807.
    Number(u64),
    Word(Word),
}

/// A token and the place of its first byte in the source, counted from 0.
#[derive(Clone, Copy, PartialEq, Eq)]
pub struct Token<'a> {
    pub kind: Kind<'a>,
    pub at: usize,
}
