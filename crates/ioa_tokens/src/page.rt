//! The layout of tokens as text.
ghost use Rattle.std.specs.Prelude.{◌≡◌, ◌++◌, ◌∷◌, [], IfOk, OnOk, is_ok, map, if◌then◌else◌};
ghost use Rattle.ioa_tokens.specs.Tokens.{Name, Num, Key, tok_of};
ghost use Rattle.ioa_tokens.specs.Layout.{layout};

use crate::layout::text_of_tokens;
use crate::token::Kind;
use crate::word::Word;
use std::alloc::Global;
use std::marker::Model;
use terms::NoMemory;

/// Tokens that are to be laid out as text, in their order. Names are borrowed from where they are kept.
#[derive(Drop)]
pub struct Page<'a> {
    written: Vec<Kind<'a>>,
    alloc: Global,
}

impl<'a> Model for Page<'a> {
    ghost use Rattle.std.specs.Prelude.{List, map};
    ghost use Rattle.ioa_tokens.specs.Tokens.{Tok, tok_of};

    ghost Value = { List Tok };

    ghost view = { λ a. map tok_of a.written.items };
}

impl<'a> Page<'a> {
    /// A page without tokens.
    pub fn new(alloc: Global) -> Page<'a>
        ensures { result ≡ [] }
    {
        Page {
            written: Vec::new(alloc),
            alloc,
        }
    }

    /// Writes a reserved word or a sign. A refusal leaves the page as it was.
    pub fn put_word(&mut self, word: Word) -> Result<(), NoMemory>
        ensures { self.new ≡ (if is_ok result then self.old ++ Key word ∷ [] else self.old) }
    {
        Ok(self.written.push(Kind::Word(word))?)
    }

    /// Writes a name. A refusal leaves the page as it was.
    pub fn put_name(&mut self, name: &'a str) -> Result<(), NoMemory>
        ensures { self.new ≡ (if is_ok result then self.old ++ Name name.now ∷ [] else self.old) }
    {
        Ok(self.written.push(Kind::Name(name))?)
    }

    /// Writes a number, without leading zeros. A refusal leaves the page as it was.
    pub fn put_number(&mut self, number: u64) -> Result<(), NoMemory>
        ensures { self.new ≡ (if is_ok result then self.old ++ Num number ∷ [] else self.old) }
    {
        Ok(self.written.push(Kind::Number(number))?)
    }

    /// The text of the tokens. Of none it is a line feed.
    pub fn into_bytes(self) -> Result<Vec<u8>, NoMemory>
        ensures { IfOk result (λ bytes. bytes.items ≡ layout self.entry) }
    {
        text_of_tokens(self.alloc, self.written.as_slice())
    }
}
