//! The text of an advice.

use crate::advice::near::nearest;
use excerpts::{column_at, line_at};
use ioa_tokens::{Kind, Page, Token};
use itoa::Buffer;
use std::alloc::Global;
use terms::NoMemory;

/// The text of an advice, as it grows.
#[derive(Drop)]
pub(crate) struct Advice {
    text: Vec<u8>,
    pub alloc: Global,
}

impl Advice {
    pub(crate) fn new(alloc: Global) -> Advice {
        Advice {
            text: Vec::new(alloc),
            alloc,
        }
    }

    pub(crate) fn as_bytes(&self) -> &[u8] {
        self.text.as_slice()
    }

    pub(crate) fn say(&mut self, text: &str) -> Result<(), NoMemory> {
        self.add(text.as_bytes())
    }

    fn add(&mut self, bytes: &[u8]) -> Result<(), NoMemory> {
        Ok(self.text.extend_from_slice(bytes)?)
    }

    fn add_quoted(&mut self, before: &str, bytes: &[u8], behind: &str) -> Result<(), NoMemory> {
        self.say(before)?;
        self.say("`")?;
        self.add(bytes)?;
        self.say("`")?;
        self.say(behind)
    }

    /// A name or word between backquotes, and what stands before and behind it.
    pub(crate) fn quote(&mut self, before: &str, name: &str, behind: &str) -> Result<(), NoMemory> {
        self.add_quoted(before, name.as_bytes(), behind)
    }

    /// A number, and what stands before and behind it.
    pub(crate) fn count(
        &mut self,
        before: &str,
        number: usize,
        behind: &str,
    ) -> Result<(), NoMemory> {
        self.say(before)?;
        self.say(Buffer::new().format(number as u64))?;
        self.say(behind)
    }

    /// The line and column of a token.
    pub(crate) fn address(
        &mut self,
        source: &[u8],
        tokens: &[Token],
        at: usize,
    ) -> Result<(), NoMemory> {
        let Some(token) = tokens.get(at) else {
            return Ok(());
        };
        let place = token.at.min(source.len());
        self.count("", line_at(source, place), ":")?;
        self.count("", column_at(source, place), "")
    }

    /// Tokens between backquotes, in the layout of sources.
    pub(crate) fn quote_tokens(&mut self, tokens: &[Token]) -> Result<(), NoMemory> {
        let mut text = layout_of(self.alloc, tokens)?;
        let _line_feed = text.pop();
        self.add_quoted("", text.as_slice(), "")
    }

    /// Names with commas between them, the last one behind `and` or `or`.
    pub(crate) fn list(&mut self, names: &[&str], last: &str) -> Result<(), NoMemory> {
        for (place, name) in names.iter().enumerate() {
            self.quote(separator(place, names.len(), last), *name, "")?;
        }
        Ok(())
    }

    /// Those of the names that are nearest to one, and how many more there are where `is_counted`.
    pub(crate) fn list_nearest(
        &mut self,
        wanted: &str,
        names: &[&str],
        is_counted: bool,
    ) -> Result<(), NoMemory> {
        let near = nearest(self.alloc, wanted, names)?;
        let more = names.len().saturating_sub(near.len());
        self.list(near.as_slice(), " and ")?;
        if is_counted && more > 0 {
            return self.count(", and ", more, " more");
        }
        Ok(())
    }
}

// What stands before the name at a place of so many.
fn separator(place: usize, count: usize, last: &str) -> &str {
    if place == 0 {
        ""
    } else if place.saturating_add(1) == count {
        last
    } else {
        ", "
    }
}

fn layout_of(alloc: Global, tokens: &[Token]) -> Result<Vec<u8>, NoMemory> {
    let mut page = Page::new(alloc);
    for token in tokens {
        put(&mut page, token.kind)?;
    }
    page.into_bytes()
}

fn put<'a>(page: &mut Page<'a>, kind: Kind<'a>) -> Result<(), NoMemory> {
    match kind {
        Kind::Name(name) => page.put_name(name),
        Kind::Number(number) => page.put_number(number),
        Kind::Word(word) => page.put_word(word),
    }
}
