//! The names that the tokens of a source declare, and what stands round a token. The tokens are those of a source that was read.

use ioa_tokens::{Kind, Token, Word};
use std::alloc::Global;
use terms::NoMemory;

/// What a name is declared as.
#[derive(Clone, Copy, PartialEq, Eq)]
pub(crate) enum Sort {
    Type,
    Member,
    Automaton,
    /// The composed automaton.
    Composition,
    Formal,
    Parameter,
    Variable,
    Loop,
    Input,
    Output,
    Internal,
    Component,
    /// A hidden name.
    Hidden,
}

/// A name where it is declared.
#[derive(Clone, Copy)]
pub(crate) struct Declared<'a> {
    pub name: &'a str,
    pub sort: Sort,
    /// The number of its token.
    pub at: usize,
    pub spot: Spot,
}

/// The parts of a source.
#[derive(Clone, Copy, PartialEq, Eq)]
pub(crate) enum Part {
    Types,
    Members,
    Head,
    Signature,
    States,
    Transitions,
    Tasks,
    Components,
    Hidden,
}

/// Where a token stands: in which part, of which automaton and which entry or transition, both counted from 1.
#[derive(Clone, Copy)]
pub(crate) struct Spot {
    pub part: Part,
    pub automaton: usize,
    pub entry: usize,
}

impl Spot {
    pub(crate) fn start() -> Spot {
        Spot {
            part: Part::Types,
            automaton: 0,
            entry: 0,
        }
    }

    pub(crate) fn in_part(self, part: Part) -> Spot {
        Spot {
            part,
            automaton: self.automaton,
            entry: self.entry,
        }
    }

    fn after(self, word: Word) -> Spot {
        match word {
            Word::Type => self.in_part(Part::Types),
            Word::Enumeration => self.in_part(Part::Members),
            Word::Automaton => Spot {
                part: Part::Head,
                automaton: self.automaton.saturating_add(1),
                entry: self.entry,
            },
            Word::Input | Word::Output | Word::Internal => Spot {
                part: self.part,
                automaton: self.automaton,
                entry: self.entry.saturating_add(1),
            },
            Word::Signature => self.in_part(Part::Signature),
            Word::States => self.in_part(Part::States),
            Word::Transitions => self.in_part(Part::Transitions),
            Word::Tasks => self.in_part(Part::Tasks),
            Word::Components => self.in_part(Part::Components),
            Word::Hidden => self.in_part(Part::Hidden),
            _ => self,
        }
    }
}

/// The word or sign at a number.
pub(crate) fn word_at(tokens: &[Token], at: usize) -> Option<Word> {
    match tokens.get(at)?.kind {
        Kind::Word(word) => Some(word),
        _ => None,
    }
}

/// The word or sign before a number.
pub(crate) fn word_before(tokens: &[Token], at: usize) -> Option<Word> {
    word_at(tokens, at.checked_sub(1)?)
}

/// The word or sign after a number.
pub(crate) fn word_after(tokens: &[Token], at: usize) -> Option<Word> {
    word_at(tokens, at.checked_add(1)?)
}

/// The name at a number.
pub(crate) fn name_at<'a>(tokens: &[Token<'a>], at: usize) -> Option<&'a str> {
    match tokens.get(at)?.kind {
        Kind::Name(name) => Some(name),
        _ => None,
    }
}

/// The name at a number, or else nothing.
pub(crate) fn spelling_at<'a>(tokens: &[Token<'a>], at: usize) -> &'a str {
    match name_at(tokens, at) {
        Some(name) => name,
        None => "",
    }
}

/// Where a token stands.
pub(crate) fn spot_at(tokens: &[Token], at: usize) -> Spot {
    let mut spot = Spot::start();
    for (number, token) in tokens.iter().enumerate() {
        if number == at {
            return spot;
        }
        if let Kind::Word(word) = token.kind {
            spot = spot.after(word);
        }
    }
    spot
}

/// The names that are declared, in their order. Those of transitions aren't among them, except for their parameters.
pub(crate) fn outline<'a>(
    alloc: Global,
    tokens: &[Token<'a>],
) -> Result<Vec<Declared<'a>>, NoMemory> {
    let mut declared = Vec::new(alloc);
    let mut spot = Spot::start();
    for (at, token) in tokens.iter().enumerate() {
        match token.kind {
            Kind::Word(word) => spot = spot.after(word),
            Kind::Name(name) => {
                if let Some(sort) = sort_at(tokens, at, spot.part) {
                    declared.push(Declared {
                        name,
                        sort,
                        at,
                        spot,
                    })?;
                }
            }
            Kind::Number(_) => {}
        }
    }
    Ok(declared)
}

// What the name at a number is declared as, if it is.
fn sort_at(tokens: &[Token], at: usize, part: Part) -> Option<Sort> {
    let before = word_before(tokens, at);
    let after = word_after(tokens, at);
    match part {
        Part::Types if before == Some(Word::Type) => Some(Sort::Type),
        Part::Members => Some(Sort::Member),
        Part::Head if before == Some(Word::Automaton) => Some(automaton_sort(after)),
        Part::Signature if after != Some(Word::Colon) => entry_sort(before),
        Part::Hidden => Some(Sort::Hidden),
        _ if after == Some(Word::Colon) => typed_sort(part, before),
        _ => None,
    }
}

fn automaton_sort(after: Option<Word>) -> Sort {
    match after {
        Some(Word::Components) => Sort::Composition,
        _ => Sort::Automaton,
    }
}

// What a name before a colon is declared as.
fn typed_sort(part: Part, before: Option<Word>) -> Option<Sort> {
    match part {
        Part::Head => Some(Sort::Formal),
        Part::Signature => Some(Sort::Parameter),
        Part::States => Some(Sort::Variable),
        Part::Transitions if before == Some(Word::For) => Some(Sort::Loop),
        Part::Transitions => Some(Sort::Parameter),
        Part::Components => Some(Sort::Component),
        _ => None,
    }
}

/// What the name behind this word is declared as in a signature.
pub(crate) fn entry_sort(before: Option<Word>) -> Option<Sort> {
    match before {
        Some(Word::Input) => Some(Sort::Input),
        Some(Word::Output) => Some(Sort::Output),
        Some(Word::Internal) => Some(Sort::Internal),
        _ => None,
    }
}

/// The token of the first of an automaton's names of one sort that is spelled so or has this place among them, and how many of them
/// stand before it.
pub(crate) fn find_own(
    declared: &[Declared],
    sort: Sort,
    automaton: usize,
    name: &str,
    place: usize,
) -> (Option<usize>, usize) {
    let mut count: usize = 0;
    for known in declared {
        if known.sort == sort && known.spot.automaton == automaton {
            if count == place || known.name == name {
                return (Some(known.at), count);
            }
            count = count.saturating_add(1);
        }
    }
    (None, count)
}

/// The token that is marked where components can't be composed: the name of the component, or the hidden name. They are those of the
/// last automaton.
pub(crate) fn marked_token(
    declared: &[Declared],
    number: u8,
    place: Option<usize>,
) -> Option<usize> {
    let last = declared.last()?.spot.automaton;
    let sort = if number == 36 {
        Sort::Hidden
    } else {
        Sort::Component
    };
    find_own(declared, sort, last, "", place?).0
}
