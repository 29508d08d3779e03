//! Advice on names that mean nothing, and on names that stand twice.

use crate::advice::brackets::open_before;
use crate::advice::saying::Advice;
use crate::outline::{
    Declared, Part, Sort, Spot, entry_sort, find_own, spelling_at, spot_at, word_at, word_before,
};
use ioa_tokens::{Token, Word};
use std::alloc::Global;
use terms::NoMemory;

/// What is needed where a name stands.
#[derive(Clone, Copy)]
pub(crate) enum Needed {
    Type,
    Formal,
    Variable,
    /// A value of a term.
    Value,
    /// A value of a start value.
    Start,
    /// A value of a component's argument.
    Argument,
    /// An entry of this sort.
    Entry(Sort),
    /// An output or internal.
    Local,
    Automaton,
    /// A name that has a type and stands before.
    Typed,
    /// A name that stands before and can be seen.
    Seen,
}

/// The advice on a name that isn't known: the names that could stand there, the nearest first.
pub(crate) fn advise_unknown(
    tokens: &[Token],
    declared: &[Declared],
    at: usize,
    advice: &mut Advice,
) -> Result<(), NoMemory> {
    let spot = spot_at(tokens, at);
    let needed = needed_at(tokens, at, spot);
    advice.say(phrase(needed))?;
    advice.say(" is needed")?;
    let names = names_of(advice.alloc, declared, needed, spot, at)?;
    let wanted = spelling_at(tokens, at);
    advise_names(
        wanted,
        names.as_slice(),
        ", and there is none",
        "; there is ",
        advice,
    )
}

/// The names that are nearest to one, or that there is none.
pub(crate) fn advise_names(
    wanted: &str,
    names: &[&str],
    none: &str,
    some: &str,
    advice: &mut Advice,
) -> Result<(), NoMemory> {
    if names.is_empty() {
        return advice.say(none);
    }
    advice.say(some)?;
    advice.list_nearest(wanted, names, true)
}

/// The names that can stand at a token where this is needed.
pub(crate) fn names_of<'a>(
    alloc: Global,
    declared: &[Declared<'a>],
    needed: Needed,
    spot: Spot,
    at: usize,
) -> Result<Vec<&'a str>, NoMemory> {
    let mut names = Vec::new(alloc);
    for known in declared {
        if known.at != at && can_stand(known, needed, spot, at) {
            names.push(known.name)?;
        }
    }
    Ok(names)
}

/// The first of this name that can stand at a token where this is needed.
pub(crate) fn first_named<'a>(
    declared: &[Declared<'a>],
    needed: Needed,
    spot: Spot,
    at: usize,
    name: &str,
) -> Option<Declared<'a>> {
    for known in declared {
        if known.name == name && can_stand(known, needed, spot, at) {
            return Some(*known);
        }
    }
    None
}

/// The last one that can stand at a token where this is needed.
pub(crate) fn last_needed<'a>(
    declared: &[Declared<'a>],
    needed: Needed,
    at: usize,
) -> Option<Declared<'a>> {
    let mut last = None;
    for known in declared {
        if can_stand(known, needed, known.spot, at) {
            last = Some(*known);
        }
    }
    last
}

fn phrase(needed: Needed) -> &'static str {
    match needed {
        Needed::Type => "a type",
        Needed::Formal => "a formal",
        Needed::Variable => "a state variable",
        Needed::Entry(Sort::Input) => "an input of the signature",
        Needed::Entry(Sort::Output) => "an output of the signature",
        Needed::Entry(_) => "an internal of the signature",
        _ => "a value",
    }
}

// What is needed at a token.
fn needed_at(tokens: &[Token], at: usize, spot: Spot) -> Needed {
    let before = word_before(tokens, at);
    if before == Some(Word::Const) {
        return Needed::Formal;
    }
    if is_type_place(tokens, at, spot.part) {
        return Needed::Type;
    }
    match spot.part {
        Part::States => Needed::Start,
        Part::Components => Needed::Argument,
        Part::Transitions => match entry_sort(before) {
            Some(sort) => Needed::Entry(sort),
            None if begins_statement(before) => Needed::Variable,
            None => Needed::Value,
        },
        _ => Needed::Value,
    }
}

/// Whether a statement begins behind this word.
pub(crate) fn begins_statement(before: Option<Word>) -> bool {
    match before {
        Some(Word::Eff | Word::Semicolon | Word::Then | Word::Else | Word::Do) => true,
        _ => false,
    }
}

/// Whether a type stands at a token.
pub(crate) fn is_type_place(tokens: &[Token], at: usize, part: Part) -> bool {
    if part == Part::Components {
        return false;
    }
    match word_before(tokens, at) {
        Some(Word::Colon) => true,
        Some(Word::Equal) => part == Part::Types,
        Some(Word::OpenBracket) => has_types(word_before(tokens, at.saturating_sub(1))),
        Some(Word::Comma) => is_second_type(tokens, at.saturating_sub(1)),
        _ => false,
    }
}

// Whether a type stands in the bracket behind this word.
fn has_types(word: Option<Word>) -> bool {
    match word {
        Some(Word::Seq | Word::Array) => true,
        _ => false,
    }
}

// Whether the comma at a token stands in the brackets of an array's type.
fn is_second_type(tokens: &[Token], comma: usize) -> bool {
    match open_before(tokens, comma).0 {
        Some(open) => {
            word_at(tokens, open) == Some(Word::OpenBracket)
                && word_before(tokens, open) == Some(Word::Array)
        }
        None => false,
    }
}

// Whether a name can stand at a token where this is needed.
fn can_stand(known: &Declared, needed: Needed, spot: Spot, at: usize) -> bool {
    match needed {
        Needed::Type => known.sort == Sort::Type && known.at < at,
        Needed::Formal => known.sort == Sort::Formal && is_near(known, spot),
        Needed::Variable => known.sort == Sort::Variable && is_near(known, spot),
        Needed::Argument => known.sort == Sort::Member,
        Needed::Start => {
            known.sort == Sort::Member || (known.sort == Sort::Formal && is_near(known, spot))
        }
        Needed::Value => is_value(known, spot, at),
        Needed::Entry(sort) => known.sort == sort && is_near(known, spot),
        Needed::Local => is_local(known.sort) && is_near(known, spot),
        Needed::Automaton => known.sort == Sort::Automaton,
        Needed::Typed => is_typed(known.sort) && known.at < at,
        Needed::Seen => is_seen(known, spot) && known.at < at,
    }
}

fn is_local(sort: Sort) -> bool {
    sort == Sort::Output || sort == Sort::Internal
}

fn is_typed(sort: Sort) -> bool {
    match sort {
        Sort::Formal | Sort::Parameter | Sort::Variable | Sort::Loop | Sort::Component => true,
        _ => false,
    }
}

fn is_near(known: &Declared, spot: Spot) -> bool {
    known.spot.automaton == spot.automaton
}

// Whether a name is a value in a transition.
fn is_value(known: &Declared, spot: Spot, at: usize) -> bool {
    match known.sort {
        Sort::Member => true,
        Sort::Formal | Sort::Variable => is_near(known, spot),
        Sort::Parameter => known.spot.entry == spot.entry,
        Sort::Loop => known.spot.entry == spot.entry && known.at < at,
        _ => false,
    }
}

/// The advice on a name that stands twice: where it stood before.
pub(crate) fn advise_double(
    source: &[u8],
    tokens: &[Token],
    declared: &[Declared],
    at: usize,
    advice: &mut Advice,
) -> Result<(), NoMemory> {
    let name = spelling_at(tokens, at);
    let Some(first) = first_stand(declared, spot_at(tokens, at), at, name) else {
        return advice.say("give it another name");
    };
    advice.quote("", name, " stands first at ")?;
    advice.address(source, tokens, first)?;
    advice.say("; give one of them another name")
}

// Where a name stood before: declared where it can be seen from here, or hidden.
fn first_stand(declared: &[Declared], spot: Spot, at: usize, name: &str) -> Option<usize> {
    if spot.part == Part::Hidden {
        return match find_own(declared, Sort::Hidden, spot.automaton, name, usize::MAX).0 {
            Some(first) if first < at => Some(first),
            _ => None,
        };
    }
    match first_named(declared, Needed::Seen, spot, at, name) {
        Some(first) => Some(first.at),
        None => None,
    }
}

// Whether a declared name is visible from a spot.
fn is_seen(known: &Declared, spot: Spot) -> bool {
    match known.sort {
        Sort::Type | Sort::Member | Sort::Automaton | Sort::Composition => true,
        Sort::Parameter | Sort::Loop => known.spot.entry == spot.entry,
        _ => is_near(known, spot),
    }
}
