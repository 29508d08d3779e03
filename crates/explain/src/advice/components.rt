//! Advice on components that can't be composed.

use crate::advice::brackets::{between, piece_at};
use crate::advice::names::{Needed, advise_names, first_named, names_of};
use crate::advice::saying::Advice;
use crate::advice::types::{automaton_of, type_end};
use crate::outline::{Declared, Sort, Spot, find_own, name_at, spelling_at, word_at};
use ioa_tokens::{Kind, Token, Word};
use std::alloc::Global;
use terms::NoMemory;

/// An entry of a component: the entry, and the token of the component's name.
#[derive(Clone, Copy)]
struct Owned<'a> {
    entry: Declared<'a>,
    component: usize,
}

/// The advice on components that can't be composed.
pub(crate) fn advise_component(
    tokens: &[Token],
    declared: &[Declared],
    number: u8,
    at: usize,
    advice: &mut Advice,
) -> Result<(), NoMemory> {
    match number {
        20 => advise_automaton(tokens, declared, at, advice),
        25 => advice.say("a composition has at most 1024 components"),
        36 => advise_hidden(tokens, declared, at, advice),
        _ => advise_clash(tokens, declared, number, at, advice),
    }
}

// The component names an automaton that isn't declared.
fn advise_automaton(
    tokens: &[Token],
    declared: &[Declared],
    at: usize,
    advice: &mut Advice,
) -> Result<(), NoMemory> {
    let wanted = spelling_at(tokens, at.saturating_add(2));
    let names = names_of(advice.alloc, declared, Needed::Automaton, Spot::start(), at)?;
    advice.quote("component ", spelling_at(tokens, at), " is to be of ")?;
    advice.quote("", wanted, "; ")?;
    advise_names(
        wanted,
        names.as_slice(),
        "there is none",
        "there is ",
        advice,
    )
}

// A hidden name that is no output of a component.
fn advise_hidden(
    tokens: &[Token],
    declared: &[Declared],
    at: usize,
    advice: &mut Advice,
) -> Result<(), NoMemory> {
    let wanted = spelling_at(tokens, at);
    let names = outputs(advice.alloc, tokens, declared)?;
    advice.quote("", wanted, " is to be hidden, and of outputs ")?;
    advise_names(
        wanted,
        names.as_slice(),
        "there is none",
        "there is ",
        advice,
    )
}

// The names of the components' outputs, each once.
fn outputs<'a>(
    alloc: Global,
    tokens: &[Token],
    declared: &[Declared<'a>],
) -> Result<Vec<&'a str>, NoMemory> {
    let mut names: Vec<&str> = Vec::new(alloc);
    for known in declared {
        if known.sort == Sort::Output
            && is_used(tokens, declared, known.spot.automaton)
            && !names.contains(&known.name)
        {
            names.push(known.name)?;
        }
    }
    Ok(names)
}

// Whether a component is of this automaton.
fn is_used(tokens: &[Token], declared: &[Declared], automaton: usize) -> bool {
    for known in declared {
        if known.sort == Sort::Component && automaton_at(tokens, declared, known.at) == automaton {
            return true;
        }
    }
    false
}

// The number of the automaton of the component whose name stands at a token.
fn automaton_at(tokens: &[Token], declared: &[Declared], component: usize) -> usize {
    automaton_of(declared, spelling_at(tokens, component.saturating_add(2)))
}

// Two components, or two sets of one, have an action that they may not both have.
fn advise_clash(
    tokens: &[Token],
    declared: &[Declared],
    number: u8,
    at: usize,
    advice: &mut Advice,
) -> Result<(), NoMemory> {
    let name = spelling_at(tokens, at);
    let Some((action, earlier)) = clash_of(tokens, declared, number, at) else {
        return advice.quote("component ", name, "");
    };
    advice.quote("action ", action, "")?;
    if earlier == at {
        advice.quote(" is in two sets of component ", name, cure(number))
    } else {
        advice.quote(
            between_phrase(number),
            spelling_at(tokens, earlier),
            " and ",
        )?;
        advice.quote("", name, cure(number))
    }
}

fn between_phrase(number: u8) -> &'static str {
    match number {
        22 => ", which is internal to one of them, is one of components ",
        23 => " is an output of both components ",
        _ => " has other parameters in one of the components ",
    }
}

fn cure(number: u8) -> &'static str {
    match number {
        21 => "; its arguments must keep an input from an output or internal",
        22 | 23 => "; a `const` parameter that differs would keep them apart",
        _ => "; an action has the same types of parameters wherever it stands",
    }
}

// The first clash of the component at a token with itself or an earlier one: the action, and the token of the other's name.
fn clash_of<'a>(
    tokens: &[Token],
    declared: &[Declared<'a>],
    number: u8,
    at: usize,
) -> Option<(&'a str, usize)> {
    for other in declared {
        if other.sort == Sort::Component && can_clash(number, other.at, at) {
            if let Some(action) = clash_with(tokens, declared, number, at, other.at) {
                return Some((action, other.at));
            }
        }
    }
    None
}

// Whether this refusal may be of the components whose names stand at these tokens.
fn can_clash(number: u8, earlier: usize, at: usize) -> bool {
    match number {
        21 => earlier == at,
        24 => earlier <= at,
        _ => earlier < at,
    }
}

fn clash_with<'a>(
    tokens: &[Token],
    declared: &[Declared<'a>],
    number: u8,
    at: usize,
    earlier: usize,
) -> Option<&'a str> {
    let automaton = automaton_at(tokens, declared, at);
    for entry in declared {
        if entry.spot.automaton == automaton && is_entry(entry.sort) {
            let own = Owned {
                entry: *entry,
                component: at,
            };
            if clashes_with(tokens, declared, number, own, earlier) {
                return Some(entry.name);
            }
        }
    }
    None
}

fn is_entry(sort: Sort) -> bool {
    sort == Sort::Input || sort == Sort::Output || sort == Sort::Internal
}

// Whether an entry of the earlier component is in the way of this one.
fn clashes_with(
    tokens: &[Token],
    declared: &[Declared],
    number: u8,
    own: Owned,
    earlier: usize,
) -> bool {
    let automaton = automaton_at(tokens, declared, earlier);
    for entry in declared {
        if entry.spot.automaton == automaton
            && is_entry(entry.sort)
            && entry.name == own.entry.name
        {
            let other = Owned {
                entry: *entry,
                component: earlier,
            };
            if is_clash(tokens, declared, number, own, other) {
                return true;
            }
        }
    }
    false
}

fn is_clash(tokens: &[Token], declared: &[Declared], number: u8, own: Owned, other: Owned) -> bool {
    let first = own.entry.sort;
    let second = other.entry.sort;
    let is_barred = match number {
        21 => own.entry.at != other.entry.at,
        22 => first == Sort::Internal || second == Sort::Internal,
        23 => first == Sort::Output && second == Sort::Output,
        _ => return differ(tokens, declared, own, other, true),
    };
    is_barred && !differ(tokens, declared, own, other, false)
}

// Whether a parameter of one entry differs from that of the other in its type, or else in its constant.
fn differ(
    tokens: &[Token],
    declared: &[Declared],
    own: Owned,
    other: Owned,
    is_by_type: bool,
) -> bool {
    for place in 0..16 {
        let first = piece_at(tokens, own.entry.at.saturating_add(1), place);
        let second = piece_at(tokens, other.entry.at.saturating_add(1), place);
        let is_other = match (first, second) {
            (Some(a), Some(b)) if is_by_type => {
                !is_same_type(tokens, declared, own.entry, a, other.entry, b)
            }
            (Some(a), Some(b)) => are_apart(
                constant_of(tokens, declared, own, a),
                constant_of(tokens, declared, other, b),
            ),
            _ => is_by_type && first.is_some() != second.is_some(),
        };
        if is_other {
            return true;
        }
    }
    false
}

// Whether two constants are known, and differ.
fn are_apart(first: Option<Kind>, second: Option<Kind>) -> bool {
    match (first, second) {
        (Some(first), Some(second)) => first != second,
        _ => false,
    }
}

// The number or name that a component gives the formal of the parameter at a token, where it is all of an argument.
fn constant_of<'a>(
    tokens: &[Token<'a>],
    declared: &[Declared],
    own: Owned,
    parameter: usize,
) -> Option<Kind<'a>> {
    if word_at(tokens, parameter) != Some(Word::Const) {
        return None;
    }
    let formal = name_at(tokens, parameter.checked_add(1)?)?;
    let automaton = automaton_at(tokens, declared, own.component);
    let (found, place) = find_own(declared, Sort::Formal, automaton, formal, usize::MAX);
    found?;
    literal_at(
        tokens,
        piece_at(tokens, own.component.checked_add(3)?, place)?,
    )
}

// The number or name that is all of the argument at a token.
fn literal_at<'a>(tokens: &[Token<'a>], at: usize) -> Option<Kind<'a>> {
    match word_at(tokens, at.checked_add(1)?) {
        Some(Word::Comma | Word::Close) => {}
        _ => return None,
    }
    let kind = tokens.get(at)?.kind;
    match kind {
        Kind::Word(Word::True | Word::False) => Some(kind),
        Kind::Word(_) => None,
        _ => Some(kind),
    }
}

// Where the type of the parameter at a token of an entry begins.
fn type_token(
    tokens: &[Token],
    declared: &[Declared],
    entry: Declared,
    parameter: usize,
) -> Option<usize> {
    let name = if word_at(tokens, parameter) == Some(Word::Const) {
        let formal = name_at(tokens, parameter.checked_add(1)?)?;
        find_own(
            declared,
            Sort::Formal,
            entry.spot.automaton,
            formal,
            usize::MAX,
        )
        .0?
    } else {
        parameter
    };
    name.checked_add(2)
}

// Whether two parameters have scalar types that are written alike.
fn is_same_type(
    tokens: &[Token],
    declared: &[Declared],
    own: Declared,
    first: usize,
    other: Declared,
    second: usize,
) -> bool {
    match (
        type_token(tokens, declared, own, first),
        type_token(tokens, declared, other, second),
    ) {
        (Some(first), Some(second)) => are_alike(
            between(tokens, first, type_end(tokens, first)),
            between(tokens, second, type_end(tokens, second)),
        ),
        _ => true,
    }
}

fn are_alike(first: &[Token], second: &[Token]) -> bool {
    for place in 0..first.len().max(second.len()) {
        match (first.get(place), second.get(place)) {
            (Some(a), Some(b)) if a.kind == b.kind => {}
            _ => return false,
        }
    }
    true
}
