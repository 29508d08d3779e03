//! Advice on entries, transitions, tasks and limits.

use crate::advice::brackets::{between, head_end};
use crate::advice::names::{Needed, names_of};
use crate::advice::saying::Advice;
use crate::outline::{Declared, Part, Spot, name_at, spelling_at, spot_at, word_at, word_before};
use ioa_tokens::{Token, Word};
use terms::NoMemory;

/// The advice on an entry without a transition, a second transition, and an input with a precondition.
pub(crate) fn advise_entry(
    source: &[u8],
    tokens: &[Token],
    number: u8,
    at: usize,
    advice: &mut Advice,
) -> Result<(), NoMemory> {
    match number {
        13 => {
            advice.say("a transition is needed that begins with ")?;
            advice.quote_tokens(between(tokens, at, head_end(tokens, at)))
        }
        14 => {
            advice.say("the first one stands at ")?;
            match first_transition(tokens, at) {
                Some(first) => advice.address(source, tokens, first),
                None => advice.say("its own place"),
            }
        }
        15 => advice.say(
            "an input can always be taken; test in `eff` by `if` what it is to change",
        ),
        _ => advice.say("the source breaks a rule here"),
    }
}

// The first transition of the same kind and name in the same automaton.
fn first_transition(tokens: &[Token], at: usize) -> Option<usize> {
    let spot = spot_at(tokens, at).in_part(Part::Transitions);
    let named = at.saturating_add(1);
    let first = first_named(
        tokens,
        named,
        spelling_at(tokens, named),
        word_at(tokens, at),
        spot,
    )?;
    first.checked_sub(1)
}

// The first token before one that has this name, in this part of this automaton, and behind this word where there is one.
fn first_named(
    tokens: &[Token],
    end: usize,
    name: &str,
    word: Option<Word>,
    spot: Spot,
) -> Option<usize> {
    for number in 0..end {
        if spelling_at(tokens, number) == name
            && (word.is_none() || word_before(tokens, number) == word)
        {
            let there = spot_at(tokens, number);
            if there.part == spot.part && there.automaton == spot.automaton {
                return Some(number);
            }
        }
    }
    None
}

/// The advice on tasks.
pub(crate) fn advise_tasks(
    source: &[u8],
    tokens: &[Token],
    declared: &[Declared],
    at: usize,
    advice: &mut Advice,
) -> Result<(), NoMemory> {
    let Some(name) = name_at(tokens, at) else {
        let name = spelling_at(tokens, at.saturating_add(1));
        return advice.quote("", name, " is in no task; add it between the braces of one");
    };
    let spot = spot_at(tokens, at).in_part(Part::Tasks);
    match first_named(tokens, at, name, None, spot) {
        Some(first) => {
            advice.quote("", name, " stands in a task before, at ")?;
            advice.address(source, tokens, first)
        }
        None => advise_locals(declared, name, spot, advice),
    }
}

fn advise_locals(
    declared: &[Declared],
    name: &str,
    spot: Spot,
    advice: &mut Advice,
) -> Result<(), NoMemory> {
    let names = names_of(advice.alloc, declared, Needed::Local, spot, usize::MAX)?;
    if names.is_empty() {
        return advice.say("the automaton has no outputs and no internals");
    }
    advice.say("in tasks stand outputs and internals; there is ")?;
    advice.list_nearest(name, names.as_slice(), false)
}

/// The advice on what is over a limit.
pub(crate) fn advise_limit(
    tokens: &[Token],
    at: usize,
    advice: &mut Advice,
) -> Result<(), NoMemory> {
    let before = word_before(tokens, at);
    advice.say(match word_at(tokens, at) {
        Some(Word::For) => "at most three `for` stand inside of one another",
        Some(Word::Input | Word::Output | Word::Internal) =>
            "an action has at most 16 parameters, and the typed ones of an output or internal at most 4096 combinations of values",
        _ if before == Some(Word::Automaton) => "an automaton has at most 16 formals",
        None if before == Some(Word::Comma) && name_at(tokens, at).is_none() =>
            "the bound of a sequence is 1 to 65535",
        _ =>
            "at most 256 members where the values are listed, and at most 65536 scalars in a type and in a state",
    })
}
