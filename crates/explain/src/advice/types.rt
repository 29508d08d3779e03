//! Advice on types that don't fit: the type that is there, and the one that is wanted, where the tokens round the place tell them.

use crate::advice::brackets::{between, head_end, open_before, walk_on};
use crate::advice::names::{Needed, begins_statement, first_named, is_type_place, last_needed};
use crate::advice::saying::Advice;
use crate::outline::{
    Declared, Part, Sort, Spot, entry_sort, find_own, name_at, spelling_at, spot_at, word_after,
    word_at, word_before,
};
use ioa_tokens::{Kind, Token, Word};
use terms::NoMemory;

/// A type, as far as tokens tell.
#[derive(Clone, Copy)]
enum Known {
    Bool,
    /// `Int` or a range.
    Whole,
    Sequence,
    /// That of the type that begins at a token.
    Declared(usize),
    /// That of which the name at a token is a member.
    Member(usize),
    No,
}

/// The advice on a type that doesn't fit.
pub(crate) fn advise_type(
    tokens: &[Token],
    declared: &[Declared],
    at: usize,
    advice: &mut Advice,
) -> Result<(), NoMemory> {
    let spot = spot_at(tokens, at);
    let before = word_before(tokens, at);
    if is_type_place(tokens, at, spot.part) {
        return advice.say(sort_phrase(tokens, at, spot.part));
    }
    if spot.part == Part::Components && before == Some(Word::Colon) {
        return advise_count(tokens, declared, at, advice);
    }
    if before == Some(Word::Mod) {
        return advice.say("after `mod` stands a number from 1 on");
    }
    if spot.part == Part::Transitions {
        return advise_step(tokens, declared, at, spot, advice);
    }
    advise_term(tokens, declared, at, spot, advice)
}

// The advice in a transition.
fn advise_step(
    tokens: &[Token],
    declared: &[Declared],
    at: usize,
    spot: Spot,
    advice: &mut Advice,
) -> Result<(), NoMemory> {
    let before = word_before(tokens, at);
    if let Some(sort) = entry_sort(before) {
        let name = spelling_at(tokens, at);
        return advise_head(
            tokens,
            first_named(declared, Needed::Entry(sort), spot, at, name),
            advice,
        );
    }
    if begins_statement(before) && name_at(tokens, at).is_some() {
        return advise_assigned(tokens, declared, at, spot, advice);
    }
    advise_term(tokens, declared, at, spot, advice)
}

// What is said of a type of the wrong sort, or a range upside down.
fn sort_phrase(tokens: &[Token], at: usize, part: Part) -> &'static str {
    if word_after(tokens, number_end(tokens, at)) == Some(Word::DotDot) {
        return "the first number of a range isn't above its second one, and a type that is to be listed has at most 256 members";
    }
    match part {
        Part::Head => "a formal is scalar: `Bool`, `Int`, a range or an enumeration",
        Part::Signature =>
            "a parameter is scalar, and of an output or internal it can be listed: `Bool`, a range or an enumeration",
        Part::Transitions =>
            "a `for` goes over a type that can be listed: `Bool`, a range or an enumeration",
        _ => "the index type of an array can be listed: `Bool`, a range or an enumeration",
    }
}

// The token of the number, or of what else has no sign, that begins at one.
fn number_end(tokens: &[Token], at: usize) -> usize {
    if word_at(tokens, at) == Some(Word::Minus) {
        at.saturating_add(1)
    } else {
        at
    }
}

// A wrong number of arguments.
fn advise_count(
    tokens: &[Token],
    declared: &[Declared],
    at: usize,
    advice: &mut Advice,
) -> Result<(), NoMemory> {
    let name = spelling_at(tokens, at);
    let automaton = automaton_of(declared, name);
    let formals = find_own(declared, Sort::Formal, automaton, "", usize::MAX).1;
    advice.quote("", name, " has ")?;
    advice.count("", formals, " formals, and here are ")?;
    advice.count("", arguments_of(tokens, at.saturating_add(1)), " arguments")
}

/// The number of the automaton of this name, from 1; 0 where there is none.
pub(crate) fn automaton_of(declared: &[Declared], name: &str) -> usize {
    match first_named(declared, Needed::Automaton, Spot::start(), 0, name) {
        Some(known) => known.spot.automaton,
        None => 0,
    }
}

// How many arguments stand in the bracket at a token.
fn arguments_of(tokens: &[Token], open: usize) -> usize {
    if word_at(tokens, open) == Some(Word::Open) {
        walk_on(tokens, open, usize::MAX).1.saturating_add(1)
    } else {
        0
    }
}

// A head whose parameters aren't the entry's.
fn advise_head(
    tokens: &[Token],
    entry: Option<Declared>,
    advice: &mut Advice,
) -> Result<(), NoMemory> {
    let Some(entry) = entry else {
        return advice.say("the parameters are those of the entry, word for word");
    };
    let begin = entry.at.saturating_sub(1);
    advice.say("the entry reads ")?;
    advice.quote_tokens(between(tokens, begin, head_end(tokens, begin)))
}

fn advise_assigned(
    tokens: &[Token],
    declared: &[Declared],
    at: usize,
    spot: Spot,
    advice: &mut Advice,
) -> Result<(), NoMemory> {
    advice.quote("", spelling_at(tokens, at), " is ")?;
    say_known(
        tokens,
        declared,
        there_at(tokens, declared, at, spot),
        advice,
    )?;
    if word_after(tokens, at) != Some(Word::Assign) {
        return advice.say("; an index on the left needs an array");
    }
    let right = there_at(tokens, declared, at.saturating_add(2), spot);
    if let Known::No = right {
        return advice.say(", and the value is of another type");
    }
    advice.say(", and the value begins with ")?;
    say_known(tokens, declared, right, advice)
}

// The type of what begins at a token, where its first token tells it.
fn there_at(tokens: &[Token], declared: &[Declared], at: usize, spot: Spot) -> Known {
    let Some(token) = tokens.get(at) else {
        return Known::No;
    };
    match token.kind {
        Kind::Number(_) => Known::Whole,
        Kind::Word(Word::True | Word::False | Word::Not) => Known::Bool,
        Kind::Word(Word::Minus | Word::Len) => Known::Whole,
        Kind::Word(Word::Append | Word::Tail | Word::Empty) => Known::Sequence,
        Kind::Word(_) => Known::No,
        Kind::Name(name) => name_type(tokens, declared, at, name, spot),
    }
}

// The type of a name in a term, unless it is indexed.
fn name_type(tokens: &[Token], declared: &[Declared], at: usize, name: &str, spot: Spot) -> Known {
    if word_after(tokens, at) == Some(Word::OpenBracket) {
        return Known::No;
    }
    match first_named(declared, Needed::Value, spot, usize::MAX, name) {
        Some(known) if known.sort == Sort::Member => Known::Member(known.at),
        Some(known) => Known::Declared(known.at.saturating_add(2)),
        None => Known::No,
    }
}

// The type that is wanted of what begins at a token.
fn wanted_at(tokens: &[Token], declared: &[Declared], at: usize, spot: Spot) -> Known {
    match word_before(tokens, at) {
        Some(Word::Pre | Word::If | Word::Elseif | Word::Not | Word::And | Word::Or) => {
            wanted_by_next(tokens, at, Known::Bool)
        }
        Some(Word::Plus | Word::Minus | Word::Times) => Known::Whole,
        Some(Word::Less | Word::AtMost | Word::Greater | Word::AtLeast) => Known::Whole,
        Some(Word::Equal | Word::NotEqual) => {
            there_at(tokens, declared, at.saturating_sub(2), spot)
        }
        Some(Word::Assign) => type_before(declared, at),
        Some(Word::Open | Word::Comma) if spot.part == Part::Components => {
            argument_type(tokens, declared, at)
        }
        Some(Word::Open) if is_sequence_call(tokens, at) => Known::Sequence,
        _ => wanted_by_next(tokens, at, Known::No),
    }
}

// What the operator behind a first operand of one token wants of it, or else this.
fn wanted_by_next(tokens: &[Token], at: usize, otherwise: Known) -> Known {
    match word_after(tokens, at) {
        Some(Word::Plus | Word::Minus | Word::Times | Word::Mod) => Known::Whole,
        Some(Word::Less | Word::AtMost | Word::Greater | Word::AtLeast) => Known::Whole,
        Some(Word::And | Word::Or) => Known::Bool,
        _ => otherwise,
    }
}

// The type of the last name before a token that has one.
fn type_before(declared: &[Declared], at: usize) -> Known {
    match last_needed(declared, Needed::Typed, at) {
        Some(known) => Known::Declared(known.at.saturating_add(2)),
        None => Known::No,
    }
}

fn is_sequence_call(tokens: &[Token], at: usize) -> bool {
    match word_before(tokens, at.saturating_sub(1)) {
        Some(Word::Head | Word::Tail | Word::Len | Word::Append) => true,
        _ => false,
    }
}

// The type of the formal whose argument begins at a token.
fn argument_type(tokens: &[Token], declared: &[Declared], at: usize) -> Known {
    let (open, place) = open_before(tokens, at);
    let Some(open) = open else {
        return Known::No;
    };
    let automaton = automaton_of(declared, spelling_at(tokens, open.saturating_sub(1)));
    match find_own(declared, Sort::Formal, automaton, "", place).0 {
        Some(formal) => Known::Declared(formal.saturating_add(2)),
        None => Known::No,
    }
}

// The type that is wanted, and the one that is there.
fn advise_term(
    tokens: &[Token],
    declared: &[Declared],
    at: usize,
    spot: Spot,
    advice: &mut Advice,
) -> Result<(), NoMemory> {
    let there = there_at(tokens, declared, at, spot);
    let wanted = wanted_at(tokens, declared, at, spot);
    if let Known::No = wanted {
        advice.say(
            "`+ - * mod < <= > >=` take whole numbers, `and or not`, `pre` and `if` take `Bool`, `=` and `/=` two of one type, and a value is of the type of its place",
        )?;
    } else {
        say_known(tokens, declared, wanted, advice)?;
        advice.say(" is wanted")?;
    }
    if let Known::No = there {
        return Ok(());
    }
    advice.say("; here is ")?;
    say_known(tokens, declared, there, advice)
}

fn say_known(
    tokens: &[Token],
    declared: &[Declared],
    known: Known,
    advice: &mut Advice,
) -> Result<(), NoMemory> {
    match known {
        Known::Bool => advice.say("`Bool`"),
        Known::Whole => advice.say("a whole number"),
        Known::Sequence => advice.say("a sequence"),
        Known::Declared(at) => advice.quote_tokens(between(tokens, at, type_end(tokens, at))),
        Known::Member(at) => advice.quote("", enumeration_of(declared, at), ""),
        Known::No => advice.say("another type"),
    }
}

/// The number of the token behind the type that begins at one.
pub(crate) fn type_end(tokens: &[Token], at: usize) -> usize {
    let first = number_end(tokens, at).saturating_add(1);
    match word_at(tokens, at) {
        Some(Word::Seq | Word::Array) => walk_on(tokens, first, usize::MAX).0,
        _ if word_at(tokens, first) == Some(Word::DotDot) => {
            number_end(tokens, first.saturating_add(1)).saturating_add(1)
        }
        _ => first,
    }
}

// The name of the enumeration that has the member at a token: the last type that was declared before.
fn enumeration_of<'a>(declared: &[Declared<'a>], at: usize) -> &'a str {
    match last_needed(declared, Needed::Type, at) {
        Some(known) => known.name,
        None => "",
    }
}
