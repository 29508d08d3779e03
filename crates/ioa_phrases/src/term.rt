// The reader of terms: one pass over the tokens.
ghost use Rattle.std.specs.Prelude.{◌≡◌, ◌≤◌, ◌+◌, false, true, ◌∷◌, [], length, IfOk, MatchOption};
ghost use Rattle.ioa_tokens.specs.declared.Word.TheVariants as w;
ghost use Rattle.ioa_tokens.specs.Tokens.{Key, toks_of, tok_of};
ghost use Rattle.ioa_trees.specs.Nodes.{term, conjunction, negation, comparison, compared, sum, addend, product, factor, unary, postfix, primary};
ghost use Rattle.ioa_trees.specs.Grammar.{outside, group_parts, in_parentheses, append_parts, second_parts};
ghost use Rattle.ioa_phrases.specs.Machine.{want, at};
ghost use Rattle.ioa_trees.specs.Spelling.{node, key, word_of_sign, word_of_relation, word_of_call};
ghost use Rattle.ioa_phrases.specs.Items.{factor_item, addend_item};
ghost use Rattle.ioa_trees.specs.Views.{view};
ghost use Rattle.ioa_phrases.specs.Reads.{Gives, GivesLow, Turns, may_start, front_starts, deep_stop};

use crate::build::{
    and_of, call_of, compare_of, group_of, index_of, minus_of, not_of, or_of, product_of, sum_of,
};
use crate::front::{MAX_DEPTH, expect, expect_number, past};
use crate::stop::{Stop, or_stop};
use ioa_tokens::{Kind, Token, Word};
use ioa_trees::tree::{Addend, Call, Factor, Relation, Sign, Term};
use std::alloc::Global;

// The sign at the front and what follows it, if one comes next.
fn past_sign<'a, 'b>(tokens: &'b [Token<'a>]) -> Option<(Sign, &'b [Token<'a>])>
    ensures cases { MatchOption result (front_starts addend (toks_of tokens.now) ≡ false)
        (λ x. toks_of tokens.now ≡ Key (word_of_sign x.0) ∷ toks_of x.1.now) }
    ensures shorter { MatchOption result Unit (λ x. length x.1.now + 1 ≤ length tokens.now) }
{
    let (first, rest) = tokens.split_first()?;
    match first.kind {
        Kind::Word(Word::Plus) => Some((Sign::Plus, rest)),
        Kind::Word(Word::Minus) => Some((Sign::Minus, rest)),
        _ => None,
    }
}

// The comparison at the front and what follows it, if one comes next.
fn past_relation<'a, 'b>(tokens: &'b [Token<'a>]) -> Option<(Relation, &'b [Token<'a>])>
    ensures cases { MatchOption result (front_starts compared (toks_of tokens.now) ≡ false)
        (λ x. toks_of tokens.now ≡ Key (word_of_relation x.0) ∷ toks_of x.1.now) }
    ensures shorter { MatchOption result Unit (λ x. length x.1.now + 1 ≤ length tokens.now) }
{
    let (first, rest) = tokens.split_first()?;
    match first.kind {
        Kind::Word(Word::Equal) => Some((Relation::Equal, rest)),
        Kind::Word(Word::NotEqual) => Some((Relation::NotEqual, rest)),
        Kind::Word(Word::Less) => Some((Relation::Less, rest)),
        Kind::Word(Word::AtMost) => Some((Relation::AtMost, rest)),
        Kind::Word(Word::Greater) => Some((Relation::Greater, rest)),
        Kind::Word(Word::AtLeast) => Some((Relation::AtLeast, rest)),
        _ => None,
    }
}

fn starts_unary(kind: &Kind) -> bool
    ensures { result ≡ may_start unary (tok_of kind.now) }
{
    match kind {
        Kind::Name(_) | Kind::Number(_) => true,
        Kind::Word(Word::Minus | Word::True | Word::False | Word::Open) => true,
        Kind::Word(Word::Head | Word::Tail | Word::Len | Word::Append) => true,
        _ => false,
    }
}

fn deep_unary(tokens: &[Token]) -> Stop
    ensures { result ≡ deep_stop unary (toks_of tokens.now) }
{
    let Some((first, _)) = tokens.split_first() else {
        return Stop::Syntax(0);
    };
    if starts_unary(&first.kind) {
        Stop::Deep(tokens.len())
    } else {
        Stop::Syntax(tokens.len())
    }
}

pub(crate) fn starts_negation(kind: &Kind) -> bool
    ensures { result ≡ may_start negation (tok_of kind.now) }
{
    match kind {
        Kind::Word(Word::Not) => true,
        _ => starts_unary(kind),
    }
}

fn deep_negation(tokens: &[Token]) -> Stop
    ensures { result ≡ deep_stop negation (toks_of tokens.now) }
{
    let Some((first, _)) = tokens.split_first() else {
        return Stop::Syntax(0);
    };
    if starts_negation(&first.kind) {
        Stop::Deep(tokens.len())
    } else {
        Stop::Syntax(tokens.len())
    }
}

/// Reads a term at the front, inside this many pairs and prefixes.
#[cycle(reading_terms)]
#[tactic(auto, using(crate::proofs::Items::or_made))]
pub(crate) fn read_term<'a, 'b>(
    alloc: Global,
    tokens: &'b [Token<'a>],
    depth: u32,
) -> Result<(Term, &'b [Token<'a>]), Stop>
    requires { depth ≤ 65 }
    ensures gives { Gives (λ x. node (view x.0)) (λ x. toks_of x.1.now) (want term) depth
        (toks_of tokens.now) result }
    ensures shorter { IfOk result (λ x. length x.1.now ≤ length tokens.now) }
    ensures low { IfOk result (λ x. depth ≤ 64) }
{
    let (first, mut rest) = read_conjunction(alloc, tokens, depth)?;
    let mut others = Vec::new(alloc);
    while let Some(after) = past(rest, Word::Or) {
        let (next, after) = or_stop!(read_conjunction(alloc, after, depth), first);
        or_stop!(others.push(next), first);
        rest = after;
    }
    Ok((or_of(alloc, first, others)?, rest))
}

#[cycle(reading_terms)]
#[tactic(auto, using(crate::proofs::Items::and_made))]
fn read_conjunction<'a, 'b>(
    alloc: Global,
    tokens: &'b [Token<'a>],
    depth: u32,
) -> Result<(Term, &'b [Token<'a>]), Stop>
    requires { depth ≤ 65 }
    ensures gives { Gives (λ x. node (view x.0)) (λ x. toks_of x.1.now) (want conjunction) depth
        (toks_of tokens.now) result }
    ensures shorter { IfOk result (λ x. length x.1.now ≤ length tokens.now) }
    ensures low { IfOk result (λ x. depth ≤ 64) }
{
    let (first, mut rest) = read_negation(alloc, tokens, depth)?;
    let mut others = Vec::new(alloc);
    while let Some(after) = past(rest, Word::And) {
        let (next, after) = or_stop!(read_negation(alloc, after, depth), first);
        or_stop!(others.push(next), first);
        rest = after;
    }
    Ok((and_of(alloc, first, others)?, rest))
}

#[cycle(reading_terms)]
#[tactic(auto, using(crate::proofs::Moves::gives_low, crate::proofs::Moves::deep_gives))]
fn read_negation<'a, 'b>(
    alloc: Global,
    tokens: &'b [Token<'a>],
    depth: u32,
) -> Result<(Term, &'b [Token<'a>]), Stop>
    requires { depth ≤ 65 }
    ensures gives { Gives (λ x. node (view x.0)) (λ x. toks_of x.1.now) (want negation) depth
        (toks_of tokens.now) result }
    ensures shorter { IfOk result (λ x. length x.1.now ≤ length tokens.now) }
    ensures low { IfOk result (λ x. depth ≤ 64) }
{
    if depth > MAX_DEPTH {
        return Err(deep_negation(tokens));
    }
    read_low_negation(alloc, tokens, depth)
}

#[cycle(reading_terms)]
#[tactic(auto, using(crate::proofs::Moves::not_gives))]
fn read_low_negation<'a, 'b>(
    alloc: Global,
    tokens: &'b [Token<'a>],
    depth: u32,
) -> Result<(Term, &'b [Token<'a>]), Stop>
    requires { depth ≤ 64 }
    ensures gives { GivesLow (λ x. node (view x.0)) (λ x. toks_of x.1.now) (want negation) depth
        (toks_of tokens.now) result }
    ensures shorter { IfOk result (λ x. length x.1.now ≤ length tokens.now) }
{
    if let Some(rest) = past(tokens, Word::Not) {
        let (inside, rest) = read_negation(alloc, rest, depth + 1)?;
        return Ok((not_of(alloc, inside)?, rest));
    }
    read_comparison(alloc, tokens, depth)
}

#[cycle(reading_terms)]
fn read_comparison<'a, 'b>(
    alloc: Global,
    tokens: &'b [Token<'a>],
    depth: u32,
) -> Result<(Term, &'b [Token<'a>]), Stop>
    requires { depth ≤ 64 }
    ensures gives { Gives (λ x. node (view x.0)) (λ x. toks_of x.1.now) (want comparison) depth
        (toks_of tokens.now) result }
    ensures shorter { IfOk result (λ x. length x.1.now ≤ length tokens.now) }
{
    let (left, rest) = read_sum(alloc, tokens, depth)?;
    let Some((relation, after)) = past_relation(rest) else {
        return Ok((left, rest));
    };
    let (right, rest) = or_stop!(read_sum(alloc, after, depth), left);
    Ok((compare_of(alloc, left, relation, right)?, rest))
}

#[cycle(reading_terms)]
#[tactic(auto, using(crate::proofs::Items::sum_made))]
fn read_sum<'a, 'b>(
    alloc: Global,
    tokens: &'b [Token<'a>],
    depth: u32,
) -> Result<(Term, &'b [Token<'a>]), Stop>
    requires { depth ≤ 64 }
    ensures gives { Gives (λ x. node (view x.0)) (λ x. toks_of x.1.now) (want sum) depth
        (toks_of tokens.now) result }
    ensures shorter { IfOk result (λ x. length x.1.now ≤ length tokens.now) }
{
    let (first, mut rest) = read_product(alloc, tokens, depth)?;
    let mut others = Vec::new(alloc);
    while let Some((addend, after)) = or_stop!(read_addend(alloc, rest, depth), first) {
        or_stop!(others.push(addend), first);
        rest = after;
    }
    Ok((sum_of(alloc, first, others)?, rest))
}

#[cycle(reading_terms)]
fn read_addend<'a, 'b>(
    alloc: Global,
    tokens: &'b [Token<'a>],
    depth: u32,
) -> Result<Option<(Addend, &'b [Token<'a>])>, Stop>
    requires { depth ≤ 64 }
    ensures turns { Turns (λ x. addend_item x.0) (λ x. toks_of x.1.now) sum addend outside [] depth
        (toks_of tokens.now) result }
    ensures shorter { IfOk result (λ x. MatchOption x Unit
        (λ y. length y.1.now + 1 ≤ length tokens.now)) }
{
    let Some((sign, after)) = past_sign(tokens) else {
        return Ok(None);
    };
    let (term, rest) = read_product(alloc, after, depth)?;
    Ok(Some((Addend { sign, term }, rest)))
}

#[cycle(reading_terms)]
#[tactic(auto, using(crate::proofs::Items::product_made))]
fn read_product<'a, 'b>(
    alloc: Global,
    tokens: &'b [Token<'a>],
    depth: u32,
) -> Result<(Term, &'b [Token<'a>]), Stop>
    requires { depth ≤ 64 }
    ensures gives { Gives (λ x. node (view x.0)) (λ x. toks_of x.1.now) (want product) depth
        (toks_of tokens.now) result }
    ensures shorter { IfOk result (λ x. length x.1.now ≤ length tokens.now) }
{
    let (first, mut rest) = read_unary(alloc, tokens, depth)?;
    let mut others = Vec::new(alloc);
    while let Some((factor, after)) = or_stop!(read_factor(alloc, rest, depth), first) {
        or_stop!(others.push(factor), first);
        rest = after;
    }
    Ok((product_of(alloc, first, others)?, rest))
}

#[cycle(reading_terms)]
#[tactic(auto, using(crate::proofs::Moves::no_factor))]
fn read_factor<'a, 'b>(
    alloc: Global,
    tokens: &'b [Token<'a>],
    depth: u32,
) -> Result<Option<(Factor, &'b [Token<'a>])>, Stop>
    requires { depth ≤ 64 }
    ensures turns { Turns (λ x. factor_item x.0)
        (λ x. toks_of x.1.now) product factor outside [] depth (toks_of tokens.now) result }
    ensures shorter { IfOk result (λ x. MatchOption x Unit
        (λ y. length y.1.now + 1 ≤ length tokens.now)) }
{
    if let Some(after) = past(tokens, Word::Times) {
        let (term, rest) = read_unary(alloc, after, depth)?;
        return Ok(Some((Factor::Times(term), rest)));
    }
    let Some(after) = past(tokens, Word::Mod) else {
        return Ok(None);
    };
    let (modulus, rest) = expect_number(after)?;
    Ok(Some((Factor::Modulo(modulus), rest)))
}

#[cycle(reading_terms)]
#[tactic(auto, using(crate::proofs::Moves::gives_low, crate::proofs::Moves::deep_gives))]
fn read_unary<'a, 'b>(
    alloc: Global,
    tokens: &'b [Token<'a>],
    depth: u32,
) -> Result<(Term, &'b [Token<'a>]), Stop>
    requires { depth ≤ 65 }
    ensures gives { Gives (λ x. node (view x.0)) (λ x. toks_of x.1.now) (want unary) depth
        (toks_of tokens.now) result }
    ensures shorter { IfOk result (λ x. length x.1.now ≤ length tokens.now) }
{
    if depth > MAX_DEPTH {
        return Err(deep_unary(tokens));
    }
    read_low_unary(alloc, tokens, depth)
}

#[cycle(reading_terms)]
#[tactic(auto, using(crate::proofs::Moves::minus_gives))]
fn read_low_unary<'a, 'b>(
    alloc: Global,
    tokens: &'b [Token<'a>],
    depth: u32,
) -> Result<(Term, &'b [Token<'a>]), Stop>
    requires { depth ≤ 64 }
    ensures gives { GivesLow (λ x. node (view x.0)) (λ x. toks_of x.1.now) (want unary) depth
        (toks_of tokens.now) result }
    ensures shorter { IfOk result (λ x. length x.1.now ≤ length tokens.now) }
{
    if let Some(rest) = past(tokens, Word::Minus) {
        let (inside, rest) = read_unary(alloc, rest, depth + 1)?;
        return Ok((minus_of(alloc, inside)?, rest));
    }
    read_postfix(alloc, tokens, depth)
}

#[cycle(reading_terms)]
#[tactic(auto, using(crate::proofs::Items::index_made))]
fn read_postfix<'a, 'b>(
    alloc: Global,
    tokens: &'b [Token<'a>],
    depth: u32,
) -> Result<(Term, &'b [Token<'a>]), Stop>
    requires { depth ≤ 64 }
    ensures gives { GivesLow (λ x. node (view x.0)) (λ x. toks_of x.1.now) (want postfix) depth
        (toks_of tokens.now) result }
    ensures shorter { IfOk result (λ x. length x.1.now ≤ length tokens.now) }
{
    let (first, mut rest) = read_primary(alloc, tokens, depth)?;
    let mut others = Vec::new(alloc);
    while let Some(after) = past(rest, Word::OpenBracket) {
        let (index, after) = or_stop!(read_term(alloc, after, depth + 1), first);
        or_stop!(others.push(index), first);
        rest = or_stop!(expect(after, Word::CloseBracket), first);
    }
    Ok((index_of(alloc, first, others)?, rest))
}

#[cycle(reading_terms)]
fn read_primary<'a, 'b>(
    alloc: Global,
    tokens: &'b [Token<'a>],
    depth: u32,
) -> Result<(Term, &'b [Token<'a>]), Stop>
    requires { depth ≤ 64 }
    ensures gives { GivesLow (λ x. node (view x.0)) (λ x. toks_of x.1.now) (want primary) depth
        (toks_of tokens.now) result }
    ensures shorter { IfOk result (λ x. length x.1.now ≤ length tokens.now) }
{
    let Some((first, rest)) = tokens.split_first() else {
        return Err(Stop::Syntax(0));
    };
    match first.kind {
        Kind::Name(name) => Ok((Term::Name(String::from_str(alloc, name)?), rest)),
        Kind::Number(number) => Ok((Term::Number(number), rest)),
        Kind::Word(Word::True) => Ok((Term::True, rest)),
        Kind::Word(Word::False) => Ok((Term::False, rest)),
        Kind::Word(Word::Open) => read_group(alloc, rest, depth),
        Kind::Word(Word::Head) => read_call(alloc, Call::Head, rest, depth),
        Kind::Word(Word::Tail) => read_call(alloc, Call::Tail, rest, depth),
        Kind::Word(Word::Len) => read_call(alloc, Call::Len, rest, depth),
        Kind::Word(Word::Append) => read_append(alloc, rest, depth),
        _ => Err(Stop::Syntax(tokens.len())),
    }
}

// What follows `(`.
#[cycle(reading_terms)]
fn read_group<'a, 'b>(
    alloc: Global,
    tokens: &'b [Token<'a>],
    depth: u32,
) -> Result<(Term, &'b [Token<'a>]), Stop>
    requires { depth ≤ 64 }
    ensures gives { GivesLow (λ x. node (view x.0)) (λ x. toks_of x.1.now)
        (λ k. at primary (key w.Open ∷ []) group_parts k) depth (toks_of tokens.now) result }
    ensures shorter { IfOk result (λ x. length x.1.now ≤ length tokens.now) }
{
    let (inside, rest) = read_term(alloc, tokens, depth + 1)?;
    let rest = or_stop!(expect(rest, Word::Close), inside);
    Ok((group_of(alloc, inside)?, rest))
}

// What follows `head`, `tail` or `len`.
#[cycle(reading_terms)]
fn read_call<'a, 'b>(
    alloc: Global,
    call: Call,
    tokens: &'b [Token<'a>],
    depth: u32,
) -> Result<(Term, &'b [Token<'a>]), Stop>
    requires { depth ≤ 64 }
    ensures gives { GivesLow (λ x. node (view x.0)) (λ x. toks_of x.1.now)
        (λ k. at primary (key (word_of_call call) ∷ []) in_parentheses k) depth
        (toks_of tokens.now) result }
    ensures shorter { IfOk result (λ x. length x.1.now ≤ length tokens.now) }
{
    let rest = expect(tokens, Word::Open)?;
    let (inside, rest) = read_term(alloc, rest, depth + 1)?;
    let rest = or_stop!(expect(rest, Word::Close), inside);
    Ok((call_of(alloc, call, inside)?, rest))
}

// What follows `append`.
#[cycle(reading_terms)]
fn read_append<'a, 'b>(
    alloc: Global,
    tokens: &'b [Token<'a>],
    depth: u32,
) -> Result<(Term, &'b [Token<'a>]), Stop>
    requires { depth ≤ 64 }
    ensures gives { GivesLow (λ x. node (view x.0)) (λ x. toks_of x.1.now)
        (λ k. at primary (key w.Append ∷ []) append_parts k) depth (toks_of tokens.now) result }
    ensures shorter { IfOk result (λ x. length x.1.now ≤ length tokens.now) }
{
    let rest = expect(tokens, Word::Open)?;
    let (list, rest) = read_term(alloc, rest, depth + 1)?;
    let rest = or_stop!(expect(rest, Word::Comma), list);
    read_second(alloc, list, rest, depth)
}

// The second argument of an append, and its end.
#[cycle(reading_terms)]
fn read_second<'a, 'b>(
    alloc: Global,
    list: Term,
    tokens: &'b [Token<'a>],
    depth: u32,
) -> Result<(Term, &'b [Token<'a>]), Stop>
    requires { depth ≤ 64 }
    ensures gives { GivesLow (λ x. node (view x.0)) (λ x. toks_of x.1.now)
        (λ k. at primary
        (key w.Append
        ∷ (key w.Open ∷ (node (view list) ∷ (key w.Comma ∷ [])))) second_parts k) depth
        (toks_of tokens.now) result }
    ensures shorter { IfOk result (λ x. length x.1.now ≤ length tokens.now) }
{
    let list = Box::new(alloc, list)?;
    let (element, rest) = read_term(alloc, tokens, depth + 1)?;
    let element = Box::new(alloc, element)?;
    let rest = expect(rest, Word::Close)?;
    Ok((Term::Append(list, element), rest))
}
