// The reader of what is put in a place.
ghost use Rattle.std.specs.Prelude.{◌≡◌, ◌≤◌, ◌+◌, ◌∷◌, [], length, IfOk};
ghost use Rattle.ioa_tokens.specs.declared.Word.TheVariants as w;
ghost use Rattle.ioa_tokens.specs.Tokens.{toks_of, tok_of};
ghost use Rattle.ioa_trees.specs.Nodes.{init, term};
ghost use Rattle.ioa_trees.specs.Grammar.{fill_parts};
ghost use Rattle.ioa_phrases.specs.Machine.{want, at};
ghost use Rattle.ioa_trees.specs.Spelling.{init_node, key};
ghost use Rattle.ioa_trees.specs.Views.{view_init};
ghost use Rattle.ioa_phrases.specs.Reads.{Gives, GivesLow, may_start, deep_stop};

use crate::front::{MAX_DEPTH, expect, past};
use crate::stop::Stop;
use crate::term::{read_term, starts_negation};
use ioa_tokens::{Kind, Token, Word};
use ioa_trees::tree::Init;
use std::alloc::Global;

fn starts_init(kind: &Kind) -> bool
    ensures { result ≡ may_start init (tok_of kind.now) }
{
    match kind {
        Kind::Word(Word::Empty | Word::Fill) => true,
        _ => starts_negation(kind),
    }
}

fn deep_init(tokens: &[Token]) -> Stop
    ensures { result ≡ deep_stop init (toks_of tokens.now) }
{
    let Some((first, _)) = tokens.split_first() else {
        return Stop::Syntax(0);
    };
    if starts_init(&first.kind) {
        Stop::Deep(tokens.len())
    } else {
        Stop::Syntax(tokens.len())
    }
}

/// Reads what is put in a place, at the front, inside this many pairs.
#[cycle(reading_values)]
#[tactic(auto, using(crate::proofs::Moves::gives_low, crate::proofs::Moves::deep_gives))]
pub(crate) fn read_init<'a, 'b>(
    alloc: Global,
    tokens: &'b [Token<'a>],
    depth: u32,
) -> Result<(Init, &'b [Token<'a>]), Stop>
    requires { depth ≤ 65 }
    ensures gives { Gives (λ x. init_node (view_init x.0)) (λ x. toks_of x.1.now) (want init) depth
        (toks_of tokens.now) result }
    ensures shorter { IfOk result (λ x. length x.1.now ≤ length tokens.now) }
{
    if depth > MAX_DEPTH {
        return Err(deep_init(tokens));
    }
    read_low_init(alloc, tokens, depth)
}

#[cycle(reading_values)]
#[tactic(auto, using(crate::proofs::Moves::value_gives))]
fn read_low_init<'a, 'b>(
    alloc: Global,
    tokens: &'b [Token<'a>],
    depth: u32,
) -> Result<(Init, &'b [Token<'a>]), Stop>
    requires { depth ≤ 64 }
    ensures gives { GivesLow (λ x. init_node (view_init x.0)) (λ x. toks_of x.1.now)
        (want init) depth (toks_of tokens.now) result }
    ensures shorter { IfOk result (λ x. length x.1.now ≤ length tokens.now) }
{
    if let Some(rest) = past(tokens, Word::Empty) {
        return Ok((Init::Empty, rest));
    }
    if let Some(rest) = past(tokens, Word::Fill) {
        return read_fill(alloc, rest, depth);
    }
    read_value(alloc, tokens, depth)
}

fn read_value<'a, 'b>(
    alloc: Global,
    tokens: &'b [Token<'a>],
    depth: u32,
) -> Result<(Init, &'b [Token<'a>]), Stop>
    requires { depth ≤ 64 }
    ensures gives { Gives (λ x. init_node (view_init x.0)) (λ x. toks_of x.1.now) (want term) depth
        (toks_of tokens.now) result }
    ensures shorter { IfOk result (λ x. length x.1.now ≤ length tokens.now) }
{
    let (term, rest) = read_term(alloc, tokens, depth)?;
    Ok((Init::Term(term), rest))
}

// What follows `fill`.
#[cycle(reading_values)]
fn read_fill<'a, 'b>(
    alloc: Global,
    tokens: &'b [Token<'a>],
    depth: u32,
) -> Result<(Init, &'b [Token<'a>]), Stop>
    requires { depth ≤ 64 }
    ensures gives { GivesLow (λ x. init_node (view_init x.0)) (λ x. toks_of x.1.now)
        (λ k. at init (key w.Fill ∷ []) fill_parts k) depth (toks_of tokens.now) result }
    ensures shorter { IfOk result (λ x. length x.1.now ≤ length tokens.now) }
{
    let rest = expect(tokens, Word::Open)?;
    let (inside, rest) = read_init(alloc, rest, depth + 1)?;
    let inside = Box::new(alloc, inside)?;
    let rest = expect(rest, Word::Close)?;
    Ok((Init::Fill(inside), rest))
}
