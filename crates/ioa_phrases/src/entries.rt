// The reader of signatures.
ghost use Rattle.std.specs.Prelude.{◌≡◌, ◌≤◌, ◌<◌, ◌+◌, ◌∷◌, [], false, length, map, IfOk, MatchOption};
ghost use Rattle.ioa_tokens.specs.declared.Word.TheVariants as w;
ghost use Rattle.ioa_tokens.specs.Tokens.{Key, toks_of};
ghost use Rattle.ioa_trees.specs.Nodes.{entry, parameter, parameters};
ghost use Rattle.ioa_trees.specs.Grammar.{outside, parameters_parts};
ghost use Rattle.ioa_phrases.specs.Machine.{want, at};
ghost use Rattle.ioa_trees.specs.Spelling.{entry_node, key, parameter_node, parameters_node, parameters_tree, word_of_kind};
ghost use Rattle.ioa_trees.specs.Views.{view_entry, view_parameter};
ghost use Rattle.ioa_phrases.specs.Reads.{Gives, GivesLow, Perhaps, front_starts};

use crate::front::{expect, expect_name, past};
use crate::stop::Stop;
use crate::types::read_type;
use ioa_tokens::{Kind, Token, Word};
use ioa_trees::tree::{Declared, Entry, EntryKind, Parameter};
use std::alloc::Global;

// The kind of an action at the front and what follows it, if one comes next.
fn past_kind<'a, 'b>(tokens: &'b [Token<'a>]) -> Option<(EntryKind, &'b [Token<'a>])>
    ensures cases { MatchOption result (front_starts entry (toks_of tokens.now) ≡ false)
        (λ x. toks_of tokens.now ≡ Key (word_of_kind x.0) ∷ toks_of x.1.now) }
    ensures shorter { MatchOption result Unit (λ x. length x.1.now + 1 ≤ length tokens.now) }
{
    let (first, rest) = tokens.split_first()?;
    match first.kind {
        Kind::Word(Word::Input) => Some((EntryKind::Input, rest)),
        Kind::Word(Word::Output) => Some((EntryKind::Output, rest)),
        Kind::Word(Word::Internal) => Some((EntryKind::Internal, rest)),
        _ => None,
    }
}

// A parameter, inside of one pair.
fn read_parameter<'a, 'b>(
    alloc: Global,
    tokens: &'b [Token<'a>],
) -> Result<(Parameter, &'b [Token<'a>]), Stop>
    ensures gives { GivesLow (λ x. parameter_node (view_parameter x.0)) (λ x. toks_of x.1.now)
        (want parameter) 1 (toks_of tokens.now) result }
    ensures shorter { IfOk result (λ x. length x.1.now ≤ length tokens.now) }
{
    let Some((first, rest)) = tokens.split_first() else {
        return Err(Stop::Syntax(0));
    };
    match first.kind {
        Kind::Word(Word::Const) => {
            let (name, rest) = expect_name(alloc, rest)?;
            Ok((Parameter::Constant(name), rest))
        }
        Kind::Name(name) => {
            let name = String::from_str(alloc, name)?;
            let rest = expect(rest, Word::Colon)?;
            let (of, rest) = read_type(alloc, rest, 1)?;
            Ok((Parameter::Typed(Declared { name, of }), rest))
        }
        _ => Err(Stop::Syntax(tokens.len())),
    }
}

#[tactic(auto, using(crate::proofs::Moves::gives_low))]
fn read_shallow_parameter<'a, 'b>(
    alloc: Global,
    tokens: &'b [Token<'a>],
) -> Result<(Parameter, &'b [Token<'a>]), Stop>
    ensures gives { Gives (λ x. parameter_node (view_parameter x.0)) (λ x. toks_of x.1.now)
        (want parameter) 1 (toks_of tokens.now) result }
    ensures shorter { IfOk result (λ x. length x.1.now ≤ length tokens.now) }
{
    read_parameter(alloc, tokens)
}

// What follows `(`.
#[tactic(auto, using(crate::proofs::Items::listed_push, crate::proofs::Moves::no_parameter_part, crate::proofs::Moves::no_word))]
fn read_parameter_list<'a, 'b>(
    alloc: Global,
    tokens: &'b [Token<'a>],
) -> Result<(Vec<Parameter>, &'b [Token<'a>]), Stop>
    ensures gives { Gives (λ x. parameters_tree (map view_parameter x.0.items))
        (λ x. toks_of x.1.now) (λ k. at parameters (key w.Open ∷ []) parameters_parts k) 0
        (toks_of tokens.now) result }
    ensures shorter { IfOk result (λ x. length x.1.now ≤ length tokens.now) }
    ensures some { IfOk result (λ x. 0 < length x.0.items) }
{
    let (first, mut rest) = read_shallow_parameter(alloc, tokens)?;
    let mut all = Vec::new(alloc);
    all.push(first)?;
    while let Some(after) = past(rest, Word::Comma) {
        let (next, after) = read_shallow_parameter(alloc, after)?;
        all.push(next)?;
        rest = after;
    }
    let rest = expect(rest, Word::Close)?;
    Ok((all, rest))
}

// The parameters, where there are some.
#[tactic(auto, using(crate::proofs::Moves::no_parameters, crate::proofs::Items::parameters_some))]
fn read_parameters<'a, 'b>(
    alloc: Global,
    tokens: &'b [Token<'a>],
) -> Result<(Vec<Parameter>, &'b [Token<'a>]), Stop>
    ensures perhaps { Perhaps (λ x. parameters_node (map view_parameter x.0.items))
        (λ x. toks_of x.1.now) entry parameters outside [] 0 (toks_of tokens.now) result }
    ensures shorter { IfOk result (λ x. length x.1.now ≤ length tokens.now) }
{
    let Some(rest) = past(tokens, Word::Open) else {
        return Ok((Vec::new(alloc), tokens));
    };
    let (all, rest) = read_parameter_list(alloc, rest)?;
    Ok((all, rest))
}

/// Reads an entry at the front, inside of no pair.
#[tactic(auto, using(crate::proofs::Moves::kind_step, crate::proofs::Moves::no_entry))]
pub(crate) fn read_entry<'a, 'b>(
    alloc: Global,
    tokens: &'b [Token<'a>],
) -> Result<(Entry, &'b [Token<'a>]), Stop>
    ensures gives { GivesLow (λ x. entry_node (view_entry x.0)) (λ x. toks_of x.1.now)
        (want entry) 0 (toks_of tokens.now) result }
    ensures shorter { IfOk result (λ x. length x.1.now + 1 ≤ length tokens.now) }
{
    let Some((kind, rest)) = past_kind(tokens) else {
        return Err(Stop::Syntax(tokens.len()));
    };
    let (name, rest) = expect_name(alloc, rest)?;
    let (parameters, rest) = read_parameters(alloc, rest)?;
    Ok((
        Entry {
            kind,
            name,
            parameters,
        },
        rest,
    ))
}
