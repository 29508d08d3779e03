// The reader of components.
ghost use Rattle.std.specs.Prelude.{◌≤◌, ◌<◌, ◌+◌, ◌∷◌, [], length, map, IfOk};
ghost use Rattle.ioa_tokens.specs.declared.Word.TheVariants as w;
ghost use Rattle.ioa_tokens.specs.Tokens.{toks_of};
ghost use Rattle.ioa_trees.specs.Nodes.{arguments, component};
ghost use Rattle.ioa_trees.specs.Grammar.{arguments_parts, outside};
ghost use Rattle.ioa_phrases.specs.Machine.{want, at};
ghost use Rattle.ioa_trees.specs.Spelling.{arguments_node, arguments_tree, component_node, key};
ghost use Rattle.ioa_trees.specs.Views.{view, view_component};
ghost use Rattle.ioa_phrases.specs.Reads.{Gives, GivesLow, Perhaps};

use crate::front::{expect, expect_name, past};
use crate::stop::Stop;
use crate::term::read_term;
use ioa_tokens::{Token, Word};
use ioa_trees::tree::{ComponentTree, Term};
use std::alloc::Global;

// What follows `(`.
#[tactic(auto, using(crate::proofs::Items::listed_push, crate::proofs::Moves::no_argument_part, crate::proofs::Moves::no_word))]
fn read_argument_list<'a, 'b>(
    alloc: Global,
    tokens: &'b [Token<'a>],
) -> Result<(Vec<Term>, &'b [Token<'a>]), Stop>
    ensures gives { Gives (λ x. arguments_tree (map view x.0.items)) (λ x. toks_of x.1.now)
        (λ k. at arguments (key w.Open ∷ []) arguments_parts k) 0 (toks_of tokens.now) result }
    ensures shorter { IfOk result (λ x. length x.1.now ≤ length tokens.now) }
    ensures some { IfOk result (λ x. 0 < length x.0.items) }
{
    let (first, mut rest) = read_term(alloc, tokens, 1)?;
    let mut all = Vec::new(alloc);
    all.push(first)?;
    while let Some(after) = past(rest, Word::Comma) {
        let (next, after) = read_term(alloc, after, 1)?;
        all.push(next)?;
        rest = after;
    }
    let rest = expect(rest, Word::Close)?;
    Ok((all, rest))
}

// The arguments, where there are some.
#[tactic(auto, using(crate::proofs::Moves::no_arguments, crate::proofs::Items::arguments_some))]
fn read_arguments<'a, 'b>(
    alloc: Global,
    tokens: &'b [Token<'a>],
) -> Result<(Vec<Term>, &'b [Token<'a>]), Stop>
    ensures perhaps { Perhaps (λ x. arguments_node (map view x.0.items))
        (λ x. toks_of x.1.now) component arguments outside [] 0 (toks_of tokens.now) result }
    ensures shorter { IfOk result (λ x. length x.1.now ≤ length tokens.now) }
{
    let Some(rest) = past(tokens, Word::Open) else {
        return Ok((Vec::new(alloc), tokens));
    };
    let (all, rest) = read_argument_list(alloc, rest)?;
    Ok((all, rest))
}

/// Reads a component, inside of no pair.
#[tactic(auto, using(crate::proofs::Moves::component_stops))]
pub(crate) fn read_component<'a, 'b>(
    alloc: Global,
    tokens: &'b [Token<'a>],
) -> Result<(ComponentTree, &'b [Token<'a>]), Stop>
    ensures gives { GivesLow (λ x. component_node (view_component x.0)) (λ x. toks_of x.1.now)
        (want component) 0 (toks_of tokens.now) result }
    ensures shorter { IfOk result (λ x. length x.1.now ≤ length tokens.now) }
{
    let (name, rest) = expect_name(alloc, tokens)?;
    let rest = expect(rest, Word::Colon)?;
    let (automaton, rest) = expect_name(alloc, rest)?;
    let (arguments, rest) = read_arguments(alloc, rest)?;
    Ok((
        ComponentTree {
            name,
            automaton,
            arguments,
        },
        rest,
    ))
}
