// The readers of the blocks of an automaton, all inside of no pair.
ghost use Rattle.std.specs.Prelude.{◌≡◌, ◌≤◌, ◌<◌, ◌∷◌, ◌++◌, [], length, map, IfOk, string_bytes};
ghost use Rattle.ioa_tokens.specs.declared.Word.TheVariants as w;
ghost use Rattle.ioa_tokens.specs.Tokens.{toks_of};
ghost use Rattle.ioa_trees.specs.Nodes.{basic, formal, states, task, tasks};
ghost use Rattle.ioa_trees.specs.Grammar.{outside};
ghost use Rattle.ioa_phrases.specs.Machine.{at, want};
ghost use Rattle.ioa_trees.specs.Spelling.{branch, formal_node, formals_nodes, key, states_node, tasks_node};
ghost use Rattle.ioa_phrases.specs.Items.{listed};
ghost use Rattle.ioa_trees.specs.Views.{view_declared, view_variable};
ghost use Rattle.ioa_phrases.specs.Lists.{SomeOf};
ghost use Rattle.ioa_phrases.specs.Blocks.{Heads, HeadsInside, after_states, head_nodes, signature_parts, task_item, variable_item, variable_part_item, variable_parts};
ghost use Rattle.ioa_trees.specs.Grammar.{after_signature};
ghost use Rattle.ioa_phrases.specs.Reads.{Gives, GivesLow, Perhaps, front_starts};

use crate::front::{expect, past};
use crate::names::read_formal;
use crate::stop::Stop;
use crate::transitions::{read_task, read_variable};
use ioa_tokens::{Kind, Token, Word};
use ioa_trees::tree::{Declared, Variable};
use std::alloc::Global;

#[tactic(auto, using(crate::proofs::Moves::gives_low))]
fn read_shallow_formal<'a, 'b>(
    alloc: Global,
    tokens: &'b [Token<'a>],
) -> Result<(Declared, &'b [Token<'a>]), Stop>
    ensures gives { Gives (λ x. formal_node (view_declared x.0)) (λ x. toks_of x.1.now)
        (want formal) 1 (toks_of tokens.now) result }
    ensures shorter { IfOk result (λ x. length x.1.now ≤ length tokens.now) }
{
    read_formal(alloc, tokens)
}

// What follows `(`.
#[tactic(auto, using(crate::proofs::Items::listed_push, crate::proofs::Moves::no_formal_part, crate::proofs::Moves::no_word))]
fn read_formal_list<'a, 'b>(
    alloc: Global,
    tokens: &'b [Token<'a>],
) -> Result<(Vec<Declared>, &'b [Token<'a>]), Stop>
    ensures gives { HeadsInside (λ x. formals_nodes (map view_declared x.0.items))
        (λ x. toks_of x.1.now) signature_parts (toks_of tokens.now) result }
    ensures shorter { IfOk result (λ x. length x.1.now ≤ length tokens.now) }
{
    let (first, mut rest) = read_shallow_formal(alloc, tokens)?;
    let mut all = Vec::new(alloc);
    all.push(first)?;
    while let Some(after) = past(rest, Word::Comma) {
        let (next, after) = read_shallow_formal(alloc, after)?;
        all.push(next)?;
        rest = after;
    }
    let rest = expect(rest, Word::Close)?;
    Ok((all, rest))
}

// The formals behind `(`, and the word that follows them.
#[tactic(auto, using(crate::proofs::Moves::no_word))]
fn read_some_head<'a, 'b>(
    alloc: Global,
    tokens: &'b [Token<'a>],
) -> Result<(Vec<Declared>, &'b [Token<'a>]), Stop>
    ensures gives { HeadsInside (λ x. head_nodes (map view_declared x.0.items))
        (λ x. toks_of x.1.now) after_signature (toks_of tokens.now) result }
    ensures shorter { IfOk result (λ x. length x.1.now ≤ length tokens.now) }
{
    let (formals, rest) = read_formal_list(alloc, tokens)?;
    let rest = expect(rest, Word::Signature)?;
    Ok((formals, rest))
}

/// Reads the formals of an automaton, where there are some, and `signature`.
#[tactic(auto, using(crate::proofs::Heads::bare_head, crate::proofs::Heads::no_head, crate::proofs::Heads::open_head))]
pub(crate) fn read_head<'a, 'b>(
    alloc: Global,
    tokens: &'b [Token<'a>],
) -> Result<(Vec<Declared>, &'b [Token<'a>]), Stop>
    ensures gives { Heads (λ x. head_nodes (map view_declared x.0.items)) (λ x. toks_of x.1.now)
        (toks_of tokens.now) result }
    ensures shorter { IfOk result (λ x. length x.1.now ≤ length tokens.now) }
{
    if let Some(rest) = past(tokens, Word::Open) {
        return read_some_head(alloc, rest);
    }
    let rest = expect(tokens, Word::Signature)?;
    Ok((Vec::new(alloc), rest))
}

// What follows `states`.
#[tactic(auto, using(crate::proofs::Items::listed_push, crate::proofs::Moves::no_variable_part))]
fn read_variable_list<'a, 'b>(
    alloc: Global,
    tokens: &'b [Token<'a>],
) -> Result<(Vec<Variable>, &'b [Token<'a>]), Stop>
    ensures gives { GivesLow (λ x. branch states
        (key w.States ∷ listed variable_item variable_part_item x.0.items)) (λ x. toks_of x.1.now)
        (λ k. at states (key w.States ∷ []) variable_parts k) 0 (toks_of tokens.now) result }
    ensures shorter { IfOk result (λ x. length x.1.now ≤ length tokens.now) }
    ensures some { IfOk result (λ x. 0 < length x.0.items) }
{
    let (first, mut rest) = read_variable(alloc, tokens)?;
    let mut all = Vec::new(alloc);
    all.push(first)?;
    while let Some(after) = past(rest, Word::Comma) {
        let (next, after) = read_variable(alloc, after)?;
        all.push(next)?;
        rest = after;
    }
    Ok((all, rest))
}

/// Reads the state variables, where there are some.
#[tactic(auto, using(crate::proofs::Moves::no_states, crate::proofs::Joins::states_made))]
pub(crate) fn read_states<'a, 'b>(
    alloc: Global,
    tokens: &'b [Token<'a>],
) -> Result<(Vec<Variable>, &'b [Token<'a>]), Stop>
    ensures perhaps { Perhaps (λ x. states_node (map view_variable x.0.items))
        (λ x. toks_of x.1.now) basic states outside after_states 0 (toks_of tokens.now) result }
    ensures shorter { IfOk result (λ x. length x.1.now ≤ length tokens.now) }
{
    let Some(rest) = past(tokens, Word::States) else {
        return Ok((Vec::new(alloc), tokens));
    };
    read_variable_list(alloc, rest)
}

fn starts_task(tokens: &[Token]) -> bool
    ensures { result ≡ front_starts task (toks_of tokens.now) }
{
    let Some((first, _)) = tokens.split_first() else {
        return false;
    };
    match first.kind {
        Kind::Word(Word::OpenBrace) => true,
        _ => false,
    }
}

// What follows `tasks`.
#[tactic(auto, using(crate::proofs::Rows::many_enters, crate::proofs::Rows::some_push))]
fn read_task_list<'a, 'b>(
    alloc: Global,
    tokens: &'b [Token<'a>],
) -> Result<(Vec<Vec<String>>, &'b [Token<'a>]), Stop>
    ensures gives { SomeOf (λ x. map task_item x.0.items) (λ x. toks_of x.1.now) task
        (toks_of tokens.now) result }
    ensures shorter { IfOk result (λ x. length x.1.now ≤ length tokens.now) }
    ensures some { IfOk result (λ x. 0 < length x.0.items) }
{
    let (first, mut rest) = read_task(alloc, tokens)?;
    let mut all = Vec::new(alloc);
    all.push(first)?;
    while starts_task(rest) {
        let (next, after) = read_task(alloc, rest)?;
        all.push(next)?;
        rest = after;
    }
    Ok((all, rest))
}

/// Reads the tasks, where there are some.
#[tactic(auto, using(crate::proofs::Moves::no_tasks, crate::proofs::Joins::tasks_made))]
pub(crate) fn read_tasks<'a, 'b>(
    alloc: Global,
    tokens: &'b [Token<'a>],
) -> Result<(Vec<Vec<String>>, &'b [Token<'a>]), Stop>
    ensures perhaps { Perhaps (λ x. tasks_node (map (λ t. map string_bytes t.items) x.0.items))
        (λ x. toks_of x.1.now) basic tasks outside [] 0 (toks_of tokens.now) result }
    ensures shorter { IfOk result (λ x. length x.1.now ≤ length tokens.now) }
{
    let Some(rest) = past(tokens, Word::Tasks) else {
        return Ok((Vec::new(alloc), tokens));
    };
    let (all, rest) = read_task_list(alloc, rest)?;
    Ok((all, rest))
}
