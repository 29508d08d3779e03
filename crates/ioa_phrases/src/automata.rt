// The readers of automata, all inside of no pair.
ghost use Rattle.std.specs.Prelude.{◌≡◌, ◌≤◌, ◌+◌, ◌∷◌, ◌++◌, [], length, map, IfOk, string_bytes};
ghost use Rattle.ioa_tokens.specs.declared.Word.TheVariants as w;
ghost use Rattle.ioa_tokens.specs.Tokens.{toks_of};
ghost use Rattle.ioa_trees.specs.Nodes.{basic, further};
ghost use Rattle.ioa_trees.specs.Grammar.{after_signature};
ghost use Rattle.ioa_phrases.specs.Machine.{want};
ghost use Rattle.ioa_trees.specs.Spelling.{automata_nodes, basic_node, key, named, states_node, tasks_node};
ghost use Rattle.ioa_trees.specs.Views.{view_automaton, view_variable};
ghost use Rattle.ioa_phrases.specs.Lists.{entry_item, transition_item};
ghost use Rattle.ioa_phrases.specs.Blocks.{BasicThen, Goes, ReadsParts, after_states, automata_parts, component_parts, further_parts};
ghost use Rattle.ioa_phrases.specs.Reads.{GivesLow, front_starts};

use crate::blocks::{read_head, read_states, read_tasks};
use crate::front::{expect, expect_name};
use crate::lists::{read_entries, read_transitions};
use crate::stop::Stop;
use ioa_tokens::{Kind, Token, Word};
use ioa_trees::tree::{Automaton, Entry, Transition, Variable};
use std::alloc::Global;

// The entries and the state variables.
fn read_signature<'a, 'b>(
    alloc: Global,
    tokens: &'b [Token<'a>],
) -> Result<(Vec<Entry>, Vec<Variable>, &'b [Token<'a>]), Stop>
    ensures leads { ReadsParts (λ x. map entry_item x.0.items
        ++ states_node (map view_variable x.1.items))
        (λ x. toks_of x.2.now) basic after_signature after_states (toks_of tokens.now) result }
    ensures shorter { IfOk result (λ x. length x.2.now ≤ length tokens.now) }
{
    let (entries, rest) = read_entries(alloc, tokens)?;
    let (variables, rest) = read_states(alloc, rest)?;
    Ok((entries, variables, rest))
}

// The transitions and the tasks.
#[tactic(auto, using(crate::proofs::Moves::no_word))]
fn read_behaviour<'a, 'b>(
    alloc: Global,
    tokens: &'b [Token<'a>],
) -> Result<(Vec<Transition>, Vec<Vec<String>>, &'b [Token<'a>]), Stop>
    ensures leads { ReadsParts (λ x. key w.Transitions
        ∷ (map transition_item x.0.items
        ++ tasks_node (map (λ t. map string_bytes t.items) x.1.items)))
        (λ x. toks_of x.2.now) basic after_states [] (toks_of tokens.now) result }
    ensures shorter { IfOk result (λ x. length x.2.now ≤ length tokens.now) }
{
    let rest = expect(tokens, Word::Transitions)?;
    let (transitions, rest) = read_transitions(alloc, rest)?;
    let (tasks, rest) = read_tasks(alloc, rest)?;
    Ok((transitions, tasks, rest))
}

/// Reads what follows the name of an automaton.
fn read_basic<'a, 'b>(
    alloc: Global,
    name: String,
    tokens: &'b [Token<'a>],
) -> Result<(Automaton, &'b [Token<'a>]), Stop>
    ensures gives { GivesLow (λ x. basic_node (view_automaton x.0)) (λ x. toks_of x.1.now)
        (want basic) 0 (toks_of tokens.now) result }
    ensures named { IfOk result (λ x. string_bytes x.0.name ≡ string_bytes name) }
    ensures shorter { IfOk result (λ x. length x.1.now ≤ length tokens.now) }
{
    let (formals, rest) = read_head(alloc, tokens)?;
    let (entries, variables, rest) = read_signature(alloc, rest)?;
    let (transitions, tasks, rest) = read_behaviour(alloc, rest)?;
    Ok((
        Automaton {
            name,
            formals,
            entries,
            variables,
            transitions,
            tasks,
        },
        rest,
    ))
}

/// Reads what follows the name of an automaton, up to the name of the next.
#[tactic(auto, using(crate::proofs::Moves::no_word, crate::proofs::Moves::no_name))]
fn read_then<'a, 'b>(
    alloc: Global,
    name: String,
    tokens: &'b [Token<'a>],
) -> Result<(Automaton, String, &'b [Token<'a>]), Stop>
    ensures gives { BasicThen (λ x. basic_node (view_automaton x.0)
        ∷ (key w.Automaton ∷ (named (string_bytes x.1) ∷ []))) (λ x. toks_of x.2.now)
        (toks_of tokens.now) result }
    ensures named { IfOk result (λ x. string_bytes x.0.name ≡ string_bytes name) }
    ensures shorter { IfOk result (λ x. length x.2.now + 1 ≤ length tokens.now) }
{
    let (automaton, rest) = read_basic(alloc, name, tokens)?;
    let rest = expect(rest, Word::Automaton)?;
    let (next, rest) = expect_name(alloc, rest)?;
    Ok((automaton, next, rest))
}

// The first automaton, up to the name of the next.
#[tactic(auto, using(crate::proofs::Moves::no_word, crate::proofs::Moves::no_name))]
fn read_first<'a, 'b>(
    alloc: Global,
    tokens: &'b [Token<'a>],
) -> Result<(Automaton, String, &'b [Token<'a>]), Stop>
    ensures goes { Goes (λ x. automata_nodes (view_automaton x.0 ∷ []) (string_bytes x.1))
        (λ x. toks_of x.2.now) automata_parts further_parts (toks_of tokens.now) result }
    ensures shorter { IfOk result (λ x. length x.2.now ≤ length tokens.now) }
{
    let rest = expect(tokens, Word::Automaton)?;
    let (name, rest) = expect_name(alloc, rest)?;
    let (automaton, next, rest) = read_then(alloc, name, rest)?;
    Ok((automaton, next, rest))
}

fn starts_basic(tokens: &[Token]) -> bool
    ensures { result ≡ front_starts further (toks_of tokens.now) }
{
    let Some((first, _)) = tokens.split_first() else {
        return false;
    };
    match first.kind {
        Kind::Word(Word::Open | Word::Signature) => true,
        _ => false,
    }
}

/// Reads the automata, up to the name of the composed one.
pub(crate) fn read_automata<'a, 'b>(
    alloc: Global,
    tokens: &'b [Token<'a>],
) -> Result<(Vec<Automaton>, String, &'b [Token<'a>]), Stop>
    ensures goes { Goes (λ x. automata_nodes (map view_automaton x.0.items) (string_bytes x.1))
        (λ x. toks_of x.2.now) automata_parts component_parts (toks_of tokens.now) result }
    ensures shorter { IfOk result (λ x. length x.2.now ≤ length tokens.now) }
{
    let (first, mut name, mut rest) = read_first(alloc, tokens)?;
    let mut all = Vec::new(alloc);
    all.push(first)?;
    while starts_basic(rest) {
        let (automaton, next, after) = read_then(alloc, name, rest)?;
        all.push(automaton)?;
        name = next;
        rest = after;
    }
    Ok((all, name, rest))
}
