// The readers of the lists in an automaton, all inside of no pair.
ghost use Rattle.std.specs.Prelude.{◌≡◌, ◌≤◌, length, map, IfOk};
ghost use Rattle.ioa_tokens.specs.Tokens.{toks_of};
ghost use Rattle.ioa_trees.specs.Nodes.{entry, transition};
ghost use Rattle.ioa_phrases.specs.Lists.{SomeOf, entry_item, transition_item};
ghost use Rattle.ioa_phrases.specs.Reads.{front_starts};

use crate::entries::read_entry;
use crate::stop::Stop;
use crate::transitions::read_transition;
use ioa_tokens::{Kind, Token, Word};
use ioa_trees::tree::{Entry, Transition};
use std::alloc::Global;

fn starts_entry(tokens: &[Token]) -> bool
    ensures entries { result ≡ front_starts entry (toks_of tokens.now) }
    ensures transitions { result ≡ front_starts transition (toks_of tokens.now) }
{
    let Some((first, _)) = tokens.split_first() else {
        return false;
    };
    match first.kind {
        Kind::Word(Word::Input | Word::Output | Word::Internal) => true,
        _ => false,
    }
}

/// Reads an entry and those that follow it.
#[tactic(auto, using(crate::proofs::Rows::many_enters, crate::proofs::Rows::some_push))]
pub(crate) fn read_entries<'a, 'b>(
    alloc: Global,
    tokens: &'b [Token<'a>],
) -> Result<(Vec<Entry>, &'b [Token<'a>]), Stop>
    ensures gives { SomeOf (λ x. map entry_item x.0.items) (λ x. toks_of x.1.now) entry
        (toks_of tokens.now) result }
    ensures shorter { IfOk result (λ x. length x.1.now ≤ length tokens.now) }
{
    let (first, mut rest) = read_entry(alloc, tokens)?;
    let mut all = Vec::new(alloc);
    all.push(first)?;
    while starts_entry(rest) {
        let (next, after) = read_entry(alloc, rest)?;
        all.push(next)?;
        rest = after;
    }
    Ok((all, rest))
}

/// Reads a transition and those that follow it.
#[tactic(auto, using(crate::proofs::Rows::many_enters, crate::proofs::Rows::some_push))]
pub(crate) fn read_transitions<'a, 'b>(
    alloc: Global,
    tokens: &'b [Token<'a>],
) -> Result<(Vec<Transition>, &'b [Token<'a>]), Stop>
    ensures gives { SomeOf (λ x. map transition_item x.0.items) (λ x. toks_of x.1.now) transition
        (toks_of tokens.now) result }
    ensures shorter { IfOk result (λ x. length x.1.now ≤ length tokens.now) }
{
    let (first, mut rest) = read_transition(alloc, tokens)?;
    let mut all = Vec::new(alloc);
    all.push(first)?;
    while starts_entry(rest) {
        let (next, after) = read_transition(alloc, rest)?;
        all.push(next)?;
        rest = after;
    }
    Ok((all, rest))
}
