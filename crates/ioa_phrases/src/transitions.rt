// The reader of state variables, transitions and tasks, all inside of no pair.
ghost use Rattle.std.specs.Prelude.{◌≤◌, ◌+◌, ◌∷◌, [], length, map, IfOk, string_bytes};
ghost use Rattle.ioa_tokens.specs.Tokens.{toks_of};
ghost use Rattle.ioa_trees.specs.Nodes.{eff_part, pre_part, task, transition, variable};
ghost use Rattle.ioa_trees.specs.Grammar.{maybe, outside, value_parts};
ghost use Rattle.ioa_phrases.specs.Machine.{want, at};
ghost use Rattle.ioa_trees.specs.Spelling.{eff_node, pre_node, task_node, transition_node, variable_node};
ghost use Rattle.ioa_phrases.specs.Items.{variable_head};
ghost use Rattle.ioa_trees.specs.Views.{option_view, view_declared, view_statements, view_transition, view_variable};
ghost use Rattle.ioa_phrases.specs.Reads.{GivesLow, Perhaps};

use crate::entries::read_entry;
use crate::front::{expect, expect_name, past};
use crate::names::read_names;
use crate::statements::read_statements;
use crate::stop::{Stop, or_stop};
use crate::term::read_term;
use crate::types::read_type;
use crate::values::read_init;
use ioa_tokens::{Token, Word};
use ioa_trees::tree::{Declared, Statement, Term, Transition, Variable};
use std::alloc::Global;

/// Reads a state variable.
#[tactic(auto, using(crate::proofs::Moves::variable_stops))]
pub(crate) fn read_variable<'a, 'b>(
    alloc: Global,
    tokens: &'b [Token<'a>],
) -> Result<(Variable, &'b [Token<'a>]), Stop>
    ensures gives { GivesLow (λ x. variable_node (view_variable x.0)) (λ x. toks_of x.1.now)
        (want variable) 0 (toks_of tokens.now) result }
    ensures shorter { IfOk result (λ x. length x.1.now ≤ length tokens.now) }
{
    let (name, rest) = expect_name(alloc, tokens)?;
    let rest = expect(rest, Word::Colon)?;
    let (of, rest) = read_type(alloc, rest, 0)?;
    read_start(alloc, Declared { name, of }, rest)
}

// The start value of a variable.
fn read_start<'a, 'b>(
    alloc: Global,
    declared: Declared,
    tokens: &'b [Token<'a>],
) -> Result<(Variable, &'b [Token<'a>]), Stop>
    ensures gives { GivesLow (λ x. variable_node (view_variable x.0)) (λ x. toks_of x.1.now)
        (λ k. at variable (variable_head (view_declared declared)) value_parts k) 0
        (toks_of tokens.now) result }
    ensures shorter { IfOk result (λ x. length x.1.now ≤ length tokens.now) }
{
    let rest = or_stop!(expect(tokens, Word::Assign), declared);
    let (start, rest) = or_stop!(read_init(alloc, rest, 0), declared);
    Ok((Variable { declared, start }, rest))
}

// The precondition, where there is one.
#[tactic(auto, using(crate::proofs::Moves::no_pre_part))]
fn read_pre<'a, 'b>(
    alloc: Global,
    tokens: &'b [Token<'a>],
) -> Result<(Option<Term>, &'b [Token<'a>]), Stop>
    ensures perhaps { Perhaps (λ x. pre_node (option_view x.0))
        (λ x. toks_of x.1.now) transition pre_part outside (maybe eff_part outside ∷ []) 0
        (toks_of tokens.now) result }
    ensures shorter { IfOk result (λ x. length x.1.now ≤ length tokens.now) }
{
    let Some(rest) = past(tokens, Word::Pre) else {
        return Ok((None, tokens));
    };
    let (pre, rest) = read_term(alloc, rest, 0)?;
    Ok((Some(pre), rest))
}

// The effect, where there is one.
#[tactic(auto, using(crate::proofs::Moves::no_eff_part, crate::proofs::Items::eff_some))]
fn read_eff<'a, 'b>(
    alloc: Global,
    tokens: &'b [Token<'a>],
) -> Result<(Vec<Statement>, &'b [Token<'a>]), Stop>
    ensures perhaps { Perhaps (λ x. eff_node (view_statements x.0.items))
        (λ x. toks_of x.1.now) transition eff_part outside [] 0 (toks_of tokens.now) result }
    ensures shorter { IfOk result (λ x. length x.1.now ≤ length tokens.now) }
{
    let Some(rest) = past(tokens, Word::Eff) else {
        return Ok((Vec::new(alloc), tokens));
    };
    read_statements(alloc, rest, 0)
}

/// Reads a transition.
pub(crate) fn read_transition<'a, 'b>(
    alloc: Global,
    tokens: &'b [Token<'a>],
) -> Result<(Transition, &'b [Token<'a>]), Stop>
    ensures gives { GivesLow (λ x. transition_node (view_transition x.0)) (λ x. toks_of x.1.now)
        (want transition) 0 (toks_of tokens.now) result }
    ensures shorter { IfOk result (λ x. length x.1.now + 1 ≤ length tokens.now) }
{
    let (entry, rest) = read_entry(alloc, tokens)?;
    let (pre, rest) = or_stop!(read_pre(alloc, rest), entry);
    let (eff, rest) = or_stop!(read_eff(alloc, rest), pre, entry);
    Ok((Transition { entry, pre, eff }, rest))
}

/// Reads a task.
#[tactic(auto, using(crate::proofs::Moves::no_brace, crate::proofs::Items::task_made))]
pub(crate) fn read_task<'a, 'b>(
    alloc: Global,
    tokens: &'b [Token<'a>],
) -> Result<(Vec<String>, &'b [Token<'a>]), Stop>
    ensures gives { GivesLow (λ x. task_node (map string_bytes x.0.items)) (λ x. toks_of x.1.now)
        (want task) 0 (toks_of tokens.now) result }
    ensures shorter { IfOk result (λ x. length x.1.now + 1 ≤ length tokens.now) }
{
    let rest = expect(tokens, Word::OpenBrace)?;
    let (names, rest) = read_names(alloc, rest)?;
    let rest = expect(rest, Word::CloseBrace)?;
    Ok((names, rest))
}
