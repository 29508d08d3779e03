// The reader of effects.
ghost use Rattle.std.specs.Prelude.{◌≡◌, ◌≤◌, ◌<◌, ◌+◌, ◌∷◌, [], length, map, IfOk};
ghost use Rattle.ioa_tokens.specs.declared.Word.TheVariants as w;
ghost use Rattle.ioa_tokens.specs.Tokens.{toks_of};
ghost use Rattle.ioa_trees.specs.Nodes.{choice, statement, statements, index_part};
ghost use Rattle.ioa_trees.specs.Grammar.{outside, assign_parts, value_parts, if_parts, else_parts, for_parts, loop_parts};
ghost use Rattle.ioa_phrases.specs.Machine.{want, at};
ghost use Rattle.ioa_trees.specs.Trees.{If, pack_branches};
ghost use Rattle.ioa_trees.specs.Spelling.{at_index, choice_node, key, named, statement_node, statements_node};
ghost use Rattle.ioa_phrases.specs.Items.{listed, choice_item, elseif_item, loop_head};
ghost use Rattle.ioa_trees.specs.Views.{view_branch, view_declared, view_statement, view_statements, option_view};
ghost use Rattle.ioa_phrases.specs.Reads.{Branches, Gives, GivesLow, Perhaps};

use crate::front::{expect, expect_inner_name, past};
use crate::stop::{Stop, or_stop};
use crate::term::read_term;
use crate::types::read_type;
use crate::values::read_init;
use ioa_tokens::{Kind, Token, Word};
use ioa_trees::tree::{Branch, Declared, Statement, Term};
use std::alloc::Global;

/// Reads statements at the front, inside this many pairs.
#[cycle(reading_statements)]
#[tactic(auto, using(crate::proofs::Items::listed_push))]
pub(crate) fn read_statements<'a, 'b>(
    alloc: Global,
    tokens: &'b [Token<'a>],
    depth: u32,
) -> Result<(Vec<Statement>, &'b [Token<'a>]), Stop>
    requires { depth ≤ 64 }
    ensures gives { Gives (λ x. statements_node (view_statements x.0.items)) (λ x. toks_of x.1.now)
        (want statements) depth (toks_of tokens.now) result }
    ensures shorter { IfOk result (λ x. length x.1.now ≤ length tokens.now) }
    ensures some { IfOk result (λ x. 0 < length x.0.items) }
{
    let (first, mut rest) = read_statement(alloc, tokens, depth)?;
    let mut all = Vec::new(alloc);
    all.push(first)?;
    while let Some(after) = past(rest, Word::Semicolon) {
        let (next, after) = read_statement(alloc, after, depth)?;
        all.push(next)?;
        rest = after;
    }
    Ok((all, rest))
}

#[cycle(reading_statements)]
#[tactic(auto, using(crate::proofs::Moves::gives_low))]
fn read_statement<'a, 'b>(
    alloc: Global,
    tokens: &'b [Token<'a>],
    depth: u32,
) -> Result<(Statement, &'b [Token<'a>]), Stop>
    requires { depth ≤ 64 }
    ensures gives { Gives (λ x. statement_node (view_statement x.0)) (λ x. toks_of x.1.now)
        (want statement) depth (toks_of tokens.now) result }
    ensures shorter { IfOk result (λ x. length x.1.now ≤ length tokens.now) }
{
    read_low_statement(alloc, tokens, depth)
}

#[cycle(reading_statements)]
fn read_low_statement<'a, 'b>(
    alloc: Global,
    tokens: &'b [Token<'a>],
    depth: u32,
) -> Result<(Statement, &'b [Token<'a>]), Stop>
    requires { depth ≤ 64 }
    ensures gives { GivesLow (λ x. statement_node (view_statement x.0)) (λ x. toks_of x.1.now)
        (want statement) depth (toks_of tokens.now) result }
    ensures shorter { IfOk result (λ x. length x.1.now ≤ length tokens.now) }
{
    let Some((first, rest)) = tokens.split_first() else {
        return Err(Stop::Syntax(0));
    };
    match first.kind {
        Kind::Name(name) => read_assignment(alloc, name, rest, depth),
        Kind::Word(Word::If) => read_if(alloc, rest, depth),
        Kind::Word(Word::For) => read_for(alloc, rest, depth),
        _ => Err(Stop::Syntax(tokens.len())),
    }
}

// What follows the name that is assigned.
fn read_assignment<'a, 'b>(
    alloc: Global,
    name: &str,
    tokens: &'b [Token<'a>],
    depth: u32,
) -> Result<(Statement, &'b [Token<'a>]), Stop>
    requires { depth ≤ 64 }
    ensures gives { GivesLow (λ x. statement_node (view_statement x.0)) (λ x. toks_of x.1.now)
        (λ k. at statement (named name.now ∷ []) assign_parts k) depth (toks_of tokens.now) result }
    ensures shorter { IfOk result (λ x. length x.1.now ≤ length tokens.now) }
{
    let name = String::from_str(alloc, name)?;
    let (index, rest) = read_index(alloc, tokens, depth)?;
    let rest = or_stop!(expect(rest, Word::Assign), index);
    let (value, rest) = or_stop!(read_init(alloc, rest, depth), index);
    Ok((Statement::Assign(name, index, value), rest))
}

// The index on the left, where there is one.
#[tactic(auto, using(crate::proofs::Moves::no_index))]
fn read_index<'a, 'b>(
    alloc: Global,
    tokens: &'b [Token<'a>],
    depth: u32,
) -> Result<(Option<Term>, &'b [Token<'a>]), Stop>
    requires { depth ≤ 64 }
    ensures perhaps { Perhaps (λ x. at_index (option_view x.0))
        (λ x. toks_of x.1.now) statement index_part outside value_parts depth
        (toks_of tokens.now) result }
    ensures shorter { IfOk result (λ x. length x.1.now ≤ length tokens.now) }
{
    let Some(rest) = past(tokens, Word::OpenBracket) else {
        return Ok((None, tokens));
    };
    let (index, rest) = read_term(alloc, rest, depth + 1)?;
    let rest = or_stop!(expect(rest, Word::CloseBracket), index);
    Ok((Some(index), rest))
}

// A condition and what is done where it holds.
#[cycle(reading_statements)]
fn read_choice<'a, 'b>(
    alloc: Global,
    tokens: &'b [Token<'a>],
    depth: u32,
) -> Result<(Branch, &'b [Token<'a>]), Stop>
    requires { depth ≤ 65 }
    ensures gives { Gives (λ x. choice_node (view_branch x.0)) (λ x. toks_of x.1.now)
        (want choice) depth (toks_of tokens.now) result }
    ensures shorter { IfOk result (λ x. length x.1.now ≤ length tokens.now) }
    ensures low { IfOk result (λ x. depth ≤ 64) }
{
    let (test, rest) = read_term(alloc, tokens, depth)?;
    let rest = or_stop!(expect(rest, Word::Then), test);
    let (body, rest) = or_stop!(read_statements(alloc, rest, depth), test);
    Ok((Branch { test, body }, rest))
}

// What follows `if`.
#[cycle(reading_statements)]
fn read_if<'a, 'b>(
    alloc: Global,
    tokens: &'b [Token<'a>],
    depth: u32,
) -> Result<(Statement, &'b [Token<'a>]), Stop>
    requires { depth ≤ 64 }
    ensures gives { GivesLow (λ x. statement_node (view_statement x.0)) (λ x. toks_of x.1.now)
        (λ k. at statement (key w.If ∷ []) if_parts k) depth (toks_of tokens.now) result }
    ensures shorter { IfOk result (λ x. length x.1.now ≤ length tokens.now) }
{
    let (branches, rest) = read_branches(alloc, tokens, depth)?;
    read_else(alloc, branches, rest, depth)
}

// The branches of an `if`.
#[cycle(reading_statements)]
#[tactic(auto, using(crate::proofs::Items::listed_push))]
fn read_branches<'a, 'b>(
    alloc: Global,
    tokens: &'b [Token<'a>],
    depth: u32,
) -> Result<(Vec<Branch>, &'b [Token<'a>]), Stop>
    requires { depth ≤ 64 }
    ensures gives { Branches (λ x. listed choice_item elseif_item x.0.items)
        (λ x. toks_of x.1.now) depth (toks_of tokens.now) result }
    ensures shorter { IfOk result (λ x. length x.1.now ≤ length tokens.now) }
    ensures low { IfOk result (λ x. depth + 1 ≤ 64) }
{
    let (first, mut rest) = read_choice(alloc, tokens, depth + 1)?;
    let mut all = Vec::new(alloc);
    all.push(first)?;
    while let Some(after) = past(rest, Word::Elseif) {
        let (next, after) = read_choice(alloc, after, depth + 1)?;
        all.push(next)?;
        rest = after;
    }
    Ok((all, rest))
}

fn if_of(branches: Vec<Branch>, otherwise: Vec<Statement>) -> Statement
    ensures { view_statement result
        ≡ If (pack_branches (map view_branch branches.items)) (view_statements otherwise.items) }
{
    Statement::If(branches, otherwise)
}

// What follows the branches of an `if`.
#[cycle(reading_statements)]
#[tactic(auto, using(crate::proofs::Moves::no_else_part, crate::proofs::Moves::no_word))]
fn read_else<'a, 'b>(
    alloc: Global,
    branches: Vec<Branch>,
    tokens: &'b [Token<'a>],
    depth: u32,
) -> Result<(Statement, &'b [Token<'a>]), Stop>
    requires { depth + 1 ≤ 64 }
    ensures gives { Gives (λ x. statement_node (view_statement x.0)) (λ x. toks_of x.1.now)
        (λ k. at statement
        (key w.If ∷ listed choice_item elseif_item branches.items) else_parts k) depth
        (toks_of tokens.now) result }
    ensures shorter { IfOk result (λ x. length x.1.now ≤ length tokens.now) }
{
    if let Some(rest) = past(tokens, Word::Else) {
        let (otherwise, rest) = read_statements(alloc, rest, depth + 1)?;
        let rest = expect(rest, Word::Fi)?;
        return Ok((if_of(branches, otherwise), rest));
    }
    let rest = expect(tokens, Word::Fi)?;
    let nothing = Vec::new(alloc);
    Ok((if_of(branches, nothing), rest))
}

// What follows `for`.
#[cycle(reading_statements)]
#[tactic(auto, using(crate::proofs::Moves::inside_stops, crate::proofs::Moves::name_first))]
fn read_for<'a, 'b>(
    alloc: Global,
    tokens: &'b [Token<'a>],
    depth: u32,
) -> Result<(Statement, &'b [Token<'a>]), Stop>
    requires { depth ≤ 64 }
    ensures gives { GivesLow (λ x. statement_node (view_statement x.0)) (λ x. toks_of x.1.now)
        (λ k. at statement (key w.For ∷ []) for_parts k) depth (toks_of tokens.now) result }
    ensures shorter { IfOk result (λ x. length x.1.now ≤ length tokens.now) }
{
    let (name, rest) = expect_inner_name(alloc, tokens, depth)?;
    let rest = expect(rest, Word::Colon)?;
    let (of, rest) = read_type(alloc, rest, depth + 1)?;
    read_loop(alloc, Declared { name, of }, rest, depth)
}

// What follows the variable of a `for`.
#[cycle(reading_statements)]
fn read_loop<'a, 'b>(
    alloc: Global,
    declared: Declared,
    tokens: &'b [Token<'a>],
    depth: u32,
) -> Result<(Statement, &'b [Token<'a>]), Stop>
    requires { depth + 1 ≤ 64 }
    ensures gives { Gives (λ x. statement_node (view_statement x.0)) (λ x. toks_of x.1.now)
        (λ k. at statement (loop_head (view_declared declared)) loop_parts k) depth
        (toks_of tokens.now) result }
    ensures shorter { IfOk result (λ x. length x.1.now ≤ length tokens.now) }
{
    let rest = or_stop!(expect(tokens, Word::Do), declared);
    let (body, rest) = or_stop!(read_statements(alloc, rest, depth + 1), declared);
    let rest = or_stop!(expect(rest, Word::Od), body, declared);
    Ok((Statement::For(declared, body), rest))
}
