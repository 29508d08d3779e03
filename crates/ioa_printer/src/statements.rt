//! The tokens of statements.
ghost use Rattle.std.specs.Prelude.{◌≡◌, ◌++◌, OnOk, map};
ghost use Rattle.ioa_trees.specs.Nodes.{Nodes, yield, yields, yield_nodes};
ghost use Rattle.ioa_trees.specs.Trees.{Assign, pack_statements, pack_branches};
ghost use Rattle.ioa_trees.specs.Spelling.{at_index, choice_node, statement_node, statements_node, if_nodes};
ghost use Rattle.ioa_printer.specs.Printed.{loop_toks};
ghost use Rattle.ioa_trees.specs.Views.{option_view, view_declared, view_init, view_statement, view_statements, view_branch};

use crate::term::{put_init, put_term};
use crate::types::put_type;
use ioa_tokens::{Page, Word};
use ioa_trees::tree::{Branch, Declared, Init, Statement, Term};
use terms::NoMemory;

#[tactic(auto, using(std::proofs::lemmas::List::append_assoc))]
fn put_index<'a>(page: &mut Page<'a>, index: &'a Option<Term>) -> Result<(), NoMemory>
    ensures { OnOk result (page.new ≡ page.old ++ yields (at_index (option_view index.now))) }
{
    match index {
        Some(index) => {
            page.put_word(Word::OpenBracket)?;
            put_term(page, index)?;
            page.put_word(Word::CloseBracket)
        }
        None => Ok(()),
    }
}

#[tactic(auto, using(std::proofs::lemmas::List::append_assoc))]
fn put_assignment<'a>(
    page: &mut Page<'a>,
    name: &'a str,
    index: &'a Option<Term>,
    value: &'a Init,
) -> Result<(), NoMemory>
    ensures { OnOk result (page.new ≡ page.old
        ++ yield (statement_node (Assign name.now (option_view index.now) (view_init value.now)))) }
{
    page.put_name(name)?;
    put_index(page, index)?;
    page.put_word(Word::Assign)?;
    put_init(page, value)
}

// A `for` up to its body.
#[tactic(auto, using(std::proofs::lemmas::List::append_assoc))]
fn put_loop<'a>(page: &mut Page<'a>, declared: &'a Declared) -> Result<(), NoMemory>
    ensures { OnOk result (page.new ≡ page.old ++ loop_toks (view_declared declared.now)) }
{
    page.put_word(Word::For)?;
    page.put_name(declared.name.as_str())?;
    page.put_word(Word::Colon)?;
    put_type(page, &declared.of)?;
    page.put_word(Word::Do)
}

#[cycle(printing_statements)]
fn put_statement<'a>(page: &mut Page<'a>, statement: &'a Statement) -> Result<(), NoMemory>
    ensures { OnOk result (page.new ≡ page.old
        ++ yield (statement_node (view_statement statement.now))) }
{
    match statement {
        Statement::Assign(name, index, value) => {
            put_assignment(page, name.as_str(), index, value)?;
        }
        Statement::If(branches, others) => {
            page.put_word(Word::If)?;
            put_branches(page, branches.as_slice())?;
            if !others.is_empty() {
                page.put_word(Word::Else)?;
                put_statements(page, others.as_slice())?;
            }
            page.put_word(Word::Fi)?;
        }
        Statement::For(declared, body) => {
            put_loop(page, declared)?;
            put_statements(page, body.as_slice())?;
            page.put_word(Word::Od)?;
        }
    }
    Ok(())
}

/// Statements, each after the first behind a `;`.
#[cycle(printing_statements)]
#[tactic(auto, using(std::proofs::lemmas::List::append_assoc))]
pub(crate) fn put_statements<'a>(
    page: &mut Page<'a>,
    statements: &'a [Statement],
) -> Result<(), NoMemory>
    ensures { OnOk result (page.new ≡ page.old
        ++ yield (statements_node (view_statements statements.now))) }
{
    let mut is_first = true;
    for statement in statements {
        if !is_first {
            page.put_word(Word::Semicolon)?;
        }
        is_first = false;
        put_statement(page, statement)?;
    }
    Ok(())
}

// The first branch, and those of each `elseif`.
#[cycle(printing_statements)]
#[tactic(auto, using(std::proofs::lemmas::List::append_assoc))]
fn put_branches<'a>(page: &mut Page<'a>, branches: &'a [Branch]) -> Result<(), NoMemory>
    ensures { OnOk result ((ns : Nodes)
        → page.new ++ yield_nodes ns ≡ page.old
        ++ yield_nodes (if_nodes (pack_branches (map view_branch branches.now)) ns)) }
{
    let mut is_first = true;
    for branch in branches {
        if !is_first {
            page.put_word(Word::Elseif)?;
        }
        is_first = false;
        put_branch(page, branch)?;
    }
    Ok(())
}

#[cycle(printing_statements)]
#[tactic(auto, using(std::proofs::lemmas::List::append_assoc))]
fn put_branch<'a>(page: &mut Page<'a>, branch: &'a Branch) -> Result<(), NoMemory>
    ensures { OnOk result (page.new ≡ page.old ++ yield (choice_node (view_branch branch.now))) }
{
    put_term(page, &branch.test)?;
    page.put_word(Word::Then)?;
    put_statements(page, branch.body.as_slice())
}
