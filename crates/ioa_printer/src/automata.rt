//! The tokens of automata that aren't composed.
ghost use Rattle.std.specs.Prelude.{◌≡◌, ◌++◌, OnOk, map, string_bytes};
ghost use Rattle.ioa_tokens.specs.declared.Word.TheVariants as w;
ghost use Rattle.ioa_trees.specs.Nodes.{variable_part, formal_part, yield, yields};
ghost use Rattle.ioa_trees.specs.Spelling.{parts, formal_node, formals_nodes, variable_node, states_node, task_node, tasks_node, basic_node};
ghost use Rattle.ioa_printer.specs.Printed.{head_nodes, behaviour_nodes};
ghost use Rattle.ioa_trees.specs.Views.{view_declared, view_variable, view_automaton};

use crate::actions::{put_entries, put_transitions};
use crate::names::{put_declared, put_more_names};
use crate::term::put_init;
use ioa_tokens::{Page, Word};
use ioa_trees::tree::{Automaton, Declared, Variable};
use terms::NoMemory;

#[tactic(auto, using(std::proofs::lemmas::List::append_assoc))]
fn put_more_formals<'a>(page: &mut Page<'a>, others: &'a [Declared]) -> Result<(), NoMemory>
    ensures { OnOk result (page.new ≡ page.old
        ++ yields (parts formal_part w.Comma formal_node (map view_declared others.now))) }
{
    for other in others {
        page.put_word(Word::Comma)?;
        put_declared(page, other)?;
    }
    Ok(())
}

#[tactic(auto, using(std::proofs::lemmas::List::append_assoc, crate::proofs::Yields::yields_pack, crate::proofs::Yields::yields_append))]
fn put_formals<'a>(page: &mut Page<'a>, formals: &'a [Declared]) -> Result<(), NoMemory>
    ensures { OnOk result (page.new ≡ page.old
        ++ yields (formals_nodes (map view_declared formals.now))) }
{
    let Some((first, others)) = formals.split_first() else {
        return Ok(());
    };
    page.put_word(Word::Open)?;
    put_declared(page, first)?;
    put_more_formals(page, others)?;
    page.put_word(Word::Close)
}

#[tactic(auto, using(std::proofs::lemmas::List::append_assoc))]
fn put_variable<'a>(page: &mut Page<'a>, variable: &'a Variable) -> Result<(), NoMemory>
    ensures { OnOk result (page.new ≡ page.old
        ++ yield (variable_node (view_variable variable.now))) }
{
    put_declared(page, &variable.declared)?;
    page.put_word(Word::Assign)?;
    put_init(page, &variable.start)
}

#[tactic(auto, using(std::proofs::lemmas::List::append_assoc))]
fn put_more_variables<'a>(page: &mut Page<'a>, others: &'a [Variable]) -> Result<(), NoMemory>
    ensures { OnOk result (page.new ≡ page.old
        ++ yields (parts variable_part w.Comma variable_node (map view_variable others.now))) }
{
    for other in others {
        page.put_word(Word::Comma)?;
        put_variable(page, other)?;
    }
    Ok(())
}

fn put_states<'a>(page: &mut Page<'a>, variables: &'a [Variable]) -> Result<(), NoMemory>
    ensures { OnOk result (page.new ≡ page.old
        ++ yields (states_node (map view_variable variables.now))) }
{
    let Some((first, others)) = variables.split_first() else {
        return Ok(());
    };
    page.put_word(Word::States)?;
    put_variable(page, first)?;
    put_more_variables(page, others)?;
    Ok(())
}

#[tactic(auto, using(std::proofs::lemmas::List::append_assoc, crate::proofs::Yields::yields_pack, crate::proofs::Yields::yields_append))]
fn put_task<'a>(page: &mut Page<'a>, task: &'a [String]) -> Result<(), NoMemory>
    ensures { OnOk result (page.new ≡ page.old ++ yield (task_node (map string_bytes task.now))) }
{
    let Some((first, others)) = task.split_first() else {
        return Ok(());
    };
    page.put_word(Word::OpenBrace)?;
    page.put_name(first.as_str())?;
    put_more_names(page, others)?;
    page.put_word(Word::CloseBrace)
}

#[tactic(auto, using(std::proofs::lemmas::List::append_assoc))]
fn put_each_task<'a>(page: &mut Page<'a>, tasks: &'a [Vec<String>]) -> Result<(), NoMemory>
    ensures { OnOk result (page.new ≡ page.old
        ++ yields (map task_node (map (λ t. map string_bytes t.items) tasks.now))) }
{
    for task in tasks {
        put_task(page, task.as_slice())?;
    }
    Ok(())
}

#[tactic(auto, using(std::proofs::lemmas::List::append_assoc, crate::proofs::Printed::tasks_laid))]
fn put_tasks<'a>(page: &mut Page<'a>, tasks: &'a [Vec<String>]) -> Result<(), NoMemory>
    ensures { OnOk result (page.new ≡ page.old
        ++ yields (tasks_node (map (λ t. map string_bytes t.items) tasks.now))) }
{
    let Some(_) = tasks.split_first() else {
        return Ok(());
    };
    page.put_word(Word::Tasks)?;
    put_each_task(page, tasks)?;
    Ok(())
}

// The formals, the signature and the state.
#[tactic(auto, using(std::proofs::lemmas::List::append_assoc, crate::proofs::Yields::yields_append))]
fn put_head<'a>(page: &mut Page<'a>, automaton: &'a Automaton) -> Result<(), NoMemory>
    ensures { OnOk result (page.new ≡ page.old
        ++ yields (head_nodes (view_automaton automaton.now))) }
{
    put_formals(page, automaton.formals.as_slice())?;
    page.put_word(Word::Signature)?;
    put_entries(page, automaton.entries.as_slice())?;
    put_states(page, automaton.variables.as_slice())
}

// The transitions and the tasks.
#[tactic(auto, using(std::proofs::lemmas::List::append_assoc, crate::proofs::Yields::yields_append))]
fn put_behaviour<'a>(page: &mut Page<'a>, automaton: &'a Automaton) -> Result<(), NoMemory>
    ensures { OnOk result (page.new ≡ page.old
        ++ yields (behaviour_nodes (view_automaton automaton.now))) }
{
    page.put_word(Word::Transitions)?;
    put_transitions(page, automaton.transitions.as_slice())?;
    put_tasks(page, automaton.tasks.as_slice())
}

/// What follows the name of an automaton.
pub(crate) fn put_basic<'a>(page: &mut Page<'a>, automaton: &'a Automaton) -> Result<(), NoMemory>
    ensures { OnOk result (page.new ≡ page.old
        ++ yield (basic_node (view_automaton automaton.now))) }
{
    put_head(page, automaton)?;
    put_behaviour(page, automaton)?;
    Ok(())
}
