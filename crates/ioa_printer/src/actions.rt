//! The tokens of the entries of a signature, and of transitions.
ghost use Rattle.std.specs.Prelude.{◌≡◌, ◌++◌, OnOk, map};
ghost use Rattle.ioa_tokens.specs.declared.Word.TheVariants as w;
ghost use Rattle.ioa_trees.specs.Nodes.{parameter_part, yield, yields};
ghost use Rattle.ioa_trees.specs.Spelling.{word_of_kind, parameter_node, parameters_node, parts, entry_node, pre_node, eff_node, transition_node};
ghost use Rattle.ioa_trees.specs.Views.{option_view, view_parameter, view_entry, view_statements, view_transition};

use crate::names::put_declared;
use crate::statements::put_statements;
use crate::term::put_term;
use ioa_tokens::{Page, Word};
use ioa_trees::tree::{Entry, EntryKind, Parameter, Statement, Term, Transition};
use terms::NoMemory;

fn word_of_kind(kind: EntryKind) -> Word
    ensures { result ≡ word_of_kind kind }
{
    match kind {
        EntryKind::Input => Word::Input,
        EntryKind::Output => Word::Output,
        EntryKind::Internal => Word::Internal,
    }
}

#[tactic(auto, using(std::proofs::lemmas::List::append_assoc))]
fn put_parameter<'a>(page: &mut Page<'a>, parameter: &'a Parameter) -> Result<(), NoMemory>
    ensures { OnOk result (page.new ≡ page.old
        ++ yield (parameter_node (view_parameter parameter.now))) }
{
    match parameter {
        Parameter::Constant(name) => {
            page.put_word(Word::Const)?;
            page.put_name(name.as_str())
        }
        Parameter::Typed(declared) => put_declared(page, declared),
    }
}

#[tactic(auto, using(std::proofs::lemmas::List::append_assoc))]
fn put_more_parameters<'a>(page: &mut Page<'a>, others: &'a [Parameter]) -> Result<(), NoMemory>
    ensures { OnOk result (page.new ≡ page.old
        ++ yields (parts parameter_part w.Comma parameter_node (map view_parameter others.now))) }
{
    for other in others {
        page.put_word(Word::Comma)?;
        put_parameter(page, other)?;
    }
    Ok(())
}

#[tactic(auto, using(std::proofs::lemmas::List::append_assoc, crate::proofs::Yields::yields_pack, crate::proofs::Yields::yields_append))]
fn put_parameters<'a>(page: &mut Page<'a>, parameters: &'a [Parameter]) -> Result<(), NoMemory>
    ensures { OnOk result (page.new ≡ page.old
        ++ yields (parameters_node (map view_parameter parameters.now))) }
{
    let Some((first, others)) = parameters.split_first() else {
        return Ok(());
    };
    page.put_word(Word::Open)?;
    put_parameter(page, first)?;
    put_more_parameters(page, others)?;
    page.put_word(Word::Close)
}

#[tactic(auto, using(std::proofs::lemmas::List::append_assoc, crate::proofs::Yields::yields_pack, crate::proofs::Yields::yields_append))]
fn put_entry<'a>(page: &mut Page<'a>, entry: &'a Entry) -> Result<(), NoMemory>
    ensures { OnOk result (page.new ≡ page.old ++ yield (entry_node (view_entry entry.now))) }
{
    page.put_word(word_of_kind(entry.kind))?;
    page.put_name(entry.name.as_str())?;
    put_parameters(page, entry.parameters.as_slice())
}

/// The entries of a signature.
#[tactic(auto, using(std::proofs::lemmas::List::append_assoc))]
pub(crate) fn put_entries<'a>(page: &mut Page<'a>, entries: &'a [Entry]) -> Result<(), NoMemory>
    ensures { OnOk result (page.new ≡ page.old
        ++ yields (map entry_node (map view_entry entries.now))) }
{
    for entry in entries {
        put_entry(page, entry)?;
    }
    Ok(())
}

#[tactic(auto, using(std::proofs::lemmas::List::append_assoc))]
fn put_pre<'a>(page: &mut Page<'a>, pre: &'a Option<Term>) -> Result<(), NoMemory>
    ensures { OnOk result (page.new ≡ page.old ++ yields (pre_node (option_view pre.now))) }
{
    match pre {
        Some(condition) => {
            page.put_word(Word::Pre)?;
            put_term(page, condition)
        }
        None => Ok(()),
    }
}

#[tactic(auto, using(std::proofs::lemmas::List::append_assoc))]
fn put_eff<'a>(page: &mut Page<'a>, eff: &'a [Statement]) -> Result<(), NoMemory>
    ensures { OnOk result (page.new ≡ page.old ++ yields (eff_node (view_statements eff.now))) }
{
    let Some(_) = eff.split_first() else {
        return Ok(());
    };
    page.put_word(Word::Eff)?;
    put_statements(page, eff)
}

#[tactic(auto, using(std::proofs::lemmas::List::append_assoc, crate::proofs::Yields::yields_pack, crate::proofs::Yields::yields_append))]
fn put_transition<'a>(page: &mut Page<'a>, transition: &'a Transition) -> Result<(), NoMemory>
    ensures { OnOk result (page.new ≡ page.old
        ++ yield (transition_node (view_transition transition.now))) }
{
    put_entry(page, &transition.entry)?;
    put_pre(page, &transition.pre)?;
    put_eff(page, transition.eff.as_slice())
}

/// Transitions.
#[tactic(auto, using(std::proofs::lemmas::List::append_assoc))]
pub(crate) fn put_transitions<'a>(
    page: &mut Page<'a>,
    transitions: &'a [Transition],
) -> Result<(), NoMemory>
    ensures { OnOk result (page.new ≡ page.old
        ++ yields (map transition_node (map view_transition transitions.now))) }
{
    for transition in transitions {
        put_transition(page, transition)?;
    }
    Ok(())
}
