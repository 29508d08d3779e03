//! The tokens of type definitions, of the automata in their order, of components, and of whole sources.
ghost use Rattle.std.specs.Prelude.{◌≡◌, ◌++◌, OnOk, map, string_bytes};
ghost use Rattle.ioa_tokens.specs.declared.Word.TheVariants as w;
ghost use Rattle.ioa_trees.specs.Nodes.{argument_part, component_part, yield, yields};
ghost use Rattle.ioa_trees.specs.Trees.{Enumeration};
ghost use Rattle.ioa_trees.specs.Spelling.{parts, node, arguments_node, component_node, components_nodes, composed_nodes, hidden_node, type_body_node, type_definition_node, automata_nodes, spell};
ghost use Rattle.ioa_printer.specs.Printed.{automaton_toks, automata_toks};
ghost use Rattle.ioa_trees.specs.Views.{view, view_automaton, view_component, view_composed, view_type_body, view_type_definition, view_source};

use crate::automata::put_basic;
use crate::names::put_more_names;
use crate::term::put_term;
use crate::types::put_type;
use ioa_tokens::{Page, Word};
use ioa_trees::tree::{
    Automaton, ComponentTree, Composed, SourceTree, Term, TypeBody, TypeDefinition,
};
use terms::NoMemory;

#[tactic(auto, using(std::proofs::lemmas::List::append_assoc, crate::proofs::Yields::yields_pack))]
fn put_enumeration<'a>(page: &mut Page<'a>, names: &'a [String]) -> Result<(), NoMemory>
    ensures { OnOk result (page.new ≡ page.old
        ++ yield (type_body_node (Enumeration (map string_bytes names.now)))) }
{
    page.put_word(Word::Enumeration)?;
    let Some((first, others)) = names.split_first() else {
        return Ok(());
    };
    page.put_word(Word::Of)?;
    page.put_name(first.as_str())?;
    put_more_names(page, others)
}

#[tactic(auto, using(std::proofs::lemmas::List::append_assoc))]
fn put_type_body<'a>(page: &mut Page<'a>, body: &'a TypeBody) -> Result<(), NoMemory>
    ensures { OnOk result (page.new ≡ page.old
        ++ yield (type_body_node (view_type_body body.now))) }
{
    match body {
        TypeBody::Same(of) => put_type(page, of),
        TypeBody::Enumeration(names) => put_enumeration(page, names.as_slice()),
    }
}

#[tactic(auto, using(std::proofs::lemmas::List::append_assoc))]
fn put_type_definition<'a>(
    page: &mut Page<'a>,
    definition: &'a TypeDefinition,
) -> Result<(), NoMemory>
    ensures { OnOk result (page.new ≡ page.old
        ++ yield (type_definition_node (view_type_definition definition.now))) }
{
    page.put_word(Word::Type)?;
    page.put_name(definition.name.as_str())?;
    page.put_word(Word::Equal)?;
    put_type_body(page, &definition.body)
}

#[tactic(auto, using(std::proofs::lemmas::List::append_assoc))]
fn put_type_definitions<'a>(
    page: &mut Page<'a>,
    definitions: &'a [TypeDefinition],
) -> Result<(), NoMemory>
    ensures { OnOk result (page.new ≡ page.old
        ++ yields (map type_definition_node (map view_type_definition definitions.now))) }
{
    for definition in definitions {
        put_type_definition(page, definition)?;
    }
    Ok(())
}

#[tactic(auto, using(std::proofs::lemmas::List::append_assoc))]
fn put_automaton<'a>(page: &mut Page<'a>, automaton: &'a Automaton) -> Result<(), NoMemory>
    ensures { OnOk result (page.new ≡ page.old ++ automaton_toks (view_automaton automaton.now)) }
{
    page.put_word(Word::Automaton)?;
    page.put_name(automaton.name.as_str())?;
    put_basic(page, automaton)
}

#[tactic(auto, using(std::proofs::lemmas::List::append_assoc))]
fn put_each_automaton<'a>(page: &mut Page<'a>, automata: &'a [Automaton]) -> Result<(), NoMemory>
    ensures { OnOk result (page.new ≡ page.old ++ automata_toks (map view_automaton automata.now)) }
{
    for automaton in automata {
        put_automaton(page, automaton)?;
    }
    Ok(())
}

// The automata that aren't composed, and the name of the composed one.
#[tactic(auto, using(std::proofs::lemmas::List::append_assoc, crate::proofs::Printed::automata_laid))]
fn put_automata<'a>(
    page: &mut Page<'a>,
    automata: &'a [Automaton],
    composed: &'a str,
) -> Result<(), NoMemory>
    ensures { OnOk result (page.new ≡ page.old
        ++ yields (automata_nodes (map view_automaton automata.now) composed.now)) }
{
    let Some(_) = automata.split_first() else {
        return Ok(());
    };
    put_each_automaton(page, automata)?;
    page.put_word(Word::Automaton)?;
    page.put_name(composed)
}

#[tactic(auto, using(std::proofs::lemmas::List::append_assoc))]
fn put_more_arguments<'a>(page: &mut Page<'a>, others: &'a [Term]) -> Result<(), NoMemory>
    ensures { OnOk result (page.new ≡ page.old
        ++ yields (parts argument_part w.Comma node (map view others.now))) }
{
    for other in others {
        page.put_word(Word::Comma)?;
        put_term(page, other)?;
    }
    Ok(())
}

#[tactic(auto, using(std::proofs::lemmas::List::append_assoc, crate::proofs::Yields::yields_pack, crate::proofs::Yields::yields_append))]
fn put_arguments<'a>(page: &mut Page<'a>, arguments: &'a [Term]) -> Result<(), NoMemory>
    ensures { OnOk result (page.new ≡ page.old
        ++ yields (arguments_node (map view arguments.now))) }
{
    let Some((first, others)) = arguments.split_first() else {
        return Ok(());
    };
    page.put_word(Word::Open)?;
    put_term(page, first)?;
    put_more_arguments(page, others)?;
    page.put_word(Word::Close)
}

#[tactic(auto, using(std::proofs::lemmas::List::append_assoc, crate::proofs::Yields::yields_pack))]
fn put_component<'a>(page: &mut Page<'a>, component: &'a ComponentTree) -> Result<(), NoMemory>
    ensures { OnOk result (page.new ≡ page.old
        ++ yield (component_node (view_component component.now))) }
{
    page.put_name(component.name.as_str())?;
    page.put_word(Word::Colon)?;
    page.put_name(component.automaton.as_str())?;
    put_arguments(page, component.arguments.as_slice())
}

#[tactic(auto, using(std::proofs::lemmas::List::append_assoc))]
fn put_more_components<'a>(page: &mut Page<'a>, others: &'a [ComponentTree]) -> Result<(), NoMemory>
    ensures { OnOk result (page.new ≡ page.old
        ++ yields (parts component_part w.Semicolon component_node
        (map view_component others.now))) }
{
    for other in others {
        page.put_word(Word::Semicolon)?;
        put_component(page, other)?;
    }
    Ok(())
}

#[tactic(auto, using(std::proofs::lemmas::List::append_assoc))]
fn put_components<'a>(page: &mut Page<'a>, components: &'a [ComponentTree]) -> Result<(), NoMemory>
    ensures { OnOk result (page.new ≡ page.old
        ++ yields (components_nodes (map view_component components.now))) }
{
    let Some((first, others)) = components.split_first() else {
        return Ok(());
    };
    put_component(page, first)?;
    put_more_components(page, others)
}

// The hidden outputs, where there are some.
fn put_hidden<'a>(page: &mut Page<'a>, names: &'a [String]) -> Result<(), NoMemory>
    ensures { OnOk result (page.new ≡ page.old
        ++ yields (hidden_node (map string_bytes names.now))) }
{
    let Some((first, others)) = names.split_first() else {
        return Ok(());
    };
    page.put_word(Word::Hidden)?;
    page.put_name(first.as_str())?;
    put_more_names(page, others)?;
    Ok(())
}

// The components of the composed automaton, and its hidden outputs.
#[tactic(auto, using(std::proofs::lemmas::List::append_assoc, crate::proofs::Yields::yields_append))]
fn put_composed<'a>(page: &mut Page<'a>, composed: &'a Composed) -> Result<(), NoMemory>
    ensures { OnOk result (page.new ≡ page.old
        ++ yields (composed_nodes (view_composed composed.now))) }
{
    page.put_word(Word::Components)?;
    put_components(page, composed.components.as_slice())?;
    put_hidden(page, composed.hidden.as_slice())
}

/// A whole source.
pub(crate) fn put_source<'a>(page: &mut Page<'a>, source: &'a SourceTree) -> Result<(), NoMemory>
    ensures { OnOk result (page.new ≡ page.old ++ spell (view_source source.now)) }
{
    put_type_definitions(page, source.types.as_slice())?;
    put_automata(
        page,
        source.automata.as_slice(),
        source.composed.name.as_str(),
    )?;
    put_composed(page, &source.composed)?;
    Ok(())
}
