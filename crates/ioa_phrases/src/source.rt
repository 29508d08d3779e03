// The reader of sources.
ghost use Rattle.std.specs.Prelude.{◌≡◌, ◌≤◌, ◌<◌, ◌∷◌, ◌++◌, [], length, map, true, IfOk, string_bytes};
ghost use Rattle.ioa_tokens.specs.declared.Word.TheVariants as w;
ghost use Rattle.ioa_tokens.specs.Tokens.{toks_of};
ghost use Rattle.ioa_trees.specs.Grammar.{whole};
ghost use Rattle.ioa_trees.specs.Spelling.{components_nodes, composed_nodes, hidden_node, key, source_nodes};
ghost use Rattle.ioa_trees.specs.Views.{view_component, view_composed, view_source};
ghost use Rattle.ioa_phrases.specs.Blocks.{Exact, Goes, SomeTypes, automata_parts, component_parts, definition_item, hidden_parts};

use crate::automata::read_automata;
use crate::components::read_component;
use crate::definitions::read_definition;
use crate::front::{expect, past};
use crate::names::read_names;
use crate::stop::Stop;
use ioa_tokens::{Token, Word};
use ioa_trees::tree::{ComponentTree, Composed, SourceTree, TypeDefinition};
use std::alloc::Global;

// What follows the first `type`.
#[tactic(auto, using(crate::proofs::Rows::some_push, crate::proofs::Moves::no_type_definition))]
fn read_some_types<'a, 'b>(
    alloc: Global,
    tokens: &'b [Token<'a>],
) -> Result<(Vec<TypeDefinition>, &'b [Token<'a>]), Stop>
    ensures goes { SomeTypes (λ x. map definition_item x.0.items) (λ x. toks_of x.1.now)
        (toks_of tokens.now) result }
    ensures shorter { IfOk result (λ x. length x.1.now ≤ length tokens.now) }
{
    let (first, mut rest) = read_definition(alloc, tokens)?;
    let mut all = Vec::new(alloc);
    all.push(first)?;
    while let Some(after) = past(rest, Word::Type) {
        let (next, after) = read_definition(alloc, after)?;
        all.push(next)?;
        rest = after;
    }
    Ok((all, rest))
}

// The definitions of types, where there are some.
#[tactic(auto, using(crate::proofs::Moves::no_type_definition))]
fn read_types<'a, 'b>(
    alloc: Global,
    tokens: &'b [Token<'a>],
) -> Result<(Vec<TypeDefinition>, &'b [Token<'a>]), Stop>
    ensures goes { Goes (λ x. map definition_item x.0.items)
        (λ x. toks_of x.1.now) whole automata_parts (toks_of tokens.now) result }
    ensures shorter { IfOk result (λ x. length x.1.now ≤ length tokens.now) }
{
    let Some(rest) = past(tokens, Word::Type) else {
        return Ok((Vec::new(alloc), tokens));
    };
    let (all, rest) = read_some_types(alloc, rest)?;
    Ok((all, rest))
}

// The components of the composed automaton.
#[tactic(auto, using(crate::proofs::Moves::no_word, crate::proofs::Items::listed_push))]
fn read_components<'a, 'b>(
    alloc: Global,
    tokens: &'b [Token<'a>],
) -> Result<(Vec<ComponentTree>, &'b [Token<'a>]), Stop>
    ensures goes { Goes (λ x. key w.Components ∷ components_nodes (map view_component x.0.items))
        (λ x. toks_of x.1.now) component_parts hidden_parts (toks_of tokens.now) result }
    ensures shorter { IfOk result (λ x. length x.1.now ≤ length tokens.now) }
{
    let rest = expect(tokens, Word::Components)?;
    let (first, mut rest) = read_component(alloc, rest)?;
    let mut all = Vec::new(alloc);
    all.push(first)?;
    while let Some(after) = past(rest, Word::Semicolon) {
        let (next, after) = read_component(alloc, after)?;
        all.push(next)?;
        rest = after;
    }
    Ok((all, rest))
}

// The hidden outputs, where there are some.
#[tactic(auto, using(crate::proofs::Moves::no_hidden, crate::proofs::Joins::hidden_made))]
fn read_hidden<'a, 'b>(
    alloc: Global,
    tokens: &'b [Token<'a>],
) -> Result<(Vec<String>, &'b [Token<'a>]), Stop>
    ensures goes { Goes (λ x. hidden_node (map string_bytes x.0.items))
        (λ x. toks_of x.1.now) hidden_parts [] (toks_of tokens.now) result }
    ensures shorter { IfOk result (λ x. length x.1.now ≤ length tokens.now) }
{
    let Some(rest) = past(tokens, Word::Hidden) else {
        return Ok((Vec::new(alloc), tokens));
    };
    let (all, rest) = read_names(alloc, rest)?;
    Ok((all, rest))
}

// What follows the name of the composed automaton.
fn read_composed<'a, 'b>(
    alloc: Global,
    name: String,
    tokens: &'b [Token<'a>],
) -> Result<(Composed, &'b [Token<'a>]), Stop>
    ensures goes { Goes (λ x. composed_nodes (view_composed x.0))
        (λ x. toks_of x.1.now) component_parts [] (toks_of tokens.now) result }
    ensures named { IfOk result (λ x. string_bytes x.0.name ≡ string_bytes name) }
    ensures shorter { IfOk result (λ x. length x.1.now ≤ length tokens.now) }
{
    let (components, rest) = read_components(alloc, tokens)?;
    let (hidden, rest) = read_hidden(alloc, rest)?;
    Ok((
        Composed {
            name,
            components,
            hidden,
        },
        rest,
    ))
}

// A source, and what is left behind it.
fn read_front<'a, 'b>(
    alloc: Global,
    tokens: &'b [Token<'a>],
) -> Result<(SourceTree, &'b [Token<'a>]), Stop>
    ensures goes { Goes (λ x. source_nodes (view_source x.0)) (λ x. toks_of x.1.now) whole []
        (toks_of tokens.now) result }
    ensures shorter { IfOk result (λ x. length x.1.now ≤ length tokens.now) }
{
    let (types, rest) = read_types(alloc, tokens)?;
    let (automata, name, rest) = read_automata(alloc, rest)?;
    let (composed, rest) = read_composed(alloc, name, rest)?;
    Ok((
        SourceTree {
            types,
            automata,
            composed,
        },
        rest,
    ))
}

/// Reads a whole source. Stops as each reader does, and with what is left where something follows the source.
pub fn read_source(alloc: Global, tokens: &[Token]) -> Result<SourceTree, Stop>
    ensures exact { Exact (toks_of tokens.now) result }
{
    let (source, rest) = read_front(alloc, tokens)?;
    if rest.is_empty() {
        Ok(source)
    } else {
        Err(Stop::Syntax(rest.len()))
    }
}
