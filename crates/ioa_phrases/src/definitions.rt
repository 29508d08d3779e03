// The reader of definitions of types, inside of no pair.
ghost use Rattle.std.specs.Prelude.{◌≤◌, ◌∷◌, [], length, IfOk};
ghost use Rattle.ioa_tokens.specs.declared.Word.TheVariants as w;
ghost use Rattle.ioa_tokens.specs.Tokens.{toks_of};
ghost use Rattle.ioa_trees.specs.Nodes.{type, type_body, type_definition};
ghost use Rattle.ioa_trees.specs.Grammar.{definition_parts, enumeration_parts};
ghost use Rattle.ioa_phrases.specs.Machine.{want, at};
ghost use Rattle.ioa_trees.specs.Spelling.{key, type_body_node, type_definition_node};
ghost use Rattle.ioa_trees.specs.Views.{view_type_body, view_type_definition};
ghost use Rattle.ioa_phrases.specs.Reads.{Gives, GivesLow};

use crate::front::{expect, expect_name, past};
use crate::names::read_names;
use crate::stop::Stop;
use crate::types::read_type;
use ioa_tokens::{Token, Word};
use ioa_trees::tree::{TypeBody, TypeDefinition};
use std::alloc::Global;

// What follows `enumeration`.
#[tactic(auto, using(crate::proofs::Items::enumeration_made))]
fn read_enumeration<'a, 'b>(
    alloc: Global,
    tokens: &'b [Token<'a>],
) -> Result<(TypeBody, &'b [Token<'a>]), Stop>
    ensures gives { GivesLow (λ x. type_body_node (view_type_body x.0)) (λ x. toks_of x.1.now)
        (λ k. at type_body (key w.Enumeration ∷ []) enumeration_parts k) 0
        (toks_of tokens.now) result }
    ensures shorter { IfOk result (λ x. length x.1.now ≤ length tokens.now) }
{
    let rest = expect(tokens, Word::Of)?;
    let (names, rest) = read_names(alloc, rest)?;
    Ok((TypeBody::Enumeration(names), rest))
}

fn read_same<'a, 'b>(
    alloc: Global,
    tokens: &'b [Token<'a>],
) -> Result<(TypeBody, &'b [Token<'a>]), Stop>
    ensures gives { Gives (λ x. type_body_node (view_type_body x.0)) (λ x. toks_of x.1.now)
        (want type) 0 (toks_of tokens.now) result }
    ensures shorter { IfOk result (λ x. length x.1.now ≤ length tokens.now) }
{
    let (of, rest) = read_type(alloc, tokens, 0)?;
    Ok((TypeBody::Same(of), rest))
}

#[tactic(auto, using(crate::proofs::Moves::body_gives))]
fn read_type_body<'a, 'b>(
    alloc: Global,
    tokens: &'b [Token<'a>],
) -> Result<(TypeBody, &'b [Token<'a>]), Stop>
    ensures gives { GivesLow (λ x. type_body_node (view_type_body x.0)) (λ x. toks_of x.1.now)
        (want type_body) 0 (toks_of tokens.now) result }
    ensures shorter { IfOk result (λ x. length x.1.now ≤ length tokens.now) }
{
    if let Some(rest) = past(tokens, Word::Enumeration) {
        return read_enumeration(alloc, rest);
    }
    read_same(alloc, tokens)
}

/// Reads what follows `type`.
pub(crate) fn read_definition<'a, 'b>(
    alloc: Global,
    tokens: &'b [Token<'a>],
) -> Result<(TypeDefinition, &'b [Token<'a>]), Stop>
    ensures gives { GivesLow (λ x. type_definition_node (view_type_definition x.0))
        (λ x. toks_of x.1.now) (λ k. at type_definition (key w.Type ∷ []) definition_parts k) 0
        (toks_of tokens.now) result }
    ensures shorter { IfOk result (λ x. length x.1.now ≤ length tokens.now) }
{
    let (name, rest) = expect_name(alloc, tokens)?;
    let rest = expect(rest, Word::Equal)?;
    let (body, rest) = read_type_body(alloc, rest)?;
    Ok((TypeDefinition { name, body }, rest))
}
