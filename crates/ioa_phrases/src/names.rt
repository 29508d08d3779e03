// The readers of lists of names, and of what is declared.
ghost use Rattle.std.specs.Prelude.{◌<◌, ◌≤◌, ◌+◌, ◌∷◌, length, IfOk, map, string_bytes};
ghost use Rattle.ioa_tokens.specs.declared.Word.TheVariants as w;
ghost use Rattle.ioa_tokens.specs.Tokens.{toks_of};
ghost use Rattle.ioa_trees.specs.Nodes.{formal};
ghost use Rattle.ioa_phrases.specs.Machine.{want};
ghost use Rattle.ioa_trees.specs.Spelling.{formal_node};
ghost use Rattle.ioa_trees.specs.Views.{view_declared};
ghost use Rattle.ioa_phrases.specs.Items.{names_nodes};
ghost use Rattle.ioa_phrases.specs.Reads.{GivesLow, NamesListed};

use crate::front::{expect, expect_name, past};
use crate::stop::Stop;
use crate::types::read_type;
use ioa_tokens::{Token, Word};
use ioa_trees::tree::Declared;
use std::alloc::Global;

/// Reads a name and those behind commas.
#[tactic(auto, using(crate::proofs::Items::names_push))]
pub(crate) fn read_names<'a, 'b>(
    alloc: Global,
    tokens: &'b [Token<'a>],
) -> Result<(Vec<String>, &'b [Token<'a>]), Stop>
    ensures gives { NamesListed (λ x. names_nodes x.0.items) (λ x. toks_of x.1.now)
        (toks_of tokens.now) result }
    ensures shorter { IfOk result (λ x. length x.1.now ≤ length tokens.now) }
    ensures some { IfOk result (λ x. 0 < length x.0.items) }
{
    let (first, mut rest) = expect_name(alloc, tokens)?;
    let mut all = Vec::new(alloc);
    all.push(first)?;
    while let Some(after) = past(rest, Word::Comma) {
        let (next, after) = expect_name(alloc, after)?;
        all.push(next)?;
        rest = after;
    }
    Ok((all, rest))
}

/// Reads a name and its type, inside of one pair.
#[tactic(auto, using(crate::proofs::Moves::formal_stops))]
pub(crate) fn read_formal<'a, 'b>(
    alloc: Global,
    tokens: &'b [Token<'a>],
) -> Result<(Declared, &'b [Token<'a>]), Stop>
    ensures gives { GivesLow (λ x. formal_node (view_declared x.0)) (λ x. toks_of x.1.now)
        (want formal) 1 (toks_of tokens.now) result }
    ensures shorter { IfOk result (λ x. length x.1.now ≤ length tokens.now) }
{
    let (name, rest) = expect_name(alloc, tokens)?;
    let rest = expect(rest, Word::Colon)?;
    let (of, rest) = read_type(alloc, rest, 1)?;
    Ok((Declared { name, of }, rest))
}
