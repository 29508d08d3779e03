//! The tokens of names, and of names with their types.
ghost use Rattle.std.specs.Prelude.{◌≡◌, ◌++◌, OnOk, map, string_bytes};
ghost use Rattle.ioa_tokens.specs.declared.Word.TheVariants as w;
ghost use Rattle.ioa_trees.specs.Nodes.{name_part, yield, yields};
ghost use Rattle.ioa_trees.specs.Spelling.{formal_node, named, parts};
ghost use Rattle.ioa_trees.specs.Views.{view_declared};

use crate::types::put_type;
use ioa_tokens::{Page, Word};
use ioa_trees::tree::Declared;
use terms::NoMemory;

/// Names, each behind a `,`.
#[tactic(auto, using(std::proofs::lemmas::List::append_assoc))]
pub(crate) fn put_more_names<'a>(page: &mut Page<'a>, others: &'a [String]) -> Result<(), NoMemory>
    ensures { OnOk result (page.new ≡ page.old
        ++ yields (parts name_part w.Comma named (map string_bytes others.now))) }
{
    for other in others {
        page.put_word(Word::Comma)?;
        page.put_name(other.as_str())?;
    }
    Ok(())
}

/// A name, a `:` and its type.
#[tactic(auto, using(std::proofs::lemmas::List::append_assoc))]
pub(crate) fn put_declared<'a>(page: &mut Page<'a>, declared: &'a Declared) -> Result<(), NoMemory>
    ensures { OnOk result (page.new ≡ page.old
        ++ yield (formal_node (view_declared declared.now))) }
{
    page.put_name(declared.name.as_str())?;
    page.put_word(Word::Colon)?;
    put_type(page, &declared.of)
}
