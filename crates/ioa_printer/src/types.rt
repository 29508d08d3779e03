//! The tokens of types.
ghost use Rattle.std.specs.Prelude.{◌≡◌, ◌++◌, ◌∷◌, [], OnOk};
ghost use Rattle.ioa_tokens.specs.declared.Word.TheVariants as w;
ghost use Rattle.ioa_tokens.specs.Tokens.{Key};
ghost use Rattle.ioa_trees.specs.Nodes.{yield};
ghost use Rattle.ioa_trees.specs.Trees as plain;
ghost use Rattle.ioa_trees.specs.Spelling.{signed_node, type_node};
ghost use Rattle.ioa_trees.specs.Views.{view_type};

use ioa_tokens::{Page, Word};
use ioa_trees::tree::{Signed, TypeTree};
use terms::NoMemory;

fn put_signed(page: &mut Page<'_>, signed: Signed) -> Result<(), NoMemory>
    ensures { OnOk result (page.new ≡ page.old ++ yield (signed_node signed)) }
{
    if signed.is_negative {
        page.put_word(Word::Minus)?;
    }
    page.put_number(signed.size)
}

// A range of whole numbers.
#[tactic(auto, using(std::proofs::lemmas::List::append_assoc))]
fn put_range(page: &mut Page<'_>, least: Signed, greatest: Signed) -> Result<(), NoMemory>
    ensures { OnOk result (page.new ≡ page.old ++ yield (type_node (plain.Range least greatest))) }
{
    put_signed(page, least)?;
    page.put_word(Word::DotDot)?;
    put_signed(page, greatest)
}

#[cycle(printing_types)]
#[tactic(auto, using(std::proofs::lemmas::List::append_assoc))]
pub(crate) fn put_type<'a>(page: &mut Page<'a>, of: &'a TypeTree) -> Result<(), NoMemory>
    ensures { OnOk result (page.new ≡ page.old ++ yield (type_node (view_type of.now))) }
{
    match of {
        TypeTree::Bool => page.put_word(Word::Bool),
        TypeTree::Int => page.put_word(Word::Int),
        TypeTree::Range(least, greatest) => put_range(page, *least, *greatest),
        TypeTree::Named(name) => page.put_name(name.as_str()),
        TypeTree::Seq(item, most) => put_sequence(page, item, *most),
        TypeTree::Array(index, item) => {
            put_first(page, Word::Array, index)?;
            put_second(page, item)
        }
    }
}

#[cycle(printing_types)]
#[tactic(auto, using(std::proofs::lemmas::List::append_assoc))]
fn put_sequence<'a>(page: &mut Page<'a>, item: &'a TypeTree, most: u64) -> Result<(), NoMemory>
    ensures { OnOk result (page.new ≡ page.old
        ++ yield (type_node (plain.SeqOf (view_type item.now) most))) }
{
    put_first(page, Word::Seq, item)?;
    page.put_number(most)?;
    page.put_word(Word::CloseBracket)
}

// `seq` or `array`, and the first of the two in its brackets.
#[cycle(printing_types)]
#[tactic(auto, using(std::proofs::lemmas::List::append_assoc))]
fn put_first<'a>(page: &mut Page<'a>, word: Word, first: &'a TypeTree) -> Result<(), NoMemory>
    ensures { OnOk result (page.new ≡ page.old ++ (Key word ∷ (Key w.OpenBracket
        ∷ (yield (type_node (view_type first.now)) ++ (Key w.Comma ∷ []))))) }
{
    page.put_word(word)?;
    page.put_word(Word::OpenBracket)?;
    put_type(page, first)?;
    page.put_word(Word::Comma)
}

// The items of an array, and its end.
#[cycle(printing_types)]
#[tactic(auto, using(std::proofs::lemmas::List::append_assoc))]
fn put_second<'a>(page: &mut Page<'a>, item: &'a TypeTree) -> Result<(), NoMemory>
    ensures { OnOk result (page.new ≡ page.old
        ++ (yield (type_node (view_type item.now)) ++ (Key w.CloseBracket ∷ []))) }
{
    put_type(page, item)?;
    page.put_word(Word::CloseBracket)
}
