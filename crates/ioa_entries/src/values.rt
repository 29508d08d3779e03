//! The checks of values that are put in places.
ghost use Rattle.std.specs.Prelude.{◌≡◌, ◌+◌, ◌<◌, ◌^◌, None, OnOk, IfOk};
ghost use Rattle.terms.specs.TermTree as core;
ghost use Rattle.ioa_trees.specs.Trees as tree;
ghost use Rattle.ioa_trees.specs.Trees.{PlainInit, PlainTerm};
ghost use Rattle.ioa_trees.specs.Faults.{at_fault};
ghost use Rattle.ioa_trees.specs.Scopes.{Scope};
ghost use Rattle.ioa_trees.specs.EffectRules.{item_of};
ghost use Rattle.ioa_trees.specs.Kinds as kinds;
ghost use Rattle.ioa_trees.specs.Sizes.{init_size};
ghost use Rattle.ioa_trees.specs.ValueRules as rule;
ghost use Rattle.ioa_trees.specs.TermRules.{judge, on_core};
ghost use Rattle.ioa_trees.specs.Views.{view_init};
ghost use Rattle.ioa_typing.specs.KindViews.{kind_tree};
ghost use Rattle.ioa_typing.specs.NameViews.{names_tree};
ghost use Rattle.ioa_typing.specs.Noted.{AreNoted};
ghost use Rattle.ioa_typing.specs.TermViews.{core_tree, judged_tree};
ghost use Rattle.ioa_entries.specs.EffectViews.{place_kind, misfit_faults};

use ioa_trees::tree::Init;
use ioa_typing::listing::small_count;
use ioa_typing::shape::{fits, is_seq, shape_of};
use ioa_typing::typed::value_in;
use ioa_typing::{Kind, Names, Progress, Shape, Typed, check_term};
use std::alloc::{AllocError, Global};
use terms::{Operand, Term};

/// A value in its place: what it means there, and the token of the innermost value that doesn't fit.
#[derive(Drop)]
pub struct Put {
    pub value: Option<Term>,
    pub misfit: Option<u32>,
}

// The kind of the items of an array.
pub(crate) fn item_of(kind: Option<Shape<'_>>) -> Option<Shape<'_>>
    ensures { place_kind result ≡ item_of (place_kind kind.entry) }
{
    match kind? {
        Shape::Array(_, item) => Some(shape_of(item)),
        Shape::Truth => None,
        Shape::Whole => None,
        Shape::Range(_, _) => None,
        Shape::Enumeration(_, _) => None,
        Shape::Seq(_, _) => None,
    }
}

fn empty_in(alloc: Global, kind: Option<Shape<'_>>, at: u32) -> Put
    ensures value { (s : Scope) → core_tree result.value
        ≡ rule.put_in s (place_kind kind.entry) tree.Empty }
    ensures misfit { (s : Scope) → misfit_faults result.misfit
        ≡ rule.misfits s (place_kind kind.entry) at tree.Empty }
{
    let (value, misfit) = match kind {
        None => (None, None),
        Some(kind) => {
            if is_seq(kind) {
                (Some(Term::of(alloc, Operand::Empty)), None)
            } else {
                (None, Some(at))
            }
        }
    };
    Put { value, misfit }
}

// An array of so many items, all of one value.
fn filled(alloc: Global, index: &Kind, item: Option<Term>) -> Result<Option<Term>, AllocError>
    ensures { IfOk result (λ t. core_tree t
        ≡ on_core (core.Fill (kinds.small (kinds.count (kind_tree index.now)))) (core_tree item)) }
{
    match item {
        None => Ok(None),
        Some(item) => {
            let item = Box::new(alloc, item)?;
            Ok(Some(Term::of(alloc, Operand::Fill(small_count(index), item))))
        }
    }
}

fn fill_in(alloc: Global, kind: Option<Shape<'_>>, item: Put, at: u32) -> Result<Put, AllocError>
    ensures value { IfOk result (λ p. (s : Scope) (v : PlainInit)
        → core_tree item.value ≡ rule.put_in s (item_of (place_kind kind.entry)) v
        → core_tree p.value ≡ rule.put_in s (place_kind kind.entry) (tree.Fill v)) }
    ensures misfit { IfOk result (λ p. (s : Scope) (v : PlainInit)
        → misfit_faults item.misfit ≡ rule.misfits s (item_of (place_kind kind.entry)) (at + 2) v
        → misfit_faults p.misfit ≡ rule.misfits s (place_kind kind.entry) at (tree.Fill v)) }
{
    let Some(kind) = kind else {
        drop(item);
        return Ok(Put {
            value: None,
            misfit: None,
        });
    };
    let Shape::Array(index, _) = kind else {
        drop(item);
        return Ok(misfit(at));
    };
    let value = filled(alloc, index, item.value)?;
    Ok(Put {
        value,
        misfit: item.misfit,
    })
}

fn misfit(at: u32) -> Put
    ensures value { core_tree result.value ≡ None }
    ensures misfit { misfit_faults result.misfit ≡ at_fault at 12 }
{
    Put {
        value: None,
        misfit: Some(at),
    }
}

fn misfit_of(kind: Option<Shape<'_>>, typed: &Option<Typed<'_>>, at: u32) -> Option<u32>
    ensures { (s : Scope) (t : PlainTerm) → judged_tree typed.now ≡ judge s t
        → misfit_faults result ≡ rule.misfits s (place_kind kind.entry) at (tree.Value t) }
{
    match (kind, typed) {
        (Some(kind), Some(typed)) => {
            if fits(kind, typed.shape) {
                None
            } else {
                Some(at)
            }
        }
        _ => None,
    }
}

fn value_of(
    alloc: Global,
    kind: Option<Shape<'_>>,
    typed: Option<Typed<'_>>,
) -> Result<Option<Term>, AllocError>
    ensures { IfOk result (λ v. (s : Scope) (t : PlainTerm) → judged_tree typed.entry ≡ judge s t
        → core_tree v ≡ rule.put_in s (place_kind kind.entry) (tree.Value t)) }
{
    match kind {
        None => {
            drop(typed);
            Ok(None)
        }
        Some(kind) => {
            let value = value_in(alloc, kind, typed)?;
            Ok(value)
        }
    }
}

/// Checks a value that is put in a place of this kind: notes the faults of the terms inside, and goes behind it. A value that doesn't
/// fit isn't noted.
pub fn check_init(
    alloc: Global,
    names: &Names,
    kind: Option<Shape<'_>>,
    init: &Init,
    progress: &mut Progress,
) -> Result<Put, AllocError>
    requires room { progress.old.at + init_size (view_init init.now) < 2 ^ 32 }
    ensures at { OnOk result (progress.new.at ≡ progress.old.at + init_size (view_init init.now)) }
    ensures faults { OnOk result (AreNoted progress.old progress.new
        (rule.inner_faults (names_tree names.now) progress.old.at (view_init init.now))) }
    ensures value { IfOk result (λ p. core_tree p.value
        ≡ rule.put_in (names_tree names.now) (place_kind kind.entry) (view_init init.now)) }
    ensures misfit { IfOk result (λ p. misfit_faults p.misfit
        ≡ rule.misfits (names_tree names.now) (place_kind kind.entry) progress.old.at
        (view_init init.now)) }
{
    let at = progress.at;
    match init {
        Init::Empty => {
            progress.at += 1;
            Ok(empty_in(alloc, kind, at))
        }
        Init::Fill(item) => {
            progress.at += 2;
            let item = check_init(alloc, names, item_of(kind), item, progress)?;
            progress.at += 1;
            let put = fill_in(alloc, kind, item, at)?;
            Ok(put)
        }
        Init::Term(term) => {
            let typed = check_term(alloc, names, term, progress)?;
            let misfit = misfit_of(kind, &typed, at);
            let value = value_of(alloc, kind, typed)?;
            Ok(Put { value, misfit })
        }
    }
}
