//! The checks of assignments.
ghost use Rattle.std.specs.Prelude.{◌≡◌, ◌+◌, ◌<◌, ◌^◌, Option, OnOk, IfOk, option_map};
ghost use Rattle.std.specs.Option.{is_some};
ghost use Rattle.terms.specs.TermTree.{term_tree};
ghost use Rattle.ioa_trees.specs.Trees.{PlainTerm, PlainInit};
ghost use Rattle.ioa_trees.specs.Views.{option_view, view_init};
ghost use Rattle.ioa_trees.specs.Scopes as scopes;
ghost use Rattle.ioa_trees.specs.Scopes.{Scope, named, is_variable};
ghost use Rattle.ioa_trees.specs.Sizes.{at_size, init_size};
ghost use Rattle.ioa_trees.specs.TermRules.{judge};
ghost use Rattle.ioa_trees.specs.EffectRules as rule;
ghost use Rattle.ioa_trees.specs.ValueRules.{put_in};
ghost use Rattle.ioa_typing.specs.KindViews.{shape_tree};
ghost use Rattle.ioa_typing.specs.NameViews.{names_tree};
ghost use Rattle.ioa_typing.specs.Noted.{AreNoted};
ghost use Rattle.ioa_typing.specs.TermViews.{core_tree, judged_tree, typed_tree};
ghost use Rattle.ioa_entries.specs.EffectViews.{place_kind, done_tree, judged_at};

use crate::values::{check_init, item_of};
use ioa_trees::tree::{Init, Term as TermTree};
use ioa_typing::listing::listed_of;
use ioa_typing::shape::{fits, shape_of};
use ioa_typing::typed::note_unfit;
use ioa_typing::{FaultKind, Meaning, Names, Progress, Shape, Typed, check_term};
use std::alloc::{AllocError, Global};
use terms::{Effect, Last, Term};

// The number of the state variable of this name.
fn cell_named(names: &Names, name: &str) -> Option<usize>
    ensures slot { result ≡ rule.cell_of (named name.now (names_tree names.now)) }
    ensures variable { is_some result ≡ is_variable (named name.now (names_tree names.now)) }
{
    match names.get(name) {
        Some(Meaning::Variable(slot, _)) => Some(*slot),
        _ => None,
    }
}

// The kind of the state variable of this name.
fn cell_kind<'a>(names: &'a Names, name: &str) -> Option<Shape<'a>>
    ensures { place_kind result ≡ rule.cell_kind (named name.now (names_tree names.now)) }
{
    match names.get(name) {
        Some(Meaning::Variable(_, Some(kind))) => Some(shape_of(kind)),
        _ => None,
    }
}

// Checks the index of an assignment, where there is one.
fn check_at<'a>(
    alloc: Global,
    names: &'a Names,
    index: &Option<TermTree>,
    progress: &mut Progress,
) -> Result<Option<Option<Typed<'a>>>, AllocError>
    requires room { progress.old.at + at_size (option_view index.now) < 2 ^ 32 }
    ensures at { OnOk result (progress.new.at ≡ progress.old.at + at_size (option_view index.now)) }
    ensures faults { OnOk result (AreNoted progress.old progress.new
        (rule.at_faults (names_tree names.now) progress.old.at (option_view index.now))) }
    ensures judged { IfOk result (λ j. judged_at j
        ≡ option_map (judge (names_tree names.now)) (option_view index.now)) }
{
    match index {
        None => Ok(None),
        Some(index) => {
            progress.at += 1;
            let typed = check_term(alloc, names, index, progress)?;
            progress.at += 1;
            Ok(Some(typed))
        }
    }
}

// The kind of the place on the left.
fn left_kind<'a>(kind: Option<Shape<'a>>, index: &Option<Option<Typed<'_>>>) -> Option<Shape<'a>>
    ensures { (s : Scope) (i : Option PlainTerm) → judged_at index.now ≡ option_map (judge s) i
        → place_kind result ≡ rule.left_kind (place_kind kind.entry) i }
{
    match index {
        None => kind,
        Some(_) => item_of(kind),
    }
}

// Notes an index on what is no array, and one that the array's index type doesn't take.
#[tactic(auto, using(ioa_typing::proofs::Keeps::keep_append))]
fn note_left(
    progress: &mut Progress,
    at: u32,
    kind: Option<Shape<'_>>,
    index: &Option<Option<Typed<'_>>>,
)
    requires room { at + 2 < 2 ^ 32 }
    ensures at { progress.new.at ≡ progress.old.at }
    ensures least { (s : Scope) (i : Option PlainTerm)
        → judged_at index.now ≡ option_map (judge s) i
        → AreNoted progress.old progress.new (rule.left_faults s at (place_kind kind.entry) i) }
{
    let Some(index) = index else {
        return;
    };
    let Some(kind) = kind else {
        return;
    };
    match kind {
        Shape::Array(by, _) => note_unfit(progress, shape_of(by), at + 2, index),
        Shape::Truth => progress.note_if(true, at, FaultKind::WrongType),
        Shape::Whole => progress.note_if(true, at, FaultKind::WrongType),
        Shape::Range(_, _) => progress.note_if(true, at, FaultKind::WrongType),
        Shape::Enumeration(_, _) => progress.note_if(true, at, FaultKind::WrongType),
        Shape::Seq(_, _) => progress.note_if(true, at, FaultKind::WrongType),
    }
}

// The assignment to an item of an array.
fn item_assigned(
    alloc: Global,
    slot: usize,
    kind: Shape<'_>,
    index: Typed<'_>,
    value: Term,
) -> Option<Effect>
    ensures { done_tree result
        ≡ rule.item_assigned slot (shape_tree kind.entry) (typed_tree index.entry)
        (term_tree value) }
{
    let Shape::Array(by, _) = kind else {
        drop(index);
        drop(value);
        return None;
    };
    if !fits(shape_of(by), index.shape) {
        drop(index);
        drop(value);
        return None;
    }
    let last = Last::AssignItem(slot, index.core, listed_of(by), value);
    Some(Effect::of(alloc, last))
}

fn assigned_at(
    alloc: Global,
    slot: Option<usize>,
    kind: Option<Shape<'_>>,
    index: Option<Typed<'_>>,
    value: Option<Term>,
) -> Option<Effect>
    ensures { done_tree result
        ≡ rule.at_item slot (place_kind kind.entry) (judged_tree index.entry) (core_tree value) }
{
    let Some(slot) = slot else {
        drop(index);
        drop(value);
        return None;
    };
    let Some(kind) = kind else {
        drop(index);
        drop(value);
        return None;
    };
    let Some(index) = index else {
        drop(value);
        return None;
    };
    let Some(value) = value else {
        drop(index);
        return None;
    };
    item_assigned(alloc, slot, kind, index, value)
}

fn assigned(alloc: Global, slot: Option<usize>, value: Option<Term>) -> Option<Effect>
    ensures { done_tree result ≡ rule.assigned slot (core_tree value) }
{
    let Some(slot) = slot else {
        drop(value);
        return None;
    };
    Some(Effect::of(alloc, Last::Assign(slot, value?)))
}

fn assignment_of(
    alloc: Global,
    slot: Option<usize>,
    kind: Option<Shape<'_>>,
    index: Option<Option<Typed<'_>>>,
    value: Option<Term>,
) -> Option<Effect>
    ensures { (s : Scope) (m : Option scopes.Meaning) (i : Option PlainTerm) (v : PlainInit)
        → slot ≡ rule.cell_of m → place_kind kind.entry ≡ rule.cell_kind m
        → judged_at index.entry ≡ option_map (judge s) i
        → core_tree value ≡ put_in s (rule.left_kind (rule.cell_kind m) i) v
        → done_tree result ≡ rule.assignment_of s m i v }
{
    match index {
        None => assigned(alloc, slot, value),
        Some(index) => assigned_at(alloc, slot, kind, index, value),
    }
}

/// Checks an assignment: notes its faults, goes behind it, and says what it does, if no fault is inside.
pub(crate) fn check_assignment(
    alloc: Global,
    names: &Names,
    name: &str,
    index: &Option<TermTree>,
    init: &Init,
    progress: &mut Progress,
) -> Result<Option<Effect>, AllocError>
    requires room { progress.old.at
        + (at_size (option_view index.now) + init_size (view_init init.now) + 2) < 2 ^ 32 }
    ensures at { OnOk result (progress.new.at ≡ progress.old.at
        + (at_size (option_view index.now) + init_size (view_init init.now) + 2)) }
    ensures faults { OnOk result (AreNoted progress.old progress.new
        (rule.assignment_faults (names_tree names.now) progress.old.at name.now
        (option_view index.now) (view_init init.now))) }
    ensures effect { IfOk result (λ e. done_tree e
        ≡ rule.assignment_of (names_tree names.now) (named name.now (names_tree names.now))
        (option_view index.now) (view_init init.now)) }
{
    let at = progress.at;
    let cell = cell_named(names, name);
    let kind = cell_kind(names, name);
    progress.note_if(cell.is_none(), at, FaultKind::UnknownName);
    progress.at += 1;
    let index = check_at(alloc, names, index, progress)?;
    progress.at += 1;
    let put = match check_init(alloc, names, left_kind(kind, &index), init, progress) {
        Ok(put) => put,
        Err(refused) => {
            drop(index);
            return Err(refused);
        }
    };
    note_left(progress, at, kind, &index);
    progress.note_if(put.misfit.is_some(), at, FaultKind::WrongType);
    Ok(assignment_of(alloc, cell, kind, index, put.value))
}
