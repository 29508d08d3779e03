//! The checks of terms.
ghost use Rattle.std.specs.Prelude.{◌≡◌, ◌+◌, ◌<◌, ◌^◌, ◌++◌, map, OnOk, IfOk};
ghost use Rattle.ioa_trees.specs.Sizes.{size, indexes_size, joined_size, factor_size, factors_size, addends_size};
ghost use Rattle.ioa_trees.specs.Kinds as kinds;
ghost use Rattle.ioa_trees.specs.TermRules as rule;
ghost use Rattle.ioa_trees.specs.Trees as plain;
ghost use Rattle.ioa_trees.specs.Trees.{no_factor, more_factors, pack_terms, pack_factors, pack_addends};
ghost use Rattle.ioa_trees.specs.Views.{view, view_factor, view_addend};
ghost use Rattle.ioa_typing.specs.NameViews.{names_tree};
ghost use Rattle.ioa_typing.specs.Noted.{AreNoted};
ghost use Rattle.ioa_typing.specs.TermViews.{core_tree, judged_tree};

use crate::fault::FaultKind;
use crate::names::Names;
use crate::operators::{
    check_name, end_compare, end_minus, end_not, join_truth, join_whole, known, modulo_of, of_core,
    operator_of,
};
use crate::progress::Progress;
use crate::sequences::{end_append, end_call, end_element};
use crate::shape::Shape;
use crate::typed::{Typed, note_unless_truth, note_unless_whole, truth_of, whole_of};
use ioa_trees::tree::{Addend, Call, Factor, Relation, Term};
use std::alloc::{AllocError, Global};
use terms::{Operator, Scalar};

/// Checks a term: notes its faults, goes behind it, and says what it means, if no fault is inside.
#[cycle(checking_terms)]
pub fn check_term<'a>(
    alloc: Global,
    names: &'a Names,
    term: &Term,
    progress: &mut Progress,
) -> Result<Option<Typed<'a>>, AllocError>
    requires room { progress.old.at + size (view term.now) < 2 ^ 32 }
    ensures at { OnOk result (progress.new.at ≡ progress.old.at + size (view term.now)) }
    ensures faults { OnOk result (AreNoted progress.old progress.new
        (rule.faults (names_tree names.now) progress.old.at (view term.now))) }
    ensures meant { IfOk result (λ j. judged_tree j
        ≡ rule.judge (names_tree names.now) (view term.now)) }
{
    let at = progress.at;
    match term {
        Term::Number(number) => Ok(known(
            alloc,
            progress,
            Scalar::Int(number.cast_signed()),
            Shape::Whole,
        )),
        Term::True => Ok(known(alloc, progress, Scalar::Bool(true), Shape::Truth)),
        Term::False => Ok(known(alloc, progress, Scalar::Bool(false), Shape::Truth)),
        Term::Name(name) => {
            progress.at += 1;
            Ok(check_name(alloc, names, name.as_str(), at, progress))
        }
        Term::Group(inner) => check_group(alloc, names, inner, progress),
        Term::Call(call, of) => check_call(alloc, names, *call, of, progress),
        Term::Minus(of) => check_minus(alloc, names, of, progress),
        Term::Not(of) => check_not(alloc, names, of, progress),
        Term::Append(list, item) => {
            progress.at += 2;
            let list = check_term(alloc, names, list, progress)?;
            let found = check_item(alloc, names, list, at + 2, item, progress)?;
            Ok(found)
        }
        Term::Index(of, indexes) => {
            let of = check_term(alloc, names, of, progress)?;
            let found = check_indexes(alloc, names, of, at, indexes.as_slice(), progress)?;
            Ok(found)
        }
        Term::Product(of, factors) => {
            let first = check_term(alloc, names, of, progress)?;
            let found = check_product(alloc, names, first, at, factors.as_slice(), progress)?;
            Ok(found)
        }
        Term::Sum(of, addends) => {
            let first = check_term(alloc, names, of, progress)?;
            let found = check_sum(alloc, names, first, at, addends.as_slice(), progress)?;
            Ok(found)
        }
        Term::Compare(left, relation, right) => {
            let left = check_term(alloc, names, left, progress)?;
            let found = check_right(alloc, names, left, *relation, right, progress)?;
            Ok(found)
        }
        Term::And(of, others) => {
            let first = check_term(alloc, names, of, progress)?;
            let found = check_joined(
                alloc,
                names,
                Operator::Both,
                first,
                at,
                others.as_slice(),
                progress,
            )?;
            Ok(found)
        }
        Term::Or(of, others) => {
            let first = check_term(alloc, names, of, progress)?;
            let found = check_joined(
                alloc,
                names,
                Operator::Either,
                first,
                at,
                others.as_slice(),
                progress,
            )?;
            Ok(found)
        }
    }
}

// A term in parentheses.
#[cycle(checking_terms)]
fn check_group<'a>(
    alloc: Global,
    names: &'a Names,
    inner: &Term,
    progress: &mut Progress,
) -> Result<Option<Typed<'a>>, AllocError>
    requires room { progress.old.at + size (plain.Group (view inner.now)) < 2 ^ 32 }
    ensures at { OnOk result (progress.new.at ≡ progress.old.at
        + size (plain.Group (view inner.now))) }
    ensures faults { OnOk result (AreNoted progress.old progress.new
        (rule.faults (names_tree names.now) progress.old.at (plain.Group (view inner.now)))) }
    ensures meant { IfOk result (λ j. judged_tree j
        ≡ rule.judge (names_tree names.now) (plain.Group (view inner.now))) }
{
    progress.at += 1;
    let found = check_term(alloc, names, inner, progress)?;
    progress.at += 1;
    Ok(found)
}

// `head`, `tail` or `len`.
#[cycle(checking_terms)]
fn check_call<'a>(
    alloc: Global,
    names: &'a Names,
    call: Call,
    of: &Term,
    progress: &mut Progress,
) -> Result<Option<Typed<'a>>, AllocError>
    requires room { progress.old.at + size (plain.Called call (view of.now)) < 2 ^ 32 }
    ensures at { OnOk result (progress.new.at ≡ progress.old.at
        + size (plain.Called call (view of.now))) }
    ensures faults { OnOk result (AreNoted progress.old progress.new
        (rule.faults (names_tree names.now) progress.old.at (plain.Called call (view of.now)))) }
    ensures meant { IfOk result (λ j. judged_tree j
        ≡ rule.judge (names_tree names.now) (plain.Called call (view of.now))) }
{
    progress.at += 2;
    let place = progress.at;
    let of = check_term(alloc, names, of, progress)?;
    progress.at += 1;
    let found = end_call(alloc, call, of, place, progress)?;
    Ok(found)
}

// `-` before a term.
#[cycle(checking_terms)]
fn check_minus<'a>(
    alloc: Global,
    names: &'a Names,
    of: &Term,
    progress: &mut Progress,
) -> Result<Option<Typed<'a>>, AllocError>
    requires room { progress.old.at + size (plain.Minus (view of.now)) < 2 ^ 32 }
    ensures at { OnOk result (progress.new.at ≡ progress.old.at
        + size (plain.Minus (view of.now))) }
    ensures faults { OnOk result (AreNoted progress.old progress.new
        (rule.faults (names_tree names.now) progress.old.at (plain.Minus (view of.now)))) }
    ensures meant { IfOk result (λ j. judged_tree j
        ≡ rule.judge (names_tree names.now) (plain.Minus (view of.now))) }
{
    progress.at += 1;
    let place = progress.at;
    let of = check_term(alloc, names, of, progress)?;
    let found = end_minus(alloc, of, place, progress)?;
    Ok(found)
}

// `not` before a term.
#[cycle(checking_terms)]
fn check_not<'a>(
    alloc: Global,
    names: &'a Names,
    of: &Term,
    progress: &mut Progress,
) -> Result<Option<Typed<'a>>, AllocError>
    requires room { progress.old.at + size (plain.Not (view of.now)) < 2 ^ 32 }
    ensures at { OnOk result (progress.new.at ≡ progress.old.at + size (plain.Not (view of.now))) }
    ensures faults { OnOk result (AreNoted progress.old progress.new
        (rule.faults (names_tree names.now) progress.old.at (plain.Not (view of.now)))) }
    ensures meant { IfOk result (λ j. judged_tree j
        ≡ rule.judge (names_tree names.now) (plain.Not (view of.now))) }
{
    progress.at += 1;
    let place = progress.at;
    let of = check_term(alloc, names, of, progress)?;
    let found = end_not(alloc, of, place, progress)?;
    Ok(found)
}

// The item of an `append`, behind the sequence at this place.
#[cycle(checking_terms)]
fn check_item<'a>(
    alloc: Global,
    names: &'a Names,
    list: Option<Typed<'a>>,
    place: u32,
    item: &Term,
    progress: &mut Progress,
) -> Result<Option<Typed<'a>>, AllocError>
    requires room { progress.old.at + (size (view item.now) + 2) < 2 ^ 32 }
    ensures at { OnOk result (progress.new.at ≡ progress.old.at + (size (view item.now) + 2)) }
    ensures faults { OnOk result (AreNoted progress.old progress.new
        (rule.faults (names_tree names.now) (progress.old.at + 1) (view item.now)
        ++ (rule.wants kinds.is_seq place (judged_tree list.entry)
        ++ rule.append_faults (progress.old.at + 1) (judged_tree list.entry)
        (rule.judge (names_tree names.now) (view item.now))))) }
    ensures meant { IfOk result (λ j. judged_tree j
        ≡ rule.append_of (judged_tree list.entry)
        (rule.judge (names_tree names.now) (view item.now))) }
{
    progress.at += 1;
    let behind = progress.at;
    let item = check_term(alloc, names, item, progress)?;
    progress.at += 1;
    let found = end_append(alloc, list, item, place, behind, progress)?;
    Ok(found)
}

// The sign of a comparison and what stands behind it.
#[cycle(checking_terms)]
fn check_right<'a>(
    alloc: Global,
    names: &'a Names,
    left: Option<Typed<'a>>,
    relation: Relation,
    right: &Term,
    progress: &mut Progress,
) -> Result<Option<Typed<'a>>, AllocError>
    requires room { progress.old.at + (size (view right.now) + 1) < 2 ^ 32 }
    ensures at { OnOk result (progress.new.at ≡ progress.old.at + (size (view right.now) + 1)) }
    ensures faults { OnOk result (AreNoted progress.old progress.new
        (rule.faults (names_tree names.now) (progress.old.at + 1) (view right.now)
        ++ rule.compare_faults relation (progress.old.at + 1) (judged_tree left.entry)
        (rule.judge (names_tree names.now) (view right.now)))) }
    ensures meant { IfOk result (λ j. judged_tree j
        ≡ rule.compare_of relation (judged_tree left.entry)
        (rule.judge (names_tree names.now) (view right.now))) }
{
    progress.at += 1;
    let place = progress.at;
    let right = check_term(alloc, names, right, progress)?;
    let found = end_compare(relation, left, right, place, progress)?;
    Ok(found)
}

// What follows in a product whose first factor stands at this place.
#[cycle(checking_terms)]
fn check_product<'a>(
    alloc: Global,
    names: &'a Names,
    first: Option<Typed<'a>>,
    place: u32,
    factors: &[Factor],
    progress: &mut Progress,
) -> Result<Option<Typed<'a>>, AllocError>
    requires room { progress.old.at + factors_size (pack_factors (map view_factor factors.now))
        < 2 ^ 32 }
    ensures at { OnOk result (progress.new.at ≡ progress.old.at
        + factors_size (pack_factors (map view_factor factors.now))) }
    ensures faults { OnOk result (AreNoted progress.old progress.new
        (rule.wants kinds.is_whole place (judged_tree first.entry)
        ++ rule.factors_faults (names_tree names.now) progress.old.at
        (pack_factors (map view_factor factors.now)))) }
    ensures meant { IfOk result (λ j. judged_tree j
        ≡ rule.of_core kinds.Whole
        (rule.multiplied (names_tree names.now) (rule.whole_of (judged_tree first.entry))
        (pack_factors (map view_factor factors.now)))) }
{
    note_unless_whole(progress, place, &first);
    let core = check_factors(alloc, names, whole_of(first), factors, progress)?;
    Ok(of_core(Shape::Whole, core))
}

// What follows in a sum whose first addend stands at this place.
#[cycle(checking_terms)]
fn check_sum<'a>(
    alloc: Global,
    names: &'a Names,
    first: Option<Typed<'a>>,
    place: u32,
    addends: &[Addend],
    progress: &mut Progress,
) -> Result<Option<Typed<'a>>, AllocError>
    requires room { progress.old.at + addends_size (pack_addends (map view_addend addends.now))
        < 2 ^ 32 }
    ensures at { OnOk result (progress.new.at ≡ progress.old.at
        + addends_size (pack_addends (map view_addend addends.now))) }
    ensures faults { OnOk result (AreNoted progress.old progress.new
        (rule.wants kinds.is_whole place (judged_tree first.entry)
        ++ rule.addends_faults (names_tree names.now) progress.old.at
        (pack_addends (map view_addend addends.now)))) }
    ensures meant { IfOk result (λ j. judged_tree j
        ≡ rule.of_core kinds.Whole
        (rule.added (names_tree names.now) (rule.whole_of (judged_tree first.entry))
        (pack_addends (map view_addend addends.now)))) }
{
    note_unless_whole(progress, place, &first);
    let core = check_addends(alloc, names, whole_of(first), addends, progress)?;
    Ok(of_core(Shape::Whole, core))
}

// What follows behind the first of some terms with `and` between them, or with `or`.
#[cycle(checking_terms)]
fn check_joined<'a>(
    alloc: Global,
    names: &'a Names,
    operator: Operator,
    first: Option<Typed<'a>>,
    place: u32,
    others: &[Term],
    progress: &mut Progress,
) -> Result<Option<Typed<'a>>, AllocError>
    requires room { progress.old.at + joined_size (pack_terms (map view others.now)) < 2 ^ 32 }
    ensures at { OnOk result (progress.new.at ≡ progress.old.at
        + joined_size (pack_terms (map view others.now))) }
    ensures faults { OnOk result (AreNoted progress.old progress.new
        (rule.wants kinds.is_truth place (judged_tree first.entry)
        ++ rule.truths_faults (names_tree names.now) progress.old.at
        (pack_terms (map view others.now)))) }
    ensures meant { IfOk result (λ j. judged_tree j
        ≡ rule.of_core kinds.Truth
        (rule.combined (names_tree names.now) operator (rule.truth_of (judged_tree first.entry))
        (pack_terms (map view others.now)))) }
{
    note_unless_truth(progress, place, &first);
    let core = check_truths(alloc, names, operator, truth_of(first), others, progress)?;
    Ok(of_core(Shape::Truth, core))
}

// The indexes of what begins at the first token.
#[cycle(checking_terms)]
fn check_indexes<'a>(
    alloc: Global,
    names: &'a Names,
    of: Option<Typed<'a>>,
    first: u32,
    indexes: &[Term],
    progress: &mut Progress,
) -> Result<Option<Typed<'a>>, AllocError>
    requires room { progress.old.at + indexes_size (pack_terms (map view indexes.now)) < 2 ^ 32 }
    ensures at { OnOk result (progress.new.at ≡ progress.old.at
        + indexes_size (pack_terms (map view indexes.now))) }
    ensures faults { OnOk result (AreNoted progress.old progress.new
        (rule.indexes_faults (names_tree names.now) first (judged_tree of.entry) progress.old.at
        (pack_terms (map view indexes.now)))) }
    ensures meant { IfOk result (λ j. judged_tree j
        ≡ rule.indexed (names_tree names.now) (judged_tree of.entry)
        (pack_terms (map view indexes.now))) }
{
    let mut found = of;
    for index in indexes {
        progress.at += 1;
        let place = progress.at;
        let by = check_term(alloc, names, index, progress)?;
        progress.at += 1;
        found = end_element(alloc, found, by, first, place, progress)?;
    }
    Ok(found)
}

// What follows in a product.
#[cycle(checking_terms)]
fn check_factors(
    alloc: Global,
    names: &Names,
    first: Option<terms::Term>,
    factors: &[Factor],
    progress: &mut Progress,
) -> Result<Option<terms::Term>, AllocError>
    requires room { progress.old.at + factors_size (pack_factors (map view_factor factors.now))
        < 2 ^ 32 }
    ensures at { OnOk result (progress.new.at ≡ progress.old.at
        + factors_size (pack_factors (map view_factor factors.now))) }
    ensures faults { OnOk result (AreNoted progress.old progress.new
        (rule.factors_faults (names_tree names.now) progress.old.at
        (pack_factors (map view_factor factors.now)))) }
    ensures meant { IfOk result (λ c. core_tree c
        ≡ rule.multiplied (names_tree names.now) (core_tree first)
        (pack_factors (map view_factor factors.now))) }
{
    let mut core = first;
    for factor in factors {
        core = check_factor(alloc, names, core, factor, progress)?;
    }
    Ok(core)
}

#[cycle(checking_terms)]
fn check_factor(
    alloc: Global,
    names: &Names,
    left: Option<terms::Term>,
    factor: &Factor,
    progress: &mut Progress,
) -> Result<Option<terms::Term>, AllocError>
    requires room { progress.old.at + factor_size (view_factor factor.now) < 2 ^ 32 }
    ensures at { OnOk result (progress.new.at ≡ progress.old.at
        + factor_size (view_factor factor.now)) }
    ensures faults { OnOk result (AreNoted progress.old progress.new
        (rule.factors_faults (names_tree names.now) progress.old.at
        (more_factors (view_factor factor.now) no_factor))) }
    ensures meant { IfOk result (λ c. core_tree c
        ≡ rule.multiplied (names_tree names.now) (core_tree left)
        (more_factors (view_factor factor.now) no_factor)) }
{
    progress.at += 1;
    let place = progress.at;
    match factor {
        Factor::Times(term) => {
            let right = check_term(alloc, names, term, progress)?;
            let core = join_whole(Operator::Times, left, right, place, progress)?;
            Ok(core)
        }
        Factor::Modulo(divisor) => {
            progress.at += 1;
            progress.note_if(*divisor == 0, place, FaultKind::WrongType);
            let core = modulo_of(*divisor, left)?;
            Ok(core)
        }
    }
}

// What is added to a sum.
#[cycle(checking_terms)]
fn check_addends(
    alloc: Global,
    names: &Names,
    first: Option<terms::Term>,
    addends: &[Addend],
    progress: &mut Progress,
) -> Result<Option<terms::Term>, AllocError>
    requires room { progress.old.at + addends_size (pack_addends (map view_addend addends.now))
        < 2 ^ 32 }
    ensures at { OnOk result (progress.new.at ≡ progress.old.at
        + addends_size (pack_addends (map view_addend addends.now))) }
    ensures faults { OnOk result (AreNoted progress.old progress.new
        (rule.addends_faults (names_tree names.now) progress.old.at
        (pack_addends (map view_addend addends.now)))) }
    ensures meant { IfOk result (λ c. core_tree c
        ≡ rule.added (names_tree names.now) (core_tree first)
        (pack_addends (map view_addend addends.now))) }
{
    let mut core = first;
    for addend in addends {
        progress.at += 1;
        let place = progress.at;
        let right = check_term(alloc, names, &addend.term, progress)?;
        core = join_whole(operator_of(addend.sign), core, right, place, progress)?;
    }
    Ok(core)
}

// What follows behind `and`, or behind `or`.
#[cycle(checking_terms)]
fn check_truths(
    alloc: Global,
    names: &Names,
    operator: Operator,
    first: Option<terms::Term>,
    others: &[Term],
    progress: &mut Progress,
) -> Result<Option<terms::Term>, AllocError>
    requires room { progress.old.at + joined_size (pack_terms (map view others.now)) < 2 ^ 32 }
    ensures at { OnOk result (progress.new.at ≡ progress.old.at
        + joined_size (pack_terms (map view others.now))) }
    ensures faults { OnOk result (AreNoted progress.old progress.new
        (rule.truths_faults (names_tree names.now) progress.old.at
        (pack_terms (map view others.now)))) }
    ensures meant { IfOk result (λ c. core_tree c
        ≡ rule.combined (names_tree names.now) operator (core_tree first)
        (pack_terms (map view others.now))) }
{
    let mut core = first;
    for other in others {
        progress.at += 1;
        let place = progress.at;
        let right = check_term(alloc, names, other, progress)?;
        core = join_truth(operator, core, right, place, progress)?;
    }
    Ok(core)
}
