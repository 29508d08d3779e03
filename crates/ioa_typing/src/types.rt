//! The checks of types.
ghost use Rattle.std.specs.Prelude.{◌≡◌, ◌++◌, not, ◌+◌, ◌<◌, ◌^◌, int_lt, if◌then◌else◌, None, Some, OnOk, IfOk};
ghost use Rattle.ioa_trees.specs.Faults.{where_wrong};
ghost use Rattle.ioa_trees.specs.Kinds as kinds;
ghost use Rattle.ioa_trees.specs.Scopes.{named, is_type, kind_meant};
ghost use Rattle.ioa_trees.specs.Sizes.{signed_size, type_size};
ghost use Rattle.ioa_trees.specs.TypeRules as rule;
ghost use Rattle.ioa_trees.specs.Views.{view_type};
ghost use Rattle.ioa_typing.specs.KindViews.{kind_tree, option_tree};
ghost use Rattle.ioa_typing.specs.NameViews.{names_tree};
ghost use Rattle.ioa_typing.specs.Noted.{AreNoted};

use crate::fault::FaultKind;
use crate::kind::{Kind, can_be_listed, copy_kind, count, is_scalar, weight};
use crate::meaning::Meaning;
use crate::names::Names;
use crate::progress::Progress;
use ioa_trees::tree::{Signed, TypeTree};
use std::alloc::{AllocError, Global};

fn note_weight(progress: &mut Progress, place: u32, kind: &Option<Kind>)
    ensures at { progress.new.at ≡ progress.old.at }
    ensures least { AreNoted progress.old progress.new
        (rule.overweight place (option_tree kind.now)) }
{
    if let Some(kind) = kind {
        progress.note_if(weight(kind) > 65_536, place, FaultKind::OverLimit);
    }
}

/// Notes what isn't listed where it has to be: a kind that can't be is of the `WrongType`, one of over 256 members is `OverLimit`.
pub fn note_unlisted(progress: &mut Progress, place: u32, kind: &Option<Kind>)
    ensures at { progress.new.at ≡ progress.old.at }
    ensures least { AreNoted progress.old progress.new
        (rule.unlisted place (option_tree kind.now)) }
{
    if let Some(kind) = kind {
        if can_be_listed(kind) {
            progress.note_if(count(kind) > 256, place, FaultKind::OverLimit);
        } else {
            progress.note_if(true, place, FaultKind::WrongType);
        }
    }
}

/// Notes a kind that isn't scalar: `WrongType`.
pub fn note_unscalar(progress: &mut Progress, place: u32, kind: &Option<Kind>)
    ensures at { progress.new.at ≡ progress.old.at }
    ensures least { AreNoted progress.old progress.new
        (rule.unscalar place (option_tree kind.now)) }
{
    if let Some(kind) = kind {
        progress.note_if(!is_scalar(kind), place, FaultKind::WrongType);
    }
}

fn seq_of(alloc: Global, item: Option<Kind>, most: u64) -> Result<Option<Kind>, AllocError>
    ensures { IfOk result (λ k. option_tree k ≡ rule.seq_of most (option_tree item)) }
{
    match item {
        None => Ok(None),
        Some(item) => Ok(Some(Kind::Seq(Box::new(alloc, item)?, most))),
    }
}

fn array_of(
    alloc: Global,
    index: Option<Kind>,
    item: Option<Kind>,
) -> Result<Option<Kind>, AllocError>
    ensures { IfOk result (λ k. option_tree k
        ≡ rule.array_of (option_tree index) (option_tree item)) }
{
    match (index, item) {
        (Some(index), Some(item)) => {
            if !can_be_listed(&index) {
                return Ok(None);
            }
            let index = Box::new(alloc, index)?;
            Ok(Some(Kind::Array(index, Box::new(alloc, item)?)))
        }
        _ => Ok(None),
    }
}

fn is_bad_bound(most: u64) -> bool
    ensures { result ≡ rule.is_bad_bound most }
{
    most == 0 || most > 65_535
}

// The faults of a sequence's type itself, and what it means.
#[tactic(auto, using(crate::proofs::Keeps::keep_append))]
fn end_seq(
    alloc: Global,
    item: Option<Kind>,
    most: u64,
    at: u32,
    place: u32,
    progress: &mut Progress,
) -> Result<Option<Kind>, AllocError>
    ensures at { OnOk result (progress.new.at ≡ progress.old.at) }
    ensures faults { OnOk result (AreNoted progress.old progress.new
        (where_wrong (rule.is_bad_bound most) place 17
        ++ rule.overweight at (rule.seq_of most (option_tree item)))) }
    ensures kind { IfOk result (λ k. option_tree k ≡ rule.seq_of most (option_tree item)) }
{
    progress.note_if(is_bad_bound(most), place, FaultKind::OverLimit);
    let kind = seq_of(alloc, item, most)?;
    note_weight(progress, at, &kind);
    Ok(kind)
}

// The faults of an array's type itself, and what it means.
#[tactic(auto, using(crate::proofs::Keeps::keep_append))]
fn end_array(
    alloc: Global,
    index: Option<Kind>,
    item: Option<Kind>,
    at: u32,
    progress: &mut Progress,
) -> Result<Option<Kind>, AllocError>
    requires { at + 2 < 2 ^ 32 }
    ensures at { OnOk result (progress.new.at ≡ progress.old.at) }
    ensures faults { OnOk result (AreNoted progress.old progress.new
        (rule.unlisted (at + 2) (option_tree index)
        ++ rule.overweight at (rule.array_of (option_tree index) (option_tree item)))) }
    ensures kind { IfOk result (λ k. option_tree k
        ≡ rule.array_of (option_tree index) (option_tree item)) }
{
    note_unlisted(progress, at + 2, &index);
    let kind = array_of(alloc, index, item)?;
    note_weight(progress, at, &kind);
    Ok(kind)
}

// What a type's name means.
fn kind_named(alloc: Global, names: &Names, name: &str) -> Result<Option<Kind>, AllocError>
    ensures { IfOk result (λ k. option_tree k
        ≡ kind_meant (named name.now (names_tree names.now))) }
{
    match names.get(name) {
        Some(Meaning::Type(Some(kind))) => Ok(Some(copy_kind(alloc, kind)?)),
        _ => Ok(None),
    }
}

fn is_type_named(names: &Names, name: &str) -> bool
    ensures { result ≡ is_type (named name.now (names_tree names.now)) }
{
    matches!(names.get(name), Some(Meaning::Type(_)))
}

#[tactic(auto, using(crate::proofs::Keeps::keep_append))]
fn check_named(
    alloc: Global,
    names: &Names,
    name: &str,
    at: u32,
    progress: &mut Progress,
) -> Result<Option<Kind>, AllocError>
    ensures at { OnOk result (progress.new.at ≡ progress.old.at) }
    ensures faults { OnOk result (AreNoted progress.old progress.new
        (where_wrong (not (is_type (named name.now (names_tree names.now)))) at 10
        ++ rule.overweight at (kind_meant (named name.now (names_tree names.now))))) }
    ensures kind { IfOk result (λ k. option_tree k
        ≡ kind_meant (named name.now (names_tree names.now))) }
{
    progress.note_if(!is_type_named(names, name), at, FaultKind::UnknownName);
    let kind = kind_named(alloc, names, name)?;
    note_weight(progress, at, &kind);
    Ok(kind)
}

fn number(signed: Signed) -> i64
    ensures { result ≡ kinds.number signed }
{
    let size = signed.size.cast_signed();
    if signed.is_negative {
        size.wrapping_neg()
    } else {
        size
    }
}

fn signed_size(signed: Signed) -> u32
    ensures { result ≡ signed_size signed }
{
    if signed.is_negative { 2 } else { 1 }
}

fn range_of(low: i64, high: i64) -> Option<Kind>
    ensures { option_tree result ≡ if int_lt high low then None else Some (kinds.Range low high) }
{
    if high < low {
        None
    } else {
        Some(Kind::Range(low, high))
    }
}

/// Checks a type: notes its faults, goes behind it, and says what it means, if it means something.
pub fn check_type(
    alloc: Global,
    names: &Names,
    tree: &TypeTree,
    progress: &mut Progress,
) -> Result<Option<Kind>, AllocError>
    requires room { progress.old.at + type_size (view_type tree.now) < 2 ^ 32 }
    ensures at { OnOk result (progress.new.at ≡ progress.old.at + type_size (view_type tree.now)) }
    ensures faults { OnOk result (AreNoted progress.old progress.new
        (rule.type_faults (names_tree names.now) progress.old.at (view_type tree.now))) }
    ensures kind { IfOk result (λ k. option_tree k
        ≡ rule.kind_of (names_tree names.now) (view_type tree.now)) }
{
    let at = progress.at;
    match tree {
        TypeTree::Bool => {
            progress.at += 1;
            Ok(Some(Kind::Truth))
        }
        TypeTree::Int => {
            progress.at += 1;
            Ok(Some(Kind::Whole))
        }
        TypeTree::Range(low, high) => {
            progress.at += signed_size(*low) + 1 + signed_size(*high);
            let (low, high) = (number(*low), number(*high));
            progress.note_if(high < low, at, FaultKind::WrongType);
            Ok(range_of(low, high))
        }
        TypeTree::Named(name) => {
            progress.at += 1;
            let kind = check_named(alloc, names, name.as_str(), at, progress)?;
            Ok(kind)
        }
        TypeTree::Seq(item, most) => {
            progress.at += 2;
            let item = check_type(alloc, names, item, progress)?;
            let place = progress.at + 1;
            progress.at += 3;
            let kind = end_seq(alloc, item, *most, at, place, progress)?;
            Ok(kind)
        }
        TypeTree::Array(index, item) => {
            progress.at += 2;
            let index = check_type(alloc, names, index, progress)?;
            progress.at += 1;
            let item = check_type(alloc, names, item, progress)?;
            progress.at += 1;
            let kind = end_array(alloc, index, item, at, progress)?;
            Ok(kind)
        }
    }
}
