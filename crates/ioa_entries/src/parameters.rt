//! The checks of the parameters of an entry.
ghost use Rattle.std.specs.Prelude.{◌≡◌, ◌+◌, ◌<◌, ◌^◌, ◌++◌, not, map, option_map, OnOk, IfOk};
ghost use Rattle.ioa_trees.specs.Views.{view_declared, view_parameter, view_type};
ghost use Rattle.ioa_trees.specs.EntryRules as rule;
ghost use Rattle.ioa_trees.specs.Scopes.{doubled, is_formal, named};
ghost use Rattle.ioa_trees.specs.Sizes.{declared_size, listed_size, parameter_size};
ghost use Rattle.ioa_trees.specs.TypeRules.{kind_of, type_faults};
ghost use Rattle.ioa_typing.specs.KindViews.{capped, option_tree};
ghost use Rattle.ioa_typing.specs.NameViews.{names_tree};
ghost use Rattle.ioa_typing.specs.Noted.{AreNoted};
ghost use Rattle.ioa_entries.specs.EntryParts as part;

use ioa_trees::tree::{Declared, Parameter};
use ioa_typing::kind::{can_be_listed, count};
use ioa_typing::types::{note_unlisted, note_unscalar};
use ioa_typing::{FaultKind, Kind, Meaning, Names, Progress, check_type};
use std::alloc::{AllocError, Global};

fn is_formal(names: &Names, name: &str) -> bool
    ensures { result ≡ is_formal (named name.now (names_tree names.now)) }
{
    matches!(names.get(name), Some(Meaning::Formal(_, _)))
}

// Notes a kind that a parameter may not have.
fn note_sort(progress: &mut Progress, controlled: bool, place: u32, kind: &Option<Kind>)
    ensures at { progress.new.at ≡ progress.old.at }
    ensures least { AreNoted progress.old progress.new
        (rule.sort_faults controlled place (option_tree kind.now)) }
{
    if controlled {
        note_unlisted(progress, place, kind);
    } else {
        note_unscalar(progress, place, kind);
    }
}

fn members_of(kind: &Option<Kind>) -> Option<u64>
    ensures { result ≡ option_map capped (rule.members_of (option_tree kind.now)) }
{
    match kind {
        Some(kind) => {
            if can_be_listed(kind) {
                Some(count(kind))
            } else {
                None
            }
        }
        None => None,
    }
}

fn times(a: Option<u64>, b: Option<u64>) -> Option<u64>
    ensures { result ≡ option_map capped (rule.times a b) }
{
    let product = a?.saturating_mul(b?);
    Some(product.min(65_537))
}

// The token before each parameter but the first.
pub(crate) fn between(place: usize) -> u32
    ensures { result ≡ part.between place }
{
    if place == 0 { 0 } else { 1 }
}

#[tactic(auto, using(ioa_typing::proofs::Keeps::keep_append))]
fn check_typed(
    alloc: Global,
    names: &mut Names,
    controlled: bool,
    place: usize,
    declared: &Declared,
    progress: &mut Progress,
) -> Result<Option<u64>, AllocError>
    requires room { progress.old.at + declared_size (view_declared declared.now) < 2 ^ 32 }
    ensures at { OnOk result (progress.new.at ≡ progress.old.at
        + declared_size (view_declared declared.now)) }
    ensures names { OnOk result (names_tree names.new
        ≡ rule.with_parameter (names_tree names.old) place (view_declared declared.now)) }
    ensures faults { OnOk result (AreNoted progress.old progress.new
        (doubled (names_tree names.old) progress.old.at (view_declared declared.now).name
        ++ (type_faults (names_tree names.old) (progress.old.at + 2) (view_declared declared.now).of
        ++ rule.sort_faults controlled (progress.old.at + 2)
        (kind_of (names_tree names.old) (view_declared declared.now).of)))) }
    ensures values { IfOk result (λ n. n
        ≡ option_map capped
        (rule.members_of (kind_of (names_tree names.old) (view_declared declared.now).of))) }
{
    let at = progress.at;
    progress.note_if(
        names.get(declared.name.as_str()).is_some(),
        at,
        FaultKind::DoubleName,
    );
    progress.at += 2;
    let kind = check_type(alloc, names, &declared.of, progress)?;
    note_sort(progress, controlled, at + 2, &kind);
    let values = members_of(&kind);
    names.declare(&declared.name, Meaning::Parameter(place, kind))?;
    Ok(values)
}

// Checks one parameter: the answer is how many values it has.
fn check_parameter(
    alloc: Global,
    names: &mut Names,
    controlled: bool,
    place: usize,
    parameter: &Parameter,
    progress: &mut Progress,
) -> Result<Option<u64>, AllocError>
    requires room { progress.old.at + parameter_size (view_parameter parameter.now) < 2 ^ 32 }
    ensures at { OnOk result (progress.new.at ≡ progress.old.at
        + parameter_size (view_parameter parameter.now)) }
    ensures names { OnOk result (names_tree names.new
        ≡ part.after_parameter (names_tree names.old) place (view_parameter parameter.now)) }
    ensures faults { OnOk result (AreNoted progress.old progress.new
        (part.parameter_faults (names_tree names.old) controlled progress.old.at
        (view_parameter parameter.now))) }
    ensures values { IfOk result (λ n. n
        ≡ option_map capped
        (part.values_of (names_tree names.old) (view_parameter parameter.now))) }
{
    match parameter {
        Parameter::Constant(name) => {
            progress.note_if(
                !is_formal(names, name.as_str()),
                progress.at + 1,
                FaultKind::UnknownName,
            );
            progress.at += 2;
            Ok(Some(1))
        }
        Parameter::Typed(declared) => {
            let values = check_typed(alloc, names, controlled, place, declared, progress)?;
            Ok(values)
        }
    }
}

/// Checks parameters: notes their faults, goes behind them and declares them. The answer is how many tuples of values they have, as far
/// as 65,537; none where a parameter can't be listed.
pub fn check_parameters(
    alloc: Global,
    names: &mut Names,
    controlled: bool,
    parameters: &[Parameter],
    progress: &mut Progress,
) -> Result<Option<u64>, AllocError>
    requires room { progress.old.at + listed_size parameter_size (map view_parameter parameters.now)
        < 2 ^ 32 }
    ensures at { OnOk result (progress.new.at ≡ progress.old.at
        + listed_size parameter_size (map view_parameter parameters.now)) }
    ensures names { OnOk result (names_tree names.new
        ≡ rule.with_parameters (names_tree names.old) 0 (map view_parameter parameters.now)) }
    ensures faults { OnOk result (AreNoted progress.old progress.new
        (rule.parameters_faults (names_tree names.old) controlled 0 progress.old.at
        (map view_parameter parameters.now))) }
    ensures tuples { IfOk result (λ n. n
        ≡ option_map capped
        (rule.tuples (names_tree names.old) 0 (map view_parameter parameters.now))) }
{
    let mut tuples = Some(1);
    for (place, parameter) in parameters.iter().enumerate() {
        progress.at += between(place);
        let values = check_parameter(alloc, names, controlled, place, parameter, progress)?;
        tuples = times(tuples, values);
    }
    Ok(tuples)
}
