//! The parameters of a transition: what each takes, and what they declare.
ghost use Rattle.std.specs.Prelude.{◌≡◌, ◌+◌, ◌<◌, ◌^◌, map, OnOk, IfOk};
ghost use Rattle.ioa_trees.specs.Views.{view_declared, view_parameter};
ghost use Rattle.ioa_trees.specs.EntryRules as rule;
ghost use Rattle.ioa_trees.specs.Scopes.{named};
ghost use Rattle.ioa_trees.specs.Sizes.{declared_size, listed_size, parameter_size};
ghost use Rattle.ioa_trees.specs.TypeRules.{kind_of};
ghost use Rattle.ioa_typing.specs.KindViews.{option_tree};
ghost use Rattle.ioa_typing.specs.NameViews.{names_tree};
ghost use Rattle.ioa_entries.specs.EntryParts as part;
ghost use Rattle.ioa_entries.specs.EntryViews.{slot_tree};

use crate::parameters::between;
use ioa_trees::tree::{Declared, Parameter};
use ioa_typing::kind::copy_kind;
use ioa_typing::{Kind, Meaning, Names, Progress, check_type};
use std::alloc::{AllocError, Global};

/// What a parameter of an action takes.
#[derive(Drop)]
pub enum Slot {
    /// The value of the formal of this number alone.
    Fixed(usize),
    /// Each value of this kind.
    Free(Kind),
}

fn formal_of(names: &Names, name: &str) -> Option<Slot>
    ensures { slot_tree result ≡ rule.formal_of (named name.now (names_tree names.now)) }
{
    match names.get(name) {
        Some(Meaning::Formal(number, _)) => Some(Slot::Fixed(*number)),
        _ => None,
    }
}

fn free_of(alloc: Global, kind: &Option<Kind>) -> Result<Option<Slot>, AllocError>
    ensures { IfOk result (λ t. slot_tree t ≡ rule.free_of (option_tree kind.now)) }
{
    match kind {
        None => Ok(None),
        Some(kind) => Ok(Some(Slot::Free(copy_kind(alloc, kind)?))),
    }
}

fn declare_typed(
    alloc: Global,
    names: &mut Names,
    place: usize,
    declared: &Declared,
    progress: &mut Progress,
) -> Result<Option<Slot>, AllocError>
    requires room { progress.old.at + declared_size (view_declared declared.now) < 2 ^ 32 }
    ensures at { OnOk result (progress.new.at ≡ progress.old.at
        + declared_size (view_declared declared.now)) }
    ensures names { OnOk result (names_tree names.new
        ≡ rule.with_parameter (names_tree names.old) place (view_declared declared.now)) }
    ensures slot { IfOk result (λ t. slot_tree t
        ≡ rule.free_of (kind_of (names_tree names.old) (view_declared declared.now).of)) }
{
    progress.at += 2;
    let kind = check_type(alloc, names, &declared.of, progress)?;
    let slot = free_of(alloc, &kind)?;
    names.declare(&declared.name, Meaning::Parameter(place, kind))?;
    Ok(slot)
}

fn declare_parameter(
    alloc: Global,
    names: &mut Names,
    place: usize,
    parameter: &Parameter,
    progress: &mut Progress,
) -> Result<Option<Slot>, AllocError>
    requires room { progress.old.at + parameter_size (view_parameter parameter.now) < 2 ^ 32 }
    ensures at { OnOk result (progress.new.at ≡ progress.old.at
        + parameter_size (view_parameter parameter.now)) }
    ensures names { OnOk result (names_tree names.new
        ≡ part.after_parameter (names_tree names.old) place (view_parameter parameter.now)) }
    ensures slot { IfOk result (λ t. slot_tree t
        ≡ part.slot_of (names_tree names.old) (view_parameter parameter.now)) }
{
    match parameter {
        Parameter::Constant(name) => {
            progress.at += 2;
            Ok(formal_of(names, name.as_str()))
        }
        Parameter::Typed(declared) => {
            let slot = declare_typed(alloc, names, place, declared, progress)?;
            Ok(slot)
        }
    }
}

// Goes behind parameters and declares them, and says what each takes. What the progress notes is of no use.
fn declare_each(
    alloc: Global,
    names: &mut Names,
    parameters: &[Parameter],
    progress: &mut Progress,
) -> Result<Vec<Option<Slot>>, AllocError>
    requires room { progress.old.at + listed_size parameter_size (map view_parameter parameters.now)
        < 2 ^ 32 }
    ensures at { OnOk result (progress.new.at ≡ progress.old.at
        + listed_size parameter_size (map view_parameter parameters.now)) }
    ensures names { OnOk result (names_tree names.new
        ≡ rule.with_parameters (names_tree names.old) 0 (map view_parameter parameters.now)) }
    ensures slots { IfOk result (λ ts. map slot_tree ts.items
        ≡ rule.slots (names_tree names.old) 0 (map view_parameter parameters.now)) }
{
    let mut slots = Vec::new(alloc);
    for (place, parameter) in parameters.iter().enumerate() {
        progress.at += between(place);
        let slot = declare_parameter(alloc, names, place, parameter, progress)?;
        slots.push(slot)?;
    }
    Ok(slots)
}

/// Declares parameters and goes behind them, and says what each takes. Their faults are those of the entry, and aren't noted here.
pub fn declare_parameters(
    alloc: Global,
    names: &mut Names,
    parameters: &[Parameter],
    progress: &mut Progress,
) -> Result<Vec<Option<Slot>>, AllocError>
    requires room { progress.old.at + listed_size parameter_size (map view_parameter parameters.now)
        < 2 ^ 32 }
    ensures at { OnOk result (progress.new.at ≡ progress.old.at
        + listed_size parameter_size (map view_parameter parameters.now)) }
    ensures least { progress.new.least ≡ progress.old.least }
    ensures names { OnOk result (names_tree names.new
        ≡ rule.with_parameters (names_tree names.old) 0 (map view_parameter parameters.now)) }
    ensures slots { IfOk result (λ ts. map slot_tree ts.items
        ≡ rule.slots (names_tree names.old) 0 (map view_parameter parameters.now)) }
{
    let mut apart = Progress {
        at: progress.at,
        least: None,
    };
    let slots = declare_each(alloc, names, parameters, &mut apart)?;
    progress.at = apart.at;
    Ok(slots)
}
