//! The checks of a component's arguments.
ghost use Rattle.std.specs.Prelude.{◌≡◌, ◌+◌, ◌<◌, ◌^◌, ◌++◌, [], Some, None, get_or, map, option_map, OnOk, IfOk};
ghost use Rattle.ioa_trees.specs.Views.{view};
ghost use Rattle.ioa_trees.specs.Sizes.{bracketed_size, listed_size, size};
ghost use Rattle.ioa_trees.specs.SourceRules as source;
ghost use Rattle.ioa_typing.specs.KindViews.{option_tree};
ghost use Rattle.ioa_typing.specs.NameViews.{names_tree};
ghost use Rattle.ioa_typing.specs.Noted.{AreNoted};
ghost use Rattle.ioa_typing.specs.TermViews.{core_tree};
ghost use Rattle.ioa_entries.specs.EffectViews.{place_kind};
ghost use Rattle.ioa_check.specs.Meant.{automaton_tree};
ghost use Rattle.ioa_check.specs.ComponentParts as part;

use crate::meant::MeantAutomaton;
use ioa_entries::between::between;
use ioa_trees::tree::Term as TermTree;
use ioa_typing::shape::shape_of;
use ioa_typing::typed::{note_unfit, value_in};
use ioa_typing::{FaultKind, Kind, Names, Progress, Shape, check_term};
use std::alloc::{AllocError, Global};
use terms::Term;

// The kind of the formal of this number, to put a value in its place.
fn place_of(formals: &[Option<Kind>], number: usize) -> Option<Shape<'_>>
    ensures { place_kind result ≡ get_or (map option_tree formals.now) number None }
{
    match formals.get(number) {
        Some(Some(kind)) => Some(shape_of(kind)),
        _ => None,
    }
}

// Checks one argument: the answer is the value in the place of its formal, if it fits there.
#[tactic(auto, using(ioa_typing::proofs::Keeps::keep_append))]
fn check_argument(
    alloc: Global,
    names: &Names,
    kind: Option<Shape<'_>>,
    argument: &TermTree,
    progress: &mut Progress,
) -> Result<Option<Term>, AllocError>
    requires room { progress.old.at + size (view argument.now) < 2 ^ 32 }
    ensures at { OnOk result (progress.new.at ≡ progress.old.at + size (view argument.now)) }
    ensures faults { OnOk result (AreNoted progress.old progress.new
        (part.argument_faults (names_tree names.now) (place_kind kind.entry) progress.old.at
        (view argument.now))) }
    ensures value { IfOk result (λ t. core_tree t
        ≡ source.placed_argument (names_tree names.now) (place_kind kind.entry)
        (view argument.now)) }
{
    let at = progress.at;
    let typed = check_term(alloc, names, argument, progress)?;
    match kind {
        None => {
            drop(typed);
            Ok(None)
        }
        Some(kind) => {
            note_unfit(progress, kind, at, &typed);
            let value = value_in(alloc, kind, typed)?;
            Ok(value)
        }
    }
}

// Keeps a value, if it is wanted.
fn keep_value(
    values: &mut Vec<Option<Term>>,
    wanted: bool,
    value: Option<Term>,
) -> Result<(), AllocError>
    ensures { OnOk result (values.new.items ≡ values.old.items ++ part.where_wanted wanted value) }
{
    if wanted {
        values.push(value)?;
    } else {
        drop(value);
    }
    Ok(())
}

// Checks arguments, each with the formal of its number, and goes behind them: the answer is what is put in each formal.
fn check_arguments(
    alloc: Global,
    names: &Names,
    formals: &[Option<Kind>],
    arguments: &[TermTree],
    progress: &mut Progress,
) -> Result<Vec<Option<Term>>, AllocError>
    requires room { progress.old.at + listed_size size (map view arguments.now) < 2 ^ 32 }
    ensures at { OnOk result (progress.new.at ≡ progress.old.at
        + listed_size size (map view arguments.now)) }
    ensures faults { OnOk result (AreNoted progress.old progress.new
        (part.fitted_faults (names_tree names.now) (map option_tree formals.now) progress.old.at
        (map view arguments.now))) }
    ensures values { IfOk result (λ vs. map core_tree vs.items
        ≡ source.placed_arguments (names_tree names.now) (map option_tree formals.now)
        (map view arguments.now)) }
{
    let mut values = Vec::new(alloc);
    let mut is_first = true;
    for (number, argument) in arguments.iter().enumerate() {
        progress.at += between(is_first);
        is_first = false;
        let kind = place_of(formals, number);
        let value = check_argument(alloc, names, kind, argument, progress)?;
        keep_value(&mut values, number < formals.len(), value)?;
    }
    Ok(values)
}

// A parenthesis, where there are arguments.
fn bracket(arguments: &[TermTree]) -> u32
    ensures { result ≡ part.bracket (map view arguments.now) }
{
    match arguments.first() {
        None => 0,
        Some(_) => 1,
    }
}

// Checks arguments with their parentheses.
#[tactic(auto, using(crate::proofs::Fitting::bracketed_is))]
fn check_bracketed(
    alloc: Global,
    names: &Names,
    formals: &[Option<Kind>],
    arguments: &[TermTree],
    progress: &mut Progress,
) -> Result<Vec<Option<Term>>, AllocError>
    requires room { progress.old.at + bracketed_size size (map view arguments.now) < 2 ^ 32 }
    ensures at { OnOk result (progress.new.at ≡ progress.old.at
        + bracketed_size size (map view arguments.now)) }
    ensures faults { OnOk result (AreNoted progress.old progress.new
        (source.arguments_faults (names_tree names.now) (progress.old.at + 1)
        (map view arguments.now)
        ++ source.misfit_arguments (names_tree names.now) (map option_tree formals.now)
        (progress.old.at + 1) (map view arguments.now))) }
    ensures values { IfOk result (λ vs. map core_tree vs.items
        ≡ source.placed_arguments (names_tree names.now) (map option_tree formals.now)
        (map view arguments.now)) }
{
    progress.at += bracket(arguments);
    let values = check_arguments(alloc, names, formals, arguments, progress)?;
    progress.at += bracket(arguments);
    Ok(values)
}

// The formals of the automaton of this number, where it is known.
fn formals_at<'a>(
    table: &'a [MeantAutomaton],
    automaton: Option<usize>,
) -> Option<&'a [Option<Kind>]>
    ensures { option_map (λ ks. map option_tree ks.now) result
        ≡ source.formals_at (map automaton_tree table.now) automaton }
{
    let automaton = table.get(automaton?)?;
    Some(automaton.formals.as_slice())
}

// Checks the arguments for these formals, from the automaton's name on.
fn check_counted(
    alloc: Global,
    names: &Names,
    formals: &[Option<Kind>],
    arguments: &[TermTree],
    progress: &mut Progress,
) -> Result<Vec<Option<Term>>, AllocError>
    requires room { progress.old.at + 1 + bracketed_size size (map view arguments.now) < 2 ^ 32 }
    ensures at { OnOk result (progress.new.at ≡ progress.old.at + 1
        + bracketed_size size (map view arguments.now)) }
    ensures faults { OnOk result (AreNoted progress.old progress.new
        (part.placing_faults (names_tree names.now)
        (Some (map option_tree formals.now)) progress.old.at (map view arguments.now))) }
    ensures values { IfOk result (λ vs. map core_tree vs.items
        ≡ source.placed_arguments (names_tree names.now) (map option_tree formals.now)
        (map view arguments.now)) }
{
    progress.note_if(
        formals.len() != arguments.len(),
        progress.at,
        FaultKind::WrongType,
    );
    progress.at += 1;
    let values = check_bracketed(alloc, names, formals, arguments, progress)?;
    Ok(values)
}

// Checks the arguments of a component whose automaton isn't known, from the automaton's name on.
fn check_alone(
    alloc: Global,
    names: &Names,
    arguments: &[TermTree],
    progress: &mut Progress,
) -> Result<Vec<Option<Term>>, AllocError>
    requires room { progress.old.at + 1 + bracketed_size size (map view arguments.now) < 2 ^ 32 }
    ensures at { OnOk result (progress.new.at ≡ progress.old.at + 1
        + bracketed_size size (map view arguments.now)) }
    ensures faults { OnOk result (AreNoted progress.old progress.new
        (part.placing_faults (names_tree names.now) None progress.old.at
        (map view arguments.now))) }
    ensures values { IfOk result (λ vs. map core_tree vs.items ≡ []) }
{
    progress.at += 1;
    let values = check_bracketed(alloc, names, &[], arguments, progress)?;
    Ok(values)
}

/// Checks the arguments for the automaton of this number, if one is known, from its name on: notes their faults, goes behind them, and
/// says what is put in each formal.
pub(crate) fn check_placing(
    alloc: Global,
    names: &Names,
    table: &[MeantAutomaton],
    automaton: Option<usize>,
    arguments: &[TermTree],
    progress: &mut Progress,
) -> Result<Vec<Option<Term>>, AllocError>
    requires room { progress.old.at + 1 + bracketed_size size (map view arguments.now) < 2 ^ 32 }
    ensures at { OnOk result (progress.new.at ≡ progress.old.at + 1
        + bracketed_size size (map view arguments.now)) }
    ensures faults { OnOk result (AreNoted progress.old progress.new
        (part.placing_faults (names_tree names.now)
        (source.formals_at (map automaton_tree table.now) automaton) progress.old.at
        (map view arguments.now))) }
    ensures values { IfOk result (λ vs. map core_tree vs.items
        ≡ source.arguments_of (names_tree names.now)
        (source.formals_at (map automaton_tree table.now) automaton) (map view arguments.now)) }
{
    match formals_at(table, automaton) {
        None => {
            let values = check_alone(alloc, names, arguments, progress)?;
            Ok(values)
        }
        Some(formals) => {
            let values = check_counted(alloc, names, formals, arguments, progress)?;
            Ok(values)
        }
    }
}
