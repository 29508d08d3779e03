//! The checks of a signature.
ghost use Rattle.std.specs.Prelude.{◌≡◌, ℕ, ◌+◌, ◌<◌, ◌^◌, ◌&&◌, not, Option, [], map, option_map, OnOk, IfOk};
ghost use Rattle.ioa_trees.specs.Views.{view_entry, view_parameter, view_transition};
ghost use Rattle.ioa_trees.specs.EntryRules as rule;
ghost use Rattle.ioa_trees.specs.Scopes.{Scope};
ghost use Rattle.ioa_trees.specs.Sizes.{bracketed_size, entry_size, parameter_size, row_size};
ghost use Rattle.ioa_typing.specs.KindViews.{capped};
ghost use Rattle.ioa_typing.specs.NameViews.{names_tree};
ghost use Rattle.ioa_typing.specs.Noted.{AreNoted};
ghost use Rattle.ioa_entries.specs.TaskNames.{task_names};
ghost use Rattle.ioa_entries.specs.EntryParts as part;

use crate::heads::{clashes_before, has_task, has_transition, is_controlled};
use crate::parameters::check_parameters;
use ioa_trees::tree::{Entry, Parameter, Transition};
use ioa_typing::{FaultKind, Names, Progress};
use std::alloc::{AllocError, Global};

// A parenthesis, where there are parameters.
pub(crate) fn bracket(parameters: &[Parameter]) -> u32
    ensures { result ≡ part.bracket (map view_parameter parameters.now) }
{
    match parameters.first() {
        None => 0,
        Some(_) => 1,
    }
}

// Checks parameters with their parentheses: the answer is how many tuples of values they have.
fn check_bracketed(
    alloc: Global,
    names: &mut Names,
    controlled: bool,
    parameters: &[Parameter],
    progress: &mut Progress,
) -> Result<Option<u64>, AllocError>
    requires room { progress.old.at
        + bracketed_size parameter_size (map view_parameter parameters.now) < 2 ^ 32 }
    ensures at { OnOk result (progress.new.at ≡ progress.old.at
        + bracketed_size parameter_size (map view_parameter parameters.now)) }
    ensures names { OnOk result (names_tree names.new ≡ names_tree names.old) }
    ensures faults { OnOk result (AreNoted progress.old progress.new
        (rule.parameters_faults (names_tree names.old) controlled 0 (progress.old.at + 1)
        (map view_parameter parameters.now))) }
    ensures tuples { IfOk result (λ n. n
        ≡ option_map capped
        (rule.tuples (names_tree names.old) 0 (map view_parameter parameters.now))) }
{
    let len = names.len();
    progress.at += bracket(parameters);
    let tuples = check_parameters(alloc, names, controlled, parameters, progress)?;
    progress.at += bracket(parameters);
    names.truncate(len);
    Ok(tuples)
}

fn is_over(tuples: Option<u64>) -> bool
    ensures { (n : Option ℕ) → tuples ≡ option_map capped n → result ≡ rule.is_over 4096 n }
{
    match tuples {
        Some(tuples) => tuples > 4096,
        None => false,
    }
}

// Whether an entry has too many parameters, or one of a controlled action too many tuples.
fn is_large(entry: &Entry, tuples: Option<u64>) -> bool
    ensures { (s : Scope) → tuples
        ≡ option_map capped (rule.tuples s 0 (view_entry entry.now).parameters)
        → result ≡ rule.is_large s (view_entry entry.now) }
{
    entry.parameters.len() > 16 || is_controlled(entry.kind) && is_over(tuples)
}

// Whether an entry of a controlled action has no task.
fn is_untasked(entry: &Entry, tasks: &[Vec<String>]) -> bool
    ensures { result ≡ (rule.is_controlled entry.now.kind
        && not (rule.has_task (task_names tasks.now) (view_entry entry.now).name)) }
{
    is_controlled(entry.kind) && !has_task(tasks, entry.name.as_str())
}

fn check_entry(
    alloc: Global,
    names: &mut Names,
    entry: &Entry,
    before: &[Entry],
    transitions: &[Transition],
    tasks: &[Vec<String>],
    progress: &mut Progress,
) -> Result<(), AllocError>
    requires room { progress.old.at + entry_size (view_entry entry.now) < 2 ^ 32 }
    ensures at { OnOk result (progress.new.at ≡ progress.old.at
        + entry_size (view_entry entry.now)) }
    ensures names { OnOk result (names_tree names.new ≡ names_tree names.old) }
    ensures faults { OnOk result (AreNoted progress.old progress.new
        (rule.entry_faults (names_tree names.old) (map view_entry before.now)
        (map view_transition transitions.now) (task_names tasks.now) progress.old.at
        (view_entry entry.now))) }
{
    let at = progress.at;
    progress.note_if(clashes_before(entry, before), at + 1, FaultKind::DoubleName);
    progress.at += 2;
    let controlled = is_controlled(entry.kind);
    let tuples = check_bracketed(
        alloc,
        names,
        controlled,
        entry.parameters.as_slice(),
        progress,
    )?;
    progress.note_if(is_large(entry, tuples), at, FaultKind::OverLimit);
    progress.note_if(
        !has_transition(entry, transitions),
        at,
        FaultKind::NoTransition,
    );
    progress.note_if(is_untasked(entry, tasks), at, FaultKind::TasksNotAPartition);
    Ok(())
}

/// Checks the entries of a signature: notes their faults, and goes behind them.
pub fn check_entries(
    alloc: Global,
    names: &mut Names,
    entries: &[Entry],
    transitions: &[Transition],
    tasks: &[Vec<String>],
    progress: &mut Progress,
) -> Result<(), AllocError>
    requires room { progress.old.at + row_size entry_size (map view_entry entries.now) < 2 ^ 32 }
    ensures at { OnOk result (progress.new.at ≡ progress.old.at
        + row_size entry_size (map view_entry entries.now)) }
    ensures names { OnOk result (names_tree names.new ≡ names_tree names.old) }
    ensures faults { OnOk result (AreNoted progress.old progress.new
        (rule.entries_faults (names_tree names.old) [] (map view_transition transitions.now)
        (task_names tasks.now) progress.old.at (map view_entry entries.now))) }
{
    for (place, entry) in entries.iter().enumerate() {
        check_entry(
            alloc,
            names,
            entry,
            &entries[..place],
            transitions,
            tasks,
            progress,
        )?;
    }
    Ok(())
}
