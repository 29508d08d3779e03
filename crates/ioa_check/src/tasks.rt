//! The checks of tasks.
ghost use Rattle.std.specs.Prelude.{◌≡◌, ◌+◌, ◌*◌, ◌<◌, ◌^◌, ◌||◌, [], bytes_eq, length, map, string_bytes, OnOk, IfOk};
ghost use Rattle.std.specs.List.{list_any};
ghost use Rattle.ioa_trees.specs.Trees.{Bytes};
ghost use Rattle.ioa_trees.specs.Views.{view_entry, view_transition};
ghost use Rattle.ioa_trees.specs.AutomatonRules as rule;
ghost use Rattle.ioa_trees.specs.EntryRules as signature;
ghost use Rattle.ioa_trees.specs.Faults.{where_wrong};
ghost use Rattle.ioa_trees.specs.Sizes.{row_size, task_size};
ghost use Rattle.ioa_typing.specs.Noted.{AreNoted};
ghost use Rattle.ioa_check.specs.AutomatonParts as part;
ghost use Rattle.ioa_check.specs.Sets.{Adds};
ghost use Rattle.ioa_check.specs.AutomatonViews.{place_lists, used_names};
ghost use Rattle.ioa_entries.specs.TaskNames.{task_names};

use crate::used::Used;
use ioa_trees::tree::{Entry, EntryKind, Transition};
use ioa_typing::{FaultKind, Progress};
use std::alloc::{AllocError, Global};

// Whether the automaton controls actions of this kind.
fn is_controlled(kind: EntryKind) -> bool
    ensures { result ≡ signature.is_controlled kind }
{
    match kind {
        EntryKind::Input => false,
        EntryKind::Output => true,
        EntryKind::Internal => true,
    }
}

// Whether this is an output or internal of this name.
fn is_named(entry: &Entry, name: &str) -> bool
    ensures { result ≡ part.is_controlled (view_entry entry.now) name.now }
{
    is_controlled(entry.kind) && name == entry.name.as_str()
}

fn some_named(entries: &[Entry], name: &str) -> bool
    ensures { result ≡ list_any (λ e. part.is_controlled (view_entry e) name.now) entries.now }
{
    entries.iter().any(|entry| is_named(entry, name))
}

// Whether this is the name of an output or internal.
fn is_controlled_name(entries: &[Entry], name: &str) -> bool
    ensures { result ≡ rule.is_controlled_name (map view_entry entries.now) name.now }
{
    some_named(entries, name)
}

// Whether a name is none of an output or internal, or stood in a task before.
fn is_wrong(entries: &[Entry], used: &Used, name: &str) -> bool
    ensures { result ≡ part.is_wrong_name (map view_entry entries.now)
        (used_names used.now) name.now }
{
    !is_controlled_name(entries, name) || used.contains(name)
}

fn check_name(
    entries: &[Entry],
    used: &mut Used,
    name: &String,
    progress: &mut Progress,
) -> Result<(), AllocError>
    ensures at { OnOk result (progress.new.at ≡ progress.old.at) }
    ensures names { OnOk result ((q : Bytes)
        → list_any (bytes_eq q) (used_names used.new)
        ≡ (bytes_eq q (string_bytes name.now) || list_any (bytes_eq q) (used_names used.old))) }
    ensures faults { OnOk result (AreNoted progress.old progress.new
        (where_wrong
        (part.is_wrong_name (map view_entry entries.now) (used_names used.old)
        (string_bytes name.now)) progress.old.at 16)) }
{
    let wrong = is_wrong(entries, used, name.as_str());
    progress.note_if(wrong, progress.at, FaultKind::TasksNotAPartition);
    used.insert(name)?;
    Ok(())
}

// Checks the names of a task, each behind a brace or a comma.
fn check_names(
    entries: &[Entry],
    used: &mut Used,
    task: &[String],
    progress: &mut Progress,
) -> Result<(), AllocError>
    requires room { progress.old.at + 2 * length task.now < 2 ^ 32 }
    ensures at { OnOk result (progress.new.at ≡ progress.old.at + 2 * length task.now) }
    ensures names { OnOk result (Adds (used_names used.new) (map string_bytes task.now)
        (used_names used.old)) }
    ensures faults { OnOk result (AreNoted progress.old progress.new
        (rule.task_faults (map view_entry entries.now) (used_names used.old) (progress.old.at + 1)
        (map string_bytes task.now))) }
{
    for name in task {
        progress.at += 1;
        check_name(entries, used, name, progress)?;
        progress.at += 1;
    }
    Ok(())
}

// The brace that ends a task.
fn closing(task: &[String]) -> u32
    ensures { result ≡ part.closing (map string_bytes task.now) }
{
    match task.first() {
        None => 0,
        Some(_) => 1,
    }
}

fn check_task(
    entries: &[Entry],
    used: &mut Used,
    task: &[String],
    progress: &mut Progress,
) -> Result<(), AllocError>
    requires room { progress.old.at + task_size (map string_bytes task.now) < 2 ^ 32 }
    ensures at { OnOk result (progress.new.at ≡ progress.old.at
        + task_size (map string_bytes task.now)) }
    ensures names { OnOk result (Adds (used_names used.new) (map string_bytes task.now)
        (used_names used.old)) }
    ensures faults { OnOk result (AreNoted progress.old progress.new
        (rule.task_faults (map view_entry entries.now) (used_names used.old) (progress.old.at + 1)
        (map string_bytes task.now))) }
{
    check_names(entries, used, task, progress)?;
    progress.at += closing(task);
    Ok(())
}

/// Checks tasks: notes the names that are no output or internal and those that stood before, and goes behind them.
pub fn check_tasks(
    alloc: Global,
    entries: &[Entry],
    tasks: &[Vec<String>],
    progress: &mut Progress,
) -> Result<(), AllocError>
    requires room { progress.old.at + row_size task_size (task_names tasks.now) < 2 ^ 32 }
    ensures at { OnOk result (progress.new.at ≡ progress.old.at
        + row_size task_size (task_names tasks.now)) }
    ensures faults { OnOk result (AreNoted progress.old progress.new
        (rule.tasks_faults (map view_entry entries.now) [] progress.old.at
        (task_names tasks.now))) }
{
    let mut used = Used::new(alloc);
    for task in tasks {
        check_task(entries, &mut used, task.as_slice(), progress)?;
    }
    Ok(())
}

// The place of the transition of the output or internal of this name.
fn place_of(transitions: &[Transition], name: &str) -> usize
    ensures { result ≡ rule.place_of name.now 0 (map view_transition transitions.now) }
{
    for (place, transition) in transitions.iter().enumerate() {
        if is_named(&transition.entry, name) {
            return place;
        }
    }
    transitions.len()
}

fn places_of(
    alloc: Global,
    transitions: &[Transition],
    task: &[String],
) -> Result<Vec<usize>, AllocError>
    ensures { IfOk result (λ ns. ns.items
        ≡ map (λ q. rule.place_of q 0 (map view_transition transitions.now))
        (map string_bytes task.now)) }
{
    let mut places = Vec::new(alloc);
    for name in task {
        places.push(place_of(transitions, name.as_str()))?;
    }
    Ok(places)
}

/// The places of the transitions of each task.
pub fn task_places(
    alloc: Global,
    transitions: &[Transition],
    tasks: &[Vec<String>],
) -> Result<Vec<Vec<usize>>, AllocError>
    ensures { IfOk result (λ ts. place_lists ts.items
        ≡ map (λ t. map (λ q. rule.place_of q 0 (map view_transition transitions.now)) t)
        (task_names tasks.now)) }
{
    let mut places = Vec::new(alloc);
    for task in tasks {
        let one = places_of(alloc, transitions, task.as_slice())?;
        places.push(one)?;
    }
    Ok(places)
}
