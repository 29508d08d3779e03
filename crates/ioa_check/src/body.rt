//! The checks of what stands in an automaton.
ghost use Rattle.std.specs.Prelude.{◌≡◌, ◌+◌, ◌<◌, ◌^◌, length, map, nat_lt, OnOk, IfOk};
ghost use Rattle.ioa_trees.specs.Views.{view_automaton, view_declared};
ghost use Rattle.ioa_trees.specs.AutomatonRules as rule;
ghost use Rattle.ioa_trees.specs.EntryRules.{meant_by};
ghost use Rattle.ioa_trees.specs.Sizes.{automaton_size, bracketed_size, declared_size};
ghost use Rattle.ioa_typing.specs.KindViews.{option_tree};
ghost use Rattle.ioa_entries.specs.EntryViews.{meant_tree};
ghost use Rattle.ioa_typing.specs.NameViews.{names_tree};
ghost use Rattle.ioa_typing.specs.Noted.{AreNoted};
ghost use Rattle.ioa_check.specs.Bodies as body;
ghost use Rattle.ioa_check.specs.Meant.{automaton_tree};
ghost use Rattle.ioa_check.specs.AutomatonParts as part;
ghost use Rattle.ioa_check.specs.AutomatonViews.{cell_kind, cell_start};

use crate::formals::check_formals;
use crate::locals::use_parameters;
use crate::meant::MeantAutomaton;
use crate::tasks::{check_tasks, task_places};
use crate::used::Used;
use crate::variables::{Cell, check_variables, declare_variables};
use ioa_entries::{Meant, check_entries, check_transitions};
use ioa_trees::tree::{Automaton, Declared};
use ioa_typing::{FaultKind, Kind, Names, Progress};
use std::alloc::{AllocError, Global};

// A word or a parenthesis, where something stands behind it.
fn word<T>(items: &[T]) -> u32
    ensures { result ≡ body.word items.now }
{
    match items.first() {
        None => 0,
        Some(_) => 1,
    }
}

// Whether an automaton has too many formals.
fn is_long(formals: &[Declared]) -> bool
    ensures { result ≡ nat_lt 16 (length (map view_declared formals.now)) }
{
    formals.len() > 16
}

// Checks formals with their parentheses, and declares them.
#[tactic(auto, using(crate::proofs::Bodies::bracketed_sized, crate::proofs::Bodies::word_map))]
fn check_bracketed(
    alloc: Global,
    names: &mut Names,
    formals: &[Declared],
    progress: &mut Progress,
) -> Result<Vec<Option<Kind>>, AllocError>
    requires room { progress.old.at + bracketed_size declared_size (map view_declared formals.now)
        < 2 ^ 32 }
    ensures at { OnOk result (progress.new.at ≡ progress.old.at
        + bracketed_size declared_size (map view_declared formals.now)) }
    ensures names { OnOk result (names_tree names.new
        ≡ rule.with_formals (names_tree names.old) 0 (map view_declared formals.now)) }
    ensures faults { OnOk result (AreNoted progress.old progress.new
        (rule.formals_faults (names_tree names.old) 0 (progress.old.at + 1)
        (map view_declared formals.now))) }
    ensures kinds { IfOk result (λ ks. map option_tree ks.items
        ≡ rule.formal_kinds (names_tree names.old) 0 (map view_declared formals.now)) }
{
    let bracket = word(formals);
    progress.at += bracket;
    let kinds = check_formals(alloc, names, formals, progress)?;
    progress.at += bracket;
    Ok(kinds)
}

// Checks an automaton from its first token to the end of its signature, and declares its formals.
fn check_front(
    alloc: Global,
    names: &mut Names,
    automaton: &Automaton,
    progress: &mut Progress,
) -> Result<Vec<Option<Kind>>, AllocError>
    requires room { rule.states_at progress.old.at (view_automaton automaton.now) < 2 ^ 32 }
    ensures at { OnOk result (progress.new.at
        ≡ rule.states_at progress.old.at (view_automaton automaton.now)) }
    ensures names { OnOk result (names_tree names.new
        ≡ rule.inside (names_tree names.old) (view_automaton automaton.now)) }
    ensures faults { OnOk result (AreNoted progress.old progress.new
        (body.front_faults (names_tree names.old) progress.old.at (view_automaton automaton.now))) }
    ensures kinds { IfOk result (λ ks. map option_tree ks.items
        ≡ rule.formal_kinds (names_tree names.old) 0 (view_automaton automaton.now).formals) }
{
    let formals = automaton.formals.as_slice();
    let entries = automaton.entries.as_slice();
    let transitions = automaton.transitions.as_slice();
    let tasks = automaton.tasks.as_slice();
    progress.note_if(is_long(formals), progress.at + 1, FaultKind::OverLimit);
    progress.at += 2;
    let kinds = check_bracketed(alloc, names, formals, progress)?;
    progress.at += 1;
    check_entries(alloc, names, entries, transitions, tasks, progress)?;
    Ok(kinds)
}

// Checks state variables with their word, and declares them.
#[tactic(auto, using(crate::proofs::Bodies::listed_after, crate::proofs::Bodies::word_map))]
fn check_states(
    alloc: Global,
    names: &mut Names,
    automaton: &Automaton,
    progress: &mut Progress,
) -> Result<Vec<Cell>, AllocError>
    requires room { progress.old.at + body.states_size (view_automaton automaton.now) < 2 ^ 32 }
    ensures at { OnOk result (progress.new.at ≡ progress.old.at
        + body.states_size (view_automaton automaton.now)) }
    ensures names { OnOk result (names_tree names.new
        ≡ rule.with_variables (names_tree names.old) (names_tree names.old) 0
        (view_automaton automaton.now).variables) }
    ensures faults { OnOk result (AreNoted progress.old progress.new
        (body.states_faults (names_tree names.old) progress.old.at
        (view_automaton automaton.now))) }
    ensures kinds { IfOk result (λ cs. map cell_kind cs.items
        ≡ map (part.kind_in (names_tree names.old)) (view_automaton automaton.now).variables) }
    ensures starts { IfOk result (λ cs. map cell_start cs.items
        ≡ map (part.start_in (names_tree names.old)) (view_automaton automaton.now).variables) }
{
    let entries = automaton.entries.as_slice();
    let variables = automaton.variables.as_slice();
    let mut used = Used::new(alloc);
    use_parameters(&mut used, entries)?;
    let ahead = word(variables);
    progress.at += ahead;
    let cells = check_variables(alloc, names, &mut used, variables, progress)?;
    declare_variables(alloc, names, variables, cells.as_slice())?;
    Ok(cells)
}

// Checks transitions and tasks with their words.
#[tactic(auto, using(crate::proofs::Bodies::row_after, crate::proofs::Bodies::word_map))]
fn check_actions(
    alloc: Global,
    names: &mut Names,
    automaton: &Automaton,
    progress: &mut Progress,
) -> Result<Vec<Meant>, AllocError>
    requires room { progress.old.at + body.actions_size (view_automaton automaton.now) < 2 ^ 32 }
    ensures at { OnOk result (progress.new.at ≡ progress.old.at
        + body.actions_size (view_automaton automaton.now)) }
    ensures names { OnOk result (names_tree names.new ≡ names_tree names.old) }
    ensures faults { OnOk result (AreNoted progress.old progress.new
        (body.actions_faults (names_tree names.old) progress.old.at
        (view_automaton automaton.now))) }
    ensures meant { IfOk result (λ ms. map meant_tree ms.items
        ≡ map (meant_by (names_tree names.old)) (view_automaton automaton.now).transitions) }
{
    let entries = automaton.entries.as_slice();
    let transitions = automaton.transitions.as_slice();
    let tasks = automaton.tasks.as_slice();
    progress.at += 1;
    let meant = check_transitions(alloc, names, entries, transitions, progress)?;
    let ahead = word(tasks);
    progress.at += ahead;
    check_tasks(alloc, entries, tasks, progress)?;
    Ok(meant)
}

// Checks an automaton but for its name, and declares its formals and state variables.
fn check_body(
    alloc: Global,
    names: &mut Names,
    automaton: &Automaton,
    progress: &mut Progress,
) -> Result<MeantAutomaton, AllocError>
    requires room { progress.old.at + automaton_size (view_automaton automaton.now) < 2 ^ 32 }
    ensures at { OnOk result (progress.new.at ≡ progress.old.at
        + automaton_size (view_automaton automaton.now)) }
    ensures names { OnOk result (names_tree names.new
        ≡ rule.around (names_tree names.old) (view_automaton automaton.now)) }
    ensures faults { OnOk result (AreNoted progress.old progress.new
        (rule.body_faults (names_tree names.old) progress.old.at (view_automaton automaton.now))) }
    ensures meant { IfOk result (λ m. automaton_tree m
        ≡ rule.meaning_of (names_tree names.old) (view_automaton automaton.now)) }
{
    let formals = check_front(alloc, names, automaton, progress)?;
    let cells = check_states(alloc, names, automaton, progress)?;
    let entries = check_actions(alloc, names, automaton, progress)?;
    let transitions = automaton.transitions.as_slice();
    let named = automaton.tasks.as_slice();
    let tasks = task_places(alloc, transitions, named)?;
    let name = automaton.name.clone()?;
    Ok(MeantAutomaton {
        name,
        formals,
        entries,
        cells,
        tasks,
    })
}

/// Checks an automaton but for its name: notes its faults, goes behind it, and says what it means.
pub(crate) fn check_inside(
    alloc: Global,
    names: &mut Names,
    automaton: &Automaton,
    progress: &mut Progress,
) -> Result<MeantAutomaton, AllocError>
    requires room { progress.old.at + automaton_size (view_automaton automaton.now) < 2 ^ 32 }
    ensures at { OnOk result (progress.new.at ≡ progress.old.at
        + automaton_size (view_automaton automaton.now)) }
    ensures names { OnOk result (names_tree names.new ≡ names_tree names.old) }
    ensures faults { OnOk result (AreNoted progress.old progress.new
        (rule.body_faults (names_tree names.old) progress.old.at (view_automaton automaton.now))) }
    ensures meant { IfOk result (λ m. automaton_tree m
        ≡ rule.meaning_of (names_tree names.old) (view_automaton automaton.now)) }
{
    let len = names.len();
    let meant = check_body(alloc, names, automaton, progress)?;
    names.truncate(len);
    Ok(meant)
}
