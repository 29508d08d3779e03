//! The checks of components.
ghost use Rattle.std.specs.Prelude.{◌≡◌, ◌+◌, ◌<◌, ◌^◌, ◌||◌, [], bytes_eq, map, string_bytes, OnOk, IfOk};
ghost use Rattle.std.specs.List.{list_any};
ghost use Rattle.ioa_trees.specs.Trees.{Bytes};
ghost use Rattle.ioa_trees.specs.Views.{view_component};
ghost use Rattle.ioa_trees.specs.Faults.{where_wrong};
ghost use Rattle.ioa_trees.specs.Scopes.{automaton_meant, named};
ghost use Rattle.ioa_trees.specs.Sizes.{component_size, listed_size};
ghost use Rattle.ioa_trees.specs.SourceRules as source;
ghost use Rattle.ioa_typing.specs.NameViews.{names_tree};
ghost use Rattle.ioa_typing.specs.Noted.{AreNoted};
ghost use Rattle.ioa_check.specs.Meant.{automaton_tree};
ghost use Rattle.ioa_check.specs.AutomatonViews.{used_names};
ghost use Rattle.ioa_check.specs.ComponentViews.{component_tree};

use crate::arguments::check_placing;
use crate::component::MeantComponent;
use crate::meant::MeantAutomaton;
use crate::used::Used;
use ioa_entries::between::between;
use ioa_trees::tree::ComponentTree;
use ioa_typing::{FaultKind, Meaning, Names, Progress};
use std::alloc::{AllocError, Global};

// The number of the automaton of this name.
fn automaton_named(names: &Names, name: &str) -> Option<usize>
    ensures { result ≡ automaton_meant (named name.now (names_tree names.now)) }
{
    match names.get(name) {
        Some(Meaning::Automaton(number)) => Some(*number),
        _ => None,
    }
}

// Checks a component's name, and puts it among the names of components.
fn check_name(used: &mut Used, name: &String, progress: &mut Progress) -> Result<(), AllocError>
    ensures at { OnOk result (progress.new.at ≡ progress.old.at) }
    ensures names { OnOk result ((q : Bytes)
        → list_any (bytes_eq q) (used_names used.new)
        ≡ (bytes_eq q (string_bytes name.now) || list_any (bytes_eq q) (used_names used.old))) }
    ensures faults { OnOk result (AreNoted progress.old progress.new
        (where_wrong
        (list_any (bytes_eq (string_bytes name.now)) (used_names used.old)) progress.old.at 11)) }
{
    progress.note_if(
        used.contains(name.as_str()),
        progress.at,
        FaultKind::DoubleName,
    );
    used.insert(name)?;
    Ok(())
}

fn check_component(
    alloc: Global,
    names: &Names,
    used: &mut Used,
    table: &[MeantAutomaton],
    component: &ComponentTree,
    progress: &mut Progress,
) -> Result<MeantComponent, AllocError>
    requires room { progress.old.at + component_size (view_component component.now) < 2 ^ 32 }
    ensures at { OnOk result (progress.new.at ≡ progress.old.at
        + component_size (view_component component.now)) }
    ensures names { OnOk result ((q : Bytes)
        → list_any (bytes_eq q) (used_names used.new)
        ≡ (bytes_eq q (string_bytes component.now.name)
        || list_any (bytes_eq q) (used_names used.old))) }
    ensures faults { OnOk result (AreNoted progress.old progress.new
        (source.component_faults (names_tree names.now) (map automaton_tree table.now)
        (used_names used.old) progress.old.at (view_component component.now))) }
    ensures meant { IfOk result (λ c. component_tree c
        ≡ source.component_of (names_tree names.now) (map automaton_tree table.now)
        (view_component component.now)) }
{
    check_name(used, &component.name, progress)?;
    progress.at += 2;
    let automaton = automaton_named(names, component.automaton.as_str());
    let given = component.arguments.as_slice();
    let arguments = check_placing(alloc, names, table, automaton, given, progress)?;
    let name = component.name.clone()?;
    Ok(MeantComponent {
        name,
        automaton,
        arguments,
    })
}

/// Checks components: notes their faults, goes behind them, and says what they mean.
pub(crate) fn check_components(
    alloc: Global,
    names: &Names,
    table: &[MeantAutomaton],
    components: &[ComponentTree],
    progress: &mut Progress,
) -> Result<Vec<MeantComponent>, AllocError>
    requires room { progress.old.at + listed_size component_size (map view_component components.now)
        < 2 ^ 32 }
    ensures at { OnOk result (progress.new.at ≡ progress.old.at
        + listed_size component_size (map view_component components.now)) }
    ensures faults { OnOk result (AreNoted progress.old progress.new
        (source.components_faults (names_tree names.now)
        (map automaton_tree table.now) [] progress.old.at (map view_component components.now))) }
    ensures meant { IfOk result (λ cs. map component_tree cs.items
        ≡ source.components_of (names_tree names.now) (map automaton_tree table.now)
        (map view_component components.now)) }
{
    let mut meant = Vec::new(alloc);
    let mut used = Used::new(alloc);
    let mut is_first = true;
    for component in components {
        progress.at += between(is_first);
        is_first = false;
        let one = check_component(alloc, names, &mut used, table, component, progress)?;
        meant.push(one)?;
    }
    Ok(meant)
}
