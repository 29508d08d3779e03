//! The check of the composed automaton.
ghost use Rattle.std.specs.Prelude.{◌≡◌, ◌+◌, ◌<◌, ◌^◌, ◌||◌, List, bytes_eq, map, string_bytes, OnOk, IfOk};
ghost use Rattle.std.specs.List.{list_any};
ghost use Rattle.std.specs.Option.{is_some};
ghost use Rattle.ioa_trees.specs.Trees.{Bytes};
ghost use Rattle.ioa_trees.specs.Views.{view_component, view_composed};
ghost use Rattle.ioa_trees.specs.Scopes.{named, taken_before};
ghost use Rattle.ioa_trees.specs.Sizes.{composed_size};
ghost use Rattle.ioa_trees.specs.SourceRules as source;
ghost use Rattle.ioa_typing.specs.NameViews.{names_tree};
ghost use Rattle.ioa_typing.specs.Noted.{AreNoted};
ghost use Rattle.ioa_check.specs.Meant.{automaton_tree};
ghost use Rattle.ioa_check.specs.Sets.{AreNames};
ghost use Rattle.ioa_check.specs.AutomatonViews.{used_names};
ghost use Rattle.ioa_check.specs.ComponentViews.{component_tree};

use crate::components::check_components;
use crate::hidden::check_hidden;
use crate::meant::{MeantAutomaton, MeantComposed};
use crate::used::Used;
use ioa_trees::tree::Composed;
use ioa_typing::{FaultKind, Names, Progress};
use std::alloc::{AllocError, Global};

// Whether a name stands in scope, or was used before.
fn is_taken(names: &Names, used: &Used, name: &str) -> bool
    ensures { result ≡ (is_some (named name.now (names_tree names.now))
        || list_any (bytes_eq name.now) (used_names used.now)) }
{
    names.get(name).is_some() || used.contains(name)
}

// Checks the name behind the first word.
fn check_name(names: &Names, used: &Used, name: &str, progress: &mut Progress)
    requires room { progress.old.at + 1 < 2 ^ 32 }
    ensures at { progress.new.at ≡ progress.old.at }
    ensures faults { AreNoted progress.old progress.new
        (taken_before (names_tree names.now) (used_names used.now) (progress.old.at + 1) name.now) }
{
    progress.note_if(
        is_taken(names, used, name),
        progress.at + 1,
        FaultKind::DoubleName,
    );
}

/// Checks the composed automaton from its first word on, where other automata have these names inside and these meanings: notes its
/// faults, goes behind it, and says what its components mean, and which outputs are to be hidden.
pub fn check_composed(
    alloc: Global,
    names: &Names,
    used: &Used,
    table: &[MeantAutomaton],
    composed: &Composed,
    progress: &mut Progress,
) -> Result<MeantComposed, AllocError>
    requires room { progress.old.at + composed_size (view_composed composed.now) < 2 ^ 32 }
    ensures at { OnOk result (progress.new.at ≡ progress.old.at
        + composed_size (view_composed composed.now)) }
    ensures faults { OnOk result ((L : List Bytes) → AreNames (used_names used.now) L
        → AreNoted progress.old progress.new
        (source.composed_faults (names_tree names.now) L
        (map automaton_tree table.now) progress.old.at (view_composed composed.now))) }
    ensures components { IfOk result (λ m. map component_tree m.components.items
        ≡ source.components_of (names_tree names.now) (map automaton_tree table.now)
        (map view_component composed.now.components.items)) }
    ensures hidden { IfOk result (λ m. map string_bytes m.hidden.items
        ≡ map string_bytes composed.now.hidden.items) }
{
    check_name(names, used, composed.name.as_str(), progress);
    progress.at += 3;
    let placed = composed.components.as_slice();
    let components = check_components(alloc, names, table, placed, progress)?;
    let listed = composed.hidden.as_slice();
    let hidden = check_hidden(alloc, listed, progress)?;
    Ok(MeantComposed { components, hidden })
}
