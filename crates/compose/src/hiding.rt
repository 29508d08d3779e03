//! Hidden names of which no component has an output.
ghost use Rattle.std.specs.Prelude.{◌≡◌, ◌<◌, ◌||◌, ◌++◌, ◌∷◌, [], ℕ, List, true, false, bytes_eq, map, IfOk, IfSome, IfNone, OnOk};
ghost use Rattle.std.specs.List.{list_any};
ghost use Rattle.compose.specs.Rules.{IsFirst};
ghost use Rattle.ioa_check.specs.AutomatonViews.{used_names};
ghost use Rattle.ioa_check.specs.Resolutions.{automaton_meaning, component_meaning, meaning, transition_meaning};
ghost use Rattle.ioa_trees.specs.SourceRules.{MeantComponent};
ghost use Rattle.ioa_trees.specs.Trees.{Bytes};
ghost use Rattle.compose.specs.Faults.{OutputMissing, gives_in, is_output, is_output_of};
ghost use Rattle.compose.specs.Outputs.{AddsOutputs, AreGiven, lacks_at};

use crate::instances::table::{is_marked, mark, unmarked};
use ioa_check::{Automaton, Component, Resolved, Transition, Used};
use ioa_trees::tree::EntryKind;
use std::alloc::{AllocError, Global};

fn is_output(kind: EntryKind) -> bool
    ensures { result ≡ is_output kind }
{
    match kind {
        EntryKind::Input => false,
        EntryKind::Output => true,
        EntryKind::Internal => false,
    }
}

// Puts the name of an entry among others, if it is an output.
fn add_output(given: &mut Used, transition: &Transition) -> Result<(), AllocError>
    ensures { OnOk result (AddsOutputs (used_names given.new) (used_names given.old)
        (transition_meaning transition.now ∷ [])) }
{
    if is_output(transition.kind) {
        given.insert(&transition.name)?;
    }
    Ok(())
}

fn add_outputs(given: &mut Used, transitions: &[Transition]) -> Result<(), AllocError>
    ensures { OnOk result (AddsOutputs (used_names given.new) (used_names given.old)
        (map transition_meaning transitions.now)) }
{
    for transition in transitions {
        add_output(given, transition)?;
    }
    Ok(())
}

// Adds the outputs of a component, unless its automaton was visited before.
fn visit(
    given: &mut Used,
    visited: &mut Vec<bool>,
    automata: &[Automaton],
    component: &Component,
) -> Result<(), AllocError>
    ensures { OnOk result ((seen : List MeantComponent)
        → AreGiven (map automaton_meaning automata.now) seen
        (used_names given.old) visited.old.items
        → AreGiven (map automaton_meaning automata.now)
        (seen ++ component_meaning component.now ∷ []) (used_names given.new) visited.new.items) }
{
    let Some(number) = component.automaton else {
        return Ok(());
    };
    let Some(automaton) = automata.get(number) else {
        return Ok(());
    };
    if is_marked(visited.as_slice(), number) {
        return Ok(());
    }
    mark(visited, number);
    add_outputs(given, automaton.transitions.as_slice())?;
    Ok(())
}

// The names of which components have outputs. Each automaton is visited once.
fn given_names(
    alloc: Global,
    automata: &[Automaton],
    components: &[Component],
) -> Result<Used, AllocError>
    ensures { IfOk result (λ given. (q : Bytes) → list_any (bytes_eq q) (used_names given)
        ≡ list_any (gives_in (map automaton_meaning automata.now) q)
        (map component_meaning components.now)) }
{
    let mut given = Used::new(alloc);
    let mut visited = unmarked(alloc, automata.len())?;
    for component in components {
        visit(&mut given, &mut visited, automata, component)?;
    }
    Ok(given)
}

// The first of these names that isn't among others.
fn first_missing(names: &[String], given: &Used) -> Option<usize>
    ensures some { IfSome result (λ n. (lacks_at (used_names given.now) names.now n ≡ true)
        × ((k : ℕ) → k < n → lacks_at (used_names given.now) names.now k ≡ false)) }
    ensures none { IfNone result ((k : ℕ) → lacks_at (used_names given.now) names.now k ≡ false) }
{
    names.iter().position(|name| !given.contains(name.as_str()))
}

/// The number of the first hidden name of which no component has an output.
pub(crate) fn first_not_given(
    alloc: Global,
    resolved: &Resolved,
) -> Result<Option<usize>, AllocError>
    ensures { IfOk result (λ first. IsFirst (OutputMissing (meaning resolved.now)) first) }
{
    let names = resolved.hidden.as_slice();
    if names.is_empty() {
        return Ok(None);
    }
    let automata = resolved.automata.as_slice();
    let components = resolved.components.as_slice();
    let given = given_names(alloc, automata, components)?;
    let first = first_missing(names, &given);
    drop(given);
    Ok(first)
}
