//! The entries of components, one component after the other.
ghost use Rattle.std.specs.Prelude.{◌≡◌, ◌++◌, map, None, Some, option_map, IfOk, OnOk};
ghost use Rattle.ioa_check.specs.Resolutions.{automaton_meaning, component_meaning, transition_meaning};
ghost use Rattle.compose.specs.Types.{automaton_of};
ghost use Rattle.compose.specs.TypedStandings.{stood, stood_in, entries_in, stands};

use ioa_check::{Automaton, Component, Transition};
use ioa_typing::Kind;
use std::alloc::Global;
use terms::NoMemory;

/// An entry of a component, with the kinds of its automaton's formals.
#[derive(Clone, Copy)]
pub(crate) struct Standing<'a> {
    pub(crate) component: usize,
    pub(crate) formals: &'a [Kind],
    pub(crate) entry: &'a Transition,
}

// The automaton of a component.
fn automaton_of<'a>(automata: &'a [Automaton], component: &Component) -> Option<&'a Automaton>
    ensures { option_map (λ a. automaton_meaning a.now) result
        ≡ automaton_of (map automaton_meaning automata.now) component.now.automaton }
{
    match component.automaton {
        Some(number) => automata.get(number),
        None => None,
    }
}

fn add_standings<'a>(
    standings: &mut Vec<Standing<'a>>,
    component: usize,
    automaton: &'a Automaton,
) -> Result<(), NoMemory>
    ensures { OnOk result (map stood standings.new.items ≡ map stood standings.old.items
        ++ entries_in component (Some (automaton_meaning automaton.now))) }
{
    let formals = automaton.formals.as_slice();
    for entry in &automaton.transitions {
        standings.push(Standing {
            component,
            formals,
            entry,
        })?;
    }
    Ok(())
}

/// The entries of all components.
pub(crate) fn standings<'a>(
    alloc: Global,
    automata: &'a [Automaton],
    components: &'a [Component],
) -> Result<Vec<Standing<'a>>, NoMemory>
    ensures { IfOk result (λ all. map stood all.items
        ≡ stands (map automaton_meaning automata.now) 0 (map component_meaning components.now)) }
{
    let mut all = Vec::new(alloc);
    for (number, component) in components.iter().enumerate() {
        if let Some(automaton) = automaton_of(automata, component) {
            add_standings(&mut all, number, automaton)?;
        }
    }
    Ok(all)
}
