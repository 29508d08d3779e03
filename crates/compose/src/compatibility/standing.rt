//! The entries of components, one component after the other.
ghost use Rattle.std.specs.Prelude.{◌≡◌, ◌++◌, true, false, map, IfOk, OnOk};
ghost use Rattle.io_automata.specs.Automata.{composed, instance_of, transition_of};
ghost use Rattle.compose.specs.Standings.{stood, stood_in, stands, Clash};

use crate::compatibility::entries::is_shared;
use crate::compatibility::rule::{Rule, is_barred};
use io_automata::{Automaton, Component, Entry};
use std::alloc::Global;
use terms::{NoMemory, Scalar};

/// An entry of a component, with the values of the component's formals.
#[derive(Clone, Copy)]
pub(crate) struct Standing<'a> {
    pub(crate) component: usize,
    pub(crate) entry: &'a Entry,
    pub(crate) formals: &'a [Scalar],
}

// Whether two entries break a rule.
pub(crate) fn clash(rule: Rule, a: &Standing, b: &Standing) -> bool
    ensures some { result ≡ true → Clash rule (stood a.now) (stood b.now) }
    ensures none { result ≡ false → Clash rule (stood a.now) (stood b.now) → ⊥ }
{
    is_barred(rule, a.component == b.component, a.entry.kind, b.entry.kind)
        && is_shared(a.formals, a.entry, b.formals, b.entry)
}

fn entries_of<'a>(automata: &'a [Automaton], component: &Component) -> &'a [Entry]
    ensures { (instance_of automata.now component.now).entries ≡ map transition_of result.now }
{
    match automata.get(component.automaton) {
        Some(automaton) => automaton.entries.as_slice(),
        None => &[],
    }
}

fn add_standings<'a>(
    standings: &mut Vec<Standing<'a>>,
    component: usize,
    entries: &'a [Entry],
    formals: &'a [Scalar],
) -> Result<(), NoMemory>
    ensures { OnOk result (map stood standings.new.items ≡ map stood standings.old.items
        ++ map (stood_in component formals.now) (map transition_of entries.now)) }
{
    for entry in entries {
        standings.push(Standing {
            component,
            entry,
            formals,
        })?;
    }
    Ok(())
}

/// The entries of all components.
pub(crate) fn standings<'a>(
    alloc: Global,
    automata: &'a [Automaton],
    components: &'a [Component],
) -> Result<Vec<Standing<'a>>, NoMemory>
    ensures { IfOk result (λ all. map stood all.items
        ≡ stands 0 (composed automata.now components.now)) }
{
    let mut all = Vec::new(alloc);
    let mut number = 0;
    for component in components {
        let entries = entries_of(automata, component);
        add_standings(&mut all, number, entries, component.formals.as_slice())?;
        number += 1;
    }
    Ok(all)
}
