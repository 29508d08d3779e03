//! The parts of a plan.
ghost use Rattle.std.specs.Prelude.{◌≡◌, ◌<◌, ◌^◌, map, length, string_bytes, IfOk};
ghost use Rattle.std.specs.List.{All};
ghost use Rattle.io_automata.specs.Automata.{composed};
ghost use Rattle.plans.specs.Plans.{mark_of, text_of, types_of};
ghost use Rattle.ioa_check.specs.Resolutions.{meaning};
ghost use Rattle.compose.specs.Instances.{instances};
ghost use Rattle.compose.specs.Names.{AreNames, IsRising, entries_in, first_types, is_hidden};
ghost use Rattle.compose.specs.Tables.{IsTable, action_signature, meant_parts, parts_in, table};

use crate::instances::actions::{actions_of, names_in};
use crate::instances::automata::automata;
use crate::instances::components::components;
use crate::instances::table::{Table, table_of};
use io_automata::{ActionName, Automaton, Component};
use ioa_check::Resolved;
use std::alloc::Global;
use std::collections::BTreeMap;
use terms::{NoMemory, Shape};

/// The parts of a plan that a source means.
#[derive(Drop)]
pub struct Parts {
    pub automata: Vec<Automaton>,
    pub components: Vec<Component>,
    /// The names of the actions, in the order of their bytes, with marks on those whose outputs are hidden.
    pub actions: Vec<ActionName>,
    pub members: Vec<String>,
}

fn table_in(alloc: Global, resolved: &Resolved) -> Result<Table, NoMemory>
    ensures { IfOk result (λ t. IsTable (meaning resolved.now).automata
        (meaning resolved.now).components (table t.names) t.used.items) }
{
    let automata = resolved.automata.as_slice();
    let components = resolved.components.as_slice();
    Ok(table_of(alloc, automata, components)?)
}

fn components_in(alloc: Global, resolved: &Resolved) -> Result<Vec<Component>, NoMemory>
    ensures { IfOk result (λ cs. map parts_in cs.items
        ≡ map (meant_parts (length (meaning resolved.now).automata))
        (meaning resolved.now).components) }
{
    let beyond = resolved.automata.len();
    let all = resolved.components.as_slice();
    components(alloc, beyond, all)
}

fn actions_in(
    alloc: Global,
    resolved: &Resolved,
    names: BTreeMap<String, Vec<Shape>>,
) -> Result<Vec<ActionName>, NoMemory>
    ensures signatures { IfOk result (λ xs. map action_signature xs.items ≡ table names) }
    ensures rising { IfOk result (λ xs. IsRising (map text_of xs.items)) }
    ensures marks { IfOk result (λ xs. map mark_of xs.items
        ≡ map (is_hidden (meaning resolved.now)) (map text_of xs.items)) }
{
    let hidden = names_in(alloc, resolved.hidden.as_slice())?;
    let actions = actions_of(alloc, names, &hidden);
    drop(hidden);
    Ok(actions?)
}

/// The parts of a plan that a checked source means. An automaton that no component has keeps its number, and has no entries. `NoMemory` where
/// memory was refused.
pub fn parts_of(alloc: Global, resolved: Resolved) -> Result<Parts, NoMemory>
    requires few { All (λ a. length a.tasks < 2 ^ 32) (meaning resolved).automata }
    requires few_entries { entries_in (meaning resolved).automata < 2 ^ 16 }
    ensures names { IfOk result (λ parts. AreNames (map text_of parts.actions.items)
        (meaning resolved)) }
    ensures composition { IfOk result (λ parts. composed parts.automata.items parts.components.items
        ≡ instances (map text_of parts.actions.items) (meaning resolved)) }
    ensures types { IfOk result (λ parts. map types_of parts.actions.items
        ≡ map (first_types (meaning resolved)) (map text_of parts.actions.items)) }
    ensures marks { IfOk result (λ parts. map mark_of parts.actions.items
        ≡ map (is_hidden (meaning resolved)) (map text_of parts.actions.items)) }
    ensures members { IfOk result (λ parts. map string_bytes parts.members.items
        ≡ (meaning resolved).members) }
{
    let table = table_in(alloc, &resolved)?;
    let components = components_in(alloc, &resolved)?;
    let actions = actions_in(alloc, &resolved, table.names)?;
    let names = actions.as_slice();
    let used = table.used.as_slice();
    let automata = automata(alloc, names, used, resolved.automata)?;
    Ok(Parts {
        automata,
        components,
        actions,
        members: resolved.members,
    })
}
