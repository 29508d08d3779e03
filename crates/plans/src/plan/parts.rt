//! A plan of its parts.
ghost use Rattle.std.specs.Prelude.{◌≡◌, ◌<◌, ◌^◌, IfOk, map, length, vec_len, string_bytes};
ghost use Rattle.io_automata.specs.Automata.{composed};
ghost use Rattle.plans.specs.Known.{AreKnown};
ghost use Rattle.io_automata.specs.Compatible.{IsCompatible};
ghost use Rattle.patterns.specs.Patterns.{IsIndexed};
ghost use Rattle.plans.specs.Plans.{composition, action_texts, action_types, hidden_marks, mark_of, member_texts, text_of, types_of};
ghost use Rattle.io_automata.specs.WellFormed.{IsWellFormed};

use crate::plan::Plan;
use io_automata::{ActionName, Automaton, Component};
use outcomes::Known;
use patterns::Index;
use std::alloc::Global;
use terms::NoMemory;

impl Plan {
    /// A plan of compatible components: fewer than 65,536, each action of a component in one entry, and with tasks that are a
    /// partition of what the component controls. The parameters of that have a formal's value or a listed type.
    pub fn new(
        alloc: Global,
        automata: Vec<Automaton>,
        components: Vec<Component>,
        actions: Vec<ActionName>,
        members: Vec<String>,
    ) -> Result<Plan, NoMemory>
        requires few { vec_len components < 2 ^ 16 }
        requires compatible { IsCompatible (composed automata.items components.items) }
        requires formed { IsWellFormed (composed automata.items components.items) }
        ensures composition { IfOk result (λ plan. composition plan
            ≡ composed automata.items components.items) }
        ensures actions { IfOk result (λ plan. action_texts plan ≡ map text_of actions.items) }
        ensures types { IfOk result (λ plan. action_types plan ≡ map types_of actions.items) }
        ensures marks { IfOk result (λ plan. hidden_marks plan ≡ map mark_of actions.items) }
        ensures members { IfOk result (λ plan. member_texts plan ≡ map string_bytes members.items) }
    {
        let index = index_of(alloc, automata.as_slice(), components.as_slice(), false)?;
        let entries = index_of(alloc, automata.as_slice(), components.as_slice(), true)?;
        let known = known_of(alloc, automata.as_slice())?;
        Ok(Plan {
            automata,
            components,
            actions,
            members,
            index,
            entries,
            known,
        })
    }
}

fn index_of(
    alloc: Global,
    automata: &[Automaton],
    components: &[Component],
    every: bool,
) -> Result<Box<Index>, NoMemory>
    requires few { length components.now < 2 ^ 16 }
    ensures { IfOk result (λ index. IsIndexed every index.value
        (composed automata.now components.now)) }
{
    let found = Index::of(alloc, automata, components, every)?;
    Ok(Box::new(alloc, found)?)
}

fn known_of(alloc: Global, automata: &[Automaton]) -> Result<Vec<Known>, NoMemory>
    ensures { IfOk result (λ known. AreKnown automata.now known.items) }
{
    let mut known = Vec::with_capacity(alloc, automata.len())?;
    for automaton in automata {
        known.push(Known::of(alloc, automaton.entries.as_slice())?)?;
    }
    Ok(known)
}
