// What is there of the parts of a meaning, of which none is missing.
ghost use Rattle.std.specs.Prelude.{◌≡◌, Some, IsSome, map, IfOk};
ghost use Rattle.std.specs.List.{All};
ghost use Rattle.ioa_check.specs.Meant.{automaton_tree};
ghost use Rattle.ioa_check.specs.AutomatonViews.{cell_kind, cell_start};
ghost use Rattle.ioa_check.specs.ComponentViews.{component_tree};
ghost use Rattle.ioa_entries.specs.EntryViews.{meant_tree};
ghost use Rattle.ioa_typing.specs.KindViews.{option_tree};
ghost use Rattle.ioa_trees.specs.Meant.{AllSome, IsWholeSource, IsWholeAutomaton, IsWholeComponent, IsWholeEntry};
ghost use Rattle.ioa_typing.specs.TermViews.{core_tree};
ghost use Rattle.ioa_check.specs.Resolutions.{automaton_meaning, component_meaning, meaning, transition_meaning};
ghost use Rattle.ioa_check.specs.SourceViews.{source_tree};

use crate::component::MeantComponent;
use crate::meant::{MeantAutomaton, MeantSource};
use crate::resolved::{Automaton, Component, Resolved, Transition, Variable};
use crate::variables::Cell;
use ioa_entries::Meant;
use std::alloc::{AllocError, Global};

// What is there.
fn there<T>(item: Option<T>) -> T
    requires { IsSome item }
    ensures { item ≡ Some result }
{
    match item {
        Some(found) => found,
        None => unreachable!(),
    }
}

// All that is there, in its order.
fn all<T: Drop>(alloc: Global, items: Vec<Option<T>>) -> Result<Vec<T>, AllocError>
    requires { AllSome items.items }
    ensures { IfOk result (λ xs. map Some xs.items ≡ items.items) }
{
    let mut found = Vec::new(alloc);
    for item in items {
        found.push(there(item))?;
    }
    Ok(found)
}

fn transition(alloc: Global, meant: Meant) -> Result<Transition, AllocError>
    requires { IsWholeEntry (meant_tree meant) }
    ensures { IfOk result (λ t. transition_meaning t ≡ meant_tree meant) }
{
    let parameters = match all(alloc, meant.parameters) {
        Ok(parameters) => parameters,
        Err(refused) => {
            drop(meant.pre);
            drop(meant.effect);
            return Err(refused);
        }
    };
    Ok(Transition {
        kind: meant.kind,
        name: meant.name,
        parameters,
        pre: there(meant.pre),
        effect: there(meant.effect),
    })
}

fn transitions(alloc: Global, entries: Vec<Meant>) -> Result<Vec<Transition>, AllocError>
    requires { All IsWholeEntry (map meant_tree entries.items) }
    ensures { IfOk result (λ ts. map transition_meaning ts.items ≡ map meant_tree entries.items) }
{
    let mut found = Vec::new(alloc);
    for entry in entries {
        found.push(transition(alloc, entry)?)?;
    }
    Ok(found)
}

fn variable(cell: Cell) -> Variable
    requires kind { IsSome (cell_kind cell) }
    requires start { IsSome (cell_start cell) }
    ensures kind { option_tree (Some result.kind) ≡ cell_kind cell }
    ensures start { core_tree (Some result.start) ≡ cell_start cell }
{
    Variable {
        kind: there(cell.kind),
        start: there(cell.start),
    }
}

fn variables(alloc: Global, cells: Vec<Cell>) -> Result<Vec<Variable>, AllocError>
    requires kinds { AllSome (map cell_kind cells.items) }
    requires starts { AllSome (map cell_start cells.items) }
    ensures kinds { IfOk result (λ vs. map (λ v. option_tree (Some v.kind)) vs.items
        ≡ map cell_kind cells.items) }
    ensures starts { IfOk result (λ vs. map (λ v. core_tree (Some v.start)) vs.items
        ≡ map cell_start cells.items) }
{
    let mut found = Vec::new(alloc);
    for cell in cells {
        found.push(variable(cell))?;
    }
    Ok(found)
}

fn automaton(alloc: Global, meant: MeantAutomaton) -> Result<Automaton, AllocError>
    requires { IsWholeAutomaton (automaton_tree meant) }
    ensures { IfOk result (λ a. automaton_meaning a ≡ automaton_tree meant) }
{
    let formals = all(alloc, meant.formals)?;
    let transitions = transitions(alloc, meant.entries)?;
    let variables = variables(alloc, meant.cells)?;
    Ok(Automaton {
        name: meant.name,
        formals,
        transitions,
        variables,
        tasks: meant.tasks,
    })
}

fn automata(alloc: Global, meant: Vec<MeantAutomaton>) -> Result<Vec<Automaton>, AllocError>
    requires { All IsWholeAutomaton (map automaton_tree meant.items) }
    ensures { IfOk result (λ xs. map automaton_meaning xs.items ≡ map automaton_tree meant.items) }
{
    let mut found = Vec::new(alloc);
    for one in meant {
        found.push(automaton(alloc, one)?)?;
    }
    Ok(found)
}

fn component(alloc: Global, meant: MeantComponent) -> Result<Component, AllocError>
    requires { IsWholeComponent (component_tree meant) }
    ensures { IfOk result (λ c. component_meaning c ≡ component_tree meant) }
{
    let arguments = all(alloc, meant.arguments)?;
    Ok(Component {
        name: meant.name,
        automaton: meant.automaton,
        arguments,
    })
}

fn components(alloc: Global, meant: Vec<MeantComponent>) -> Result<Vec<Component>, AllocError>
    requires { All IsWholeComponent (map component_tree meant.items) }
    ensures { IfOk result (λ cs. map component_meaning cs.items ≡ map component_tree meant.items) }
{
    let mut found = Vec::new(alloc);
    for one in meant {
        found.push(component(alloc, one)?)?;
    }
    Ok(found)
}

/// A meaning of which no part is missing, without what says that parts may be missing.
pub(crate) fn resolve(alloc: Global, meant: MeantSource) -> Result<Resolved, AllocError>
    requires { IsWholeSource (source_tree meant) }
    ensures { IfOk result (λ x. meaning x ≡ source_tree meant) }
{
    let automata = automata(alloc, meant.automata)?;
    let components = components(alloc, meant.components)?;
    Ok(Resolved {
        members: meant.members,
        automata,
        components,
        hidden: meant.hidden,
    })
}
