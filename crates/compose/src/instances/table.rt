//! The table of the names that components use.
ghost use Rattle.std.specs.Prelude.{◌≡◌, ◌+◌, ◌≤◌, ◌++◌, ◌∷◌, [], List, true, false, Some, map, length, replicate, slice_set, OnOk, IfOk};
ghost use Rattle.terms.specs.ShapeTree.{shape_tree};
ghost use Rattle.ioa_trees.specs.SourceRules.{MeantComponent};
ghost use Rattle.ioa_entries.specs.EntryViews.{slot_tree};
ghost use Rattle.ioa_typing.specs.KindViews.{option_tree};
ghost use Rattle.ioa_check.specs.Resolutions.{automaton_meaning, component_meaning, transition_meaning};
ghost use Rattle.compose.specs.Names.{signature_of, signatures_in, type_in};
ghost use Rattle.compose.specs.Tables.{Adds, IsTable, mark_at, table};

use ioa_check::{Automaton, Component, Transition};
use ioa_entries::Slot;
use ioa_typing::Kind;
use ioa_typing::listing::item_shape;
use std::alloc::{AllocError, Global};
use std::collections::BTreeMap;
use terms::Shape;

/// The names that components use, each with the types of its first entry's parameters, and for each automaton whether a component has it.
#[derive(Drop)]
pub struct Table {
    pub names: BTreeMap<String, Vec<Shape>>,
    pub used: Vec<bool>,
}

fn type_of(alloc: Global, formals: &[Kind], slot: &Slot) -> Result<Shape, AllocError>
    ensures { IfOk result (λ s. shape_tree s
        ≡ type_in (map (λ k. option_tree (Some k)) formals.now) (slot_tree (Some slot.now))) }
{
    match slot {
        Slot::Free(kind) => item_shape(alloc, kind),
        Slot::Fixed(number) => match formals.get(*number) {
            Some(kind) => item_shape(alloc, kind),
            None => Ok(Shape::Int),
        },
    }
}

fn types_of(alloc: Global, formals: &[Kind], slots: &[Slot]) -> Result<Vec<Shape>, AllocError>
    ensures { IfOk result (λ ss. map shape_tree ss.items
        ≡ map (type_in (map (λ k. option_tree (Some k)) formals.now))
        (map (λ p. slot_tree (Some p)) slots.now)) }
{
    let mut types = Vec::new(alloc);
    for slot in slots {
        types.push(type_of(alloc, formals, slot)?)?;
    }
    Ok(types)
}

// Puts the name of an entry in the table, unless it is there.
fn note(
    alloc: Global,
    names: &mut BTreeMap<String, Vec<Shape>>,
    formals: &[Kind],
    transition: &Transition,
) -> Result<(), AllocError>
    ensures adds { OnOk result (Adds (table names.new) (table names.old)
        (signature_of (map (λ k. option_tree (Some k)) formals.now)
        (transition_meaning transition.now) ∷ [])) }
    ensures few { OnOk result (length (table names.new) ≤ length (table names.old) + 1) }
{
    if names.contains_key(transition.name.as_str()) {
        return Ok(());
    }
    let types = types_of(alloc, formals, transition.parameters.as_slice())?;
    names.insert(transition.name.clone()?, types)?;
    Ok(())
}

fn note_all(
    alloc: Global,
    names: &mut BTreeMap<String, Vec<Shape>>,
    automaton: &Automaton,
) -> Result<(), AllocError>
    ensures adds { OnOk result (Adds (table names.new) (table names.old)
        (signatures_in (Some (automaton_meaning automaton.now)))) }
    ensures few { OnOk result (length (table names.new) ≤ length (table names.old)
        + length (automaton_meaning automaton.now).entries) }
{
    for transition in &automaton.transitions {
        note(alloc, names, automaton.formals.as_slice(), transition)?;
    }
    Ok(())
}

/// Whether it is marked at this place.
pub fn is_marked(marks: &[bool], place: usize) -> bool
    ensures { result ≡ mark_at marks.now place }
{
    match marks.get(place) {
        Some(mark) => *mark,
        None => false,
    }
}

/// Marks a place, if there is one.
pub fn mark(marks: &mut Vec<bool>, place: usize)
    ensures { marks.new.items ≡ slice_set marks.old.items place true }
{
    if place < marks.len() {
        marks[place] = true;
    }
}

/// So many places without marks.
pub fn unmarked(alloc: Global, count: usize) -> Result<Vec<bool>, AllocError>
    ensures { IfOk result (λ ms. ms.items ≡ replicate count false) }
{
    vec![in alloc; false; count]
}

// Notes the automaton of a component, unless it was noted before.
fn visit(
    alloc: Global,
    names: &mut BTreeMap<String, Vec<Shape>>,
    used: &mut Vec<bool>,
    automata: &[Automaton],
    component: &Component,
) -> Result<(), AllocError>
    ensures { OnOk result ((seen : List MeantComponent)
        → IsTable (map automaton_meaning automata.now) seen (table names.old) used.old.items
        → IsTable (map automaton_meaning automata.now)
        (seen ++ component_meaning component.now ∷ []) (table names.new) used.new.items) }
{
    let Some(number) = component.automaton else {
        return Ok(());
    };
    let Some(automaton) = automata.get(number) else {
        return Ok(());
    };
    if is_marked(used.as_slice(), number) {
        return Ok(());
    }
    mark(used, number);
    note_all(alloc, names, automaton)?;
    Ok(())
}

/// The names that the components use.
pub fn table_of(
    alloc: Global,
    automata: &[Automaton],
    components: &[Component],
) -> Result<Table, AllocError>
    ensures { IfOk result (λ t. IsTable (map automaton_meaning automata.now)
        (map component_meaning components.now) (table t.names) t.used.items) }
{
    let mut names = BTreeMap::new(alloc);
    let mut used = unmarked(alloc, automata.len())?;
    for component in components {
        visit(alloc, &mut names, &mut used, automata, component)?;
    }
    Ok(Table { names, used })
}
