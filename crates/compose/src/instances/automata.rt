//! Automata with numbers in place of the names of actions.
ghost use Rattle.std.specs.Prelude.{◌≡◌, ◌<◌, ◌^◌, [], Some, if◌then◌else◌, map, length, IfOk};
ghost use Rattle.std.specs.List.{All};
ghost use Rattle.terms.specs.TermTree.{term_tree};
ghost use Rattle.io_automata.specs.Automata.{absent, with_formals};
ghost use Rattle.plans.specs.Plans.{text_of};
ghost use Rattle.ioa_check.specs.Resolutions.{automaton_meaning};
ghost use Rattle.ioa_typing.specs.TermViews.{core_tree};
ghost use Rattle.compose.specs.Instances.{built, term_or_true};
ghost use Rattle.compose.specs.Names.{IsRising};
ghost use Rattle.compose.specs.Tables.{converted};

use crate::instances::entries::entries;
use crate::instances::table::is_marked;
use io_automata::ActionName;
use ioa_check::{Automaton, Variable};
use std::alloc::{AllocError, Global};
use terms::Term;

fn starts(alloc: Global, variables: Vec<Variable>) -> Result<Vec<Term>, AllocError>
    ensures { IfOk result (λ ts. map term_tree ts.items
        ≡ map term_or_true (map (λ v. core_tree (Some v.start)) variables.items)) }
{
    let mut found = Vec::new(alloc);
    for variable in variables {
        found.push(variable.start)?;
    }
    Ok(found)
}

fn automaton(
    alloc: Global,
    actions: &[ActionName],
    one: Automaton,
) -> Result<io_automata::Automaton, AllocError>
    requires few { length actions.now < 2 ^ 16 }
    requires rising { IsRising (map text_of actions.now) }
    requires few_tasks { length (automaton_meaning one).tasks < 2 ^ 32 }
    ensures { IfOk result (λ a. with_formals [] a
        ≡ built (map text_of actions.now) [] (Some (automaton_meaning one))) }
{
    let entries = entries(alloc, actions, one.transitions)?;
    let start = starts(alloc, one.variables)?;
    Ok(io_automata::Automaton {
        entries,
        start,
        tasks: one.tasks,
    })
}

// An automaton that no component has.
fn unused(alloc: Global) -> io_automata::Automaton
    ensures { with_formals [] result ≡ absent }
{
    io_automata::Automaton {
        entries: Vec::new(alloc),
        start: Vec::new(alloc),
        tasks: Vec::new(alloc),
    }
}

fn made(
    alloc: Global,
    actions: &[ActionName],
    is_used: bool,
    one: Automaton,
) -> Result<io_automata::Automaton, AllocError>
    requires few { length actions.now < 2 ^ 16 }
    requires rising { IsRising (map text_of actions.now) }
    requires few_tasks { length (automaton_meaning one).tasks < 2 ^ 32 }
    ensures { IfOk result (λ a. with_formals [] a
        ≡ (if is_used then built (map text_of actions.now) []
        (Some (automaton_meaning one)) else absent)) }
{
    if is_used {
        automaton(alloc, actions, one)
    } else {
        Ok(unused(alloc))
    }
}

/// The automata, in their order; one that isn't used has no entries.
pub fn automata(
    alloc: Global,
    actions: &[ActionName],
    used: &[bool],
    all: Vec<Automaton>,
) -> Result<Vec<io_automata::Automaton>, AllocError>
    requires few { length actions.now < 2 ^ 16 }
    requires rising { IsRising (map text_of actions.now) }
    requires few_tasks { All (λ a. length a.tasks < 2 ^ 32) (map automaton_meaning all.items) }
    ensures { IfOk result (λ xs. map (with_formals []) xs.items
        ≡ converted (map text_of actions.now) used.now 0 (map automaton_meaning all.items)) }
{
    let mut found = Vec::new(alloc);
    for one in all {
        let is_used = is_marked(used, found.len());
        found.push(made(alloc, actions, is_used, one)?)?;
    }
    Ok(found)
}
