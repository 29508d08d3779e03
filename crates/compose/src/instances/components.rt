//! Components with the values of their formals.
ghost use Rattle.std.specs.Prelude.{◌≡◌, Some, map, IfOk};
ghost use Rattle.ioa_check.specs.Resolutions.{component_meaning};
ghost use Rattle.ioa_typing.specs.TermViews.{core_tree};
ghost use Rattle.compose.specs.Instances.{argument};
ghost use Rattle.compose.specs.Tables.{meant_parts, parts_in};

use evaluation::eval;
use ioa_check::Component;
use std::alloc::Global;
use terms::{Env, NoMemory, Scalar, State, Term};

// The value of an argument, which speaks of nothing but members and numbers.
fn value_of(alloc: Global, term: &Term) -> Result<Scalar, NoMemory>
    ensures { IfOk result (λ s. s ≡ argument (core_tree (Some term.now))) }
{
    let env = Env {
        formals: &[],
        parameters: &[],
        loops: [Scalar::Int(0), Scalar::Int(0), Scalar::Int(0)],
    };
    let value = eval(alloc, term, &env, &State::new(Vec::new(alloc)))?;
    Ok(value.scalar())
}

fn values_of(alloc: Global, terms: &[Term]) -> Result<Vec<Scalar>, NoMemory>
    ensures { IfOk result (λ ss. ss.items
        ≡ map argument (map (λ t. core_tree (Some t)) terms.now)) }
{
    let mut values = Vec::new(alloc);
    for term in terms {
        values.push(value_of(alloc, term)?)?;
    }
    Ok(values)
}

fn component(
    alloc: Global,
    beyond: usize,
    one: &Component,
) -> Result<io_automata::Component, NoMemory>
    ensures { IfOk result (λ c. parts_in c ≡ meant_parts beyond (component_meaning one.now)) }
{
    let formals = values_of(alloc, one.arguments.as_slice())?;
    let automaton = match one.automaton {
        Some(number) => number,
        None => beyond,
    };
    Ok(io_automata::Component { automaton, formals })
}

/// The components, in their order; one without an automaton has the number beyond the last.
pub fn components(
    alloc: Global,
    beyond: usize,
    all: &[Component],
) -> Result<Vec<io_automata::Component>, NoMemory>
    ensures { IfOk result (λ cs. map parts_in cs.items
        ≡ map (meant_parts beyond) (map component_meaning all.now)) }
{
    let mut found = Vec::new(alloc);
    for one in all {
        found.push(component(alloc, beyond, one)?)?;
    }
    Ok(found)
}
