//! The search for the first component with which components aren't compatible.
ghost use Rattle.std.specs.Prelude.{◌≡◌, map, IfOk};
ghost use Rattle.io_automata.specs.Automata.{composed};
ghost use Rattle.compose.specs.Rules.{Breaks, IsFirst};
ghost use Rattle.compose.specs.Standings.{stood, IsFirstClash};

use crate::compatibility::laws::first_law;
use crate::compatibility::rule::Rule;
use crate::compatibility::seen::{is_clash, is_clash_with_input, push_by_kind};
use crate::compatibility::standing::{Standing, standings};
use io_automata::{Automaton, Component};
use std::alloc::Global;
use terms::NoMemory;

// The component of the first entry that breaks a rule with an earlier one.
fn first_clash(alloc: Global, rule: Rule, standings: &[Standing]) -> Result<Option<usize>, NoMemory>
    ensures { IfOk result (λ first. IsFirstClash rule (map stood standings.now) first) }
{
    let mut inputs = Vec::new(alloc);
    let mut controls = Vec::new(alloc);
    for standing in standings {
        if is_clash(rule, controls.as_slice(), standing) {
            return Ok(Some(standing.component));
        }
        if is_clash_with_input(rule, inputs.as_slice(), standing) {
            return Ok(Some(standing.component));
        }
        push_by_kind(alloc, &mut inputs, &mut controls, *standing)?;
    }
    Ok(None)
}

/// The least number of a component such that the components up to it break a rule. Entries are compared with those of their own name
/// alone, by their parameters, and no input with another.
pub fn first_break(
    alloc: Global,
    rule: Rule,
    automata: &[Automaton],
    components: &[Component],
) -> Result<Option<usize>, NoMemory>
    ensures { IfOk result (λ first. IsFirst
        (Breaks rule (composed automata.now components.now)) first) }
{
    first_law();
    let standings = standings(alloc, automata, components)?;
    first_clash(alloc, rule, standings.as_slice())
}
