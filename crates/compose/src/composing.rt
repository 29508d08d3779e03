//! Composition.
ghost use Rattle.std.specs.Prelude.{◌≡◌, ◌<◌, ℕ, true, false, IfOk, IfErr, IfSome, IfNone};
ghost use Rattle.ioa_check.specs.Resolutions.{meaning};
ghost use Rattle.plans.specs.Plans.{action_texts};
ghost use Rattle.compose.specs.Faults.{HasNoFault, IsPlan, IsRefused, last_error, least_error, unknown_at};

use crate::action_types::first_difference;
use crate::compatibility::laws::compatible_law;
use crate::compatibility::{Rule, first_break};
use crate::fault::ComposeError;
use crate::hiding::first_not_given;
use crate::instances::parts_of;
use crate::laws::formed_law;
use crate::sound_laws::{sizes_law, sources_law};
use ioa_check::{Checked, Component};
use plans::Plan;
use std::alloc::Global;

/// The most components of a composition.
const MOST_COMPONENTS: usize = 1024;

// The first component whose automaton isn't known.
fn first_unknown(components: &[Component]) -> Option<usize>
    ensures some { IfSome result
        (λ n. (unknown_at components.now n ≡ true)
        × ((k : ℕ) → k < n → unknown_at components.now k ≡ false)) }
    ensures none { IfNone result ((k : ℕ) → unknown_at components.now k ≡ false) }
{
    components
        .iter()
        .position(|component| component.automaton.is_none())
}

// The error of the least number, where each fault is first there with these components, or with this hidden name.
fn least_error(
    unknown: Option<usize>,
    own: Option<usize>,
    internal: Option<usize>,
    output: Option<usize>,
    types: Option<usize>,
    count: usize,
    hidden: Option<usize>,
) -> Option<ComposeError>
    ensures { result ≡ least_error unknown own internal output types count hidden }
{
    if let Some(component) = unknown {
        return Some(ComposeError::NoSuchAutomaton(component));
    }
    if let Some(component) = own {
        return Some(ComposeError::OwnOverlap(component));
    }
    if let Some(component) = internal {
        return Some(ComposeError::InternalShared(component));
    }
    if let Some(component) = output {
        return Some(ComposeError::OutputShared(component));
    }
    if let Some(component) = types {
        return Some(ComposeError::ShapeDiffers(component));
    }
    if count > MOST_COMPONENTS {
        return Some(ComposeError::TooManyComponents);
    }
    last_error(hidden)
}

fn last_error(hidden: Option<usize>) -> Option<ComposeError>
    ensures { result ≡ last_error hidden }
{
    match hidden {
        Some(name) => Some(ComposeError::NotAnOutput(name)),
        None => None,
    }
}

/// A plan of a checked source.
///
/// # Errors
///
/// The fault of the least number, with the least component up to which it is there, or with the first hidden name that is at fault.
/// `NoMemory` may stand in its place, or in place of an answer.
pub fn compose(alloc: Global, checked: Checked) -> Result<Plan, ComposeError>
    ensures plan { IfOk result (λ plan. IsPlan (meaning checked) plan) }
    ensures faultless { IfOk result (λ plan. HasNoFault (action_texts plan) (meaning checked)) }
    ensures refused { IfErr result (λ e. IsRefused (meaning checked) e) }
{
    compatible_law();
    formed_law();
    sources_law();
    sizes_law();
    let resolved = checked.into_resolved();
    let unknown = first_unknown(resolved.components.as_slice());
    let types = first_difference(alloc, &resolved)?;
    let hidden = first_not_given(alloc, &resolved)?;
    let parts = parts_of(alloc, resolved)?;
    let automata = parts.automata.as_slice();
    let components = parts.components.as_slice();
    let own = first_break(alloc, Rule::Own, automata, components)?;
    let internal = first_break(alloc, Rule::Internal, automata, components)?;
    let output = first_break(alloc, Rule::Output, automata, components)?;
    let count = components.len();
    match least_error(unknown, own, internal, output, types, count, hidden) {
        Some(error) => {
            drop(parts);
            Err(error)
        }
        None => {
            let plan = Plan::new(
                alloc,
                parts.automata,
                parts.components,
                parts.actions,
                parts.members,
            )?;
            Ok(plan)
        }
    }
}
