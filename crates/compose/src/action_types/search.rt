//! The search for the first component with which types differ.
ghost use Rattle.std.specs.Prelude.{◌≡◌, [], map, IfOk};
ghost use Rattle.ioa_check.specs.Resolutions.{meaning};
ghost use Rattle.compose.specs.Types.{TypesDiffer, IsFirst};
ghost use Rattle.compose.specs.TypedStandings.{stood, first_different};

use crate::action_types::laws::first_law;
use crate::action_types::seen::{differs, keep};
use crate::action_types::standing::{Standing, standings};
use indexmap::IndexMap;
use ioa_check::Resolved;
use std::alloc::Global;
use terms::NoMemory;

// The component of the first entry with other types than the first of its name.
fn first_different(alloc: Global, standings: &[Standing]) -> Result<Option<usize>, NoMemory>
    ensures { IfOk result (λ first. first ≡ first_different [] (map stood standings.now)) }
{
    let mut seen = IndexMap::new(alloc);
    for standing in standings {
        if differs(&seen, standing) {
            return Ok(Some(standing.component));
        }
        keep(&mut seen, *standing)?;
    }
    Ok(None)
}

/// The least number of a component such that, among the components up to it, two entries of one name differ in the number or the types of
/// their parameters; none where all agree. Each entry is compared with the first of its name alone.
pub fn first_difference(alloc: Global, resolved: &Resolved) -> Result<Option<usize>, NoMemory>
    ensures { IfOk result (λ first. IsFirst (TypesDiffer (meaning resolved.now)) first) }
{
    first_law();
    let standings = standings(
        alloc,
        resolved.automata.as_slice(),
        resolved.components.as_slice(),
    )?;
    first_different(alloc, standings.as_slice())
}
