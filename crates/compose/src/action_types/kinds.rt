//! The types of parameters.
ghost use Rattle.std.specs.Prelude.{◌≡◌, map, Some, option_map};
ghost use Rattle.ioa_typing.specs.KindViews.{kind_tree, option_tree};
ghost use Rattle.ioa_entries.specs.EntryViews.{slot_tree};
ghost use Rattle.compose.specs.Types.{slot_kind, same_kind, same_kinds};
ghost use Rattle.compose.specs.TypedStandings.{stood};

use crate::action_types::standing::Standing;
use ioa_entries::Slot;
use ioa_typing::Kind;
use ioa_typing::kind::is_same;

// The type of a parameter.
fn kind_of<'a>(formals: &'a [Kind], slot: &'a Slot) -> Option<&'a Kind>
    ensures { option_map (λ k. kind_tree k.now) result
        ≡ slot_kind (map (λ k. option_tree (Some k)) formals.now) (slot_tree (Some slot.now)) }
{
    match slot {
        Slot::Fixed(number) => formals.get(*number),
        Slot::Free(kind) => Some(kind),
    }
}

fn is_same_kind(a: Option<&Kind>, b: Option<&Kind>) -> bool
    ensures { result ≡ same_kind (option_map (λ k. kind_tree k.now) a.entry)
        (option_map (λ k. kind_tree k.now) b.entry) }
{
    match a {
        Some(a) => match b {
            Some(b) => is_same(a, b),
            None => false,
        },
        None => b.is_none(),
    }
}

/// Whether two entries have as many parameters, of the same types.
pub(crate) fn are_same(a: &Standing, b: &Standing) -> bool
    ensures { result ≡ same_kinds (stood a.now).kinds (stood b.now).kinds }
{
    let slots = a.entry.parameters.as_slice();
    let others = b.entry.parameters.as_slice();
    for (place, slot) in slots.iter().enumerate() {
        let Some(other) = others.get(place) else {
            return false;
        };
        if !is_same_kind(kind_of(a.formals, slot), kind_of(b.formals, other)) {
            return false;
        }
    }
    slots.len() == others.len()
}
