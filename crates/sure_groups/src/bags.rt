//! What is gathered for other groups.
ghost use Rattle.std.specs.Prelude.{◌≡◌, ℕ, IfOk, Some, [], length, slice_get};
ghost use Rattle.sure_groups.specs.declared.bags.Bag.{Bag as Seen};

use crate::input::Input;
use event_keys::Key;
use std::alloc::Global;
use terms::NoMemory;

/// What came to the components of another group of turns from the key `since` on.
#[derive(Drop)]
pub(crate) struct Bag {
    pub(crate) since: Option<Key>,
    pub(crate) inputs: Vec<Input>,
}

// So many empty bags.
pub(crate) fn no_bags(alloc: Global, count: u16, since: Option<Key>) -> Result<Vec<Bag>, NoMemory>
    ensures many { IfOk result (λ bags. length bags.items ≡ count) }
    ensures each { IfOk result (λ bags. (g : ℕ) (bag : Seen) → slice_get bags.items g ≡ Some bag
        → (bag.since ≡ since) × (bag.inputs.items ≡ [])) }
{
    let mut bags = Vec::new(alloc);
    for _group in 0..count {
        bags.push(Bag {
            since,
            inputs: Vec::new(alloc),
        })?;
    }
    Ok(bags)
}
