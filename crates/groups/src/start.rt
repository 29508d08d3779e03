//! The components of a group at the start.
ghost use Rattle.std.specs.Prelude.{◌≡◌, ◌==◌, ◌<◌, ◌∷◌, ◌++◌, [], cond, IfOk, OnOk, length, slice_index_or};
ghost use Rattle.std.specs.Arc.{arc_value};
ghost use Rattle.plans.specs.Plans.{composition};
ghost use Rattle.task_seed.specs.Setups.{plan_of};
ghost use Rattle.rollback.specs.ComponentView.{start_held};
ghost use Rattle.groups.specs.Crew.{ArePlaced};
ghost use Rattle.groups.specs.GroupView.{count_of, group_in, start_components};

use rollback::Component;
use std::alloc::Global;
use std::sync::Arc;
use task_seed::{Setup, Turns};
use terms::NoMemory;

// The place of a component that is no member. There are at most 65,535 components, so that no member has it.
const NOWHERE: u16 = 65_535;

/// The components of a group in order of their numbers, and the place of each component among them.
#[derive(Drop)]
pub(crate) struct Placed<T: Turns> {
    pub(crate) components: Vec<Component<T>>,
    pub(crate) places: Vec<u16>,
}

// Whether a component is of a group, where those of the first stand in a list.
fn is_of(group_of: &[u16], i: u16, number: u16) -> bool
    ensures { result ≡ (slice_index_or group_of.now i 65536 == number) }
{
    match group_of.get(usize::from(i)) {
        None => false,
        Some(group) => *group == number,
    }
}

// One more component: a member with the next place, or none.
fn add<T: Turns>(
    alloc: Global,
    setup: &Arc<Setup<T>>,
    i: u16,
    is_member: bool,
    components: &mut Vec<Component<T>>,
    places: &mut Vec<u16>,
) -> Result<(), NoMemory>
    requires there { i < length (composition (plan_of (arc_value setup.now))) }
    requires few { length components.old.items < 65536 }
    ensures components { OnOk result (components.new.items
        ≡ components.old.items
        ++ cond is_member (start_held T.turn_of (arc_value setup.now) i ∷ []) []) }
    ensures places { OnOk result (places.new.items
        ≡ places.old.items ++ cond is_member (length components.old.items) 65535 ∷ []) }
{
    if !is_member {
        places.push(NOWHERE)?;
        return Ok(());
    }
    places.push(components.len() as u16)?;
    components.push(Component::new(alloc, Arc::try_clone(setup)?, i)?)?;
    Ok(())
}

/// The components of a group at their start, with their places.
pub(crate) fn start_placed<T: Turns>(
    alloc: Global,
    setup: &Arc<Setup<T>>,
    group_of: &[u16],
    number: u16,
) -> Result<Placed<T>, NoMemory>
    ensures components { IfOk result (λ placed. placed.components.items
        ≡ start_components T.turn_of (arc_value setup.now)
        (group_in (count_of (arc_value setup.now)) group_of.now)
        (count_of (arc_value setup.now)) number) }
    ensures places { IfOk result (λ placed. ArePlaced placed.components.items placed.places.items) }
    ensures few { IfOk result (λ placed. length placed.components.items < 65536) }
{
    let mut components = Vec::new(alloc);
    let mut places = Vec::new(alloc);
    for i in 0..setup.plan().components() {
        let is_member = is_of(group_of, i, number);
        add(alloc, setup, i, is_member, &mut components, &mut places)?;
    }
    Ok(Placed { components, places })
}
