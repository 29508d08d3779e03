//! What the components of a group give up when it can't be taken back any more.
ghost use Rattle.std.specs.Prelude.{◌≡◌, ◌<◌, IfOk, List, length, slice_set};
ghost use Rattle.groups.specs.declared.seats.Seat.{Seat};
ghost use Rattle.groups.specs.Crew.{AreSeated};
ghost use Rattle.groups.specs.Dropping.{AreGivenUp, IsGivenUp, cut_all, cut_to};
ghost use Rattle.groups.specs.GroupView.{key_of_next};
ghost use Rattle.groups.specs.Open.{OfComponent};

use event_keys::{Bound, Turned};
use raw_events::EventList;
use rollback::Component;
use std::alloc::Global;
use task_seed::Turns;
use task_seed::laws::machine_is_lawful;
use terms::NoMemory;

/// So many lists without turns.
pub(crate) fn no_turns(alloc: Global, count: usize) -> Result<Vec<EventList<Turned>>, NoMemory>
    ensures { IfOk result (λ lists. length lists.items ≡ count) }
{
    let mut lists = Vec::new(alloc);
    for _ in 0..count {
        lists.push(EventList::new())?;
    }
    Ok(lists)
}

// A component gives up its done entries below a bound, which leaves what it does next. Spare cells take the places of those that it
// gives up.
fn drop_one<T: Turns>(
    component: &mut Component<T>,
    bound: Bound,
    spare: &mut EventList<Turned>,
) -> EventList<Turned>
    ensures component { component.new ≡ cut_to T.turn_of bound component.old }
    ensures given { IsGivenUp bound component.old result }
    ensures next { key_of_next T.turn_of (cut_to T.turn_of bound component.old)
        ≡ key_of_next T.turn_of component.old }
{
    machine_is_lawful(component.setup());
    component.swap_spare(spare);
    let given = component.drop_below(bound);
    component.swap_spare(spare);
    given
}

// The same of the component at a place.
fn drop_at<T: Turns>(
    components: &mut [Component<T>],
    place: usize,
    bound: Bound,
    spare: &mut EventList<Turned>,
) -> EventList<Turned>
    requires { place < length components.old }
    ensures components { OfComponent place components.old (λ c. components.new
        ≡ slice_set components.old place (cut_to T.turn_of bound c)) }
    ensures given { OfComponent place components.old (λ c. IsGivenUp bound c result) }
    ensures next { OfComponent place components.old (λ c.
        key_of_next T.turn_of (cut_to T.turn_of bound c) ≡ key_of_next T.turn_of c) }
{
    drop_one(&mut components[place], bound, spare)
}

/// Each component gives up its done entries below a bound. The own turns among them come into its list. What is next stays, and so do the
/// seats.
pub(crate) fn drop_all<T: Turns>(
    components: &mut [Component<T>],
    bound: Bound,
    spare: &mut EventList<Turned>,
    lists: &mut [EventList<Turned>],
)
    requires many { length lists.old ≡ length components.old }
    ensures components { components.new ≡ cut_all T.turn_of bound components.old }
    ensures given { AreGivenUp bound components.old lists.new }
    ensures seated { (seats : List Seat) → AreSeated T.turn_of components.old seats
        → AreSeated T.turn_of components.new seats }
{
    for place in 0..components.len() {
        lists[place] = drop_at(components, place, bound, spare);
    }
}
