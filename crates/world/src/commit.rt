//! What is below a bound is given up and committed.
ghost use Rattle.std.specs.Prelude.{◌≡◌, ◌<◌, ◌≤◌, ◌^◌, ℕ, [], Some, length, nat_lt, option_map, slice_get};
ghost use Rattle.event_keys.specs.Ranks.{rank_of_bound};
ghost use Rattle.task_seed.specs.Taken.{turns_of};
ghost use Rattle.virtual_time.specs.Reference.{Falls};
ghost use Rattle.rollback.specs.ComponentView.{machine_of};
ghost use Rattle.raw_events.specs.Onto.{onto};
ghost use Rattle.world.specs.Dropping.{AreCut, AreDropped, AreOrderly};

use event_keys::laws::bound_rank_law;
use event_keys::{Bound, Turned};
use raw_events::EventList;
use rollback::Component;
use task_seed::laws::machine_is_lawful;
use task_seed::{Setup, Turns};
use terms::{Action, State};
use turn_lists::merge;
use virtual_time::merging::merging_law;
use virtual_time::worlds::dropped_law;

pub(crate) fn is_above(first: Bound, second: Bound) -> bool
    ensures { result ≡ nat_lt (rank_of_bound second) (rank_of_bound first) }
{
    bound_rank_law(second, first);
    second < first
}

// Drops the done entries below a bound of the components from `from` up to `to`, and gives their turns, in the order of keys, all after
// the cursor. Each turn is moved as often as the number of components can be halved.
pub(crate) fn drop_between<T: Turns>(
    setup: &Setup<T>,
    components: &mut [Component<T>],
    from: usize,
    to: usize,
    bound: Bound,
) -> EventList<Turned>
    requires orderly { AreOrderly
        (machine_of T.turn_of setup.now) from to setup.now components.old }
    requires there { to ≤ length components.old }
    ensures many { length components.new ≡ length components.old }
    ensures cut { AreCut
        (machine_of T.turn_of setup.now) from to bound components.old components.new }
    ensures front { result.before ≡ [] }
    ensures falls { Falls (turns_of result.after) }
    ensures turns { AreDropped (machine_of T.turn_of setup.now) from to bound components.old
        (turns_of result.after) }
{
    machine_is_lawful(setup);
    dropped_law::<State, Action>();
    merging_law::<Action>();
    if from >= to {
        return EventList::new();
    }
    if to - from == 1 {
        return components[from].drop_below(bound);
    }
    let middle = from + (to - from) / 2;
    let mut turns = drop_between(setup, components, from, middle, bound);
    let others = drop_between(setup, components, middle, to, bound);
    merge(&mut turns, others);
    turns
}

// Appends turns at the end, and answers how many.
pub(crate) fn append(committed: &mut EventList<Turned>, mut turns: EventList<Turned>) -> u64
    requires end { committed.old.after ≡ [] }
    requires front { turns.before ≡ [] }
    requires few { length turns.after < 2 ^ 64 }
    ensures all { committed.new
        ≡ record { before = onto turns.after committed.old.before; after = [] } }
    ensures count { result ≡ length turns.after }
{
    committed.append_all(&mut turns);
    let mut count = 0;
    while committed.pass_next() {
        count += 1;
    }
    count
}
