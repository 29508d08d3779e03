//! Turns that were taken in and that no chunk has given yet.
ghost use Rattle.std.specs.Prelude.{◌≡◌, ◌<◌, ◌+◌, ◌^◌, ℕ, Some, List, [], length, slice_get};
ghost use Rattle.std.specs.Cmp.Lexicographic.{pointwise, lists_equiv, lists_per};
ghost use Rattle.event_keys.specs.Ranks.{rank_of_bound};
ghost use Rattle.event_keys.specs.contracts.outcome.TurnedEq.TheImpl.Laws.{laws-law as turned_equivalence};
ghost use Rattle.event_keys.specs.contracts.outcome.TurnedPartialEq.TheImpl.Laws.{laws-law as turned_laws};
ghost use Rattle.raw_events.specs.Onto.{onto};
ghost use Rattle.task_seed.specs.Taken.{turns_of};
ghost use Rattle.virtual_time.specs.Reference.{Falls};
ghost use Rattle.virtual_time.specs.Exchange.Merged.{put_turns};
ghost use Rattle.group_exchange.specs.Chunks.{is_first_below, first_below, first_from};
ghost use Rattle.group_exchange.specs.Held.{AreInOrder, ArePuttable, HasPut, HavePutTo, all_below, all_from, put_all};
ghost use Rattle.rollback.specs.ComponentView.{ComponentView};
ghost use Rattle.task_seed.specs.declared.setup.Setup.{Setup};

use event_keys::laws::bound_rank_law;
use event_keys::{Bound, Turned};
use raw_events::EventList;
use rollback::Component;
use std::marker::Model;
use std::mem::replace;
use task_seed::Turns;
use turn_lists::merge;

// Turns in the order of keys.
#[derive(Drop)]
pub(crate) struct Queue {
    turns: EventList<Turned>,
}

impl Model for Queue {
    ghost use Rattle.std.specs.Prelude.{◌≡◌, List, []};
    ghost use Rattle.event_keys.specs.declared.outcome.Turned.{Turned};

    ghost Value = { List Turned };

    ghost view = { λ q. q.turns.after };

    ghost invariant = { λ q. q.turns.before ≡ [] };
}

// Turns that were taken, and their number.
#[derive(Drop)]
pub(crate) struct Taken {
    pub(crate) turns: Queue,
    pub(crate) count: u64,
}

// The same, the last one nearest before the cursor.
#[derive(Drop)]
struct Passed {
    turns: EventList<Turned>,
    count: u64,
}

impl Queue {
    pub(crate) fn empty() -> Queue
        ensures { result ≡ [] }
    {
        Queue {
            turns: EventList::new(),
        }
    }

    // Puts turns among those that are there.
    fn put(&mut self, turns: EventList<Turned>)
        requires front { turns.before ≡ [] }
        requires falls { Falls (turns_of turns.after) }
        ensures { turns_of self.new ≡ put_turns (turns_of turns.after) (turns_of self.old) }
    {
        merge(&mut self.turns, turns);
    }

    // Takes the first turns, as long as they are below a bound.
    pub(crate) fn take_below(&mut self, bound: Bound) -> Taken
        requires few { length (first_below (rank_of_bound bound) self.old) < 2 ^ 64 }
        ensures rest { self.new ≡ first_from (rank_of_bound bound) self.old }
        ensures turns { result.turns ≡ first_below (rank_of_bound bound) self.old }
        ensures count { result.count ≡ length (first_below (rank_of_bound bound) self.old) }
    {
        let mut passed = pass_below(&mut self.turns, bound);
        let mut turns = EventList::new();
        turns.append_all(&mut passed.turns);
        Taken {
            turns: Queue { turns },
            count: passed.count,
        }
    }

    // All of them, after the cursor.
    pub(crate) fn into_turns(self) -> EventList<Turned>
        ensures front { result.before ≡ [] }
        ensures turns { result.after ≡ self }
    {
        self.turns
    }
}

fn is_first_below(held: &EventList<Turned>, bound: Bound) -> bool
    ensures { result ≡ is_first_below (rank_of_bound bound) held.now.after }
{
    match held.peek_next() {
        None => false,
        Some(turned) => {
            bound_rank_law(Bound::At(turned.key), bound);
            Bound::At(turned.key) < bound
        }
    }
}

fn pass_below(held: &mut EventList<Turned>, bound: Bound) -> Passed
    requires front { held.old.before ≡ [] }
    requires few { length (first_below (rank_of_bound bound) held.old.after) < 2 ^ 64 }
    ensures rest { held.new ≡ record {
      before = [];
      after = first_from (rank_of_bound bound) held.old.after;
    } }
    ensures turns { result.turns
        ≡ record {
          before = onto (first_below (rank_of_bound bound) held.old.after) [];
          after = [];
        } }
    ensures count { result.count ≡ length (first_below (rank_of_bound bound) held.old.after) }
{
    let mut passed = Passed {
        turns: EventList::new(),
        count: 0,
    };
    while is_first_below(held, bound) {
        let Some(cell) = held.take_first() else {
            unreachable!();
        };
        passed.turns.push_last(cell);
        passed.count += 1;
    }
    passed
}

// Puts turns into the queue of a component.
pub(crate) fn put_into(queues: &mut [Queue], i: u16, turns: EventList<Turned>)
    requires there { i < length queues.old }
    requires front { turns.before ≡ [] }
    requires falls { Falls (turns_of turns.after) }
    ensures { HasPut i turns.after queues.old queues.new }
{
    queues[usize::from(i)].put(turns);
}

// Puts a list of turns of each of these components into its queue.
pub(crate) fn put_all_into<T: Turns>(
    queues: &mut [Queue],
    components: &[Component<T>],
    lists: &mut [EventList<Turned>],
)
    requires many { length lists.old ≡ length components.now }
    requires there { (place : ℕ) (c : ComponentView (Setup T))
        → slice_get components.now place ≡ Some c → c.number < length queues.old }
    requires turns { ArePuttable components.now lists.old }
    ensures { HavePutTo components.now lists.old (length components.now) queues.old queues.new }
{
    for place in 0..components.len() {
        let turns = replace(&mut lists[place], EventList::new());
        put_into(queues, components[place].number(), turns);
    }
}

// Takes the turns below a bound from all queues, and puts them together.
pub(crate) fn take_all_below(queues: &mut [Queue], bound: Bound) -> Taken
    requires order { AreInOrder queues.old }
    requires falls { Falls (put_all (all_below (rank_of_bound bound) queues.old)) }
    requires few { length (put_all (all_below (rank_of_bound bound) queues.old)) < 2 ^ 64 }
    ensures rest { queues.new ≡ all_from (rank_of_bound bound) queues.old }
    ensures turns { turns_of result.turns ≡ put_all (all_below (rank_of_bound bound) queues.old) }
    ensures count { result.count ≡ length (put_all (all_below (rank_of_bound bound) queues.old)) }
{
    let many = queues.len();
    if many == 0 {
        return Taken {
            turns: Queue::empty(),
            count: 0,
        };
    }
    if many == 1 {
        return queues[0].take_below(bound);
    }
    let (first, second) = queues.split_at_mut(many / 2);
    let taken = take_all_below(first, bound);
    let mut all = take_all_below(second, bound);
    all.turns.put(taken.turns.into_turns());
    all.count += taken.count;
    all
}

impl PartialEq for Queue {
    ghost eq = { pointwise ⟦<Turned as PartialEq>⟧.eq };

    ghost laws = { lists_per turned_laws };

    fn eq(&self, other: &Queue) -> bool {
        self.turns == other.turns
    }
}

impl Eq for Queue {
    ghost laws = { lists_equiv turned_equivalence };
}
