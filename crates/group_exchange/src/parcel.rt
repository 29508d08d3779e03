//! Turns that were given in a chunk and aren't put together yet.
ghost use Rattle.std.specs.Prelude.{◌≡◌, ◌<◌, ◌^◌, [], IfOk, length, replicate};
ghost use Rattle.event_keys.specs.Ranks.{rank_of_bound};
ghost use Rattle.plans.specs.Plans.{composition};
ghost use Rattle.task_seed.specs.Setups.{plan_of};
ghost use Rattle.task_seed.specs.Taken.{turns_of};
ghost use Rattle.virtual_time.specs.Reference.{Falls};
ghost use Rattle.group_exchange.specs.Held.{AreInOrder, all_below, all_from, put_all};
ghost use Rattle.group_exchange.specs.Seen.{HasFewInInboxes, HasGiven, LeavesTheWorld};

use crate::chunk::{is_few, least_base};
use crate::committing::is_bounded;
use crate::exchange::Exchange;
use crate::queue::{Queue, take_all_below};
use event_keys::{Bound, Turned};
use raw_events::EventList;
use std::alloc::Global;
use std::marker::Model;
use task_seed::Turns;
use task_seed::laws::machine_is_lawful;
use terms::{Action, NoMemory, State};
use virtual_time::grouped::{group_exchange_is_sound, group_window_law};
use virtual_time::reference::reference_is_counted;

/// Turns of a chunk, of each component in the order of keys, all below a bound. To put them together takes longer than to take them from an exchange,
/// and is done by who has taken them.
#[derive(Drop)]
pub struct Parcel {
    queues: Vec<Queue>,
    bound: Bound,
}

impl Model for Parcel {
    ghost use Rattle.std.specs.Prelude.{List};
    ghost use Rattle.event_keys.specs.Ranks.{rank_of_bound};
    ghost use Rattle.event_keys.specs.declared.outcome.Turned.{Turned};
    ghost use Rattle.group_exchange.specs.Held.{IsCutBelow};

    ghost Value = { List (List Turned) };

    ghost view = { λ p. p.queues.items };

    ghost invariant = { λ p. IsCutBelow (rank_of_bound p.bound) p.queues.items };
}

impl Parcel {
    /// Without turns, with room for those of so many components.
    pub fn new(alloc: Global, components: u16) -> Result<Parcel, NoMemory>
        ensures { IfOk result (λ parcel. parcel ≡ replicate components []) }
    {
        let mut queues = Vec::with_capacity(alloc, usize::from(components))?;
        for _ in 0..components {
            queues.push(Queue::empty())?;
        }
        Ok(Parcel {
            queues,
            bound: Bound::End,
        })
    }

    /// Takes all turns, and puts them together in the order of keys, all after the cursor. No memory is taken; the time grows with the number
    /// of the components, and with that of the turns times its logarithm.
    pub fn put_together(&mut self) -> EventList<Turned>
        ensures turns { turns_of result.after ≡ put_all self.old }
        ensures front { result.before ≡ [] }
        ensures many { length self.new ≡ length self.old }
        ensures empty { put_all self.new ≡ [] }
    {
        take_all_below(&mut self.queues, self.bound)
            .turns
            .into_turns()
    }
}

// Takes the turns below a bound from all queues into others, one for each, of which what they held is dropped. The answer is how many these turns are.
fn take_apart(queues: &mut [Queue], into: &mut [Queue], bound: Bound) -> u64
    requires many { length into.old ≡ length queues.old }
    requires order { AreInOrder queues.old }
    requires falls { Falls (put_all (all_below (rank_of_bound bound) queues.old)) }
    requires few { length (put_all (all_below (rank_of_bound bound) queues.old)) < 2 ^ 64 }
    ensures rest { queues.new ≡ all_from (rank_of_bound bound) queues.old }
    ensures taken { into.new ≡ all_below (rank_of_bound bound) queues.old }
    ensures count { result ≡ length (put_all (all_below (rank_of_bound bound) queues.old)) }
{
    let many = queues.len();
    if many == 0 {
        return 0;
    }
    if many == 1 {
        let taken = queues[0].take_below(bound);
        into[0] = taken.turns;
        return taken.count;
    }
    let (first, second) = queues.split_at_mut(many / 2);
    let (first_into, second_into) = into.split_at_mut(many / 2);
    let count = take_apart(first, first_into, bound);
    count + take_apart(second, second_into, bound)
}

impl<T: Turns> Exchange<T> {
    /// Gives the turns below the least base that no chunk has given yet, of each component into its queue of a parcel; what the parcel held is
    /// dropped. The answer is the number of the turns that were given before. It takes no memory; its time grows with the number of the
    /// components and with that of these turns.
    ///
    /// Nothing in the whole world that the exchange and its leases stand for changes.
    pub fn take_parcel(&mut self, parcel: &mut Parcel) -> u64
        requires many { length parcel.old ≡ length (composition (plan_of self.old.setup)) }
        ensures chunk { HasGiven T.turn_of self.old result (put_all parcel.new) self.new }
        ensures many { length parcel.new ≡ length parcel.old }
        ensures first { result ≡ self.old.given }
        ensures rest { self.new ≡ record self.old { held = self.new.held; given = self.new.given } }
        ensures core { LeavesTheWorld T.turn_of self.old self.new }
        ensures inboxes { HasFewInInboxes T.turn_of self.new }
    {
        machine_is_lawful(self.setup());
        let first = self.give_apart(parcel);
        self.soundness_law();
        first
    }

    fn give_apart(&mut self, parcel: &mut Parcel) -> u64
        requires many { length parcel.old ≡ length (composition (plan_of self.old.setup)) }
        ensures chunk { HasGiven T.turn_of self.old result (put_all parcel.new) self.new }
        ensures many { length parcel.new ≡ length parcel.old }
        ensures first { result ≡ self.old.given }
        ensures rest { self.new ≡ record self.old { held = self.new.held; given = self.new.given } }
    {
        machine_is_lawful(&self.setup);
        group_exchange_is_sound::<State, Action>();
        reference_is_counted::<State, Action>();
        group_window_law::<State, Action>();
        is_few(self.setup.plan().components());
        self.notes.tally.give();
        let bound = least_base(&self.stubs);
        is_bounded(bound);
        let first = self.given;
        parcel.bound = bound;
        self.given += take_apart(&mut self.held, &mut parcel.queues, bound);
        first
    }
}
