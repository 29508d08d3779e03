//! Turns that are committed for good, on their way out.
ghost use Rattle.std.specs.Prelude.{◌≡◌, ◌<◌, [], map};
ghost use Rattle.task_seed.specs.Taken.{turns_of};
ghost use Rattle.gvt.specs.Least.{IsLeast};
ghost use Rattle.group_exchange.specs.Chunks.{base_of};
ghost use Rattle.group_exchange.specs.Seen.{HasGiven, LeavesTheWorld};

use crate::committing::is_bounded;
use crate::exchange::Exchange;
use crate::queue::take_all_below;
use crate::stub::Stub;
use event_keys::{Bound, Turned};
use gvt::least_bound;
use raw_events::EventList;
use task_seed::Turns;
use task_seed::laws::machine_is_lawful;
use terms::{Action, State};
use virtual_time::grouped::{group_exchange_is_sound, group_window_law};
use virtual_time::reference::reference_is_counted;

/// Turns that no chunk has given yet.
#[derive(Drop)]
pub struct Chunk {
    /// The number of the turns that were given before.
    pub first: u64,
    /// The turns, in the order of keys, all after the cursor.
    pub turns: EventList<Turned>,
}

// A number of components fits its type.
pub(crate) fn is_few(count: u16)
    ensures { count < 65536 }
{
    let _ = count;
}

pub(crate) fn least_base(stubs: &[Stub]) -> Bound
    ensures { IsLeast (map base_of stubs.now) result }
{
    least_bound(stubs.iter().map(|stub| stub.base))
}

impl<T: Turns> Exchange<T> {
    /// Gives the turns below the least base that no chunk has given yet, in the order of keys. It takes no memory; its time grows with
    /// the number of the components, and with that of these turns times its logarithm.
    ///
    /// Nothing in the whole world that the exchange and its leases stand for changes.
    pub fn take_chunk(&mut self) -> Chunk
        ensures chunk { HasGiven T.turn_of self.old result.first
            (turns_of result.turns.after) self.new }
        ensures front { result.turns.before ≡ [] }
        ensures first { result.first ≡ self.old.given }
        ensures rest { self.new ≡ record self.old { held = self.new.held; given = self.new.given } }
        ensures core { LeavesTheWorld T.turn_of self.old self.new }
    {
        machine_is_lawful(self.setup());
        self.give()
    }

    fn give(&mut self) -> Chunk
        ensures chunk { HasGiven T.turn_of self.old result.first
            (turns_of result.turns.after) self.new }
        ensures front { result.turns.before ≡ [] }
        ensures first { result.first ≡ self.old.given }
        ensures rest { self.new ≡ record self.old { held = self.new.held; given = self.new.given } }
    {
        machine_is_lawful(&self.setup);
        group_exchange_is_sound::<State, Action>();
        reference_is_counted::<State, Action>();
        group_window_law::<State, Action>();
        is_few(self.setup.plan().components());
        self.notes.tally.give();
        let bound = least_base(&self.stubs);
        is_bounded(bound);
        let first = self.given;
        let taken = take_all_below(&mut self.held, bound);
        self.given += taken.count;
        Chunk {
            first,
            turns: taken.turns.into_turns(),
        }
    }
}
