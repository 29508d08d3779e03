//! What a component gives up when it can't be taken back any more.
ghost use Rattle.std.specs.Prelude.{◌≡◌, true, ◌<◌, ◌^◌, [], ◌++◌, IfSome, map, length, reverse};
ghost use Rattle.event_keys.specs.Ranks.{rank_of_bound};
ghost use Rattle.virtual_time.specs.Entries.{below};
ghost use Rattle.virtual_time.specs.Records.{turns_among};
ghost use Rattle.rollback.specs.Falling.{Falls};
ghost use Rattle.raw_events.specs.Onto.{onto};
ghost use Rattle.rollback.specs.ComponentInvariant.{entries_of};
ghost use Rattle.task_seed.specs.Taken.{turn_of};
ghost use Rattle.rollback.specs.Dropped.{dones_below, dones_from, key_in, newest_key, number_after, oldest_below, turn_in, turns_in, without_oldest_below};
ghost use Rattle.rollback.specs.Reuse.{is_turn as is_turn_of};
ghost use Rattle.rollback.specs.ComponentView.{cut_at};
ghost use Rattle.rollback.specs.Stepped.{machine_at};

use crate::component::Component;
use crate::keys::{is_below_bound, key_of};
use crate::spares::{Spares, is_turn, swap_turn, take_sent};
use event_keys::{Bound, Key, Signed, Turned};
use message_balance::Done;
use raw_events::{EventCell, EventList};
use task_seed::Turns;

// What the dropped entries leave.
#[derive(Drop)]
struct Dropped {
    turns: EventList<Turned>,
    count: usize,
    newest: Option<Key>,
    signed: EventList<Signed>,
}

impl<T: Turns> Component<T> {
    /// Drops the done entries below a bound, and makes the bound the base: its state is the one after them, to which nothing is
    /// taken back any more. The answer is the dropped own turns, the oldest first, all after the cursor. The caller's bound is neither
    /// below the base nor above the next key.
    pub fn drop_below(&mut self, bound: Bound) -> EventList<Turned>
        ensures record { self.new ≡ cut_at (machine_at T.turn_of self.old) bound self.old }
        ensures turns { map turn_of result.after
            ≡ onto (turns_among (below (rank_of_bound bound) self.old.history.done)) [] }
        ensures front { result.before ≡ [] }
    {
        let _depth = self.depth();
        let mut dropped = take_below(&mut self.done, &mut self.spares, bound);
        self.store.forget_first(dropped.count);
        self.first = number_after(dropped.newest, self.first);
        self.base = bound;
        self.spares.signed.keep_all(&mut dropped.signed);
        from_front(dropped.turns)
    }
}

fn number_after(newest: Option<Key>, first: u64) -> u64
    requires { IfSome newest (λ key. key.number < 4294967296) }
    ensures { result ≡ number_after newest first }
{
    match newest {
        None => first,
        Some(key) => key.number + 1,
    }
}

// Takes the oldest entry, where it is below the bound.
fn take_oldest_below(done: &mut EventList<Done>, bound: Bound) -> Option<EventCell<Done>>
    requires { done.old.after ≡ [] }
    ensures taken { result ≡ oldest_below (rank_of_bound bound) done.old.before }
    ensures rest { done.new ≡ record done.old {
      before = without_oldest_below (rank_of_bound bound) done.old.before;
    } }
{
    let oldest = done.peek_first()?;
    if !is_below_bound(key_of(oldest), bound) {
        return None;
    }
    done.take_first()
}

// Takes the entries below the bound, the oldest first. Each later entry's key is not less, so that no other is looked at but the first
// that stays.
fn take_below(done: &mut EventList<Done>, spares: &mut Spares, bound: Bound) -> Dropped
    requires end { done.old.after ≡ [] }
    requires falling { Falls (entries_of done.old.before) }
    requires few { length done.old.before < 2 ^ 64 }
    ensures rest { done.new ≡ record {
      before = dones_from (rank_of_bound bound) done.old.before;
      after = [];
    } }
    ensures turns { result.turns
        ≡ record {
          before = turns_in (dones_below (rank_of_bound bound) done.old.before);
          after = [];
        } }
    ensures count { result.count ≡ length (dones_below (rank_of_bound bound) done.old.before) }
    ensures newest { result.newest
        ≡ newest_key (dones_below (rank_of_bound bound) done.old.before) }
{
    let mut dropped = Dropped {
        turns: EventList::new(),
        count: 0,
        newest: None,
        signed: EventList::new(),
    };
    while let Some(cell) = take_oldest_below(done, bound) {
        dropped.count += 1;
        add_entry(&mut dropped, spares, cell);
    }
    dropped
}

// Puts the turn of an entry behind all that were taken. The entry's cell serves again.
#[tactic(auto, using(crate::proofs::Spared::no_turn_in, crate::proofs::Spared::no_key_in))]
fn add_entry(dropped: &mut Dropped, spares: &mut Spares, cell: EventCell<Done>)
    ensures turns { dropped.new.turns
        ≡ record dropped.old.turns { before = turn_in cell dropped.old.turns.before } }
    ensures count { dropped.new.count ≡ dropped.old.count }
    ensures newest { dropped.new.newest ≡ key_in cell dropped.old.newest }
{
    if !is_turn(cell.value()) {
        spares.input_entries.push_last(cell);
        return;
    }
    match spares.turns.take_first() {
        Some(spare) => add_swapped(dropped, &mut spares.turn_entries, cell, spare),
        None => add_turn(dropped, cell.into_value()),
    }
}

// Puts the turn of an entry behind all that were taken, and leaves the entry a spare cell of a turn in its place.
#[tactic(auto, using(crate::proofs::Spared::swapped_in, crate::proofs::Spared::swapped_key))]
fn add_swapped(
    dropped: &mut Dropped,
    entries: &mut EventList<Done>,
    mut cell: EventCell<Done>,
    mut turned: EventCell<Turned>,
)
    requires { is_turn_of cell ≡ true }
    ensures turns { dropped.new.turns
        ≡ record dropped.old.turns { before = turn_in cell dropped.old.turns.before } }
    ensures count { dropped.new.count ≡ dropped.old.count }
    ensures newest { dropped.new.newest ≡ key_in cell dropped.old.newest }
{
    swap_turn(cell.value_mut(), &mut turned);
    take_sent(cell.value_mut(), &mut dropped.signed);
    entries.push_last(cell);
    dropped.newest = Some(turned.value().key);
    dropped.turns.push_last(turned);
}

// The same where no cell is spare.
fn add_turn(dropped: &mut Dropped, done: Done)
    ensures turns { dropped.new.turns
        ≡ record dropped.old.turns { before = turn_in done dropped.old.turns.before } }
    ensures count { dropped.new.count ≡ dropped.old.count }
    ensures newest { dropped.new.newest ≡ key_in done dropped.old.newest }
{
    if let Done::Turn(turned, mut sent) = done {
        dropped.newest = Some(turned.value().key);
        dropped.turns.push_last(turned);
        dropped.signed.append_all(&mut sent);
    }
}

// The same list with its cursor before all items.
fn from_front(mut turns: EventList<Turned>) -> EventList<Turned>
    ensures { result ≡ record { before = []; after = reverse turns.before ++ turns.after } }
{
    let mut front = EventList::new();
    front.append_all(&mut turns);
    front
}
