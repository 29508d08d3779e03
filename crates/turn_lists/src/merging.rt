//! Two lists of turns, put together in the order of keys.
ghost use Rattle.std.specs.Prelude.{◌≡◌, ◌≤◌, [], map, not};
ghost use Rattle.event_keys.specs.Ranks.{rank, rank_of_bound};
ghost use Rattle.antimessage.specs.Counts.{Each};
ghost use Rattle.virtual_time.specs.Reference.{Falls};
ghost use Rattle.virtual_time.specs.Exchange.Merged.{put_turn, put_turns};
ghost use Rattle.task_seed.specs.Taken.{turn_of, turns_of};
ghost use Rattle.raw_events.specs.Onto.{onto};
ghost use Rattle.turn_lists.specs.Turns.{is_last_from};

use event_keys::laws::bound_rank_law;
use event_keys::{Bound, Turned};
use raw_events::{EventCell, EventList};

/// Moves the cursor behind all turns.
pub fn pass_to_end(turns: &mut EventList<Turned>)
    ensures { turns.new ≡ record { before = onto turns.old.after turns.old.before; after = [] } }
{
    turns.pass_all();
}

// Moves the cursor before all turns.
fn rewind(turns: &mut EventList<Turned>)
    ensures { turns.new ≡ record { before = []; after = onto turns.old.before turns.old.after } }
{
    let mut front = EventList::new();
    front.append_all(turns);
    *turns = front;
}

fn is_last_from(turns: &EventList<Turned>, bound: Bound) -> bool
    ensures { result ≡ is_last_from (rank_of_bound bound) turns.now.before }
{
    match turns.peek_last() {
        None => false,
        Some(last) => {
            bound_rank_law(Bound::At(last.key), bound);
            Bound::At(last.key) >= bound
        }
    }
}

// Puts a turn in its place before the cursor, and then the cursor before it. What is passed isn't earlier.
fn put(held: &mut EventList<Turned>, cell: EventCell<Turned>)
    ensures placed { onto (map turn_of held.new.after) (map turn_of held.new.before)
        ≡ onto (map turn_of held.old.after)
        (put_turn (turn_of cell) (map turn_of held.old.before)) }
    ensures passed { Each (λ u. rank cell.key ≤ rank u.key) held.old.after
        → Each (λ u. rank cell.key ≤ rank u.key) held.new.after }
{
    let bound = Bound::At(cell.value().key);
    while is_last_from(held, bound) {
        held.pass_back();
    }
    held.push_last(cell);
    held.pass_back();
}

// Whether the last turn, if there is one, is below a bound. The cursor goes there and back.
fn ends_below(turns: &mut EventList<Turned>, bound: Bound) -> bool
    requires front { turns.old.before ≡ [] }
    ensures same { turns.new ≡ turns.old }
    ensures answer { result ≡ not (is_last_from (rank_of_bound bound) (onto turns.old.after [])) }
{
    pass_to_end(turns);
    let is_from = is_last_from(turns, bound);
    rewind(turns);
    !is_from
}

/// Puts all turns among those that are held: behind them in one joining, where all are later, and else by going to the end of both lists and
/// back along them once. No memory is taken.
///
/// Both lists stand in the order of keys, all after the cursor.
pub fn merge(held: &mut EventList<Turned>, mut turns: EventList<Turned>)
    requires front { held.old.before ≡ [] }
    requires turns_front { turns.before ≡ [] }
    requires falls { Falls (turns_of turns.after) }
    ensures front { held.new.before ≡ [] }
    ensures all { turns_of held.new.after
        ≡ put_turns (turns_of turns.after) (turns_of held.old.after) }
{
    let Some(first) = turns.peek_next() else {
        return;
    };
    if ends_below(held, Bound::At(first.key)) {
        held.append_all(&mut turns);
    } else {
        merge_among(held, turns);
    }
}

// The same, wherever the turns belong.
fn merge_among(held: &mut EventList<Turned>, mut turns: EventList<Turned>)
    requires front { held.old.before ≡ [] }
    requires turns_front { turns.before ≡ [] }
    requires falls { Falls (turns_of turns.after) }
    ensures front { held.new.before ≡ [] }
    ensures all { turns_of held.new.after
        ≡ put_turns (turns_of turns.after) (turns_of held.old.after) }
{
    pass_to_end(held);
    pass_to_end(&mut turns);
    while let Some(cell) = turns.take_last() {
        put(held, cell);
    }
    rewind(held);
}
