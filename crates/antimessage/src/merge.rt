//! Lists of signed messages put together, and first parts that are dropped, in one walk each.
ghost use Rattle.std.specs.Prelude.{◌≡◌, ◌++◌, [], false, reverse};
ghost use Rattle.std.specs.Ordering.{is_gt};
ghost use Rattle.raw_events.specs.Around.{first_is_at_most};
ghost use Rattle.antimessage.specs.Counts.{Each, IsSorted, signed_cmp};
ghost use Rattle.antimessage.specs.Bags.{insert, insert_all, first_is_below, without_below};

use crate::walks;
use event_keys::laws::bound_law;
use event_keys::{Bound, Signed};
use raw_events::{EventCell, EventList};

fn next_is_at_most(events: &EventList<Signed>, signed: &Signed) -> bool
    ensures { result ≡ first_is_at_most signed_cmp signed.now events.now.after }
{
    match events.peek_next() {
        None => false,
        Some(next) => !next.cmp(signed).is_gt(),
    }
}

// Puts a cell in its place after the cursor, and the cursor behind it. What is passed isn't greater.
fn put(events: &mut EventList<Signed>, cell: EventCell<Signed>)
    ensures placed { reverse events.new.before ++ events.new.after ≡ reverse events.old.before
        ++ insert cell events.old.after }
    ensures passed { Each (λ s. is_gt (signed_cmp s cell) ≡ false) events.old.before
        → Each (λ s. is_gt (signed_cmp s cell) ≡ false) events.new.before }
{
    while next_is_at_most(events, cell.value()) {
        events.pass_next();
    }
    events.push_last(cell);
}

// The cursor goes along both lists once, since no message of the other list is less than those that were put before it.
pub(crate) fn append(events: &mut EventList<Signed>, other: &mut EventList<Signed>)
    requires front { events.old.before ≡ [] }
    requires other_front { other.old.before ≡ [] }
    requires other_order { IsSorted other.old.after }
    ensures all { events.new
        ≡ record { before = []; after = insert_all other.old.after events.old.after } }
    ensures empty { other.new ≡ record { before = []; after = [] } }
{
    while let Some(cell) = walks::take_next(other) {
        put(events, cell);
    }
    walks::rewind(events);
}

fn next_is_below(events: &EventList<Signed>, bound: Bound) -> bool
    ensures { result ≡ first_is_below bound events.now.after }
{
    match events.peek_next() {
        None => false,
        Some(next) => {
            let key = Bound::At(next.message.key);
            bound_law(key, bound);
            key < bound
        }
    }
}

// The list is in order, so those below the bound stand first.
pub(crate) fn drop_below(events: &mut EventList<Signed>, bound: Bound)
    requires { IsSorted events.old.after }
    ensures { events.new ≡ record events.old { after = without_below bound events.old.after } }
{
    while next_is_below(events, bound) {
        drop(walks::take_next(events));
    }
}
