//! What is on its way comes to its receivers.
ghost use Rattle.std.specs.Prelude.{◌≡◌, ◌<◌, ◌∷◌, [], true, false};
ghost use Rattle.antimessage.specs.Order.{IsInOrder, KeyFits};
ghost use Rattle.groups.specs.Open.{IsPassed, depth_of};

use crate::members::Members;
use antimessage::Bag;
use antimessage::laws::order_law;
use event_keys::laws::rank_law;
use event_keys::{Key, Signed};
use raw_events::EventCell;
use rollback::laws::least_law;
use task_seed::Turns;
use task_seed::laws::machine_is_lawful;

// The numbers of a key fit their types.
fn fits(key: Key)
    ensures { KeyFits key }
{
    rank_law(key);
}

// One that is on its way comes to its receiver, or waits to leave. The answer is whether entries were taken back.
fn pass<T: Turns>(
    members: &mut Members<T>,
    cell: EventCell<Signed>,
    sent: &mut Bag,
    out: &mut Bag,
) -> bool
    requires order { IsInOrder (cell ∷ sent.old) }
    ensures passed { IsPassed T.turn_of members.old members.new (cell ∷ sent.old) sent.new
        out.old out.new }
    ensures less { result ≡ true
        → depth_of members.new.components < depth_of members.old.components }
    ensures depth { result ≡ false
        → depth_of members.new.components ≡ depth_of members.old.components }
    ensures quiet { result ≡ false → sent.new ≡ sent.old }
{
    machine_is_lawful(members.setup());
    members.members_law();
    least_law();
    fits(cell.value().message.key);
    if !members.has(cell.value().message.to) {
        out.post(cell);
        return false;
    }
    members.deliver(cell, sent) > 0
}

// What is on its way comes to its receivers, from the least on, until entries are taken back or nothing is left; what others get waits to leave.
// The answer is whether entries were taken back.
fn pass_some<T: Turns>(members: &mut Members<T>, sent: &mut Bag, out: &mut Bag) -> bool
    ensures passed { IsPassed T.turn_of members.old members.new sent.old sent.new out.old out.new }
    ensures less { result ≡ true
        → depth_of members.new.components < depth_of members.old.components }
    ensures none { result ≡ false → sent.new ≡ [] }
{
    order_law(sent);
    while let Some(cell) = sent.take_first() {
        if pass(members, cell, sent, out) {
            return true;
        }
        order_law(sent);
    }
    false
}

/// What is on its way comes to its receivers, and what follows of it, until nothing is left; what others get waits to leave.
pub(crate) fn pass_all<T: Turns>(members: &mut Members<T>, sent: &mut Bag, out: &mut Bag)
    ensures passed { IsPassed T.turn_of members.old members.new sent.old sent.new out.old out.new }
    ensures none { sent.new ≡ [] }
{
    while pass_some(members, sent, out) {}
}
