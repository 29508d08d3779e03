//! Moving over messages one by one, so that they are paired and not counted.
ghost use Rattle.std.specs.Prelude.{◌≡◌, ◌+◌, [], true, false, count_by};
ghost use Rattle.event_keys.specs.declared.message.Sign.TheVariants.{Plus, Minus};
ghost use Rattle.antimessage.specs.Bags.{is_one};
ghost use Rattle.message_balance.specs.Balance.{all_of, count_as, is_input_of, is_sending_of, signed_as};

use crate::done::Done;
use event_keys::{Message, Sign, Signed};
use raw_events::{EventList, Iter};

fn is_one(signed: &Signed, sign: Sign, message: &Message) -> bool
    ensures { result ≡ is_one (signed_as sign message.now) signed.now }
{
    signed.message == *message && signed.sign == sign
}

// Moves over the next one that is the message with the sign; false where there is none.
pub(crate) fn pass_one(items: &mut Iter<'_, Signed>, sign: Sign, message: &Message) -> bool
    ensures some { result ≡ true
        → count_as sign message.now items.old ≡ count_as sign message.now items.new + 1 }
    ensures none { result ≡ false → count_as sign message.now items.old ≡ 0 }
    ensures left { result ≡ false → count_as sign message.now items.new ≡ 0 }
{
    while let Some(signed) = items.next() {
        if is_one(signed, sign, message) {
            return true;
        }
    }
    false
}

fn is_input_of(done: &Done, message: &Message) -> bool
    ensures { result ≡ is_input_of message.now done.now }
{
    match done {
        Done::Turn(_, _) => false,
        Done::Input(input) => is_one(input.value(), Sign::Plus, message),
    }
}

// Moves over the next one that is the input of the message; false where there is none.
pub(crate) fn pass_input(items: &mut Iter<'_, Done>, message: &Message) -> bool
    ensures some { result ≡ true
        → count_by (is_input_of message.now) items.old
        ≡ count_by (is_input_of message.now) items.new + 1 }
    ensures none { result ≡ false → count_by (is_input_of message.now) items.old ≡ 0 }
    ensures left { result ≡ false → count_by (is_input_of message.now) items.new ≡ 0 }
{
    while let Some(done) = items.next() {
        if is_input_of(done, message) {
            return true;
        }
    }
    false
}

// Whether it is a turn by which the message was sent: its antimessage lies ready.
fn is_sending_of(done: &Done, message: &Message) -> bool
    ensures { result ≡ is_sending_of message.now done.now }
{
    match done {
        Done::Turn(_, antimessages) => pass_one(&mut antimessages.iter(), Sign::Minus, message),
        Done::Input(_) => false,
    }
}

// Moves over the next one that is a turn by which the message was sent; false where there is none.
pub(crate) fn pass_sending(items: &mut Iter<'_, Done>, message: &Message) -> bool
    ensures some { result ≡ true
        → count_by (is_sending_of message.now) items.old
        ≡ count_by (is_sending_of message.now) items.new + 1 }
    ensures none { result ≡ false → count_by (is_sending_of message.now) items.old ≡ 0 }
    ensures left { result ≡ false → count_by (is_sending_of message.now) items.new ≡ 0 }
{
    while let Some(done) = items.next() {
        if is_sending_of(done, message) {
            return true;
        }
    }
    false
}

// Whether there is an item.
pub(crate) fn is_something(items: &EventList<Signed>) -> bool
    ensures { result ≡ false → all_of items.now ≡ [] }
{
    items.peek_first().is_some()
}
