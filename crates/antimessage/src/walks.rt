//! Walks along a list of signed messages, from its front and back to it.
ghost use Rattle.std.specs.Prelude.{◌≡◌, ◌++◌, [], reverse, filter, not};
ghost use Rattle.raw_events.specs.Around.{head, tail, is_nonempty, first_where, without_where};
ghost use Rattle.antimessage.specs.Bags.{is_to, is_one, has_pair, met};
ghost use Rattle.antimessage.specs.Counts.{IsSorted};
ghost use Rattle.antimessage.specs.Order.{IsInOrder};
ghost use Rattle.antimessage.specs.Meetings.{IsAllMet, IsCancelled, IsPairCount, can_meet};

use event_keys::{Message, Sign, Signed};
use raw_events::{EventCell, EventList, Iter};

pub(crate) fn take_next(events: &mut EventList<Signed>) -> Option<EventCell<Signed>>
    ensures taken { result ≡ head events.old.after }
    ensures rest { events.new ≡ record events.old { after = tail events.old.after } }
{
    if !events.pass_next() {
        return None;
    }
    events.take_last()
}

pub(crate) fn rewind(events: &mut EventList<Signed>)
    ensures { events.new ≡ record {
      before = [];
      after = reverse events.old.before ++ events.old.after;
    } }
{
    if events.peek_last().is_none() {
        return;
    }
    let mut rewound = EventList::new();
    rewound.append_all(events);
    *events = rewound;
}

// Takes the first after the cursor that is sent to that component.
pub(crate) fn take_to(events: &mut EventList<Signed>, to: u16) -> Option<EventCell<Signed>>
    ensures taken { result ≡ first_where (is_to to) events.old.after }
    ensures rest { events.new ≡ record events.old {
      after = without_where (is_to to) events.old.after;
    } }
{
    events.take_where(|next| next.message.to == to)
}

// Takes the first after the cursor that has this message and this sign.
fn take_one(
    events: &mut EventList<Signed>,
    message: &Message,
    sign: Sign,
) -> Option<EventCell<Signed>>
    ensures taken { result ≡ first_where
        (is_one (record { message = message.now; sign = sign })) events.old.after }
    ensures rest { events.new ≡ record events.old {
      after = without_where
          (is_one (record { message = message.now; sign = sign })) events.old.after;
    } }
{
    events.take_where(|next| next.message == *message && next.sign == sign)
}

// Takes the message and its antimessage, where both are there.
pub(crate) fn meet(events: &mut EventList<Signed>, message: &Message) -> bool
    requires { IsSorted events.old.after }
    ensures answer { result ≡ has_pair message.now events.old.after }
    ensures left { events.new ≡ record events.old { after = met message.now events.old.after } }
{
    match take_one(events, message, Sign::Minus) {
        None => false,
        Some(antimessage) => match take_one(events, message, Sign::Plus) {
            None => {
                events.insert_sorted(antimessage);
                false
            }
            Some(_) => true,
        },
    }
}

fn has_next(events: &EventList<Signed>) -> bool
    ensures { result ≡ is_nonempty events.now.after }
{
    events.peek_next().is_some()
}

fn next_meets_last(events: &EventList<Signed>) -> bool
    ensures { result ≡ can_meet events.now.before events.now.after }
{
    match (events.peek_last(), events.peek_next()) {
        (Some(last), Some(next)) => {
            last.message == next.message && last.sign == Sign::Plus && next.sign == Sign::Minus
        }
        _ => false,
    }
}

// Plus stands before minus of the same message, so an antimessage that can meet one meets the last that was passed.
#[tactic(auto, using(crate::proofs::Meeting::meeting_starts))]
pub(crate) fn meet_all(events: &mut EventList<Signed>) -> u64
    requires front { events.old.before ≡ [] }
    requires order { IsInOrder events.old.after }
    ensures front { events.new.before ≡ [] }
    ensures order { IsInOrder events.new.after }
    ensures met { IsAllMet events.old.after events.new.after }
    ensures pairs { IsPairCount events.old.after events.new.after result }
{
    let mut pairs: u64 = 0;
    while has_next(events) {
        if next_meets_last(events) {
            drop(take_next(events));
            drop(events.take_last());
            pairs = pairs.saturating_add(1);
        } else {
            events.pass_next();
        }
    }
    rewind(events);
    pairs
}

// Takes one message out for each antimessage of it among the others, where there is one left.
pub(crate) fn cancel(events: &mut EventList<Signed>, others: Iter<'_, Signed>)
    requires { IsInOrder events.old.after }
    ensures front { events.new.before ≡ events.old.before }
    ensures order { IsInOrder events.new.after }
    ensures cancelled { IsCancelled others.entry events.old.after events.new.after }
{
    for other in others {
        if other.sign == Sign::Minus {
            drop(take_one(events, &other.message, Sign::Plus));
        }
    }
}

// Takes all that are sent to that component into a list of their own. Both lists keep their order.
pub(crate) fn split_to(events: &mut EventList<Signed>, to: u16) -> EventList<Signed>
    requires { events.old.before ≡ [] }
    ensures taken { result ≡ record { before = []; after = filter (is_to to) events.old.after } }
    ensures rest { events.new ≡ record {
      before = [];
      after = filter (λ s. not (is_to to s)) events.old.after;
    } }
{
    let mut taken = EventList::new();
    while let Some(cell) = take_next(events) {
        if cell.value().message.to == to {
            taken.push_last(cell);
        } else {
            events.push_last(cell);
        }
    }
    rewind(&mut taken);
    rewind(events);
    taken
}
