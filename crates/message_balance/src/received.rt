//! Messages to a component: those that it has taken, and where they are.
ghost use Rattle.std.specs.Prelude.{◌≡◌, ◌+◌, ◌==◌, true, false};
ghost use Rattle.std.specs.List.{list_all};
ghost use Rattle.event_keys.specs.declared.message.Message.{Message as MessageValue};
ghost use Rattle.message_balance.specs.Balance.{all_of, count_arrivals, count_places, is_all_taken, is_input_balanced, is_taken_if_to, is_taken_balanced};
ghost use Rattle.message_balance.specs.Walks.{count_merged};

use crate::done::Done;
use crate::message_walk::{MergedMessages, MessageSource, same_messages, same_messages_merged};
use crate::passing::{is_something, pass_input, pass_one};
use antimessage::Bag;
use event_keys::{Message, Sign, Signed};
use raw_events::{EventList, Iter};

// What came to a component, on the left: its taken messages, and the antimessages that are owed or wait in the tray.
#[derive(Drop)]
pub(crate) struct Arrivals<'a> {
    taken: Iter<'a, Signed>,
    owed: Iter<'a, Signed>,
    tray: Iter<'a, Signed>,
}

// Where it is, on the right: the done inputs, what is pending, and the messages that wait in the tray.
#[derive(Drop)]
pub(crate) struct Places<'a> {
    done: Iter<'a, Done>,
    pending: Iter<'a, Signed>,
    tray: Iter<'a, Signed>,
}

fn pass_arrival(arrivals: &mut Arrivals<'_>, message: &Message) -> bool
    ensures some { result ≡ true
        → count_arrivals message.now arrivals.old ≡ count_arrivals message.now arrivals.new + 1 }
    ensures none { result ≡ false → count_arrivals message.now arrivals.old ≡ 0 }
{
    pass_one(&mut arrivals.taken, Sign::Plus, message)
        || pass_one(&mut arrivals.owed, Sign::Minus, message)
        || pass_one(&mut arrivals.tray, Sign::Minus, message)
}

fn pass_place(places: &mut Places<'_>, message: &Message) -> bool
    ensures some { result ≡ true
        → count_places message.now places.old ≡ count_places message.now places.new + 1 }
    ensures none { result ≡ false → count_places message.now places.old ≡ 0 }
{
    pass_input(&mut places.done, message)
        || pass_one(&mut places.pending, Sign::Plus, message)
        || pass_one(&mut places.tray, Sign::Plus, message)
}

// Whether both sides have the message as often: they are passed in pairs, so that nothing is counted.
fn is_taken_balanced(
    arrivals: &mut Arrivals<'_>,
    places: &mut Places<'_>,
    message: &Message,
) -> bool
    ensures { result
        ≡ (count_arrivals message.now arrivals.old == count_places message.now places.old) }
{
    while pass_arrival(arrivals, message) {
        if !pass_place(places, message) {
            return false;
        }
    }
    !pass_place(places, message)
}

/// The messages to a component, wherever they are: those that others say it has taken, what waits to be delivered, and the component's own
/// lists.
#[derive(Clone, Copy)]
pub struct Received<'a> {
    pub taken: &'a Bag,
    pub tray: &'a Bag,
    pub done: &'a EventList<Done>,
    pub pending: &'a EventList<Signed>,
    pub owed: &'a EventList<Signed>,
}

impl<'a> Received<'a> {
    // Whether the message came as often as it is there.
    fn is_balanced(self, message: &Message) -> bool
        ensures { result ≡ is_taken_balanced self.entry message.now }
    {
        let mut arrivals = Arrivals {
            taken: self.taken.iter(),
            owed: self.owed.iter(),
            tray: self.tray.iter(),
        };
        let mut places = Places {
            done: self.done.iter(),
            pending: self.pending.iter(),
            tray: self.tray.iter(),
        };
        let is_balanced = is_taken_balanced(&mut arrivals, &mut places, message);
        drop(arrivals);
        drop(places);
        is_balanced
    }

    // The same of each of these that is sent to the component.
    fn is_each_balanced(self, mut items: Iter<'_, Signed>, to: u16) -> bool
        ensures { result ≡ list_all (is_taken_if_to self.entry to) items.entry }
    {
        while let Some(signed) = items.next() {
            if signed.message.to == to && !self.is_balanced(&signed.message) {
                return false;
            }
        }
        true
    }

    // The same of each done input.
    fn is_done_balanced(self) -> bool
        ensures { result ≡ list_all (is_input_balanced self.entry) (all_of self.entry.done.now) }
    {
        let mut items = self.done.iter();
        while let Some(done) = items.next() {
            if !self.is_input_balanced(done) {
                return false;
            }
        }
        true
    }

    fn is_input_balanced(self, done: &Done) -> bool
        ensures { result ≡ is_input_balanced self.entry done.now }
    {
        match done {
            Done::Turn(_, _) => true,
            Done::Input(input) => self.is_balanced(&input.value().message),
        }
    }

    // Whether all that came is done, in the same order, and nothing waits; then each message is balanced.
    fn has_same_done(self) -> bool
        ensures { result ≡ true → (message : MessageValue)
            → is_taken_balanced self.entry message ≡ true }
    {
        if !self.tray.is_empty() || is_something(self.pending) || is_something(self.owed) {
            return false;
        }
        let mut arrivals = MessageSource::with_sign(self.taken.iter(), Sign::Plus);
        let mut inputs = MessageSource::inputs(self.done.iter());
        let is_same = same_messages(&mut arrivals, &mut inputs);
        drop(arrivals);
        drop(inputs);
        is_same
    }

    // Whether one walk along both sides finds the same messages; then each is level.
    fn has_same_messages(self) -> bool
        ensures { result ≡ true → (message : MessageValue)
            → is_taken_balanced self.entry message ≡ true }
    {
        self.has_same_done() || self.has_same_merged()
    }

    // The messages that came, or are still to be removed.
    fn merged_arrivals(self) -> MergedMessages<'a>
        ensures { (message : MessageValue)
            → count_merged message result
            ≡ count_arrivals message
            (record {
              taken = self.entry.taken.now;
              owed = all_of self.entry.owed.now;
              tray = self.entry.tray.now;
            }) }
    {
        MergedMessages::new(
            MessageSource::with_sign(self.taken.iter(), Sign::Plus),
            MessageSource::with_sign(self.owed.iter(), Sign::Minus),
            MessageSource::with_sign(self.tray.iter(), Sign::Minus),
        )
    }

    // Those that are done, are pending or wait.
    fn merged_places(self) -> MergedMessages<'a>
        ensures { (message : MessageValue)
            → count_merged message result
            ≡ count_places message
            (record {
              done = all_of self.entry.done.now;
              pending = all_of self.entry.pending.now;
              tray = self.entry.tray.now;
            }) }
    {
        MergedMessages::new(
            MessageSource::inputs(self.done.iter()),
            MessageSource::with_sign(self.pending.iter(), Sign::Plus),
            MessageSource::with_sign(self.tray.iter(), Sign::Plus),
        )
    }

    // The same where something waits, which is rare, so that it stays a call.
    #[inline(never)]
    fn has_same_merged(self) -> bool
        ensures { result ≡ true → (message : MessageValue)
            → is_taken_balanced self.entry message ≡ true }
    {
        let mut arrivals = self.merged_arrivals();
        let mut places = self.merged_places();
        let is_same = same_messages_merged(&mut arrivals, &mut places);
        drop(arrivals);
        drop(places);
        is_same
    }

    /// Whether all messages to component `to` are balanced: each came as often as it is there. It is told by one walk, and where that finds a
    /// difference by looking for each.
    pub fn is_matched(self, to: u16) -> bool
        ensures { result ≡ is_all_taken self.entry to }
    {
        self.has_same_messages() || self.is_all_balanced(to)
    }

    // The same of all messages to the component.
    #[inline(never)]
    fn is_all_balanced(self, to: u16) -> bool
        ensures { result ≡ is_all_taken self.entry to }
    {
        self.is_each_balanced(self.taken.iter(), to)
            && self.is_each_balanced(self.tray.iter(), to)
            && self.is_each_balanced(self.pending.iter(), to)
            && self.is_each_balanced(self.owed.iter(), to)
            && self.is_done_balanced()
    }
}
