//! Messages that a component has sent: those that stand, and the turns that sent them.
ghost use Rattle.std.specs.Prelude.{◌≡◌, ◌+◌, ◌==◌, true, false};
ghost use Rattle.std.specs.List.{list_all};
ghost use Rattle.event_keys.specs.declared.message.Message.{Message as MessageValue};
ghost use Rattle.event_keys.specs.declared.message.Sign.TheVariants.{Minus};
ghost use Rattle.message_balance.specs.Balance.{all_of, count_as, count_sent, count_standing, is_all_sent, is_sent_if_from, is_sent_balanced, is_turn_balanced};
ghost use Rattle.message_balance.specs.Walks.{count_turns};

use crate::done::Done;
use crate::message_walk::{
    MergedMessages, MessageSource, are_joined, has_none_with, same_messages_merged,
};
use crate::passing::{pass_one, pass_sending};
use antimessage::Bag;
use event_keys::{Message, Sign, Signed};
use raw_events::{EventList, Iter};

// What stands, on the left: the standing messages, and those that have not left.
#[derive(Drop)]
pub(crate) struct StandingMessages<'a> {
    standing: Iter<'a, Signed>,
    out: Iter<'a, Signed>,
}

// Where it is, on the right: the turns, and the antimessages that have not left.
#[derive(Drop)]
pub(crate) struct SentMessages<'a> {
    done: Iter<'a, Done>,
    out: Iter<'a, Signed>,
}

fn pass_standing(standing: &mut StandingMessages<'_>, message: &Message) -> bool
    ensures some { result ≡ true
        → count_standing message.now standing.old ≡ count_standing message.now standing.new + 1 }
    ensures none { result ≡ false → count_standing message.now standing.old ≡ 0 }
{
    pass_one(&mut standing.standing, Sign::Plus, message)
        || pass_one(&mut standing.out, Sign::Plus, message)
}

fn pass_sent(sent: &mut SentMessages<'_>, message: &Message) -> bool
    ensures some { result ≡ true
        → count_sent message.now sent.old ≡ count_sent message.now sent.new + 1 }
    ensures none { result ≡ false → count_sent message.now sent.old ≡ 0 }
{
    pass_sending(&mut sent.done, message) || pass_one(&mut sent.out, Sign::Minus, message)
}

fn is_sent_balanced(
    standing: &mut StandingMessages<'_>,
    sent: &mut SentMessages<'_>,
    message: &Message,
) -> bool
    ensures { result
        ≡ (count_standing message.now standing.old == count_sent message.now sent.old) }
{
    while pass_standing(standing, message) {
        if !pass_sent(sent, message) {
            return false;
        }
    }
    !pass_sent(sent, message)
}

/// The messages that a component has sent, wherever they are: those that others say stand, what has not left yet, and what it has done.
#[derive(Clone, Copy)]
pub struct Sent<'a> {
    pub standing: &'a Bag,
    pub out: &'a Bag,
    pub done: &'a EventList<Done>,
}

impl Sent<'_> {
    // Whether the message stands as often as it was sent.
    fn is_balanced(self, message: &Message) -> bool
        ensures { result ≡ is_sent_balanced self.entry message.now }
    {
        let mut standing = StandingMessages {
            standing: self.standing.iter(),
            out: self.out.iter(),
        };
        let mut sent = SentMessages {
            done: self.done.iter(),
            out: self.out.iter(),
        };
        let is_balanced = is_sent_balanced(&mut standing, &mut sent, message);
        drop(standing);
        drop(sent);
        is_balanced
    }

    // The same of each of these that has a key of component `from`.
    fn is_each_balanced(self, mut items: Iter<'_, Signed>, from: u16) -> bool
        ensures { result ≡ list_all (is_sent_if_from self.entry from) items.entry }
    {
        while let Some(signed) = items.next() {
            if signed.message.key.component == from && !self.is_balanced(&signed.message) {
                return false;
            }
        }
        true
    }

    // The same of each message of a done turn.
    fn is_done_balanced(self, from: u16) -> bool
        ensures { result ≡ list_all (is_turn_balanced self.entry from)
            (all_of self.entry.done.now) }
    {
        let mut items = self.done.iter();
        while let Some(done) = items.next() {
            if !self.is_turn_balanced(done, from) {
                return false;
            }
        }
        true
    }

    fn is_turn_balanced(self, done: &Done, from: u16) -> bool
        ensures { result ≡ is_turn_balanced self.entry from done.now }
    {
        match done {
            Done::Turn(_, antimessages) => self.is_each_balanced(antimessages.iter(), from),
            Done::Input(_) => true,
        }
    }

    // Whether what stands, and after it what is to leave, without an antimessage, is what the done turns sent, in the same order.
    fn is_in_order(self) -> bool
        ensures { result ≡ true → (message : MessageValue)
            → count_standing message
            (record { standing = self.entry.standing.now; out = self.entry.out.now })
            ≡ count_turns message (all_of self.entry.done.now)
            + count_as Minus message self.entry.out.now }
    {
        if !has_none_with(self.out.iter(), Sign::Minus) {
            return false;
        }
        let none = EventList::new();
        let mut sent = MessageSource::antimessages(none.iter(), self.done.iter());
        let mut standing = MessageSource::with_sign(self.standing.iter(), Sign::Plus);
        let mut out = MessageSource::with_sign(self.out.iter(), Sign::Plus);
        let is_same = are_joined(&mut standing, &mut out, &mut sent);
        drop(standing);
        drop(out);
        drop(sent);
        is_same
    }

    /// Whether one walk along both sides finds the same messages.
    pub fn has_same_messages(self) -> bool
        ensures { result ≡ true → (message : MessageValue)
            → count_standing message
            (record { standing = self.entry.standing.now; out = self.entry.out.now })
            ≡ count_turns message (all_of self.entry.done.now)
            + count_as Minus message self.entry.out.now }
    {
        self.is_in_order() || self.has_same_merged()
    }

    // The same where antimessages are to leave, which is rare, so that it stays a call.
    #[inline(never)]
    fn has_same_merged(self) -> bool
        ensures { result ≡ true → (message : MessageValue)
            → count_standing message
            (record { standing = self.entry.standing.now; out = self.entry.out.now })
            ≡ count_turns message (all_of self.entry.done.now)
            + count_as Minus message self.entry.out.now }
    {
        let mut standing = MergedMessages::new(
            MessageSource::with_sign(self.standing.iter(), Sign::Plus),
            MessageSource::with_sign(self.out.iter(), Sign::Plus),
            MessageSource::Nothing,
        );
        let none = EventList::new();
        let mut sent = MergedMessages::new(
            MessageSource::antimessages(none.iter(), self.done.iter()),
            MessageSource::with_sign(self.out.iter(), Sign::Minus),
            MessageSource::Nothing,
        );
        let is_same = same_messages_merged(&mut standing, &mut sent);
        drop(standing);
        drop(sent);
        is_same
    }

    /// Whether each message of component `from` stands as often as it was sent: it is looked for one by one.
    #[inline(never)]
    pub fn is_all_balanced(self, from: u16) -> bool
        ensures { result ≡ is_all_sent self.entry from }
    {
        self.is_each_balanced(self.standing.iter(), from)
            && self.is_each_balanced(self.out.iter(), from)
            && self.is_done_balanced(from)
    }
}
