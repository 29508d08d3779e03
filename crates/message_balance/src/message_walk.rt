//! Whether two sides have the same messages, by one walk along both.
ghost use Rattle.std.specs.Prelude.{◌≡◌, ◌<◌, ◌≤◌, ◌+◌, true, IfSome, IfNone, IsSome, length};
ghost use Rattle.event_keys.specs.declared.message.Message.{Message as MessageValue};
ghost use Rattle.event_keys.specs.declared.message.Sign.TheVariants.{Minus};
ghost use Rattle.message_balance.specs.Balance.{count_as, is_input_of};
ghost use Rattle.message_balance.specs.Walks.{count_peeked, count_inputs, count_next, count_sendings, count_merged, count_source, count_turns, size_peeked, size_next, size_sendings, size_merged, size_source};

use crate::done::Done;
use event_keys::{Message, Sign, Signed};
use raw_events::Iter;
use std::mem::swap;

// Signed messages of which those with one sign count.
#[derive(Drop)]
pub(crate) struct OfSign<'a> {
    pub(crate) items: Iter<'a, Signed>,
    pub(crate) sign: Sign,
}

// The antimessages that are left of one done turn, and those of other done turns.
#[derive(Drop)]
pub(crate) struct Antimessages<'a> {
    pub(crate) turn: Iter<'a, Signed>,
    pub(crate) rest: Iter<'a, Done>,
}

// Where messages come from, one after the other.
#[derive(Drop)]
pub(crate) enum MessageSource<'a> {
    Nothing,
    WithSign(OfSign<'a>),
    // Those that done entries took.
    Inputs(Iter<'a, Done>),
    Turns(Antimessages<'a>),
}

fn next_with<'a>(items: &mut Iter<'a, Signed>, sign: Sign) -> Option<&'a Message>
    ensures count { (message : MessageValue)
        → count_as sign message items.old ≡ count_next message result
        + count_as sign message items.new }
    ensures none { IfNone result ((message : MessageValue) → count_as sign message items.new ≡ 0) }
    ensures less { size_next result + length items.new ≤ length items.old }
{
    while let Some(signed) = items.next() {
        if signed.sign == sign {
            return Some(&signed.message);
        }
    }
    None
}

fn next_input<'a>(items: &mut Iter<'a, Done>) -> Option<&'a Message>
    ensures count { (message : MessageValue)
        → count_inputs message items.old ≡ count_next message result
        + count_inputs message items.new }
    ensures none { IfNone result ((message : MessageValue) → count_inputs message items.new ≡ 0) }
    ensures less { size_next result + length items.new ≤ length items.old }
{
    while let Some(done) = items.next() {
        if let Done::Input(input) = done {
            let signed = input.value();
            if signed.sign == Sign::Plus {
                return Some(&signed.message);
            }
        }
    }
    None
}

impl<'a> Antimessages<'a> {
    fn take(&mut self) -> Option<&'a Message>
        ensures count { (message : MessageValue)
            → count_sendings message self.old ≡ count_next message result
            + count_sendings message self.new }
        ensures none { IfNone result
            ((message : MessageValue) → count_sendings message self.new ≡ 0) }
        ensures less { size_next result + size_sendings self.new ≤ size_sendings self.old }
    {
        loop {
            let found = next_with(&mut self.turn, Sign::Minus);
            if found.is_some() {
                return found;
            }
            match self.rest.next() {
                None => return None,
                Some(Done::Turn(_, antimessages)) => swap(&mut self.turn, &mut antimessages.iter()),
                Some(Done::Input(_)) => {}
            }
        }
    }
}

impl<'a> MessageSource<'a> {
    pub(crate) fn with_sign(items: Iter<'a, Signed>, sign: Sign) -> MessageSource<'a>
        ensures { (message : MessageValue)
            → count_source message result ≡ count_as sign message items.entry }
    {
        MessageSource::WithSign(OfSign { items, sign })
    }

    pub(crate) fn inputs(items: Iter<'a, Done>) -> MessageSource<'a>
        ensures { (message : MessageValue)
            → count_source message result ≡ count_inputs message items.entry }
    {
        MessageSource::Inputs(items)
    }

    // Of what is left of one done turn, and of other done turns.
    pub(crate) fn antimessages(turn: Iter<'a, Signed>, rest: Iter<'a, Done>) -> MessageSource<'a>
        ensures { (message : MessageValue)
            → count_source message result ≡ count_as Minus message turn.entry
            + count_turns message rest.entry }
    {
        MessageSource::Turns(Antimessages { turn, rest })
    }

    #[inline(always)]
    fn take(&mut self) -> Option<&'a Message>
        ensures count { (message : MessageValue)
            → count_source message self.old ≡ count_next message result
            + count_source message self.new }
        ensures none { IfNone result
            ((message : MessageValue) → count_source message self.new ≡ 0) }
        ensures less { size_next result + size_source self.new ≤ size_source self.old }
    {
        match self {
            MessageSource::Nothing => None,
            MessageSource::WithSign(signs) => next_with(&mut signs.items, signs.sign),
            MessageSource::Inputs(items) => next_input(items),
            MessageSource::Turns(antimessages) => antimessages.take(),
        }
    }
}

// Whether both are the same message, or neither is there.
#[inline(always)]
fn is_same_next(one: Option<&Message>, other: Option<&Message>) -> bool
    ensures { result ≡ true → (message : MessageValue)
        → count_next message one.entry ≡ count_next message other.entry }
{
    match one {
        None => other.is_none(),
        Some(message) => match other {
            None => false,
            Some(found) => message == found,
        },
    }
}

// Whether both are the same message; nothing where neither is there.
#[inline(always)]
fn compare(one: Option<&Message>, other: Option<&Message>) -> Option<bool>
    ensures some { IfSome result
        (λ same. same ≡ true → (message : MessageValue)
        → count_next message one.entry ≡ count_next message other.entry) }
    ensures none { IfNone result
        ((size_next one.entry ≡ 0) × (size_next other.entry ≡ 0)
        × ((message : MessageValue)
        → count_next message one.entry ≡ count_next message other.entry)) }
    ensures there { IsSome result → 0 < size_next one.entry + size_next other.entry }
{
    if one.is_none() && other.is_none() {
        return None;
    }
    Some(is_same_next(one, other))
}

// Both sources lose their next message; whether that was the same one.
#[inline(always)]
fn next_pair(left: &mut MessageSource<'_>, right: &mut MessageSource<'_>) -> Option<bool>
    ensures some { IfSome result
        (λ same. same ≡ true → (message : MessageValue)
        → count_source message left.old + count_source message right.new
        ≡ count_source message right.old + count_source message left.new) }
    ensures none { IfNone result
        ((message : MessageValue)
        → count_source message left.old ≡ count_source message right.old) }
    ensures less { IsSome result
        → size_source left.new + size_source right.new < size_source left.old
        + size_source right.old }
{
    let one = left.take();
    let other = right.take();
    compare(one, other)
}

// Whether two sources give the same messages in the same order; then each has every message as often as the other.
#[inline(always)]
pub(crate) fn same_messages(left: &mut MessageSource<'_>, right: &mut MessageSource<'_>) -> bool
    ensures { result ≡ true → (message : MessageValue)
        → count_source message left.old ≡ count_source message right.old }
{
    while let Some(is_same) = next_pair(left, right) {
        if !is_same {
            return false;
        }
    }
    true
}

// Whether the right source begins with all that the left one gives, in the same order. The right one loses it.
#[inline(always)]
fn begins_with(left: &mut MessageSource<'_>, right: &mut MessageSource<'_>) -> bool
    ensures { result ≡ true → (message : MessageValue)
        → count_source message right.old ≡ count_source message left.old
        + count_source message right.new }
{
    while let Some(message) = left.take() {
        if !is_same_next(Some(message), right.take()) {
            return false;
        }
    }
    true
}

// Whether the third source gives all that the first one gives and then all that the second one does, in the same order.
#[inline(always)]
pub(crate) fn are_joined(
    first: &mut MessageSource<'_>,
    second: &mut MessageSource<'_>,
    whole: &mut MessageSource<'_>,
) -> bool
    ensures { result ≡ true → (message : MessageValue)
        → count_source message whole.old ≡ count_source message first.old
        + count_source message second.old }
{
    begins_with(first, whole) && same_messages(second, whole)
}

// Whether no message has the sign.
#[inline(always)]
pub(crate) fn has_none_with(mut items: Iter<'_, Signed>, sign: Sign) -> bool
    ensures { result ≡ true → (message : MessageValue) → count_as sign message items.entry ≡ 0 }
{
    match next_with(&mut items, sign) {
        None => true,
        Some(_) => false,
    }
}

// What comes from a source, with the next message at hand.
#[derive(Drop)]
struct Peeked<'a> {
    next: Option<&'a Message>,
    rest: MessageSource<'a>,
}

impl<'a> Peeked<'a> {
    fn new(mut rest: MessageSource<'a>) -> Peeked<'a>
        ensures { (message : MessageValue)
            → count_peeked message result ≡ count_source message rest.entry }
    {
        let next = rest.take();
        Peeked { next, rest }
    }

    fn take(&mut self) -> Option<&'a Message>
        ensures count { (message : MessageValue)
            → count_peeked message self.old ≡ count_next message result
            + count_peeked message self.new }
        ensures none { IfNone result
            ((message : MessageValue) → count_peeked message self.new ≡ 0) }
        ensures less { size_next result + size_peeked self.new ≤ size_peeked self.old }
    {
        match self.next {
            Some(message) => {
                self.next = self.rest.take();
                Some(message)
            }
            None => self.rest.take(),
        }
    }

    fn goes_before(&self, other: &Peeked<'_>) -> bool {
        match self.next {
            None => false,
            Some(own) => match other.next {
                None => true,
                Some(others) => own < others,
            },
        }
    }
}

// Which of three sources.
enum Place {
    First,
    Second,
    Third,
}

// Three sources, whose messages are taken in the order of keys where each of them is in order.
#[derive(Drop)]
pub(crate) struct MergedMessages<'a> {
    first: Peeked<'a>,
    second: Peeked<'a>,
    third: Peeked<'a>,
}

impl<'a> MergedMessages<'a> {
    pub(crate) fn new(
        first: MessageSource<'a>,
        second: MessageSource<'a>,
        third: MessageSource<'a>,
    ) -> MergedMessages<'a>
        ensures { (message : MessageValue)
            → count_merged message result ≡ count_source message first.entry
            + count_source message second.entry + count_source message third.entry }
    {
        MergedMessages {
            first: Peeked::new(first),
            second: Peeked::new(second),
            third: Peeked::new(third),
        }
    }

    // The source whose next message is the least.
    fn least(&self) -> Place {
        if self.second.goes_before(&self.first) {
            if self.third.goes_before(&self.second) {
                return Place::Third;
            }
            return Place::Second;
        }
        if self.third.goes_before(&self.first) {
            return Place::Third;
        }
        Place::First
    }

    fn take_least(&mut self) -> Option<&'a Message>
        ensures count { (message : MessageValue)
            → count_merged message self.old ≡ count_next message result
            + count_merged message self.new }
        ensures less { size_next result + size_merged self.new ≤ size_merged self.old }
    {
        match self.least() {
            Place::First => self.first.take(),
            Place::Second => self.second.take(),
            Place::Third => self.third.take(),
        }
    }

    fn take(&mut self) -> Option<&'a Message>
        ensures count { (message : MessageValue)
            → count_merged message self.old ≡ count_next message result
            + count_merged message self.new }
        ensures none { IfNone result
            ((message : MessageValue) → count_merged message self.new ≡ 0) }
        ensures less { size_next result + size_merged self.new ≤ size_merged self.old }
    {
        if let Some(message) = self.take_least() {
            return Some(message);
        }
        if let Some(message) = self.first.take() {
            return Some(message);
        }
        if let Some(message) = self.second.take() {
            return Some(message);
        }
        self.third.take()
    }
}

// Both sides lose their next message; whether that was the same one.
fn next_pair_merged(left: &mut MergedMessages<'_>, right: &mut MergedMessages<'_>) -> Option<bool>
    ensures some { IfSome result
        (λ same. same ≡ true → (message : MessageValue)
        → count_merged message left.old + count_merged message right.new
        ≡ count_merged message right.old + count_merged message left.new) }
    ensures none { IfNone result
        ((message : MessageValue)
        → count_merged message left.old ≡ count_merged message right.old) }
    ensures less { IsSome result
        → size_merged left.new + size_merged right.new < size_merged left.old
        + size_merged right.old }
{
    let one = left.take();
    let other = right.take();
    compare(one, other)
}

// Whether both sides give the same messages in the same order; then each has every message as often as the other.
pub(crate) fn same_messages_merged(
    left: &mut MergedMessages<'_>,
    right: &mut MergedMessages<'_>,
) -> bool
    ensures { result ≡ true → (message : MessageValue)
        → count_merged message left.old ≡ count_merged message right.old }
{
    while let Some(is_same) = next_pair_merged(left, right) {
        if !is_same {
            return false;
        }
    }
    true
}
