//! Bags of signed messages.
ghost use Rattle.std.specs.Prelude.{◌≡◌, [], filter, not};
ghost use Rattle.std.specs.Cmp.Lexicographic.{pointwise, lists_per, lists_equiv};
ghost use Rattle.event_keys.specs.contracts.message.SignedPartialEq.TheImpl.Laws.{laws-law as signed_laws};
ghost use Rattle.event_keys.specs.contracts.message.SignedEq.TheImpl.Laws.{laws-law as signed_equivalence};
ghost use Rattle.raw_events.specs.Around.{head, tail, is_nonempty, first_where, without_where};
ghost use Rattle.antimessage.specs.Order.{IsInOrder};
ghost use Rattle.antimessage.specs.Meetings.{IsAllMet, IsCancelled, IsPairCount};
ghost use Rattle.antimessage.specs.Bags.{insert, is_to, is_one, remove, has_pair, met, least_of, insert_all, without_below};

use crate::{merge, walks};
use event_keys::{Bound, Message, Sign, Signed};
use raw_events::{EventCell, EventList, Iter};
use std::marker::Model;

/// Signed messages, each as often as it was posted and not taken. It is seen as the sorted list of them, which the two
/// counts of each message determine: how often it is there, and how often its antimessage.
///
/// No call takes memory.
#[derive(Drop)]
pub struct Bag {
    events: EventList<Signed>,
}

impl Model for Bag {
    ghost use Rattle.std.specs.Prelude.{◌≡◌, List, []};
    ghost use Rattle.event_keys.specs.declared.message.Signed.{Signed};
    ghost use Rattle.antimessage.specs.Order.{IsInOrder};

    ghost Value = { List Signed };

    ghost view = { λ b. b.events.after };

    ghost invariant = { λ b. (b.events.before ≡ []) × IsInOrder b.events.after };
}

impl Bag {
    /// An empty bag.
    pub fn new() -> Bag
        ensures { result ≡ [] }
    {
        Bag {
            events: EventList::new(),
        }
    }

    /// One more of a signed message.
    #[tactic(auto, using(crate::proofs::Sorted::order_inserted))]
    pub fn post(&mut self, cell: EventCell<Signed>)
        ensures posted { self.new ≡ insert cell self.old }
        ensures was { IsInOrder self.old }
        ensures is { IsInOrder self.new }
    {
        // They are read so that the proof knows that they fit.
        let key = &cell.value().message.key;
        let (_component, _number, _tick) = (key.component, key.number, key.tick);
        self.events.insert_sorted(cell);
    }

    /// Takes the least that is sent to the component `to` (its number, from 0); `None` only where there is none to it.
    #[tactic(auto, using(crate::proofs::Sorted::order_left))]
    pub fn take(&mut self, to: u16) -> Option<EventCell<Signed>>
        ensures taken { result ≡ first_where (is_to to) self.old }
        ensures rest { self.new ≡ without_where (is_to to) self.old }
    {
        walks::take_to(&mut self.events, to)
    }

    /// Takes the least of all; `None` only where the bag is empty.
    #[tactic(auto, using(crate::proofs::Sorted::order_tail))]
    pub fn take_first(&mut self) -> Option<EventCell<Signed>>
        ensures taken { result ≡ head self.old }
        ensures rest { self.new ≡ tail self.old }
    {
        self.events.take_first()
    }

    /// Takes one that equals `signed`; `None` only where there is none.
    #[tactic(auto, using(crate::proofs::Sorted::order_left))]
    pub fn take_equal(&mut self, signed: &Signed) -> Option<EventCell<Signed>>
        ensures taken { result ≡ first_where (is_one signed.now) self.old }
        ensures rest { self.new ≡ remove signed.now self.old }
    {
        self.events.take_equal(signed)
    }

    /// One message and its antimessage annihilate. The answer is false where they are not both there, and the bag then stays.
    #[tactic(auto, using(crate::proofs::Pairs::met_order))]
    pub fn meet(&mut self, message: &Message) -> bool
        ensures answer { result ≡ has_pair message.now self.old }
        ensures left { self.new ≡ met message.now self.old }
    {
        walks::meet(&mut self.events, message)
    }

    /// All pairs of a message and its antimessage annihilate: of each message the difference is left, on the side that had
    /// more. The answer is the number of the pairs, or the greatest `u64` where there were more.
    pub fn meet_all(&mut self) -> u64
        ensures left { IsAllMet self.old self.new }
        ensures pairs { IsPairCount self.old self.new result }
    {
        walks::meet_all(&mut self.events)
    }

    /// Takes one message out for each antimessage of it in `others`, as far as there are so many. The antimessages of this
    /// bag stay.
    pub fn cancel(&mut self, others: &Bag)
        ensures { IsCancelled others.now self.old self.new }
    {
        walks::cancel(&mut self.events, others.iter());
    }

    /// Takes all that is sent to the component `to` (its number, from 0), each as often as it is there.
    #[tactic(auto, using(crate::proofs::Below::order_filtered))]
    pub fn split_to(&mut self, to: u16) -> Bag
        ensures taken { result ≡ filter (is_to to) self.old }
        ensures rest { self.new ≡ filter (λ s. not (is_to to s)) self.old }
    {
        Bag {
            events: walks::split_to(&mut self.events, to),
        }
    }

    /// Moves all messages of `other` into this bag, each to its place. `other` is left empty.
    #[tactic(auto, using(crate::proofs::Sorted::order_all))]
    pub fn append(&mut self, other: &mut Bag)
        ensures all { self.new ≡ insert_all other.old self.old }
        ensures empty { other.new ≡ [] }
    {
        if other.is_empty() {
            return;
        }
        merge::append(&mut self.events, &mut other.events);
    }

    /// Drops all messages whose keys are below the bound.
    #[tactic(auto, using(crate::proofs::Below::order_from))]
    pub fn drop_below(&mut self, bound: Bound)
        ensures { self.new ≡ without_below bound self.old }
    {
        merge::drop_below(&mut self.events, bound);
    }

    /// The least key of all, or the end where the bag is empty.
    pub fn least(&self) -> Bound
        ensures { result ≡ least_of self.now }
    {
        match self.events.peek_next() {
            None => Bound::End,
            Some(next) => Bound::At(next.message.key),
        }
    }

    /// Whether there is no message.
    pub fn is_empty(&self) -> bool
        ensures { result ≡ not (is_nonempty self.now) }
    {
        self.events.peek_next().is_none()
    }

    /// References to all messages, from the least.
    pub fn iter(&self) -> Iter<'_, Signed>
        ensures items { result ≡ self.now }
        ensures order { IsInOrder self.now }
    {
        self.events.iter()
    }
}

impl PartialEq for Bag {
    ghost eq = { pointwise ⟦<Signed as PartialEq>⟧.eq };

    ghost laws = { lists_per signed_laws };

    fn eq(&self, other: &Bag) -> bool {
        self.events == other.events
    }
}

impl Eq for Bag {
    ghost laws = { lists_equiv signed_equivalence };
}
