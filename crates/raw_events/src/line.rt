//! A list of nodes that knows where it ends.
ghost use Rattle.std.specs.Prelude.{◌≡◌, ◌-◌, ◌<◌, ◌==◌, [], ◌∷◌, ◌++◌, length, slice_index_or, slice_set};
ghost use Rattle.std.specs.Borrow.{Lends, sem};
ghost use Rattle.raw_events.specs.contracts.line.Line.{the_row};

use crate::slot::Slot;
use crate::strand::{Node, Strand};
use std::alloc::Global;
use std::marker::Model;
use std::mem::swap;
use std_alloc::room::Vacant;

pub(crate) mod items;

// A strand and whether it has a node, seen as the list of its items.
pub struct Line<T> {
    some: bool,
    strand: Strand<Slot<T>, Global>,
}

impl<T> Model for Line<T> {
    ghost use Rattle.std.specs.Prelude.{◌≡◌, List};
    ghost use Rattle.raw_events.specs.Around.{is_nonempty};
    ghost use Rattle.raw_events.specs.Marks.{IsMarked, items_of};

    ghost Value = { List T };

    ghost view = { λ a. items_of a.strand.items };

    ghost invariant = { λ a. (a.some ≡ is_nonempty a.strand.items) × IsMarked a.strand.items };
}

// One item after another, so that the depth of calls stays the same however long the list is.
impl<T: Drop> Drop for Line<T> {
    fn drop(mut self) {
        while !self.is_empty() {
            let (item, room) = self.take_first().take_apart();
            drop(room.free());
            drop(item);
        }
        let Line { some: _, strand } = self;
        strand.end();
    }
}

impl<T> Line<T> {
    pub(crate) fn new() -> Line<T>
        ensures { result ≡ [] }
    {
        Line {
            some: false,
            strand: Strand::new(),
        }
    }

    // A line of one node, in that block.
    pub(crate) fn one(room: Vacant<Node<Slot<T>, Global>, Global>, item: T) -> Line<T>
        ensures { result ≡ item ∷ [] }
    {
        Line {
            some: true,
            strand: Strand::one(room, Slot { item, more: false }),
        }
    }

    pub(crate) fn is_empty(&self) -> bool
        ensures { result ≡ (length self.now == 0) }
    {
        !self.some
    }

    pub(crate) fn first(&self) -> &T
        requires { 0 < length self.now }
        ensures { result.now ≡ slice_index_or self.now 0 result.now }
    {
        &self.strand.front().item
    }

    pub(crate) fn last(&self) -> &T
        requires { 0 < length self.now }
        ensures { result.now ≡ slice_index_or self.now (length self.now - 1) result.now }
    {
        &self.strand.back().item
    }

    pub(crate) fn last_mut(&mut self) -> &mut T
        requires { 0 < length self.old }
        ensures* writes_back { sem 𝓛 (Lends (the_row T.row) T.row self.entry result
            (slice_set self.old (length self.old - 1))) }
        ensures value { result.now ≡ slice_index_or self.old (length self.old - 1) result.now }
    {
        let slot = self.strand.back_mut();
        &mut slot.item
    }

    // The only node's item, and its block.
    pub(crate) fn take_apart(self) -> (T, Vacant<Node<Slot<T>, Global>, Global>)
        requires { length self ≡ 1 }
        ensures { self ≡ result.0 ∷ [] }
    {
        let Line { some: _, strand } = self;
        let (slot, room) = strand.take_apart();
        let Slot { item, more: _ } = slot;
        (item, room)
    }

    pub(crate) fn take_first(&mut self) -> Line<T>
        requires { 0 < length self.old }
        ensures { (self.old ≡ result ++ self.new) × (length result ≡ 1) }
    {
        let more = self.strand.front().more;
        let mut strand = self.strand.split_first();
        strand.back_mut().more = false;
        self.some = more;
        Line { some: true, strand }
    }

    pub(crate) fn take_last(&mut self) -> Line<T>
        requires { 0 < length self.old }
        ensures { (self.old ≡ self.new ++ result) × (length result ≡ 1) }
    {
        let more = self.strand.front().more;
        let strand = self.strand.split_last();
        self.some = more;
        if more {
            self.strand.back_mut().more = false;
        }
        Line { some: true, strand }
    }

    // Links the nodes of `other` in after the last.
    pub(crate) fn append(&mut self, mut other: Line<T>)
        ensures { self.new ≡ self.old ++ other }
    {
        if !self.some {
            swap(self, &mut other);
        } else if other.some {
            self.strand.back_mut().more = true;
            let Line { some: _, strand } = other;
            self.strand.join(strand);
            return;
        }
        let Line { some: _, strand } = other;
        strand.end();
    }

    // Links the nodes of `other` in before the first.
    pub(crate) fn prepend(&mut self, mut other: Line<T>)
        ensures { self.new ≡ other ++ self.old }
    {
        swap(self, &mut other);
        self.append(other);
    }
}
