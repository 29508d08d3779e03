//! The items of a line, one after another.
ghost use Rattle.std.specs.Prelude.{◌≡◌};
ghost use Rattle.std.specs.Option.{option_copied};
ghost use Rattle.raw_events.specs.Around.{head, tail};

use super::Line;
use crate::slot::Slot;
use crate::strand::rest::Rest;
use std::marker::Model;

// The nodes that are left and whether there is one, seen as the list of their items.
#[derive(Drop)]
pub struct Items<'a, T> {
    some: bool,
    rest: Rest<'a, Slot<T>>,
}

impl<'a, T> Model for Items<'a, T> {
    ghost use Rattle.std.specs.Prelude.{◌≡◌, List};
    ghost use Rattle.raw_events.specs.Around.{is_nonempty};
    ghost use Rattle.raw_events.specs.Marks.{IsMarked, items_of};

    ghost Value = { List T };

    ghost view = { λ a. items_of a.rest.items };

    ghost invariant = { λ a. (a.some ≡ is_nonempty a.rest.items) × IsMarked a.rest.items };
}

impl<T> Line<T> {
    pub(crate) fn items(&self) -> Items<'_, T>
        ensures { result ≡ self.now }
    {
        Items {
            some: self.some,
            rest: self.strand.rest(),
        }
    }
}

impl<'a, T> Items<'a, T> {
    pub(crate) fn step(&mut self) -> Option<&'a T>
        ensures first { option_copied result ≡ head self.old }
        ensures rest { self.new ≡ tail self.old }
    {
        if !self.some {
            return None;
        }
        let slot = self.rest.step();
        self.some = slot.more;
        Some(&slot.item)
    }
}
