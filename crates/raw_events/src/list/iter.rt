//! The items of a list, one after another.
ghost use Rattle.std.specs.Prelude.{◌≡◌, ◌++◌, reverse};
ghost use Rattle.std.specs.Iterator.{YieldsFirstRef, item_count};

use super::EventList;
use crate::line::items::Items;
use std::iter::Iterator;
use std::marker::Model;

/// References to the items of a list, in its order. It is seen as the list of the items that are still to come.
#[derive(Drop)]
pub struct Iter<'a, T> {
    before: Items<'a, T>,
    after: Items<'a, T>,
}

impl<'a, T> Model for Iter<'a, T> {
    ghost use Rattle.std.specs.Prelude.{List, ◌++◌};

    ghost Value = { List T };

    ghost view = { λ i. i.before ++ i.after };
}

impl<T> EventList<T> {
    /// References to the items before the cursor and then to those after it, each in the list's order: the farthest item before the
    /// cursor comes first.
    pub fn iter(&self) -> Iter<'_, T>
        ensures { result ≡ reverse self.now.before ++ self.now.after }
    {
        Iter {
            before: self.before.items(),
            after: self.after.items(),
        }
    }
}

impl<'a, T> Iterator for Iter<'a, T> {
    type Item = &'a T;

    ghost next_gives = { YieldsFirstRef (λ s. s) };

    ghost remaining = { item_count (λ s. s) };

    fn next(&mut self) -> Option<&'a T> {
        match self.before.step() {
            Some(item) => Some(item),
            None => self.after.step(),
        }
    }
}
