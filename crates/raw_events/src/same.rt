//! Equality of lists.
ghost use Rattle.std.specs.Prelude.{◌≡◌};
ghost use Rattle.std.specs.Cmp.Lexicographic.{pointwise};
ghost use Rattle.raw_events.specs.Same.{same_items, same_items_per, same_items_equiv};

use crate::line::items::Items;
use crate::list::EventList;

fn same<T: PartialEq>(mut left: Items<'_, T>, mut right: Items<'_, T>) -> bool
    ensures { result ≡ pointwise T.eq left.entry right.entry }
{
    while let Some(item) = left.step() {
        let Some(other) = right.step() else {
            return false;
        };
        if !item.eq(other) {
            return false;
        }
    }
    right.step().is_none()
}

/// Two lists are equal where they have equal items before the cursor, and equal items after it.
impl<T: PartialEq> PartialEq for EventList<T> {
    ghost eq = { same_items T.eq };

    ghost laws = { same_items_per T.laws };

    fn eq(&self, other: &EventList<T>) -> bool {
        same(self.before.items(), other.before.items())
            && same(self.after.items(), other.after.items())
    }
}

impl<T: Eq> Eq for EventList<T> {
    ghost laws = { same_items_equiv T.Eq.laws };
}
