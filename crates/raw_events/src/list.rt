//! A list with a cursor.
ghost use Rattle.std.specs.Prelude.{◌≡◌, Bool, [], ◌∷◌, ◌++◌, reverse, IfNone};
ghost use Rattle.std.specs.Fn.{FnReturnsAt};
ghost use Rattle.std.specs.Option.{option_copied};
ghost use Rattle.raw_events.specs.Around.{head, tail, is_nonempty, pass_next, pass_back, first_of, without_first_of, insert_sorted, Tells, first_where, without_where, first_equal, without_first};

use crate::cell::EventCell;
use crate::line::Line;
use std::marker::Model;
use std::mem::swap;

pub(crate) mod iter;

/// A list of nodes with a cursor, seen as two lists: the items before the cursor and the items after it, each from the nearest to
/// the farthest.
///
/// No call takes memory, and none copies or moves an item.
#[derive(Drop)]
pub struct EventList<T> {
    pub(crate) before: Line<T>,
    pub(crate) after: Line<T>,
}

impl<T> Model for EventList<T> {
    ghost use Rattle.std.specs.Prelude.{reverse};
    ghost use Rattle.raw_events.specs.Around.{Around};

    ghost Value = { Around T };

    ghost view = { λ l. record { before = reverse l.before; after = l.after } };
}

impl<T> EventList<T> {
    /// A list with no item.
    pub fn new() -> EventList<T>
        ensures { result ≡ record { before = []; after = [] } }
    {
        EventList {
            before: Line::new(),
            after: Line::new(),
        }
    }

    /// Moves the cursor over the next item. The answer is false where there is none after it, and the list then stays.
    pub fn pass_next(&mut self) -> bool
        ensures passed { self.new ≡ pass_next self.old.before self.old.after }
        ensures answer { result ≡ is_nonempty self.old.after }
    {
        if self.after.is_empty() {
            return false;
        }
        let one = self.after.take_first();
        self.before.append(one);
        true
    }

    /// Moves the cursor back over the last item before it. The answer is false where there is none, and the list then stays.
    pub fn pass_back(&mut self) -> bool
        ensures passed { self.new ≡ pass_back self.old.before self.old.after }
        ensures answer { result ≡ is_nonempty self.old.before }
    {
        if self.before.is_empty() {
            return false;
        }
        let one = self.before.take_last();
        self.after.prepend(one);
        true
    }

    /// The item directly after the cursor; `None` where there is none.
    pub fn peek_next(&self) -> Option<&T>
        ensures { option_copied result ≡ head self.now.after }
    {
        if self.after.is_empty() {
            return None;
        }
        Some(self.after.first())
    }

    /// The item directly before the cursor; `None` where there is none.
    pub fn peek_last(&self) -> Option<&T>
        ensures { option_copied result ≡ head self.now.before }
    {
        if self.before.is_empty() {
            return None;
        }
        Some(self.before.last())
    }

    /// The first item of all: the farthest before the cursor, or the next where there is none before it. `None` where the list has no
    /// item.
    pub fn peek_first(&self) -> Option<&T>
        ensures { option_copied result ≡ first_of self.now.before self.now.after }
    {
        if self.before.is_empty() {
            return self.peek_next();
        }
        Some(self.before.first())
    }

    /// Takes the item directly before the cursor; `None` where there is none.
    pub fn take_last(&mut self) -> Option<EventCell<T>>
        ensures taken { result ≡ head self.old.before }
        ensures rest { self.new ≡ record self.old { before = tail self.old.before } }
    {
        if self.before.is_empty() {
            return None;
        }
        Some(EventCell::of_line(self.before.take_last()))
    }

    /// Takes the first item of all: the farthest before the cursor, or the next where there is none before it. `None` where the list
    /// has no item.
    pub fn take_first(&mut self) -> Option<EventCell<T>>
        ensures taken { result ≡ first_of self.old.before self.old.after }
        ensures rest { self.new ≡ without_first_of self.old.before self.old.after }
    {
        if !self.before.is_empty() {
            let one = self.before.take_first();
            return Some(EventCell::of_line(one));
        }
        if self.after.is_empty() {
            return None;
        }
        let one = self.after.take_first();
        Some(EventCell::of_line(one))
    }

    /// Puts a cell at the end of the items before the cursor, directly before it.
    pub fn push_last(&mut self, cell: EventCell<T>)
        ensures { self.new ≡ record self.old { before = cell ∷ self.old.before } }
    {
        self.before.append(cell.into_line());
    }

    /// Moves all items of `other`, those before its cursor and then those after it, to the end of the items after the cursor.
    pub fn append_all(&mut self, other: &mut EventList<T>)
        ensures rest { self.new ≡ record self.old {
          after = self.old.after
              ++ reverse other.old.before ++ other.old.after;
        } }
        ensures empty { other.new ≡ record { before = []; after = [] } }
    {
        let mut first = Line::new();
        swap(&mut first, &mut other.before);
        let mut second = Line::new();
        swap(&mut second, &mut other.after);
        self.after.append(first);
        self.after.append(second);
    }

    /// Moves the cursor behind all items, in one joining.
    pub fn pass_all(&mut self)
        ensures { self.new ≡ record {
          before = reverse self.old.after
              ++ self.old.before;
          after = [];
        } }
    {
        let mut rest = Line::new();
        swap(&mut rest, &mut self.after);
        self.before.append(rest);
    }

    /// Puts a cell among the items after the cursor, directly before the first greater one, or at the end where none is greater.
    pub fn insert_sorted(&mut self, cell: EventCell<T>)
    where
        T: Ord,
        ensures { self.new ≡ record self.old { after = insert_sorted T.cmp cell self.old.after } }
    {
        self.after.insert_sorted(cell);
    }

    /// Takes the first item after the cursor that passes the test. `None` where none does, and the list then stays.
    pub fn take_where<F: Fn(&T) -> bool>(&mut self, test: F) -> Option<EventCell<T>>
        requires { F.IsAlwaysCallable test }
        ensures taken { (p : T → Bool) → Tells (FnReturnsAt F.Fn test) p
            → result ≡ first_where p self.old.after }
        ensures rest { (p : T → Bool) → Tells (FnReturnsAt F.Fn test) p
            → self.new ≡ record self.old { after = without_where p self.old.after } }
        ensures kept { IfNone result (self.new ≡ self.old) }
    {
        self.after.take_where(test)
    }

    /// Takes the first item after the cursor that equals `value`. `None` where none does, and the list then stays.
    pub fn take_equal(&mut self, value: &T) -> Option<EventCell<T>>
    where
        T: PartialEq,
        ensures taken { result ≡ first_equal T.eq value.now self.old.after }
        ensures rest { self.new
            ≡ record self.old { after = without_first T.eq value.now self.old.after } }
        ensures kept { IfNone result (self.new ≡ self.old) }
    {
        self.take_where(|item| item.eq(value))
    }
}
