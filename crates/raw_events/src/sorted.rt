//! The calls on a line that look for a place or for an item.
ghost use Rattle.std.specs.Prelude.{◌≡◌, ◌<◌, Bool, IsTrue, IfNone, length};
ghost use Rattle.std.specs.Fn.{FnReturnsAt};
ghost use Rattle.raw_events.specs.Around.{first_is_at_most, insert_sorted, Tells, first_where, without_where, first_fails};

use crate::cell::EventCell;
use crate::line::Line;

impl<T> Line<T> {
    fn first_is_at_most(&self, value: &T) -> bool
    where
        T: Ord,
        ensures { result ≡ first_is_at_most T.cmp value.now self.now }
    {
        !self.is_empty() && !self.first().cmp(value).is_gt()
    }

    fn first_fails<F: Fn(&T) -> bool>(&self, test: &F) -> bool
        requires { F.IsAlwaysCallable test.now }
        ensures some { IsTrue result → 0 < length self.now }
        ensures told { (p : T → Bool) → Tells (FnReturnsAt F.Fn test.now) p
            → result ≡ first_fails p self.now }
    {
        !self.is_empty() && !test(self.first())
    }

    pub(crate) fn insert_sorted(&mut self, cell: EventCell<T>)
    where
        T: Ord,
        ensures { self.new ≡ insert_sorted T.cmp cell self.old }
    {
        let mut passed = Line::new();
        while self.first_is_at_most(cell.value()) {
            let one = self.take_first();
            passed.append(one);
        }
        self.prepend(cell.into_line());
        self.prepend(passed);
    }

    pub(crate) fn take_where<F: Fn(&T) -> bool>(&mut self, test: F) -> Option<EventCell<T>>
        requires { F.IsAlwaysCallable test }
        ensures taken { (p : T → Bool) → Tells (FnReturnsAt F.Fn test) p
            → result ≡ first_where p self.old }
        ensures rest { (p : T → Bool) → Tells (FnReturnsAt F.Fn test) p
            → self.new ≡ without_where p self.old }
        ensures kept { IfNone result (self.new ≡ self.old) }
    {
        let mut passed = Line::new();
        while self.first_fails(&test) {
            let one = self.take_first();
            passed.append(one);
        }
        if self.is_empty() {
            self.prepend(passed);
            return None;
        }
        let one = self.take_first();
        self.prepend(passed);
        Some(EventCell::of_line(one))
    }
}
