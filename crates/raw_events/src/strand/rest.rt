//! The nodes of a strand from one on, as a `&` sees them.
ghost use Rattle.std.specs.Prelude.{◌≡◌, ◌<◌, ◌∷◌, List, length};
ghost use Rattle.std_collections.specs.LinkedList.Links.{Link, LeadsForward};
ghost use Rattle.std_collections.specs.LinkedList.Ownership.{chain_lent};

use super::Strand;
use std::alloc::Allocator;
use std::marker::{Model, PhantomData};

// What a `Node` begins with. Fields lie in order.
pub struct Front<T> {
    next: *const Front<T>,
    prev: *const Front<T>,
    elem: T,
}

// `at` leads to the first of the nodes, and means nothing where there is none.
pub struct Rest<'a, T> {
    at: *const Front<T>,
    marker: PhantomData<&'a T>,
    pub(crate) ghost items: { List T },
    ghost links: { List Link },
    ghost ok: { length items ≡ length links },
    ghost leads: { ∥ LeadsForward at links ∥₁ },
}

impl<'a, T> Model for Rest<'a, T> {
    ghost also_owns = { λ r. chain_lent T.row r.links r.items 'a };
}

impl<T> Drop for Rest<'_, T> {
    fn drop(self) {
        let Self { at: _, marker: _ } = self;
    }
}

impl<T, A: Allocator> Strand<T, A> {
    pub(crate) fn rest(&self) -> Rest<'_, T>
        ensures { result.items ≡ self.now.items }
    {
        Rest {
            at: self.head as *const Front<T>,
            marker: PhantomData,
        }
    }
}

impl<'a, T> Rest<'a, T> {
    // The first element, which is then passed.
    pub(crate) fn step(&mut self) -> &'a T
        requires { 0 < length self.old.items }
        ensures { self.old.items ≡ result.now ∷ self.new.items }
    {
        let at = self.at;
        unsafe {
            self.at = (*at).next;
            &(*at).elem
        }
    }
}
