//! The rule of the pool, and what each step does to the view of the pass that makes it.
ghost use Rattle.std.specs.Prelude.{ℕ};

use crossbeam_queue::protocol::{Lesson, Outcome, Protocol, Split};
use std::collections::LinkedList;
use std::marker::PhantomData;

/// What has a number and a kind, which never change. Both are of the logic alone: the pool never asks for them.
pub trait Numbered<K> {
    ghost number_of: { Self → ℕ };

    ghost kind_of: { Self → K };
}

/// What a pass knows. No value of it is made.
pub struct Hand<K> {
    /// It is the only pass of its pool.
    pub alone: bool,
    /// The numbers of all items of the pool, wherever they are.
    pub all: LinkedList<u16>,
    /// The numbers of the items that are out with this pass.
    pub held: LinkedList<u16>,
    /// The kind of all items of the pool, if it has any.
    pub kind: Option<K>,
}

/// Each item has one place, and all are of one kind.
pub struct OnePlace<L> {
    of: PhantomData<L>,
}

impl<L: Numbered<K>, K> Protocol<L, Hand<K>> for OnePlace<L> {
    ghost use Rattle.std.specs.Prelude.{true, [], None};
    ghost use Rattle.pools.specs.Places.{hand, Placed};

    ghost holds = { Placed L.number_of L.kind_of };

    ghost first = { hand true [] [] None };
}

/// A further item joins the pool.
pub struct Founds<L> {
    of: PhantomData<L>,
}

impl<L: Numbered<K>, K> Outcome<L, Hand<K>> for Founds<L> {
    ghost use Rattle.std.specs.Prelude.{◌≡◌, ◌∷◌, Some};
    ghost use Rattle.pools.specs.Places.{hand};

    ghost then = { λ v x w. w ≡ hand v.alone (L.number_of x ∷ v.all) v.held (Some (L.kind_of x)) };
}

impl<L: Numbered<K>, K> Lesson<L, Hand<K>> for Founds<L> {
    ghost use Rattle.std.specs.Prelude.{◌≤◌, ◌+◌, length};

    ghost fact = { λ v items. length items + length v.held ≤ length v.all };
}

/// An item goes from the pool to the pass.
pub struct Takes<L> {
    of: PhantomData<L>,
}

impl<L: Numbered<K>, K> Outcome<L, Hand<K>> for Takes<L> {
    ghost use Rattle.std.specs.Prelude.{◌≡◌, ◌∷◌, Some};
    ghost use Rattle.pools.specs.Places.{hand};

    ghost then = { λ v x w. (w ≡ hand v.alone v.all (L.number_of x ∷ v.held) v.kind)
        × (v.kind ≡ Some (L.kind_of x)) };
}

impl<L: Numbered<K>, K> Lesson<L, Hand<K>> for Takes<L> {
    ghost use Rattle.std.specs.Prelude.{◌≡◌, ◌+◌, length, true};

    ghost fact = { λ v items. v.alone ≡ true → length items + length v.held ≡ length v.all };
}

/// An item goes from the pass to the pool.
pub struct Gives<L> {
    of: PhantomData<L>,
}

impl<L: Numbered<K>, K> Outcome<L, Hand<K>> for Gives<L> {
    ghost use Rattle.std.specs.Prelude.{◌≡◌};
    ghost use Rattle.pools.specs.Places.{hand, without};

    ghost then = { λ v x w. w ≡ hand v.alone v.all (without (L.number_of x) v.held) v.kind };
}

impl<L: Numbered<K>, K> Lesson<L, Hand<K>> for Gives<L> {
    ghost use Rattle.std.specs.Prelude.{◌≤◌, ◌+◌, length};

    ghost fact = { λ v items. length items + length v.held ≤ length v.all };
}

/// A pass more, which holds nothing. From then on neither is the only one.
pub struct Newcomer;

impl<K> Split<Hand<K>> for Newcomer {
    ghost use Rattle.std.specs.Prelude.{false, []};
    ghost use Rattle.pools.specs.Places.{hand};

    ghost left = { λ v. hand false v.all v.held v.kind };

    ghost right = { λ v. hand false v.all [] v.kind };
}
