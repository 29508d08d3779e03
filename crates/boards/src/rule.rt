//! The rule of the board, and what each step does to the view of the pass that makes it.

use crossbeam_queue::protocol::{Lesson, Outcome, Protocol, Split};
use std::collections::LinkedList;
use std::marker::PhantomData;

/// What has a kind, which never changes, and sections. Both are of the logic alone: the board never asks for them.
pub trait Sectioned<K, P> {
    ghost use Rattle.std.specs.Prelude.{List};

    ghost kind_of: { Self → K };

    ghost sections_of: { Self → List P };
}

/// A section of the item: where it stands among them, and what it has. No value of it is made.
pub struct Section<P> {
    pub number: u16,
    pub content: P,
}

/// What a pass knows. No value of it is made.
pub struct Sight<K, P> {
    /// It is the only pass of its board, and the item hasn't come yet.
    pub is_new: bool,
    /// The kind of the item, once it has come.
    pub kind: Option<K>,
    /// The sections of this pass, as it left them.
    pub own: LinkedList<Section<P>>,
    /// What the sections of the item were when this pass took it, while it is out with this pass.
    pub taken: Option<LinkedList<P>>,
}

/// There is one item, in one place, and each section of it belongs to one pass at most.
pub struct OneOwner<L> {
    of: PhantomData<L>,
}

impl<L: Sectioned<K, P>, K, P> Protocol<L, Sight<K, P>> for OneOwner<L> {
    ghost use Rattle.std.specs.Prelude.{true, [], None};
    ghost use Rattle.boards.specs.Sections.{seeing, Kept};

    ghost holds = { Kept L.kind_of L.sections_of };

    ghost first = { seeing true None [] None };
}

/// The item joins the board. All its sections are this pass's.
pub struct Founds<L> {
    of: PhantomData<L>,
}

impl<L: Sectioned<K, P>, K, P> Outcome<L, Sight<K, P>> for Founds<L> {
    ghost use Rattle.std.specs.Prelude.{◌≡◌, false, Some, None};
    ghost use Rattle.boards.specs.Sections.{numbered, seeing};

    ghost then = { λ _ x w.
        w ≡ seeing false (Some (L.kind_of x)) (numbered 0 (L.sections_of x)) None };
}

impl<L: Sectioned<K, P>, K, P> Lesson<L, Sight<K, P>> for Founds<L> {
    ghost use Rattle.std.specs.Prelude.{◌≡◌, length, true};

    ghost fact = { λ v items. v.is_new ≡ true → length items ≡ 0 };
}

/// The item goes from the board to the pass.
pub struct Takes<L> {
    of: PhantomData<L>,
}

impl<L: Sectioned<K, P>, K, P> Outcome<L, Sight<K, P>> for Takes<L> {
    ghost use Rattle.std.specs.Prelude.{◌≡◌, All, Some};
    ghost use Rattle.boards.specs.Sections.{seeing, Stands};

    ghost then = { λ v x w. (w ≡ seeing v.is_new v.kind v.own (Some (L.sections_of x)))
        × (v.kind ≡ Some (L.kind_of x)) × All (Stands (L.sections_of x)) v.own };
}

impl<L: Sectioned<K, P>, K, P> Lesson<L, Sight<K, P>> for Takes<L> {
    ghost use Rattle.std.specs.Prelude.{⊤};

    ghost fact = { λ v items. ⊤ };
}

/// The item goes from the pass to the board.
pub struct Gives<L> {
    of: PhantomData<L>,
}

impl<L: Sectioned<K, P>, K, P> Outcome<L, Sight<K, P>> for Gives<L> {
    ghost use Rattle.std.specs.Prelude.{◌≡◌, All, None};
    ghost use Rattle.boards.specs.Sections.{refreshed, seeing, Stands};

    ghost then = { λ v x w. (w ≡ seeing v.is_new v.kind (refreshed (L.sections_of x) v.own) None)
        × All (Stands (L.sections_of x)) w.own };
}

impl<L: Sectioned<K, P>, K, P> Lesson<L, Sight<K, P>> for Gives<L> {
    ghost use Rattle.std.specs.Prelude.{◌≤◌, ◌+◌, length};
    ghost use Rattle.boards.specs.Sections.{away};

    ghost fact = { λ v items. length items + away v ≤ 1 };
}

/// A pass more, which gets the first of this pass's sections.
pub struct NextOwner;

impl<K, P> Split<Sight<K, P>> for NextOwner {
    ghost use Rattle.std.specs.Prelude.{false, drop, take, None};
    ghost use Rattle.boards.specs.Sections.{seeing};

    ghost left = { λ v. seeing false v.kind (drop 1 v.own) v.taken };

    ghost right = { λ v. seeing false v.kind (take 1 v.own) None };
}
