//! What is done with a board.
ghost use Rattle.std.specs.Prelude.{◌≡◌, ℕ, length, slice_get, All, IfOk, IfNone, IfSome, Some, None};
ghost use Rattle.boards.specs.Sections.{refreshed, seeing, KeepsOthers, Stands};
ghost use Rattle.boards.specs.Passes.{sight, AreOwners, IsOf, IsReader, Owns};

use crate::parts::{Board, Made, Pass};
use crate::rule::{Founds, Gives, NextOwner, Sectioned, Takes};
use crossbeam_queue::RuledArrayQueue;
use std::alloc::Global;
use std::sync::Wait;
use terms::NoMemory;

impl<L: Sectioned<K, P> + Drop, K, P> Board<L, K, P> {
    /// Makes the board of an item, a pass for each of its sections, in their order, and one that has no section.
    ///
    /// It takes `Wait` because it puts the item there as `give_back` does, but no other thread has the board yet.
    ///
    /// # Errors
    ///
    /// `NoMemory` where there is no memory for the queue or for the list of passes.
    pub fn new<R: Wait>(
        rt: &R,
        alloc: Global,
        item: L,
        sections: u16,
    ) -> Result<Made<L, K, P>, NoMemory>
        requires { length (L.sections_of item) ≡ sections }
        ensures count { IfOk result (λ made. length made.passes.items ≡ sections) }
        ensures owners { IfOk result (λ made. AreOwners made.board (L.kind_of item)
            (L.sections_of item) made.passes.items) }
        ensures reader { IfOk result
            (λ made. IsReader made.board (L.kind_of item) made.reader) }
    {
        let mut passes = Vec::with_capacity(alloc, usize::from(sections))?;
        let (queue, mut founder) = RuledArrayQueue::ruled(alloc, 1)?;
        let Ok(()) = queue.push_as::<Founds<L>, R>(rt, &mut founder, item) else {
            unreachable!()
        };
        for _ in 0..sections {
            let pass = queue.another::<NextOwner>(&mut founder);
            passes.push_reserved(Pass { pass });
        }
        Ok(Made {
            board: Board { queue },
            passes,
            reader: Pass { pass: founder },
        })
    }

    /// Takes the item, which is then out with the pass. The pass finds its own sections as it left them.
    ///
    /// It may wait for another thread that is inside a call. At `None` the board was empty at one moment of the call. This rests on the contract of the queue.
    pub fn take<R: Wait>(&self, rt: &R, pass: &mut Pass<L, K, P>) -> Option<L>
        requires { IsOf self.now pass.old }
        ensures pass { IsOf self.now pass.new }
        ensures some { IfSome result
            (λ item. sight pass.new
            ≡ seeing (sight pass.old).is_new (sight pass.old).kind (sight pass.old).own
            (Some (L.sections_of item))) }
        ensures kind { IfSome result (λ item. (sight pass.old).kind ≡ Some (L.kind_of item)) }
        ensures own { IfSome result
            (λ item. All (Stands (L.sections_of item)) (sight pass.old).own) }
        ensures section { IfSome result
            (λ item. (n : ℕ) (c : P) → Owns pass.old n c
            → slice_get (L.sections_of item) n ≡ Some c) }
        ensures none { IfNone result (sight pass.new ≡ sight pass.old) }
    {
        self.queue.pop_as::<Takes<L>, R>(rt, &mut pass.pass)
    }

    /// Gives back the item that is out with the pass. It cannot fail, since the board has room for its item.
    ///
    /// It may wait for another thread that is inside a call.
    pub fn give_back<R: Wait>(&self, rt: &R, pass: &mut Pass<L, K, P>, item: L)
        requires pass { IsOf self.now pass.old }
        requires kind { (sight pass.old).kind ≡ Some (L.kind_of item) }
        requires others { KeepsOthers (sight pass.old) (L.sections_of item) }
        ensures pass { IsOf self.now pass.new }
        ensures given { sight pass.new
            ≡ seeing (sight pass.old).is_new (sight pass.old).kind
            (refreshed (L.sections_of item) (sight pass.old).own) None }
        ensures own { All (Stands (L.sections_of item)) (sight pass.new).own }
        ensures section { (n : ℕ) (old c : P) → Owns pass.old n old
            → slice_get (L.sections_of item) n ≡ Some c → Owns pass.new n c }
    {
        let Ok(()) = self.queue.push_as::<Gives<L>, R>(rt, &mut pass.pass, item) else {
            unreachable!()
        };
    }
}
