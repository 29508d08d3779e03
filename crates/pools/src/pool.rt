//! What is done with a pool.
ghost use Rattle.std.specs.Prelude.{◌≡◌, ℕ, ◌<◌, ◌≤◌, true, ◌∷◌, length, map, All, IfOk, IfNone, IfSome, Some};
ghost use Rattle.pools.specs.Places.{AreAlike, AreOnce, common, hand, times, without};
ghost use Rattle.pools.specs.Passes.{holding, IsOf, IsEmptyOf};

use crate::places::{Pass, Pool};
use crate::rule::{Founds, Gives, Newcomer, Numbered, Takes};
use crossbeam_queue::RuledArrayQueue;
use std::alloc::Global;
use std::sync::Wait;
use terms::NoMemory;

impl<L: Numbered<K> + Drop, K> Pool<L, K> {
    /// Makes a pool of these items, of one kind, and its passes, which hold nothing. There may be no item at all.
    ///
    /// It takes `Wait` because it fills the pool as `give_back` does, but no other thread has the pool yet.
    ///
    /// # Errors
    ///
    /// `NoMemory` where there is no memory for the queue or for the list of passes.
    pub fn new<R: Wait>(
        rt: &R,
        alloc: Global,
        items: Vec<L>,
        passes: u16,
    ) -> Result<(Pool<L, K>, Vec<Pass<L, K>>), NoMemory>
        requires some { 0 < passes }
        requires once { AreOnce (map L.number_of items.items) }
        requires alike { AreAlike L.kind_of items.items }
        ensures count { IfOk result (λ both. length both.1.items ≡ passes) }
        ensures passes { IfOk result (λ both. All
            (IsEmptyOf both.0 (map L.number_of items.items)) both.1.items) }
        ensures kind { IfOk result (λ both. All
            (λ pass. (holding pass).kind ≡ common L.kind_of items.items) both.1.items) }
        ensures alone { IfOk result (λ both. passes ≡ 1
            → All (λ pass. (holding pass).alone ≡ true) both.1.items) }
    {
        let capacity = items.len().max(1);
        let mut places = Vec::with_capacity(alloc, usize::from(passes))?;
        let (queue, mut founder) = RuledArrayQueue::ruled(alloc, capacity)?;
        for item in items {
            let Ok(()) = queue.push_as::<Founds<L>, R>(rt, &mut founder, item) else {
                unreachable!()
            };
        }
        for _ in 1..passes {
            let pass = queue.another::<Newcomer>(&mut founder);
            places.push_reserved(Pass { pass });
        }
        places.push_reserved(Pass { pass: founder });
        Ok((Pool { queue }, places))
    }

    /// Takes an item, which is then out with the pass.
    ///
    /// It may wait for another thread that is inside a call. No order is promised: any item in the pool may come.
    /// At `None` the pool was empty at one moment of the call. The clause `empty` says so for the only pass of a pool; with several passes it rests on the contract of the queue.
    pub fn take<R: Wait>(&self, rt: &R, pass: &mut Pass<L, K>) -> Option<L>
        requires { IsOf self.now pass.old }
        ensures pass { IsOf self.now pass.new }
        ensures some { IfSome result
            (λ item. holding pass.new
            ≡ hand (holding pass.old).alone (holding pass.old).all
            (L.number_of item ∷ (holding pass.old).held) (holding pass.old).kind) }
        ensures kind { IfSome result (λ item. (holding pass.old).kind ≡ Some (L.kind_of item)) }
        ensures none { IfNone result (holding pass.new ≡ holding pass.old) }
        ensures empty { IfNone result
            ((holding pass.old).alone ≡ true
            → length (holding pass.old).held ≡ length (holding pass.old).all) }
    {
        self.queue.pop_as::<Takes<L>, R>(rt, &mut pass.pass)
    }

    /// Gives back an item that is out with the pass. It cannot fail, since the pool has room for all items.
    ///
    /// It may wait for another thread that is inside a call. No order is promised: the item may be taken again before or after the others.
    pub fn give_back<R: Wait>(&self, rt: &R, pass: &mut Pass<L, K>, item: L)
        requires pass { IsOf self.now pass.old }
        requires held { 0 < times (L.number_of item) (holding pass.old).held }
        requires kind { (holding pass.old).kind ≡ Some (L.kind_of item) }
        ensures pass { IsOf self.now pass.new }
        ensures given { holding pass.new
            ≡ hand (holding pass.old).alone (holding pass.old).all
            (without (L.number_of item) (holding pass.old).held) (holding pass.old).kind }
    {
        let Ok(()) = self.queue.push_as::<Gives<L>, R>(rt, &mut pass.pass, item) else {
            unreachable!()
        };
    }
}
