//! What the threads of a lone group hand each other.
ghost use Rattle.std.specs.Prelude.{◌≡◌, [], ◌∷◌, ◌++◌, IfNone, IfOk, IfSome, OnErr, OnOk, length, option_to_list};
ghost use Rattle.std.specs.Arc.{arc_value};
ghost use Rattle.task_seed.specs.Setups.{system};
ghost use Rattle.lone_group.specs.Drawn.{IsDrawn};
ghost use Rattle.lone_group.specs.Lone.{IsBatch, IsHanded};

use crate::batch::{Batch, Slot};
use crate::drawn::Drawn;
use crate::lone::LoneGroup;
use reference::Due;
use std::alloc::Global;
use std::collections::VecDeque;
use std::marker::Model;
use std::sync::Arc;
use task_seed::{Setup, Turns};
use terms::NoMemory;

/// Turns that were drawn, and batches of those that were taken, each in the order in which they came; and lists of either, whose memory serves again.
#[derive(Drop)]
pub struct Handover<T: Turns> {
    setup: Arc<Setup<T>>,
    drawn: VecDeque<Drawn>,
    batches: VecDeque<Batch>,
    dues: Vec<Vec<Due>>,
    slots: Vec<Vec<Slot>>,
}

impl<T: Turns> Model for Handover<T> {
    ghost use Rattle.std.specs.Prelude.{All, [], ◌≡◌};
    ghost use Rattle.std.specs.Arc.{arc_value};
    ghost use Rattle.std.specs.Coded.{codes};
    ghost use Rattle.plans.specs.KnownLaws.{are_known_prop};
    ghost use Rattle.terms.specs.Datum.{datum_code};
    ghost use Rattle.terms.specs.contracts.scalar.Shape as shape;
    ghost use Rattle.terms.specs.contracts.term.Term as term;
    ghost use Rattle.terms.specs.contracts.effect.Effect as effect;
    ghost use Rattle.task_seed.specs.declared.setup.Setup.{Setup};
    ghost use Rattle.task_seed.specs.Setups.{system};
    ghost use Rattle.lone_group.specs.Drawn.{IsDrawn};
    ghost use Rattle.lone_group.specs.Lone.{Between, IsBatch};

    ghost Value = { Between (Setup T) };

    ghost coded = { Prim.hlevel (
      codes,
      are_known_prop,
      shape.the_row.coded,
      term.the_row.coded,
      effect.the_row.coded,
      datum_code,
    ) };

    ghost view = { λ h. record {
      setup = arc_value h.setup;
      drawn = h.drawn.items;
      batches = h.batches.items;
    } };

    ghost invariant = { λ h. All (IsDrawn (system T.turn_of (arc_value h.setup))) h.drawn.items
        × All (IsBatch (system T.turn_of (arc_value h.setup))) h.batches.items
        × All (λ due. due.items ≡ []) h.dues.items };
}

impl<T: Turns> Handover<T> {
    /// Nothing waits.
    pub fn new(alloc: Global, setup: Arc<Setup<T>>) -> Handover<T>
        ensures { result ≡ record { setup = arc_value setup; drawn = []; batches = [] } }
    {
        Handover {
            setup,
            drawn: VecDeque::new(alloc),
            batches: VecDeque::new(alloc),
            dues: Vec::new(alloc),
            slots: Vec::new(alloc),
        }
    }

    /// How many lists of drawn turns wait.
    pub fn drawn(&self) -> usize
        ensures { result ≡ length self.now.drawn }
    {
        self.drawn.len()
    }

    /// How many batches wait.
    pub fn batches(&self) -> usize
        ensures { result ≡ length self.now.batches }
    {
        self.batches.len()
    }

    /// Turns were drawn, which wait now behind those that wait. The answer is an empty list for those that are drawn next.
    ///
    /// # Errors
    ///
    /// `NoMemory`; then they don't wait, and are lost.
    pub fn put_drawn(&mut self, alloc: Global, drawn: Drawn) -> Result<Vec<Due>, NoMemory>
        requires drawn { IsDrawn (system T.turn_of self.old.setup) drawn }
        ensures ok { OnOk result
            (self.new ≡ record self.old { drawn = self.old.drawn ++ drawn ∷ [] }) }
        ensures empty { IfOk result (λ due. due.items ≡ []) }
        ensures err { OnErr result (self.new ≡ self.old) }
    {
        self.drawn.reserve(1)?;
        self.drawn.push_back_reserved(drawn);
        match self.dues.pop() {
            Some(due) => Ok(due),
            None => Ok(Vec::new(alloc)),
        }
    }

    /// The turns that were drawn first of those that wait, if any do. They don't wait any more.
    pub fn take_drawn(&mut self) -> Option<Drawn>
        ensures drawn { IfSome result (IsDrawn (system T.turn_of self.old.setup)) }
        ensures first { self.old.drawn ≡ option_to_list result ++ self.new.drawn }
        ensures none { IfNone result (self.old.drawn ≡ []) }
        ensures rest { self.new ≡ record self.old { drawn = self.new.drawn } }
    {
        self.drawn.pop_front()
    }

    /// The list of turns that were taken, whose memory serves again.
    pub fn give_due(&mut self, due: Vec<Due>)
        requires empty { due.items ≡ [] }
        ensures { self.new ≡ self.old }
    {
        // Where there is no memory to keep it, it goes.
        drop(self.dues.push(due));
    }

    /// The group hands over its turns: a batch of them waits behind those that wait.
    ///
    /// # Errors
    ///
    /// `NoMemory`; then nothing was handed over.
    pub fn put(&mut self, alloc: Global, group: &mut LoneGroup<T>) -> Result<(), NoMemory>
        requires own { group.old.setup ≡ self.old.setup }
        ensures ok { OnOk result (IsHanded self.old self.new group.old) }
        ensures rest { OnOk result
            (group.new ≡ record group.old { first = group.new.first; turns = [] }) }
        ensures err { OnErr result ((self.new ≡ self.old) × (group.new ≡ group.old)) }
        ensures setup { self.new.setup ≡ self.old.setup }
        ensures same { group.new.setup ≡ group.old.setup }
    {
        self.batches.reserve(1)?;
        let slots = match self.slots.pop() {
            Some(slots) => slots,
            None => Vec::new(alloc),
        };
        self.batches.push_back_reserved(group.hand_over(slots));
        Ok(())
    }

    /// The batch that was handed over first of those that wait, if any do. It doesn't wait any more.
    pub fn take(&mut self) -> Option<Batch>
        ensures batch { IfSome result (IsBatch (system T.turn_of self.old.setup)) }
        ensures first { self.old.batches ≡ option_to_list result ++ self.new.batches }
        ensures none { IfNone result (self.old.batches ≡ []) }
        ensures rest { self.new ≡ record self.old { batches = self.new.batches } }
    {
        self.batches.pop_front()
    }

    /// The slots of a batch that was written, whose memory serves again.
    pub fn give_slots(&mut self, slots: Vec<Slot>)
        ensures { self.new ≡ self.old }
    {
        // Where there is no memory to keep them, they go.
        drop(self.slots.push(slots));
    }
}
