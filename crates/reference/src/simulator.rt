//! The simulator that always takes the turn with the least key.
ghost use Rattle.std.specs.Prelude.{◌≡◌, [], None, IfOk, IfNone, OnErr, option_map};
ghost use Rattle.std.specs.Arc.{arc_value};
ghost use Rattle.task_seed.specs.Setups.{system};
ghost use Rattle.task_seed.specs.Machines.{machine};
ghost use Rattle.task_seed.specs.Taken.{turned_of};
ghost use Rattle.reference.specs.Views.{IsNextTurn, IsComplete};

use crate::frontier::Frontier;
use event_keys::{Key, Turned};
use std::alloc::Global;
use std::marker::Model;
use std::sync::Arc;
use task_seed::{Setup, Turns};
use terms::{Action, NoMemory};

/// The simulator that always takes the turn with the least key. It is seen as its setup and the turns that it has taken, the
/// last one first.
#[derive(Drop)]
pub struct Reference<T: Turns> {
    setup: Arc<Setup<T>>,
    frontier: Frontier,
}

impl<T: Turns> Model for Reference<T> {
    ghost use Rattle.std.specs.Arc.{arc_value};
    ghost use Rattle.std.specs.Coded.{codes};
    ghost use Rattle.plans.specs.KnownLaws.{are_known_prop};
    ghost use Rattle.terms.specs.Datum.{datum_code};
    ghost use Rattle.terms.specs.contracts.scalar.Shape as shape;
    ghost use Rattle.terms.specs.contracts.term.Term as term;
    ghost use Rattle.terms.specs.contracts.effect.Effect as effect;
    ghost use Rattle.task_seed.specs.declared.setup.Setup.{Setup};
    ghost use Rattle.reference.specs.Views.{Ran};

    ghost Value = { Ran (Setup T) };

    ghost coded = { Prim.hlevel (
      codes,
      are_known_prop,
      shape.the_row.coded,
      term.the_row.coded,
      effect.the_row.coded,
      datum_code,
    ) };

    ghost use Rattle.task_seed.specs.Setups.{system, plan_of};
    ghost use Rattle.reference.specs.Clocks.{AreClocks};
    ghost use Rattle.reference.specs.Standing.{taken_at, IsBeforeLeast};
    ghost use Rattle.reference.specs.Memos.{AreMemos};
    ghost use Rattle.plans.specs.Plans.{composition};

    ghost view = { λ r. record {
      setup = arc_value r.setup;
      taken = taken_at
          (system T.turn_of (arc_value r.setup)) r.frontier.places.items r.frontier.numbers.items;
    } };

    ghost invariant = { λ r. IsBeforeLeast
        (system T.turn_of
        (arc_value r.setup)) r.frontier.places.items r.frontier.numbers.items
        r.frontier.states.items
        × AreClocks T.turn_of
        (arc_value r.setup) r.frontier.numbers.items r.frontier.clocks.clocks.items
        × AreMemos (composition (plan_of (arc_value r.setup))) r.frontier.states.items
        r.frontier.memos.items };
}

impl<T: Turns> Reference<T> {
    /// The simulator before its first turn.
    pub fn new(alloc: Global, setup: Arc<Setup<T>>) -> Result<Reference<T>, NoMemory>
        ensures { IfOk result (λ r. r ≡ record { setup = arc_value setup; taken = [] }) }
    {
        let frontier = Frontier::start(alloc, &setup)?;
        Ok(Reference { setup, frontier })
    }

    /// The setup.
    pub fn setup(&self) -> &Setup<T>
        ensures { result.now ≡ self.now.setup }
    {
        &self.setup
    }

    /// The setup, of a simulator that takes no more turns.
    pub fn into_setup(self) -> Arc<Setup<T>>
        ensures { arc_value result ≡ self.setup }
    {
        let Reference { setup, frontier } = self;
        drop(frontier);
        setup
    }

    /// Takes the turn with the least key: by the joint step, its component and each receiver of its action take it. `None` after
    /// the last turn.
    ///
    /// Its time grows with the logarithm of the number of components, with the number of receivers of its action and of their
    /// tasks, and with what the action writes; no state is copied. A task that had nothing enabled isn't asked again until its
    /// component's state changes.
    ///
    /// # Errors
    ///
    /// `NoMemory`; then no turn was taken, and the next call takes the same one.
    #[inline]
    pub fn step(&mut self, alloc: Global) -> Result<Option<Turned>, NoMemory>
        ensures ok { IfOk result (λ turn. IsNextTurn
            (machine (system T.turn_of self.old.setup)) self.old.taken turn self.new.taken) }
        ensures err { OnErr result (self.new.taken ≡ self.old.taken) }
        ensures setup { self.new.setup ≡ self.old.setup }
        ensures whole { IsComplete (machine (system T.turn_of self.old.setup)) self.new.taken }
    {
        self.frontier.take_next(alloc, &self.setup)
    }

    /// The same, with the action in `found`, if the turn took one, in place of what was there. Nothing is there after an idle turn,
    /// after the last turn, and after a refusal.
    ///
    /// # Errors
    ///
    /// `NoMemory`; then no turn was taken, and the next call takes the same one.
    #[inline(always)]
    pub fn step_into(
        &mut self,
        alloc: Global,
        found: &mut Option<Action>,
    ) -> Result<Option<Key>, NoMemory>
        ensures ok { IfOk result (λ key. IsNextTurn
            (machine (system T.turn_of self.old.setup)) self.old.taken
            (option_map (turned_of found.new) key) self.new.taken) }
        ensures last { IfOk result (λ key. IfNone key (found.new ≡ None)) }
        ensures err { OnErr result (self.new.taken ≡ self.old.taken) }
        ensures err_found { OnErr result (found.new ≡ None) }
        ensures setup { self.new.setup ≡ self.old.setup }
        ensures whole { IsComplete (machine (system T.turn_of self.old.setup)) self.new.taken }
    {
        self.frontier.take_next_into(alloc, &self.setup, found)
    }
}
