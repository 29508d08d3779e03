//! A world, and its steps.
ghost use Rattle.std.specs.Prelude.{◌≡◌, ◌≤◌, ℕ, [], IfOk, OnErr, map};
ghost use Rattle.std.specs.Arc.{arc_value};
ghost use Rattle.event_keys.specs.declared.outcome.Turned.{Turned as TurnedValue};
ghost use Rattle.event_keys.specs.Ranks.{rank_of_bound};
ghost use Rattle.task_seed.specs.Setups.{system};
ghost use Rattle.task_seed.specs.Taken.{turn_of};
ghost use Rattle.virtual_time.specs.Reference.{IsReference};
ghost use Rattle.virtual_time.specs.Rules.{IsWorld};
ghost use Rattle.virtual_time.specs.Worlds.{Commit, Process, RollBack};
ghost use Rattle.antimessage.specs.Order.{IsInOrder};
ghost use Rattle.rollback.specs.ComponentView.{machine_of};
ghost use Rattle.world.specs.Answered.{Answered, ComesBack, HasVirtualTime, IsReachedBySteps, ThereAndBack, Ran, StaysCommitted, VirtualTimeRises};
ghost use Rattle.world.specs.Keeping.{Keeps};
ghost use Rattle.world.specs.Simulation.{IsAtStart, IsSimulation, start_simulation, world_of};
ghost use Rattle.world.specs.Steps.{answer_by, answer_of, delivering, meeting, step_of};

use crate::commit::{append, drop_between, is_above};
use crate::flight;
use crate::flight::least_next;
use crate::known::laws;
use crate::laws::there_and_back_law;
use crate::step::{Reply, StepRefused};
use antimessage::Bag;
use antimessage::laws::order_law;
use event_keys::laws::{bound_law, bound_rank_law};
use event_keys::{Bound, Key, Message, Signed, Step, Turned, lesser};
use raw_events::EventList;
use rollback::Component;
use rollback::laws::leaving_law;
use std::alloc::Global;
use std::marker::Model;
use std::sync::Arc;
use task_seed::laws::machine_is_lawful;
use task_seed::{Setup, Turns};
use terms::{Action, NoMemory, State};
use virtual_time::worlds::{committed_is_reference, virtual_time_rises};

// Below it there is no key.
const FIRST: Bound = Bound::At(Key {
    tick: 0,
    component: 0,
    number: 0,
});

/// The components of a setup, what is in flight between them, and what is committed. It begins with nothing done, and changes by steps
/// alone, so it is a world that steps reach.
#[derive(Drop)]
pub struct World<T: Turns> {
    pub(crate) setup: Arc<Setup<T>>,
    // One for each number, in order.
    pub(crate) components: Vec<Component<T>>,
    pub(crate) flight: Bag,
    pub(crate) bound: Bound,
    // All before the cursor.
    pub(crate) committed: EventList<Turned>,
}

impl<T: Turns> Model for World<T> {
    ghost use Rattle.std.specs.Prelude.{◌≡◌, []};
    ghost use Rattle.std.specs.Arc.{arc_value};
    ghost use Rattle.task_seed.specs.declared.setup.Setup.{Setup};
    ghost use Rattle.task_seed.specs.Setups.{system};
    ghost use Rattle.world.specs.Simulation.{Simulation, IsSimulation};
    ghost use Rattle.std.specs.Coded.{codes};
    ghost use Rattle.plans.specs.KnownLaws.{are_known_prop};
    ghost use Rattle.terms.specs.Datum.{datum_code};
    ghost use Rattle.terms.specs.contracts.scalar.Shape as shape;
    ghost use Rattle.terms.specs.contracts.term.Term as term;
    ghost use Rattle.terms.specs.contracts.effect.Effect as effect;

    ghost Value = { Simulation (Setup T) };

    ghost coded = { Prim.hlevel (
      codes,
      are_known_prop,
      shape.the_row.coded,
      term.the_row.coded,
      effect.the_row.coded,
      datum_code,
    ) };

    ghost view = { λ w.
        record {
          setup = arc_value w.setup;
          components = w.components.items;
          flight = w.flight;
          bound = w.bound;
          committed = w.committed.before;
        } };

    ghost invariant = { λ w. (w.committed.after ≡ [])
        × IsSimulation (system T.turn_of (arc_value w.setup))
        (record {
          setup = arc_value w.setup;
          components = w.components.items;
          flight = w.flight;
          bound = w.bound;
          committed = w.committed.before;
        }) };
}

impl<T: Turns> World<T> {
    /// The world of a setup at its start.
    pub fn new(alloc: Global, setup: Arc<Setup<T>>) -> Result<World<T>, NoMemory>
        ensures value { IfOk result (λ world. world
            ≡ start_simulation T.turn_of (arc_value setup)) }
        ensures start { IfOk result (IsAtStart T.turn_of (arc_value setup)) }
    {
        let mut components = Vec::new(alloc);
        for i in 0..setup.plan().components() {
            components.push(Component::new(alloc, Arc::try_clone(&setup)?, i)?)?;
        }
        Ok(World {
            setup,
            components,
            flight: Bag::new(),
            bound: FIRST,
            committed: EventList::new(),
        })
    }

    /// The setup.
    pub fn setup(&self) -> &Setup<T>
        ensures { result.now ≡ self.now.setup }
    {
        &self.setup
    }

    /// Every world is one that steps reach from the start: its records are proper and grounded, and sends and receipts balance. The call does
    /// nothing.
    pub fn soundness_law(&self)
        ensures reached { IsReachedBySteps T.turn_of self.now }
        ensures sound { IsWorld (machine_of T.turn_of self.now.setup)
            (world_of (machine_of T.turn_of self.now.setup) self.now) }
        ensures simulation { IsSimulation (system T.turn_of self.now.setup) self.now }
        ensures order { IsInOrder self.now.flight }
    {
        laws(&self.setup);
        order_law(&self.flight);
    }

    /// Global virtual time: the least of the components' next keys and of all keys in flight, or the end. It takes no memory.
    pub fn gvt(&self) -> Bound
        ensures time { HasVirtualTime T.turn_of self.now self.now (rank_of_bound result) }
        ensures bound { rank_of_bound self.now.bound ≤ rank_of_bound result }
    {
        laws(&self.setup);
        order_law(&self.flight);
        lesser(least_next(&self.components), self.flight.least())
    }

    /// The committed turns, in the order of keys, all before the cursor: those of the simulator that always takes the least key, as far as
    /// the committed bound.
    pub fn committed(&self) -> &EventList<Turned>
        ensures turns { result.now ≡ record { before = self.now.committed; after = [] } }
        ensures reference { IsReference (machine_of T.turn_of self.now.setup)
            (rank_of_bound self.now.bound) (map turn_of self.now.committed) }
    {
        laws(&self.setup);
        &self.committed
    }

    /// Does a step, or refuses it and stays as it was. What was committed stays, and no step but a roll-back lowers global virtual time. Only
    /// processing takes memory.
    ///
    /// # Errors
    ///
    /// `NoMemory`, `NoSuchComponent` and `NothingPending` of `Process`; `NoSuchMessage` of `Deliver` and `Meet`; `NoSuchComponent` and
    /// `NothingToRollBack` of `RollBack`; `AheadOfTime` and `BehindCommit` of `Commit`.
    pub fn step(&mut self, alloc: Global, step: &Step) -> Result<Reply, StepRefused>
        ensures answers { Answered T.turn_of self.old (step_of step.now)
            (answer_of result) self.new }
        ensures stays { StaysCommitted T.turn_of self.old self.new }
        ensures rises { VirtualTimeRises T.turn_of self.old (step_of step.now) self.new }
        ensures setup { self.new.setup ≡ self.old.setup }
        ensures keeps { Keeps self.old self.new }
        ensures kept { OnErr result (self.new ≡ self.old) }
    {
        self.soundness_law();
        machine_is_lawful(self.setup());
        committed_is_reference::<State, Action>();
        virtual_time_rises::<State, Action>();
        self.answer(alloc, step)
    }

    fn answer(&mut self, alloc: Global, step: &Step) -> Result<Reply, StepRefused>
        ensures answers { Answered T.turn_of self.old (step_of step.now)
            (answer_of result) self.new }
        ensures setup { self.new.setup ≡ self.old.setup }
        ensures keeps { Keeps self.old self.new }
        ensures kept { OnErr result (self.new ≡ self.old) }
    {
        match step {
            Step::Process(i) => Ok(Reply::Processed(self.process(alloc, *i)?)),
            Step::Deliver(signed) => Ok(Reply::Delivered(self.deliver(signed)?)),
            Step::Meet(message) => {
                self.meet(message)?;
                Ok(Reply::Met)
            }
            Step::RollBack(i) => Ok(Reply::RolledBack(self.roll_back(*i)?)),
            Step::Commit(bound) => Ok(Reply::Committed(self.commit(*bound)?)),
        }
    }

    fn process(&mut self, alloc: Global, i: u16) -> Result<Key, StepRefused>
        ensures answers { Answered T.turn_of self.old (Process i)
            (answer_by Reply.Processed result) self.new }
        ensures setup { self.new.setup ≡ self.old.setup }
        ensures keeps { Keeps self.old self.new }
        ensures kept { OnErr result (self.new ≡ self.old) }
    {
        flight::process(
            &self.setup,
            &mut self.components,
            alloc,
            i,
            &mut self.flight,
        )
    }

    fn roll_back(&mut self, i: u16) -> Result<Key, StepRefused>
        ensures answers { Answered T.turn_of self.old (RollBack i)
            (answer_by Reply.RolledBack result) self.new }
        ensures setup { self.new.setup ≡ self.old.setup }
        ensures keeps { Keeps self.old self.new }
        ensures kept { OnErr result (self.new ≡ self.old) }
    {
        flight::roll_back(&self.setup, &mut self.components, i, &mut self.flight)
    }

    fn deliver(&mut self, signed: &Signed) -> Result<u64, StepRefused>
        ensures answers { Answered T.turn_of self.old (delivering signed.now)
            (answer_by Reply.Delivered result) self.new }
        ensures setup { self.new.setup ≡ self.old.setup }
        ensures keeps { Keeps self.old self.new }
        ensures kept { OnErr result (self.new ≡ self.old) }
    {
        flight::deliver(&self.setup, &mut self.components, signed, &mut self.flight)
    }

    fn meet(&mut self, message: &Message) -> Result<(), StepRefused>
        ensures answers { Answered T.turn_of self.old (meeting message.now)
            (answer_by (λ _. Reply.Met) result) self.new }
        ensures setup { self.new.setup ≡ self.old.setup }
        ensures keeps { Keeps self.old self.new }
        ensures kept { OnErr result (self.new ≡ self.old) }
    {
        flight::meet(&self.setup, &self.components, message, &mut self.flight)
    }

    fn commit(&mut self, bound: Bound) -> Result<u64, StepRefused>
        ensures answers { Answered T.turn_of self.old (Commit (rank_of_bound bound))
            (answer_by Reply.Committed result) self.new }
        ensures setup { self.new.setup ≡ self.old.setup }
        ensures keeps { Keeps self.old self.new }
        ensures kept { OnErr result (self.new ≡ self.old) }
    {
        laws(&self.setup);
        bound_law(self.bound, bound);
        bound_rank_law(self.bound, bound);
        if is_above(self.bound, bound) {
            return Err(StepRefused::BehindCommit);
        }
        if is_above(bound, self.gvt()) {
            return Err(StepRefused::AheadOfTime);
        }
        let count = self.components.len();
        let turns = drop_between(&self.setup, &mut self.components, 0, count, bound);
        self.bound = bound;
        Ok(append(&mut self.committed, turns))
    }

    /// Does steps one after the other; a refused one leaves the world, and the next one follows. The answers are in the steps' order.
    ///
    /// There and back: where a component does its next entry and takes it back, and each message that the entry sent leaves the flight with
    /// its antimessage, by a meeting or by both deliveries, the world is the one before. Of the answers only the first has to be known: where it
    /// is `Processed` and no processing among these steps is refused for want of memory, all of them are done.
    ///
    /// # Errors
    ///
    /// `NoMemory` where there is none for the answers; then no step was done.
    pub fn run(
        &mut self,
        alloc: Global,
        steps: &[Step],
    ) -> Result<Vec<Result<Reply, StepRefused>>, NoMemory>
        ensures ran { IfOk result (λ answers. Ran T.turn_of self.old (map step_of steps.now)
            (map answer_of answers.items) self.new) }
        ensures back { IfOk result (λ answers. (i : ℕ)
            → ThereAndBack T.turn_of self.old i steps.now answers.items self.new
            → self.new ≡ self.old) }
        ensures first { IfOk result (λ a. ComesBack T.turn_of self.old steps.now a.items self.new) }
        ensures stays { IfOk result (λ _. StaysCommitted T.turn_of self.old self.new) }
        ensures setup { self.new.setup ≡ self.old.setup }
        ensures keeps { Keeps self.old self.new }
        ensures kept { OnErr result (self.new ≡ self.old) }
    {
        self.soundness_law();
        machine_is_lawful(self.setup());
        committed_is_reference::<State, Action>();
        there_and_back_law::<State, Action>();
        leaving_law();
        let mut answers = Vec::new(alloc);
        answers.reserve(steps.len())?;
        for step in steps {
            answers.push_reserved(self.step(alloc, step));
        }
        self.soundness_law();
        Ok(answers)
    }
}
