//! One component: what it has done, what waits, and its state.
ghost use Rattle.std.specs.Prelude.{List, ◌≡◌, ◌<◌, ◌+◌, ◌∷◌, ◌↔◌, [], None, Some, IfSome, true, length, IfOk, OnOk, OnErr, IsErrOf, IsTrue, is_some, not, option_map};
ghost use Rattle.std.specs.Arc.{arc_value};
ghost use Rattle.event_keys.specs.Entries.{action_of};
ghost use Rattle.event_keys.specs.declared.message.Signed.{Signed as SignedValue};
ghost use Rattle.event_keys.specs.declared.outcome.Outcome.TheVariants.{Idle};
ghost use Rattle.event_keys.specs.Ranks.{rank, rank_of_bound};
ghost use Rattle.raw_events.specs.Around.{is_nonempty};
ghost use Rattle.plans.specs.Plans.{composition};
ghost use Rattle.virtual_time.specs.Bags.{IsSorted};
ghost use Rattle.virtual_time.specs.Records.{roll_back_of};
ghost use Rattle.task_seed.specs.Setups.{plan_of};
ghost use Rattle.task_seed.specs.Setups.{system};
ghost use Rattle.task_seed.specs.Turning.{key_of};
ghost use Rattle.task_seed.specs.Clocks.{HasReached, IsTurnKey};
ghost use Rattle.task_seed.specs.Taken.{turned_of};
ghost use Rattle.rollback.specs.ComponentView.{machine_of, processed, next_key, last_key, last_of, is_last_idle, is_receiving, is_turning, start_held};
ghost use Rattle.rollback.specs.ComponentInvariant.{entry_of, turn_receivers};
ghost use Rattle.rollback.specs.Stepped.{HasNextKey, IsNextSent, IsNextTurn, IsUnsent, machine_at, next_entry, stepped};

use crate::growth::{
    did, outcome_into, post_all, receivers_of_turn, take_idle, take_input, take_turn,
};
use crate::keys::{fits, is_below, key_of};
use crate::refused::ProcessRefused;
use crate::spares::Spares;
use antimessage::Bag;
use event_keys::{Bound, Key, Outcome, Signed, Turned};
use message_balance::Done;
use plans::Resting;
use plans::laws::receivers_law;
use raw_events::EventList;
use std::alloc::Global;
use std::marker::Model;
use std::mem::swap;
use std::sync::Arc;
use task_seed::{Clock, Setup, Turns};
use terms::{Action, NoMemory};
use undo_records::Store;

/// A component of a setup, with its record: the bound and the state of its base, the done entries since then, the pending
/// inputs, the owed antimessages, and its next turn. It is seen as the setup, its number, the bound and the record.
#[derive(Drop)]
pub struct Component<T: Turns> {
    pub(crate) setup: Arc<Setup<T>>,
    pub(crate) number: u16,
    pub(crate) base: Bound,
    // The number of the first turn after the base.
    pub(crate) first: u64,
    // One state for each done entry, and the current one.
    pub(crate) store: Store,
    // All before the cursor, but inside a call.
    pub(crate) done: EventList<Done>,
    // All after the cursor, as the owed antimessages are.
    pub(crate) pending: EventList<Signed>,
    pub(crate) owed: EventList<Signed>,
    // The key of the next turn, if there is one.
    pub(crate) coming: Option<Key>,
    // It has reached the next turn.
    pub(crate) clock: Clock,
    // The tasks that have nothing enabled in the current state, as far as was asked.
    pub(crate) resting: Resting,
    pub(crate) spares: Spares,
}

impl<T: Turns> Model for Component<T> {
    ghost use Rattle.std.specs.Arc.{arc_value};
    ghost use Rattle.task_seed.specs.declared.setup.Setup.{Setup};
    ghost use Rattle.rollback.specs.ComponentView.{ComponentView};
    ghost use Rattle.std.specs.Coded.{codes};
    ghost use Rattle.plans.specs.KnownLaws.{are_known_prop};
    ghost use Rattle.terms.specs.Datum.{datum_code};
    ghost use Rattle.terms.specs.contracts.scalar.Shape as shape;
    ghost use Rattle.terms.specs.contracts.term.Term as term;
    ghost use Rattle.terms.specs.contracts.effect.Effect as effect;

    ghost Value = { ComponentView (Setup T) };

    ghost coded = { Prim.hlevel (
      codes,
      are_known_prop,
      shape.the_row.coded,
      term.the_row.coded,
      effect.the_row.coded,
      datum_code,
    ) };

    ghost use Rattle.task_seed.specs.Setups.{system, plan_of};
    ghost use Rattle.rollback.specs.ComponentInvariant.{record_of, next_number, IsValidComponent};
    ghost use Rattle.task_seed.specs.Clocks.{HasReached};
    ghost use Rattle.plans.specs.Plans.{composition};
    ghost use Rattle.plans.specs.Resting.{IsResting};

    ghost view = { λ c.
        record {
          setup = arc_value c.setup;
          number = c.number;
          base = c.base;
          history = record_of c.store c.first c.done c.pending c.owed;
        } };

    ghost invariant = { λ c. IsValidComponent
        (system T.turn_of
        (arc_value c.setup)) c.number c.first c.store c.done c.pending c.owed c.coming
        × HasReached T.turn_of (arc_value c.setup) c.number c.clock (next_number c.first c.done)
        × IsResting
        (composition (plan_of (arc_value c.setup))) c.number c.store.current c.resting };
}

impl<T: Turns> Component<T> {
    /// Component `number` of a setup, at its start.
    pub fn new(alloc: Global, setup: Arc<Setup<T>>, number: u16) -> Result<Component<T>, NoMemory>
        requires { number < length (composition (plan_of (arc_value setup))) }
        ensures { IfOk result (λ c. c ≡ start_held T.turn_of (arc_value setup) number) }
    {
        let state = setup.plan().start(alloc, number)?;
        let store = Store::new(alloc, state)?;
        let mut clock = Clock::new(alloc, number);
        clock.reach(&setup, 0)?;
        let coming = first_key(&setup, number);
        Ok(Component {
            setup,
            number,
            base: Bound::At(Key {
                tick: 0,
                component: 0,
                number: 0,
            }),
            first: 0,
            store,
            done: EventList::new(),
            pending: EventList::new(),
            owed: EventList::new(),
            coming,
            clock,
            resting: Resting::new(),
            spares: Spares::new(),
        })
    }

    /// The setup.
    pub fn setup(&self) -> &Setup<T>
        ensures { result.now ≡ self.now.setup }
    {
        &self.setup
    }

    /// The number of the component, from 0.
    pub fn number(&self) -> u16
        ensures number { result ≡ self.now.number }
        ensures there { result < length (composition (plan_of self.now.setup)) }
    {
        self.number
    }

    /// The bound of the base: nothing done below it is kept.
    pub fn base(&self) -> Bound
        ensures { result ≡ self.now.base }
    {
        self.base
    }

    /// Swaps the component's spare cells for others. The cells of turns that are of no use any more serve for its next turns,
    /// which then take no memory for it.
    pub fn swap_spare(&mut self, spare: &mut EventList<Turned>)
        ensures { self.new ≡ self.old }
    {
        swap(&mut self.spares.turns, spare);
    }

    /// Adds spare cells of messages to the component's. They serve for the messages that its next turns send, which then take no memory.
    pub fn add_spare_messages(&mut self, spare: &mut EventList<Signed>)
        ensures kept { self.new ≡ self.old }
        ensures empty { spare.new ≡ record { before = []; after = [] } }
    {
        self.spares.signed.keep_all(spare);
    }

    /// The pending inputs and the owed antimessages are in order. The call does nothing.
    pub fn lists_law(&self)
        ensures pending { IsSorted (machine_at T.turn_of self.now) self.now.history.pending }
        ensures owed { IsSorted (machine_at T.turn_of self.now) self.now.history.owed }
    {
        let _pending = self.pending.peek_next();
    }

    /// The key of the entry that is processed next, or the end where there is none.
    pub fn next(&self) -> Bound
        ensures { rank_of_bound result
            ≡ next_key (machine_at T.turn_of self.now) (next_entry T.turn_of self.now) }
    {
        if self.is_input_next() {
            return match self.pending.peek_next() {
                None => Bound::End,
                Some(first) => Bound::At(first.message.key),
            };
        }
        match self.coming {
            None => Bound::End,
            Some(key) => Bound::At(key),
        }
    }

    /// The key of the last done entry, where anything is done since the base.
    pub fn last(&self) -> Option<Key>
        ensures { option_map rank result ≡ last_key self.now.history.done }
    {
        match self.done.peek_last() {
            None => None,
            Some(done) => Some(key_of(done)),
        }
    }

    /// Whether the last done entry is a turn of its own by which it did nothing, where anything is done since the base. Such a component mostly
    /// waits for a message.
    pub fn is_idle(&self) -> bool
        ensures { result ≡ is_last_idle self.now.history.done }
    {
        match self.done.peek_last() {
            None => false,
            Some(done) => is_idle_turn(done),
        }
    }

    // Whether the next entry is the first pending input.
    pub(crate) fn is_input_next(&self) -> bool
        ensures { result ≡ is_receiving (next_entry T.turn_of self.now) }
    {
        match (self.pending.peek_next(), self.coming) {
            (None, _) => false,
            (Some(_), None) => true,
            (Some(first), Some(own)) => is_below(first.message.key, own),
        }
    }

    /// Does the next entry, and posts a message for each receiver of what a turn did. The answer is the entry's key. A refusal
    /// leaves the component and the bag.
    pub fn process(&mut self, alloc: Global, out: &mut Bag) -> Result<Key, ProcessRefused>
        ensures key { IfOk result (λ key. HasNextKey T.turn_of self.old key) }
        ensures record { OnOk result (self.new ≡ stepped T.turn_of self.old) }
        ensures sent { OnOk result (IsNextSent T.turn_of self.old out.old out.new) }
        ensures nothing { IsErrOf result ProcessRefused.NothingPending
            ↔ (next_entry T.turn_of self.old ≡ None) }
        ensures kept { OnErr result (self.new ≡ self.old) }
        ensures out_kept { OnErr result (out.new ≡ out.old) }
    {
        if self.is_input_next() {
            return Ok(self.process_input(alloc)?);
        }
        if self.coming.is_none() {
            return Err(ProcessRefused::NothingPending);
        }
        Ok(self.process_turn(alloc, out)?)
    }

    // Takes the first pending input.
    pub(crate) fn process_input(&mut self, alloc: Global) -> Result<Key, NoMemory>
        requires { IsTrue (is_receiving (next_entry T.turn_of self.old)) }
        ensures key { IfOk result (HasNextKey T.turn_of self.old) }
        ensures record { OnOk result (self.new ≡ stepped T.turn_of self.old) }
        ensures kept { OnErr result (self.new ≡ self.old) }
    {
        let Some(first) = self.pending.peek_next() else {
            unreachable!();
        };
        let taken = first.message.key;
        take_input(
            alloc,
            self.setup.plan(),
            self.number,
            &mut self.store,
            &mut self.done,
            &mut self.pending,
            &mut self.spares,
        )?;
        self.resting.wake();
        Ok(taken)
    }

    // Takes the own turn.
    fn process_turn(&mut self, alloc: Global, out: &mut Bag) -> Result<Key, NoMemory>
        requires { IsTrue (is_turning (next_entry T.turn_of self.old)) }
        ensures key { IfOk result (HasNextKey T.turn_of self.old) }
        ensures record { OnOk result (self.new ≡ stepped T.turn_of self.old) }
        ensures sent { OnOk result (IsNextSent T.turn_of self.old out.old out.new) }
        ensures kept { OnErr result (self.new ≡ self.old) }
        ensures out_kept { OnErr result (out.new ≡ out.old) }
    {
        let mut found = None;
        let key = self.next_into(alloc, &mut found)?;
        match found {
            None => self.do_idle(alloc, key),
            Some(action) => self.do_sending(alloc, did(key, action), out),
        }
    }

    // Does the own turn that comes next, which may send. It stays a call, so that idle turns, which are most, don't pay for it.
    #[inline(never)]
    fn do_sending(&mut self, alloc: Global, turned: Turned, out: &mut Bag) -> Result<Key, NoMemory>
        requires next { IsNextTurn T.turn_of self.old turned }
        ensures key { IfOk result (HasNextKey T.turn_of self.old) }
        ensures record { OnOk result (self.new ≡ stepped T.turn_of self.old) }
        ensures sent { OnOk result (IsNextSent T.turn_of self.old out.old out.new) }
        ensures kept { OnErr result (self.new ≡ self.old) }
        ensures out_kept { OnErr result (out.new ≡ out.old) }
    {
        let receivers = receivers_of_turn(alloc, &self.setup, self.number, &turned.outcome)?;
        self.do_turned(alloc, turned, receivers.as_slice(), out)
    }

    // Does the own turn that comes next, by which nothing is done and so nothing is sent.
    pub(crate) fn do_idle(&mut self, alloc: Global, key: Key) -> Result<Key, NoMemory>
        requires next { IsNextTurn T.turn_of self.old (record { key = key; outcome = Idle }) }
        ensures key { IfOk result (HasNextKey T.turn_of self.old) }
        ensures record { OnOk result (self.new ≡ stepped T.turn_of self.old) }
        ensures silent { (bag : List SignedValue) → IsNextSent T.turn_of self.old bag bag }
        ensures kept { OnErr result (self.new ≡ self.old) }
    {
        let next = self.clock.reach_after(&self.setup, key)?;
        take_idle(
            alloc,
            &self.setup,
            self.number,
            key,
            &mut self.store,
            &mut self.done,
            &mut self.spares,
        )?;
        self.coming = next;
        Ok(key)
    }

    // The key of the own turn that comes next, and what comes of it: its action, if it takes one, in `found`, where nothing stands.
    #[inline(always)]
    pub(crate) fn next_into(
        &mut self,
        alloc: Global,
        found: &mut Option<Action>,
    ) -> Result<Key, NoMemory>
        requires turning { IsTrue (is_turning (next_entry T.turn_of self.old)) }
        requires empty { found.old ≡ None }
        ensures next { IfOk result (λ key. IsNextTurn T.turn_of self.old
            (turned_of found.new key)) }
        ensures kept { self.new ≡ self.old }
    {
        let Some(key) = self.coming else {
            unreachable!();
        };
        let turn = self.clock.turn_again(&self.setup, key.number);
        outcome_into(
            alloc,
            self.setup.plan(),
            self.number,
            turn,
            &self.store,
            &mut self.resting,
            found,
        )?;
        Ok(key)
    }

    // Does the own turn that comes next. What came of it goes to these components.
    pub(crate) fn do_turned(
        &mut self,
        alloc: Global,
        turned: Turned,
        receivers: &[u16],
        out: &mut Bag,
    ) -> Result<Key, NoMemory>
        requires next { IsNextTurn T.turn_of self.old turned }
        requires receivers { receivers.now
            ≡ turn_receivers (system T.turn_of self.old.setup) self.old.number turned.outcome }
        ensures key { IfOk result (HasNextKey T.turn_of self.old) }
        ensures record { OnOk result (self.new ≡ stepped T.turn_of self.old) }
        ensures sent { OnOk result (IsNextSent T.turn_of self.old out.old out.new) }
        ensures kept { OnErr result (self.new ≡ self.old) }
        ensures out_kept { OnErr result (out.new ≡ out.old) }
    {
        let key = turned.key;
        let next = self.clock.reach_after(&self.setup, key)?;
        take_turn(
            alloc,
            &self.setup,
            self.number,
            turned,
            receivers,
            &mut self.store,
            &mut self.done,
            &mut self.spares,
            out,
        )?;
        self.resting.wake();
        self.coming = next;
        Ok(key)
    }

    /// Takes the last done entry back, and posts an antimessage for each message that it sent. The answer is false where
    /// nothing is done.
    pub fn roll_back(&mut self, out: &mut Bag) -> bool
        ensures record { self.new ≡ record self.old {
          history = roll_back_of (machine_at T.turn_of self.old) self.old.history;
        } }
        ensures sent { IsUnsent T.turn_of self.old (last_of self.old.history.done) out.old out.new }
        ensures answer { result ≡ is_nonempty self.old.history.done }
    {
        receivers_law();
        let Some(cell) = self.done.take_last() else {
            return false;
        };
        self.store.undo();
        self.resting.wake();
        match cell.into_value() {
            Done::Turn(turned, antimessages) => {
                let key = turned.value().key;
                fits(key);
                self.coming = Some(key);
                self.spares.turns.push_last(turned);
                post_all(out, antimessages);
            }
            Done::Input(cell) => self.pending.insert_sorted(cell),
        }
        true
    }
}

// Whether a done entry is an own turn by which nothing was done.
fn is_idle_turn(done: &Done) -> bool
    ensures { result ≡ is_last_idle (entry_of done.now ∷ []) }
{
    match done {
        Done::Turn(turned, _) => is_idle_outcome(&turned.value().outcome),
        Done::Input(_) => false,
    }
}

fn is_idle_outcome(outcome: &Outcome) -> bool
    ensures { result ≡ not (is_some (action_of outcome.now)) }
{
    match outcome {
        Outcome::Idle => true,
        Outcome::Did(_) => false,
    }
}

// The key of the first turn, if there is one.
fn first_key<T: Turns>(setup: &Setup<T>, i: u16) -> Option<Key>
    ensures key { result ≡ key_of (system T.turn_of setup.now) i 0 }
    ensures small { IfSome result IsTurnKey }
{
    let key = setup.first_key(i)?;
    fits(key);
    Some(key)
}
