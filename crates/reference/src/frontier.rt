//! How far the turns of a setup were taken.
ghost use Rattle.std.specs.Prelude.{◌≡◌, ◌+◌, ◌*◌, ◌%◌, ◌<◌, ℕ, [], None, IfOk, IfSome, IfNone, OnErr, length, map, option_map, replicate, slice_set};
ghost use Rattle.std.specs.List.{range_with_len};
ghost use Rattle.plans.specs.Plans.{composition};
ghost use Rattle.io_automata.specs.Steps.{start_of};
ghost use Rattle.task_seed.specs.Setups.{system, plan_of};
ghost use Rattle.task_seed.specs.Machines.{machine};
ghost use Rattle.task_seed.specs.Taken.{turned_of};
ghost use Rattle.reference.specs.Queues.{ArePlaced, HasItsNumber, IsSmall, least_key, place_of};
ghost use Rattle.reference.specs.Clocks.{AreClocks};
ghost use Rattle.reference.specs.Standing.{taken_at, IsBeforeLeast};
ghost use Rattle.reference.specs.Memos.{AreMemos};
ghost use Rattle.reference.specs.Taking.{plain};
ghost use Rattle.gvt.specs.Tournaments.{IsTournament, node};
ghost use Rattle.reference.specs.Views.{IsNextTurn, IsComplete};

use crate::clocks::Clocks;
use crate::memos::no_memos;
use crate::taking::{put_none, take_turn};
use event_keys::{Key, Outcome, Turned};
use gvt::tournament::put;
use plans::{Memo, Plan};
use std::alloc::Global;
use task_seed::laws::machine_is_lawful;
use task_seed::{Setup, Turns};
use terms::{Action, NoMemory, State};
use undo_records::Store;
use virtual_time::reference::{reference_is_complete, reference_is_one};

/// Where the turns of a setup were taken up to a key: what is due next, and in which states.
#[derive(Drop)]
pub(crate) struct Frontier {
    // The places of the keys of the components' next turns, in a tournament: the least comes to the root.
    places: Vec<u64>,
    // The numbers of those turns.
    numbers: Vec<u64>,
    // One state for each component, but inside a call.
    states: Vec<Store>,
    clocks: Clocks,
    // What is known of each component's tasks in its state.
    memos: Vec<Memo>,
}

// The tick and the component of a key as one number. No two of the next keys have one, since they are of different components.
#[inline(always)]
fn place_of(key: Option<Key>) -> u64
    requires { IfSome key IsSmall }
    ensures { result ≡ place_of key }
{
    match key {
        None => u64::MAX,
        Some(key) => key.tick * 65_536 + u64::from(key.component),
    }
}

pub(crate) fn first_places<T: Turns>(alloc: Global, setup: &Setup<T>) -> Result<Vec<u64>, NoMemory>
    ensures { IfOk result (λ places. (n : ℕ) → n ≡ length (composition (plan_of setup.now))
        → ArePlaced (system T.turn_of setup.now) n n (λ j. 0) places.items) }
{
    let count = setup.plan().components();
    let mut places = no_places(alloc, count)?;
    for i in 0..count {
        let place = place_of(setup.first_key(i));
        put(&mut places, usize::from(count), usize::from(i), place);
    }
    Ok(places)
}

// A tournament of so many components that have no turn.
fn no_places(alloc: Global, count: u16) -> Result<Vec<u64>, NoMemory>
    ensures { IfOk result (λ places. IsTournament count places.items) }
{
    let places = vec![in alloc; u64::MAX; 2 * usize::from(count)]?;
    Ok(places)
}

pub(crate) fn first_numbers(alloc: Global, count: u16) -> Result<Vec<u64>, NoMemory>
    ensures { IfOk result (λ numbers. numbers.items ≡ replicate count 0) }
{
    let numbers = vec![in alloc; 0; usize::from(count)]?;
    Ok(numbers)
}

pub(crate) fn start_states(alloc: Global, plan: &Plan) -> Result<Vec<Store>, NoMemory>
    ensures { IfOk result (λ states. states.items
        ≡ map (λ i. plain (start_of (composition plan.now) i))
        (range_with_len 0 (length (composition plan.now)))) }
{
    let mut states = Vec::new(alloc);
    for i in 0..plan.components() {
        let state = plan.start(alloc, i)?;
        states.push(Store::new(alloc, state)?)?;
    }
    Ok(states)
}

// The least of the keys of the next turns.
#[inline(always)]
pub(crate) fn least_key(places: &[u64], numbers: &[u64]) -> Option<Key>
    requires { HasItsNumber places.now numbers.now }
    ensures { result ≡ least_key places.now numbers.now }
{
    let place = match places.get(1) {
        Some(place) => *place,
        None => return None,
    };
    if place == u64::MAX {
        return None;
    }
    let component = (place % 65_536) as u16;
    Some(Key {
        tick: place / 65_536,
        component,
        number: numbers[usize::from(component)],
    })
}

// The turn of this key is taken, and its component's next key comes in its place.
#[inline(always)]
pub(crate) fn move_on(places: &mut [u64], numbers: &mut [u64], key: Key, next: Option<Key>)
    requires within { key.component < length numbers.old }
    requires fits { key.number < 4294967296 }
    requires small { IfSome next IsSmall }
    requires tournament { IsTournament (length numbers.old) places.old }
    ensures tournament { IsTournament (length numbers.old) places.new }
    ensures many { length places.new ≡ length places.old }
    ensures own { node places.new (length numbers.old + key.component) ≡ place_of next }
    ensures others { (k : ℕ) → k < length numbers.old → (k ≡ key.component → ⊥)
        → node places.new (length numbers.old + k) ≡ node places.old (length numbers.old + k) }
    ensures numbers { numbers.new ≡ slice_set numbers.old key.component (key.number + 1) }
{
    let i = usize::from(key.component);
    put(places, numbers.len(), i, place_of(next));
    numbers[i] = key.number + 1;
}

impl Frontier {
    /// No turn was taken.
    pub(crate) fn start<T: Turns>(alloc: Global, setup: &Setup<T>) -> Result<Frontier, NoMemory>
        ensures stands { IfOk result (λ frontier. IsBeforeLeast
            (system T.turn_of setup.now) frontier.places.items frontier.numbers.items
            frontier.states.items) }
        ensures none { IfOk result (λ frontier. taken_at
            (system T.turn_of setup.now) frontier.places.items frontier.numbers.items ≡ []) }
        ensures clocks { IfOk result
            (λ f. AreClocks T.turn_of setup.now f.numbers.items f.clocks.clocks.items) }
        ensures memos { IfOk result (λ f. AreMemos
            (composition (plan_of setup.now)) f.states.items f.memos.items) }
    {
        machine_is_lawful(setup);
        reference_is_one::<State, Action>();
        reference_is_complete::<State, Action>();
        let places = first_places(alloc, setup)?;
        let numbers = first_numbers(alloc, setup.plan().components())?;
        let states = start_states(alloc, setup.plan())?;
        let clocks = Clocks::new(alloc, setup)?;
        let memos = no_memos(alloc, setup.plan())?;
        Ok(Frontier {
            places,
            numbers,
            states,
            clocks,
            memos,
        })
    }

    /// Takes the turn with the least key, if there is one. A refusal leaves everything as it was.
    #[inline]
    pub(crate) fn take_next<T: Turns>(
        &mut self,
        alloc: Global,
        setup: &Setup<T>,
    ) -> Result<Option<Turned>, NoMemory>
        requires stands { IsBeforeLeast
            (system T.turn_of setup.now) self.old.places.items self.old.numbers.items
            self.old.states.items }
        requires clocks { AreClocks T.turn_of setup.now self.old.numbers.items
            self.old.clocks.clocks.items }
        requires memos { AreMemos (composition (plan_of setup.now)) self.old.states.items
            self.old.memos.items }
        ensures stands { IsBeforeLeast
            (system T.turn_of setup.now) self.new.places.items self.new.numbers.items
            self.new.states.items }
        ensures clocks { AreClocks T.turn_of setup.now self.new.numbers.items
            self.new.clocks.clocks.items }
        ensures memos { AreMemos (composition (plan_of setup.now)) self.new.states.items
            self.new.memos.items }
        ensures ok { IfOk result (λ turn. IsNextTurn (machine (system T.turn_of setup.now))
            (taken_at (system T.turn_of setup.now) self.old.places.items self.old.numbers.items)
            turn (taken_at
            (system T.turn_of setup.now) self.new.places.items self.new.numbers.items)) }
        ensures err_places { OnErr result (self.new.places.items ≡ self.old.places.items) }
        ensures err_numbers { OnErr result (self.new.numbers.items ≡ self.old.numbers.items) }
        ensures whole { IsComplete (machine (system T.turn_of setup.now))
            (taken_at (system T.turn_of setup.now) self.new.places.items self.new.numbers.items) }
    {
        let mut found = None;
        let key = self.take_next_into(alloc, setup, &mut found)?;
        Ok(turned(found, key))
    }

    /// The same, with the action in `found`, if the turn took one. A refusal leaves nothing there.
    #[inline(always)]
    pub(crate) fn take_next_into<T: Turns>(
        &mut self,
        alloc: Global,
        setup: &Setup<T>,
        found: &mut Option<Action>,
    ) -> Result<Option<Key>, NoMemory>
        requires stands { IsBeforeLeast
            (system T.turn_of setup.now) self.old.places.items self.old.numbers.items
            self.old.states.items }
        requires clocks { AreClocks T.turn_of setup.now self.old.numbers.items
            self.old.clocks.clocks.items }
        requires memos { AreMemos (composition (plan_of setup.now)) self.old.states.items
            self.old.memos.items }
        ensures stands { IsBeforeLeast
            (system T.turn_of setup.now) self.new.places.items self.new.numbers.items
            self.new.states.items }
        ensures clocks { AreClocks T.turn_of setup.now self.new.numbers.items
            self.new.clocks.clocks.items }
        ensures memos { AreMemos (composition (plan_of setup.now)) self.new.states.items
            self.new.memos.items }
        ensures ok { IfOk result (λ key. IsNextTurn (machine (system T.turn_of setup.now))
            (taken_at (system T.turn_of setup.now) self.old.places.items self.old.numbers.items)
            (option_map (turned_of found.new) key)
            (taken_at (system T.turn_of setup.now) self.new.places.items self.new.numbers.items)) }
        ensures last { IfOk result (λ key. IfNone key (found.new ≡ None)) }
        ensures err_places { OnErr result (self.new.places.items ≡ self.old.places.items) }
        ensures err_numbers { OnErr result (self.new.numbers.items ≡ self.old.numbers.items) }
        ensures err_found { OnErr result (found.new ≡ None) }
        ensures whole { IsComplete (machine (system T.turn_of setup.now))
            (taken_at (system T.turn_of setup.now) self.new.places.items self.new.numbers.items) }
    {
        machine_is_lawful(setup);
        reference_is_one::<State, Action>();
        reference_is_complete::<State, Action>();
        let Some(key) = least_key(&self.places, &self.numbers) else {
            put_none(found);
            return Ok(None);
        };
        let turn = self.clocks.turn(setup, key, &self.numbers);
        let Ok(next) = self.clocks.reach_after(setup, key, &self.numbers) else {
            put_none(found);
            return Err(NoMemory);
        };
        take_turn(
            alloc,
            setup,
            key,
            turn,
            &mut self.states,
            &mut self.memos,
            found,
        )?;
        move_on(&mut self.places, &mut self.numbers, key, next);
        Ok(Some(key))
    }
}

// The turn of a key, if there is one, with the action that it took.
#[inline(always)]
fn turned(found: Option<Action>, key: Option<Key>) -> Option<Turned>
    ensures { result ≡ option_map (turned_of found) key }
{
    match (key, found) {
        (Some(key), Some(action)) => Some(Turned {
            key,
            outcome: Outcome::Did(action),
        }),
        (Some(key), None) => Some(Turned {
            key,
            outcome: Outcome::Idle,
        }),
        (None, _) => None,
    }
}
