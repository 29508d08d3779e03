//! The clock of a component: the keys of its turns, on demand.
ghost use Rattle.std.specs.Prelude.{◌≡◌, ◌<◌, ◌≤◌, ◌+◌, [], Some, IfSome, IfOk, OnOk, OnErr, IsSome, option_to_list};
ghost use Rattle.event_keys.specs.Ranks.{rank};
ghost use Rattle.task_seed.specs.Clocks.{CanReach, HasReached, HasRoom, IsClock, IsTurnKey, KnowsTasks, Reaching, is_due, tick_of};
ghost use Rattle.task_seed.specs.Machines.{end_rank};
ghost use Rattle.task_seed.specs.Setups.{system};
ghost use Rattle.task_seed.specs.Turning.{key_of, turn_in};

use crate::setup::{Setup, in_tasks};
use crate::turns::{Turn, Turns};
use crate::walk::Walk;
use event_keys::Key;
use event_keys::laws::rank_law;
use std::alloc::Global;
use terms::NoMemory;

// A clock keeps the tick of one turn in so many.
const TURNS_A_TICK: u64 = 256;

// No turn has this number.
const NO_TURN: u64 = u64::MAX;

// A turn and its number.
#[derive(Clone, Copy)]
pub(crate) struct NumberedTurn {
    pub(crate) number: u64,
    pub(crate) turn: Turn,
}

/// The clock of a component: it gives the key of any turn that it has reached, by at most 256 questions to the turns and without memory.
/// For it keeps the tick of each turn that it reached whose number is a multiple of 256. Turns that are taken one after another are read one
/// after another; where turns were taken back, the next one is looked up.
#[derive(Drop)]
pub struct Clock {
    pub(crate) component: u16,
    // How many tasks the component has, from the first turn that it reaches.
    pub(crate) tasks: u32,
    pub(crate) ticks: Vec<u64>,
    // The turn that was read last, mostly the next one; where none was read, a number that no turn has.
    pub(crate) read: NumberedTurn,
    pub(crate) walk: Walk,
}

impl Clock {
    /// The clock of a component, which has reached no turn.
    pub fn new(alloc: Global, component: u16) -> Clock
        ensures component { result.component ≡ component }
        ensures ticks { result.ticks.items ≡ [] }
        ensures read { result.read.number ≡ 18446744073709551615 }
    {
        Clock {
            component,
            tasks: 0,
            ticks: Vec::new(alloc),
            read: NumberedTurn {
                number: NO_TURN,
                turn: Turn {
                    gap: 0,
                    task: 0,
                    choice: 0,
                },
            },
            walk: Walk::new(),
        }
    }

    /// Reaches turn `n`: from here on `key` gives its key. The turn is the first, where none was reached, or at most one after the last that
    /// was reached.
    ///
    /// # Errors
    ///
    /// `NoMemory`; then nothing has changed.
    pub fn reach<T: Turns>(&mut self, setup: &Setup<T>, n: u64) -> Result<(), NoMemory>
        requires { CanReach T.turn_of setup.now self.old.component self.old n }
        ensures ok { OnOk result
            (Reaching T.turn_of setup.now self.old.component self.old n self.new) }
        ensures err { OnErr result (self.new ≡ record self.old { ticks = self.new.ticks }) }
        ensures err_ticks { OnErr result (self.new.ticks.items ≡ self.old.ticks.items) }
    {
        if n == 0 {
            return self.reach_first(setup);
        }
        if !self.is_due(n) {
            return Ok(());
        }
        match self.key(setup, n - 1) {
            None => Ok(()),
            Some(key) => {
                self.reach_after(setup, key)?;
                Ok(())
            }
        }
    }

    // Reaches the first turn.
    fn reach_first<T: Turns>(&mut self, setup: &Setup<T>) -> Result<(), NoMemory>
        requires { CanReach T.turn_of setup.now self.old.component self.old 0 }
        ensures ok { OnOk result
            (Reaching T.turn_of setup.now self.old.component self.old 0 self.new) }
        ensures err { OnErr result (self.new ≡ record self.old { ticks = self.new.ticks }) }
        ensures err_ticks { OnErr result (self.new.ticks.items ≡ self.old.ticks.items) }
    {
        if self.ticks.is_empty() {
            return self.start(setup);
        }
        Ok(())
    }

    // Reaches the first turn, where none was reached.
    fn start<T: Turns>(&mut self, setup: &Setup<T>) -> Result<(), NoMemory>
        requires { self.old.ticks.items ≡ [] }
        ensures ok { OnOk result
            (Reaching T.turn_of setup.now self.old.component self.old 0 self.new) }
        ensures err { OnErr result (self.new ≡ record self.old { ticks = self.new.ticks }) }
        ensures err_ticks { OnErr result (self.new.ticks.items ≡ self.old.ticks.items) }
    {
        self.keep_first(setup)?;
        self.tasks = setup.plan().tasks(self.component);
        Ok(())
    }

    // Keeps the tick of the first turn, if there is one, where none is kept.
    fn keep_first<T: Turns>(&mut self, setup: &Setup<T>) -> Result<(), NoMemory>
        requires { self.old.ticks.items ≡ [] }
        ensures ok { OnOk result (self.new.ticks.items ≡ option_to_list
            (tick_of (system T.turn_of setup.now) self.old.component 0)) }
        ensures kept { self.new ≡ record self.old { ticks = self.new.ticks } }
        ensures err_ticks { OnErr result (self.new.ticks.items ≡ self.old.ticks.items) }
    {
        if let Some(key) = setup.first_key(self.component) {
            self.ticks.push(key.tick)?;
        }
        Ok(())
    }

    // Whether the tick of turn `n` is to be kept, and isn't.
    #[inline(always)]
    fn is_due(&self, n: u64) -> bool
        ensures { result ≡ is_due self.now.ticks.items n }
    {
        n % TURNS_A_TICK == 0 && self.ticks.len() as u64 <= n / TURNS_A_TICK
    }

    /// Reaches the turn after the one of this key, which was reached, and gives its key, if there is one. One question to the turns.
    ///
    /// # Errors
    ///
    /// `NoMemory`; then nothing has changed.
    #[inline(always)]
    pub fn reach_after<T: Turns>(
        &mut self,
        setup: &Setup<T>,
        key: Key,
    ) -> Result<Option<Key>, NoMemory>
        requires there { Some key ≡ key_of
            (system T.turn_of setup.now) self.old.component key.number }
        requires small { key.number < 4294967296 }
        requires reached { HasReached T.turn_of setup.now self.old.component self.old key.number }
        ensures key { IfOk result (λ next. next
            ≡ key_of (system T.turn_of setup.now) self.old.component (key.number + 1)) }
        ensures small { IfOk result (λ next. IfSome next IsTurnKey) }
        ensures ok { OnOk result (Reaching T.turn_of setup.now self.old.component self.old
            (key.number + 1) self.new) }
        ensures err { OnErr result (self.new ≡ record self.old { ticks = self.new.ticks }) }
        ensures err_ticks { OnErr result (self.new.ticks.items ≡ self.old.ticks.items) }
    {
        self.make_room(key.number + 1)?;
        Ok(self.move_on(setup, key))
    }

    // Has room for the tick of turn `n`, if it is to be kept.
    #[inline(always)]
    fn make_room(&mut self, n: u64) -> Result<(), NoMemory>
        ensures room { OnOk result (HasRoom self.new n) }
        ensures kept { self.new ≡ record self.old { ticks = self.new.ticks } }
        ensures ticks { self.new.ticks.items ≡ self.old.ticks.items }
    {
        if self.is_due(n) {
            self.ticks.reserve(1)?;
        }
        Ok(())
    }

    // Reaches the turn after the one of this key, and gives its key, if there is one. There is room for its tick. The room is looked after first and
    // the turn is read in one place, so that the turns whose ticks aren't kept, which are most, don't pay for the others.
    #[inline(always)]
    fn move_on<T: Turns>(&mut self, setup: &Setup<T>, key: Key) -> Option<Key>
        requires there { Some key ≡ key_of
            (system T.turn_of setup.now) self.old.component key.number }
        requires small { key.number < 4294967296 }
        requires room { HasRoom self.old (key.number + 1) }
        requires tasks { KnowsTasks setup.now self.old.component self.old }
        ensures key { result ≡ key_of (system T.turn_of setup.now) self.old.component
            (key.number + 1) }
        ensures small { IfSome result IsTurnKey }
        ensures reaching { Reaching T.turn_of setup.now self.old.component self.old
            (key.number + 1) self.new }
    {
        let next = self.read_on(setup, key)?;
        if self.is_due(next.number) {
            self.ticks.push_reserved(next.tick);
        }
        Some(next)
    }

    // Reads the turn after the one of this key.
    #[inline(always)]
    fn read_on<T: Turns>(&mut self, setup: &Setup<T>, key: Key) -> Option<Key>
        requires there { Some key ≡ key_of
            (system T.turn_of setup.now) self.old.component key.number }
        requires small { key.number < 4294967296 }
        requires tasks { KnowsTasks setup.now self.old.component self.old }
        ensures key { result ≡ key_of (system T.turn_of setup.now) self.old.component
            (key.number + 1) }
        ensures small { IfSome result IsTurnKey }
        ensures kept { self.new.tasks ≡ self.old.tasks }
        ensures own { IsClock T.turn_of setup.now self.old.component self.old
            → IsClock T.turn_of setup.now self.old.component self.new }
        ensures ticks { self.new.ticks ≡ self.old.ticks }
    {
        let next = setup.turn_after(self.component, key, &mut self.walk)?;
        is_timed(next.key);
        self.read = NumberedTurn {
            number: next.key.number,
            turn: in_tasks(self.tasks, next.turn),
        };
        Some(next.key)
    }

    /// The key of turn `n`, which was reached, if that turn exists. At most 256 questions to the turns, and no memory.
    pub fn key<T: Turns>(&self, setup: &Setup<T>, n: u64) -> Option<Key>
        requires { HasReached T.turn_of setup.now self.now.component self.now n }
        ensures value { result ≡ key_of (system T.turn_of setup.now) self.now.component n }
        ensures bounded { IfSome result (λ key. key.number < 4294967296) }
    {
        let tick = *self.ticks.get((n / TURNS_A_TICK) as usize)?;
        let kept = Key {
            tick,
            component: self.component,
            number: n - n % TURNS_A_TICK,
        };
        key_from(setup, kept, n)
    }

    /// Turn `n`, which exists, its task below the number of the component's tasks (0 where it has none). One question to the turns, and none
    /// where this turn was read last.
    #[inline]
    pub fn turn<T: Turns>(&self, setup: &Setup<T>, n: u64) -> Turn
        requires there { IsSome (key_of (system T.turn_of setup.now) self.now.component n) }
        requires own { IsClock T.turn_of setup.now self.now.component self.now }
        ensures { Some result ≡ turn_in (system T.turn_of setup.now) self.now.component n }
    {
        if self.read.number == n {
            return self.read.turn;
        }
        match setup.turn_at(self.component, n) {
            Some(turn) => turn,
            None => unreachable!(),
        }
    }

    /// The same, where the turn after it is mostly read next: after turns were taken back, that one is then looked up no more.
    #[inline]
    pub fn turn_again<T: Turns>(&mut self, setup: &Setup<T>, n: u64) -> Turn
        requires there { IsSome (key_of (system T.turn_of setup.now) self.old.component n) }
        requires own { IsClock T.turn_of setup.now self.old.component self.old }
        ensures turn { Some result ≡ turn_in (system T.turn_of setup.now) self.old.component n }
        ensures kept { self.new ≡ record self.old { walk = self.new.walk } }
    {
        if self.read.number == n {
            return self.read.turn;
        }
        self.look_up(setup, n)
    }

    // Looks a turn up that wasn't read last. It stays a call, so that the others don't pay for it.
    #[inline(never)]
    fn look_up<T: Turns>(&mut self, setup: &Setup<T>, n: u64) -> Turn
        requires { IsSome (key_of (system T.turn_of setup.now) self.old.component n) }
        ensures turn { Some result ≡ turn_in (system T.turn_of setup.now) self.old.component n }
        ensures kept { self.new ≡ record self.old { walk = self.new.walk } }
    {
        match setup.turn_by(self.component, n, &mut self.walk) {
            Some(turn) => turn,
            None => unreachable!(),
        }
    }
}

// The key of turn `n`, if it exists, by the key of one before it, or its own.
fn key_from<T: Turns>(setup: &Setup<T>, from: Key, n: u64) -> Option<Key>
    requires there { Some from ≡ key_of (system T.turn_of setup.now) from.component from.number }
    requires small { from.number < 4294967296 }
    requires low { from.number ≤ n }
    ensures value { result ≡ key_of (system T.turn_of setup.now) from.component n }
    ensures bounded { IfSome result (λ key. key.number < 4294967296) }
{
    let mut key = from;
    let mut walk = Walk::new();
    while key.number < n {
        key = setup.turn_after(from.component, key, &mut walk)?.key;
    }
    Some(key)
}

// The rank of a key is below the end's.
#[tactic(auto, unfolding(crate::specs::Machines::end_rank))]
fn is_timed(key: Key)
    ensures { rank key < end_rank }
{
    rank_law(key);
}
