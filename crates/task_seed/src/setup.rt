//! The setup of a simulation, and the keys of its turns.
ghost use Rattle.std.specs.Prelude.{◌≡◌, ℕ, ◌≤◌, ◌<◌, ◌+◌, ◌↔◌, Option, None, Some, IfSome, IfOk, IsErrOf, IsSome};
ghost use Rattle.task_seed.specs.Turning.{with_task_below};

use crate::turns::{KeyedTurn, MOST_TURNS, Timed, Turn, Turns};
use crate::walk::Walk;
use event_keys::Key;
use plans::Plan;
use terms::Refusal;
use thiserror::Error;

/// The last tick that a horizon may be.
pub const MOST_TICKS: u64 = 4_294_967_296;

/// What a simulation runs: a composition, its turns and the last tick.
#[derive(PartialEq, Eq, Drop)]
pub struct Setup<T> {
    plan: Plan,
    turns: T,
    horizon: u64,
    ghost in_range: { horizon ≤ 4294967296 },
}

/// Why a setup isn't made.
#[derive(Clone, Copy, Debug, PartialEq, Eq, Error)]
pub enum SetupError {
    /// Never answered today: making a setup takes no memory.
    #[error("out of memory")]
    NoMemory,
    /// The horizon is above 4,294,967,296 ticks.
    #[error("the horizon is too large")]
    HorizonTooLarge,
}

impl Refusal for SetupError {
    ghost use Rattle.std.specs.Prelude.{None};
    ghost use Rattle.task_seed.specs.Refusals.{setup_number};

    ghost number_of = { setup_number };

    ghost place_of = { λ _. None };

    fn number(&self) -> u8 {
        match self {
            SetupError::NoMemory => 1,
            SetupError::HorizonTooLarge => 26,
        }
    }

    fn place(&self) -> Option<usize> {
        None
    }
}

impl<T: Turns> Setup<T> {
    ghost use Rattle.std.specs.Prelude.{◌≡◌, ℕ, ◌≤◌, ◌<◌, ◌+◌, ◌↔◌, Option, None, Some, IfSome, IfOk, IsErrOf, IsSome, option_map};
    ghost use Rattle.io_automata.specs.Outcomes.{task_count};
    ghost use Rattle.plans.specs.Plans.{composition};
    ghost use Rattle.task_seed.specs.Turning.{key_at, key_of, turn_in, Reaches};
    ghost use Rattle.task_seed.specs.Steps.{tick_after, tick_with};
    ghost use Rattle.task_seed.specs.Setups.{system, plan_of, source_of, horizon_of};
    ghost use Rattle.task_seed.specs.declared.turns.Timed.{Timed};
    ghost use Rattle.task_seed.specs.declared.turns.KeyedTurn.{KeyedTurn};

    /// A setup of the plan, its turns and its horizon, the last tick.
    pub fn new(plan: Plan, turns: T, horizon: u64) -> Result<Setup<T>, SetupError>
        ensures ok { IfOk result (λ s. (plan_of s ≡ plan) × (source_of s ≡ turns)
            × (horizon_of s ≡ horizon)) }
        ensures refused { IsErrOf result SetupError.HorizonTooLarge ↔ (4294967296 < horizon) }
        ensures memory { IsErrOf result SetupError.NoMemory → ⊥ }
    {
        if horizon <= MOST_TICKS {
            Ok(Setup {
                plan,
                turns,
                horizon,
            })
        } else {
            Err(SetupError::HorizonTooLarge)
        }
    }

    /// The composition.
    pub fn plan(&self) -> &Plan
        ensures { result.now ≡ plan_of self.now }
    {
        &self.plan
    }

    /// The plan, which so serves for another setup.
    pub fn into_plan(self) -> Plan
        ensures { result ≡ plan_of self }
    {
        let Setup {
            plan,
            turns,
            horizon: _,
        } = self;
        drop(turns);
        plan
    }

    // The tick of turn `n` of component `i`, where that of the turn before is `tick`.
    fn tick_after(&self, i: u16, n: u64, tick: u64) -> Option<u64>
        requires { tick ≤ horizon_of self.now }
        ensures value { result ≡ tick_after (system T.turn_of self.now) i n tick }
        ensures later { IfSome result (λ next. tick ≤ next) }
    {
        if n >= MOST_TURNS {
            return None;
        }
        self.tick_of(self.turns.turn(i, n)?, tick)
    }

    // The tick of a turn that comes after `tick`, up to the horizon.
    #[inline(always)]
    fn tick_of(&self, turn: Turn, tick: u64) -> Option<u64>
        requires in_time { tick ≤ horizon_of self.now }
        ensures value { result ≡ tick_with (horizon_of self.now) tick (Some turn) }
        ensures later { IfSome result (λ next. tick ≤ next) }
    {
        let next = tick + u64::from(turn.gap);
        if next <= self.horizon {
            Some(next)
        } else {
            None
        }
    }

    // Turn `n` of component `i`, read by the walk, and its tick, where that of the turn before is `tick`.
    #[inline(always)]
    fn walk_after(&self, i: u16, n: u64, tick: u64, walk: &mut Walk) -> Option<Timed>
        requires { tick ≤ horizon_of self.now }
        ensures value { option_map (λ (timed : Timed). timed.tick) result
            ≡ tick_after (system T.turn_of self.now) i n tick }
        ensures turn { IfSome result
            (λ timed. (system T.turn_of self.now).turn i n ≡ Some timed.turn) }
        ensures later { IfSome result (λ timed. tick ≤ timed.tick) }
    {
        if n >= MOST_TURNS {
            return None;
        }
        let turn = self.turns.turn_by(i, n, walk)?;
        let tick = self.tick_of(turn, tick)?;
        Some(Timed { tick, turn })
    }

    /// The tick of turn `n` of component `i`, if that turn exists, where `tick` is that of the turn
    /// before (0 for the first). One question to the turns.
    pub fn next_tick(&self, i: u16, n: u64, tick: u64) -> Option<u64>
        requires { Reaches (system T.turn_of self.now) i n tick }
        ensures key { option_map (key_at i n) result ≡ key_of (system T.turn_of self.now) i n }
        ensures reached { IfSome result
            (λ next. Reaches (system T.turn_of self.now) i (n + 1) next) }
        ensures later { IfSome result (λ next. tick ≤ next) }
        ensures bounded { IfSome result (λ _. n < 4294967296) }
    {
        self.tick_after(i, n, tick)
    }

    // Turn `n` of component `i` with its tick, if that turn exists, where `tick` is that of the turn before (0 for the first). It is read by the
    // walk: one question to the turns.
    #[inline(always)]
    fn next_turn(&self, i: u16, n: u64, tick: u64, walk: &mut Walk) -> Option<Timed>
        requires { Reaches (system T.turn_of self.now) i n tick }
        ensures key { option_map (λ (timed : Timed). key_at i n timed.tick) result
            ≡ key_of (system T.turn_of self.now) i n }
        ensures turn { IfSome result
            (λ timed. (system T.turn_of self.now).turn i n ≡ Some timed.turn) }
        ensures bounded { IfSome result (λ _. n < 4294967296) }
    {
        self.walk_after(i, n, tick, walk)
    }

    /// The key of turn `n` of component `i`, if that turn exists. The work grows with `n`.
    pub fn key(&self, i: u16, n: u64) -> Option<Key>
        ensures value { result ≡ key_of (system T.turn_of self.now) i n }
        ensures bounded { IfSome result (λ _. n < 4294967296) }
    {
        let mut tick = 0;
        for k in 0..n {
            match self.next_tick(i, k, tick) {
                None => return None,
                Some(next) => tick = next,
            }
        }
        let last = self.next_tick(i, n, tick)?;
        Some(Key {
            tick: last,
            component: i,
            number: n,
        })
    }

    /// The key of the first turn of component `i`, if it has one. One question to the turns.
    pub fn first_key(&self, i: u16) -> Option<Key>
        ensures { result ≡ key_of (system T.turn_of self.now) i 0 }
    {
        self.key(i, 0)
    }

    /// The key of the turn of component `i` after the one of this key, if there is one. One question to the turns.
    pub fn key_after(&self, i: u16, key: Key) -> Option<Key>
        requires there { Some key ≡ key_of (system T.turn_of self.now) i key.number }
        requires small { key.number < 4294967296 }
        ensures value { result ≡ key_of (system T.turn_of self.now) i (key.number + 1) }
        ensures bounded { IfSome result (λ next. next.number < 4294967296) }
    {
        let tick = self.next_tick(i, key.number + 1, key.tick)?;
        Some(Key {
            tick,
            component: i,
            number: key.number + 1,
        })
    }

    /// The turn of component `i` after the one of this key, with its own key, if there is one; its task is any number. It is read by the walk: one
    /// question to the turns.
    #[inline(always)]
    pub fn turn_after(&self, i: u16, key: Key, walk: &mut Walk) -> Option<KeyedTurn>
        requires there { Some key ≡ key_of (system T.turn_of self.now) i key.number }
        requires small { key.number < 4294967296 }
        ensures key { option_map (λ (next : KeyedTurn). next.key) result
            ≡ key_of (system T.turn_of self.now) i (key.number + 1) }
        ensures turn { IfSome result
            (λ next. (system T.turn_of self.now).turn i next.key.number ≡ Some next.turn) }
        ensures bounded { IfSome result (λ next. next.key.number < 4294967296) }
    {
        let number = key.number + 1;
        let timed = self.next_turn(i, number, key.tick, walk)?;
        Some(KeyedTurn {
            key: Key {
                tick: timed.tick,
                component: i,
                number,
            },
            turn: timed.turn,
        })
    }

    /// Turn `n` of component `i`, if it exists, its task below the number of the component's tasks (0
    /// where it has none). The work grows with `n`.
    pub fn turn(&self, i: u16, n: u64) -> Option<Turn>
        ensures { result ≡ turn_in (system T.turn_of self.now) i n }
    {
        match self.key(i, n) {
            None => None,
            Some(_) => self.turn_at(i, n),
        }
    }

    /// The same for a turn that is known to exist, by one question.
    pub fn turn_at(&self, i: u16, n: u64) -> Option<Turn>
        requires { IsSome (key_of (system T.turn_of self.now) i n) }
        ensures { result ≡ turn_in (system T.turn_of self.now) i n }
    {
        self.turn_by(i, n, &mut Walk::new())
    }

    /// The same, read by the walk.
    pub fn turn_by(&self, i: u16, n: u64, walk: &mut Walk) -> Option<Turn>
        requires { IsSome (key_of (system T.turn_of self.now) i n) }
        ensures { result ≡ turn_in (system T.turn_of self.now) i n }
    {
        let turn = self.turns.turn_by(i, n, walk)?;
        Some(in_tasks(self.plan.tasks(i), turn))
    }
}

// A turn, its task below the number of a component's tasks, 0 where it has none.
#[inline(always)]
pub(crate) fn in_tasks(tasks: u32, turn: Turn) -> Turn
    ensures { result ≡ with_task_below tasks turn }
{
    let task = if tasks == 0 { 0 } else { turn.task % tasks };
    Turn { task, ..turn }
}
