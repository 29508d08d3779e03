//! Turns, and what gives them.
ghost use Rattle.std.specs.Prelude.{◌≡◌, ℕ, ◌≤◌, ◌+◌, Option, None, Some, true};

use crate::walk::Walk;
use event_keys::Key;
use std::marker::{Send, Sync};

/// How many turns a component has at most: a turn whose number is this or more doesn't exist.
pub const MOST_TURNS: u64 = 4_294_967_296;

/// The greatest gap that a turn may have, in ticks.
pub const GREATEST_GAP: u32 = 65_535;

/// A turn of a component.
#[derive(Clone, Copy, PartialEq, Eq)]
pub struct Turn {
    /// The ticks from the turn before, or from tick 0, to this turn: 0 to 65,535.
    pub gap: u32,
    /// The number of the task whose turn it is, counted from 0.
    pub task: u32,
    /// Which of the enabled actions of the task is taken, modulo their number.
    pub choice: u32,
}

// A turn, and its tick.
#[derive(Clone, Copy)]
pub(crate) struct Timed {
    pub(crate) tick: u64,
    pub(crate) turn: Turn,
}

/// A turn that exists, with its key.
#[derive(Clone, Copy, PartialEq, Eq)]
pub struct KeyedTurn {
    pub key: Key,
    pub turn: Turn,
}

/// What gives the components their turns. Its values never change what they answer. Who writes one writes `turn` and proves the laws.
pub trait Turns: Eq + Send + Sync + Drop {
    ghost use Rattle.task_seed.specs.declared.turns.Turn.{Turn};

    ghost turn_of: { Self → ℕ → ℕ → Option Turn };

    /// Turn `n`, counted from 0, of component `i`; `None` after the last.
    fn turn(&self, i: u16, n: u64) -> Option<Turn>
        ensures { result ≡ turn_of self.now i n };

    /// The same turn, whatever the walk. Turns that are drawn are read off a walk that stands before this one, without a jump along the
    /// generator's words, and the walk then stands before the next one.
    fn turn_by(&self, i: u16, n: u64, _walk: &mut Walk) -> Option<Turn>
        ensures { result ≡ turn_of self.now i n }
    {
        self.turn(i, n)
    }

    // Every gap is 0 to 65,535 ticks.
    ghost gap_range: { (t : Self) (i n : ℕ) (turn : Turn) → turn_of t i n ≡ Some turn
        → turn.gap ≤ 65535 };

    // Equal values answer every question alike.
    ghost alike: { (s t : Self) → Self.eq s t ≡ true → (i n : ℕ) → turn_of s i n ≡ turn_of t i n };

    // After the last turn of a component there is none.
    ghost ended: { (t : Self) (i n : ℕ) → turn_of t i n ≡ None → turn_of t i (n + 1) ≡ None };
}
