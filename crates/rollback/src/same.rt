//! When two components are equal.
ghost use Rattle.std.specs.Cmp.{partial_equiv_from_equiv};
ghost use Rattle.rollback.specs.Same.{same_held};
ghost use Rattle.rollback.specs.SameLaws.{setup_equiv, same_held_equiv};

use crate::component::Component;
use task_seed::{Setup, Turns};

/// Two components are equal where their setups are, and their numbers, the bounds and the states of their bases, the numbers
/// of their first turns, their done entries, their pending inputs and their owed antimessages.
impl<T: Turns> PartialEq for Component<T> {
    ghost eq = { same_held ⟦<Setup<T> as PartialEq>⟧.eq };

    ghost laws = { partial_equiv_from_equiv (same_held_equiv (setup_equiv T.Eq.laws)) };

    fn eq(&self, other: &Component<T>) -> bool {
        self.setup == other.setup
            && self.number == other.number
            && self.base == other.base
            && self.first == other.first
            && self.store.has_same_first(&other.store)
            && self.done == other.done
            && self.pending == other.pending
            && self.owed == other.owed
    }
}

impl<T: Turns> Eq for Component<T> {
    ghost laws = { same_held_equiv (setup_equiv T.Eq.laws) };
}
