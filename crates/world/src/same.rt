//! When two worlds are equal.
ghost use Rattle.std.specs.Prelude.{◌≡◌, []};
ghost use Rattle.std.specs.Cmp.{partial_equiv_from_equiv};
ghost use Rattle.std.specs.Cmp.Lexicographic.{pointwise};
ghost use Rattle.rollback.specs.SameLaws.{setup_equiv};
ghost use Rattle.world.specs.Same.{same_world};
ghost use Rattle.world.specs.SameLaws.{same_world_equiv};

use crate::world::World;
use event_keys::Turned;
use raw_events::EventList;
use task_seed::{Setup, Turns};

/// Two worlds are equal where their setups are, and their bounds, what is in flight, their committed turns, and their components one
/// by one.
impl<T: Turns> PartialEq for World<T> {
    ghost eq = { same_world ⟦<Setup<T> as PartialEq>⟧.eq };

    ghost laws = { partial_equiv_from_equiv (same_world_equiv (setup_equiv T.Eq.laws)) };

    fn eq(&self, other: &World<T>) -> bool {
        self.setup == other.setup
            && self.bound == other.bound
            && self.flight == other.flight
            && have_same_turns(&self.committed, &other.committed)
            && self.components == other.components
    }
}

impl<T: Turns> Eq for World<T> {
    ghost laws = { same_world_equiv (setup_equiv T.Eq.laws) };
}

// Both have their cursors at the end.
fn have_same_turns(turns: &EventList<Turned>, others: &EventList<Turned>) -> bool
    requires no_more { turns.now.after ≡ [] }
    requires no_others { others.now.after ≡ [] }
    ensures { result ≡ pointwise ⟦<Turned as PartialEq>⟧.eq turns.now.before others.now.before }
{
    turns == others
}
