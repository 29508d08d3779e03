//! How many turns of a component lie below a bound.
ghost use Rattle.std.specs.Prelude.{◌≡◌, ◌≤◌, ◌<◌, ◌+◌, ℕ, Some, IfSome, length};
ghost use Rattle.event_keys.specs.Ranks.{rank_of_bound};
ghost use Rattle.plans.specs.Plans.{composition};
ghost use Rattle.task_seed.specs.Setups.{system, plan_of};
ghost use Rattle.task_seed.specs.Turning.{key_of};
ghost use Rattle.task_seed.specs.Machines.{turn_rank, end_rank};
ghost use Rattle.group_exchange.specs.ExchangeView.{is_ahead_below};

use event_keys::laws::bound_rank_law;
use event_keys::{Bound, Key};
use task_seed::{Setup, Turns, Walk};

/// How far the turns of a component are counted.
#[derive(Drop)]
pub struct Passage {
    // How many lie below the exchange's bound, and the key of the one after them.
    pub(crate) passed: u64,
    pub(crate) ahead: Option<Key>,
}

impl Passage {
    // Whether the turn after those that are counted is below a bound.
    fn is_ahead_below(&self, bound: Bound) -> bool
        ensures { result ≡ is_ahead_below (rank_of_bound bound) self.now.ahead }
    {
        match self.ahead {
            None => false,
            Some(key) => {
                bound_rank_law(Bound::At(key), bound);
                Bound::At(key) < bound
            }
        }
    }

    // Counts the turns of the component `i` below a bound, which are read by its walk.
    pub(crate) fn pass_turns<T: Turns>(
        &mut self,
        setup: &Setup<T>,
        i: u16,
        walk: &mut Walk,
        bound: Bound,
    )
        requires there { i < length (composition (plan_of setup.now)) }
        requires ahead { self.old.ahead ≡ key_of (system T.turn_of setup.now) i self.old.passed }
        requires small { IfSome self.old.ahead (λ key. key.number < 4294967296) }
        requires few { self.old.passed ≤ 4294967296 }
        requires before { (n : ℕ) → n < self.old.passed
            → turn_rank (system T.turn_of setup.now) i n < rank_of_bound bound }
        ensures ahead { self.new.ahead ≡ key_of (system T.turn_of setup.now) i self.new.passed }
        ensures small { IfSome self.new.ahead (λ key. key.number < 4294967296) }
        ensures few { self.new.passed ≤ 4294967296 }
        ensures before { (n : ℕ) → n < self.new.passed
            → turn_rank (system T.turn_of setup.now) i n < rank_of_bound bound }
        ensures from { rank_of_bound bound ≤ end_rank
            → rank_of_bound bound ≤ turn_rank (system T.turn_of setup.now) i self.new.passed }
    {
        while self.is_ahead_below(bound) {
            let Some(key) = self.ahead else {
                unreachable!();
            };
            self.passed += 1;
            self.ahead = key_after(setup, i, key, walk);
        }
    }
}

// The key of the turn of component `i` after the one of this key, if there is one.
fn key_after<T: Turns>(setup: &Setup<T>, i: u16, key: Key, walk: &mut Walk) -> Option<Key>
    requires there { Some key ≡ key_of (system T.turn_of setup.now) i key.number }
    requires small { key.number < 4294967296 }
    ensures key { result ≡ key_of (system T.turn_of setup.now) i (key.number + 1) }
    ensures small { IfSome result (λ next. next.number < 4294967296) }
{
    let next = setup.turn_after(i, key, walk)?;
    Some(next.key)
}
